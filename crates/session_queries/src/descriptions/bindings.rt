//! The descriptions of bindings.
ghost use Rattle.std.specs.Prelude.{◌≡◌, ◌∷◌, ◌++◌, [], IfOk, OnOk, map, filter};
ghost use Rattle.std.specs.Option.{option_map};
ghost use Rattle.binding_values.specs.Scene.{term_at};
ghost use Rattle.session_model.specs.BindingDescriptions.{follows, listed_after, binding_description, binding_descriptions};
ghost use Rattle.session_queries.specs.Views.{its_settings, its_state};

use crate::session_view::SessionView;
use binding_values::Binding;
use plain_types::Items;
use property_store::Property;
use session_effects::property_name;
use session_model::{Boxed, NamedProperty};
use std::alloc::AllocError;
use term_core::Expr;

/// How many bound properties are listed at most.
const LISTED: usize = 1000;

/// Lists the bound properties: all, or those after a given one.
pub(crate) fn binding_descriptions(
    session: SessionView,
    after: &Option<NamedProperty>,
) -> Result<Items<NamedProperty>, AllocError>
    ensures { IfOk result (λ listed. listed ≡ binding_descriptions (its_settings session.entry) (its_state session.entry) after.now) }
{
    let SessionView { caller, tables } = session;
    let passed = listed_after(session, after);
    let mut listed = Items::new(caller.setup.alloc);
    'rows: for row in tables.stores.bindings(caller.place) {
        if listed.len() == LISTED {
            return Ok(listed);
        }
        add_following(session, passed, row, &mut listed)?;
    }
    Ok(listed)
}

/// The object whose properties are listed first, and the last of them that is passed over.
fn listed_after(session: SessionView, after: &Option<NamedProperty>) -> (u32, Option<usize>)
    ensures { result ≡ listed_after (its_state session.entry) after.now }
{
    let SessionView { caller, tables } = session;
    let Some(after) = after else {
        return (0, None);
    };
    let name = after.property.as_str();
    match tables.declared(caller.place, after.object, name) {
        Some((number, _)) => (after.object, Some(number)),
        None => (after.object, None),
    }
}

/// Whether a property comes after those that are skipped.
fn follows(passed: (u32, Option<usize>), at: Property) -> bool
    ensures { result ≡ follows passed at }
{
    if passed.0 != at.object {
        return passed.0 < at.object;
    }
    match passed.1 {
        Some(number) => number < at.number,
        None => true,
    }
}

/// Adds a bound property if it comes after those that are skipped.
fn add_following(
    session: SessionView,
    passed: (u32, Option<usize>),
    row: &Binding,
    listed: &mut Items<NamedProperty>,
) -> Result<(), AllocError>
    ensures { OnOk result (listed.new ≡ listed.old ++ map (binding_description (its_settings session.entry) (its_state session.entry))
        (filter (λ binding. follows passed binding.at) (row.now ∷ []))) }
{
    let SessionView { caller, tables } = session;
    if follows(passed, row.at) {
        listed.push(NamedProperty {
            object: row.at.object,
            property: property_name(caller, tables, row.at)?,
        })?;
    }
    Ok(())
}

/// A copy of the expression that a property is bound to, if it is bound.
pub(crate) fn bound_expression(
    session: SessionView,
    at: Property,
) -> Result<Option<Boxed<Expr>>, AllocError>
    ensures { IfOk result (λ term. term ≡ term_at (its_state session.entry).graph.bindings at) }
{
    let SessionView { caller, tables } = session;
    let alloc = caller.setup.alloc;
    match tables.stores.expr_at(caller.place, at) {
        Some(expr) => Ok(Some(Boxed::new(alloc, expr.copy(alloc)?)?)),
        None => Ok(None),
    }
}

//! The commands that read bindings.
#![tactic(auto, using(crate::proofs::ReadingLemmas::starved_reading))]

ghost use Rattle.session_model.specs.declared.query.Query.TheVariants.{Binding, Bindings};
ghost use Rattle.session_queries.specs.Reads.{ReadsIn};

use crate::descriptions::{binding_descriptions, bound_expression};
use crate::queries::Reply;
use crate::session_view::SessionView;
use plain_types::Text;
use session_model::{Answer, NamedProperty};

/// Lists the bound properties: all, or those after a given one.
pub(crate) fn bindings(session: SessionView, after: &Option<NamedProperty>) -> Reply
    ensures { ReadsIn session.entry (Bindings after.now) result }
{
    Ok(Answer::Bindings(binding_descriptions(session, after)?))
}

/// Returns the expression that a property is bound to, if it is bound.
pub(crate) fn binding(session: SessionView, object: u32, property: &Text) -> Reply
    ensures { ReadsIn session.entry (Binding object property.now) result }
{
    let SessionView { caller, tables } = session;
    let at = tables.asked_property(caller.place, object, property.as_str())?;
    Ok(Answer::Binding(bound_expression(session, at)?))
}

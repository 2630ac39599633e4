//! Writing properties, and what is to be announced after that.
ghost use Rattle.std.specs.Prelude.{◌≡◌, ◌<◌, ℕ, Err, IfOk, List, length};
ghost use Rattle.term_core.specs.declared.action.SingleAction.TheVariants as e;
ghost use Rattle.variant_value.specs.Values.{IsShort};
ghost use Rattle.variant_value.specs.declared.value.Value.TheVariants as v;
ghost use Rattle.property_store.specs.Store.{fitting};
ghost use Rattle.session_model.specs.Writing.{Declared, acted_writing, dynamic_writing};
ghost use Rattle.session_tables.specs.Classes.{HasClass};
ghost use Rattle.session_tables.specs.Refused.{OnRefused};
ghost use Rattle.session_tables.specs.Tables.{IsPlaced, state_at};
ghost use Rattle.session_effects.specs.Actions.{KeepsOthers, Tries};
ghost use Rattle.session_effects.specs.Setup.{settings_of};
ghost use Rattle.session_effects.specs.declared.announcing.PendingAnnouncements.TheVariants.{Nothing};
ghost use Rattle.session_effects.specs.Writing.{TriesToWrite, Writes, items_of};

use crate::announcing::{PendingAnnouncements, news_of};
use crate::effects::reader;
use crate::evaluation::{evaluated, object_of};
use crate::session_context::SessionContext;
use crate::slot::Slot;
use plain_types::{Code, Fault, Text};
use session_tables::{NamedWrite, Tables};
use signature_core::Kind;
use std::alloc::AllocError;
use term_core::{Expr, Target};
use variant_value::{TEXT_BYTES, Value};

/// Does an action that writes a property, and returns what is to be announced.
pub fn set(
    caller: &SessionContext,
    tables: &mut Tables,
    slot: &Slot,
    of: &Target,
    property: &Text,
    value: &Expr,
) -> Result<PendingAnnouncements, Fault>
    requires { IsPlaced tables.old caller.now.place }
    ensures tries { Tries caller.now slot.now (e.Set of.now property.now value.now) tables.old
        (items_of (settings_of caller.now.setup.now) (state_at tables.new caller.now.place) slot.now.depth) tables.new result }
    ensures refused { OnRefused result (tables.new ≡ tables.old) }
    ensures keeps { KeepsOthers caller.now.place tables.old tables.new }
{
    let reader = reader(caller, tables, slot);
    let object = object_of(&reader, of)?;
    let class = tables.class_there(caller.place, object)?;
    let value = evaluated(caller.setup.alloc, &reader, slot.args, value)?;
    write(caller, tables, object, class, property, value)
}

/// Writes the value of an expression to a property: to a declared one as a value of its kind, and else to
/// a dynamic one.
fn write(
    caller: &SessionContext,
    tables: &mut Tables,
    object: u32,
    class: u32,
    property: &Text,
    value: Value,
) -> Result<PendingAnnouncements, Fault>
    requires placed { IsPlaced tables.old caller.now.place }
    requires class { HasClass (state_at tables.old caller.now.place) object class }
    ensures writes { TriesToWrite caller.now object
        (acted_writing (state_at tables.old caller.now.place) object property.now value) tables.old (λ told. told) tables.new result }
    ensures refused { OnRefused result (tables.new ≡ tables.old) }
    ensures keeps { KeepsOthers caller.now.place tables.old tables.new }
{
    if let Value::Text(text) = &value
        && text.as_str().len() > TEXT_BYTES
    {
        let code = refusal_of_long(caller, tables, object, property);
        return Err(Fault::Refused(code));
    }
    match tables.write_named(caller.place, object, property.as_str(), value)? {
        NamedWrite::Declared { number, changed } => {
            Ok(news_of(caller, object, class, number, changed))
        }
        NamedWrite::Undeclared(value) => {
            write_dynamic(caller, tables, object, property, value)?;
            Ok(PendingAnnouncements::Nothing)
        }
    }
}

/// Why a text that is too long is not written: it does not fit a declared property of another kind.
fn refusal_of_long(caller: &SessionContext, tables: &Tables, object: u32, property: &Text) -> Code
    requires { IsPlaced tables.now caller.now.place }
    ensures { (text : List ℕ) → TEXT_BYTES < length text
        → acted_writing (state_at tables.now caller.now.place) object property.now (v.Text text) ≡ Err result }
{
    match tables.declared(caller.place, object, property.as_str()) {
        Some((_, Kind::Text)) | None => Code::Limit,
        Some(_) => Code::BadValue,
    }
}

/// Gives a declared property a value of its kind, and returns what is to be announced.
pub fn write_declared(
    caller: &SessionContext,
    tables: &mut Tables,
    object: u32,
    class: u32,
    number: usize,
    value: Value,
) -> Result<PendingAnnouncements, AllocError>
    requires placed { IsPlaced tables.old caller.now.place }
    requires class { HasClass (state_at tables.old caller.now.place) object class }
    requires short { IsShort value }
    requires fits { fitting (state_at tables.old caller.now.place).store object number value ≡ Some value }
    ensures writes { IfOk result (λ told. Writes caller.now object (Declared number value) tables.old told tables.new) }
    ensures keeps { KeepsOthers caller.now.place tables.old tables.new }
{
    let changed = tables.write(caller.place, object, number, value)?;
    Ok(news_of(caller, object, class, number, changed))
}

/// Gives a dynamic property a value, or removes the property where the value is `Invalid`. More than
/// `DYNAMIC` of them in one object are `Limit`.
pub fn write_dynamic(
    caller: &SessionContext,
    tables: &mut Tables,
    object: u32,
    name: &Text,
    value: Value,
) -> Result<(), Fault>
    requires placed { IsPlaced tables.old caller.now.place }
    requires short { IsShort value }
    ensures writes { TriesToWrite caller.now object
        (dynamic_writing (state_at tables.old caller.now.place) object name.now value) tables.old (λ _. Nothing) tables.new result }
    ensures refused { OnRefused result (tables.new ≡ tables.old) }
    ensures keeps { KeepsOthers caller.now.place tables.old tables.new }
{
    if let Value::Invalid = &value {
        tables.remove_dynamic(caller.place, object, name.as_str());
        return Ok(());
    }
    let name = name.copy(caller.setup.alloc)?;
    tables.set_dynamic(caller.place, object, name, value)
}

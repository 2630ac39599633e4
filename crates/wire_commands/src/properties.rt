//! The commands of properties.

ghost use Rattle.std.specs.Prelude.{IfOk};
ghost use Rattle.wire_commands.specs.Commands.{from_properties};
ghost use Rattle.wire_commands.specs.Form.{Asks, AsksBy};
ghost use Rattle.wire_commands.specs.Properties.{dynamic_names, get, properties, set};

use crate::bindings;
use crate::held::{Held, held_by};
use crate::keys::{Holds, Key};
use crate::shared::{object_in, property_in};
use json_reading::{Member, is_word};
use session_model::{Command, Query};
use std::alloc::{AllocError, Global};

/// Reads a command of properties, except `set` and `get`. Any other word is read by the next family.
#[inline(always)]
#[tactic(auto, unfolding(crate::specs::Form::asked_by, crate::specs::Properties::forms, crate::specs::Shared::of_object))]
pub(crate) fn read(
    alloc: Global,
    word: &str,
    members: &mut [Member<'_>],
) -> Result<Option<Command>, AllocError>
    ensures { IfOk result (AsksBy from_properties word.now members.old) }
{
    if is_word(word, "dynamicNames") {
        return dynamic_names(members);
    }
    if is_word(word, "properties") {
        return properties(members);
    }
    bindings::read(alloc, word, members)
}

const SET: [Key; 3] = [
    Key::Needed("object", Holds::Number),
    Key::Needed("property", Holds::Name),
    Key::Needed("value", Holds::Any),
];

/// `set`: an object, a property and a value, which may be any JSON.
pub(crate) fn set(alloc: Global, members: &[Member<'_>]) -> Result<Option<Command>, AllocError>
    ensures { IfOk result (Asks set members.now) }
{
    let mut held = [Held::Absent; 3];
    if !held_by(members, &SET, &mut held) {
        return Ok(None);
    }
    let [object, property, value] = held;
    let Some(object) = object.number() else {
        return Ok(None);
    };
    let Some(property) = property.text(alloc)? else {
        return Ok(None);
    };
    let Some(value) = value.json(alloc)? else {
        return Ok(None);
    };
    Ok(Some(Command::Set {
        object,
        property,
        value,
    }))
}

/// `get`: an object and a property.
pub(crate) fn get(alloc: Global, members: &[Member<'_>]) -> Result<Option<Command>, AllocError>
    ensures { IfOk result (Asks get members.now) }
{
    let Some((object, property)) = property_in(alloc, members)? else {
        return Ok(None);
    };
    Ok(Some(Command::Ask(Query::Get { object, property })))
}

/// `dynamicNames`: an object.
fn dynamic_names(members: &[Member<'_>]) -> Result<Option<Command>, AllocError>
    ensures { IfOk result (Asks dynamic_names members.now) }
{
    let Some(object) = object_in(members) else {
        return Ok(None);
    };
    Ok(Some(Command::Ask(Query::DynamicNames { object })))
}

/// `properties`: an object.
fn properties(members: &[Member<'_>]) -> Result<Option<Command>, AllocError>
    ensures { IfOk result (Asks properties members.now) }
{
    let Some(object) = object_in(members) else {
        return Ok(None);
    };
    Ok(Some(Command::Ask(Query::Properties { object })))
}

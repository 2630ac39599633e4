//! The commands of bindings and groups.

ghost use Rattle.std.specs.Prelude.{◌≡◌, IfOk, Some, codes, option_and_then};
ghost use Rattle.serde_json.specs.Data.{object};
ghost use Rattle.serde_json.specs.Find.{get};
ghost use Rattle.json_reading.specs.Members.{members_in};
ghost use Rattle.session_model.specs.Asked.{Bind};
ghost use Rattle.wire_commands.specs.Commands.{from_bindings};
ghost use Rattle.wire_commands.specs.Form.{Asks, AsksBy, asked_in};
ghost use Rattle.wire_commands.specs.Bindings.{begin, bind, binding, binding_error, bindings, end, unbind};

use crate::classes;
use crate::held::{Held, held_by};
use crate::keys::{Holds, Key};
use crate::shared::{is_alone, property_in};
use json_reading::{Member, is_word, take_at};
use plain_types::Text;
use session_model::{Command, Query};
use std::alloc::{AllocError, Global};

/// Reads a command of bindings and groups. Any other word is read by the next family.
#[inline(always)]
#[tactic(auto, unfolding(crate::specs::Form::asked_by, crate::specs::Bindings::forms, crate::specs::Shared::alone, crate::specs::Shared::of_property))]
pub(crate) fn read(
    alloc: Global,
    word: &str,
    members: &mut [Member<'_>],
) -> Result<Option<Command>, AllocError>
    ensures { IfOk result (AsksBy from_bindings word.now members.old) }
{
    if is_word(word, "bind") {
        return bind(alloc, members);
    }
    if is_word(word, "unbind") {
        return unbind(alloc, members);
    }
    if is_word(word, "bindingError") {
        return binding_error(alloc, members);
    }
    if is_word(word, "binding") {
        return binding(alloc, members);
    }
    if is_word(word, "bindings") {
        return bindings(alloc, members);
    }
    if is_word(word, "begin") {
        return begin(members);
    }
    if is_word(word, "end") {
        return end(members);
    }
    classes::read(alloc, word, members)
}

const BIND: [Key; 3] = [
    Key::Needed("object", Holds::Number),
    Key::Needed("property", Holds::Name),
    Key::Needed("to", Holds::Any),
];

/// `bind`: an object, a property and an expression, which may be any JSON. It is moved out of the members where they
/// own it.
fn bind(alloc: Global, members: &mut [Member<'_>]) -> Result<Option<Command>, AllocError>
    ensures { IfOk result (Asks bind members.old) }
{
    let Some((object, property)) = bound_in(alloc, members)? else {
        return Ok(None);
    };
    match take_at(alloc, members, "to")? {
        Some(to) => Ok(Some(Command::Bind {
            object,
            property,
            to,
        })),
        None => Ok(None),
    }
}

/// The object and the property that `bind` names.
#[tactic(auto, using(crate::proofs::BindLemmas::bound_to))]
fn bound_in(alloc: Global, members: &[Member<'_>]) -> Result<Option<(u32, Text)>, AllocError>
    ensures { IfOk result (λ found. asked_in bind (object (members_in members.now))
        ≡ option_and_then (λ bound. option_and_then (λ to. Some (Bind bound.0 bound.1 to)) (get (codes "to") (object (members_in members.now)))) found) }
{
    let mut held = [Held::Absent; 3];
    if !held_by(members, &BIND, &mut held) {
        return Ok(None);
    }
    let [object, property, _] = held;
    let Some(object) = object.number() else {
        return Ok(None);
    };
    match property.text(alloc)? {
        Some(property) => Ok(Some((object, property))),
        None => Ok(None),
    }
}

/// `unbind`: an object and a property.
fn unbind(alloc: Global, members: &[Member<'_>]) -> Result<Option<Command>, AllocError>
    ensures { IfOk result (Asks unbind members.now) }
{
    let Some((object, property)) = property_in(alloc, members)? else {
        return Ok(None);
    };
    Ok(Some(Command::Unbind { object, property }))
}

/// `bindingError`: an object and a property.
fn binding_error(alloc: Global, members: &[Member<'_>]) -> Result<Option<Command>, AllocError>
    ensures { IfOk result (Asks binding_error members.now) }
{
    let Some((object, property)) = property_in(alloc, members)? else {
        return Ok(None);
    };
    Ok(Some(Command::Ask(Query::BindingError { object, property })))
}

/// `binding`: an object and a property.
fn binding(alloc: Global, members: &[Member<'_>]) -> Result<Option<Command>, AllocError>
    ensures { IfOk result (Asks binding members.now) }
{
    let Some((object, property)) = property_in(alloc, members)? else {
        return Ok(None);
    };
    Ok(Some(Command::Ask(Query::Binding { object, property })))
}

const BINDINGS: [Key; 1] = [Key::Optional("after", Holds::Property)];

/// `bindings`: nothing more, or the property that the list begins after.
fn bindings(alloc: Global, members: &[Member<'_>]) -> Result<Option<Command>, AllocError>
    ensures { IfOk result (Asks bindings members.now) }
{
    let mut held = [Held::Absent; 1];
    if !held_by(members, &BINDINGS, &mut held) {
        return Ok(None);
    }
    let [after] = held;
    let after = after.property(alloc)?;
    Ok(Some(Command::Ask(Query::Bindings { after })))
}

/// `begin`: nothing more.
fn begin(members: &[Member<'_>]) -> Result<Option<Command>, AllocError>
    ensures { IfOk result (Asks begin members.now) }
{
    if !is_alone(members) {
        return Ok(None);
    }
    Ok(Some(Command::Begin))
}

/// `end`: nothing more.
fn end(members: &[Member<'_>]) -> Result<Option<Command>, AllocError>
    ensures { IfOk result (Asks end members.now) }
{
    if !is_alone(members) {
        return Ok(None);
    }
    Ok(Some(Command::End))
}

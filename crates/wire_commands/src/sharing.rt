//! The commands of publications and joins, and `reset`.

ghost use Rattle.std.specs.Prelude.{◌≡◌, IfOk, map, option_and_then};
ghost use Rattle.serde_json.specs.View.{view};
ghost use Rattle.wire_commands.specs.Commands.{from_sharing};
ghost use Rattle.wire_commands.specs.Form.{Asks, AsksBy};
ghost use Rattle.wire_commands.specs.Held.{held_seen, list_of};
ghost use Rattle.wire_commands.specs.Sharing.{join, joins, leave, publications, publish, reset, texts_of, unpublish};

use crate::held::{Held, held_by};
use crate::keys::{Holds, Key};
use crate::shared::is_alone;
use json_reading::{Member, is_word};
use plain_types::{Items, Text};
use serde_json::Value;
use session_model::{Command, Query};
use std::alloc::{AllocError, Global};

/// Reads a command of publications and joins, or `reset`.
#[inline(always)]
#[tactic(auto, unfolding(crate::specs::Form::asked_by, crate::specs::Sharing::forms, crate::specs::Shared::alone))]
pub(crate) fn read(
    alloc: Global,
    word: &str,
    members: &[Member<'_>],
) -> Result<Option<Command>, AllocError>
    ensures { IfOk result (AsksBy from_sharing word.now members.now) }
{
    if is_word(word, "publish") {
        return publish(alloc, members);
    }
    if is_word(word, "unpublish") {
        return unpublish(alloc, members);
    }
    if is_word(word, "join") {
        return join(alloc, members);
    }
    if is_word(word, "leave") {
        return leave(alloc, members);
    }
    if is_word(word, "reset") {
        return reset(members);
    }
    if is_word(word, "publications") {
        return publications(members);
    }
    if is_word(word, "joins") {
        return joins(members);
    }
    Ok(None)
}

const PUBLISH: [Key; 3] = [
    Key::Needed("object", Holds::Number),
    Key::Needed("signal", Holds::Text),
    Key::Needed("name", Holds::Name),
];

/// `publish`: an object, a signal of it, and a name.
fn publish(alloc: Global, members: &[Member<'_>]) -> Result<Option<Command>, AllocError>
    ensures { IfOk result (Asks publish members.now) }
{
    let mut held = [Held::Absent; 3];
    if !held_by(members, &PUBLISH, &mut held) {
        return Ok(None);
    }
    let [object, signal, name] = held;
    let Some(object) = object.number() else {
        return Ok(None);
    };
    let (Some(signal), Some(name)) = (signal.text(alloc)?, name.text(alloc)?) else {
        return Ok(None);
    };
    Ok(Some(Command::Publish {
        object,
        signal,
        name,
    }))
}

const UNPUBLISH: [Key; 1] = [Key::Needed("name", Holds::Name)];

/// `unpublish`: a name.
fn unpublish(alloc: Global, members: &[Member<'_>]) -> Result<Option<Command>, AllocError>
    ensures { IfOk result (Asks unpublish members.now) }
{
    let mut held = [Held::Absent; 1];
    if !held_by(members, &UNPUBLISH, &mut held) {
        return Ok(None);
    }
    let [name] = held;
    let Some(name) = name.text(alloc)? else {
        return Ok(None);
    };
    Ok(Some(Command::Unpublish { name }))
}

const JOIN: [Key; 5] = [
    Key::Needed("from", Holds::Name),
    Key::Needed("name", Holds::Name),
    Key::Needed("types", Holds::List),
    Key::Needed("object", Holds::Number),
    Key::Needed("method", Holds::Text),
];

/// `join`: a session, a name under which it publishes, the types of what it publishes so, and an object with
/// a method that is called.
fn join(alloc: Global, members: &[Member<'_>]) -> Result<Option<Command>, AllocError>
    ensures { IfOk result (Asks join members.now) }
{
    let mut held = [Held::Absent; 5];
    if !held_by(members, &JOIN, &mut held) {
        return Ok(None);
    }
    let [from, name, types, object, method] = held;
    let Some(object) = object.number() else {
        return Ok(None);
    };
    let (Some(from), Some(name)) = (from.text(alloc)?, name.text(alloc)?) else {
        return Ok(None);
    };
    let (Some(types), Some(method)) = (texts_in(alloc, &types)?, method.text(alloc)?) else {
        return Ok(None);
    };
    Ok(Some(Command::Join {
        from,
        name,
        types,
        object,
        method,
    }))
}

/// The texts of an array, where one is held and each of its elements is a text.
fn texts_in(alloc: Global, held: &Held<'_, '_>) -> Result<Option<Items<Text>>, AllocError>
    ensures { IfOk result (λ texts. texts ≡ option_and_then texts_of (list_of (held_seen held.now))) }
{
    match held.list(alloc)? {
        Some(elements) => texts_of(alloc, elements.as_slice()),
        None => Ok(None),
    }
}

/// The texts that these are, where each is one.
fn texts_of(alloc: Global, elements: &[Value]) -> Result<Option<Items<Text>>, AllocError>
    ensures { IfOk result (λ texts. texts ≡ texts_of (map view elements.now)) }
{
    let mut texts = Items::new(alloc);
    'elements: for element in elements {
        let Some(text) = element.as_str() else {
            return Ok(None);
        };
        texts.push(Text::from_str(alloc, text)?)?;
    }
    Ok(Some(texts))
}

const LEAVE: [Key; 4] = [
    Key::Needed("from", Holds::Name),
    Key::Needed("name", Holds::Name),
    Key::Needed("object", Holds::Number),
    Key::Needed("method", Holds::Text),
];

/// `leave`: the keys of the join, except its types.
fn leave(alloc: Global, members: &[Member<'_>]) -> Result<Option<Command>, AllocError>
    ensures { IfOk result (Asks leave members.now) }
{
    let mut held = [Held::Absent; 4];
    if !held_by(members, &LEAVE, &mut held) {
        return Ok(None);
    }
    let [from, name, object, method] = held;
    let Some(object) = object.number() else {
        return Ok(None);
    };
    let (Some(from), Some(name)) = (from.text(alloc)?, name.text(alloc)?) else {
        return Ok(None);
    };
    let Some(method) = method.text(alloc)? else {
        return Ok(None);
    };
    Ok(Some(Command::Leave {
        from,
        name,
        object,
        method,
    }))
}

/// `reset`: no other keys.
fn reset(members: &[Member<'_>]) -> Result<Option<Command>, AllocError>
    ensures { IfOk result (Asks reset members.now) }
{
    if !is_alone(members) {
        return Ok(None);
    }
    Ok(Some(Command::Reset))
}

/// `publications`: nothing more.
fn publications(members: &[Member<'_>]) -> Result<Option<Command>, AllocError>
    ensures { IfOk result (Asks publications members.now) }
{
    if !is_alone(members) {
        return Ok(None);
    }
    Ok(Some(Command::Ask(Query::Publications)))
}

/// `joins`: nothing more.
fn joins(members: &[Member<'_>]) -> Result<Option<Command>, AllocError>
    ensures { IfOk result (Asks joins members.now) }
{
    if !is_alone(members) {
        return Ok(None);
    }
    Ok(Some(Command::Ask(Query::Joins)))
}

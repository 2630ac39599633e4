//! The commands of trees of objects.

ghost use Rattle.std.specs.Prelude.{IfOk};
ghost use Rattle.wire_commands.specs.Commands.{from_trees};
ghost use Rattle.wire_commands.specs.Form.{Asks, AsksBy};
ghost use Rattle.wire_commands.specs.Trees.{children, delete, describe_object, find, find_all, new, parent, set_parent};

use crate::held::{Held, held_by};
use crate::keys::{Holds, Key};
use crate::properties;
use crate::shared::{Search, object_in, search_in};
use json_reading::{Member, is_word};
use session_model::{Command, Query};
use std::alloc::{AllocError, Global};

/// Reads a command of trees of objects, except `new`. Any other word is read by the next family.
#[inline(always)]
#[tactic(auto, unfolding(crate::specs::Form::asked_by, crate::specs::Trees::forms, crate::specs::Shared::of_object, crate::specs::Shared::of_search))]
pub(crate) fn read(
    alloc: Global,
    word: &str,
    members: &mut [Member<'_>],
) -> Result<Option<Command>, AllocError>
    ensures { IfOk result (AsksBy from_trees word.now members.old) }
{
    if is_word(word, "delete") {
        return delete(members);
    }
    if is_word(word, "setParent") {
        return set_parent(members);
    }
    if is_word(word, "children") {
        return children(members);
    }
    if is_word(word, "find") {
        return find(alloc, members);
    }
    if is_word(word, "parent") {
        return parent(members);
    }
    if is_word(word, "findAll") {
        return find_all(alloc, members);
    }
    if is_word(word, "object") {
        return describe_object(members);
    }
    properties::read(alloc, word, members)
}

const NEW: [Key; 2] = [
    Key::Needed("class", Holds::Name),
    Key::Optional("parent", Holds::Number),
];

/// `new`: a class, and a parent where one is named.
pub(crate) fn new(alloc: Global, members: &[Member<'_>]) -> Result<Option<Command>, AllocError>
    ensures { IfOk result (Asks new members.now) }
{
    let mut held = [Held::Absent; 2];
    if !held_by(members, &NEW, &mut held) {
        return Ok(None);
    }
    let [class, parent] = held;
    let Some(class) = class.text(alloc)? else {
        return Ok(None);
    };
    let parent = parent.number();
    Ok(Some(Command::New { class, parent }))
}

/// `delete`: an object.
fn delete(members: &[Member<'_>]) -> Result<Option<Command>, AllocError>
    ensures { IfOk result (Asks delete members.now) }
{
    let Some(object) = object_in(members) else {
        return Ok(None);
    };
    Ok(Some(Command::Delete { object }))
}

const SET_PARENT: [Key; 2] = [
    Key::Needed("object", Holds::Number),
    Key::Needed("parent", Holds::NumberOrNull),
];

/// `setParent`: an object, and its parent or null.
fn set_parent(members: &[Member<'_>]) -> Result<Option<Command>, AllocError>
    ensures { IfOk result (Asks set_parent members.now) }
{
    let mut held = [Held::Absent; 2];
    if !held_by(members, &SET_PARENT, &mut held) {
        return Ok(None);
    }
    let [object, parent] = held;
    let Some(object) = object.number() else {
        return Ok(None);
    };
    let parent = parent.number();
    Ok(Some(Command::SetParent { object, parent }))
}

const CHILDREN: [Key; 1] = [Key::Optional("object", Holds::Number)];

/// `children`: an object, or none for the roots.
fn children(members: &[Member<'_>]) -> Result<Option<Command>, AllocError>
    ensures { IfOk result (Asks children members.now) }
{
    let mut held = [Held::Absent; 1];
    if !held_by(members, &CHILDREN, &mut held) {
        return Ok(None);
    }
    let [object] = held;
    let object = object.number();
    Ok(Some(Command::Ask(Query::Children { object })))
}

/// `find`: an object, and a name and a class where these are given.
fn find(alloc: Global, members: &[Member<'_>]) -> Result<Option<Command>, AllocError>
    ensures { IfOk result (Asks find members.now) }
{
    let Some(
        Search {
            object,
            name,
            class,
        },
    ) = search_in(alloc, members)?
    else {
        return Ok(None);
    };
    Ok(Some(Command::Ask(Query::Find {
        object,
        name,
        class,
    })))
}

/// `parent`: an object.
fn parent(members: &[Member<'_>]) -> Result<Option<Command>, AllocError>
    ensures { IfOk result (Asks parent members.now) }
{
    let Some(object) = object_in(members) else {
        return Ok(None);
    };
    Ok(Some(Command::Ask(Query::Parent { object })))
}

/// `findAll`: an object, and a name and a class where these are given.
fn find_all(alloc: Global, members: &[Member<'_>]) -> Result<Option<Command>, AllocError>
    ensures { IfOk result (Asks find_all members.now) }
{
    let Some(
        Search {
            object,
            name,
            class,
        },
    ) = search_in(alloc, members)?
    else {
        return Ok(None);
    };
    Ok(Some(Command::Ask(Query::FindAll {
        object,
        name,
        class,
    })))
}

/// `object`: an object.
fn describe_object(members: &[Member<'_>]) -> Result<Option<Command>, AllocError>
    ensures { IfOk result (Asks describe_object members.now) }
{
    let Some(object) = object_in(members) else {
        return Ok(None);
    };
    Ok(Some(Command::Ask(Query::Object { object })))
}

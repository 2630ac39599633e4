//! The commands of classes and functors.

ghost use Rattle.std.specs.Prelude.{IfOk};
ghost use Rattle.wire_commands.specs.Commands.{from_classes};
ghost use Rattle.wire_commands.specs.Form.{Asks, AsksBy};
ghost use Rattle.wire_commands.specs.Classes.{classes, describe, functors, meta};

use crate::shared::{class_in, is_alone};
use crate::signals;
use json_reading::{Member, is_word};
use session_model::{Command, Query};
use std::alloc::{AllocError, Global};

/// Reads a command of classes and functors. Any other word is read by the next family.
#[inline(always)]
#[tactic(auto, unfolding(crate::specs::Form::asked_by, crate::specs::Classes::forms, crate::specs::Shared::alone, crate::specs::Shared::of_class))]
pub(crate) fn read(
    alloc: Global,
    word: &str,
    members: &[Member<'_>],
) -> Result<Option<Command>, AllocError>
    ensures { IfOk result (AsksBy from_classes word.now members.now) }
{
    if is_word(word, "meta") {
        return meta(alloc, members);
    }
    if is_word(word, "classes") {
        return classes(members);
    }
    if is_word(word, "describe") {
        return describe(alloc, members);
    }
    if is_word(word, "functors") {
        return functors(members);
    }
    signals::read(alloc, word, members)
}

/// `meta`: a class.
fn meta(alloc: Global, members: &[Member<'_>]) -> Result<Option<Command>, AllocError>
    ensures { IfOk result (Asks meta members.now) }
{
    match class_in(alloc, members)? {
        Some(class) => Ok(Some(Command::Ask(Query::Meta { class }))),
        None => Ok(None),
    }
}

/// `classes`: nothing more.
fn classes(members: &[Member<'_>]) -> Result<Option<Command>, AllocError>
    ensures { IfOk result (Asks classes members.now) }
{
    if !is_alone(members) {
        return Ok(None);
    }
    Ok(Some(Command::Ask(Query::Classes)))
}

/// `describe`: a class.
fn describe(alloc: Global, members: &[Member<'_>]) -> Result<Option<Command>, AllocError>
    ensures { IfOk result (Asks describe members.now) }
{
    match class_in(alloc, members)? {
        Some(class) => Ok(Some(Command::Ask(Query::Describe { class }))),
        None => Ok(None),
    }
}

/// `functors`: nothing more.
fn functors(members: &[Member<'_>]) -> Result<Option<Command>, AllocError>
    ensures { IfOk result (Asks functors members.now) }
{
    if !is_alone(members) {
        return Ok(None);
    }
    Ok(Some(Command::Ask(Query::Functors)))
}

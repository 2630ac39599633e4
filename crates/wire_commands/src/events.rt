//! The commands of the event loop.

ghost use Rattle.std.specs.Prelude.{IfOk};
ghost use Rattle.wire_commands.specs.Commands.{from_events};
ghost use Rattle.wire_commands.specs.Form.{Asks, AsksBy};
ghost use Rattle.wire_commands.specs.Events.{block, delete_later, spin, status};

use crate::held::{Held, held_by};
use crate::keys::{Holds, Key};
use crate::shared::{is_alone, object_in};
use crate::sharing;
use json_reading::{Member, is_word};
use session_model::{Command, Query};
use std::alloc::{AllocError, Global};

/// Reads a command of the event loop. Any other word is read by the next family.
#[inline(always)]
#[tactic(auto, unfolding(crate::specs::Form::asked_by, crate::specs::Events::forms, crate::specs::Shared::alone, crate::specs::Shared::of_object))]
pub(crate) fn read(
    alloc: Global,
    word: &str,
    members: &[Member<'_>],
) -> Result<Option<Command>, AllocError>
    ensures { IfOk result (AsksBy from_events word.now members.now) }
{
    if is_word(word, "spin") {
        return spin(members);
    }
    if is_word(word, "deleteLater") {
        return delete_later(members);
    }
    if is_word(word, "block") {
        return block(members);
    }
    if is_word(word, "status") {
        return status(members);
    }
    sharing::read(alloc, word, members)
}

/// `spin`: nothing more.
fn spin(members: &[Member<'_>]) -> Result<Option<Command>, AllocError>
    ensures { IfOk result (Asks spin members.now) }
{
    if !is_alone(members) {
        return Ok(None);
    }
    Ok(Some(Command::Spin))
}

/// `deleteLater`: an object.
fn delete_later(members: &[Member<'_>]) -> Result<Option<Command>, AllocError>
    ensures { IfOk result (Asks delete_later members.now) }
{
    let Some(object) = object_in(members) else {
        return Ok(None);
    };
    Ok(Some(Command::DeleteLater { object }))
}

const BLOCK: [Key; 2] = [
    Key::Needed("object", Holds::Number),
    Key::Needed("on", Holds::Truth),
];

/// `block`: an object, and whether its signals are blocked.
fn block(members: &[Member<'_>]) -> Result<Option<Command>, AllocError>
    ensures { IfOk result (Asks block members.now) }
{
    let mut held = [Held::Absent; 2];
    if !held_by(members, &BLOCK, &mut held) {
        return Ok(None);
    }
    let [object, on] = held;
    let Some(object) = object.number() else {
        return Ok(None);
    };
    let on = on.truth();
    Ok(Some(Command::Block { object, on }))
}

/// `status`: nothing more.
fn status(members: &[Member<'_>]) -> Result<Option<Command>, AllocError>
    ensures { IfOk result (Asks status members.now) }
{
    if !is_alone(members) {
        return Ok(None);
    }
    Ok(Some(Command::Ask(Query::Status)))
}

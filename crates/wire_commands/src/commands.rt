//! The commands.
ghost use Rattle.std.specs.Prelude.{◌≡◌, IfOk, option_map};
ghost use Rattle.serde_json.specs.Data.{object};
ghost use Rattle.json_reading.specs.Members.{members_in};
ghost use Rattle.session_model.specs.Asked.{asked};
ghost use Rattle.wire_commands.specs.Commands.{asked_of};

use crate::{properties, signals, trees};
use json_reading::{Member, is_word, text_at};
use session_model::Command;
use std::alloc::{AllocError, Global};

/// Returns the command that the members ask for. The four that are given most are read first. Any other word is read by
/// the families of commands in turn: each passes on a word that is not one of its own. An expression that the members
/// own is moved into the command, not copied.
#[inline(always)]
#[tactic(auto, unfolding(crate::specs::Commands::asked_of, crate::specs::Form::asked_by, crate::specs::Shared::of_property))]
pub fn command_in(alloc: Global, members: &mut [Member<'_>]) -> Result<Option<Command>, AllocError>
    ensures { IfOk result (λ command. option_map asked command ≡ asked_of (object (members_in members.old))) }
{
    let Some(word) = text_at(members, "do") else {
        return Ok(None);
    };
    if is_word(word, "set") {
        return properties::set(alloc, members);
    }
    if is_word(word, "get") {
        return properties::get(alloc, members);
    }
    if is_word(word, "new") {
        return trees::new(alloc, members);
    }
    if is_word(word, "invoke") {
        return signals::invoke(alloc, members);
    }
    trees::read(alloc, word, members)
}

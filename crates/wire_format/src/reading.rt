//! Reading a line.
ghost use Rattle.std.specs.Prelude.{◌≡◌, Err, IfOk, MatchOption, option_map, codes};
ghost use Rattle.serde_json.specs.Data.{object};
ghost use Rattle.serde_json.specs.Read.{read};
ghost use Rattle.std.specs.Option.{ok_or};
ghost use Rattle.json_reading.specs.Fields.{name_at};
ghost use Rattle.json_reading.specs.Members.{members_in};
ghost use Rattle.session_model.specs.Asked.{asked, tag};
ghost use Rattle.wire_format.specs.Command.{Gives, command_by, command_in, command_of, json_in, not_a_command, unreadable};

use crate::fault::{LineFault, ReadError};
use crate::line::LINE_BYTES;
use json::Scratch;
use json_reading::{Member, Stop, name_at, plain_members, read_json, text_at, tree_members};
use plain_types::{Code, Text};
use session_model::{Command, Tagged};
use std::alloc::{AllocError, Global};
use wire_commands::command_in;

/// The command that the line is. A line that is too long, is no UTF-8 or is no JSON is
/// `UnreadableLine` for no session; any other line that is no command is `NotACommand` for the
/// session that it names. One scratch serves for many lines.
#[tactic(auto, unfolding(crate::specs::Command::command_of))]
pub fn read_line(alloc: Global, scratch: &mut Scratch, line: &[u8]) -> Result<Tagged, ReadError>
    ensures { Gives tag result (command_of line.now) }
{
    let Some(text) = text_in(line) else {
        return Err(unreadable());
    };
    let stop = match plain_members(alloc, text, scratch) {
        Ok(mut members) => return tagged_in(alloc, &mut members),
        Err(stop) => stop,
    };
    match stop {
        Stop::NotJson => Err(unreadable()),
        Stop::Memory => Err(ReadError::Memory),
        Stop::Form | Stop::Nested => read_tree(alloc, scratch, text),
    }
}

/// The text of the line, unless it is too long or not UTF-8.
#[tactic(auto, unfolding(crate::specs::Command::json_in))]
pub fn text_in(line: &[u8]) -> Option<&str>
    ensures { MatchOption result (json_in line.now ≡ Err unreadable)
        (λ text. json_in line.now ≡ ok_or (read text.now) unreadable) }
{
    if line.len() > LINE_BYTES {
        return None;
    }
    match str::from_utf8(line) {
        Ok(text) => Some(text),
        Err(_) => None,
    }
}

/// The command that a text is that is read as a tree.
#[inline(never)]
#[tactic(auto, using(crate::proofs::CommandLemmas::no_object, crate::proofs::CommandLemmas::an_object))]
fn read_tree(alloc: Global, scratch: &mut Scratch, text: &str) -> Result<Tagged, ReadError>
    ensures { Gives tag result (command_by (ok_or (read text.now) unreadable)) }
{
    let Some(tree) = read_json(alloc, text, scratch)? else {
        return Err(unreadable());
    };
    match tree_members(alloc, &tree)? {
        Some(mut members) => tagged_in(alloc, &mut members),
        None => Err(not_a_command(None)),
    }
}

/// The command that the members are.
#[tactic(auto, unfolding(crate::specs::Command::command_in))]
fn tagged_in(alloc: Global, members: &mut [Member<'_>]) -> Result<Tagged, ReadError>
    ensures { Gives tag result (command_in (object (members_in members.old))) }
{
    let Some(session) = session_of(alloc, members)? else {
        return Err(not_a_command(None));
    };
    let Some(command) = command_in(alloc, members)? else {
        return Err(not_a_command(Some(session)));
    };
    Ok(Tagged { session, command })
}

fn unreadable() -> ReadError
    ensures { result ≡ ReadError.Fault unreadable }
{
    ReadError::Fault(LineFault {
        code: Code::UnreadableLine,
        session: None,
    })
}

fn not_a_command(session: Option<Text>) -> ReadError
    ensures { result ≡ ReadError.Fault (not_a_command session) }
{
    ReadError::Fault(LineFault {
        code: Code::NotACommand,
        session,
    })
}

/// The session that the members name.
fn session_of(alloc: Global, members: &[Member<'_>]) -> Result<Option<Text>, AllocError>
    ensures { IfOk result (λ session. session ≡ name_at (codes "session") (object (members_in members.now))) }
{
    match name_at(members, "session") {
        Some(name) => Ok(Some(Text::from_str(alloc, name)?)),
        None => Ok(None),
    }
}

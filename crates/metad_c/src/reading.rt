//! Reading a line for a session that the host program names.
ghost use Rattle.std.specs.Prelude.{◌≡◌, Some};
ghost use Rattle.serde_json.specs.Data.{object};
ghost use Rattle.serde_json.specs.Read.{read};
ghost use Rattle.std.specs.Option.{ok_or};
ghost use Rattle.json_reading.specs.Members.{members_in};
ghost use Rattle.session_model.specs.Asked.{tag};
ghost use Rattle.wire_format.specs.Command.{Gives, given_by, not_a_command, unreadable};
ghost use Rattle.metad_c.specs.Reading.{command_for, command_for_by};

use json::Scratch;
use json_reading::{Member, Stop, plain_members, read_json, tree_members};
use plain_types::{Code, Text};
use session_model::Tagged;
use std::alloc::Global;
use wire_commands::command_in;
use wire_format::{LineFault, ReadError, text_in};

/// Reads a line as a command for this session. The line need not name a session, and one that it names is ignored.
/// If the line is no command, its fault is reported for this session.
#[tactic(auto, unfolding(crate::specs::Reading::command_for))]
pub(crate) fn read_line_for(
    alloc: Global,
    scratch: &mut Scratch,
    line: &[u8],
    session: &Text,
) -> Result<Tagged, ReadError>
    ensures { Gives tag result (command_for session.now line.now) }
{
    let session = session.copy(alloc)?;
    let Some(text) = text_in(line) else {
        return Err(fault_of(session, Code::UnreadableLine));
    };
    let stop = match plain_members(alloc, text, scratch) {
        Ok(mut members) => return given_in(alloc, &mut members, session),
        Err(stop) => stop,
    };
    match stop {
        Stop::NotJson => Err(fault_of(session, Code::UnreadableLine)),
        Stop::Memory => Err(ReadError::Memory),
        Stop::Form | Stop::Nested => read_tree_for(alloc, scratch, text, session),
    }
}

/// Reads a text as a JSON tree, and the tree as a command for this session.
#[tactic(auto, using(crate::proofs::ReadingLemmas::no_object_for, crate::proofs::ReadingLemmas::an_object))]
fn read_tree_for(
    alloc: Global,
    scratch: &mut Scratch,
    text: &str,
    session: Text,
) -> Result<Tagged, ReadError>
    ensures { Gives tag result (command_for_by session (ok_or (read text.now) unreadable)) }
{
    let Some(tree) = read_json(alloc, text, scratch)? else {
        return Err(fault_of(session, Code::UnreadableLine));
    };
    match tree_members(alloc, &tree)? {
        Some(mut members) => given_in(alloc, &mut members, session),
        None => Err(fault_of(session, Code::NotACommand)),
    }
}

/// Reads the members of a JSON object as a command for this session.
fn given_in(alloc: Global, members: &mut [Member<'_>], session: Text) -> Result<Tagged, ReadError>
    ensures { Gives tag result (given_by session (object (members_in members.old))) }
{
    match command_in(alloc, members)? {
        Some(command) => Ok(Tagged { session, command }),
        None => Err(fault_of(session, Code::NotACommand)),
    }
}

fn fault_of(session: Text, code: Code) -> ReadError
    ensures { result ≡ ReadError.Fault (record { code = code; session = Some session }) }
{
    ReadError::Fault(LineFault {
        code,
        session: Some(session),
    })
}

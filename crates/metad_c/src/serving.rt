//! Answers lines with the server of a handle.
ghost use Rattle.std.specs.Prelude.{◌≡◌, ℕ, List, Result, Some};
ghost use Rattle.isolation.specs.Machine.{Tagged as TaggedSeen};
ghost use Rattle.session_model.specs.Asked.{Asked, tag};
ghost use Rattle.wire_format.specs.declared.fault.LineFault.{LineFault as FaultSeen};
ghost use Rattle.wire_format.specs.Command.{Gives};
ghost use Rattle.wire_format.specs.Input.{piece_from, piece_of};
ghost use Rattle.metad_c.specs.Answers.{Comes, seen};
ghost use Rattle.metad_c.specs.Reading.{piece_for};
ghost use Rattle.metad_c.specs.Saying.{Obeys, SaysFault, SaysUnread, said_or};

use crate::kept::Kept;
use crate::outcome::Outcome;
use crate::reading::read_line_for;
use plain_types::{Code, Text};
use session_model::{Line, Tagged};
use std::alloc::{AllocError, Global};
use wire_format::{LineFault, ReadError, is_blank, read_line};

/// Answers a line, which is given without its end.
pub(crate) fn serve(alloc: Global, kept: &mut Kept, line: &[u8]) -> Outcome
    ensures { Comes (seen kept.old) (seen kept.new) (piece_of line.now) result }
{
    if is_blank(line) {
        return Outcome::Said;
    }
    let read = read_line(alloc, &mut kept.scratch, line);
    answer(alloc, kept, read)
}

/// Answers a line for this session, whatever session the line names.
pub(crate) fn serve_for(alloc: Global, kept: &mut Kept, session: &Text, line: &[u8]) -> Outcome
    ensures { Comes (seen kept.old) (seen kept.new) (piece_for session.now line.now) result }
{
    if is_blank(line) {
        return Outcome::Said;
    }
    let read = read_line_for(alloc, &mut kept.scratch, line, session);
    answer(alloc, kept, read)
}

/// Answers a line that has been read with this result.
fn answer(alloc: Global, kept: &mut Kept, read: Result<Tagged, ReadError>) -> Outcome
    ensures { (wanted : Result (TaggedSeen (List ℕ) Asked) FaultSeen) → Gives tag read wanted
        → Comes (seen kept.old) (seen kept.new) (Some (piece_from wanted)) result }
{
    match read {
        Ok(given) => obey(alloc, kept, &given),
        Err(ReadError::Fault(fault)) => say_fault(alloc, kept, &fault),
        Err(ReadError::Memory) => say_unread(alloc, kept),
    }
}

/// Lets the server do a command, and outputs its lines, or that memory ran out.
fn obey(alloc: Global, kept: &mut Kept, given: &Tagged) -> Outcome
    ensures { Obeys (seen kept.old) (seen kept.new) (tag given.now) result }
{
    let session = given.session.as_str();
    match kept.server.step(&kept.functors, given) {
        Ok(lines) => {
            let said = kept.output.say_all(alloc, session, lines.as_slice());
            said_or(Outcome::Unsaid, said)
        }
        Err(AllocError) => {
            let line = Line::Error(Code::OutOfMemory);
            let said = kept.output.say(alloc, session, &line);
            said_or(Outcome::Unsaid, said)
        }
    }
}

/// Outputs the refusal of a line that is no command.
fn say_fault(alloc: Global, kept: &mut Kept, fault: &LineFault) -> Outcome
    ensures { SaysFault (seen kept.old) (seen kept.new) fault.now result }
{
    let line = Line::Error(fault.code);
    let said = kept.output.say(alloc, fault.blamed(), &line);
    said_or(Outcome::Undone, said)
}

/// Notes that there was no memory to read a line, and outputs this.
fn say_unread(alloc: Global, kept: &mut Kept) -> Outcome
    ensures { SaysUnread (seen kept.old) (seen kept.new) result }
{
    kept.server.note_memory_refused();
    let line = Line::Error(Code::OutOfMemory);
    let said = kept.output.say(alloc, "-", &line);
    said_or(Outcome::Undone, said)
}

/// The outcome of a line: `Said` if its answer is in the output, otherwise `lost`.
fn said_or(lost: Outcome, said: Result<(), AllocError>) -> Outcome
    ensures { result ≡ said_or lost said }
{
    match said {
        Ok(()) => Outcome::Said,
        Err(AllocError) => lost,
    }
}

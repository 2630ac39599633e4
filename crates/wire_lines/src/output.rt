//! The output gathers lines on their way to a sink.
ghost use Rattle.std.specs.Prelude.{◌≡◌, [], IsTrue, IfOk, List, ℕ, Some, Err, false};
ghost use Rattle.std.specs.List.{flat_map};
ghost use Rattle.server_world.specs.Server.{OnlyRefused, seen_as, settings};
ghost use Rattle.session_model.specs.Asked.{tag};
ghost use Rattle.session_model.specs.declared.line.Line.TheVariants.{Error};
ghost use Rattle.plain_types.specs.declared.code.Code.TheVariants.{OutOfMemory};
ghost use Rattle.wire_format.specs.Counts.{CountsErrors};
ghost use Rattle.wire_format.specs.Command.{command_of};
ghost use Rattle.wire_format.specs.Input.{piece_from};
ghost use Rattle.wire_format.specs.Parts.{has_parts, text_of_parts};
ghost use Rattle.wire_format.specs.Text.{text_of_line, is_session_text};
ghost use Rattle.wire_lines.specs.Sending.{Sent, SentAll, out};
ghost use Rattle.wire_lines.specs.Steps.{IsAnswered, IsDone};
ghost use Rattle.wire_lines.specs.declared.fault.RunFault.TheVariants.{Memory};
ghost use Rattle.wire_lines.specs.Stream.{IsStuckBy, SendFails, by_sink};

use crate::buffer::{BUFFER_BYTES, Buffer};
use crate::fault::RunFault;
use plain_types::Code;
use server_world::Server;
use session_model::{Line, Tagged};
use std::alloc::{AllocError, Global};
use wire_format::{
    CALL_BYTES, Digits, Failed, Parts, ReadError, Scratch, Sink, call_text, error_parts,
    line_parts, read_line, write_line,
};

/// The text that is gathered for a sink.
#[derive(Drop)]
pub struct Output {
    alloc: Global,
    /// The bytes that are written next: all of them before each read.
    pub gathered: Buffer,
    /// The text of a line that is not said in parts, in memory that serves for all of them. A line
    /// of more than [`BUFFER_BYTES`] makes it grow.
    text: String,
    /// The reading of a line writes to this, which is kept for all of them.
    scratch: Scratch,
}

impl Output {
    pub fn new(alloc: Global) -> Result<Output, AllocError>
        ensures { IfOk result (λ output. output.gathered ≡ []) }
    {
        Ok(Output {
            alloc,
            gathered: Buffer::new(alloc)?,
            text: String::with_capacity(alloc, BUFFER_BYTES)?,
            scratch: Scratch::new(alloc),
        })
    }

    /// Says what is answered to a line that is not blank.
    pub fn serve<W: Sink>(
        &mut self,
        line: &[u8],
        server: &mut Server,
        writer: &mut W,
    ) -> Result<(), RunFault>
        ensures answered { (text : List ℕ) × IsAnswered (seen_as server.old) (Some (piece_from (command_of line.now))) text (seen_as server.new)
            × SentAll (out (W.held writer.old) self.old.gathered) (out (W.held writer.new) self.new.gathered) result text }
        ensures failed { SendFails (W.failures writer.old) (W.failures writer.new) result }
        ensures stuck { result ≡ Err Memory → IsStuckBy []
            (λ text. IsAnswered (seen_as server.old) (Some (piece_from (command_of line.now))) text (seen_as server.new))
            (out (W.held writer.old) self.old.gathered) (out (W.held writer.new) self.new.gathered) }
    {
        match read_line(self.alloc, &mut self.scratch, line) {
            Ok(given) => self.obey(&given, server, writer),
            Err(ReadError::Fault(fault)) => by_sink(self.say_error(
                fault.code,
                fault.blamed(),
                writer,
            )),
            Err(ReadError::Memory) => by_sink(self.say_out_of_memory("-", server, writer)),
        }
    }

    /// Notes that memory ran out outside the server, and outputs this.
    fn say_out_of_memory<W: Sink>(
        &mut self,
        session: &str,
        server: &mut Server,
        writer: &mut W,
    ) -> Result<(), Failed>
        requires { IsTrue (is_session_text session.now) }
        ensures only { OnlyRefused (seen_as server.old) (seen_as server.new) }
        ensures settings { settings (seen_as server.new) ≡ settings (seen_as server.old) }
        ensures said { SentAll (out (W.held writer.old) self.old.gathered) (out (W.held writer.new) self.new.gathered) result
            (text_of_line session.now (Error OutOfMemory)) }
        ensures failed { CountsErrors (W.failures writer.old) (W.failures writer.new) result }
    {
        server.note_memory_refused();
        self.say_error(Code::OutOfMemory, session, writer)
    }

    /// Lets the server do what a command asks, and says its lines, or that there was no memory.
    fn obey<W: Sink>(
        &mut self,
        given: &Tagged,
        server: &mut Server,
        writer: &mut W,
    ) -> Result<(), RunFault>
        requires { IsTrue (is_session_text given.now.session) }
        ensures answered { (text : List ℕ) × IsDone (seen_as server.old) (tag given.now) text (seen_as server.new)
            × SentAll (out (W.held writer.old) self.old.gathered) (out (W.held writer.new) self.new.gathered) result text }
        ensures failed { SendFails (W.failures writer.old) (W.failures writer.new) result }
        ensures stuck { result ≡ Err Memory → IsStuckBy [] (λ text. IsDone (seen_as server.old) (tag given.now) text (seen_as server.new))
            (out (W.held writer.old) self.old.gathered) (out (W.held writer.new) self.new.gathered) }
    {
        let session = given.session.as_str();
        match server.step(given) {
            Ok(lines) => self.say_lines(session, lines.as_slice(), writer),
            Err(AllocError) => by_sink(self.say_error(Code::OutOfMemory, session, writer)),
        }
    }

    fn say_lines<W: Sink>(
        &mut self,
        session: &str,
        lines: &[Line],
        writer: &mut W,
    ) -> Result<(), RunFault>
        requires { IsTrue (is_session_text session.now) }
        ensures said { SentAll (out (W.held writer.old) self.old.gathered) (out (W.held writer.new) self.new.gathered) result
            (flat_map (text_of_line session.now) lines.now) }
        ensures failed { SendFails (W.failures writer.old) (W.failures writer.new) result }
        ensures stuck { result ≡ Err Memory → IsStuckBy [] (λ text. text ≡ flat_map (text_of_line session.now) lines.now)
            (out (W.held writer.old) self.old.gathered) (out (W.held writer.new) self.new.gathered) }
    {
        for line in lines {
            self.say_line(session, line, writer)?;
        }
        Ok(())
    }

    /// Says one line: in parts where it has them, in memory of its own where it is a short call, and
    /// else as a text that is made first.
    fn say_line<W: Sink>(
        &mut self,
        session: &str,
        line: &Line,
        writer: &mut W,
    ) -> Result<(), RunFault>
        requires { IsTrue (is_session_text session.now) }
        ensures said { SentAll (out (W.held writer.old) self.old.gathered) (out (W.held writer.new) self.new.gathered) result
            (text_of_line session.now line.now) }
        ensures failed { SendFails (W.failures writer.old) (W.failures writer.new) result }
        ensures stuck { result ≡ Err Memory → (has_parts line.now ≡ false)
            × Sent (out (W.held writer.old) self.old.gathered) (out (W.held writer.new) self.new.gathered) [] }
    {
        let mut digits = Digits::new();
        if let Some(parts) = line_parts(session, line, &mut digits) {
            return by_sink(self.say_parts(&parts, writer));
        }
        let mut memory = [0; CALL_BYTES];
        if let Some(text) = call_text(session, line, &mut memory) {
            return by_sink(self.gathered.send(writer, text));
        }
        write_line(self.alloc, &mut self.text, session, line)?;
        by_sink(self.gathered.send(writer, self.text.as_bytes()))
    }

    /// Says that something was refused. This takes no memory.
    fn say_error<W: Sink>(
        &mut self,
        code: Code,
        session: &str,
        writer: &mut W,
    ) -> Result<(), Failed>
        requires { IsTrue (is_session_text session.now) }
        ensures said { SentAll (out (W.held writer.old) self.old.gathered) (out (W.held writer.new) self.new.gathered) result
            (text_of_line session.now (Error code)) }
        ensures failed { CountsErrors (W.failures writer.old) (W.failures writer.new) result }
    {
        self.say_parts(&error_parts(code, session), writer)
    }

    fn say_parts<W: Sink>(&mut self, parts: &Parts<'_>, writer: &mut W) -> Result<(), Failed>
        ensures said { SentAll (out (W.held writer.old) self.old.gathered) (out (W.held writer.new) self.new.gathered) result
            (text_of_parts parts.now) }
        ensures failed { CountsErrors (W.failures writer.old) (W.failures writer.new) result }
    {
        let mut memory = [0; CALL_BYTES];
        match parts.text(&mut memory) {
            Some(text) => self.gathered.send(writer, text),
            None => self.say_each(parts, writer),
        }
    }

    /// Says the parts one by one, where they are too long for one text.
    fn say_each<W: Sink>(&mut self, parts: &Parts<'_>, writer: &mut W) -> Result<(), Failed>
        ensures said { SentAll (out (W.held writer.old) self.old.gathered) (out (W.held writer.new) self.new.gathered) result
            (text_of_parts parts.now) }
        ensures failed { CountsErrors (W.failures writer.old) (W.failures writer.new) result }
    {
        let parts = parts.in_order();
        for part in &parts {
            self.gathered.send(writer, part.as_bytes())?;
        }
        Ok(())
    }
}

/// Returns the result of a run where only its sink may fail.
fn by_sink(sent: Result<(), Failed>) -> Result<(), RunFault>
    ensures { result ≡ by_sink sent }
{
    match sent {
        Ok(()) => Ok(()),
        Err(Failed) => Err(RunFault::Write),
    }
}

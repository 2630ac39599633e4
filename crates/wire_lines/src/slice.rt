//! Runs for the slice of a session.
ghost use Rattle.std.specs.Prelude.{◌≡◌, ◌≢◌, ◌+◌, ◌<◌, ◌≤◌, ◌^◌, ◌++◌, ◌∷◌, [], ℕ, List, All, length, Some, Err, IfOk, IfErr, IsTrue, OnOk, false};
ghost use Rattle.std.specs.List.{flat_map};
ghost use Rattle.isolation.specs.Pieces.{Given};
ghost use Rattle.isolation.specs.Slice.{Note};
ghost use Rattle.plain_types.specs.Names.{is_name};
ghost use Rattle.session_engine.specs.Sessions.{AreSound};
ghost use Rattle.server_world.specs.Noting.{IsNoted};
ghost use Rattle.server_world.specs.Server.{KnowsItsSessions, seen_by_name, seen_as};
ghost use Rattle.session_model.specs.Asked.{asked, tag};
ghost use Rattle.session_model.specs.Named.{IsNamedAsked};
ghost use Rattle.wire_format.specs.Counts.{CountsErrors};
ghost use Rattle.wire_format.specs.Input.{NoEnd, lines_of, piece_of};
ghost use Rattle.wire_lines.specs.declared.fault.RunFault.TheVariants.{Endless, Memory, Write};
ghost use Rattle.wire_lines.specs.declared.stream.TheConstants.{MOST_LINES, MOST_READS};
ghost use Rattle.wire_lines.specs.Run.{AsksSource, IsPastReads, ReadFails, UsesDevices, reads};
ghost use Rattle.wire_lines.specs.Sending.{SentAll, out};
ghost use Rattle.wire_lines.specs.Slicing.{SlicesOver, ended};
ghost use Rattle.wire_lines.specs.Stream.{Later};
ghost use Rattle.wire_lines.specs.Taking.{DoesNoted, HasStopped, HasTaken, RunsShort, StopsAt, Takes, first_line, numbered};

use crate::buffer::Buffer;
use crate::fault::RunFault;
use crate::stream::{CHUNK_BYTES, MOST_LINES, MOST_READS, Summary, split_line};
use plain_types::Text;
use server_world::{Notes, Server};
use session_model::Tagged;
use std::alloc::{AllocError, Global};
use wire_format::{Failed, ReadError, Scratch, Sink, Source, is_blank, read_line};

/// The lines of an input, whose commands are done one after another, and what is noted of these.
#[derive(Drop)]
struct Slicing {
    alloc: Global,
    /// The reading of a line writes to this, which is kept for all of them.
    scratch: Scratch,
    notes: Notes,
    /// Where in the input the line of each noted command begins.
    starts: Vec<usize>,
    /// How many lines there were.
    count: u64,
    ghost within: { count ≤ MOST_LINES },
}

impl Slicing {
    ghost use Rattle.wire_lines.specs.Standing.{noted};

    fn new(alloc: Global) -> Slicing
        ensures notes { result.notes ≡ [] }
        ensures starts { result.starts.items ≡ [] }
        ensures count { result.count ≡ 0 }
    {
        Slicing {
            alloc,
            scratch: Scratch::new(alloc),
            notes: Notes::new(alloc),
            starts: Vec::new(alloc),
            count: 0,
        }
    }

    /// Does what the lines of an input ask, one after another, and notes the commands.
    fn take_all(alloc: Global, input: &[u8], server: &mut Server) -> Result<Slicing, RunFault>
        ensures taken { IfOk result (λ slicing. HasTaken input.now (seen_as server.old) (noted slicing (seen_as server.new)) slicing.count []) }
        ensures stopped { IfErr result (λ fault. HasStopped fault input.now (seen_as server.old) (seen_as server.new)) }
        ensures later { Later (seen_as server.old) (seen_as server.new) }
    {
        let mut slicing = Slicing::new(alloc);
        let mut rest = input;
        'lines: while !rest.is_empty() {
            let (line, behind) = first_line(rest);
            slicing.take(input.len() - rest.len(), line, server)?;
            rest = behind;
        }
        Ok(slicing)
    }

    /// Does what one more line asks, which begins there and is given without its end. One that is no command
    /// is only counted.
    fn take(&mut self, start: usize, line: &[u8], server: &mut Server) -> Result<(), RunFault>
        requires { NoEnd line.now }
        ensures taken { OnOk result (Takes start (piece_of line.now) (noted self.old (seen_as server.old)) (noted self.new (seen_as server.new))) }
        ensures counted { OnOk result (self.new.count ≡ self.old.count + 1) }
        ensures stopped { IfErr result (λ fault. StopsAt fault self.old.count (piece_of line.now) (seen_as server.old) (seen_as server.new)) }
        ensures later { Later (seen_as server.old) (seen_as server.new) }
    {
        if self.count >= MOST_LINES {
            return Err(RunFault::Endless);
        }
        self.count += 1;
        if is_blank(line) {
            return Ok(());
        }
        match read_line(self.alloc, &mut self.scratch, line) {
            Ok(given) => self.obey(start, &given, server),
            Err(ReadError::Fault(_)) => Ok(()),
            Err(ReadError::Memory) => {
                server.note_memory_refused();
                Err(RunFault::Memory)
            }
        }
    }

    /// Notes a command, whose line begins there, and does it.
    fn obey(&mut self, start: usize, given: &Tagged, server: &mut Server) -> Result<(), RunFault>
        requires session { IsTrue (is_name given.now.session) }
        requires named { IsNamedAsked (asked given.now.command) }
        ensures done { OnOk result (DoesNoted start (tag given.now) (noted self.old (seen_as server.old)) (noted self.new (seen_as server.new))) }
        ensures count { self.new.count ≡ self.old.count }
        ensures stopped { IfErr result (λ fault. (fault ≡ Memory) × RunsShort (Some (Given (tag given.now))) (seen_as server.old) (seen_as server.new)) }
        ensures later { Later (seen_as server.old) (seen_as server.new) }
    {
        let Ok(()) = self.note(start, given, server) else {
            server.note_memory_refused();
            return Err(RunFault::Memory);
        };
        server.step(given)?;
        Ok(())
    }

    fn note(&mut self, start: usize, given: &Tagged, server: &Server) -> Result<(), AllocError>
        ensures noted { OnOk result ((note : Note ℕ) × IsNoted (seen_as server.now) (tag given.now) note × (self.new.notes ≡ self.old.notes ++ note ∷ [])) }
        ensures starts { OnOk result (self.new.starts.items ≡ self.old.starts.items ++ start ∷ []) }
        ensures count { self.new.count ≡ self.old.count }
    {
        server.note(given, &mut self.notes)?;
        self.starts.push(start)?;
        Ok(())
    }

    /// Writes the lines of the commands that have these numbers, each followed by a line feed.
    fn write<W: Sink>(
        &self,
        input: &[u8],
        numbers: &[usize],
        buffer: &mut Buffer,
        writer: &mut W,
    ) -> Result<(), Failed>
        requires starts { All (λ start. start < length input.now) self.now.starts.items }
        requires numbers { All (λ number. number < length self.now.starts.items) numbers.now }
        ensures sent { SentAll (out (W.held writer.old) buffer.old) (out (W.held writer.new) buffer.new) result
            (flat_map (numbered input.now self.now.starts.items) numbers.now) }
        ensures emptied { OnOk result (buffer.new ≡ []) }
        ensures counted { CountsErrors (W.failures writer.old) (W.failures writer.new) result }
    {
        for number in numbers {
            let (line, _) = first_line(&input[self.starts[*number]..]);
            send_line(line, buffer, writer)?;
        }
        buffer.flush(writer)
    }
}

/// The first line, without its end, and the bytes after it.
fn first_line(bytes: &[u8]) -> (&[u8], &[u8])
    ensures line { result.0.now ≡ first_line bytes.now }
    ensures ends { NoEnd result.0.now }
    ensures lines { 0 < length bytes.now → lines_of bytes.now ≡ result.0.now ∷ lines_of result.1.now }
    ensures behind { 0 < length bytes.now → (front : List ℕ) × (bytes.now ≡ front ++ result.1.now) × (0 < length front) }
{
    match split_line(bytes) {
        Some(parts) => parts,
        None => (bytes, &[]),
    }
}

/// Sends a line, followed by a line feed.
fn send_line<W: Sink>(line: &[u8], buffer: &mut Buffer, writer: &mut W) -> Result<(), Failed>
    ensures sent { SentAll (out (W.held writer.old) buffer.old) (out (W.held writer.new) buffer.new) result (ended line.now) }
    ensures counted { CountsErrors (W.failures writer.old) (W.failures writer.new) result }
{
    buffer.send(writer, line)?;
    buffer.send(writer, b"\n")
}

/// All bytes of a source.
fn read_all<R: Source>(alloc: Global, reader: &mut R) -> Result<Vec<u8>, RunFault>
    ensures bytes { IfOk result (λ bytes. (input : List ℕ) → R.left reader.old ≡ Some input → (bytes.items ≡ input) × (R.left reader.new ≡ Some [])) }
    ensures endless { (input : List ℕ) → R.left reader.old ≡ Some input
        → result ≡ Err Endless → IsPastReads (2 ^ 40) input (reads R.calls R.gave reader.old) (reads R.calls R.gave reader.new) }
    ensures unwritten { result ≢ Err Write }
    ensures asked { AsksSource (2 ^ 40) (reads R.calls R.gave reader.old) (reads R.calls R.gave reader.new) result }
    ensures failed { ReadFails (R.failures reader.old) (R.failures reader.new) result }
{
    let mut chunk = vec![in alloc; 0; CHUNK_BYTES]?;
    read_by(alloc, &mut chunk, reader)
}

/// Reads all bytes of a source, as many at once as the chunk has.
fn read_by<R: Source>(alloc: Global, chunk: &mut [u8], reader: &mut R) -> Result<Vec<u8>, RunFault>
    requires { 0 < length chunk.old }
    ensures bytes { IfOk result (λ bytes. (input : List ℕ) → R.left reader.old ≡ Some input → (bytes.items ≡ input) × (R.left reader.new ≡ Some [])) }
    ensures endless { (input : List ℕ) → R.left reader.old ≡ Some input
        → result ≡ Err Endless → IsPastReads (2 ^ 40) input (reads R.calls R.gave reader.old) (reads R.calls R.gave reader.new) }
    ensures unwritten { result ≢ Err Write }
    ensures asked { AsksSource (2 ^ 40) (reads R.calls R.gave reader.old) (reads R.calls R.gave reader.new) result }
    ensures failed { ReadFails (R.failures reader.old) (R.failures reader.new) result }
{
    let mut bytes = Vec::new(alloc);
    'reads: for _reads in 0..MOST_READS {
        let Ok(count) = reader.read(chunk) else {
            return Err(RunFault::Read);
        };
        if count == 0 {
            return Ok(bytes);
        }
        bytes.extend_from_slice(&chunk[..count])?;
    }
    Err(RunFault::Endless)
}

/// Reads all of an input, lets the server do its commands, and writes only the lines that can affect the output of
/// one session: a run of these alone gives the session the same output. They are the commands of the session and of
/// the sessions that it had joined at the time, and so on from these, found from the last line to the first. Each
/// is written unchanged, followed by a line feed. Lines that are no command are never written.
///
/// # Errors
///
/// The errors of [`run`](crate::run), at the same bounds. `Memory` also if the server has ever run out of memory,
/// as isolation says nothing of such a run. Nothing is written before all commands are done, so only `Write` can
/// leave a part of the lines in the output.
pub fn run_slice<R: Source, W: Sink>(
    alloc: Global,
    reader: &mut R,
    writer: &mut W,
    server: &mut Server,
    session: &Text,
) -> Result<Summary, RunFault>
    // Where the bytes of the source are known.
    ensures slices { (input : List ℕ) → R.left reader.old ≡ Some input
        → SlicesOver session.now input (seen_as server.old) (seen_as server.new)
        (W.held writer.old) (W.held writer.new) (R.left reader.new) (reads R.calls R.gave reader.old) (reads R.calls R.gave reader.new) result }
    ensures devices { UsesDevices (2 ^ 40) (reads R.calls R.gave reader.old) (reads R.calls R.gave reader.new)
        (R.failures reader.old) (R.failures reader.new) (W.failures writer.old) (W.failures writer.new) result }
    ensures memory { IfOk result (λ summary. summary.memory_refused ≡ false) }
    ensures later { Later (seen_as server.old) (seen_as server.new) }
    ensures knows { KnowsItsSessions (seen_as server.new) }
    ensures sound { AreSound (seen_by_name (seen_as server.new)) }
{
    let ended = slice_input(alloc, reader, writer, server, session);
    server.law_sound();
    ended
}

/// Does the run. `run_slice` adds what is known of the server afterwards.
fn slice_input<R: Source, W: Sink>(
    alloc: Global,
    reader: &mut R,
    writer: &mut W,
    server: &mut Server,
    session: &Text,
) -> Result<Summary, RunFault>
    ensures slices { (input : List ℕ) → R.left reader.old ≡ Some input
        → SlicesOver session.now input (seen_as server.old) (seen_as server.new)
        (W.held writer.old) (W.held writer.new) (R.left reader.new) (reads R.calls R.gave reader.old) (reads R.calls R.gave reader.new) result }
    ensures devices { UsesDevices (2 ^ 40) (reads R.calls R.gave reader.old) (reads R.calls R.gave reader.new)
        (R.failures reader.old) (R.failures reader.new) (W.failures writer.old) (W.failures writer.new) result }
    ensures memory { IfOk result (λ summary. summary.memory_refused ≡ false) }
    ensures later { Later (seen_as server.old) (seen_as server.new) }
{
    let input = read_all(alloc, reader)?;
    let mut buffer = Buffer::new(alloc)?;
    let slicing = Slicing::take_all(alloc, &input, server)?;
    if server.memory_refused() {
        return Err(RunFault::Memory);
    }
    let numbers = server.kept(session, &slicing.notes)?;
    slicing.write(&input, &numbers, &mut buffer, writer)?;
    Ok(Summary {
        lines: slicing.count,
        memory_refused: false,
    })
}

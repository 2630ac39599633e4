//! Runs over whole inputs.
ghost use Rattle.std.specs.Prelude.{◌≡◌, ◌+◌, ◌<◌, ◌≤◌, ◌^◌, ◌++◌, ◌∷◌, ℕ, List, [], length, Some, None, IfSome, IsOk, IfOk, Err};
ghost use Rattle.session_engine.specs.Sessions.{AreSound};
ghost use Rattle.server_world.specs.Server.{KnowsItsSessions, seen_by_name, seen_as, was_refused};
ghost use Rattle.wire_format.specs.Input.{NoEnd};
ghost use Rattle.wire_lines.specs.Run.{AsksSource, RunsOver, UsesDevices, IsWrittenOut, DevicesFail, Ends, Runs, device_failed, reads};
ghost use Rattle.wire_lines.specs.Stream.{Later, SinkFails, Feeds, Finishes};
ghost use Rattle.wire_lines.specs.Feeding.{at};
ghost use Rattle.wire_lines.specs.declared.fault.RunFault.TheVariants.{Read};

use crate::buffer::Buffer;
use crate::fault::RunFault;
use crate::lines::Lines;
use memchr::memchr;
use server_world::Server;
use std::alloc::{AllocError, Global};
use wire_format::{Failed, Sink, Source};

/// The most lines that a run reads.
pub const MOST_LINES: u64 = 1 << 32;

/// The most calls of `read` that a run makes.
pub const MOST_READS: u64 = 1 << 40;

/// How many bytes a run asks its source for at once.
pub const CHUNK_BYTES: usize = 65_536;

/// A run returns a summary.
#[derive(Clone, Copy, PartialEq, Eq)]
pub struct Summary {
    /// How many lines were read, those that were skipped among them.
    pub lines: u64,
    /// Whether memory was ever wanted on this server and not found, in this run or before.
    pub memory_refused: bool,
}

/// An input that comes in chunks.
#[derive(Drop)]
struct Stream {
    /// The line that has begun, as far as it is needed.
    begun: Buffer,
    lines: Lines,
    ghost no_end: { NoEnd begun },
}

impl Stream {
    fn new(alloc: Global, most_lines: u64) -> Result<Stream, AllocError>
        ensures begun { IfOk result (λ stream. stream.begun ≡ []) }
        ensures output { IfOk result (λ stream. stream.lines.output.gathered ≡ []) }
        ensures count { IfOk result (λ stream. stream.lines.count ≡ 0) }
        ensures most { IfOk result (λ stream. stream.lines.most ≡ most_lines) }
    {
        Ok(Stream {
            begun: Buffer::new(alloc)?,
            lines: Lines::new(alloc, most_lines)?,
        })
    }

    /// Answers the lines that end in this chunk, and keeps what has begun.
    fn feed<W: Sink>(
        &mut self,
        chunk: &[u8],
        server: &mut Server,
        writer: &mut W,
    ) -> Result<(), RunFault>
        ensures fed { Feeds self.old.lines.most (at (W.held writer.old) self.old.lines (seen_as server.old) (self.old.begun ++ chunk.now))
            (at (W.held writer.new) self.new.lines (seen_as server.new) self.new.begun) result }
        ensures failed { SinkFails (W.failures writer.old) (W.failures writer.new) result }
        ensures most { self.new.lines.most ≡ self.old.lines.most }
    {
        let mut rest = chunk;
        'lines: while let Some((line, behind)) = split_line(rest) {
            self.end_line(line, server, writer)?;
            rest = behind;
        }
        self.begun.keep(rest);
        Ok(())
    }

    /// Answers the line that ends with these bytes.
    fn end_line<W: Sink>(
        &mut self,
        line: &[u8],
        server: &mut Server,
        writer: &mut W,
    ) -> Result<(), RunFault>
        requires { NoEnd line.now }
        ensures fed { Feeds self.old.lines.most (at (W.held writer.old) self.old.lines (seen_as server.old) (self.old.begun ++ line.now ++ 10 ∷ []))
            (at (W.held writer.new) self.new.lines (seen_as server.new) []) result }
        ensures begun { self.new.begun ≡ [] }
        ensures failed { SinkFails (W.failures writer.old) (W.failures writer.new) result }
        ensures most { self.new.lines.most ≡ self.old.lines.most }
    {
        if self.begun.is_empty() {
            return self.lines.answer(line, server, writer);
        }
        self.begun.keep(line);
        let answered = self.lines.answer(self.begun.as_slice(), server, writer);
        self.begun.clear();
        answered
    }

    /// Answers the last line, where it lacks its end.
    fn finish<W: Sink>(&mut self, server: &mut Server, writer: &mut W) -> Result<(), RunFault>
        ensures done { Finishes self.old.lines.most (at (W.held writer.old) self.old.lines (seen_as server.old) self.old.begun)
            (at (W.held writer.new) self.new.lines (seen_as server.new) []) result }
        ensures failed { SinkFails (W.failures writer.old) (W.failures writer.new) result }
        ensures most { self.new.lines.most ≡ self.old.lines.most }
    {
        if self.begun.is_empty() {
            return Ok(());
        }
        self.lines.answer(self.begun.as_slice(), server, writer)
    }

    /// Answers each line of the input, up to its end or to the first fault.
    fn serve_all<R: Source, W: Sink>(
        &mut self,
        chunk: &mut [u8],
        reader: &mut R,
        writer: &mut W,
        server: &mut Server,
        max_reads: u64,
    ) -> Result<(), RunFault>
        requires { 0 < length chunk.old }
        ensures later { Later (seen_as server.old) (seen_as server.new) }
        ensures ends { (input : List ℕ) → R.left reader.old ≡ Some input
            → Ends self.old.lines.most max_reads (reads R.calls R.gave reader.old) (reads R.calls R.gave reader.new)
            (R.left reader.new) (at (W.held writer.old) self.old.lines (seen_as server.old) (self.old.begun ++ input))
            (at (W.held writer.new) self.new.lines (seen_as server.new) []) result }
        ensures written { result ≡ Err Read → self.new.lines.output.gathered ≡ [] }
        ensures within { self.new.lines.count ≤ self.old.lines.most }
        ensures all_read { (input : List ℕ) → R.left reader.old ≡ Some input → IsOk result → R.left reader.new ≡ Some [] }
        ensures asked { AsksSource max_reads (reads R.calls R.gave reader.old) (reads R.calls R.gave reader.new) result }
        ensures failed { DevicesFail (R.failures reader.old) (R.failures reader.new) (W.failures writer.old) (W.failures writer.new) result }
    {
        'reads: for _reads in 0..max_reads {
            self.lines.output.gathered.flush(writer)?;
            let Ok(count) = reader.read(chunk) else {
                return Err(RunFault::Read);
            };
            if count == 0 {
                return self.finish(server, writer);
            }
            self.feed(&chunk[..count], server, writer)?;
        }
        Err(RunFault::Endless)
    }

    /// Answers each line of the input, up to its end or to the first fault, and then writes what is said so
    /// far, where no device has failed.
    fn serve_to_end<R: Source, W: Sink>(
        &mut self,
        chunk: &mut [u8],
        reader: &mut R,
        writer: &mut W,
        server: &mut Server,
        max_reads: u64,
    ) -> Result<(), RunFault>
        requires { 0 < length chunk.old }
        ensures later { Later (seen_as server.old) (seen_as server.new) }
        ensures ends { (input : List ℕ) → R.left reader.old ≡ Some input
            → Ends self.old.lines.most max_reads (reads R.calls R.gave reader.old) (reads R.calls R.gave reader.new)
            (R.left reader.new) (at (W.held writer.old) self.old.lines (seen_as server.old) (self.old.begun ++ input))
            (at (W.held writer.new) self.new.lines (seen_as server.new) []) result }
        ensures written { IsWrittenOut result self.new.lines.output.gathered }
        ensures within { self.new.lines.count ≤ self.old.lines.most }
        ensures all_read { (input : List ℕ) → R.left reader.old ≡ Some input → IsOk result → R.left reader.new ≡ Some [] }
        ensures asked { AsksSource max_reads (reads R.calls R.gave reader.old) (reads R.calls R.gave reader.new) result }
        ensures failed { DevicesFail (R.failures reader.old) (R.failures reader.new) (W.failures writer.old) (W.failures writer.new) result }
    {
        let ended = self.serve_all(chunk, reader, writer, server, max_reads);
        if device_failed(&ended) {
            return ended;
        }
        self.lines.output.gathered.flush(writer)?;
        ended
    }

    fn summary(&self, server: &Server) -> Summary
        ensures { result ≡ record { lines = self.now.lines.count; memory_refused = was_refused (seen_as server.now) } }
    {
        Summary {
            lines: self.lines.count,
            memory_refused: server.memory_refused(),
        }
    }
}

/// The first line, without its end, and the bytes after its end. `None` if no line ends.
pub fn split_line(bytes: &[u8]) -> Option<(&[u8], &[u8])>
    ensures none { result ≡ None → NoEnd bytes.now }
    ensures whole { IfSome result (λ parts. bytes.now ≡ parts.0.now ++ 10 ∷ parts.1.now) }
    ensures line { IfSome result (λ parts. NoEnd parts.0.now) }
{
    let end = memchr(b'\n', bytes)?;
    let (line, ended) = bytes.split_at(end);
    Some((line, &ended[1..]))
}

/// Reads lines to the end of the input, lets the server do each command, and writes the answers.
///
/// Lines end with a line feed, which the last may lack. A line of only spaces, tabs and carriage returns is
/// skipped. A line of more than [`LINE_BYTES`](wire_format::LINE_BYTES) bytes, blank or not, is answered as
/// unreadable. Output is buffered, and all of it is written before each read, so that clients get their answers
/// before the run waits for more input.
///
/// If memory runs out, the line is answered with `E21`, which takes no memory: for the session of the command, or
/// for `-` if memory ran out while the line was read.
///
/// # Errors
///
/// `Read` or `Write` if a device failed. `Endless` if the input goes on after 2^32 lines, or after 2^40 calls of
/// `read`. `Memory` if there was no memory for the buffers of the run, which are made before the first read, or for
/// the text of a line that is longer than a line of input may be. Earlier output has been written, except after
/// `Write`.
pub fn run<R: Source, W: Sink>(
    alloc: Global,
    reader: &mut R,
    writer: &mut W,
    server: &mut Server,
) -> Result<Summary, RunFault>
    // As of `run_bounded`, at these bounds.
    ensures runs { (input : List ℕ) → R.left reader.old ≡ Some input
        → RunsOver (2 ^ 32) (2 ^ 40) input (seen_as server.old) (seen_as server.new)
        (W.held writer.old) (W.held writer.new) (R.left reader.new) (reads R.calls R.gave reader.old) (reads R.calls R.gave reader.new) result }
    ensures devices { UsesDevices (2 ^ 40) (reads R.calls R.gave reader.old) (reads R.calls R.gave reader.new)
        (R.failures reader.old) (R.failures reader.new) (W.failures writer.old) (W.failures writer.new) result }
    ensures memory { IfOk result (λ summary. summary.memory_refused ≡ was_refused (seen_as server.new)) }
    ensures later { Later (seen_as server.old) (seen_as server.new) }
    ensures knows { KnowsItsSessions (seen_as server.new) }
    ensures sound { AreSound (seen_by_name (seen_as server.new)) }
{
    run_bounded(alloc, reader, writer, server, MOST_LINES, MOST_READS)
}

/// Reads lines as [`run`] does, at other bounds: before a line is answered, the lines so far, skipped ones
/// among them, are compared with `max_lines`, and before each read the calls so far with `max_reads`. Where one
/// of them has reached its bound, it ends with `Endless`.
///
/// # Errors
///
/// Those of [`run`], at these bounds.
pub fn run_bounded<R: Source, W: Sink>(
    alloc: Global,
    reader: &mut R,
    writer: &mut W,
    server: &mut Server,
    max_lines: u64,
    max_reads: u64,
) -> Result<Summary, RunFault>
    // Where the bytes of the source are known: what is answered to each line, and where memory was found, the output,
    // and that it keeps the sessions apart.
    ensures runs { (input : List ℕ) → R.left reader.old ≡ Some input
        → RunsOver max_lines max_reads input (seen_as server.old) (seen_as server.new)
        (W.held writer.old) (W.held writer.new) (R.left reader.new) (reads R.calls R.gave reader.old) (reads R.calls R.gave reader.new) result }
    ensures devices { UsesDevices max_reads (reads R.calls R.gave reader.old) (reads R.calls R.gave reader.new)
        (R.failures reader.old) (R.failures reader.new) (W.failures writer.old) (W.failures writer.new) result }
    ensures memory { IfOk result (λ summary. summary.memory_refused ≡ was_refused (seen_as server.new)) }
    ensures later { Later (seen_as server.old) (seen_as server.new) }
    // The names of the server are those of all sessions that may have a join, so a later run has its influence too.
    ensures knows { KnowsItsSessions (seen_as server.new) }
    ensures sound { AreSound (seen_by_name (seen_as server.new)) }
{
    let ended = run_buffered(alloc, reader, writer, server, max_lines, max_reads);
    server.law_sound();
    ended
}

/// The run, for which buffers are made first.
fn run_buffered<R: Source, W: Sink>(
    alloc: Global,
    reader: &mut R,
    writer: &mut W,
    server: &mut Server,
    max_lines: u64,
    max_reads: u64,
) -> Result<Summary, RunFault>
    ensures runs { (input : List ℕ) → R.left reader.old ≡ Some input
        → Runs max_lines max_reads (reads R.calls R.gave reader.old) (reads R.calls R.gave reader.new) input
        (R.left reader.new) (W.held writer.old) (seen_as server.old) (W.held writer.new) (seen_as server.new) result }
    ensures all_read { (input : List ℕ) → R.left reader.old ≡ Some input → IsOk result → R.left reader.new ≡ Some [] }
    ensures asked { AsksSource max_reads (reads R.calls R.gave reader.old) (reads R.calls R.gave reader.new) result }
    ensures failed { DevicesFail (R.failures reader.old) (R.failures reader.new) (W.failures writer.old) (W.failures writer.new) result }
    ensures memory { IfOk result (λ summary. summary.memory_refused ≡ was_refused (seen_as server.new)) }
    ensures later { Later (seen_as server.old) (seen_as server.new) }
{
    let mut stream = Stream::new(alloc, max_lines)?;
    let mut chunk = vec![in alloc; 0; CHUNK_BYTES]?;
    stream.serve_to_end(&mut chunk, reader, writer, server, max_reads)?;
    Ok(stream.summary(server))
}

/// Whether a source or a sink has failed, so that it is left alone.
fn device_failed(ended: &Result<(), RunFault>) -> bool
    ensures { result ≡ device_failed ended.now }
{
    matches!(ended, Err(RunFault::Read | RunFault::Write))
}

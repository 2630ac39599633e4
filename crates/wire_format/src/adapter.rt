//! Sources and sinks made of readers and writers of the standard library.
ghost use Rattle.std.specs.Prelude.{◌≡◌, ◌<◌, length, IfOk};
ghost use Rattle.std.specs.Io.{ReadsAtMost, WritesAtMost};
ghost use Rattle.std.specs.Io.KnownBytes.{ReadConsumes, WriteAppends};
ghost use Rattle.wire_format.specs.Adapter.{counted_device, counted_failures, counted_gave, counted_reads};
ghost use Rattle.wire_format.specs.Counts.{FailsOnce, CountsWrite};

use crate::traits::{Failed, Sink, Source};
use std::io::{ErrorKind, Read, Write};

// How often an interrupted call is made again in a row.
const MOST_RETRIES: u32 = 1_000;

/// A source made of any [`Read`], and a sink made of any [`Write`].
///
/// A call that a signal interrupted is made again, at most 1,000 times in a row, before it counts as
/// a failure. No other error is tried again.
#[derive(Drop)]
pub struct Counted<D> {
    device: D,
    reads: u64,
    gave: u64,
    failures: u64,
}

impl<D> Counted<D> {
    /// Reads from or writes to `device`, which was not read and has not failed so far.
    pub fn new(device: D) -> Counted<D>
        ensures device { counted_device result ≡ device }
        ensures reads { counted_reads result ≡ 0 }
        ensures gave { counted_gave result ≡ 0 }
        ensures failures { counted_failures result ≡ 0 }
    {
        Counted {
            device,
            reads: 0,
            gave: 0,
            failures: 0,
        }
    }

    /// How often it was asked for bytes. A call that was made again counts once. The count stays at
    /// `u64::MAX`.
    pub fn reads(&self) -> u64
        ensures { result ≡ counted_reads self.now }
    {
        self.reads
    }

    /// How often it gave bytes when it was asked for them. The count stays at `u64::MAX`.
    pub fn gave(&self) -> u64
        ensures { result ≡ counted_gave self.now }
    {
        self.gave
    }

    /// How often the device failed. The count stays at `u64::MAX`.
    pub fn failures(&self) -> u64
        ensures { result ≡ counted_failures self.now }
    {
        self.failures
    }

    /// Gives the device back, and forgets how often it was read and failed.
    pub fn into_inner(self) -> D
        ensures { result ≡ counted_device self }
    {
        self.device
    }

    // Counts one failure.
    fn fail(&mut self) -> Failed
        ensures device { counted_device self.new ≡ counted_device self.old }
        ensures reads { counted_reads self.new ≡ counted_reads self.old }
        ensures gave { counted_gave self.new ≡ counted_gave self.old }
        ensures counted { FailsOnce (counted_failures self.old) (counted_failures self.new) }
    {
        self.failures = self.failures.saturating_add(1);
        Failed
    }
}

impl<R: Read> Source for Counted<R> {
    ghost left = { λ c. R.remaining (counted_device c) };

    ghost calls = { counted_reads };

    ghost gave = { counted_gave };

    ghost failures = { counted_failures };

    fn read(&mut self, buffer: &mut [u8]) -> Result<usize, Failed> {
        self.reads = self.reads.saturating_add(1);
        match read_again(&mut self.device, buffer) {
            Ok(count) => {
                self.gave = self.gave.saturating_add(u64::from(count > 0));
                Ok(count)
            }
            Err(Failed) => Err(self.fail()),
        }
    }
}

impl<W: Write> Sink for Counted<W> {
    ghost held = { λ c. W.contents (counted_device c) };

    ghost failures = { counted_failures };

    // A write that takes none of some bytes is answered as a failure too.
    fn write(&mut self, buffer: &[u8]) -> Result<usize, Failed>
        ensures bound { WritesAtMost result buffer.now }
        ensures bytes { WriteAppends (W.contents (counted_device self.old))
            (W.contents (counted_device self.new)) result buffer.now }
        ensures counted { CountsWrite (counted_failures self.old) (counted_failures self.new)
            result buffer.now }
        ensures some { IfOk result (λ n. 0 < length buffer.now → 0 < n) }
    {
        match write_again(&mut self.device, buffer) {
            Ok(count) if count > 0 || buffer.is_empty() => Ok(count),
            _ => Err(self.fail()),
        }
    }
}

// One read, made again where it was interrupted.
fn read_again<R: Read>(device: &mut R, buffer: &mut [u8]) -> Result<usize, Failed>
    ensures bound { ReadsAtMost result buffer.new }
    ensures bytes { ReadConsumes (R.remaining device.old) (R.remaining device.new) result buffer.new }
{
    'again: for _ in 0..=MOST_RETRIES {
        match device.read(buffer) {
            Ok(count) => return Ok(count),
            Err(error) if error.kind() == ErrorKind::Interrupted => {}
            Err(_) => return Err(Failed),
        }
    }
    Err(Failed)
}

// One write, made again where it was interrupted.
fn write_again<W: Write>(device: &mut W, buffer: &[u8]) -> Result<usize, Failed>
    ensures bound { WritesAtMost result buffer.now }
    ensures bytes { WriteAppends (W.contents device.old) (W.contents device.new) result buffer.now }
{
    'again: for _ in 0..=MOST_RETRIES {
        match device.write(buffer) {
            Ok(count) => return Ok(count),
            Err(error) if error.kind() == ErrorKind::Interrupted => {}
            Err(_) => return Err(Failed),
        }
    }
    Err(Failed)
}

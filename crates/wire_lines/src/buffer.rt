//! Buffers of fixed size.
ghost use Rattle.std.specs.Prelude.{◌≡◌, ◌+◌, ◌-◌, ◌≤◌, ◌++◌, [], IfOk, IsTrue, ◌↔◌, length, take};
ghost use Rattle.wire_format.specs.Bytes.{AppendsAll};
ghost use Rattle.wire_format.specs.Counts.{CountsErrors};
ghost use Rattle.wire_lines.specs.declared.buffer.TheConstants.{BUFFER_BYTES};
ghost use Rattle.wire_lines.specs.Sending.{SentAll, out};

use std::alloc::{AllocError, Global};
use std::marker::Model;
use wire_format::{Failed, LINE_BYTES, Sink, write_all};

/// One byte more than a line may have, so that a line which is too long is known by what is kept.
pub const BUFFER_BYTES: usize = LINE_BYTES + 1;

/// Bytes in memory that is made once: there are never more than [`BUFFER_BYTES`].
#[derive(Drop)]
pub struct Buffer {
    bytes: Vec<u8>,
}

impl Model for Buffer {
    ghost use Rattle.std.specs.Prelude.{ℕ, List, ◌≤◌, vec_len, vec_capacity};
    ghost use Rattle.wire_lines.specs.declared.buffer.TheConstants.{BUFFER_BYTES};

    ghost Value = { List ℕ };

    ghost view = { λ b. b.bytes.items };

    ghost invariant = { λ b. (vec_len b.bytes ≤ BUFFER_BYTES) × (BUFFER_BYTES ≤ vec_capacity b.bytes) };
}

impl Buffer {
    pub fn new(alloc: Global) -> Result<Buffer, AllocError>
        ensures { IfOk result (λ buffer. buffer ≡ []) }
    {
        Ok(Buffer {
            bytes: Vec::with_capacity(alloc, BUFFER_BYTES)?,
        })
    }

    pub fn as_slice(&self) -> &[u8]
        ensures { result.now ≡ self.now }
    {
        self.bytes.as_slice()
    }

    pub fn is_empty(&self) -> bool
        ensures { IsTrue result ↔ (self.now ≡ []) }
    {
        self.bytes.is_empty()
    }

    /// How many bytes more there is room for.
    #[inline(always)]
    pub fn room(&self) -> usize
        ensures { result + length self.now ≡ BUFFER_BYTES }
    {
        BUFFER_BYTES - self.bytes.len()
    }

    pub fn clear(&mut self)
        ensures { self.new ≡ [] }
    {
        self.bytes.clear();
    }

    /// Appends bytes. They have to fit.
    #[inline(always)]
    pub fn put(&mut self, bytes: &[u8])
        requires { length self.old + length bytes.now ≤ BUFFER_BYTES }
        ensures { self.new ≡ self.old ++ bytes.now }
    {
        let put = self.bytes.extend_from_slice(bytes);
        prove!(put.is_ok());
    }

    /// Appends as many of the bytes as there is room for, and drops the rest.
    pub fn keep(&mut self, bytes: &[u8])
        ensures { self.new ≡ take BUFFER_BYTES (self.old ++ bytes.now) }
    {
        let kept = bytes.len().min(self.room());
        self.put(&bytes[..kept]);
    }

    /// Writes all bytes to the sink, and empties the buffer. If the sink fails, the bytes that it did not take are
    /// lost.
    pub fn flush<W: Sink>(&mut self, writer: &mut W) -> Result<(), Failed>
        ensures emptied { self.new ≡ [] }
        ensures bytes { AppendsAll (W.held writer.old) (W.held writer.new) result self.old }
        ensures counted { CountsErrors (W.failures writer.old) (W.failures writer.new) result }
    {
        let written = write_all(writer, self.as_slice());
        self.clear();
        written
    }

    /// Sends text to the sink after the buffered bytes: it is buffered too if there is room for it, and otherwise
    /// the buffered bytes are written first.
    #[inline(always)]
    pub fn send<W: Sink>(&mut self, writer: &mut W, text: &[u8]) -> Result<(), Failed>
        ensures bytes { SentAll (out (W.held writer.old) self.old) (out (W.held writer.new) self.new) result text.now }
        ensures counted { CountsErrors (W.failures writer.old) (W.failures writer.new) result }
    {
        if text.len() <= self.room() {
            self.put(text);
            return Ok(());
        }
        self.send_past(writer, text)
    }

    /// Sends text to the sink after the gathered bytes are written.
    #[cold]
    #[inline(never)]
    fn send_past<W: Sink>(&mut self, writer: &mut W, text: &[u8]) -> Result<(), Failed>
        ensures bytes { SentAll (out (W.held writer.old) self.old) (out (W.held writer.new) self.new) result text.now }
        ensures counted { CountsErrors (W.failures writer.old) (W.failures writer.new) result }
    {
        self.flush(writer)?;
        if text.len() <= BUFFER_BYTES {
            self.put(text);
            return Ok(());
        }
        write_all(writer, text)
    }
}

//! Sources and sinks that give, take or fail as a test wants, and keys to hash with.
ghost use Rattle.std.specs.Prelude.{Some};

use std::alloc::{AllocError, Global};
use std::hash::RandomState;
use std::io;
use std::io::Read;
use std::random::RandomSource;
use wire_format::{Failed, Sink, Source};

/// Gives the bytes of a slice, a few per call, and fails at one of its calls.
#[derive(Drop)]
pub struct SlowSource<'a> {
    pub left: &'a [u8],
    pub at_once: usize,
    pub calls: u64,
    pub gave: u64,
    pub failing: u64,
    pub failures: u64,
}

impl<'a> SlowSource<'a> {
    pub fn new(left: &'a [u8], at_once: usize, failing: u64) -> SlowSource<'a> {
        SlowSource {
            left,
            at_once,
            calls: 0,
            gave: 0,
            failing,
            failures: 0,
        }
    }
}

impl<'a> Source for SlowSource<'a> {
    ghost left = { λ s. Some s.left.now };

    ghost calls = { λ s. s.calls };

    ghost gave = { λ s. s.gave };

    ghost failures = { λ s. s.failures };

    fn read(&mut self, buffer: &mut [u8]) -> Result<usize, Failed> {
        self.calls = self.calls.saturating_add(1);
        let room = buffer.len().min(self.at_once.max(1));
        if self.calls != self.failing
            && let Ok(count) = self.left.read(&mut buffer[..room])
        {
            self.gave = self.gave.saturating_add(u64::from(count > 0));
            return Ok(count);
        }
        self.failures = self.failures.saturating_add(1);
        Err(Failed)
    }
}

/// Takes a few bytes per call, and fails at one of its calls, or takes nothing at one.
#[derive(Drop)]
pub struct SlowSink {
    pub received: Vec<u8>,
    pub at_once: usize,
    pub calls: u32,
    pub failing: u32,
    pub idle: u32,
    pub failures: u64,
}

impl SlowSink {
    pub fn new(alloc: Global, at_once: usize, failing: u32, idle: u32) -> SlowSink {
        SlowSink {
            received: Vec::new(alloc),
            at_once,
            calls: 0,
            failing,
            idle,
            failures: 0,
        }
    }
}

impl Sink for SlowSink {
    ghost held = { λ s. Some s.received.items };

    ghost failures = { λ s. s.failures };

    fn write(&mut self, buffer: &[u8]) -> Result<usize, Failed> {
        self.calls = self.calls.saturating_add(1);
        if buffer.is_empty() {
            return Ok(0);
        }
        if self.calls == self.idle {
            self.failures = self.failures.saturating_add(1);
            return Ok(0);
        }
        let count = buffer.len().min(self.at_once.max(1));
        if self.calls == self.failing
            || self.received.extend_from_slice(&buffer[..count]).is_err()
        {
            self.failures = self.failures.saturating_add(1);
            return Err(Failed);
        }
        Ok(count)
    }
}

/// Gives the same bytes in every run.
struct Sevens;

impl RandomSource for Sevens {
    fn fill_bytes(&self, buffer: &mut [u8]) -> io::Result<()> {
        buffer.fill(7);
        Ok(())
    }
}

/// Keys to hash the names of sessions with.
pub fn hashing() -> Result<RandomState, AllocError> {
    match RandomState::new(&Sevens) {
        Ok(hashing) => Ok(hashing),
        Err(_) => Err(AllocError),
    }
}

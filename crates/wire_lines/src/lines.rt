//! Lines, one after another.
ghost use Rattle.std.specs.Prelude.{◌≡◌, ◌≤◌, ◌∷◌, ◌++◌, [], IfOk};
ghost use Rattle.wire_format.specs.Input.{NoEnd};
ghost use Rattle.wire_lines.specs.Stream.{Feeds, SinkFails};
ghost use Rattle.server_world.specs.Server.{seen_as};

use crate::fault::RunFault;
use crate::output::Output;
use server_world::Server;
use std::alloc::{AllocError, Global};
use wire_format::{Sink, is_blank};

/// The lines of a run, and what is said to them.
#[derive(Drop)]
pub struct Lines {
    pub output: Output,
    /// How many lines there were.
    pub count: u64,
    /// How many there may be.
    most: u64,
    ghost within: { count ≤ most },
}

impl Lines {
    ghost use Rattle.wire_lines.specs.Feeding.{at};

    pub fn new(alloc: Global, most: u64) -> Result<Lines, AllocError>
        ensures output { IfOk result (λ lines. lines.output.gathered ≡ []) }
        ensures count { IfOk result (λ lines. lines.count ≡ 0) }
        ensures most { IfOk result (λ lines. lines.most ≡ most) }
    {
        Ok(Lines {
            output: Output::new(alloc)?,
            count: 0,
            most,
        })
    }

    /// Answers one more line, which is given without its end. A blank one is only counted.
    pub fn answer<W: Sink>(
        &mut self,
        line: &[u8],
        server: &mut Server,
        writer: &mut W,
    ) -> Result<(), RunFault>
        requires { NoEnd line.now }
        ensures fed { Feeds self.old.most (at (W.held writer.old) self.old (seen_as server.old) (line.now ++ 10 ∷ []))
            (at (W.held writer.new) self.new (seen_as server.new) []) result }
        ensures failed { SinkFails (W.failures writer.old) (W.failures writer.new) result }
        ensures most { self.new.most ≡ self.old.most }
    {
        if self.count >= self.most {
            return Err(RunFault::Endless);
        }
        self.count += 1;
        if is_blank(line) {
            return Ok(());
        }
        self.output.serve(line, server, writer)
    }
}

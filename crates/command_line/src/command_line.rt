//! Where the words of the command line are found.
ghost use Rattle.std.specs.Prelude.{ℕ, List, Option, None, map, string_bytes};
ghost use Rattle.command_line.specs.Start.{AreWords};

use crate::ending::Ending;
use crate::starting::words_of;
use std::env::Env;

/// A command line.
pub trait CommandLine {
    // Its words without the program's name, where they are known.
    ghost given: { Self → Option (List (List ℕ)) };

    /// The words without the program's name, or how the program ends where they are no texts.
    fn words(&self) -> Result<Vec<String>, Ending>
        ensures { AreWords (λ words. map string_bytes words.items) (given self.now) result };
}

/// The command line of the process. Proofs assume nothing about its words: only tests cover that they are
/// those that the process was given.
impl<R: Env + AllocGlobal> CommandLine for R {
    ghost given = { λ _. None };

    fn words(&self) -> Result<Vec<String>, Ending> {
        words_of(self)
    }
}

//! Answers the calls of functors in a server that a host program owns.
ghost use Rattle.metad_c.specs.Functors.{program_functors};

use command_line::{clamp_answer, count_answer};
use dispatch::FunctorTable;
use std::alloc::{AllocError, Global};
use term_core::Action;
use variant_value::Value;

/// The functors of the program `metad`, answered without closures: a handle of C cannot own a closure.
#[derive(Drop, Clone, Copy)]
pub struct FixedFunctors {
    pub(crate) alloc: Global,
}

impl FunctorTable for FixedFunctors {
    ghost functors = { λ _. program_functors };

    fn answer(
        &self,
        index: u32,
        state: u64,
        args: &[Value],
    ) -> Result<(Vec<Action>, u64), AllocError> {
        match index {
            0 => clamp_answer(self.alloc, 0, 100, state, args),
            1 => count_answer(self.alloc, state, args),
            _ => unreachable!(),
        }
    }
}

//! A functor table answers the calls of functors.
ghost use Rattle.std.specs.Prelude.{◌≡◌, List, Some, IfOk};
ghost use Rattle.stored_slots.specs.declared.functor.Functor.{Functor};
ghost use Rattle.stored_slots.specs.Functors.{IsCall, actions_of, next_of};

use std::alloc::AllocError;
use stored_slots::Functors;
use term_core::Action;
use variant_value::Value;

/// A table of functors, as nested calls see it. They are generic in it, since functions that call one
/// another in turn can take no closure.
pub trait FunctorTable {
    ghost functors: { Self → List Functor };

    /// Answers a call of the functor at this index over a state with these arguments: returns its actions, and
    /// the state that follows.
    fn answer(
        &self,
        index: u32,
        state: u64,
        args: &[Value],
    ) -> Result<(Vec<Action>, u64), AllocError>
        requires { IsCall (functors self.now) index args.now }
        ensures actions { IfOk result (λ answer. Some answer.0.items ≡ actions_of (functors self.now) index state args.now) }
        ensures next { IfOk result (λ answer. Some answer.1 ≡ next_of (functors self.now) index state args.now) };
}

impl FunctorTable for Functors {
    ghost use Rattle.stored_slots.specs.Table.{functors_of};

    ghost functors = { functors_of };

    fn answer(
        &self,
        index: u32,
        state: u64,
        args: &[Value],
    ) -> Result<(Vec<Action>, u64), AllocError> {
        self.call(index, state, args)
    }
}

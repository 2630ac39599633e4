//! A functor with its closure.
ghost use Rattle.std.proofs.Props.{props};
ghost use Rattle.std.specs.Coded.{Coded-set};
ghost use Rattle.term_core.specs.CodedAct.{coded_act};
ghost use Rattle.std.specs.Prelude.{◌≡◌, IfOk, bytes_eq};
ghost use Rattle.term_evaluation.specs.Stating.{after, with_state};
ghost use Rattle.term_evaluation.specs.Unfolding.{unfolded_body};
ghost use Rattle.stored_slots.specs.Closures.{MayBeCalled, GivesBody, GivesNext};
ghost use Rattle.stored_slots.specs.Functors.{AreArguments, IsFunctor};
ghost use Rattle.stored_slots.specs.Proved.{IsFunctor-prop};

use crate::functor::Functor;
use std::alloc::{AllocError, Global};
use term_core::Action;
use variant_value::Value;

/// Returns the actions of a functor that is called with a state and arguments, and the next state. It takes
/// memory from the allocator that it is given, and its error means that this ran out.
pub type Closure = Box<dyn Fn(Global, u64, &[Value]) -> Result<(Vec<Action>, u64), AllocError>>;

/// A functor and its closure, with what the caller of `Functors::add` proved: the first three facts are all
/// that is known about the closure, and the last is about the functor.
#[derive(Drop)]
pub(crate) struct StoredFunctor {
    pub(crate) functor: Functor,
    pub(crate) run: Closure,
    ghost callable: { MayBeCalled (Closure.pre run) functor.params },
    ghost gives_body: { GivesBody (Closure.post run) functor.params functor.body } by { Prim.hlevel (props, Coded-set coded_act) },
    ghost gives_next: { GivesNext (Closure.post run) functor.params functor.next } by { Prim.hlevel props },
    ghost is_functor: { IsFunctor functor } by { IsFunctor-prop functor },
}

impl StoredFunctor {
    /// Whether this is its name.
    pub(crate) fn is_named(&self, name: &str) -> bool
        ensures { result ≡ bytes_eq name.now self.now.functor.name }
    {
        name == self.functor.name.as_str()
    }

    /// Returns the answer of the closure.
    pub(crate) fn answer(
        &self,
        alloc: Global,
        state: u64,
        args: &[Value],
    ) -> Result<(Vec<Action>, u64), AllocError>
        requires { AreArguments self.now.functor.params args.now }
        ensures actions { IfOk result (λ answer. answer.0.items ≡ unfolded_body args.now (with_state state self.now.functor.body)) }
        ensures next { IfOk result (λ answer. answer.1 ≡ after self.now.functor.next state args.now) }
    {
        (self.run)(alloc, state, args)
    }
}

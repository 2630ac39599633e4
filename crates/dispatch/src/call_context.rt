//! The session for which nested calls are made, and what answers the functors that they call.
ghost use Rattle.std.proofs.Props.{props};
ghost use Rattle.std.specs.Coded.{codes};
ghost use Rattle.std.specs.Prelude.{◌≡◌, IfOk, Some};
ghost use Rattle.stored_slots.specs.contracts.functor.Functor as functor;
ghost use Rattle.term_evaluation.specs.Stating.{after, with_state};
ghost use Rattle.term_evaluation.specs.Unfolding.{unfolded_body};
ghost use Rattle.session_model.specs.Functors.{functor_at};
ghost use Rattle.session_effects.specs.Setup.{settings_of};

use crate::functor_table::FunctorTable;
use session_effects::{SessionContext, are_arguments};
use std::alloc::AllocError;
use stored_slots::Functor;
use term_core::Action;
use term_evaluation::{after, unfold};
use variant_value::Value;

/// A caller, and what answers the functors that it knows.
#[derive(Drop)]
pub struct CallContext<'a, F: FunctorTable> {
    pub caller: SessionContext<'a>,
    pub answering: &'a F,
    ghost known: { F.functors answering.now ≡ caller.setup.now.functors } by { Prim.hlevel (props, codes, functor.the_row.coded) },
}

impl<'a, F: FunctorTable> CallContext<'a, F> {
    /// A caller with the functors that it knows.
    pub fn new(caller: SessionContext<'a>, answering: &'a F) -> CallContext<'a, F>
        requires { F.functors answering.now ≡ caller.setup.now.functors }
        ensures { result.caller ≡ caller.entry }
    {
        CallContext { caller, answering }
    }
}

/// Returns the actions of a functor over a state and with these arguments, and the state that follows. Its
/// closure answers where these may be given to it; with others its body is unfolded, which gives the same.
pub fn answered<F: FunctorTable>(
    actor: &CallContext<F>,
    index: u32,
    functor: &Functor,
    state: u64,
    args: &[Value],
) -> Result<(Vec<Action>, u64), AllocError>
    requires { Some functor.now ≡ functor_at (settings_of actor.now.caller.setup.now) index }
    ensures actions { IfOk result (λ answer. answer.0.items ≡ unfolded_body args.now (with_state state functor.now.body)) }
    ensures next { IfOk result (λ answer. answer.1 ≡ after functor.now.next state args.now) }
{
    if are_arguments(functor.params.as_slice(), args) {
        return actor.answering.answer(index, state, args);
    }
    let alloc = actor.caller.setup.alloc;
    let actions = unfold(alloc, &functor.body, state, args)?;
    Ok((
        actions.into_vec(),
        after(alloc, &functor.next, state, args)?,
    ))
}

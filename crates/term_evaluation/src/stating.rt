//! The state that follows a functor's call.
ghost use Rattle.std.specs.Prelude.{◌≡◌, IfOk};
ghost use Rattle.term_evaluation.specs.Stating.{after};

use crate::evaluation::{NoObjects, evaluate};
use crate::halt::Halt;
use crate::operations::state_in;
use crate::substitution::put_in_expr;
use std::alloc::{AllocError, Global};
use term_core::Expr;
use variant_value::Value;

/// The state after a call: the value of `next` with `state` and the arguments put in. Where that is a fault,
/// or not a whole number from 0 to 2^64 - 1, the state is unchanged.
pub fn after(alloc: Global, next: &Expr, state: u64, args: &[Value]) -> Result<u64, AllocError>
    ensures { IfOk result (λ follows. follows ≡ after next.now state args.now) }
{
    let next = put_in_expr(alloc, next, Some(state), args)?;
    match evaluate(alloc, &next, &[], &NoObjects) {
        Ok(value) => Ok(state_in(&value).unwrap_or(state)),
        Err(Halt::Memory) => Err(AllocError),
        Err(Halt::Refused(_)) | Err(Halt::Own(_)) => Ok(state),
    }
}

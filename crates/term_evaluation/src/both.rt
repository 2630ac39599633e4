//! Two results that may each have run out of memory.
ghost use Rattle.std.specs.Prelude.{◌≡◌, IfOk, Ok};

use std::alloc::AllocError;

/// The two values, or an error where memory ran out for either.
pub(crate) fn both<A: Drop, B: Drop>(
    a: Result<A, AllocError>,
    b: Result<B, AllocError>,
) -> Result<(A, B), AllocError>
    ensures first { IfOk result (λ both. a ≡ Ok both.0) }
    ensures second { IfOk result (λ both. b ≡ Ok both.1) }
{
    let a = a?;
    Ok((a, b?))
}

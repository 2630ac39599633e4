//! The fault of a call.
use crate::code::Code;
use std::alloc::{AllocError, AllocFailed};
use thiserror::Error;

/// A call that did not do what was asked answers one of these.
#[derive(Clone, Copy, Debug, Error)]
pub enum Fault {
    /// The call was refused, and has changed nothing.
    #[error("refused: {0}")]
    Refused(Code),
    /// Memory was wanted and not found.
    #[error("out of memory")]
    Memory,
}

impl From<AllocError> for Fault {
    ghost use Rattle.std.specs.Prelude.{◌≡◌};
    ghost use Rattle.plain_types.specs.declared.fault.Fault.TheVariants.{Memory};

    ghost from_gives = { λ _ fault. fault ≡ Memory };

    fn from(_error: AllocError) -> Fault {
        Fault::Memory
    }
}

impl<T: Drop> From<AllocFailed<T>> for Fault {
    ghost use Rattle.std.specs.Prelude.{◌≡◌};
    ghost use Rattle.plain_types.specs.declared.fault.Fault.TheVariants.{Memory};

    ghost from_gives = { λ _ fault. fault ≡ Memory };

    fn from(_error: AllocFailed<T>) -> Fault {
        Fault::Memory
    }
}

impl From<Code> for Fault {
    ghost use Rattle.std.specs.Prelude.{◌≡◌};
    ghost use Rattle.plain_types.specs.declared.fault.Fault.TheVariants.{Refused};

    ghost from_gives = { λ code fault. fault ≡ Refused code };

    fn from(code: Code) -> Fault {
        Fault::Refused(code)
    }
}

//! Why a run ends before its input does.
use std::alloc::AllocError;
use wire_format::Failed;

/// Why a run ended before its input did.
#[derive(Clone, Copy, PartialEq, Eq)]
pub enum RunFault {
    /// The source failed.
    Read,
    /// The sink failed, or took nothing.
    Write,
    /// There were more lines than a run reads, or more calls of `read`.
    Endless,
    /// There was no memory for the buffers of the run, or for the text of a line that is longer than
    /// a line of input may be.
    Memory,
}

impl From<AllocError> for RunFault {
    ghost use Rattle.std.specs.Prelude.{◌≡◌};
    ghost use Rattle.wire_lines.specs.declared.fault.RunFault.TheVariants.{Memory};

    ghost from_gives = { λ _ fault. fault ≡ Memory };

    fn from(_error: AllocError) -> RunFault {
        RunFault::Memory
    }
}

// The sink's failure; that of a source is `Read`.
impl From<Failed> for RunFault {
    ghost use Rattle.std.specs.Prelude.{◌≡◌};
    ghost use Rattle.wire_lines.specs.declared.fault.RunFault.TheVariants.{Write};

    ghost from_gives = { λ _ fault. fault ≡ Write };

    fn from(_failed: Failed) -> RunFault {
        RunFault::Write
    }
}

//! Why a text is not read in a way.

use json::Invalid;
use std::alloc::{AllocError, AllocFailed};

/// Why a way of reading does not give a text's members. Another way may.
#[derive(Clone, Copy, Drop, PartialEq, Eq)]
pub enum Stop {
    /// The text is not in the form that this way reads.
    Form,
    /// The text has an array in an array, or an object in an object or an array.
    Nested,
    /// The text is no JSON.
    NotJson,
    /// Out of memory.
    Memory,
}

impl From<AllocError> for Stop {
    ghost use Rattle.std.specs.Prelude.{◌≡◌};
    ghost use Rattle.json_reading.specs.declared.stop.Stop.TheVariants.{Memory};

    ghost from_gives = { λ _ stop. stop ≡ Memory };

    fn from(_error: AllocError) -> Stop {
        Stop::Memory
    }
}

impl<T: Drop> From<AllocFailed<T>> for Stop {
    ghost use Rattle.std.specs.Prelude.{◌≡◌};
    ghost use Rattle.json_reading.specs.declared.stop.Stop.TheVariants.{Memory};

    ghost from_gives = { λ _ stop. stop ≡ Memory };

    fn from(_error: AllocFailed<T>) -> Stop {
        Stop::Memory
    }
}

impl From<Invalid> for Stop {
    ghost use Rattle.std.specs.Prelude.{◌≡◌};
    ghost use Rattle.json_reading.specs.declared.stop.Stop.TheVariants.{NotJson};

    ghost from_gives = { λ _ stop. stop ≡ NotJson };

    fn from(_error: Invalid) -> Stop {
        Stop::NotJson
    }
}

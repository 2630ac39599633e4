//! Why an evaluation ends without a value.
use plain_types::{Code, Fault};
use std::alloc::AllocError;

/// Why an evaluation ends without a value. `O` is the type of a reader's own faults, for which there is
/// no code, such as that a property depends on itself.
#[derive(Drop)]
pub enum Halt<O> {
    Refused(Code),
    /// The reader's own fault, as the reader answered it.
    Own(O),
    /// Memory ran out.
    Memory,
}

impl<O: Drop> From<AllocError> for Halt<O> {
    ghost use Rattle.std.specs.Prelude.{◌≡◌};
    ghost use Rattle.term_evaluation.specs.declared.halt.Halt.TheVariants.{Memory};

    ghost from_gives = { λ _ halt. halt ≡ Memory };

    fn from(_error: AllocError) -> Halt<O> {
        Halt::Memory
    }
}

impl<O: Drop> From<Fault> for Halt<O> {
    ghost use Rattle.std.specs.Prelude.{◌≡◌};
    ghost use Rattle.term_evaluation.specs.Outcomes.{halted};

    ghost from_gives = { λ fault halt. halt ≡ halted fault };

    fn from(fault: Fault) -> Halt<O> {
        match fault {
            Fault::Refused(code) => Halt::Refused(code),
            Fault::Memory => Halt::Memory,
        }
    }
}

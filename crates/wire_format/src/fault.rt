//! Why a line is not read.
use plain_types::{Code, Text};
use std::alloc::AllocError;

/// Why a line is no command, and for which session that is said.
#[derive(Drop)]
pub struct LineFault {
    pub code: Code,
    /// The session that the line names, where it is a JSON object that names one.
    pub session: Option<Text>,
}

impl LineFault {
    ghost use Rattle.std.specs.Prelude.{◌≡◌};
    ghost use Rattle.wire_format.specs.Text.{blamed};

    /// The session for which the fault is said: `-` where the line names none.
    pub fn blamed(&self) -> &str
        ensures { result.now ≡ blamed self.now }
    {
        match &self.session {
            Some(session) => session.as_str(),
            None => "-",
        }
    }
}

/// Why a line was not read.
#[derive(Drop)]
pub enum ReadError {
    /// The line is no command.
    Fault(LineFault),
    /// Memory was wanted and not found.
    Memory,
}

impl From<AllocError> for ReadError {
    ghost use Rattle.std.specs.Prelude.{◌≡◌};
    ghost use Rattle.wire_format.specs.declared.fault.ReadError.TheVariants.{Memory};

    ghost from_gives = { λ _ error. error ≡ Memory };

    fn from(_error: AllocError) -> ReadError {
        ReadError::Memory
    }
}

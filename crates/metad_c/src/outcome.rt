//! The outcome of answering a line.
ghost use Rattle.std.specs.Prelude.{◌≡◌};
ghost use Rattle.metad_c.specs.Answers.{status_of};

/// The outcome of answering a line of a host program.
#[derive(Clone, Copy, PartialEq, Eq)]
pub enum Outcome {
    /// It is answered, and the answer can be fetched.
    Said,
    /// There was no memory, and no command is done.
    Undone,
    /// Its command is done, but there was no memory for the lines of its session.
    Unsaid,
}

impl Outcome {
    /// The status that the host program gets for this outcome.
    pub(crate) fn status(self) -> u32
        ensures { result ≡ status_of self }
    {
        match self {
            Outcome::Said => 0,
            Outcome::Undone => 5,
            Outcome::Unsaid => 6,
        }
    }
}

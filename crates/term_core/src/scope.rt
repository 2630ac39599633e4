//! The places where an expression may be written.
ghost use Rattle.std.specs.Prelude.{◌≡◌};
ghost use Rattle.term_core.specs.Forms.{params, has_target, has_state};

use crate::target::Target;

/// The place where an expression is written, which decides what it may refer to.
#[derive(Clone, Copy)]
pub(crate) enum Scope {
    Binding,
    /// The body of a slot with so many parameters.
    Slot(usize),
    /// The body of a functor with so many parameters.
    Functor(usize),
    /// The expression gives a functor with this many parameters its next state.
    Next(usize),
}

impl Scope {
    /// How many arguments the expression may refer to.
    pub(crate) fn params(self) -> usize
        ensures { result ≡ params self }
    {
        match self {
            Scope::Binding => 0,
            Scope::Slot(count) | Scope::Functor(count) | Scope::Next(count) => count,
        }
    }

    /// Whether the expression may read properties of this target.
    pub(crate) fn has_target(self, target: &Target) -> bool
        ensures { result ≡ has_target self target.now }
    {
        match self {
            Scope::Binding => matches!(target, Target::Itself | Target::Object(_)),
            Scope::Slot(_) | Scope::Functor(_) => true,
            Scope::Next(_) => false,
        }
    }

    /// Whether the expression may refer to a state.
    pub(crate) fn has_state(self) -> bool
        ensures { result ≡ has_state self }
    {
        match self {
            Scope::Binding | Scope::Slot(_) => false,
            Scope::Functor(_) | Scope::Next(_) => true,
        }
    }
}

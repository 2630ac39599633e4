//! Targets.
ghost use Rattle.std.specs.Prelude.{◌≡◌, IfOk};

use plain_types::Text;
use std::alloc::{AllocError, Global};

/// The object that an expression reads, or that an action acts on. Which object it is is found when
/// the expression is evaluated or the action is run.
pub enum Target {
    /// The object whose property is bound, or whose slot is run.
    Itself,
    /// The object that sent the signal.
    Sender,
    /// The first object of this name below the object itself.
    Child(Text),
    /// The object of this number, which is not 0.
    Object(u32),
}

// Each scope that drops a target calls this, where a derived `Drop` would have all forms proved there.
impl Drop for Target {
    fn drop(self) {
        match self {
            Target::Itself | Target::Sender | Target::Child(_) | Target::Object(_) => (),
        }
    }
}

impl Target {
    /// An equal target in memory of its own.
    pub fn copy(&self, alloc: Global) -> Result<Target, AllocError>
        ensures { IfOk result (λ target. target ≡ self.now) }
    {
        Ok(match self {
            Target::Itself => Target::Itself,
            Target::Sender => Target::Sender,
            Target::Child(name) => Target::Child(name.copy(alloc)?),
            Target::Object(number) => Target::Object(*number),
        })
    }
}

//! The changes that a write causes.
ghost use Rattle.std.specs.Prelude.{◌≡◌};
ghost use Rattle.binding_graph.specs.WriteChanges.{alone};

use binding_values::Change;
use plain_types::Items;

/// The changes that a write to a property causes.
#[derive(Drop)]
pub enum WriteChanges {
    /// There are none.
    Nothing,
    /// The value of the written property alone, which it shows now.
    Written,
    /// Each of these, in order.
    Several(Items<Change>),
}

impl WriteChanges {
    /// Returns the changes of a write after which no other property shows another value.
    pub fn alone(is_change: bool) -> WriteChanges
        ensures { result ≡ alone is_change }
    {
        if is_change {
            WriteChanges::Written
        } else {
            WriteChanges::Nothing
        }
    }
}

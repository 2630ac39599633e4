//! A write may name its property.
use binding_graph::WriteChanges;
use variant_value::Value;

/// A write to the property of a name has changed one of these.
#[derive(Drop)]
pub enum NamedWrite {
    /// The class of the object declares it: its number, and what has changed.
    Declared {
        number: usize,
        changed: WriteChanges,
    },
    /// The class declares none of this name, and nothing was written: the value.
    Undeclared(Value),
}

//! Changes.
use crate::property::BindingError;
use property_store::Property;
use variant_value::Value;

/// A change reports a property whose value or error is another one than before.
pub struct Change {
    pub at: Property,
    pub told: ChangeKind,
}

impl Drop for Change {
    fn drop(self) {
        let Change { at: _, told: _ } = self;
    }
}

/// A change is an error or a value.
#[derive(Drop)]
pub enum ChangeKind {
    /// An error that is new, or another than before.
    Error(BindingError),
    /// The value, which is another than before.
    Value(Value),
}

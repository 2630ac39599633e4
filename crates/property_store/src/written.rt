//! Which properties were written.
use crate::property::Property;

/// The properties that were written, as `Stores::take_written` returns them.
#[derive(Clone, Copy)]
pub enum Written {
    /// No mark was left.
    None,
    /// This property.
    One(Property),
    /// Objects were removed, so any property may have another value now, or no value.
    All,
}

//! Why nothing is written to a property.
use plain_types::Code;
use variant_value::Value;

/// Why a value is not written to the declared property of a name.
#[derive(Drop)]
pub enum Unwritten {
    /// The object has none of this name. The value is handed back.
    Undeclared(Value),
    /// The value is refused.
    Refused(Code),
}

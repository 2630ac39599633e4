//! A slot that is run.
use variant_value::Value;

/// A slot that is run: its object, the object that sent the signal or 0, the values of its parameters,
/// and the depth of the signals that it sends.
#[derive(Clone, Copy)]
pub struct Slot<'a> {
    pub object: u32,
    pub sender: u32,
    pub args: &'a [Value],
    pub depth: u32,
}

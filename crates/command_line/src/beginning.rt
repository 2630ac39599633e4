//! A run of the program begins with its options and classes.

use class_table::ClassTable;
use plain_types::Text;

/// A run of the program begins with these.
#[derive(Drop)]
pub struct Beginning {
    /// The classes that its objects can be of.
    pub classes: ClassTable,
    /// How many turns each command has for the calls that it causes.
    pub turns: u32,
    /// The name of the session whose slice of the input is written in place of the answers.
    pub slice: Option<Text>,
}

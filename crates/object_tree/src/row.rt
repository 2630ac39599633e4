//! Objects as rows of a table.
use shared_rows::Numbered;

/// The most objects that a forest holds.
pub const OBJECTS: usize = 4096;

/// The most levels of a tree; a root is on level 1.
pub const DEPTH: usize = 64;

/// An object.
#[derive(Clone, Copy)]
pub struct Row {
    /// Counted from 1 in each forest, and never given again before it is cleared.
    pub number: u32,
    /// The number of its class.
    pub class: u32,
    /// The object above it; a root has none.
    pub parent: Option<u32>,
    /// Orders objects by when they got their present parent: the greater, the later.
    pub stamp: u64,
    /// Whether it is being deleted.
    pub dying: bool,
    /// Whether its signals are blocked.
    pub blocked: bool,
}

impl Numbered for Row {
    type Number = u32;

    ghost number = { λ row. row.number };

    fn number(&self) -> u32 {
        self.number
    }
}

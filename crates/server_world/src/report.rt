use plain_types::Items;
use session_model::Line;

/// A run reports one entry for each of its commands.
#[derive(Drop)]
pub enum Entry {
    /// The lines that the session of the command receives, in order. A refusal is one line.
    Lines(Items<Line>),
    /// Memory ran out at the command. Its session has failed, or could not be opened.
    OutOfMemory,
}

/// A run returns a report.
#[derive(Drop)]
pub struct Report {
    /// One entry for each command, in their order; or no entry at all, if there was no memory for the list itself
    /// and no command was done.
    pub lines: Items<Entry>,
    /// Whether memory has run out, in this run or before it.
    pub memory_refused: bool,
}

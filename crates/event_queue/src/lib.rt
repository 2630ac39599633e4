//! The events that wait in the queues of all places: calls that were queued, and deletions that were
//! asked for later. Each place sees its own events alone: those of a higher priority first, and equal ones
//! in the order of posting.
#![tactic(auto)]

mod event;
mod laws;
mod object_counts;
mod order;
mod table;

pub use event::{Event, Priority, QueuedCall};
pub use laws::events_are_taken_by_priority;
pub use table::{Counts, EVENTS, Queues};

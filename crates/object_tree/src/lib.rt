//! Live objects in trees, a forest for each session: who is whose parent, the order of children by
//! age, and the search for an object below another one.
#![tactic(auto)]

mod adding;
mod child;
mod finding;
mod forests;
mod laws;
mod lines;
mod listing;
mod moving;
mod refusing;
mod removing;
mod row;

pub use forests::Forests;
pub use laws::{changes_keep_forests_sound, first_of_all_is_found};
pub use row::{DEPTH, OBJECTS, Row};

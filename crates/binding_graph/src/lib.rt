//! This crate keeps the bindings of each place and its groups: the value that each property shows, and the
//! changes that a write causes. Results of evaluations are cached, and evaluated again where a change reaches
//! them. The crate `binding_values` says what the value of a bound property is.
#![tactic(auto)]

mod bindings;
mod changes;
mod graph;
mod last_shown;
mod laws;
mod removal;
mod settling;
mod show;
mod showing;
mod shown_object;
mod write_changes;

pub use binding_values::BINDINGS;
pub use bindings::Bindings;
pub use laws::{law_fitting, law_openings, law_steps};
pub use write_changes::WriteChanges;

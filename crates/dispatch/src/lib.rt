//! The calls that a command causes, which call one another in turn: signals that are sent, slots and functors
//! that run, actions that are done, objects that are deleted.
#![tactic(auto)]

mod agenda;
mod call_context;
mod command_output;
mod deletion;
mod functor_table;
mod notifying;
mod posts;

pub use agenda::{is_queued, run_functor, run_method};
pub use call_context::CallContext;
pub use command_output::CommandOutput;
pub use deletion::delete;
pub use functor_table::FunctorTable;
pub use notifying::{notify, tell};

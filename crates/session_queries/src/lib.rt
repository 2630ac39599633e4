//! The commands that read of a session and change nothing: what each is answered, or why it is refused.
#![tactic(auto)]

mod bindings;
mod describing;
mod descriptions;
mod listing;
mod queries;
mod session_view;

pub use queries::answer;

//! Whole runs of a server: commands of many sessions, and the lines that each session receives.
#![tactic(auto)]

mod bare;
mod laws;
mod notes;
mod report;
mod server;

pub use bare::BareServer;
pub use laws::{influence_is_least, leaving_out_keeps_sessions, slicing_keeps_a_session};
pub use notes::Notes;
pub use report::{Entry, Report};
pub use server::Server;
pub use session_model::{Answer, Command, Line, Tagged};

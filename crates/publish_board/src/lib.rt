//! This crate keeps the publications and the joins of sessions: for each place the rows of its own session, in
//! the order of making, and besides them which places join a session, and which of them what that publishes
//! under a name. Sessions, objects, signals and methods are names and numbers here; whether they are there is
//! not known.
#![tactic(auto)]

mod board;
mod join;
mod joiners;
mod lazy_desk;
mod listed;
mod publication;
mod rows;
mod topic;

pub use board::Board;
pub use join::Join;
pub use joiners::Near;
pub use lazy_desk::{Counts, JOINS, PUBLICATIONS};
pub use publication::Publication;

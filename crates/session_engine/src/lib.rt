//! The engine: the sessions of a server, and what a command of one of them does to all.
#![tactic(auto)]

mod bindings;
mod commands;
mod connections;
mod engine;
mod events;
mod invocation;
mod item;
mod operations;
mod properties;
mod sharing;
mod trees;

pub use engine::{Core, Engine};
pub use item::Item;

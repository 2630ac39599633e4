//! Values of properties and arguments, and how they are written in JSON.
#![tactic(auto)]

mod args;
mod value;

pub use args::Args;
pub use value::{TEXT_BYTES, Value};

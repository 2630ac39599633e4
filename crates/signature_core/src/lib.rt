//! The kinds of values, and signatures of methods such as `setText(QString,int)`.
#![tactic(auto)]

mod kind;
mod reading;
mod signature;

pub use kind::Kind;
pub use signature::{PARAMS, Signature, fits};

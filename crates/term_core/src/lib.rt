//! Expressions and bodies of slots, as they are read from JSON.
#![tactic(auto)]

mod action;
mod body;
mod effects;
mod expr;
mod forms;
mod json;
mod limits;
mod operator;
mod scope;
mod target;

pub use action::{Action, SingleAction, Step};
pub use body::Body;
pub use expr::{Expr, Node};
pub use limits::{ACTIONS, NODES};
pub use operator::Operator;
pub use target::Target;

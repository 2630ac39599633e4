//! This crate gives expressions and the bodies of slots their meaning: the properties that an expression reads,
//! its value over what is read, and a body with its arguments put in.
#![tactic(auto)]

mod both;
mod evaluation;
mod halt;
mod laws;
mod meeting;
mod operations;
mod reading;
mod scalar;
mod stating;
mod substitution;

pub use evaluation::{NoObjects, Reads, evaluate, standing};
pub use halt::Halt;
pub use laws::{
    evaluates_in_place, finite_reads_suffice, met_suffice, reads_suffice, state_keeps_limits,
    unfolding_keeps_limits, unfolding_leaves_no_argument, values_are_short,
};
pub use meeting::{Notes, meet};
pub use operations::{apply, state_value, truth};
pub use reading::{Read, reads_of};
pub use stating::after;
pub use substitution::{copied_body, unfold};

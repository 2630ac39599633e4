//! Tests of functors: that closures with their facts are taken and answer, the program's and those of a
//! host that reads its functors from JSON.
#![tactic(auto)]

#[cfg(test)]
mod functors;
mod handing;
#[cfg(test)]
mod hosting;

pub use handing::answers;

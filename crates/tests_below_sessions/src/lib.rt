//! Tests of what only a call can show of the crates below sessions: which texts are read without a tree, which
//! calls of a device are made again, examples from outside of what no command reaches so far, that a gap buffer's
//! calls succeed where memory is found, and that the definitions mean what the rules say. What lines and class files
//! can show of these crates is tested on the built program, by its rows and tools.
#![tactic(auto)]

#[cfg(test)]
mod base;
#[cfg(test)]
mod beginnings;
#[cfg(test)]
mod bodies;
#[cfg(test)]
mod cases;
#[cfg(test)]
mod class_files;
#[cfg(test)]
mod devices;
#[cfg(test)]
mod expressions;
#[cfg(test)]
mod fakes;
#[cfg(test)]
mod gaps;
#[cfg(test)]
mod members;
#[cfg(test)]
mod states;

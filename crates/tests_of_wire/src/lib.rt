//! Tests of the sessions and of the crates between them and the bytes that need direct calls: slow and
//! failing devices, sessions alone, and several runs on one server, with enough memory. What can be
//! tested by lines is tested on the built program.
#![tactic(auto)]

#[cfg(test)]
mod alone;
#[cfg(test)]
mod broken_off;
#[cfg(test)]
mod engine;
#[cfg(test)]
mod fakes;
#[cfg(test)]
mod functors;
#[cfg(test)]
mod lines;
#[cfg(test)]
mod runs;
#[cfg(test)]
mod served;
#[cfg(test)]
mod server;
#[cfg(test)]
mod sessions;
#[cfg(test)]
mod slices;

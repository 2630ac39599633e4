//! Tests of the tables of sessions, call by call, and that their calls succeed where memory is found: what is stored,
//! queued and published, what properties show, and what bindings and groups tell.
#![tactic(auto)]

#[cfg(test)]
mod benches;
#[cfg(test)]
mod board;
#[cfg(test)]
mod events;
#[cfg(test)]
mod graphs;
#[cfg(test)]
mod properties;

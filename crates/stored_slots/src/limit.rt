//! How many functors there may be.

/// The most functors that a server may have: a limit of our own.
pub const FUNCTORS: usize = 256;

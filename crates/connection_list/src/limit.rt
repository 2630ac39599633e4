//! How much a place holds.

/// How many connections a place holds at most.
pub const CONNECTIONS: usize = 16384;

/// How many connections are listed at once at most.
pub const LISTED: usize = 1000;

//! Limits.

/// The most forms that an expression is made of.
pub const NODES: usize = 64;

/// The most actions that a body has, those in its branches among them.
pub const ACTIONS: usize = 32;

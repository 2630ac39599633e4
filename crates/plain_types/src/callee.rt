//! A connection has a callee.

/// A connection calls this at its receiver.
#[derive(Clone, Copy, PartialEq, Eq)]
pub enum Callee {
    /// The method of the receiver's class with this index.
    Method(u32),
    /// The functor with this index; the receiver is its context object.
    Functor(u32),
}

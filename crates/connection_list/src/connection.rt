//! A connection.

use plain_types::{Callee, ConnectionType};
use shared_rows::Numbered;

/// A connection for `connect` to make.
#[derive(Clone, Copy)]
pub struct NewConnection {
    /// The object that sends the signal.
    pub sender: u32,
    pub signal: u32,
    /// The object whose method is called, or that is the functor's context.
    pub receiver: u32,
    pub callee: Callee,
    pub mode: ConnectionType,
    /// Taken out before its callee is first called (`Qt::SingleShotConnection`).
    pub single: bool,
}

/// A connection that has been made.
#[derive(Clone, Copy)]
pub struct Connection {
    /// Counted from 1 in each place, in the order of making, and never given twice before a `clear`.
    pub number: u32,
    /// The object that sends the signal.
    pub sender: u32,
    pub signal: u32,
    /// The object whose method is called, or that is the functor's context.
    pub receiver: u32,
    pub callee: Callee,
    pub mode: ConnectionType,
    /// Taken out before its callee is first called (`Qt::SingleShotConnection`).
    pub single: bool,
    /// A functor keeps this number from one of its calls to the next, 0 at first. It is 0 where the callee is a
    /// method.
    pub state: u64,
}

impl Numbered for Connection {
    type Number = u32;

    ghost number = { λ row. row.number };

    fn number(&self) -> u32 {
        self.number
    }
}

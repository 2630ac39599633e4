//! Which connections are to be broken.

/// The receiving end of a pattern.
#[derive(Clone, Copy)]
pub struct Receiver {
    pub object: u32,
    /// Absent, every method is meant, and every functor with this object as its context.
    pub method: Option<u32>,
}

/// Which connections `disconnect_matching` breaks, as the arguments of `QObject::disconnect` say it:
/// what is absent matches everything.
#[derive(Clone, Copy)]
pub struct Pattern {
    pub sender: u32,
    pub signal: Option<u32>,
    pub receiver: Option<Receiver>,
}

//! Links lead from one property that was written to the next.
use crate::property::Property;

/// Whether a property is marked, and the one that was marked before it.
#[derive(Clone, Copy)]
pub(crate) enum Link {
    Unmarked,
    /// Marked, and none before it.
    Last,
    Before(Property),
}

/// The property of a place that was marked last.
#[derive(Clone, Copy)]
pub(crate) enum Head {
    None,
    First(Property),
    /// All are marked, and none of them is linked.
    All,
}

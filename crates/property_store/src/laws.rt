//! These laws hold of marks. There is nothing to run in these functions: their clauses are theorems.
ghost use Rattle.property_store.specs.Laws.{DrainLaw};

/// Calls of [`take_written`](crate::Stores::take_written) up to one that tells nothing have told each
/// property that was marked, or that all were, and no other.
pub fn law_drains()
    ensures { DrainLaw }
{}

//! The limits of a server.
ghost use Rattle.session_model.specs.Limits.{AreTheLimits};

/// The value of each limit of sessions, classes and functors. There is nothing to run: other clauses use limits by
/// name, and this one gives their numbers. The limits of what a run reads are given where runs are defined.
pub fn limits_are_these()
    ensures { AreTheLimits }
{}

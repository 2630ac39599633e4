//! The limits of what a run reads.
ghost use Rattle.wire_lines.specs.Limits.{AreLimitsOfRuns};

/// The number of each limit of a run. There is nothing to run: other clauses know limits by their names, and
/// this one says what the names stand for.
pub fn limits_of_runs_are_these()
    ensures { AreLimitsOfRuns }
{}

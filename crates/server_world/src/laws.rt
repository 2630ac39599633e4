//! These laws hold of the sessions of every server, whatever the commands.
ghost use Rattle.isolation.specs.Laws.{LeavingOut, FinalStates, InfluencedStates, InfluenceIsLeast, SliceLaw, SliceFromMembers, SliceWithinInfluence};
ghost use Rattle.session_model.specs.Machine.{machine};
ghost use Rattle.session_model.specs.Thread.{Settings};

/// Leaving out commands of sessions that no kept session joins changes nothing for a kept session: it receives the
/// same lines, and ends in the same state. This also holds when only the sessions that influence one session are
/// kept, even if the others begin in other states.
///
/// There is nothing to run: the clauses are the theorems.
pub fn leaving_out_keeps_sessions()
    ensures each { (settings : Settings) → LeavingOut (machine settings) }
    ensures all { (settings : Settings) → FinalStates (machine settings) }
    ensures influence { (settings : Settings) → InfluencedStates (machine settings) }
{}

/// A session receives the same lines, and ends in the same state, where only the commands of its slice are done.
/// These are commands of sessions that influence it.
///
/// There is nothing to run: the clauses are the theorems.
pub fn slicing_keeps_a_session()
    ensures slice { (settings : Settings) → SliceLaw (machine settings) }
    ensures members { (settings : Settings) → SliceFromMembers (machine settings) }
    ensures within { (settings : Settings) → SliceWithinInfluence (machine settings) }
{}

/// The sessions that influence a session are the least set that holds it and whatever a member joins.
///
/// There is nothing to run: the clause is the theorem.
pub fn influence_is_least()
    ensures { (settings : Settings) → InfluenceIsLeast (machine settings) }
{}

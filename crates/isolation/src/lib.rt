//! The laws by which the sessions of a server are isolated, proved once for every machine.
//!
//! A machine says what a session does with a command, what arrives at the others, and which sessions
//! its joins name. It is lawful if a session ignores the posts of a session that none of its joins
//! names, and if a command that is accepted as a join makes one, and nothing else does. The terms are
//! defined in `specs`. For a server it is enough to show that its machine is lawful, and that its calls
//! do what the machine does.
#![tactic(auto)]

ghost use Rattle.std.specs.Prelude.{Bool};
ghost use Rattle.isolation.specs.Machine.{Machine, IsLawful};
ghost use Rattle.isolation.specs.Laws.{FirstHalf, LeavingOut, FinalStates, InterleavingLaw, SecondHalf, InfluencedStates, InfluenceIsLeast};
ghost use Rattle.isolation.specs.Laws.{JoinsStood, InfluenceOfStanding, SliceLaw, SliceFromMembers, BetweenLaw, SliceWithinInfluence};
ghost use Rattle.isolation.specs.Spared.{SparedLaw};
ghost use Rattle.isolation.specs.Laws.{NotesGiveSlice, NotesAreRight, LeavingOutPieces, SaidStays, SaidByInfluence, ToldAlone};

/// The laws of runs: each session is as if alone, and it does not see the commands of sessions
/// that no chain of joins from it leads to.
///
/// There is nothing to run. The clauses are the theorems, for every lawful machine, every state
/// at the start and every list of commands.
pub fn laws<Name, State, Command, Line, Post>()
    ensures first_half { (m : Machine Name State Command Line Post) → IsLawful m → FirstHalf m }
    ensures leaving_out { (m : Machine Name State Command Line Post) → IsLawful m → LeavingOut m }
    ensures final_states { (m : Machine Name State Command Line Post) → IsLawful m → FinalStates m }
    ensures second_half { (m : Machine Name State Command Line Post) → IsLawful m → SecondHalf m }
    ensures influenced_states { (m : Machine Name State Command Line Post) → IsLawful m → InfluencedStates m }
    ensures influence_is_least { (m : Machine Name State Command Line Post) → IsLawful m → InfluenceIsLeast m }
    ensures joins_stood { (m : Machine Name State Command Line Post) → IsLawful m → JoinsStood m }
    ensures influence_of_standing { (m : Machine Name State Command Line Post) → IsLawful m → InfluenceOfStanding m }
{}

/// The laws of slices: a session does not see the commands that its slice leaves out, and notes
/// taken while a list is done give the slice.
///
/// There is nothing to run, as in `laws`.
pub fn slice_laws<Name, State, Command, Line, Post>()
    ensures slice { (m : Machine Name State Command Line Post) → IsLawful m → SliceLaw m }
    ensures slice_from_members { (m : Machine Name State Command Line Post) → IsLawful m → SliceFromMembers m }
    ensures slice_within_influence { (m : Machine Name State Command Line Post) → IsLawful m → SliceWithinInfluence m }
    ensures notes_give_slice { (m : Machine Name State Command Line Post) → IsLawful m → NotesGiveSlice m }
    ensures notes_are_right { (m : Machine Name State Command Line Post) → IsLawful m → NotesAreRight m }
{}

/// The laws of other lists of commands that give a session the same lines: those between its slice and the
/// whole, and those in which commands that cannot influence it are at other positions.
///
/// There is nothing to run, as in `laws`.
pub fn list_laws<Name, State, Command, Line, Post>()
    ensures between { (m : Machine Name State Command Line Post) → IsLawful m → BetweenLaw m }
    ensures interleaving { (m : Machine Name State Command Line Post) → IsLawful m → InterleavingLaw m }
{}

/// The laws of inputs in pieces, where some pieces are faults. A session's commands give it the lines that
/// they would give it alone. What it receives stays the same if the commands of sessions are left out
/// that no chain of joins from it leads to.
///
/// There is nothing to run, as in `laws`. A fault is any value, such as a code with a session's name.
pub fn piece_laws<Name, State, Command, Line, Post, Fault>()
    ensures leaving_out { (m : Machine Name State Command Line Post) → IsLawful m → LeavingOutPieces Fault m }
    ensures said_stays { (m : Machine Name State Command Line Post) → IsLawful m → SaidStays Fault m }
    ensures said_by_influence { (m : Machine Name State Command Line Post) → IsLawful m → SaidByInfluence Fault m }
    ensures told_alone { (m : Machine Name State Command Line Post) → IsLawful m → ToldAlone Fault m }
{}

/// The law of runs in which memory runs out. Sessions that are closed under joins, and whose own commands
/// were all done, receive what the machine gives them, even if other sessions run out of memory.
///
/// There is nothing to run, as in `laws`. The law's test picks the commands that restart a failed session.
pub fn spared_laws<Name, State, Command, Line, Post>()
    ensures spared { (m : Machine Name State Command Line Post) (anew : Command → Bool) → IsLawful m → SparedLaw m anew }
{}

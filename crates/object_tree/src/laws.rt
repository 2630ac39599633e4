//! These laws hold of forests beyond single calls.
ghost use Rattle.object_tree.specs.Laws.{FirstIsFound, KeepsNumbers, KeepsSound};

/// Changes leave every forest sound and its numbers as they are. There is nothing to run: the clauses are laws
/// over the definitions by which the calls of [`Forests`](crate::Forests) are described.
pub fn changes_keep_forests_sound()
    ensures sound { KeepsSound }
    ensures numbers { KeepsNumbers }
{}

/// The first of all objects below another one that pass a test is the one that a search finds.
pub fn first_of_all_is_found()
    ensures { FirstIsFound }
{}

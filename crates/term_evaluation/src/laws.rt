//! These laws hold of evaluation and of unfolding. There is nothing to run in these functions: the clause of
//! each is a theorem.
ghost use Rattle.term_evaluation.specs.Laws.{EvaluatesInPlace, FiniteReadsSuffice, MetSuffice, ReadsSuffice, StateKeepsActions};
ghost use Rattle.term_evaluation.specs.Laws.{StateKeepsLimits, StateTakesNoArgument, UnfoldingKeepsActions, UnfoldingKeepsLimits};
ghost use Rattle.term_evaluation.specs.Laws.{UnfoldingKeepsNodes, UnfoldingLeavesNoArgument, ValuesAreShort};

/// The value of an expression depends on no property but those that `reads_of` names: readers that
/// answer the same at these, whatever they answer elsewhere and whatever faults of their own they
/// have, give the expression the same value or the same fault.
pub fn reads_suffice<O>()
    ensures { ReadsSuffice O }
{}

/// The value of an expression depends on no property but those that its evaluation reads: with another
/// reader that answers the same at these, it reads the same properties and has the same value or fault.
pub fn met_suffice<O>()
    ensures { MetSuffice O }
{}

/// A reader may be any finite map that has the properties of the expression. A property that the map lacks
/// cannot be read: it is `NoSuchProperty` where the map has another of that object, and `NoSuchObject` where it
/// has none.
pub fn finite_reads_suffice<O>()
    ensures { FiniteReadsSuffice O }
{}

/// Evaluating an expression with arguments gives what evaluating it without arguments gives once they are
/// put in. So the body of a slot can be run in place, and no copy of it is needed.
pub fn evaluates_in_place<O>()
    ensures { EvaluatesInPlace O }
{}

/// An expression whose constants are short texts, as those of bindings and bodies are, has a short value
/// or a fault over short arguments and short values of properties.
pub fn values_are_short<O>()
    ensures { ValuesAreShort O }
{}

/// A body that takes no argument but its parameters has none left where it is unfolded with as many
/// arguments, or more.
pub fn unfolding_leaves_no_argument()
    ensures { UnfoldingLeavesNoArgument }
{}

/// An unfolded body has as many actions, each of its expressions is made of as many forms, and with short
/// arguments it keeps to the limits as the body does.
pub fn unfolding_keeps_limits()
    ensures nodes { UnfoldingKeepsNodes }
    ensures actions { UnfoldingKeepsActions }
    ensures limits { UnfoldingKeepsLimits }
{}

/// A body with a number in the place of the state keeps to the limits as the body does, and it takes no
/// argument that it did not take.
pub fn state_keeps_limits()
    ensures arguments { StateTakesNoArgument }
    ensures actions { StateKeepsActions }
    ensures limits { StateKeepsLimits }
{}

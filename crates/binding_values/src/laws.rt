//! These laws hold of the values of bound properties. There is nothing to run in these functions: their clauses
//! are theorems.
ghost use Rattle.binding_values.specs.Laws.{ChainLaw, PlainIsByRule, SameOrLoop};

/// The value of a property is what the rule says, by the values of others with this one seen too; and
/// where more was seen a property has the same value or is a loop.
pub fn law_values()
    ensures rule { PlainIsByRule }
    ensures same_or_loop { SameOrLoop }
{}

/// Along a chain of properties in which the evaluation of each, with those before it seen, really reads the
/// next, the last has with those before it seen the value that it has with nothing seen.
pub fn law_chains()
    ensures { ChainLaw }
{}

//! These laws hold of kept results. There is nothing to run in these functions: their clauses are theorems.
ghost use Rattle.binding_values.specs.KeptLaws.{AdditionIsMarked, AllMayChange, BindingIsMarked, CompleteIsKnown, CompleteIsRight};
ghost use Rattle.binding_values.specs.KeptLaws.{DynamicIsNothing, KeptStaysRight, NoDynamicIsNothing, RestIsRight, StaysRight};
ghost use Rattle.binding_values.specs.KeptLaws.{StaysWhole, UnbindingIsMarked, UnmarkedIsComplete, WriteIsMarked};

/// Kept results stay right where nothing that they have read has changed. Where all that is bound is kept and
/// right, each property's value is known by it. A change whose properties are marked leaves kept results right
/// except where a mark reaches, and whole except at marks; where the marks have spread to all that they reach,
/// the rest is right.
pub fn law_keepings()
    ensures stays { KeptStaysRight }
    ensures known { CompleteIsKnown }
    ensures complete { UnmarkedIsComplete }
    ensures right { CompleteIsRight }
    ensures step { StaysRight }
    ensures whole { StaysWhole }
    ensures rest { RestIsRight }
{}

/// Each change of a store or of a binding marks all that it may change of the values of others: the property
/// that is written, those of a new object, the property that is bound. Dynamic properties are nothing to
/// bindings, and where all is marked anything may change.
pub fn law_changes()
    ensures write { WriteIsMarked }
    ensures add { AdditionIsMarked }
    ensures set_dynamic { DynamicIsNothing }
    ensures remove_dynamic { NoDynamicIsNothing }
    ensures all { AllMayChange }
    ensures bind { BindingIsMarked }
    ensures unbind { UnbindingIsMarked }
{}

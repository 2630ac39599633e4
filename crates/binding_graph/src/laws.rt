//! These laws hold of shown values, and of stores and bindings that are in step. There is nothing to run in
//! these functions: their clauses are theorems.
ghost use Rattle.binding_values.specs.Fitting.{ChangesFit, SettlingIsSound, ValuesAreShort};
ghost use Rattle.binding_graph.specs.Step.{AdditionStaysInStep, ClearingStaysInStep, DynamicStaysInStep, NamedWriteStaysInStep};
ghost use Rattle.binding_graph.specs.Step.{NoDynamicStaysInStep, OpeningStaysInStep, RemovalStaysInStep, RoomStaysInStep, WriteStaysInStep};

/// Over a sound store and a sound graph the value of each property is short, and each value that a settling
/// tells is one of the property's kind; the graph after it is sound.
pub fn law_fitting()
    ensures values { ValuesAreShort }
    ensures changes { ChangesFit }
    ensures settling { SettlingIsSound }
{}

/// Stores and bindings that are in step stay so with every change of a store.
pub fn law_steps()
    ensures write { WriteStaysInStep }
    ensures write_named { NamedWriteStaysInStep }
    ensures add { AdditionStaysInStep }
    ensures set_dynamic { DynamicStaysInStep }
    ensures remove_dynamic { NoDynamicStaysInStep }
    ensures drop { RemovalStaysInStep }
    ensures clear { ClearingStaysInStep }
{}

/// Stores and bindings that are in step stay so with one more place, or with room for one.
pub fn law_openings()
    ensures opening { OpeningStaysInStep }
    ensures ready { RoomStaysInStep }
{}

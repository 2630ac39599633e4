//! Removal of objects with their bindings.
ghost use Rattle.std.specs.Prelude.{◌≡◌, ◌≤◌, ℕ, IfOk, None, OnOk, length, true};
ghost use Rattle.shared_rows.specs.Table.{IsPlace};
ghost use Rattle.property_store.specs.Marks.{is_marked};
ghost use Rattle.property_store.specs.Pending.{AreMore};
ghost use Rattle.property_store.specs.Store.{without};
ghost use Rattle.property_store.specs.Table.{store_at};
ghost use Rattle.binding_values.specs.Stored.{fields_at};
ghost use Rattle.binding_values.specs.Graph.{settled_changes, settled_graph, without_object};
ghost use Rattle.binding_graph.specs.Drained.{IsStored};
ghost use Rattle.binding_graph.specs.GraphAndCache.{IsAt, StaysKept};

use crate::graph::BindingGraph;
use binding_values::{Change, KeptIndex};
use plain_types::Items;
use property_store::{Pending, Property, Stores};
use std::alloc::{AllocError, Global};

/// Marks a property, and drops its cached result.
fn forget(pending: &mut Pending, kept: &mut KeptIndex, at: Property)
    ensures marked { is_marked pending.new at ≡ true }
    ensures more { AreMore pending.old pending.new }
    ensures step { StaysKept pending.old kept.old pending.new kept.new }
{
    pending.mark(at);
    if kept.at(at).is_none() {
        return;
    }
    kept.forget(at);
}

/// Forgets the cached results of an object's properties, and that of the one that stands for names that it does
/// not declare.
fn forget_object(pending: &mut Pending, kept: &mut KeptIndex, object: u32, count: usize)
    ensures marked { (number : ℕ) → number ≤ count → is_marked pending.new (record { object = object; number = number }) ≡ true }
    ensures step { StaysKept pending.old kept.old pending.new kept.new }
{
    let last = Property {
        object,
        number: count,
    };
    forget(pending, kept, last);
    for number in 0..count {
        forget(pending, kept, Property { object, number });
    }
}

/// How many properties an object declares, or 0 if it does not exist.
fn declared(stores: &Stores, place: usize, object: u32) -> usize
    requires { IsPlace stores.now.shelves.table place }
    ensures { result ≡ length (fields_at (store_at stores.now.shelves place) object) }
{
    match stores.fields(place, object) {
        Some(fields) => fields.len(),
        None => 0,
    }
}

impl BindingGraph {
    /// Removes an object from the store, with its bindings, and returns the changes. Its properties are marked:
    /// what has read them is evaluated again, and what they showed is forgotten. While a group is open, both wait
    /// until it ends.
    pub(crate) fn remove(
        &mut self,
        alloc: Global,
        stores: &mut Stores,
        place: usize,
        object: u32,
    ) -> Result<Items<Change>, AllocError>
        requires ready { IsPlace stores.old.shelves.table place }
        requires step { IsAt stores.old place self.old }
        ensures told { IfOk result (λ told.
            told ≡ settled_changes (without object (store_at stores.old.shelves place)) (without_object object self.old.graph) None) }
        ensures ok { OnOk result (self.new.graph ≡ settled_graph (without object (store_at stores.old.shelves place)) (without_object object self.old.graph)) }
        ensures stores { IsStored place (without object (store_at stores.old.shelves place)) stores.old stores.new }
        ensures step { IsAt stores.new place self.new }
    {
        self.pending.drain(stores, place);
        let count = declared(stores, place, object);
        forget_object(&mut self.pending, &mut self.kept, object, count);
        self.bindings.remove_object(object);
        stores.drop_object(place, object);
        let _ = stores.take_written(place);
        self.settle(alloc, stores, place, None)
    }
}

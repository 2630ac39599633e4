//! The properties of the objects of all places, together with their bindings.
ghost use Rattle.std.specs.Prelude.{◌≡◌, ◌≤◌, [], IfOk, IsFalse, None, OnErr, OnOk};
ghost use Rattle.shared_rows.specs.Table.{IsPlace, Opens, opened};
ghost use Rattle.property_store.specs.Store.{added, properties_of, without};
ghost use Rattle.property_store.specs.Table.{fields_of};
ghost use Rattle.binding_values.specs.Graph.{no_graph, without_object};
ghost use Rattle.session_tables.specs.Bound.{ChangesBound, bound_at, stored_at, with_bound};
ghost use Rattle.session_tables.specs.Settled.{is_idle};
ghost use Rattle.session_tables.specs.Told.{told_at};

use crate::settling::{is_idle, note, or_clear};
use binding_graph::Bindings;
use binding_values::Change;
use plain_types::Items;
use property_store::{Field, Stores};
use std::alloc::{AllocError, Global};
use std::marker::Model;

/// The properties of the objects of each place, and which of them are bound: for each place the one suits the
/// other, so that the changes of a write are known without a look at what was shown before. A place is opened by
/// `ready` and then `open`, and is never closed.
#[derive(Drop)]
pub struct BoundStores {
    pub(crate) stores: Stores,
    pub(crate) bindings: Bindings,
    pub(crate) alloc: Global,
}

impl Model for BoundStores {
    ghost use Rattle.session_tables.specs.Bound.{BoundShelves, seen_of};
    ghost use Rattle.session_tables.specs.Coded.{coded_bound};
    ghost use Rattle.session_tables.specs.Settled.{AllSettled};

    ghost Value = { BoundShelves };

    ghost coded = { coded_bound };

    ghost view = { λ bound. seen_of bound.stores.shelves bound.bindings };

    ghost invariant = { λ bound. AllSettled bound.stores bound.bindings };
}

impl BoundStores {
    /// A table with no place, which takes no memory yet. Its objects are of classes that declare these
    /// properties; a class is known by its place among them.
    pub fn new(alloc: Global, layouts: Items<Items<Field>>) -> BoundStores
        ensures layouts { result.shelves.layouts ≡ layouts }
        ensures places { result.shelves.table.places ≡ [] }
        ensures graphs { result.graphs.places ≡ [] }
    {
        BoundStores {
            stores: Stores::new(alloc, layouts),
            bindings: Bindings::new(alloc),
            alloc,
        }
    }

    /// Makes room for one more place at least.
    pub fn ready(&mut self) -> Result<(), AllocError>
        ensures layouts { self.new.shelves.layouts ≡ self.old.shelves.layouts }
        ensures places { self.new.shelves.table.places ≡ self.old.shelves.table.places }
        ensures graphs { self.new.graphs.places ≡ self.old.graphs.places }
        ensures room { OnOk result (1 ≤ self.new.shelves.table.room) }
        ensures free { OnOk result (1 ≤ self.new.graphs.room) }
    {
        binding_graph::law_openings();
        self.stores.ready()?;
        self.bindings.ready()
    }

    /// Opens the next place, with no object, and returns its number.
    pub fn open(&mut self) -> usize
        requires room { 1 ≤ self.old.shelves.table.room }
        requires free { 1 ≤ self.old.graphs.room }
        ensures layouts { self.new.shelves.layouts ≡ self.old.shelves.layouts }
        ensures table { Opens self.old.shelves.table [] self.new.shelves.table result }
        ensures graphs { self.new.graphs ≡ opened self.old.graphs no_graph }
    {
        binding_graph::law_openings();
        self.bindings.open();
        self.stores.open()
    }

    /// Takes out all objects of a place, with their bindings, and ends its groups.
    pub(crate) fn clear(&mut self, place: usize)
        requires place { IsPlace self.old.shelves.table place }
        requires graph { IsPlace self.old.graphs place }
        ensures { self.new ≡ with_bound self.old place [] no_graph }
    {
        binding_graph::law_steps();
        self.stores.clear(place);
        self.bindings.clear(place);
    }

    /// Adds an object of a class, whose properties have the defaults of their kinds.
    pub(crate) fn add_object(
        &mut self,
        place: usize,
        object: u32,
        class: u32,
    ) -> Result<(), AllocError>
        requires place { IsPlace self.old.shelves.table place }
        requires graph { IsPlace self.old.graphs place }
        requires absent { properties_of (stored_at self.old place) object ≡ None }
        ensures ok { OnOk result (self.new ≡ with_bound self.old place
            (added (stored_at self.old place) object (fields_of self.old.shelves class)) (bound_at self.old place)) }
        ensures only { ChangesBound place self.old self.new }
    {
        binding_graph::law_steps();
        self.stores.add_object(place, object, class)?;
        if self.bindings.count(place) == 0 {
            return Ok(());
        }
        let told = self.bindings.settle(place, &mut self.stores, None);
        or_clear(&mut self.bindings, place, told)?;
        Ok(())
    }

    /// Takes an object out with its bindings, and returns what has changed by it. Where nothing is bound and no
    /// group is open this takes no memory.
    pub(crate) fn drop_object(
        &mut self,
        place: usize,
        object: u32,
    ) -> Result<Items<Change>, AllocError>
        requires place { IsPlace self.old.shelves.table place }
        requires graph { IsPlace self.old.graphs place }
        ensures told { IfOk result (λ told. told ≡ told_at place self.old self.new None) }
        ensures ok { OnOk result (self.new ≡ with_bound self.old place
            (without object (stored_at self.old place)) (without_object object (bound_at self.old place))) }
        ensures idle { OnErr result (IsFalse (is_idle (bound_at self.old place))) }
        ensures only { ChangesBound place self.old self.new }
    {
        binding_graph::law_steps();
        if is_idle(&self.stores, &self.bindings, place) {
            self.stores.drop_object(place, object);
            return Ok(Items::new(self.alloc));
        }
        note(&mut self.stores, &mut self.bindings, place)?;
        let told = self.bindings.remove(place, &mut self.stores, object);
        or_clear(&mut self.bindings, place, told)
    }
}

//! The settling of a place: what all properties show now, by evaluating what changes reach.
ghost use Rattle.std.specs.Prelude.{◌≡◌, ◌+◌, IfNone, IfOk, IfSome, IsTrue, Ok, OnErr, OnOk, Some, false, true};
ghost use Rattle.shared_rows.specs.Table.{IsPlace};
ghost use Rattle.plain_types.specs.Answers.{RefusedBy};
ghost use Rattle.property_store.specs.Marks.{has_marks, marks_at};
ghost use Rattle.property_store.specs.Pending.{IsDrained};
ghost use Rattle.property_store.specs.Store.{IsSound};
ghost use Rattle.property_store.specs.Table.{store_at};
ghost use Rattle.binding_values.specs.Binds.{AreBindings};
ghost use Rattle.binding_values.specs.Graph.{all_shown, begin_refusal, begun, change_alone, changes, settled_changes, settled_graph, stored_value};
ghost use Rattle.binding_graph.specs.GraphAndCache.{IsAt};
ghost use Rattle.binding_graph.specs.WriteChanges.{changes_in};

use crate::changes::changes;
use crate::graph::BindingGraph;
use crate::last_shown::LastShown;
use crate::show::{show_all, show_touched, shown_as};
use crate::write_changes::WriteChanges;
use binding_values::{Bound, Change, GROUPS, cell_at};
use plain_types::{Code, Fault, Items};
use property_store::{Property, Stores};
use std::alloc::{AllocError, Global};

/// All bindings and all stores are sound. There is nothing to run here: the clauses are a theorem.
fn law_sound(bindings: &Bound, stores: &Stores, place: usize)
    requires { IsPlace stores.now.shelves.table place }
    ensures bindings { AreBindings bindings.now }
    ensures store { IsSound (store_at stores.now.shelves place) }
{
    let _ = (bindings.len(), stores.count(place));
}

impl BindingGraph {
    /// Evaluates every binding.
    fn refresh_all(
        &mut self,
        alloc: Global,
        stores: &Stores,
        place: usize,
        tells: bool,
        written: Option<Property>,
    ) -> Result<Items<Change>, AllocError>
        requires ready { IsPlace stores.now.shelves.table place }
        ensures told { IfOk result (λ told. IsTrue tells
            → told ≡ changes self.old.graph.last (all_shown (store_at stores.now.shelves place) self.old.graph.bindings) written) }
        ensures ok { OnOk result (self.new.graph ≡ record self.old.graph { last = all_shown (store_at stores.now.shelves place) self.old.graph.bindings }) }
        ensures err { OnErr result (self.new.graph ≡ self.old.graph) }
        ensures step { OnOk result (IsAt stores.now place self.new) }
    {
        let made = self.kept.settle_all(alloc, stores, place, &self.bindings)?;
        let now = show_all(alloc, stores, place, &self.bindings, &self.kept)?;
        let told = changes(alloc, tells, &self.last, &now, written)?;
        let last = LastShown::from_showing(alloc, now)?;
        self.last = last;
        self.pending.take(alloc);
        self.evaluations = self.evaluations.saturating_add(made);
        Ok(told)
    }

    /// Evaluates what marked properties reach.
    fn refresh_some(
        &mut self,
        alloc: Global,
        stores: &Stores,
        place: usize,
        tells: bool,
        written: Option<Property>,
    ) -> Result<Items<Change>, AllocError>
        requires ready { IsPlace stores.now.shelves.table place }
        requires taken { has_marks (marks_at stores.now.marks place) ≡ false }
        requires some { self.old.cache.pending.all ≡ false }
        requires step { IsAt stores.now place self.old }
        ensures told { IfOk result (λ told. IsTrue tells
            → told ≡ changes self.old.graph.last (all_shown (store_at stores.now.shelves place) self.old.graph.bindings) written) }
        ensures ok { OnOk result (self.new.graph ≡ record self.old.graph { last = all_shown (store_at stores.now.shelves place) self.old.graph.bindings }) }
        ensures err { OnErr result (self.new.graph ≡ self.old.graph) }
        ensures step { OnOk result (IsAt stores.now place self.new) }
    {
        law_sound(&self.bindings, stores, place);
        let mut touched = self.pending.take(alloc);
        let made = self
            .kept
            .settle(alloc, stores, place, &self.bindings, &mut touched)?;
        let mut absent = Vec::new(alloc);
        let now = show_touched(
            alloc,
            stores,
            place,
            &self.bindings,
            &self.kept,
            touched.as_mut_slice(),
            &mut absent,
        )?;
        let told = changes(alloc, tells, &self.last, &now, written)?;
        self.last.replace(alloc, now, absent.as_slice())?;
        self.pending.give_back(touched);
        self.evaluations = self.evaluations.saturating_add(made);
        Ok(told)
    }

    /// Updates what all properties show, and returns the changes if `tells`. After a failure the next settling
    /// evaluates every binding.
    pub(crate) fn refresh(
        &mut self,
        alloc: Global,
        stores: &mut Stores,
        place: usize,
        tells: bool,
        written: Option<Property>,
    ) -> Result<Items<Change>, AllocError>
        requires ready { IsPlace stores.old.shelves.table place }
        requires step { IsAt stores.old place self.old }
        ensures told { IfOk result (λ told. IsTrue tells
            → told ≡ changes self.old.graph.last (all_shown (store_at stores.old.shelves place) self.old.graph.bindings) written) }
        ensures ok { OnOk result (self.new.graph ≡ record self.old.graph { last = all_shown (store_at stores.old.shelves place) self.old.graph.bindings }) }
        ensures err { OnErr result (self.new.graph ≡ self.old.graph) }
        ensures stores { IsDrained place stores.old stores.new }
        ensures step { IsAt stores.new place self.new }
    {
        self.pending.drain(stores, place);
        let told = if self.pending.is_all() {
            self.refresh_all(alloc, stores, place, tells, written)
        } else {
            self.refresh_some(alloc, stores, place, tells, written)
        };
        if told.is_err() {
            self.kept.clear();
            self.pending.mark_all();
        }
        told
    }

    /// Returns the changes since the last settling.
    pub(crate) fn settle(
        &mut self,
        alloc: Global,
        stores: &mut Stores,
        place: usize,
        written: Option<Property>,
    ) -> Result<Items<Change>, AllocError>
        requires ready { IsPlace stores.old.shelves.table place }
        requires step { IsAt stores.old place self.old }
        ensures told { IfOk result (λ told. told ≡ settled_changes (store_at stores.old.shelves place) self.old.graph written) }
        ensures ok { OnOk result (self.new.graph ≡ settled_graph (store_at stores.old.shelves place) self.old.graph) }
        ensures err { OnErr result (self.new.graph ≡ self.old.graph) }
        ensures stores { IsDrained place stores.old stores.new }
        ensures step { IsAt stores.new place self.new }
    {
        if self.is_open() {
            return Ok(Items::new(alloc));
        }
        self.refresh(alloc, stores, place, true, written)
    }

    /// Settles a place where this property alone is marked, if nothing has to be evaluated for it, and returns whether
    /// its value is a different one. Otherwise, or if memory runs out, it does nothing and returns `None`.
    fn refresh_alone(
        &mut self,
        alloc: Global,
        stores: &Stores,
        place: usize,
        at: Property,
    ) -> Option<bool>
        requires ready { IsPlace stores.now.shelves.table place }
        requires taken { has_marks (marks_at stores.now.marks place) ≡ false }
        requires step { IsAt stores.now place self.old }
        ensures told { IfSome result (λ is_change. change_alone at (stored_value (store_at stores.now.shelves place) at) is_change
            ≡ changes self.old.graph.last (all_shown (store_at stores.now.shelves place) self.old.graph.bindings) (Some at)) }
        ensures ok { IfSome result (λ is_change.
            self.new.graph ≡ record self.old.graph { last = all_shown (store_at stores.now.shelves place) self.old.graph.bindings }) }
        ensures none { IfNone result (self.new.graph ≡ self.old.graph) }
        ensures step { IsAt stores.now place self.new }
    {
        law_sound(&self.bindings, stores, place);
        if !self.pending.is_only(at) {
            return None;
        }
        if !self.kept.is_apart(stores, place, &self.bindings, at) {
            return None;
        }
        let Some((kind, stored)) = cell_at(stores, place, at) else {
            return None;
        };
        let Ok(value) = stored.copy(alloc) else {
            return None;
        };
        let shown = shown_as(at, kind, Ok(value));
        let Ok(is_change) = self.last.put(alloc, shown) else {
            return None;
        };
        self.pending.clear();
        Some(is_change)
    }

    /// Returns the changes since the last settling, after a write of a property.
    pub(crate) fn settle_written(
        &mut self,
        alloc: Global,
        stores: &mut Stores,
        place: usize,
        at: Property,
    ) -> Result<WriteChanges, AllocError>
        requires ready { IsPlace stores.old.shelves.table place }
        requires step { IsAt stores.old place self.old }
        ensures told { IfOk result (λ changed. changes_in at (stored_value (store_at stores.old.shelves place) at) changed
            ≡ settled_changes (store_at stores.old.shelves place) self.old.graph (Some at)) }
        ensures ok { OnOk result (self.new.graph ≡ settled_graph (store_at stores.old.shelves place) self.old.graph) }
        ensures err { OnErr result (self.new.graph ≡ self.old.graph) }
        ensures stores { IsDrained place stores.old stores.new }
        ensures step { IsAt stores.new place self.new }
    {
        let is_open = self.is_open();
        if is_open {
            return Ok(WriteChanges::Nothing);
        }
        self.pending.drain(stores, place);
        if let Some(is_change) = self.refresh_alone(alloc, stores, place, at) {
            return Ok(WriteChanges::alone(is_change));
        }
        let told = self.refresh(alloc, stores, place, true, Some(at))?;
        Ok(WriteChanges::Several(told))
    }

    /// Opens a group. The outermost one begins with what is shown now.
    pub(crate) fn begin(
        &mut self,
        alloc: Global,
        stores: &mut Stores,
        place: usize,
    ) -> Result<u32, Fault>
        requires ready { IsPlace stores.old.shelves.table place }
        requires step { IsAt stores.old place self.old }
        ensures refused { RefusedBy (begin_refusal self.old.graph) result }
        ensures depth { IfOk result (λ depth. depth ≡ self.old.graph.depth + 1) }
        ensures ok { OnOk result (self.new.graph ≡ begun (store_at stores.old.shelves place) self.old.graph) }
        ensures err { OnErr result (self.new.graph ≡ self.old.graph) }
        ensures stores { IsDrained place stores.old stores.new }
        ensures step { IsAt stores.new place self.new }
    {
        if self.depth >= GROUPS {
            return Err(Fault::Refused(Code::Limit));
        }
        if self.depth == 0 {
            self.refresh(alloc, stores, place, false, None)?;
        }
        self.depth += 1;
        Ok(self.depth)
    }
}

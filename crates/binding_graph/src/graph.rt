//! The graph of one place.
ghost use Rattle.std.specs.Prelude.{◌≡◌, IfOk, IsTrue, None, OnErr, OnOk};
ghost use Rattle.std.specs.Option.{option_map_or};
ghost use Rattle.std.specs.Result.{result_err};
ghost use Rattle.shared_rows.specs.Table.{IsPlace};
ghost use Rattle.plain_types.specs.Answers.{RefusedBy};
ghost use Rattle.term_core.specs.Forms.{is_within_limits};
ghost use Rattle.property_store.specs.Table.{store_at};
ghost use Rattle.binding_values.specs.Graph.{IsSound, bind_refusal, bound, end_refusal, ended, fresh, is_open};
ghost use Rattle.binding_values.specs.Graph.{shown_at, shown_in, shown_now, unbound, value_in};
ghost use Rattle.binding_graph.specs.GraphAndCache.{IsAt, StaysAt, no_graph_and_cache};

use crate::last_shown::LastShown;
use crate::show::{show, show_kept, shown_as};
use binding_values::{Binding, BindingError, Bound, KeptIndex, Shown, cell_at};
use plain_types::{Code, Fault};
use property_store::{Pending, Property, Stores, default_of};
use signature_core::Kind;
use std::alloc::{AllocError, Global};
use std::marker::Model;
use term_core::Expr;
use variant_value::Value;

/// The bindings of a place, what its properties showed, and its groups, with the cached results of the bindings and
/// what has changed since.
#[derive(Drop)]
pub(crate) struct BindingGraph {
    pub(crate) bindings: Bound,
    pub(crate) last: LastShown,
    pub(crate) depth: u32,
    pub(crate) kept: KeptIndex,
    pub(crate) pending: Pending,
    pub(crate) evaluations: u64,
}

impl Model for BindingGraph {
    ghost use Rattle.std.specs.Prelude.{◌≤◌};
    ghost use Rattle.binding_graph.specs.Coded.{coded_pair};
    ghost use Rattle.binding_graph.specs.GraphAndCache.{GraphAndCache};

    ghost Value = { GraphAndCache };

    ghost coded = { coded_pair };

    ghost view = { λ inner. record {
      graph = record { bindings = inner.bindings; last = inner.last; depth = inner.depth };
      cache = record { kept = inner.kept; pending = inner.pending; evaluations = inner.evaluations };
    } };

    ghost invariant = { λ inner. inner.depth ≤ 1000 };
}

impl BindingGraph {
    pub(crate) fn new(alloc: Global) -> BindingGraph
        ensures { result ≡ no_graph_and_cache }
    {
        BindingGraph {
            bindings: Bound::new(alloc),
            last: LastShown::new(alloc),
            depth: 0,
            kept: KeptIndex::new(alloc),
            pending: Pending::new(alloc),
            evaluations: 0,
        }
    }

    pub(crate) fn rows(&self) -> &[Binding]
        ensures rows { result.now ≡ self.now.graph.bindings }
        ensures sound { IsSound self.now.graph }
    {
        let _ = (self.last.count_objects(), self.bindings.len());
        self.bindings.rows()
    }

    pub(crate) fn is_open(&self) -> bool
        ensures { result ≡ is_open self.now.graph }
    {
        self.depth > 0
    }

    /// Binds a property to an expression, whatever it was bound to.
    pub(crate) fn bind(&mut self, at: Property, expr: Expr) -> Result<(), Fault>
        requires { IsTrue (is_within_limits expr) }
        ensures refused { RefusedBy (bind_refusal self.old.graph at) result }
        ensures ok { OnOk result (self.new.graph ≡ bound self.old.graph at expr) }
        ensures err { OnErr result (self.new.graph ≡ self.old.graph) }
        ensures step { StaysAt self.old self.new }
    {
        self.bindings.put(Binding { at, expr })?;
        self.pending.mark_once(at);
        self.kept.forget(at);
        Ok(())
    }

    /// Binds a property no longer.
    pub(crate) fn unbind(&mut self, at: Property)
        ensures graph { self.new.graph ≡ unbound self.old.graph at }
        ensures step { StaysAt self.old self.new }
    {
        self.pending.mark_once(at);
        self.bindings.remove(at);
        self.kept.forget(at);
    }

    /// Returns the value that a bound property shows in a group.
    fn shown_then(&self, alloc: Global, at: Property, kind: Kind) -> Result<Shown, AllocError>
        ensures { IfOk result (λ shown. shown ≡ option_map_or (λ stood. stood) (shown_at self.now.graph.last at) (fresh at kind)) }
    {
        match self.last.at(at) {
            Some(then) => then.copy(alloc),
            None => Ok(shown_as(at, kind, Ok(default_of(kind)))),
        }
    }

    /// Returns what a property shows now, from the cache if nothing is marked.
    fn shown_now(
        &self,
        alloc: Global,
        stores: &Stores,
        place: usize,
        at: Property,
    ) -> Result<Option<Shown>, AllocError>
        requires ready { IsPlace stores.now.shelves.table place }
        requires step { IsAt stores.now place self.now }
        ensures { IfOk result (λ shown. shown ≡ shown_now (store_at stores.now.shelves place) self.now.graph.bindings at) }
    {
        if self.pending.is_empty() && !stores.has_written(place) {
            return show_kept(alloc, stores, place, &self.bindings, &self.kept, at);
        }
        show(alloc, stores, place, &self.bindings, at)
    }

    /// Returns what a property shows, if the property exists.
    fn shown(
        &self,
        alloc: Global,
        stores: &Stores,
        place: usize,
        at: Property,
    ) -> Result<Option<Shown>, AllocError>
        requires ready { IsPlace stores.now.shelves.table place }
        requires step { IsAt stores.now place self.now }
        ensures { IfOk result (λ shown. shown ≡ shown_in (store_at stores.now.shelves place) self.now.graph at) }
    {
        if !self.is_open() || self.bindings.expr_at(at).is_none() {
            return self.shown_now(alloc, stores, place, at);
        }
        match cell_at(stores, place, at) {
            Some((kind, _)) => Ok(Some(self.shown_then(alloc, at, kind)?)),
            None => Ok(None),
        }
    }

    /// The value of a property, and its error if it has one.
    pub(crate) fn value(
        &self,
        alloc: Global,
        stores: &Stores,
        place: usize,
        at: Property,
    ) -> Result<(Value, Option<BindingError>), AllocError>
        requires ready { IsPlace stores.now.shelves.table place }
        requires step { IsAt stores.now place self.now }
        ensures { IfOk result (λ found. found ≡ value_in (store_at stores.now.shelves place) self.now.graph at) }
    {
        match self.shown(alloc, stores, place, at)? {
            Some(shown) => Ok(shown.into_value()),
            None => Ok((Value::Invalid, None)),
        }
    }

    /// Ends the group that was opened last.
    pub(crate) fn end(&mut self) -> Result<u32, Code>
        ensures refused { result_err result ≡ end_refusal self.old.graph }
        ensures depth { IfOk result (λ depth. depth ≡ self.new.graph.depth) }
        ensures ok { OnOk result (self.new.graph ≡ ended self.old.graph) }
        ensures err { OnErr result (self.new.graph ≡ self.old.graph) }
        ensures step { StaysAt self.old self.new }
    {
        if self.depth == 0 {
            return Err(Code::NoGroup);
        }
        self.depth -= 1;
        Ok(self.depth)
    }
}

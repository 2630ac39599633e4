//! The bindings of all places.
#![tactic(auto, unfolding(crate::specs::Step::InStep))]

ghost use Rattle.std.specs.Prelude.{◌≡◌, ◌+◌, ◌≤◌, [], IfNone, IfOk, IfSome, IsSome, IsTrue, None, OnErr, OnOk, Some, length, slice_index_or};
ghost use Rattle.std.specs.Option.{option_map};
ghost use Rattle.std.specs.Result.{result_err};
ghost use Rattle.shared_rows.specs.Table.{ChangesAt, IsPlace, MakesRoom, Opens};
ghost use Rattle.plain_types.specs.Answers.{RefusedBy};
ghost use Rattle.term_core.specs.Forms.{is_within_limits};
ghost use Rattle.property_store.specs.Store.{without};
ghost use Rattle.property_store.specs.Pending.{IsDrained};
ghost use Rattle.property_store.specs.Table.{StoresView, store_at};
ghost use Rattle.variant_value.specs.Values.{IsShort};
ghost use Rattle.binding_graph.specs.Cache.{cache_at, no_cache};
ghost use Rattle.binding_graph.specs.Drained.{IsStored};
ghost use Rattle.binding_graph.specs.GraphAndCache.{no_graph_and_cache};
ghost use Rattle.binding_graph.specs.Inside.{pair_at, split};
ghost use Rattle.binding_values.specs.Graph.{IsSound, begin_refusal, begun, bind_refusal, bound, end_refusal, ended, is_bound, no_graph};
ghost use Rattle.binding_values.specs.Graph.{settled_changes, settled_graph, stored_value, taken, unbound, value_in, without_object};
ghost use Rattle.binding_graph.specs.Step.{InStep, LeavesInStep};
ghost use Rattle.binding_values.specs.Scene.{term_at};
ghost use Rattle.binding_values.specs.Stored.{is_bindable};
ghost use Rattle.binding_graph.specs.Table.{OthersKept, graph_at, with_graph};
ghost use Rattle.binding_graph.specs.WriteChanges.{changes_in};

use crate::graph::BindingGraph;
use crate::write_changes::WriteChanges;
use binding_values::{Binding, BindingError, Change};
use plain_types::{Code, Fault, Items};
use property_store::{Property, Stores};
use shared_rows::Places;
use std::alloc::{AllocError, Global};
use std::marker::Model;
use term_core::Expr;
use variant_value::Value;

/// The bindings and the groups of each place. A place is opened by `ready` and then `open`, and is never
/// closed. The properties and their stored values are in a separate table, which most calls take.
#[derive(Drop)]
pub struct Bindings {
    /// The graph of a place takes no memory before its first binding or group.
    graphs: Places<Option<Box<BindingGraph>>>,
    alloc: Global,
}

impl Model for Bindings {
    ghost use Rattle.binding_graph.specs.Table.{Graphs};
    ghost use Rattle.binding_graph.specs.Coded.{coded_graphs};

    ghost Value = { Graphs };

    ghost coded = { coded_graphs };

    ghost use Rattle.binding_graph.specs.Inside.{split};

    ghost view = { λ bindings. split bindings.graphs };
}

impl Bindings {
    /// A table with no place, which takes no memory yet.
    pub fn new(alloc: Global) -> Bindings
        ensures places { result.graphs.places ≡ [] }
        ensures step { (stores : StoresView) → stores.shelves.table.places ≡ [] → InStep stores result }
    {
        Bindings {
            graphs: Places::new(alloc),
            alloc,
        }
    }

    /// Makes room for one more place at least.
    pub fn ready(&mut self) -> Result<(), AllocError>
        ensures graphs { MakesRoom self.old.graphs self.new.graphs result }
        ensures caches { self.new.caches ≡ self.old.caches }
        ensures step { (stores : StoresView) → InStep stores self.old → InStep stores self.new }
    {
        self.graphs.ready()
    }

    /// Opens the next place, where nothing is bound and no group is open, and returns its number.
    pub fn open(&mut self) -> usize
        requires { 1 ≤ self.old.graphs.room }
        ensures graphs { Opens self.old.graphs no_graph self.new.graphs result }
        ensures nothing { cache_at self.new.caches result ≡ no_cache }
        ensures others { OthersKept result self.old self.new }
        ensures step { (stores : StoresView) → InStep stores self.old → InStep stores self.new }
    {
        self.graphs.open(None)
    }

    /// Forgets all bindings, groups and cached results of a place, and what its properties showed. `evaluations`
    /// starts from 0 again.
    pub fn clear(&mut self, place: usize)
        requires { IsPlace self.old.graphs place }
        ensures cleared { self.new.graphs ≡ with_graph self.old.graphs place no_graph }
        ensures nothing { cache_at self.new.caches place ≡ no_cache }
        ensures others { OthersKept place self.old self.new }
        ensures step { (stores : StoresView) → InStep stores self.old → InStep stores self.new }
    {
        *self.graphs.get_mut(place) = None;
    }

    /// The graph of a place, if it has been made.
    fn graph(&self, place: usize) -> Option<&BindingGraph>
        requires { IsPlace self.now.graphs place }
        ensures some { IfSome result (λ graph. graph.now ≡ pair_at self.now place) }
        ensures none { IfNone result (pair_at self.now place ≡ no_graph_and_cache) }
    {
        match self.graphs.get(place) {
            Some(graph) => Some(graph),
            None => None,
        }
    }

    /// How many properties are bound. It also ensures that the graph is sound.
    pub fn count(&self, place: usize) -> usize
        requires { IsPlace self.now.graphs place }
        ensures count { result ≡ length (graph_at self.now.graphs place).bindings }
        ensures sound { IsSound (graph_at self.now.graphs place) }
    {
        match self.graph(place) {
            Some(graph) => graph.rows().len(),
            None => 0,
        }
    }

    /// The bindings, by rising object and number.
    pub fn rows(&self, place: usize) -> &[Binding]
        requires { IsPlace self.now.graphs place }
        ensures { result.now ≡ (graph_at self.now.graphs place).bindings }
    {
        match self.graph(place) {
            Some(graph) => graph.rows(),
            None => &[],
        }
    }

    /// The expression that a property is bound to.
    pub fn expr_at(&self, place: usize, at: Property) -> Option<&Expr>
        requires { IsPlace self.now.graphs place }
        ensures { option_map (λ expr. expr.now) result ≡ term_at (graph_at self.now.graphs place).bindings at }
    {
        self.graph(place)?.bindings.expr_at(at)
    }

    /// How many groups are open, each within the one before.
    pub fn depth(&self, place: usize) -> u32
        requires { IsPlace self.now.graphs place }
        ensures { result ≡ (graph_at self.now.graphs place).depth }
    {
        match self.graph(place) {
            Some(graph) => graph.depth,
            None => 0,
        }
    }

    /// How many evaluations of bound properties settlings have made since the place was opened or cleared. It stops at 2^64 - 1.
    pub fn evaluations(&self, place: usize) -> u64
        requires { IsPlace self.now.graphs place }
        ensures { result ≡ (cache_at self.now.caches place).evaluations }
    {
        match self.graph(place) {
            Some(graph) => graph.evaluations,
            None => 0,
        }
    }

    pub fn is_bound(&self, place: usize, at: Property) -> bool
        requires { IsPlace self.now.graphs place }
        ensures { result ≡ is_bound (graph_at self.now.graphs place).bindings at }
    {
        self.expr_at(place, at).is_some()
    }

    /// Binds a property to an expression, whatever it was bound to. More than `BINDINGS` are `Limit`.
    pub fn bind(
        &mut self,
        place: usize,
        stores: &Stores,
        at: Property,
        expr: Expr,
    ) -> Result<(), Fault>
        requires places { IsPlace self.old.graphs place × IsPlace stores.now.shelves.table place }
        requires step { InStep stores.now self.old }
        requires bindable { IsTrue (is_bindable (store_at stores.now.shelves place) at) }
        requires limited { IsTrue (is_within_limits expr) }
        ensures refused { RefusedBy (bind_refusal (graph_at self.old.graphs place) at) result }
        ensures ok { OnOk result (self.new.graphs ≡ with_graph self.old.graphs place (bound (graph_at self.old.graphs place) at expr)) }
        ensures err { OnErr result (self.new.graphs ≡ self.old.graphs) }
        ensures step { LeavesInStep place stores.now self.old self.new }
    {
        make(&mut self.graphs, place, self.alloc)?;
        let Some(graph) = self.graphs.get_mut(place) else {
            unreachable!()
        };
        graph.bind(at, expr)
    }

    /// Stores the value of a bound property, removes its binding, and returns whether it was bound. The value is
    /// the default of its kind if the property is in error; in a group it is what the property shows there.
    pub fn take(
        &mut self,
        place: usize,
        stores: &mut Stores,
        at: Property,
    ) -> Result<bool, AllocError>
        requires places { IsPlace self.old.graphs place × IsPlace stores.old.shelves.table place }
        requires step { InStep stores.old self.old }
        ensures bound { IfOk result (λ taken. taken ≡ is_bound (graph_at self.old.graphs place).bindings at) }
        ensures stored { OnOk result (IsStored place (taken (store_at stores.old.shelves place) (graph_at self.old.graphs place) at) stores.old stores.new) }
        ensures graph { OnOk result (self.new.graphs ≡ with_graph self.old.graphs place (unbound (graph_at self.old.graphs place) at)) }
        ensures stores { OnErr result (stores.new ≡ stores.old) }
        ensures err { OnErr result (self.new.graphs ≡ self.old.graphs) }
        ensures step { LeavesInStep place stores.new self.old self.new }
    {
        if !self.is_bound(place, at) {
            return Ok(false);
        }
        let (value, _) = self.value(place, stores, at)?;
        let _ = stores.write(place, at.object, at.number, value);
        let Some(graph) = self.graphs.get_mut(place) else {
            return Ok(true);
        };
        graph.unbind(at);
        Ok(true)
    }

    /// The value of a property, and its error if it has one: then the value is the default of its kind. It is
    /// `Invalid` if the property does not exist.
    pub fn value(
        &self,
        place: usize,
        stores: &Stores,
        at: Property,
    ) -> Result<(Value, Option<BindingError>), AllocError>
        requires places { IsPlace self.now.graphs place × IsPlace stores.now.shelves.table place }
        requires step { InStep stores.now self.now }
        ensures value { IfOk result (λ found. found ≡ value_in (store_at stores.now.shelves place) (graph_at self.now.graphs place) at) }
        ensures short { IfOk result (λ found. IsShort found.0) }
    {
        let _ = (stores.count(place), self.count(place));
        match self.graph(place) {
            Some(graph) => graph.value(self.alloc, stores, place, at),
            None => BindingGraph::new(self.alloc).value(self.alloc, stores, place, at),
        }
    }

    /// Returns the changes since the last call; the first call compares with an empty place. Properties with a
    /// new or different error come first, then those with a different value. While a group is open it returns
    /// no changes; the first call after the outermost group compares with what was shown when that began. Only
    /// bindings that a change reaches are evaluated. A place with neither bindings nor a group need not be
    /// settled: clear it instead, and before a property is bound again settle it once and ignore the result.
    pub fn settle(
        &mut self,
        place: usize,
        stores: &mut Stores,
        written: Option<Property>,
    ) -> Result<Items<Change>, AllocError>
        requires places { IsPlace self.old.graphs place × IsPlace stores.old.shelves.table place }
        requires step { InStep stores.old self.old }
        ensures told { IfOk result (λ told. told ≡ settled_changes (store_at stores.old.shelves place) (graph_at self.old.graphs place) written) }
        ensures ok { OnOk result (self.new.graphs
            ≡ with_graph self.old.graphs place (settled_graph (store_at stores.old.shelves place) (graph_at self.old.graphs place))) }
        ensures stores { IsDrained place stores.old stores.new }
        ensures err { OnErr result (self.new.graphs ≡ self.old.graphs) }
        ensures step { LeavesInStep place stores.new self.old self.new }
    {
        make(&mut self.graphs, place, self.alloc)?;
        let Some(graph) = self.graphs.get_mut(place) else {
            unreachable!()
        };
        graph.settle(self.alloc, stores, place, written)
    }

    /// Settles a place like `settle` after a write of a property, and returns the changes. Nothing is evaluated if no
    /// other property may show another value.
    pub fn settle_written(
        &mut self,
        place: usize,
        stores: &mut Stores,
        at: Property,
    ) -> Result<WriteChanges, AllocError>
        requires places { IsPlace self.old.graphs place × IsPlace stores.old.shelves.table place }
        requires step { InStep stores.old self.old }
        ensures told { IfOk result (λ changed. changes_in at (stored_value (store_at stores.old.shelves place) at) changed
            ≡ settled_changes (store_at stores.old.shelves place) (graph_at self.old.graphs place) (Some at)) }
        ensures ok { OnOk result (self.new.graphs
            ≡ with_graph self.old.graphs place (settled_graph (store_at stores.old.shelves place) (graph_at self.old.graphs place))) }
        ensures stores { IsDrained place stores.old stores.new }
        ensures err { OnErr result (self.new.graphs ≡ self.old.graphs) }
        ensures step { LeavesInStep place stores.new self.old self.new }
    {
        make(&mut self.graphs, place, self.alloc)?;
        let Some(graph) = self.graphs.get_mut(place) else {
            unreachable!()
        };
        graph.settle_written(self.alloc, stores, place, at)
    }

    /// Opens a group within those that are open, and returns how many there are now. More than `GROUPS` are
    /// `Limit`.
    pub fn begin(&mut self, place: usize, stores: &mut Stores) -> Result<u32, Fault>
        requires places { IsPlace self.old.graphs place × IsPlace stores.old.shelves.table place }
        requires step { InStep stores.old self.old }
        ensures refused { RefusedBy (begin_refusal (graph_at self.old.graphs place)) result }
        ensures depth { IfOk result (λ depth. depth ≡ (graph_at self.old.graphs place).depth + 1) }
        ensures ok { OnOk result (self.new.graphs
            ≡ with_graph self.old.graphs place (begun (store_at stores.old.shelves place) (graph_at self.old.graphs place))) }
        ensures stores { IsDrained place stores.old stores.new }
        ensures err { OnErr result (self.new.graphs ≡ self.old.graphs) }
        ensures step { LeavesInStep place stores.new self.old self.new }
    {
        make(&mut self.graphs, place, self.alloc)?;
        let Some(graph) = self.graphs.get_mut(place) else {
            unreachable!()
        };
        graph.begin(self.alloc, stores, place)
    }

    /// Ends the group that was opened last, and returns how many are left; `NoGroup` if no group is open.
    /// Returns no changes, and allocates nothing.
    pub fn end(&mut self, place: usize, stores: &Stores) -> Result<u32, Code>
        requires place { IsPlace self.old.graphs place }
        requires step { InStep stores.now self.old }
        ensures refused { result_err result ≡ end_refusal (graph_at self.old.graphs place) }
        ensures depth { IfOk result (λ depth. depth ≡ (ended (graph_at self.old.graphs place)).depth) }
        ensures ok { OnOk result (self.new.graphs ≡ with_graph self.old.graphs place (ended (graph_at self.old.graphs place))) }
        ensures err { OnErr result (self.new.graphs ≡ self.old.graphs) }
        ensures step { LeavesInStep place stores.now self.old self.new }
    {
        let Some(graph) = self.graphs.get_mut(place) else {
            return Err(Code::NoGroup);
        };
        graph.end()
    }

    /// Removes an object from the stores, with its bindings, and returns the changes, like `settle`. Only bindings
    /// that its properties reach are evaluated again; while a group is open, that waits until it ends.
    pub fn remove(
        &mut self,
        place: usize,
        stores: &mut Stores,
        object: u32,
    ) -> Result<Items<Change>, AllocError>
        requires places { IsPlace self.old.graphs place × IsPlace stores.old.shelves.table place }
        requires step { InStep stores.old self.old }
        ensures told { IfOk result (λ told. told ≡ settled_changes (without object (store_at stores.old.shelves place))
            (without_object object (graph_at self.old.graphs place)) None) }
        ensures ok { OnOk result (self.new.graphs ≡ with_graph self.old.graphs place
            (settled_graph (without object (store_at stores.old.shelves place)) (without_object object (graph_at self.old.graphs place)))) }
        ensures stores { IsStored place (without object (store_at stores.old.shelves place)) stores.old stores.new }
        ensures only { ChangesAt no_graph place self.old.graphs self.new.graphs }
        ensures step { LeavesInStep place stores.new self.old self.new }
    {
        if self.graphs.get(place).is_none() {
            stores.drop_object(place, object);
            return self.settle(place, stores, None);
        }
        let Some(graph) = self.graphs.get_mut(place) else {
            unreachable!()
        };
        graph.remove(self.alloc, stores, place, object)
    }
}

/// Allocates the graph of a place, unless that has been done.
fn make(
    graphs: &mut Places<Option<Box<BindingGraph>>>,
    place: usize,
    alloc: Global,
) -> Result<(), AllocError>
    requires { IsPlace graphs.old place }
    ensures same { split graphs.new ≡ split graphs.old }
    ensures made { OnOk result (IsSome (slice_index_or graphs.new.places place None)) }
    ensures err { OnErr result (graph_at (split graphs.old).graphs place ≡ no_graph) }
{
    let made = graphs.get_mut(place);
    if made.is_none() {
        *made = Some(Box::new(alloc, BindingGraph::new(alloc))?);
    }
    Ok(())
}

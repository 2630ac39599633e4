//! The settling of the cached results of a place.
ghost use Rattle.std.specs.Prelude.{◌≡◌, [], IsTrue, OnErr, OnOk, false, true};
ghost use Rattle.shared_rows.specs.Table.{IsPlace};
ghost use Rattle.property_store.specs.Property.{among};
ghost use Rattle.property_store.specs.Pending.{only};
ghost use Rattle.property_store.specs.Table.{store_at};
ghost use Rattle.binding_values.specs.EvalResult.{kept_of};
ghost use Rattle.binding_values.specs.Stored.{scene_of};
ghost use Rattle.binding_values.specs.Right.{IsApart, IsComplete, IsRightBut, IsWhole};

use crate::known::bound_at;
use crate::settling::{bound_in, resettle};
use crate::{Bound, KeptIndex};
use property_store::{Property, Stores};
use std::alloc::{AllocError, Global};

impl KeptIndex {
    /// Whether a change of a property leaves nothing to evaluate: it is not bound, no result of it is kept, and no
    /// kept result has read it.
    pub fn is_apart(&self, stores: &Stores, place: usize, bindings: &Bound, at: Property) -> bool
        requires { IsPlace stores.now.shelves.table place }
        ensures { IsTrue result → IsApart (scene_of (store_at stores.now.shelves place) bindings.now) (kept_of self.now) at }
    {
        if bound_at(stores, place, bindings, at).is_some() {
            return false;
        }
        self.reaches_nothing(at)
    }

    /// Evaluates the bound properties that touched properties reach, and no others. Appends what they reach to
    /// `touched`, and returns how many evaluations it made. After an `Err` nothing is kept.
    pub fn settle(
        &mut self,
        alloc: Global,
        stores: &Stores,
        place: usize,
        bindings: &Bound,
        touched: &mut Vec<Property>,
    ) -> Result<u64, AllocError>
        requires ready { IsPlace stores.now.shelves.table place }
        requires right { IsRightBut (scene_of (store_at stores.now.shelves place) bindings.now) (only touched.old.items) (kept_of self.old) }
        requires whole { IsWhole (scene_of (store_at stores.now.shelves place) bindings.now) (only touched.old.items) (kept_of self.old) }
        ensures complete { OnOk result (IsComplete (scene_of (store_at stores.now.shelves place) bindings.now) (kept_of self.new)) }
        ensures same { OnOk result ((q : Property) → among q touched.new.items ≡ false → kept_of self.new q ≡ kept_of self.old q) }
        ensures more { OnOk result ((q : Property) → among q touched.old.items ≡ true → among q touched.new.items ≡ true) }
        ensures err { OnErr result (self.new ≡ []) }
    {
        let settled = resettle(alloc, stores, place, bindings, self, touched);
        if settled.is_err() {
            self.clear();
        }
        settled
    }

    /// Evaluates all that is bound, and returns how many evaluations it made. After an `Err` nothing is kept.
    pub fn settle_all(
        &mut self,
        alloc: Global,
        stores: &Stores,
        place: usize,
        bindings: &Bound,
    ) -> Result<u64, AllocError>
        requires { IsPlace stores.now.shelves.table place }
        ensures complete { OnOk result (IsComplete (scene_of (store_at stores.now.shelves place) bindings.now) (kept_of self.new)) }
        ensures err { OnErr result (self.new ≡ []) }
    {
        self.clear();
        let mut bound = bound_in(alloc, bindings)?;
        self.settle(alloc, stores, place, bindings, &mut bound)
    }
}

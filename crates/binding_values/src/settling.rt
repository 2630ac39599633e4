//! A settling drops the results that a change reaches, evaluates them, and keeps them again.
ghost use Rattle.std.specs.Prelude.{◌≡◌, All, IfOk, OnOk, false, map, true};
ghost use Rattle.shared_rows.specs.Table.{IsPlace};
ghost use Rattle.property_store.specs.declared.property.Property.{Property};
ghost use Rattle.property_store.specs.Property.{among};
ghost use Rattle.property_store.specs.Pending.{only};
ghost use Rattle.property_store.specs.Table.{store_at};
ghost use Rattle.binding_values.specs.EvalResult.{IsClosed, IsRight, IsWithin, kept_of};
ghost use Rattle.binding_values.specs.Run.{IsSettled};
ghost use Rattle.binding_values.specs.Stored.{scene_of};
ghost use Rattle.binding_values.specs.Right.{IsComplete, IsRightBut, IsWhole};

use crate::run::find;
use crate::{Bound, EvalCache, KeptIndex};
use property_store::{Property, Stores};
use std::alloc::{AllocError, Global};
use std::mem;

fn evaluate_all(
    alloc: Global,
    stores: &Stores,
    place: usize,
    bindings: &Bound,
    memory: &mut EvalCache,
    touched: &[Property],
) -> Result<(), AllocError>
    requires ready { IsPlace stores.now.shelves.table place }
    requires right { IsRight (scene_of (store_at stores.now.shelves place) bindings.now) (kept_of memory.old) }
    requires closed { IsClosed (scene_of (store_at stores.now.shelves place) bindings.now) (kept_of memory.old) }
    ensures right { OnOk result (IsRight (scene_of (store_at stores.now.shelves place) bindings.now) (kept_of memory.new)) }
    ensures closed { OnOk result (IsClosed (scene_of (store_at stores.now.shelves place) bindings.now) (kept_of memory.new)) }
    ensures within { OnOk result (IsWithin (kept_of memory.old) (kept_of memory.new)) }
    ensures settled { OnOk result (All (IsSettled (scene_of (store_at stores.now.shelves place) bindings.now) (kept_of memory.new)) touched.now) }
{
    for at in touched {
        find(alloc, stores, place, bindings, memory, *at)?;
    }
    Ok(())
}

/// Evaluates touched properties, keeps what was found, and returns how many evaluations that took.
fn refresh(
    alloc: Global,
    stores: &Stores,
    place: usize,
    bindings: &Bound,
    kept: &mut KeptIndex,
    touched: &[Property],
) -> Result<u64, AllocError>
    requires ready { IsPlace stores.now.shelves.table place }
    requires right { IsRight (scene_of (store_at stores.now.shelves place) bindings.now) (kept_of kept.old) }
    requires closed { IsClosed (scene_of (store_at stores.now.shelves place) bindings.now) (kept_of kept.old) }
    ensures right { OnOk result (IsRight (scene_of (store_at stores.now.shelves place) bindings.now) (kept_of kept.new)) }
    ensures closed { OnOk result (IsClosed (scene_of (store_at stores.now.shelves place) bindings.now) (kept_of kept.new)) }
    ensures within { OnOk result (IsWithin (kept_of kept.old) (kept_of kept.new)) }
    ensures settled { OnOk result (All (IsSettled (scene_of (store_at stores.now.shelves place) bindings.now) (kept_of kept.new)) touched.now) }
{
    let base = mem::replace(kept, KeptIndex::new(alloc));
    let mut memory = EvalCache::over(alloc, base);
    evaluate_all(alloc, stores, place, bindings, &mut memory, touched)?;
    let (base, found) = memory.into_parts();
    let evaluations = found.len() as u64;
    *kept = base;
    kept.keep_all(found)?;
    Ok(evaluations)
}

/// Evaluates the bound properties that touched properties reach, appends what they reach to `touched`, and
/// returns how many evaluations that took. After an `Err` results may be missing.
pub(crate) fn resettle(
    alloc: Global,
    stores: &Stores,
    place: usize,
    bindings: &Bound,
    kept: &mut KeptIndex,
    touched: &mut Vec<Property>,
) -> Result<u64, AllocError>
    requires ready { IsPlace stores.now.shelves.table place }
    requires right { IsRightBut (scene_of (store_at stores.now.shelves place) bindings.now) (only touched.old.items) (kept_of kept.old) }
    requires whole { IsWhole (scene_of (store_at stores.now.shelves place) bindings.now) (only touched.old.items) (kept_of kept.old) }
    ensures complete { OnOk result (IsComplete (scene_of (store_at stores.now.shelves place) bindings.now) (kept_of kept.new)) }
    ensures same { OnOk result ((q : Property) → among q touched.new.items ≡ false → kept_of kept.new q ≡ kept_of kept.old q) }
    ensures more { OnOk result ((q : Property) → among q touched.old.items ≡ true → among q touched.new.items ≡ true) }
{
    kept.reach(touched)?;
    refresh(alloc, stores, place, bindings, kept, touched.as_slice())
}

/// The properties that are bound.
pub(crate) fn bound_in(alloc: Global, bindings: &Bound) -> Result<Vec<Property>, AllocError>
    ensures { IfOk result (λ bound. bound.items ≡ map (λ binding. binding.at) bindings.now) }
{
    let mut bound = Vec::new(alloc);
    for binding in bindings.rows() {
        bound.push(binding.at)?;
    }
    Ok(bound)
}

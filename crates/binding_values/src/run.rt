//! Values of bound properties, found over a stack.
ghost use Rattle.std.specs.Prelude.{◌≡◌, ◌++◌, [], All, Err, IfNone, IfOk, IfSome, None, Ok, OnOk, false, reverse};
ghost use Rattle.std.specs.Option.{option_map_or};
ghost use Rattle.shared_rows.specs.Table.{IsPlace};
ghost use Rattle.property_store.specs.Table.{store_at};
ghost use Rattle.term_evaluation.specs.Met.{EachButLast};
ghost use Rattle.binding_values.specs.declared.property.BindingError.TheVariants.{EvaluationError};
ghost use Rattle.binding_values.specs.EvalResult.{IsClosed, IsRight, IsWithin, kept_of};
ghost use Rattle.binding_values.specs.Looking.{IsBoundAs, IsReady, scene_in};
ghost use Rattle.binding_values.specs.Run.{IsRunning, IsSettled, IsTried, Stepped, WaitsFor, ats, is_loop};
ghost use Rattle.property_store.specs.Property.{among};
ghost use Rattle.binding_values.specs.Stored.{cell_in, outcome_in, scene_of};

use crate::bound::Bound;
use crate::eval_cache::EvalCache;
use crate::eval_result::{CacheEntry, EvalResult};
use crate::known::{BoundProperty, Known, bound_at, cell_at};
use crate::meeting::attempt;
use crate::property::BindingError;
use property_store::{Property, Stores, is_property};
use std::alloc::{AllocError, Global};
use variant_value::Value;

/// The property at which an evaluation ended since its value is not known yet.
fn waits_for(known: &Known, reads: &[Property]) -> Option<Property>
    requires ready { IsReady known.now }
    requires but_last { EachButLast (IsSettled (scene_in known.now) (kept_of known.now.done.now)) reads.now }
    ensures next { IfSome result (WaitsFor (scene_in known.now) (kept_of known.now.done.now) reads.now) }
    ensures settled { IfNone result (All (IsSettled (scene_in known.now) (kept_of known.now.done.now)) reads.now) }
{
    if reads.is_empty() {
        return None;
    }
    let last = reads[reads.len() - 1];
    if known.done.at(last).is_some() {
        return None;
    }
    match bound_at(known.stores, known.place, known.bindings, last) {
        Some(_) => Some(last),
        None => None,
    }
}

fn is_loop(outcome: &Result<Value, BindingError>) -> bool
    ensures { result ≡ is_loop outcome.now }
{
    match outcome {
        Err(BindingError::BindingLoop) => true,
        Ok(_) | Err(BindingError::EvaluationError) => false,
    }
}

/// Whether a row is that of the property.
fn stands_in(rows: &[CacheEntry], at: Property) -> bool
    ensures { result ≡ among at (ats rows.now) }
{
    for row in rows {
        if is_property(at, row.at) {
            return true;
        }
    }
    false
}

/// Moves the rows of a stack to the end of `done`, the latest first.
fn unstack(done: &mut EvalCache, below: &mut Vec<CacheEntry>) -> Result<(), AllocError>
    ensures done { OnOk result (done.new ≡ done.old ++ reverse below.old.items) }
    ensures below { OnOk result (below.new.items ≡ []) }
{
    while let Some(row) = below.pop() {
        done.push(row)?;
    }
    Ok(())
}

/// Returns the result that an evaluation of a bound property gives, with the property that it waits for. Only a loop may
/// wait for one.
fn look(
    alloc: Global,
    stores: &Stores,
    place: usize,
    bindings: &Bound,
    done: &EvalCache,
    top: BoundProperty,
) -> Result<(EvalResult, Option<Property>), AllocError>
    requires ready { IsPlace stores.now.shelves.table place }
    requires right { IsRight (scene_of (store_at stores.now.shelves place) bindings.now) (kept_of done.now) }
    requires bound { IsBoundAs (scene_of (store_at stores.now.shelves place) bindings.now) top }
    requires absent { kept_of done.now top.at ≡ None }
    ensures tried { IfOk result (λ found. IsTried (scene_of (store_at stores.now.shelves place) bindings.now) (kept_of done.now) top.entry.at found.0) }
    ensures next { IfOk result (λ found.
        IfSome found.1 (WaitsFor (scene_of (store_at stores.now.shelves place) bindings.now) (kept_of done.now) found.0.reads)) }
    ensures settled { IfOk result (λ found.
        IfNone found.1 (All (IsSettled (scene_of (store_at stores.now.shelves place) bindings.now) (kept_of done.now)) found.0.reads)) }
{
    let known = Known {
        stores,
        place,
        bindings,
        done,
    };
    let kept = attempt(alloc, &known, top.at, top.kind, top.expr)?;
    if !is_loop(&kept.outcome) {
        return Ok((kept, None));
    }
    let next = waits_for(&known, kept.reads.as_slice());
    Ok((kept, next))
}

/// Evaluates the property on top of the stack, and returns the next top. A result that waits for nothing is
/// kept, and the property below becomes the top. If it waits for another property, that becomes the top. If
/// it waits for itself or for one on the stack, this is a loop: all stacked results are kept, and it is done.
fn step(
    alloc: Global,
    stores: &Stores,
    place: usize,
    bindings: &Bound,
    done: &mut EvalCache,
    below: &mut Vec<CacheEntry>,
    bound: BoundProperty,
) -> Result<Option<Property>, AllocError>
    requires ready { IsPlace stores.now.shelves.table place }
    requires bound { IsBoundAs (scene_of (store_at stores.now.shelves place) bindings.now) bound }
    requires running { IsRunning (scene_of (store_at stores.now.shelves place) bindings.now) done.old below.old.items bound.at }
    ensures { IfOk result
        (Stepped (scene_of (store_at stores.now.shelves place) bindings.now) done.old below.old.items bound.entry.at done.new below.new.items) }
{
    let (kept, next) = look(alloc, stores, place, bindings, done, bound)?;
    let top = bound.at;
    match next {
        None => {
            done.push(CacheEntry { at: top, kept })?;
            match below.pop() {
                None => Ok(None),
                Some(entry) => Ok(Some(entry.at)),
            }
        }
        Some(next) => {
            if is_property(next, top) || stands_in(below, next) {
                done.push(CacheEntry { at: top, kept })?;
                unstack(done, below)?;
                return Ok(None);
            }
            below.push(CacheEntry { at: top, kept })?;
            Ok(Some(next))
        }
    }
}

/// Evaluates a property where it is bound, and all bound properties that it depends on, and keeps the results in
/// `done`. Properties that have a result there are not evaluated again.
pub(crate) fn find(
    alloc: Global,
    stores: &Stores,
    place: usize,
    bindings: &Bound,
    done: &mut EvalCache,
    start: Property,
) -> Result<(), AllocError>
    requires ready { IsPlace stores.now.shelves.table place }
    requires right { IsRight (scene_of (store_at stores.now.shelves place) bindings.now) (kept_of done.old) }
    requires closed { IsClosed (scene_of (store_at stores.now.shelves place) bindings.now) (kept_of done.old) }
    ensures right { OnOk result (IsRight (scene_of (store_at stores.now.shelves place) bindings.now) (kept_of done.new)) }
    ensures closed { OnOk result (IsClosed (scene_of (store_at stores.now.shelves place) bindings.now) (kept_of done.new)) }
    ensures within { OnOk result (IsWithin (kept_of done.old) (kept_of done.new)) }
    ensures settled { OnOk result (IsSettled (scene_of (store_at stores.now.shelves place) bindings.now) (kept_of done.new) start) }
{
    if done.at(start).is_some() {
        return Ok(());
    }
    let mut below = Vec::new(alloc);
    let mut top = start;
    'steps: while let Some(bound) = bound_at(stores, place, bindings, top) {
        match step(alloc, stores, place, bindings, done, &mut below, bound)? {
            None => return Ok(()),
            Some(next) => top = next,
        }
    }
    Ok(())
}

/// The value of a property, or its error: the stored value if it is unbound, otherwise the outcome of its
/// expression. New results are kept in `done`.
pub fn outcome(
    alloc: Global,
    stores: &Stores,
    place: usize,
    bindings: &Bound,
    done: &mut EvalCache,
    at: Property,
) -> Result<Result<Value, BindingError>, AllocError>
    requires ready { IsPlace stores.now.shelves.table place }
    requires right { IsRight (scene_of (store_at stores.now.shelves place) bindings.now) (kept_of done.old) }
    requires closed { IsClosed (scene_of (store_at stores.now.shelves place) bindings.now) (kept_of done.old) }
    ensures right { OnOk result (IsRight (scene_of (store_at stores.now.shelves place) bindings.now) (kept_of done.new)) }
    ensures closed { OnOk result (IsClosed (scene_of (store_at stores.now.shelves place) bindings.now) (kept_of done.new)) }
    ensures outcome { IfOk result (λ outcome. outcome ≡ outcome_in (store_at stores.now.shelves place) bindings.now at) }
{
    find(alloc, stores, place, bindings, done, at)?;
    match done.at(at) {
        Some(kept) => outcome_of(alloc, kept),
        None => stored(alloc, stores, place, at),
    }
}

/// Returns a copy of the stored value, or `EvaluationError` if the property does not exist.
fn stored(
    alloc: Global,
    stores: &Stores,
    place: usize,
    at: Property,
) -> Result<Result<Value, BindingError>, AllocError>
    requires { IsPlace stores.now.shelves.table place }
    ensures { IfOk result (λ outcome. outcome ≡ option_map_or (λ cell. Ok cell.value) (cell_in (store_at stores.now.shelves place) at) (Err EvaluationError)) }
{
    match cell_at(stores, place, at) {
        Some((_, value)) => Ok(Ok(value.copy(alloc)?)),
        None => Ok(Err(BindingError::EvaluationError)),
    }
}

/// A copy of the outcome of an evaluation.
fn outcome_of(alloc: Global, kept: &EvalResult) -> Result<Result<Value, BindingError>, AllocError>
    ensures { IfOk result (λ outcome. outcome ≡ kept.now.outcome) }
{
    match &kept.outcome {
        Ok(value) => Ok(Ok(value.copy(alloc)?)),
        Err(error) => Ok(Err(*error)),
    }
}

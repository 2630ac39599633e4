//! What properties show, from the stored values and the bindings.
ghost use Rattle.std.specs.Prelude.{◌≡◌, ◌<◌, ◌++◌, [], ◌∷◌, if◌then◌else◌, IfOk, None, Ok, OnOk, filter_map, length, slice_index_or};
ghost use Rattle.std.specs.Option.{option_map_or};
ghost use Rattle.shared_rows.specs.Table.{IsPlace};
ghost use Rattle.property_store.specs.declared.property.Property.{Property};
ghost use Rattle.property_store.specs.Property.{among};
ghost use Rattle.property_store.specs.Store.{Properties};
ghost use Rattle.property_store.specs.Table.{store_at};
ghost use Rattle.binding_values.specs.Graph.{all_shown, shown_as, shown_at, shown_now};
ghost use Rattle.binding_graph.specs.Rows.{AreAbsent};
ghost use Rattle.binding_values.specs.EvalResult.{kept_of};
ghost use Rattle.binding_values.specs.Stored.{properties_of_object, scene_of};
ghost use Rattle.binding_values.specs.Right.{IsComplete};

use crate::showing::Showing;
use binding_values::{BindingError, Bound, EvalCache, KeptIndex, Shown, cell_at, outcome};
use property_store::{Property, Stores, default_of};
use signature_core::Kind;
use std::alloc::{AllocError, Global};
use variant_value::Value;

/// Returns the value that a property of a kind shows.
pub(crate) fn shown_as(at: Property, kind: Kind, outcome: Result<Value, BindingError>) -> Shown
    ensures { result ≡ shown_as at kind outcome }
{
    match outcome {
        Ok(value) => Shown {
            at,
            kind,
            value,
            error: None,
        },
        Err(error) => Shown {
            at,
            kind,
            value: default_of(kind),
            error: Some(error),
        },
    }
}

/// Returns what a property shows, if the property exists, and evaluates all that it reads.
pub(crate) fn show(
    alloc: Global,
    stores: &Stores,
    place: usize,
    bindings: &Bound,
    at: Property,
) -> Result<Option<Shown>, AllocError>
    requires { IsPlace stores.now.shelves.table place }
    ensures { IfOk result (λ shown. shown ≡ shown_now (store_at stores.now.shelves place) bindings.now at) }
{
    let Some((kind, _)) = cell_at(stores, place, at) else {
        return Ok(None);
    };
    let mut done = EvalCache::new(alloc);
    let outcome = outcome(alloc, stores, place, bindings, &mut done, at)?;
    Ok(Some(shown_as(at, kind, outcome)))
}

/// Returns the cached result of a property, or else its stored value.
fn known(
    alloc: Global,
    kept: &KeptIndex,
    at: Property,
    stored: &Value,
) -> Result<Result<Value, BindingError>, AllocError>
    ensures { IfOk result (λ known. known ≡ option_map_or (λ kept. kept.outcome) (kept_of kept.now at) (Ok stored.now)) }
{
    let Some(kept) = kept.at(at) else {
        return Ok(Ok(stored.copy(alloc)?));
    };
    match &kept.outcome {
        Ok(value) => Ok(Ok(value.copy(alloc)?)),
        Err(error) => Ok(Err(*error)),
    }
}

/// Returns what a property shows, if the property exists, from the cached results of all bindings.
pub(crate) fn show_kept(
    alloc: Global,
    stores: &Stores,
    place: usize,
    bindings: &Bound,
    kept: &KeptIndex,
    at: Property,
) -> Result<Option<Shown>, AllocError>
    requires ready { IsPlace stores.now.shelves.table place }
    requires complete { IsComplete (scene_of (store_at stores.now.shelves place) bindings.now) (kept_of kept.now) }
    ensures { IfOk result (λ shown. shown ≡ shown_now (store_at stores.now.shelves place) bindings.now at) }
{
    let _ = bindings;
    let Some((kind, stored)) = cell_at(stores, place, at) else {
        return Ok(None);
    };
    let outcome = known(alloc, kept, at, stored)?;
    Ok(Some(shown_as(at, kind, outcome)))
}

/// Appends what a property shows, if the property exists.
fn put_shown(
    alloc: Global,
    stores: &Stores,
    place: usize,
    bindings: &Bound,
    kept: &KeptIndex,
    rows: &mut Vec<Shown>,
    at: Property,
) -> Result<(), AllocError>
    requires ready { IsPlace stores.now.shelves.table place }
    requires complete { IsComplete (scene_of (store_at stores.now.shelves place) bindings.now) (kept_of kept.now) }
    ensures { OnOk result (rows.new.items ≡ rows.old.items ++ filter_map (shown_now (store_at stores.now.shelves place) bindings.now) (at ∷ [])) }
{
    if let Some(shown) = show_kept(alloc, stores, place, bindings, kept, at)? {
        rows.push(shown)?;
    }
    Ok(())
}

/// Appends what the declared properties of an object show.
fn show_object(
    alloc: Global,
    stores: &Stores,
    place: usize,
    bindings: &Bound,
    kept: &KeptIndex,
    rows: &mut Vec<Shown>,
    position: usize,
) -> Result<(), AllocError>
    requires ready { IsPlace stores.now.shelves.table place }
    requires stands { position < length (store_at stores.now.shelves place) }
    requires complete { IsComplete (scene_of (store_at stores.now.shelves place) bindings.now) (kept_of kept.now) }
    ensures { OnOk result ((default : Properties) → rows.new.items ≡ rows.old.items ++ filter_map (shown_now (store_at stores.now.shelves place)
        bindings.now) (properties_of_object (slice_index_or (store_at stores.now.shelves place) position default))) }
{
    let (object, fields) = stores.object_at(place, position);
    let mut number = 0;
    while number < fields.len() {
        let at = Property { object, number };
        put_shown(alloc, stores, place, bindings, kept, rows, at)?;
        number += 1;
    }
    Ok(())
}

/// Returns the values that all declared properties of a place show, by rising object and number.
pub(crate) fn show_all(
    alloc: Global,
    stores: &Stores,
    place: usize,
    bindings: &Bound,
    kept: &KeptIndex,
) -> Result<Showing, AllocError>
    requires ready { IsPlace stores.now.shelves.table place }
    requires complete { IsComplete (scene_of (store_at stores.now.shelves place) bindings.now) (kept_of kept.now) }
    ensures { IfOk result (λ showing. showing ≡ all_shown (store_at stores.now.shelves place) bindings.now) }
{
    let mut rows = Vec::new(alloc);
    let _ = bindings.len();
    for position in 0..stores.count(place) {
        show_object(alloc, stores, place, bindings, kept, &mut rows, position)?;
    }
    Ok(Showing::from_rows(rows))
}

/// Returns the values of those of the properties that are there, and appends the others to `absent`.
fn show_each(
    alloc: Global,
    stores: &Stores,
    place: usize,
    bindings: &Bound,
    kept: &KeptIndex,
    touched: &[Property],
    absent: &mut Vec<Property>,
) -> Result<Showing, AllocError>
    requires ready { IsPlace stores.now.shelves.table place }
    requires complete { IsComplete (scene_of (store_at stores.now.shelves place) bindings.now) (kept_of kept.now) }
    ensures shown { IfOk result (λ showing. (q : Property)
        → shown_at showing q ≡ (if among q touched.now then shown_now (store_at stores.now.shelves place) bindings.now q else None)) }
    ensures absent { OnOk result (AreAbsent (store_at stores.now.shelves place) bindings.now touched.now absent.old.items absent.new.items) }
{
    let mut now = Showing::new(alloc);
    let _ = (bindings.len(), stores.count(place));
    for at in touched {
        if let Some(shown) = show_kept(alloc, stores, place, bindings, kept, *at)? {
            now.put(shown)?;
        } else {
            absent.push(*at)?;
        }
    }
    Ok(now)
}

/// Sorts properties by object, then by number.
fn put_in_order(properties: &mut [Property])
    ensures { (q : Property) → among q properties.new ≡ among q properties.old }
{
    properties.sort_unstable_by_key(|at| (at.object, at.number));
}

/// Returns the values of those touched properties that exist, and appends the others to `absent`. It sorts
/// `touched` first, so that each value is added after all earlier ones.
pub(crate) fn show_touched(
    alloc: Global,
    stores: &Stores,
    place: usize,
    bindings: &Bound,
    kept: &KeptIndex,
    touched: &mut [Property],
    absent: &mut Vec<Property>,
) -> Result<Showing, AllocError>
    requires ready { IsPlace stores.now.shelves.table place }
    requires complete { IsComplete (scene_of (store_at stores.now.shelves place) bindings.now) (kept_of kept.now) }
    ensures shown { IfOk result (λ showing. (q : Property)
        → shown_at showing q ≡ (if among q touched.old then shown_now (store_at stores.now.shelves place) bindings.now q else None)) }
    ensures absent { OnOk result (AreAbsent (store_at stores.now.shelves place) bindings.now touched.old absent.old.items absent.new.items) }
{
    put_in_order(touched);
    show_each(alloc, stores, place, bindings, kept, touched, absent)
}

//! Changes are found by a comparison of two showings.
ghost use Rattle.std.specs.Prelude.{◌≡◌, ◌++◌, IfOk, IsTrue, OnOk, filter, filter_map};
ghost use Rattle.binding_values.specs.Graph.{before, changes, has_turn, is_same_error, notice, warning};

use crate::last_shown::{LastShown, is_value_before};
use crate::showing::Showing;
use binding_values::{BindingError, Change, ChangeKind, Shown};
use plain_types::Items;
use property_store::{Property, is_property};
use std::alloc::{AllocError, Global};

fn is_same_error(a: BindingError, b: BindingError) -> bool
    ensures { result ≡ is_same_error a b }
{
    match a {
        BindingError::BindingLoop => matches!(b, BindingError::BindingLoop),
        BindingError::EvaluationError => matches!(b, BindingError::EvaluationError),
    }
}

/// The error that a property showed before.
fn error_before(last: &LastShown, shown: &Shown) -> Option<BindingError>
    ensures { result ≡ (before last.now shown.now).error }
{
    let then = last.at(shown.at)?;
    then.error
}

/// The warning of a property whose error is new or different.
fn warning(last: &LastShown, shown: &Shown) -> Option<Change>
    ensures { result ≡ warning last.now shown.now }
{
    let error = shown.error?;
    if let Some(then) = error_before(last, shown) {
        if is_same_error(error, then) {
            return None;
        }
    }
    Some(Change {
        at: shown.at,
        told: ChangeKind::Error(error),
    })
}

/// The notification of a property whose value is different.
fn notice(alloc: Global, last: &LastShown, shown: &Shown) -> Result<Option<Change>, AllocError>
    ensures { IfOk result (λ change. change ≡ notice last.now shown.now) }
{
    if is_value_before(last.at(shown.at), shown) {
        return Ok(None);
    }
    Ok(Some(Change {
        at: shown.at,
        told: ChangeKind::Value(shown.value.copy(alloc)?),
    }))
}

/// Whether it is a property's turn: the first turn is that of the written property, the other that of the rest.
fn has_turn(written: Option<Property>, first: bool, shown: &Shown) -> bool
    ensures { result ≡ has_turn written first shown.now }
{
    match written {
        None => !first,
        Some(written) => is_property(written, shown.at) == first,
    }
}

/// Appends the warnings of the properties whose turn it is.
fn warn(
    last: &LastShown,
    now: &Showing,
    written: Option<Property>,
    first: bool,
    told: &mut Vec<Change>,
) -> Result<(), AllocError>
    ensures { OnOk result (told.new.items ≡ told.old.items ++ filter_map (warning last.now) (filter (has_turn written first) now.now)) }
{
    for shown in now.rows() {
        if has_turn(written, first, shown) {
            if let Some(change) = warning(last, shown) {
                told.push(change)?;
            }
        }
    }
    Ok(())
}

/// Appends the notifications of the properties whose turn it is.
fn notify(
    alloc: Global,
    last: &LastShown,
    now: &Showing,
    written: Option<Property>,
    first: bool,
    told: &mut Vec<Change>,
) -> Result<(), AllocError>
    ensures { OnOk result (told.new.items ≡ told.old.items ++ filter_map (notice last.now) (filter (has_turn written first) now.now)) }
{
    for shown in now.rows() {
        if has_turn(written, first, shown) {
            if let Some(change) = notice(alloc, last, shown)? {
                told.push(change)?;
            }
        }
    }
    Ok(())
}

/// Returns the changes, where they are asked for: first all warnings, then all notifications, of the written property
/// first.
pub(crate) fn changes(
    alloc: Global,
    tells: bool,
    last: &LastShown,
    now: &Showing,
    written: Option<Property>,
) -> Result<Items<Change>, AllocError>
    ensures { IfOk result (λ told. IsTrue tells → told ≡ changes last.now now.now written) }
{
    if !tells {
        return Ok(Items::new(alloc));
    }
    let mut told = Vec::new(alloc);
    warn(last, now, written, true, &mut told)?;
    warn(last, now, written, false, &mut told)?;
    notify(alloc, last, now, written, true, &mut told)?;
    notify(alloc, last, now, written, false, &mut told)?;
    Ok(Items::from_vec(told))
}

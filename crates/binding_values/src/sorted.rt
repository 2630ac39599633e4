//! Rows of properties, by rising object and number.
ghost use Rattle.std.specs.Prelude.{◌≡◌, ◌<◌, ◌≤◌, IfErr, IfOk, false, find, slice_get};
ghost use Rattle.std.specs.Option.{option_map, option_map_or};
ghost use Rattle.property_store.specs.Property.{is_property};
ghost use Rattle.binding_values.specs.Sorted.{IsCountBefore, IsGapAt, IsRising, IsRowAt};

use crate::property::is_before;
use property_store::{Property, is_property};

/// A row that is about a property.
pub trait HasProperty {
    ghost use Rattle.property_store.specs.declared.property.Property.{Property};

    ghost at: { Self → Property };

    fn at(&self) -> Property
        ensures { result ≡ at self.now };
}

/// The place of a property's row, if each object has as many rows as any other.
fn guess<T: HasProperty>(rows: &[T], at: Property) -> usize {
    let len = rows.len();
    if len < 16 {
        return len;
    }
    let first = rows[0].at();
    let last = rows[len - 1].at();
    let objects = last.object.wrapping_sub(first.object) as usize + 1;
    let before = at.object.saturating_sub(first.object) as usize;
    let others = before.wrapping_mul(len) / objects;
    others.wrapping_add(at.number.wrapping_sub(first.number))
}

/// Where a search looks next: first at the guessed place of the row, then next to it, then in the middle.
fn probe(low: usize, high: usize, near: usize) -> usize
    requires { low < high }
    ensures { (low ≤ result) × (result < high) }
{
    if low <= near && near < high {
        near
    } else if low == near.wrapping_add(1) {
        low
    } else if high == near {
        high - 1
    } else {
        low + (high - low) / 2
    }
}

/// How many rows are before those of a property. They are searched from a guessed place, or from the last row, after which
/// most rows are added.
#[inline(never)]
fn search<T: HasProperty>(rows: &[T], at: Property, guess: usize) -> usize
    requires { IsRising T.at rows.now }
    ensures { IsCountBefore T.at rows.now at result }
{
    let near = guess.min(rows.len().saturating_sub(1));
    let mut low = 0;
    let mut high = rows.len();
    while low < high {
        let middle = probe(low, high, near);
        if is_before(rows[middle].at(), at) {
            low = middle + 1;
        } else {
            high = middle;
        }
    }
    low
}

/// Whether the row at a place is that of a property.
pub fn is_at<T: HasProperty>(rows: &[T], place: usize, at: Property) -> bool
    ensures { result ≡ option_map_or (λ row. is_property at (T.at row)) (slice_get rows.now place) false }
{
    match rows.get(place) {
        Some(row) => is_property(at, row.at()),
        None => false,
    }
}

/// The place of a property's row, or else the place where one would be inserted.
#[inline(always)]
pub fn find_place<T: HasProperty>(rows: &[T], at: Property) -> Result<usize, usize>
    requires { IsRising T.at rows.now }
    ensures row { IfOk result (λ place. IsRowAt T.at rows.now at place) }
    ensures gap { IfErr result (λ place. IsGapAt T.at rows.now at place) }
{
    let guess = guess(rows, at);
    if is_at(rows, guess, at) {
        return Ok(guess);
    }
    let place = search(rows, at, guess);
    if is_at(rows, place, at) {
        return Ok(place);
    }
    Err(place)
}

/// How many rows are before those of a property.
pub(crate) fn count_before<T: HasProperty>(rows: &[T], at: Property) -> usize
    requires { IsRising T.at rows.now }
    ensures { IsCountBefore T.at rows.now at result }
{
    match find_place(rows, at) {
        Ok(place) => place,
        Err(place) => place,
    }
}

/// The row of a property.
pub(crate) fn row_at<T: HasProperty>(rows: &[T], at: Property) -> Option<&T>
    requires { IsRising T.at rows.now }
    ensures { option_map (λ row. row.now) result ≡ find (λ row. is_property at (T.at row)) rows.now }
{
    match find_place(rows, at) {
        Ok(place) => Some(&rows[place]),
        Err(_) => None,
    }
}

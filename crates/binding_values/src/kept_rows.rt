//! These rows keep results of bound properties from one change to the next.
ghost use Rattle.std.specs.Prelude.{◌≡◌, ◌∷◌, [], IfNone, IfSome, IsTrue, List, None, OnErr, OnOk, filter, not};
ghost use Rattle.std.specs.Option.{is_some, option_map};
ghost use Rattle.property_store.specs.Property.{is_property};
ghost use Rattle.binding_values.specs.declared.readers.Edge.{Edge};
ghost use Rattle.binding_values.specs.EvalResult.{kept_of};
ghost use Rattle.binding_values.specs.Keeping.{HasRead, IsPut, entries, fresh, standing};
ghost use Rattle.binding_values.specs.Reached.{AreKeptToo, HasReaders, without};
ghost use Rattle.binding_values.specs.Sorted.{IsRising};

use crate::eval_result::{CacheEntry, EvalResult};
use crate::sorted::{HasProperty, find_place, row_at};
use property_store::{Property, is_property};
use std::alloc::{AllocError, Global};
use std::marker::Model;

/// A property, and the result of its last evaluation. A result that is stale stays until the next one, which mostly
/// has read the same properties.
#[derive(Drop)]
pub(crate) struct KeptRow {
    pub(crate) at: Property,
    pub(crate) kept: Option<EvalResult>,
    pub(crate) is_stale: bool,
}

impl HasProperty for KeptRow {
    ghost at = { λ row. row.at };

    fn at(&self) -> Property {
        self.at
    }
}

impl KeptRow {
    /// The result, where it is not stale.
    fn fresh(&self) -> Option<&EvalResult>
        ensures { option_map (λ kept. kept.now) result ≡ fresh self.now }
    {
        if self.is_stale {
            return None;
        }
        self.kept.as_ref()
    }

    /// Whether the last result, which may be stale, has read these properties.
    fn has_read(&self, reads: &[Property]) -> bool
        ensures { IsTrue result → HasRead self.now reads.now }
    {
        match &self.kept {
            Some(kept) => is_same_list(kept.reads.as_slice(), reads),
            None => false,
        }
    }
}

/// Whether two lists name the same properties in the same order.
fn is_same_list(one: &[Property], other: &[Property]) -> bool
    ensures { IsTrue result → one.now ≡ other.now }
{
    if one.len() != other.len() {
        return false;
    }
    for i in 0..one.len() {
        if !is_property(one[i], other[i]) {
            return false;
        }
    }
    true
}

/// The rows hold results of properties, by rising object and number.
#[derive(Drop)]
pub struct KeptRows {
    rows: Vec<KeptRow>,
}

impl Model for KeptRows {
    ghost use Rattle.std.specs.Prelude.{List};
    ghost use Rattle.binding_values.specs.declared.kept_rows.KeptRow.{KeptRow};
    ghost use Rattle.binding_values.specs.Sorted.{IsRising};

    ghost Value = { List KeptRow };

    ghost view = { λ kept. kept.rows.items };

    ghost invariant = { λ kept. IsRising (λ row. row.at) kept.rows.items };
}

impl KeptRows {
    pub fn new(alloc: Global) -> KeptRows
        ensures { result ≡ [] }
    {
        KeptRows {
            rows: Vec::new(alloc),
        }
    }

    /// How many rows there are.
    pub fn count(&self) -> usize
        ensures { IsRising (λ row. row.at) self.now }
    {
        self.rows.len()
    }

    /// Returns the result of a property, where one is kept.
    pub fn at(&self, at: Property) -> Option<&EvalResult>
        ensures { option_map (λ kept. kept.now) result ≡ kept_of (standing self.now) at }
    {
        let row = row_at(self.rows.as_slice(), at)?;
        row.fresh()
    }

    /// Keeps the result of a property in place of a stale one that has read the same properties, unless it has one that is
    /// not stale. Returns the result where it has neither.
    pub fn renew(&mut self, row: CacheEntry) -> Option<CacheEntry>
        ensures kept { IfNone result (AreKeptToo (row ∷ []) (standing self.old) (standing self.new)) }
        ensures readers { IfNone result ((edges : List Edge) → HasReaders (entries self.old) edges → HasReaders (entries self.new) edges) }
        ensures left { IfSome result (λ left. (left ≡ row) × (self.new ≡ self.old) × (kept_of (standing self.old) row.at ≡ None)) }
    {
        match find_place(self.rows.as_slice(), row.at) {
            Ok(place) => {
                if self.rows[place].fresh().is_some() {
                    return None;
                }
                if !self.rows[place].has_read(row.kept.reads.as_slice()) {
                    return Some(row);
                }
                self.rows[place] = row.into_row();
                None
            }
            Err(_) => Some(row),
        }
    }

    /// Keeps a result in place of any other of its property. Allocates nothing if the property has a row.
    pub fn put(&mut self, row: CacheEntry) -> Result<(), AllocError>
        ensures standing { OnOk result (IsPut row (standing self.old) (standing self.new)) }
        ensures entries { OnOk result (IsPut row (entries self.old) (entries self.new)) }
        ensures err { OnErr result (self.new ≡ self.old) }
    {
        let new = row.into_row();
        match find_place(self.rows.as_slice(), new.at) {
            Ok(place) => {
                self.rows[place] = new;
                Ok(())
            }
            Err(place) => {
                self.rows.insert(place, new)?;
                Ok(())
            }
        }
    }

    /// Makes the result of a property stale, and returns whether one was kept.
    pub fn invalidate(&mut self, at: Property) -> bool
        ensures stood { result ≡ is_some (kept_of (standing self.old) at) }
        ensures standing { standing self.new ≡ without at (standing self.old) }
        ensures entries { entries self.new ≡ entries self.old }
    {
        match find_place(self.rows.as_slice(), at) {
            Ok(place) => {
                let row = &mut self.rows[place];
                let stood = row.fresh().is_some();
                row.is_stale = true;
                stood
            }
            Err(_) => false,
        }
    }

    /// Returns the last result of a property, stale or not, and keeps nothing of it.
    pub fn take(&mut self, at: Property) -> Option<EvalResult>
        ensures standing { standing self.new ≡ without at (standing self.old) }
        ensures entries { entries self.new ≡ without at (entries self.old) }
    {
        match find_place(self.rows.as_slice(), at) {
            Ok(place) => self.rows[place].kept.take(),
            Err(_) => None,
        }
    }

    /// Removes the row of a property: call it if no result of the property is expected soon.
    pub fn remove(&mut self, at: Property)
        ensures { self.new ≡ filter (λ row. not (is_property at row.at)) self.old }
    {
        match find_place(self.rows.as_slice(), at) {
            Ok(place) => drop(self.rows.remove(place)),
            Err(_) => {}
        }
    }

    /// Removes all rows.
    pub fn clear(&mut self)
        ensures { self.new ≡ [] }
    {
        self.rows.clear();
    }
}

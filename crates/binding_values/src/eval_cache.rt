//! The cache holds the results that are found while the values of a place are evaluated.
ghost use Rattle.std.specs.Prelude.{◌≡◌, ◌++◌, ◌∷◌, [], OnErr, OnOk, slice_get};
ghost use Rattle.std.specs.Option.{option_map};
ghost use Rattle.binding_values.specs.EvalResult.{kept_of};
ghost use Rattle.binding_values.specs.Listed.{IsListed};
ghost use Rattle.binding_values.specs.Sorted.{IsRising};

use crate::eval_result::{CacheEntry, EvalResult};
use crate::kept_index::KeptIndex;
use crate::sorted::{HasProperty, find_place, row_at};
use property_store::Property;
use std::alloc::{AllocError, Global};
use std::marker::Model;

/// A property, and the position of its first row.
#[derive(Drop)]
pub(crate) struct Entry {
    pub(crate) at: Property,
    pub(crate) row: usize,
}

impl HasProperty for Entry {
    ghost at = { λ entry. entry.at };

    fn at(&self) -> Property {
        self.at
    }
}

/// The cache holds the results of earlier evaluations, and those that were added since, in the order in which
/// they were found. The rows of the latter can be looked up by property.
#[derive(Drop)]
pub struct EvalCache {
    /// The base holds the results of earlier evaluations.
    base: KeptIndex,
    rows: Vec<CacheEntry>,
    order: Vec<Entry>,
}

impl Model for EvalCache {
    ghost use Rattle.std.specs.Prelude.{◌++◌, List};
    ghost use Rattle.binding_values.specs.declared.eval_result.CacheEntry.{CacheEntry};
    ghost use Rattle.binding_values.specs.Coded.{coded_eval_cache};

    ghost Value = { List CacheEntry };

    ghost coded = { coded_eval_cache };

    ghost use Rattle.binding_values.specs.Order.{IsOrdered};

    ghost view = { λ memory. memory.base ++ memory.rows.items };

    ghost invariant = { λ memory. IsOrdered memory.rows.items memory.order.items };
}

impl EvalCache {
    pub fn new(alloc: Global) -> EvalCache
        ensures { result ≡ [] }
    {
        EvalCache::over(alloc, KeptIndex::new(alloc))
    }

    /// A cache that begins with the results of earlier evaluations.
    pub fn over(alloc: Global, base: KeptIndex) -> EvalCache
        ensures { result ≡ base }
    {
        EvalCache {
            base,
            rows: Vec::new(alloc),
            order: Vec::new(alloc),
        }
    }

    /// Returns the results of earlier evaluations, and those that were added since, in order.
    pub fn into_parts(self) -> (KeptIndex, Vec<CacheEntry>)
        ensures { self ≡ result.0 ++ result.1.items }
    {
        let EvalCache {
            base,
            rows,
            order: _,
        } = self;
        (base, rows)
    }

    /// Returns the result of a property, where the cache has one.
    pub(crate) fn at(&self, at: Property) -> Option<&EvalResult>
        ensures { option_map (λ kept. kept.now) result ≡ kept_of self.now at }
    {
        if let Some(kept) = self.base.at(at) {
            return Some(kept);
        }
        let entry = row_at(self.order.as_slice(), at)?;
        let row = row_in(self.rows.as_slice(), entry.row)?;
        Some(&row.kept)
    }

    /// Appends a row. If the property has an earlier result, `at` still returns that one.
    pub(crate) fn push(&mut self, row: CacheEntry) -> Result<(), AllocError>
        ensures ok { OnOk result (self.new ≡ self.old ++ row ∷ []) }
        ensures err { OnErr result (self.new ≡ self.old) }
    {
        self.rows.reserve(1)?;
        enter(&mut self.order, row.at, self.rows.len())?;
        self.rows.push_reserved(row);
        Ok(())
    }
}

fn row_in(rows: &[CacheEntry], place: usize) -> Option<&CacheEntry>
    ensures { option_map (λ row. row.now) result ≡ slice_get rows.now place }
{
    rows.get(place)
}

/// Adds an entry for a property, unless it has one.
fn enter(order: &mut Vec<Entry>, at: Property, row: usize) -> Result<(), AllocError>
    requires { IsRising (λ entry. entry.at) order.old.items }
    ensures ok { OnOk result (IsListed order.old.items order.new.items at row) }
    ensures err { OnErr result (order.new.items ≡ order.old.items) }
{
    match find_place(order, at) {
        Ok(_) => Ok(()),
        Err(place) => {
            order.insert(place, Entry { at, row })?;
            Ok(())
        }
    }
}

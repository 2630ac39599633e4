//! The rows of all places.
ghost use Rattle.std.specs.Prelude.{◌≡◌, ◌^◌, ◌<◌, ◌≤◌, [], ℕ, All, IfNone, IfOk, IfSome, IsSome, None, OnErr, Some, length};
ghost use Rattle.std.specs.Borrow.{MutBor};
ghost use Rattle.std.specs.Fn.{FnOnceReturnsAtMut};
ghost use Rattle.std.specs.Option.{option_map};
ghost use Rattle.shared_rows.specs.Table.{IsPlace, MakesRoom, Opens, with_place};
ghost use Rattle.shared_rows.specs.Rows.{IsSound, added, inserted, key_of, row_under, rows_at, with_row, without, IsAtPosition};

use crate::index::{Entry, Slot, count_below, position};
use crate::number::{Number, Numbered};
use crate::{GapBuffer, Places};
use slab::Slab;
use std::alloc::{AllocError, Global};
use std::marker::Model;
use std::mem;

/// The rows of each place. A place is opened by `ready` and then `open`, and is never closed.
#[derive(Drop)]
pub struct SharedRows<R: Numbered> {
    slab: Slab<Slot<R>>,
    indexes: Places<GapBuffer<Entry<R::Number>>>,
    alloc: Global,
}

impl<R: Numbered> Model for SharedRows<R> {
    ghost use Rattle.std.specs.Prelude.{List, map};
    ghost use Rattle.shared_rows.specs.Table.{Table, table_code};
    ghost use Rattle.std.specs.Coded.{coded_list};
    ghost use Rattle.shared_rows.specs.Rows.{Keyed, keyed_code};

    ghost Value = { Table (List (Keyed R)) };

    ghost coded = { table_code (coded_list (keyed_code R.code)) };

    ghost use Rattle.shared_rows.specs.Index.{rows_of, IsKept};

    ghost view = { λ shared. record {
      places = map (λ index. rows_of shared.slab.slots index.items) shared.indexes.places;
      room = shared.indexes.room;
    } };

    ghost invariant = { λ shared. IsKept R.number R.Number.value shared.slab.slots shared.indexes.places };
}

impl<R: Numbered> SharedRows<R> {
    /// Creates a table with no place, without allocating.
    pub fn new(alloc: Global) -> SharedRows<R>
        ensures { result.places ≡ [] }
    {
        SharedRows {
            slab: Slab::new(alloc),
            indexes: Places::new(alloc),
            alloc,
        }
    }

    /// Makes room for one more place at least.
    pub fn ready(&mut self) -> Result<(), AllocError>
        ensures { MakesRoom self.old self.new result }
    {
        self.indexes.ready()
    }

    /// Opens the next place, with no row, and returns its number.
    pub fn open(&mut self) -> usize
        requires { 1 ≤ self.old.room }
        ensures { Opens self.old [] self.new result }
    {
        self.indexes.open(GapBuffer::new(self.alloc))
    }

    /// The key of the row with a number.
    pub fn find(&self, place: usize, number: u64) -> Option<usize>
        requires { IsPlace self.now place }
        ensures found { result ≡ key_of R.number (rows_at self.now place) number }
        ensures stands { IfSome result (λ key. option_map R.number (row_under (rows_at self.now place) key) ≡ Some number) }
        ensures sound { IsSound R.number (rows_at self.now place) }
    {
        let entries = self.indexes.get(place);
        match position(entries, number) {
            Some(at) => Some(entries.get(at).key as usize),
            None => None,
        }
    }

    /// The row under a key of the place.
    pub fn get(&self, place: usize, key: usize) -> &R
        requires place { IsPlace self.now place }
        requires stands { IsSome (row_under (rows_at self.now place) key) }
        ensures row { row_under (rows_at self.now place) key ≡ Some result.now }
        ensures sound { IsSound R.number (rows_at self.now place) }
    {
        let slot = &self.slab[key];
        prove!(slot.place == place);
        &slot.row
    }

    /// The number of rows of the place.
    pub fn len(&self, place: usize) -> usize
        requires { IsPlace self.now place }
        ensures len { result ≡ length (rows_at self.now place) }
        ensures sound { IsSound R.number (rows_at self.now place) }
    {
        self.indexes.get(place).len()
    }

    /// The key and the row at a position. Positions count from 0, in the order of the rows' numbers.
    pub fn at(&self, place: usize, position: usize) -> (usize, &R)
        requires place { IsPlace self.now place }
        requires stands { position < length (rows_at self.now place) }
        ensures { IsAtPosition (rows_at self.now place) position result.0 result.1.now }
    {
        let key = self.indexes.get(place).get(position).key as usize;
        (key, &self.slab[key].row)
    }

    /// Adds a row whose number is greater than all others of its place, and returns its key. It fails if
    /// memory runs out or the table is full, as keys have 32 bits.
    pub fn push(&mut self, place: usize, row: R) -> Result<usize, AllocError>
    where
        R: Drop,
        requires place { IsPlace self.old place }
        requires number { All (λ keyed. R.number keyed.row < R.number row) (rows_at self.old place) }
        ensures added { IfOk result (λ key. self.new ≡ with_place self.old place (added (rows_at self.old place) key row)) }
        ensures short { IfOk result (λ key. key < 2 ^ 32) }
        ensures vacant { IfOk result (λ key. row_under (rows_at self.old place) key ≡ None) }
        ensures err { OnErr result (self.new ≡ self.old) }
    {
        self.slab.reserve(1)?;
        let key = self.slab.vacant_key();
        let Ok(short) = u32::try_from(key) else {
            return Err(AllocError);
        };
        let index = self.indexes.get_mut(place);
        index.reserve()?;
        index.push_reserved(Entry {
            number: row.number(),
            key: short,
        });
        self.slab.insert_reserved(Slot { place, row });
        Ok(key)
    }

    /// Adds a row whose number its place does not have yet, and returns its key. It fails as
    /// [`push`](SharedRows::push) does.
    pub fn insert(&mut self, place: usize, row: R) -> Result<usize, AllocError>
    where
        R: Drop,
        requires place { IsPlace self.old place }
        requires absent { key_of R.number (rows_at self.old place) (R.number row) ≡ None }
        ensures added { IfOk result (λ key. self.new ≡ with_place self.old place (inserted R.number (rows_at self.old place) key row)) }
        ensures short { IfOk result (λ key. key < 2 ^ 32) }
        ensures vacant { IfOk result (λ key. row_under (rows_at self.old place) key ≡ None) }
        ensures err { OnErr result (self.new ≡ self.old) }
    {
        self.slab.reserve(1)?;
        let key = self.slab.vacant_key();
        let Ok(short) = u32::try_from(key) else {
            return Err(AllocError);
        };
        let number = row.number();
        let index = self.indexes.get_mut(place);
        index.reserve()?;
        let at = count_below(index, number.value());
        index.insert_reserved(at, Entry { number, key: short });
        self.slab.insert_reserved(Slot { place, row });
        Ok(key)
    }

    /// Replaces the row under a key by one with the same number, and returns the old row.
    pub fn replace(&mut self, place: usize, key: usize, row: R) -> R
        requires place { IsPlace self.old place }
        requires number { option_map R.number (row_under (rows_at self.old place) key) ≡ Some (R.number row) }
        ensures old { row_under (rows_at self.old place) key ≡ Some result }
        ensures new { self.new ≡ with_place self.old place (with_row (rows_at self.old place) key row) }
    {
        let slot = Slot { place, row };
        mem::replace(&mut self.slab[key], slot).row
    }

    /// Changes the row under a key in place, and returns what `change` returns. The row must keep its number.
    pub fn update<T, F: FnOnce(&mut R) -> T>(&mut self, place: usize, key: usize, change: F) -> T
        requires place { IsPlace self.old place }
        requires stands { IsSome (row_under (rows_at self.old place) key) }
        requires callable { (row : MutBor R) → row_under (rows_at self.old place) key ≡ Some row.now → F.pre change row }
        requires number { (row changed : R) (returned : T) → row_under (rows_at self.old place) key ≡ Some row
            → FnOnceReturnsAtMut F.FnOnce change row returned changed → R.number changed ≡ R.number row }
        ensures { (row changed : R) × (row_under (rows_at self.old place) key ≡ Some row) × FnOnceReturnsAtMut F.FnOnce change row result changed
            × (self.new ≡ with_place self.old place (with_row (rows_at self.old place) key changed)) }
    {
        let slot = &mut self.slab[key];
        change(&mut slot.row)
    }

    /// Removes the row under a key and returns it.
    pub fn remove(&mut self, place: usize, key: usize) -> R
        requires place { IsPlace self.old place }
        requires stands { IsSome (row_under (rows_at self.old place) key) }
        ensures row { row_under (rows_at self.old place) key ≡ Some result }
        ensures rest { self.new ≡ with_place self.old place (without (rows_at self.old place) key) }
    {
        let Slot { place: _, row } = self.slab.remove(key);
        let index = self.indexes.get_mut(place);
        let at = position(index, row.number().value()).unwrap();
        index.remove(at);
        row
    }

    /// Removes the row with a number and returns it, if there is one, with a single search.
    pub fn take(&mut self, place: usize, number: u64) -> Option<R>
        requires { IsPlace self.old place }
        ensures taken { IfSome result (λ row. (key : ℕ) × (key_of R.number (rows_at self.old place) number ≡ Some key)
            × (row_under (rows_at self.old place) key ≡ Some row) × (R.number row ≡ number)
            × (self.new ≡ with_place self.old place (without (rows_at self.old place) key))) }
        ensures absent { IfNone result (key_of R.number (rows_at self.old place) number ≡ None) }
        ensures unchanged { IfNone result (self.new ≡ self.old) }
        ensures sound { IsSound R.number (rows_at self.old place) }
    {
        let index = self.indexes.get_mut(place);
        let at = position(index, number)?;
        let entry = index.remove(at);
        let Slot { place: _, row } = self.slab.remove(entry.key as usize);
        Some(row)
    }

    /// Removes all rows of the place and frees its index. The memory of the rows is reused for the next rows
    /// of any place.
    pub fn clear(&mut self, place: usize)
    where
        R: Drop,
        requires { IsPlace self.old place }
        ensures { self.new ≡ with_place self.old place [] }
    {
        'rows: while self.len(place) > 0 {
            let (key, _) = self.at(place, self.len(place) - 1);
            self.remove(place, key);
        }
        self.drop_index(place);
    }

    /// Frees an index that has no entries.
    fn drop_index(&mut self, place: usize)
        requires place { IsPlace self.old place }
        requires empty { rows_at self.old place ≡ [] }
        ensures { self.new ≡ self.old }
    {
        *self.indexes.get_mut(place) = GapBuffer::new(self.alloc);
    }
}

//! The table.
ghost use Rattle.std.specs.Prelude.{◌≡◌, ◌≤◌, ◌↔◌, [], IsTrue, length, slice_index_or};
ghost use Rattle.std.specs.Borrow.{sem};
ghost use Rattle.shared_rows.specs.Table.{IsPlace, MakesRoom, Opens};

use std::alloc::{AllocError, Global};
use std::marker::Model;

/// A value for each place. Places are counted from 0 in the order in which they were opened, and none
/// is ever closed.
#[derive(Drop)]
pub struct Places<T> {
    items: Vec<T>,
}

impl<T> Model for Places<T> {
    ghost use Rattle.std.specs.Prelude.{◌-◌, vec_len};
    ghost use Rattle.std.specs.Vec.{vec_capacity};
    ghost use Rattle.shared_rows.specs.Table.{Table, table_code};

    ghost Value = { Table T };

    ghost coded = { table_code T.code };

    ghost view = { λ p. record { places = p.items.items; room = vec_capacity p.items - vec_len p.items } };
}

impl<T> Places<T> {
    ghost use Rattle.shared_rows.specs.Lending.{LendsPlace};

    /// Creates a table with no place, without allocating.
    pub fn new(alloc: Global) -> Places<T>
        ensures { result.places ≡ [] }
    {
        Places {
            items: Vec::new(alloc),
        }
    }

    /// Makes room for one more place at least.
    pub fn ready(&mut self) -> Result<(), AllocError>
        ensures { MakesRoom self.old self.new result }
    {
        self.items.reserve(1)
    }

    /// Opens the next place with this value, and returns its number.
    pub fn open(&mut self, value: T) -> usize
        requires { 1 ≤ self.old.room }
        ensures { Opens self.old value self.new result }
    {
        let place = self.items.len();
        self.items.push_reserved(value);
        place
    }

    /// How many places have been opened.
    pub fn len(&self) -> usize
        ensures { result ≡ length self.now.places }
    {
        self.items.len()
    }

    pub fn is_empty(&self) -> bool
        ensures { IsTrue result ↔ (self.now.places ≡ []) }
    {
        self.items.is_empty()
    }

    /// The value at a place.
    pub fn get(&self, place: usize) -> &T
        requires { IsPlace self.now place }
        ensures { (default : T) → result.now ≡ slice_index_or self.now.places place default }
    {
        &self.items[place]
    }

    /// The value at a place, for changing it. All other places are unchanged.
    pub fn get_mut(&mut self, place: usize) -> &mut T
        requires { IsPlace self.old place }
        ensures* writes_back { sem 𝓛 (LendsPlace T.row self.entry place result) }
        ensures value { (default : T) → result.now ≡ slice_index_or self.old.places place default }
    {
        &mut self.items[place]
    }
}

//! Objects that go, and what else is marked at them.
ghost use Rattle.std.specs.Prelude.{◌≡◌, ◌≤◌, [], false, map};
ghost use Rattle.std.specs.Option.{option_map_or};
ghost use Rattle.shared_rows.specs.Table.{ChangesAt, IsPlace};
ghost use Rattle.shared_rows.specs.Links.{AreLinked};
ghost use Rattle.shared_rows.specs.Rows.{rows_at};
ghost use Rattle.object_tree.specs.Rows.{row_of};
ghost use Rattle.object_tree.specs.Changes.{marked, orphaned, removed, with_blocked};
ghost use Rattle.object_tree.specs.Children.{child_of, rows_of};
ghost use Rattle.object_tree.specs.Table.{forest_at, with_forest};

use crate::child::{Child, child_of, first_of};
use crate::forests::Forests;
use crate::moving::hang;
use crate::row::Row;
use shared_rows::{Links, SharedRows};

impl Forests {
    /// Marks an object as one that is being deleted.
    pub fn mark_dying(&mut self, place: usize, object: u32)
        requires { IsPlace self.old place }
        ensures { self.new ≡ with_forest self.old place (marked (forest_at self.old place) object) }
    {
        if let Some(key) = self.rows.find(place, object as u64) {
            let row = *self.rows.get(place, key);
            self.rows.replace(place, key, Row { dying: true, ..row });
        }
    }

    /// Blocks the signals of an object, or lets them through, and returns whether they were blocked.
    pub fn set_blocked(&mut self, place: usize, object: u32, on: bool) -> bool
        requires { IsPlace self.old place }
        ensures before { result ≡ option_map_or (λ row. row.blocked)
            (row_of (forest_at self.old place).rows object) false }
        ensures after { self.new ≡ with_forest self.old place
            (with_blocked (forest_at self.old place) object on) }
    {
        let Some(key) = self.rows.find(place, object as u64) else {
            return false;
        };
        let row = *self.rows.get(place, key);
        self.rows.replace(place, key, Row { blocked: on, ..row });
        row.blocked
    }

    /// Takes an object out. Its children become roots and keep their stamps.
    pub fn remove(&mut self, place: usize, object: u32)
        requires { IsPlace self.old place }
        ensures { self.new ≡ with_forest self.old place (removed (forest_at self.old place) object) }
    {
        if let Some(row) = self.rows.take(place, object as u64) {
            let children = &mut self.kinships.get_mut(place).children;
            children.remove(child_of(row));
            orphan(&mut self.rows, children, place, object);
        }
    }
}

/// Lets the children of an object become roots.
fn orphan(rows: &mut SharedRows<Row>, children: &mut Links<Child>, place: usize, object: u32)
    requires place { IsPlace rows.old place }
    requires object { 1 ≤ object }
    requires linked { AreLinked child_of (rows_of (rows_at rows.old place)) children.old.links }
    ensures elsewhere { ChangesAt [] place rows.old rows.new }
    ensures rows { rows_of (rows_at rows.new place) ≡ map (orphaned object) (rows_of (rows_at rows.old place)) }
    ensures linked { AreLinked child_of (rows_of (rows_at rows.new place)) children.new.links }
{
    'kids: while let Some(child) = first_of(children.as_buffer(), object) {
        hang(rows, children, place, child.number, None, child.stamp);
    }
}

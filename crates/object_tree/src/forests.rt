//! A forest for each place.
ghost use Rattle.std.specs.Prelude.{◌≡◌, ◌≤◌, ◌&&◌, [], Some, false, length, not};
ghost use Rattle.std.specs.Option.{option_map_or};
ghost use Rattle.shared_rows.specs.Table.{IsPlace, MakesRoom, Opens};
ghost use Rattle.object_tree.specs.Rows.{is_same, row_of};
ghost use Rattle.object_tree.specs.Forest.{IsSound, empty_forest};
ghost use Rattle.object_tree.specs.Table.{forest_at, with_forest};

use crate::child::Child;
use crate::row::Row;
use shared_rows::{Links, Places, SharedRows};
use std::alloc::{AllocError, Global};
use std::marker::Model;

/// A place keeps these lists besides its rows.
#[derive(Drop)]
pub(crate) struct Kinship {
    pub(crate) last_number: u32,
    pub(crate) last_stamp: u64,
    pub(crate) children: Links<Child>,
}

/// The objects of each session, by place. No call touches another place than the one that it names.
#[derive(Drop)]
pub struct Forests {
    pub(crate) rows: SharedRows<Row>,
    pub(crate) kinships: Places<Kinship>,
    pub(crate) alloc: Global,
}

impl Model for Forests {
    ghost use Rattle.shared_rows.specs.Table.{Table};
    ghost use Rattle.object_tree.specs.Forest.{Forest};

    ghost Value = { Table Forest };

    ghost use Rattle.shared_rows.specs.Paired.{paired_tables};
    ghost use Rattle.object_tree.specs.Children.{IsKept, forest_of};

    ghost view = { λ forests. paired_tables forest_of forests.rows forests.kinships };

    ghost invariant = { λ forests. IsKept forests.rows forests.kinships };
}

impl Forests {
    /// A table with no place, which takes no memory yet.
    pub fn new(alloc: Global) -> Forests
        ensures { result.places ≡ [] }
    {
        Forests {
            rows: SharedRows::new(alloc),
            kinships: Places::new(alloc),
            alloc,
        }
    }

    /// Makes room for one more place at least.
    pub fn ready(&mut self) -> Result<(), AllocError>
        ensures { MakesRoom self.old self.new result }
    {
        self.rows.ready()?;
        self.kinships.ready()
    }

    /// Opens the next place with no objects, and returns its number.
    pub fn open(&mut self) -> usize
        requires { 1 ≤ self.old.room }
        ensures { Opens self.old empty_forest self.new result }
    {
        self.rows.open();
        self.kinships.open(no_kinship(self.alloc))
    }

    /// Takes all objects of a place out, and gives their memory back; their numbers are then given
    /// again.
    pub fn clear(&mut self, place: usize)
        requires { IsPlace self.old place }
        ensures { self.new ≡ with_forest self.old place empty_forest }
    {
        self.rows.clear(place);
        *self.kinships.get_mut(place) = no_kinship(self.alloc);
    }

    /// How many objects there are.
    pub fn count(&self, place: usize) -> usize
        requires { IsPlace self.now place }
        ensures { result ≡ length (forest_at self.now place).rows }
    {
        self.rows.len(place)
    }

    /// The row of an object.
    pub fn row(&self, place: usize, object: u32) -> Option<Row>
        requires { IsPlace self.now place }
        ensures { result ≡ row_of (forest_at self.now place).rows object }
    {
        let key = self.rows.find(place, object as u64)?;
        Some(*self.rows.get(place, key))
    }

    /// Whether an object is there and not being deleted.
    pub fn lives(&self, place: usize, object: u32) -> bool
        requires { IsPlace self.now place }
        ensures { result ≡ option_map_or (λ row. not row.dying) (row_of (forest_at self.now place).rows object) false }
    {
        match self.row(place, object) {
            Some(row) => !row.dying,
            None => false,
        }
    }

    /// Whether an object is below this parent and not being deleted.
    pub fn lives_below(&self, place: usize, parent: u32, object: u32) -> bool
        requires { IsPlace self.now place }
        ensures { result ≡ option_map_or (λ row. not row.dying && is_same row.parent (Some parent))
            (row_of (forest_at self.now place).rows object) false }
    {
        match self.row(place, object) {
            Some(row) => !row.dying && row.parent == Some(parent),
            None => false,
        }
    }

    /// A place keeps these lists besides its rows.
    pub(crate) fn kinship(&self, place: usize) -> &Kinship
        requires { IsPlace self.now place }
        ensures number { result.now.last_number ≡ (forest_at self.now place).last_number }
        ensures stamp { result.now.last_stamp ≡ (forest_at self.now place).last_stamp }
    {
        self.kinships.get(place)
    }

    /// Every forest is sound. There is nothing to run: the clause is for the proofs of callers.
    pub fn law_sound(&self, place: usize)
        requires { IsPlace self.now place }
        ensures { IsSound (forest_at self.now place) }
    {
        // The loan is for the proof, which then knows what holds of every forest.
        let _kinships = &self.kinships;
    }
}

fn no_kinship(alloc: Global) -> Kinship
    ensures number { result.last_number ≡ 0 }
    ensures stamp { result.last_stamp ≡ 0 }
    ensures children { result.children.links ≡ [] }
{
    Kinship {
        last_number: 0,
        last_stamp: 0,
        children: Links::new(alloc),
    }
}

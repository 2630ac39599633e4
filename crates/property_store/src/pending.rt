//! Marks that a caller keeps for a place: the written ones that it took over, and others that it adds.
ghost use Rattle.std.specs.Prelude.{◌≡◌, ◌∷◌, [], IsTrue, false, not, true};
ghost use Rattle.shared_rows.specs.Table.{IsPlace};
ghost use Rattle.property_store.specs.Marks.{all_marks, has_marks, is_marked, marks_at, no_marks};
ghost use Rattle.property_store.specs.Property.{among};
ghost use Rattle.property_store.specs.Pending.{AreMore, IsDrained, both, only};

use crate::property::{Property, is_property};
use crate::stores::Stores;
use crate::written::Written;
use std::alloc::Global;
use std::marker::Model;
use std::mem;

/// At most this many properties are marked one by one. If there are more, all are marked.
const MARKS: usize = 16384;

/// The properties of a place that are marked, or that all are.
#[derive(Drop)]
pub struct Pending {
    all: bool,
    each: Vec<Property>,
}

impl Model for Pending {
    ghost use Rattle.property_store.specs.Marks.{Marks};
    ghost use Rattle.property_store.specs.Pending.{coded_marks};

    ghost Value = { Marks };

    ghost coded = { coded_marks };

    ghost view = { λ pending. record { all = pending.all; each = pending.each.items } };
}

impl Pending {
    /// All are marked.
    pub fn new(alloc: Global) -> Pending
        ensures { result ≡ all_marks }
    {
        Pending {
            all: true,
            each: Vec::new(alloc),
        }
    }

    pub fn is_all(&self) -> bool
        ensures { result ≡ self.now.all }
    {
        self.all
    }

    pub fn is_empty(&self) -> bool
        ensures { result ≡ not (has_marks self.now) }
    {
        !self.all && self.each.is_empty()
    }

    /// Whether this property is marked, and no other.
    pub fn is_only(&self, at: Property) -> bool
        ensures { IsTrue result → self.now ≡ only (at ∷ []) }
    {
        if self.all {
            return false;
        }
        match self.each.as_slice() {
            [one] => is_property(*one, at),
            _ => false,
        }
    }

    /// Clears all marks. Allocates nothing.
    pub fn clear(&mut self)
        ensures { self.new ≡ no_marks }
    {
        self.all = false;
        self.each.clear();
    }

    /// Marks all properties. Allocates nothing.
    pub fn mark_all(&mut self)
        ensures { self.new ≡ all_marks }
    {
        self.all = true;
        self.each.clear();
    }

    /// Marks a property, or all of them if there are too many marks or memory runs out.
    pub fn mark(&mut self, at: Property)
        ensures kept { AreMore self.old self.new }
        ensures marked { is_marked self.new at ≡ true }
    {
        if self.all {
            return;
        }
        if self.each.len() >= MARKS || self.each.push(at).is_err() {
            self.mark_all();
        }
    }

    /// Marks a property that may be marked already.
    pub fn mark_once(&mut self, at: Property)
        ensures kept { AreMore self.old self.new }
        ensures marked { is_marked self.new at ≡ true }
    {
        if !is_among(at, self.each.as_slice()) {
            self.mark(at);
        }
    }

    /// Returns the properties in `each`, and clears all marks.
    pub fn take(&mut self, alloc: Global) -> Vec<Property>
        ensures taken { result.items ≡ self.old.each }
        ensures none { self.new ≡ no_marks }
    {
        self.all = false;
        mem::replace(&mut self.each, Vec::new(alloc))
    }

    /// Takes back a list for reuse, so that the next marks allocate nothing. If its capacity exceeds 16, the
    /// list is dropped.
    pub fn give_back(&mut self, done: Vec<Property>)
        requires { self.old ≡ no_marks }
        ensures { self.new ≡ no_marks }
    {
        if done.capacity() <= 16 {
            self.each = done;
            self.each.clear();
        }
    }

    /// Takes all marks of what was written at a place, and marks the same here.
    pub fn drain(&mut self, stores: &mut Stores, place: usize)
        requires { IsPlace stores.old.shelves.table place }
        ensures stores { IsDrained place stores.old stores.new }
        ensures taken { has_marks (marks_at stores.new.marks place) ≡ false }
        ensures kept { AreMore (both (marks_at stores.old.marks place) self.old) self.new }
    {
        'marks: loop {
            match stores.take_written(place) {
                Written::None => return,
                Written::One(at) => self.mark(at),
                Written::All => self.mark_all(),
            }
        }
    }
}

fn is_among(at: Property, each: &[Property]) -> bool
    ensures { result ≡ among at each.now }
{
    each.iter().any(|one| is_property(at, *one))
}

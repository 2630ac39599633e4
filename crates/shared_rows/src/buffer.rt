//! The list.
ghost use Rattle.std.specs.Prelude.{◌≡◌, ◌-◌, ◌^◌, ◌<◌, ◌≤◌, ◌↔◌, ◌++◌, ◌∷◌, [], Bool, IfSome, IsSome};
ghost use Rattle.std.specs.Prelude.{IsTrue, OnErr, OnOk, false, length, set, slice_index_or, true};
ghost use Rattle.std.specs.Fn.{ComputesKey};
ghost use Rattle.std.specs.List.{insert, remove};
ghost use Rattle.std.specs.List.Sorted.{IsPartitionPoint, IsPartitionedBy};

use crate::gap::{Gap, count, inserted, pushed, read, removed, reserved, write};
use crate::search::point;
use std::alloc::{AllocError, Global};
use std::marker::Model;

/// A gap buffer: a list that is fast to change near its last change. Removing an element leaves a gap,
/// and a change near the gap moves only the elements between the two. Only `reserve` allocates memory.
#[derive(Drop)]
pub struct GapBuffer<T: Copy> {
    /// The elements before the gap, then the gap, then the elements after it. The gap holds stale elements,
    /// which are not part of the list.
    places: Vec<T>,
    gap: Gap,
}

impl<T: Copy> Model for GapBuffer<T> {
    ghost use Rattle.std.specs.Prelude.{min};
    ghost use Rattle.std.specs.Vec.{vec_capacity};
    ghost use Rattle.shared_rows.specs.Gapped.{Gapped, gapped_code};
    ghost use Rattle.shared_rows.specs.Gap.{IsGapOf, listed};

    ghost Value = { Gapped T };

    ghost coded = { gapped_code T.code };

    ghost view = { λ buffer. record { items = listed buffer.places.items buffer.gap; capacity = min (vec_capacity buffer.places) 4294967295 } };

    ghost invariant = { λ buffer. IsGapOf buffer.places.items buffer.gap };
}

impl<T: Copy> GapBuffer<T> {
    /// Creates an empty list, without allocating.
    pub fn new(alloc: Global) -> GapBuffer<T>
        ensures { result.items ≡ [] }
    {
        GapBuffer {
            places: Vec::new(alloc),
            gap: Gap { start: 0, gone: 0 },
        }
    }

    pub fn len(&self) -> usize
        ensures { result ≡ length self.now.items }
    {
        count(&self.places, self.gap)
    }

    pub fn is_empty(&self) -> bool
        ensures { IsTrue result ↔ (self.now.items ≡ []) }
    {
        self.len() == 0
    }

    pub fn get(&self, at: usize) -> T
        requires { at < length self.now.items }
        ensures { (default : T) → result ≡ slice_index_or self.now.items at default }
    {
        *read(&self.places, self.gap, at)
    }

    pub fn first(&self) -> Option<T>
        ensures variant { IsSome result ↔ (0 < length self.now.items) }
        ensures lookup { IfSome result (λ x. x ≡ slice_index_or self.now.items 0 x) }
    {
        if self.is_empty() {
            return None;
        }
        Some(self.get(0))
    }

    pub fn last(&self) -> Option<T>
        ensures variant { IsSome result ↔ (0 < length self.now.items) }
        ensures lookup { IfSome result (λ x. x ≡ slice_index_or self.now.items (length self.now.items - 1) x) }
    {
        let len = self.len();
        if len == 0 {
            return None;
        }
        Some(self.get(len - 1))
    }

    /// The position of the gap: usually where the last element was removed, or just after the last one
    /// inserted. A search may look there first.
    pub fn last_change(&self) -> usize
        ensures { result ≤ length self.now.items }
    {
        self.gap.start as usize
    }

    /// Makes room for one more element: by closing the gap if it is large, or else by allocating.
    pub fn reserve(&mut self) -> Result<(), AllocError>
        ensures items { self.new.items ≡ self.old.items }
        ensures room { OnOk result (length self.new.items < self.new.capacity) }
        ensures short { OnOk result (length self.new.items < 2 ^ 32 - 1) }
        ensures kept { self.old.capacity ≤ self.new.capacity }
        ensures err { OnErr result (self.new ≡ self.old) }
    {
        self.gap = reserved(&mut self.places, self.gap)?;
        Ok(())
    }

    /// Appends an element. There must be room for it.
    pub fn push_reserved(&mut self, element: T)
        requires { length self.old.items < self.old.capacity }
        ensures { self.new ≡ record self.old { items = self.old.items ++ element ∷ [] } }
    {
        self.gap = pushed(&mut self.places, self.gap, element);
    }

    /// Inserts an element at a position. There must be room for it.
    pub fn insert_reserved(&mut self, at: usize, element: T)
        requires room { length self.old.items < self.old.capacity }
        requires within { at ≤ length self.old.items }
        ensures { self.new ≡ record self.old { items = insert self.old.items at element } }
    {
        self.gap = inserted(&mut self.places, self.gap, at, element);
    }

    /// Replaces the element at a position.
    pub fn set(&mut self, at: usize, element: T)
        requires { at < length self.old.items }
        ensures { self.new ≡ record self.old { items = set self.old.items at element } }
    {
        write(&mut self.places, self.gap, at, element);
    }

    /// Removes the element at a position and returns it.
    pub fn remove(&mut self, at: usize) -> T
        requires { at < length self.old.items }
        ensures element { (default : T) → result ≡ slice_index_or self.old.items at default }
        ensures others { self.new ≡ record self.old { items = remove self.old.items at } }
    {
        let element = *read(&self.places, self.gap, at);
        self.gap = removed(&mut self.places, self.gap, at);
        element
    }

    /// Removes all elements and keeps the memory.
    pub fn clear(&mut self)
        ensures { self.new ≡ record self.old { items = [] } }
    {
        self.places.clear();
        self.gap = Gap { start: 0, gone: 0 };
    }

    /// Counts the elements that pass `pred`, provided that they come before all those that do not.
    pub fn partition_point<P: FnMut(&T) -> bool>(&self, pred: P) -> usize
        requires { P.IsAlwaysCallable pred }
        ensures bound { result ≤ length self.now.items }
        ensures partitioned { (p : T → Bool) → ComputesKey P.FnMut p pred
            → IsPartitionedBy p self.now.items → IsPartitionPoint (λ y. p y ≡ true) (λ y. p y ≡ false) self.now.items result }
    {
        point(&self.places, self.gap, pred)
    }
}

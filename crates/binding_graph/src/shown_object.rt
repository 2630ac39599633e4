//! The values that the properties of one object showed.
ghost use Rattle.std.specs.Prelude.{◌≡◌, ◌≤◌, ◌<◌, ◌==◌, ℕ, if◌then◌else◌, None, OnOk, length, option_map};
ghost use Rattle.binding_graph.specs.LastShown.{HasMoreSlots, head, slot_at};

use binding_values::{HasProperty, Shown};
use property_store::Property;
use std::alloc::AllocError;

/// The values that the properties of an object showed, each in the slot of its number.
#[derive(Drop)]
pub(crate) struct ShownObject {
    pub(crate) object: u32,
    pub(crate) slots: Vec<Option<Shown>>,
}

impl HasProperty for ShownObject {
    ghost at = { head };

    fn at(&self) -> Property {
        Property {
            object: self.object,
            number: 0,
        }
    }
}

impl ShownObject {
    /// Returns what the property of a number showed.
    pub(crate) fn shown(&self, number: usize) -> Option<&Shown>
        ensures { option_map (λ shown. shown.now) result ≡ slot_at self.now.slots.items number }
    {
        self.slots.get(number)?.as_ref()
    }

    /// Makes the slots up to a number.
    pub(crate) fn make_slots(&mut self, number: usize) -> Result<(), AllocError>
        ensures more { HasMoreSlots self.old self.new }
        ensures room { OnOk result (number < length self.new.slots.items) }
    {
        'slots: while self.slots.len() <= number {
            self.slots.push(None)?;
        }
        Ok(())
    }

    /// Empties the slot of a number, and drops the slots after the last one that holds something.
    pub(crate) fn empty_slot(&mut self, number: usize)
        ensures object { self.new.object ≡ self.old.object }
        ensures emptied { (k : ℕ) → slot_at self.new.slots.items k ≡ (if k == number then None else slot_at self.old.slots.items k) }
    {
        if number < self.slots.len() {
            self.slots[number] = None;
        }
        self.slots.truncate(count_used(self.slots.as_slice()));
    }
}

/// How many slots there are up to the last one that holds something.
fn count_used(slots: &[Option<Shown>]) -> usize
    ensures { (k : ℕ) → result ≤ k → slot_at slots.now k ≡ None }
{
    let mut count = slots.len();
    'used: while count > 0 && slots[count - 1].is_none() {
        count -= 1;
    }
    count
}

//! How many rows of one place name each object.
ghost use Rattle.std.specs.Prelude.{◌≡◌, ◌+◌, ◌-◌, ◌^◌, ◌<◌, ◌==◌, ◌||◌, ℕ, Err, Ok, OnOk, OnErr, false, if◌then◌else◌};
ghost use Rattle.shared_rows.specs.Links.{IsSeat, with_link};
ghost use Rattle.event_queue.specs.Entries.{AreEntries, entry_cmp, of_object};
ghost use Rattle.event_queue.specs.Inside.{IsCounted, KeepsMarks, count_at, count_of, is_dropped};

use shared_rows::GapBuffer;
use std::alloc::{AllocError, Global};
use std::marker::Model;

/// How many rows name an object.
#[derive(Clone, Copy)]
pub(crate) struct Count {
    pub(crate) rows: u32,
    /// All of these rows are of events that were dropped.
    pub(crate) is_dropped: bool,
}

/// An object and its count.
#[derive(Clone, Copy)]
pub(crate) struct Entry {
    object: u32,
    count: Count,
}

/// The count of an object that no row names.
const NO_ROWS: Count = Count {
    rows: 0,
    is_dropped: false,
};

/// How many rows name an object, for each object that any row names. Entries are in the order of their objects.
/// Dropping the events of an object marks its entry here and visits none of its rows.
#[derive(Drop)]
pub(crate) struct ObjectCounts {
    entries: GapBuffer<Entry>,
}

impl Model for ObjectCounts {
    ghost use Rattle.std.specs.Prelude.{List};
    ghost use Rattle.event_queue.specs.declared.object_counts.Entry.{Entry};
    ghost use Rattle.event_queue.specs.Entries.{AreEntries};

    ghost Value = { List Entry };

    ghost view = { λ objects. objects.entries.items };

    ghost invariant = { λ objects. AreEntries objects.entries.items };
}

impl ObjectCounts {
    pub(crate) fn new(alloc: Global) -> ObjectCounts
        ensures { (object : ℕ) → count_of result object ≡ 0 }
    {
        ObjectCounts {
            entries: GapBuffer::new(alloc),
        }
    }

    pub(crate) fn count(&self, object: u32) -> Count
        ensures { result ≡ count_at self.now object }
    {
        match position(&self.entries, object) {
            Ok(at) => self.entries.get(at).count,
            Err(_) => NO_ROWS,
        }
    }

    /// Counts another row that names the object, and clears its mark for dropped events.
    pub(crate) fn add(&mut self, object: u32) -> Result<(), AllocError>
        requires { count_of self.old object < 2 ^ 32 - 1 }
        ensures ok { OnOk result (IsCounted self.old self.new object (count_of self.old object + 1)) }
        ensures marks { OnOk result ((other : ℕ) → is_dropped self.new other ≡ (if object == other then false else is_dropped self.old other)) }
        ensures err { OnErr result ((other : ℕ) → count_at self.new other ≡ count_at self.old other) }
    {
        match position(&self.entries, object) {
            Ok(at) => {
                let rows = self.entries.get(at).count.rows + 1;
                let count = Count {
                    rows,
                    is_dropped: false,
                };
                replace_count(&mut self.entries, at, object, count);
                Ok(())
            }
            Err(at) => insert_first(&mut self.entries, at, object),
        }
    }

    /// Counts one row fewer for the object, and returns whether its events are dropped.
    pub(crate) fn subtract(&mut self, object: u32) -> bool
        ensures was { result ≡ is_dropped self.old object }
        ensures counted { IsCounted self.old self.new object (count_of self.old object - 1) }
        ensures marks { KeepsMarks self.old self.new }
    {
        let Ok(at) = position(&self.entries, object) else {
            return false;
        };
        let count = self.entries.get(at).count;
        if count.rows <= 1 {
            self.entries.remove(at);
            return count.is_dropped;
        }
        let fewer = Count {
            rows: count.rows - 1,
            is_dropped: count.is_dropped,
        };
        replace_count(&mut self.entries, at, object, fewer);
        count.is_dropped
    }

    /// Drops the events of the object, and returns how many waited.
    pub(crate) fn drop_events(&mut self, object: u32) -> u32
        ensures waited { result ≡ (if is_dropped self.old object then 0 else count_of self.old object) }
        ensures counted { (other : ℕ) → count_of self.new other ≡ count_of self.old other }
        ensures marks { (other : ℕ) → 0 < count_of self.new other
            → is_dropped self.new other ≡ (is_dropped self.old other || (other == object)) }
    {
        let Count { rows, is_dropped } = self.count(object);
        if is_dropped || rows == 0 {
            return 0;
        }
        self.set(
            object,
            Count {
                rows,
                is_dropped: true,
            },
        );
        rows
    }

    /// Changes the count of an object that is counted. Allocates nothing.
    fn set(&mut self, object: u32, count: Count)
        requires { 0 < count_of self.old object }
        ensures { (other : ℕ) → count_at self.new other ≡ (if object == other then count else count_at self.old other) }
    {
        if let Ok(at) = position(&self.entries, object) {
            replace_count(&mut self.entries, at, object, count);
        }
    }
}

/// Replaces the count of an object whose entry is at this position.
fn replace_count(entries: &mut GapBuffer<Entry>, at: usize, object: u32, count: Count)
    requires order { AreEntries entries.old.items }
    requires seat { IsSeat entry_cmp entries.old.items (of_object object) (Ok at) }
    ensures { entries.new.items ≡ with_link entry_cmp entries.old.items (record { object = object; count = count }) }
{
    entries.set(at, Entry { object, count });
}

/// Inserts an entry for the first row of an object, at the position where it belongs.
fn insert_first(entries: &mut GapBuffer<Entry>, at: usize, object: u32) -> Result<(), AllocError>
    requires order { AreEntries entries.old.items }
    requires seat { IsSeat entry_cmp entries.old.items (of_object object) (Err at) }
    ensures ok { OnOk result (entries.new.items
        ≡ with_link entry_cmp entries.old.items (record { object = object; count = record { rows = 1; is_dropped = false } })) }
    ensures err { OnErr result (entries.new.items ≡ entries.old.items) }
{
    entries.reserve()?;
    let count = Count {
        rows: 1,
        is_dropped: false,
    };
    entries.insert_reserved(at, Entry { object, count });
    Ok(())
}

/// The position of the entry of an object, or the one where it would be inserted. Successive objects usually have
/// successive entries, so the first guess is as far after the first entry as the two objects' numbers differ.
fn position(entries: &GapBuffer<Entry>, object: u32) -> Result<usize, usize>
    requires { AreEntries entries.now.items }
    ensures { IsSeat entry_cmp entries.now.items (of_object object) result }
{
    let Some(first) = entries.first() else {
        return Err(0);
    };
    if object < first.object {
        return Err(0);
    }
    let guess = ((object - first.object) as usize).min(entries.len() - 1);
    let there = entries.get(guess).object;
    if there == object {
        return Ok(guess);
    }
    // Objects differ by no less than the positions of their entries. So if the entry there has a lower object, it
    // is the last one.
    if object > there {
        return Err(guess + 1);
    }
    search(entries, object)
}

/// Finds the position of an entry by binary search.
#[inline(never)]
fn search(entries: &GapBuffer<Entry>, object: u32) -> Result<usize, usize>
    requires { AreEntries entries.now.items }
    ensures { IsSeat entry_cmp entries.now.items (of_object object) result }
{
    let at = entries.partition_point(|entry| entry.object < object);
    if at == entries.len() {
        return Err(at);
    }
    let there = entries.get(at).object;
    if there == object { Ok(at) } else { Err(at) }
}

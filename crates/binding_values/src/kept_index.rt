//! The index keeps results of bound properties from one change to the next, and which of them have read which
//! property.
ghost use Rattle.std.specs.Prelude.{◌≡◌, ◌+◌, ◌≤◌, ◌∷◌, [], IsTrue, List, OnOk, false, filter, length, not};
ghost use Rattle.std.specs.Option.{option_map};
ghost use Rattle.property_store.specs.declared.property.Property.{Property};
ghost use Rattle.property_store.specs.Property.{is_property};
ghost use Rattle.binding_values.specs.declared.eval_result.CacheEntry.{CacheEntry};
ghost use Rattle.binding_values.specs.EvalResult.{IsWithin, Keeping, kept_of};
ghost use Rattle.binding_values.specs.Keeping.{entries, standing};
ghost use Rattle.binding_values.specs.Reached.{AreKeptToo, AreLetGo, HasReaders, IsLonger, IsReached, IsUnread, without};

use crate::eval_result::{CacheEntry, EvalResult};
use crate::kept_rows::KeptRows;
use crate::readers::Readers;
use property_store::Property;
use std::alloc::{AllocError, Global};
use std::marker::Model;

/// The index holds results of bound properties, and leads from each property to those that have read it. The edges of
/// a stale result stay until the next one has read other properties.
#[derive(Drop)]
pub struct KeptIndex {
    rows: KeptRows,
    readers: Readers,
}

impl Model for KeptIndex {
    ghost use Rattle.std.specs.Prelude.{List};
    ghost use Rattle.binding_values.specs.declared.eval_result.CacheEntry.{CacheEntry};
    ghost use Rattle.binding_values.specs.Coded.{coded_eval_cache};
    ghost use Rattle.binding_values.specs.Keeping.{entries, standing};
    ghost use Rattle.binding_values.specs.Reached.{HasReaders};

    ghost Value = { List CacheEntry };

    ghost coded = { coded_eval_cache };

    ghost view = { λ kept. standing kept.rows };

    ghost invariant = { λ kept. HasReaders (entries kept.rows) kept.readers };
}

impl KeptIndex {
    pub fn new(alloc: Global) -> KeptIndex
        ensures { result ≡ [] }
    {
        KeptIndex {
            rows: KeptRows::new(alloc),
            readers: Readers::new(alloc),
        }
    }

    /// Returns the result of a property, where one is kept.
    pub fn at(&self, at: Property) -> Option<&EvalResult>
        ensures { option_map (λ kept. kept.now) result ≡ kept_of self.now at }
    {
        self.rows.at(at)
    }

    /// Whether a change of a property reaches no result: none is kept of it, and none has read it.
    pub(crate) fn reaches_nothing(&self, at: Property) -> bool
        ensures { IsTrue result → IsReached (kept_of self.now) (at ∷ []) self.now }
    {
        let _ = self.rows.count();
        if self.rows.at(at).is_some() {
            return false;
        }
        is_unread(&self.readers, at)
    }

    /// Drops the result of a property, and its row: call it if no result of the property is expected soon.
    pub fn forget(&mut self, at: Property)
        ensures { self.new ≡ filter (λ row. not (is_property at row.at)) self.old }
    {
        let_go(&mut self.rows, &mut self.readers, at);
        self.rows.remove(at);
    }

    /// Drops all results.
    pub fn clear(&mut self)
        ensures { self.new ≡ [] }
    {
        self.rows.clear();
        self.readers.clear();
    }

    /// Drops the results of touched properties and of all properties that they reach, and appends the latter to
    /// `touched`.
    pub fn reach(&mut self, touched: &mut Vec<Property>) -> Result<(), AllocError>
        ensures reached { OnOk result (IsReached (kept_of self.old) touched.new.items self.new) }
        ensures longer { OnOk result (IsLonger touched.old.items touched.new.items) }
    {
        spread(&mut self.rows, &self.readers, touched)
    }

    /// Keeps the results in `found` of properties that have none.
    pub fn keep_all(&mut self, found: Vec<CacheEntry>) -> Result<(), AllocError>
        ensures { OnOk result (AreKeptToo found.items self.old self.new) }
    {
        keep_all(&mut self.rows, &mut self.readers, found)
    }
}

/// Removes the last result of a property, and the edges to it.
fn let_go(rows: &mut KeptRows, readers: &mut Readers, at: Property)
    requires { HasReaders (entries rows.old) readers.old }
    ensures standing { standing rows.new ≡ without at (standing rows.old) }
    ensures entries { entries rows.new ≡ without at (entries rows.old) }
    ensures readers { HasReaders (entries rows.new) readers.new }
{
    if let Some(kept) = rows.take(at) {
        readers.remove_all(kept.reads.as_slice(), at);
    }
}

fn invalidate_all(rows: &mut KeptRows, touched: &[Property])
    ensures gone { AreLetGo (kept_of (standing rows.old)) touched.now (standing rows.new) }
    ensures entries { entries rows.new ≡ entries rows.old }
{
    for at in touched {
        rows.invalidate(*at);
    }
}

/// Whether no edge leads from a property.
fn is_unread(readers: &Readers, read: Property) -> bool
    ensures { IsTrue result → (rows : List CacheEntry) → IsUnread readers.now rows read }
{
    let start = readers.start_of(read, 0);
    match readers.reader_at(read, start) {
        Some(_) => false,
        None => true,
    }
}

/// Appends the readers of a property to `touched`, and makes their results stale. Readers without a fresh
/// result are not appended. The edges are looked for at the position `near` first, which becomes the position
/// after them.
fn touch_readers(
    rows: &mut KeptRows,
    readers: &Readers,
    read: Property,
    touched: &mut Vec<Property>,
    near: &mut usize,
) -> Result<(), AllocError>
    ensures gone { OnOk result ((before : Keeping)
        → AreLetGo before touched.old.items (standing rows.old) → AreLetGo before touched.new.items (standing rows.new)) }
    ensures unread { OnOk result (IsUnread readers.now (standing rows.new) read) }
    ensures longer { OnOk result (IsLonger touched.old.items touched.new.items) }
    ensures less { OnOk result (length (standing rows.new) + length touched.new.items ≤ length (standing rows.old) + length touched.old.items) }
    ensures within { OnOk result (IsWithin (kept_of (standing rows.new)) (kept_of (standing rows.old))) }
    ensures entries { entries rows.new ≡ entries rows.old }
{
    let mut at = readers.start_of(read, *near);
    'readers: while let Some((reader, next)) = readers.reader_at(read, at) {
        if rows.invalidate(reader) {
            touched.push(reader)?;
        }
        at = next;
    }
    *near = at;
    Ok(())
}

/// Makes the results of touched properties and of all that these reach stale, and appends what they reach to them.
fn spread(
    rows: &mut KeptRows,
    readers: &Readers,
    touched: &mut Vec<Property>,
) -> Result<(), AllocError>
    requires { HasReaders (entries rows.old) readers.now }
    ensures reached { OnOk result (IsReached (kept_of (standing rows.old)) touched.new.items (standing rows.new)) }
    ensures longer { OnOk result (IsLonger touched.old.items touched.new.items) }
    ensures entries { entries rows.new ≡ entries rows.old }
{
    invalidate_all(rows, touched.as_slice());
    let mut near = 0;
    let mut at = 0;
    while at < touched.len() {
        touch_readers(rows, readers, touched[at], touched, &mut near)?;
        at += 1;
    }
    let _ = rows.count();
    Ok(())
}

/// Keeps the result of a property, unless it has one. If its last result has read the same properties, the edges are there
/// already.
fn keep(rows: &mut KeptRows, readers: &mut Readers, row: CacheEntry) -> Result<(), AllocError>
    requires { HasReaders (entries rows.old) readers.old }
    ensures kept { OnOk result (AreKeptToo (row ∷ []) (standing rows.old) (standing rows.new)) }
    ensures readers { HasReaders (entries rows.new) readers.new }
{
    let Some(row) = rows.renew(row) else {
        return Ok(());
    };
    let_go(rows, readers, row.at);
    readers.add_all(row.kept.reads.as_slice(), row.at)?;
    rows.put(row)
}

fn keep_all(
    rows: &mut KeptRows,
    readers: &mut Readers,
    found: Vec<CacheEntry>,
) -> Result<(), AllocError>
    requires { HasReaders (entries rows.old) readers.old }
    ensures kept { OnOk result (AreKeptToo found.items (standing rows.old) (standing rows.new)) }
    ensures readers { HasReaders (entries rows.new) readers.new }
{
    for row in found {
        keep(rows, readers, row)?;
    }
    Ok(())
}

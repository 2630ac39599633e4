//! The properties of one object.
ghost use Rattle.std.specs.Prelude.{◌≡◌, ◌<◌, All, IsSome, Some, length};
ghost use Rattle.std.specs.Option.{option_map};
ghost use Rattle.shared_rows.specs.Table.{IsPlace, with_place};
ghost use Rattle.shared_rows.specs.Rows.{row_under, rows_at};
ghost use Rattle.property_store.specs.Store.{fields_in};
ghost use Rattle.property_store.specs.Inside.{IsCountUpTo, link_at, next_number, row_of, without_link};
ghost use Rattle.property_store.specs.Storing.{AreAsMany, IsNamed, IsStored, IsStoredUnder, IsUnlinked};

use crate::dynamic::Named;
use crate::field::{Field, field_number, fields_in, store};
use crate::link::{Head, Link};
use crate::links::Links;
use crate::property::Property;
use crate::unwritten::Unwritten;
use plain_types::{Code, Items};
use shared_rows::{Numbered, SharedRows};
use variant_value::{Args, Value};

/// An object with its properties.
#[derive(Drop)]
pub(crate) struct Row {
    pub(crate) object: u32,
    /// The number of its class.
    pub(crate) class: u32,
    /// The values of the declared properties, by their numbers.
    pub(crate) values: Args,
    /// One link per value. The links record which of the properties were written.
    pub(crate) links: Links,
    /// The dynamic properties, in the order in which they were first set.
    pub(crate) dynamic: Vec<Named>,
}

/// The change that a write has made.
#[derive(Clone, Copy)]
pub(crate) struct Stored {
    /// Whether the new value differs from the previous one.
    pub(crate) is_change: bool,
    /// Whether the property is linked now, and was not before.
    pub(crate) is_linked: bool,
}

impl Row {
    /// Stores a value in the property with a number, converted to its kind, and marks the property if that
    /// succeeds.
    #[inline(always)]
    pub(crate) fn write(
        &mut self,
        fields: &[Field],
        number: usize,
        value: Value,
        head: Head,
    ) -> Result<Stored, Code>
        requires { AreAsMany fields.now self.old }
        ensures { IsStored fields.now number value head self.old self.new result }
    {
        let is_change = match store(fields, &mut self.values, number, value) {
            Ok(is_change) => is_change,
            Err(code) => return Err(code),
        };
        let is_linked = number < fields.len() && self.links.mark(number, head);
        Ok(Stored {
            is_change,
            is_linked,
        })
    }

    /// Stores a value in the property with a name, converted to its kind, and marks the property if that
    /// succeeds.
    #[inline(always)]
    pub(crate) fn write_named(
        &mut self,
        fields: &[Field],
        name: &str,
        value: Value,
        head: Head,
    ) -> Result<(usize, Stored), Unwritten>
        requires { AreAsMany fields.now self.old }
        ensures { IsNamed fields.now name.now value head self.old self.new result }
    {
        let Some(number) = field_number(fields, name) else {
            return Err(Unwritten::Undeclared(value));
        };
        match self.write(fields, number, value, head) {
            Ok(stored) => Ok((number, stored)),
            Err(code) => Err(Unwritten::Refused(code)),
        }
    }
}

impl Numbered for Row {
    type Number = u32;

    ghost number = { λ row. row.object };

    fn number(&self) -> u32 {
        self.object
    }
}

/// The row of an object.
pub(crate) fn row_of(rows: &SharedRows<Row>, place: usize, object: u32) -> Option<&Row>
    requires { IsPlace rows.now place }
    ensures { option_map (λ row. row.now) result ≡ row_of (rows_at rows.now place) object }
{
    let key = rows.find(place, object as u64)?;
    Some(rows.get(place, key))
}

/// Writes to the row under a key, as [`write`](Row::write) does.
#[inline(always)]
pub(crate) fn write_under(
    rows: &mut SharedRows<Row>,
    layouts: &Items<Items<Field>>,
    place: usize,
    key: usize,
    number: usize,
    value: Value,
    head: Head,
) -> Result<Stored, Code>
    requires place { IsPlace rows.old place }
    requires stands { IsSome (row_under (rows_at rows.old place) key) }
    requires many { All (λ keyed. AreAsMany (fields_in layouts.now keyed.row.class) keyed.row) (rows_at rows.old place) }
    ensures { IsStoredUnder layouts.now rows.old rows.new place key number value head result }
{
    let write = |row: &mut Row| -> Result<Stored, Code>
        requires { AreAsMany (fields_in layouts.now row.now.class) row.now }
        ensures { IsStored (fields_in layouts.entry.now row.entry.now.class) number value head row.entry.now row.exit.now result }
    { row.write(fields_in(layouts, row.class), number, value, head) };
    rows.update(place, key, write)
}

/// Takes the mark of a property, and returns what its link was.
pub(crate) fn unlink(rows: &mut SharedRows<Row>, place: usize, at: Property) -> Link
    requires place { IsPlace rows.old place }
    requires stands { IsSome (link_at (rows_at rows.old place) at) }
    ensures link { link_at (rows_at rows.old place) at ≡ Some result }
    ensures rest { rows.new ≡ with_place rows.old place (without_link at (rows_at rows.old place)) }
{
    let key = rows.find(place, at.object as u64).unwrap();
    let number = at.number;
    let unlink = |row: &mut Row| -> Link
        requires { number < length row.now.links }
        ensures { IsUnlinked number row.entry.now row.exit.now result }
    { row.links.unlink(number) };
    rows.update(place, key, unlink)
}

/// The object of the least number above this one.
pub(crate) fn first_above(rows: &SharedRows<Row>, place: usize, after: u32) -> Option<u32>
    requires { IsPlace rows.now place }
    ensures { result ≡ next_number (rows_at rows.now place) after }
{
    let position = count_up_to(rows, place, after);
    if position == rows.len(place) {
        return None;
    }
    let (_, row) = rows.at(place, position);
    Some(row.object)
}

/// How many objects have this number or one below it.
fn count_up_to(rows: &SharedRows<Row>, place: usize, last: u32) -> usize
    requires { IsPlace rows.now place }
    ensures { IsCountUpTo (rows_at rows.now place) last result }
{
    let mut low = 0;
    let mut high = rows.len(place);
    while low < high {
        let middle = low + (high - low) / 2;
        let (_, row) = rows.at(place, middle);
        if row.object <= last {
            low = middle + 1;
        } else {
            high = middle;
        }
    }
    low
}

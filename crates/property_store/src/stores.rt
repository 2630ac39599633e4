//! The stores of all places.
ghost use Rattle.std.specs.Prelude.{◌≡◌, ◌≢◌, ◌&&◌, ◌<◌, ◌≤◌, ◌++◌, ◌∷◌, [], ℕ, IfOk, IfSome, None, OnOk, OnErr, Some};
ghost use Rattle.std.specs.Prelude.{if◌then◌else◌, is_some, length, nat_lt, not, option_and_then, slice_index_or};
ghost use Rattle.std.specs.Option.{option_map};
ghost use Rattle.std.specs.Result.{result_err};
ghost use Rattle.shared_rows.specs.Table.{IsPlace, MakesRoom, Opens, with_place};
ghost use Rattle.plain_types.specs.Answers.{RefusedBy};
ghost use Rattle.variant_value.specs.Values.{IsOfKind, IsShort};
ghost use Rattle.property_store.specs.Store.{AreDistinct, IsSound, Properties, added, changed, declared_in, dynamic_names};
ghost use Rattle.property_store.specs.Store.{dynamic_refusal, field_at, fields_in, is_change, named_value, next_object, properties_of, typed_value};
ghost use Rattle.property_store.specs.Store.{value_at, value_named, with_dynamic, without, without_dynamic, write_refusal, written};
ghost use Rattle.property_store.specs.Named.{answer_named, written_named};
ghost use Rattle.property_store.specs.Marks.{AreMarked, HasMarks, IsTaken, all_marks, has_marks, is_new, is_written, is_written_named, marks_at, no_marks};
ghost use Rattle.property_store.specs.Chain.{head_of, is_all, next_of};
ghost use Rattle.property_store.specs.Inside.{head_at};
ghost use Rattle.property_store.specs.Storing.{AreAsMany, IsNamed, IsRemoved, IsSet};
ghost use Rattle.property_store.specs.declared.link.Head.TheVariants.{First};
ghost use Rattle.property_store.specs.Table.{fields_of, store_at, with_store};

use crate::dynamic;
use crate::field::{Field, declared_in, defaults, field_number, fields_in, typed_value, value_at};
use crate::link::{Head, Link};
use crate::links::Links;
use crate::property::Property;
use crate::row::{Row, Stored, first_above, row_of, unlink, write_under};
use crate::unwritten::Unwritten;
use crate::written::Written;
use plain_types::{Code, Fault, Items, Text};
use shared_rows::{Places, SharedRows};
use signature_core::Kind;
use std::alloc::{AllocError, Global};
use std::marker::Model;
use variant_value::Value;

/// The properties of the objects of each place. A place is opened by `ready` and then `open`, and is
/// never closed.
#[derive(Drop)]
pub struct Stores {
    rows: SharedRows<Row>,
    heads: Places<Head>,
    layouts: Items<Items<Field>>,
    alloc: Global,
}

impl Model for Stores {
    ghost use Rattle.property_store.specs.Table.{StoresView};
    ghost use Rattle.property_store.specs.Inside.{IsKept, stock_of};

    ghost Value = { StoresView };

    ghost view = { λ stores. stock_of stores.layouts stores.rows stores.heads };

    ghost invariant = { λ stores. IsKept stores.layouts stores.rows stores.heads };
}

impl Stores {
    /// A table with no place, which takes no memory yet. Its objects are of classes that declare these
    /// properties; a class is known by its place among them.
    pub fn new(alloc: Global, layouts: Items<Items<Field>>) -> Stores
        ensures layouts { result.shelves.layouts ≡ layouts }
        ensures places { result.shelves.table.places ≡ [] }
        ensures marks { result.marks ≡ [] }
    {
        Stores {
            rows: SharedRows::new(alloc),
            heads: Places::new(alloc),
            layouts,
            alloc,
        }
    }

    /// Makes room for one more place at least.
    pub fn ready(&mut self) -> Result<(), AllocError>
        ensures layouts { self.new.shelves.layouts ≡ self.old.shelves.layouts }
        ensures table { MakesRoom self.old.shelves.table self.new.shelves.table result }
        ensures marks { self.new.marks ≡ self.old.marks }
    {
        self.rows.ready()?;
        self.heads.ready()
    }

    /// Opens the next place, with no object, and returns its number.
    pub fn open(&mut self) -> usize
        requires { 1 ≤ self.old.shelves.table.room }
        ensures layouts { self.new.shelves.layouts ≡ self.old.shelves.layouts }
        ensures table { Opens self.old.shelves.table [] self.new.shelves.table result }
        ensures marks { self.new.marks ≡ self.old.marks ++ no_marks ∷ [] }
    {
        self.heads.open(Head::None);
        self.rows.open()
    }

    /// Takes out all objects of a place.
    pub fn clear(&mut self, place: usize)
        requires { IsPlace self.old.shelves.table place }
        ensures stores { self.new.shelves ≡ with_store self.old.shelves place [] }
        ensures marks { HasMarks place all_marks self.old.marks self.new.marks }
    {
        self.rows.clear(place);
        *self.heads.get_mut(place) = Head::All;
    }

    /// Adds an object of a class, whose properties have the defaults of their kinds.
    pub fn add_object(&mut self, place: usize, object: u32, class: u32) -> Result<(), AllocError>
        requires place { IsPlace self.old.shelves.table place }
        requires absent { properties_of (store_at self.old.shelves place) object ≡ None }
        ensures ok { OnOk result (self.new.shelves
            ≡ with_store self.old.shelves place (added (store_at self.old.shelves place) object (fields_of self.old.shelves class))) }
        ensures err { OnErr result (self.new ≡ self.old) }
        ensures marks { OnOk result (AreMarked place (is_new object (fields_of self.old.shelves class)) self.old.marks self.new.marks) }
    {
        let fields = fields_in(&self.layouts, class);
        let count = fields.len();
        let head = *self.heads.get(place);
        let row = Row {
            object,
            class,
            values: defaults(self.alloc, fields)?,
            links: Links::new(self.alloc, object, count, head)?,
            dynamic: Vec::new(self.alloc),
        };
        self.rows.insert(place, row)?;
        set_first(
            &mut self.heads,
            place,
            are_linked(count, head),
            Property { object, number: 0 },
        );
        Ok(())
    }

    /// The declared properties of an object.
    pub fn fields(&self, place: usize, object: u32) -> Option<&[Field]>
        requires { IsPlace self.now.shelves.table place }
        ensures { option_map (λ fields. fields.now) result ≡ option_map (λ of. of.fields) (properties_of (store_at self.now.shelves place) object) }
    {
        let row = row_of(&self.rows, place, object)?;
        Some(fields_in(&self.layouts, row.class))
    }

    /// The object of the least number above this one. With 0 first, it goes over all objects.
    pub fn next_object(&self, place: usize, after: u32) -> Option<u32>
        requires { IsPlace self.now.shelves.table place }
        ensures { result ≡ next_object (store_at self.now.shelves place) after }
    {
        first_above(&self.rows, place, after)
    }

    /// The object at a position, and its declared properties. Objects are ordered by number, from position 0.
    pub fn object_at(&self, place: usize, position: usize) -> (u32, &[Field])
        requires place { IsPlace self.now.shelves.table place }
        requires stands { position < length (store_at self.now.shelves place) }
        ensures object { (default : Properties) → result.0 ≡ (slice_index_or (store_at self.now.shelves place) position default).object }
        ensures fields { (default : Properties) → result.1.now ≡ (slice_index_or (store_at self.now.shelves place) position default).fields }
    {
        let (_, row) = self.rows.at(place, position);
        (row.object, fields_in(&self.layouts, row.class))
    }

    /// The number and the kind of the declared property of this name.
    pub fn declared(&self, place: usize, object: u32, name: &str) -> Option<(usize, Kind)>
        requires { IsPlace self.now.shelves.table place }
        ensures { result ≡ option_and_then (λ of. declared_in name.now of.fields) (properties_of (store_at self.now.shelves place) object) }
    {
        let row = row_of(&self.rows, place, object)?;
        declared_in(fields_in(&self.layouts, row.class), name)
    }

    /// The value of the declared property of this number.
    pub fn value(&self, place: usize, object: u32, number: usize) -> Option<&Value>
        requires { IsPlace self.now.shelves.table place }
        ensures value { option_map (λ value. value.now) result ≡ value_at (store_at self.now.shelves place) object number }
        ensures kind { IfSome result (λ value. IfSome (field_at (store_at self.now.shelves place) object number) (λ field. IsOfKind field.kind value.now)) }
    {
        let row = row_of(&self.rows, place, object)?;
        value_at(&row.values, number)
    }

    /// The kind of the declared property of this number, and its value.
    pub fn typed_value(&self, place: usize, object: u32, number: usize) -> Option<(Kind, &Value)>
        requires { IsPlace self.now.shelves.table place }
        ensures { option_map {U = Kind × Value} (λ typed. (typed.0, typed.1.now)) result
            ≡ option_and_then (typed_value number) (properties_of (store_at self.now.shelves place) object) }
    {
        let row = row_of(&self.rows, place, object)?;
        typed_value(fields_in(&self.layouts, row.class), &row.values, number)
    }

    /// Sets the declared property with this number to a value, converted to its kind, and returns whether
    /// that changed it. A value that cannot be converted is `BadValue`. Allocates nothing.
    pub fn write(
        &mut self,
        place: usize,
        object: u32,
        number: usize,
        value: Value,
    ) -> Result<bool, Code>
        requires place { IsPlace self.old.shelves.table place }
        requires short { IsShort value }
        ensures refused { result_err result ≡ write_refusal (store_at self.old.shelves place) object number value }
        ensures answer { IfOk result (λ answer. answer ≡ is_change (store_at self.old.shelves place) object number value) }
        ensures new { self.new.shelves ≡ with_store self.old.shelves place (written (store_at self.old.shelves place) object number value) }
        ensures err { OnErr result (self.new ≡ self.old) }
        ensures marks { AreMarked place (is_written (store_at self.old.shelves place) object number value) self.old.marks self.new.marks }
    {
        let Some(key) = self.rows.find(place, object as u64) else {
            return Ok(false);
        };
        let head = *self.heads.get(place);
        let written = Property { object, number };
        let stored = match write_under(
            &mut self.rows,
            &self.layouts,
            place,
            key,
            number,
            value,
            head,
        ) {
            Ok(stored) => stored,
            Err(code) => return Err(code),
        };
        set_first(&mut self.heads, place, stored.is_linked, written);
        Ok(stored.is_change)
    }

    /// Sets the declared property with this name to a value, like [`write`](Stores::write), and returns its
    /// number and whether its value has changed.
    pub fn write_named(
        &mut self,
        place: usize,
        object: u32,
        name: &str,
        value: Value,
    ) -> Result<(usize, bool), Unwritten>
        requires place { IsPlace self.old.shelves.table place }
        requires short { IsShort value }
        ensures answer { result ≡ answer_named (store_at self.old.shelves place) object name.now value }
        ensures new { self.new.shelves ≡ with_store self.old.shelves place (written_named (store_at self.old.shelves place) object name.now value) }
        ensures err { OnErr result (self.new ≡ self.old) }
        ensures marks { AreMarked place (is_written_named (store_at self.old.shelves place) object name.now value) self.old.marks self.new.marks }
    {
        let Some(key) = self.rows.find(place, object as u64) else {
            return Err(Unwritten::Undeclared(value));
        };
        let layouts = &self.layouts;
        let head = *self.heads.get(place);
        let write = |row: &mut Row| -> Result<(usize, Stored), Unwritten>
            requires { AreAsMany (fields_in layouts.now row.now.class) row.now }
            ensures { IsNamed (fields_in layouts.entry.now row.entry.now.class) name.entry.now value head row.entry.now row.exit.now result }
        { row.write_named(fields_in(layouts, row.class), name, value, head) };
        let (number, stored) = match self.rows.update(place, key, write) {
            Ok(stored) => stored,
            Err(unwritten) => return Err(unwritten),
        };
        let written = Property { object, number };
        set_first(&mut self.heads, place, stored.is_linked, written);
        Ok((number, stored.is_change))
    }

    /// A copy of the value of the property with this name, declared or dynamic, or `Invalid` if there is no
    /// such property.
    pub fn read(&self, place: usize, object: u32, name: &str) -> Result<Value, AllocError>
        requires { IsPlace self.now.shelves.table place }
        ensures { IfOk result (λ value. value ≡ value_named (store_at self.now.shelves place) object name.now) }
    {
        match self.value_named(place, object, name) {
            Some(value) => value.copy(self.alloc),
            None => Ok(Value::Invalid),
        }
    }

    /// Sets the dynamic property with this name, or adds it if the object has none. More than `DYNAMIC` of
    /// one object are `Limit`.
    pub fn set_dynamic(
        &mut self,
        place: usize,
        object: u32,
        name: Text,
        value: Value,
    ) -> Result<(), Fault>
        requires place { IsPlace self.old.shelves.table place }
        requires short { IsShort value }
        ensures refused { RefusedBy (dynamic_refusal (store_at self.old.shelves place) object name) result }
        ensures ok { OnOk result (self.new.shelves
            ≡ with_store self.old.shelves place (changed (with_dynamic name value) object (store_at self.old.shelves place))) }
        ensures err { OnErr result (self.new ≡ self.old) }
        ensures marks { self.new.marks ≡ self.old.marks }
    {
        let Some(key) = self.rows.find(place, object as u64) else {
            return Ok(());
        };
        let set = |row: &mut Row| -> Result<(), Fault>
            ensures { IsSet name value row.entry.now row.exit.now result }
        { dynamic::set(&mut row.dynamic, name, value) };
        self.rows.update(place, key, set)
    }

    /// Takes out the dynamic property of this name.
    pub fn remove_dynamic(&mut self, place: usize, object: u32, name: &str)
        requires { IsPlace self.old.shelves.table place }
        ensures stores { self.new.shelves ≡ with_store self.old.shelves place (changed (without_dynamic name.now) object (store_at self.old.shelves place)) }
        ensures marks { self.new.marks ≡ self.old.marks }
    {
        let Some(key) = self.rows.find(place, object as u64) else {
            return;
        };
        let remove = |row: &mut Row|
            requires { AreDistinct row.now.dynamic.items }
            ensures { IsRemoved name.entry.now row.entry.now row.exit.now }
        { dynamic::remove(&mut row.dynamic, name) };
        self.rows.update(place, key, remove);
    }

    /// Copies of the names of an object's dynamic properties, in the order in which they were first set.
    pub fn dynamic_names(&self, place: usize, object: u32) -> Result<Items<Text>, AllocError>
        requires { IsPlace self.now.shelves.table place }
        ensures { IfOk result (λ names. names ≡ dynamic_names (store_at self.now.shelves place) object) }
    {
        match row_of(&self.rows, place, object) {
            Some(row) => dynamic::names(self.alloc, row.dynamic.as_slice()),
            None => Ok(Items::new(self.alloc)),
        }
    }

    /// Takes an object out.
    pub fn drop_object(&mut self, place: usize, object: u32)
        requires { IsPlace self.old.shelves.table place }
        ensures stores { self.new.shelves ≡ with_store self.old.shelves place (without object (store_at self.old.shelves place)) }
        ensures marks { HasMarks place (if is_some (properties_of (store_at self.old.shelves place) object) then all_marks
            else marks_at self.old.marks place) self.old.marks self.new.marks }
    {
        if self.fields(place, object).is_some() {
            self.take_all(place);
            self.take_out(place, object);
        }
    }

    /// Takes each mark of a place. Each was paid for by what marked it.
    fn take_all(&mut self, place: usize)
        requires { IsPlace self.old.shelves.table place }
        ensures shelves { self.new.shelves ≡ self.old.shelves }
        ensures marks { HasMarks place no_marks self.old.marks self.new.marks }
    {
        'marks: while let Written::One(_) = self.take_written(place) {}
    }

    /// Removes an object from a place without marks, and marks all.
    fn take_out(&mut self, place: usize, object: u32)
        requires place { IsPlace self.old.shelves.table place }
        requires unmarked { marks_at self.old.marks place ≡ no_marks }
        ensures stores { self.new.shelves ≡ with_store self.old.shelves place (without object (store_at self.old.shelves place)) }
        ensures marks { HasMarks place all_marks self.old.marks self.new.marks }
    {
        let head = self.heads.get_mut(place);
        *head = Head::All;
        if let Some(row) = self.rows.take(place, object as u64) {
            drop(row);
        }
    }

    /// Takes one mark of what was written at a place, or all of them if objects were removed. Allocates nothing.
    pub fn take_written(&mut self, place: usize) -> Written
        requires { IsPlace self.old.shelves.table place }
        ensures shelves { self.new.shelves ≡ self.old.shelves }
        ensures taken { IsTaken (marks_at self.old.marks place) (marks_at self.new.marks place) result }
        ensures others { (other : ℕ) → other ≢ place → marks_at self.new.marks other ≡ marks_at self.old.marks other }
    {
        match *self.heads.get(place) {
            Head::None => Written::None,
            Head::All => {
                *self.heads.get_mut(place) = Head::None;
                Written::All
            }
            Head::First(at) => {
                let link = unlink(&mut self.rows, place, at);
                *self.heads.get_mut(place) = head_behind(link);
                Written::One(at)
            }
        }
    }

    /// Whether [`take_written`](Stores::take_written) would return anything but `Written::None`.
    pub fn has_written(&self, place: usize) -> bool
        requires { IsPlace self.now.shelves.table place }
        ensures { result ≡ has_marks (marks_at self.now.marks place) }
    {
        !matches!(*self.heads.get(place), Head::None)
    }

    /// How many objects there are. It also ensures that the store is sound.
    pub fn count(&self, place: usize) -> usize
        requires { IsPlace self.now.shelves.table place }
        ensures count { result ≡ length (store_at self.now.shelves place) }
        ensures sound { IsSound (store_at self.now.shelves place) }
    {
        self.rows.len(place)
    }

    /// The value of the property of this name.
    pub fn value_named(&self, place: usize, object: u32, name: &str) -> Option<&Value>
        requires { IsPlace self.now.shelves.table place }
        ensures { option_map (λ value. value.now) result ≡ option_and_then (named_value name.now) (properties_of (store_at self.now.shelves place) object) }
    {
        let row = row_of(&self.rows, place, object)?;
        match field_number(fields_in(&self.layouts, row.class), name) {
            Some(number) => value_at(&row.values, number),
            None => dynamic::value_of(row.dynamic.as_slice(), name),
        }
    }
}

/// Makes a property the first of a place, where it was linked to what was the first.
#[inline(always)]
fn set_first(heads: &mut Places<Head>, place: usize, is_linked: bool, first: Property)
    requires { IsPlace heads.old place }
    ensures { heads.new ≡ with_place heads.old place (if is_linked then First first else head_at heads.old place) }
{
    if is_linked {
        *heads.get_mut(place) = Head::First(first);
    }
}

/// Whether the properties of a new object, which are so many, are linked.
fn are_linked(count: usize, head: Head) -> bool
    ensures { result ≡ (nat_lt 0 count && not (is_all head)) }
{
    match head {
        Head::All => false,
        Head::None | Head::First(_) => count > 0,
    }
}

/// The head where the property of this link is taken out.
fn head_behind(link: Link) -> Head
    ensures { result ≡ head_of (next_of (Some link)) }
{
    match link {
        Link::Before(at) => Head::First(at),
        Link::Last | Link::Unmarked => Head::None,
    }
}

//! Tests of the properties of objects.
ghost use Rattle.std.specs.Prelude.{◌≡◌, ◌<◌, [], OnOk, length};

use crate::benches::{Bench, are_answered, fields_of};
use plain_types::{Fault, Items, Text};
use property_store::{Field, Stores, Written};
use signature_core::Kind;
use std::alloc::{AllocError, Global};
use std::test::Fail;
use variant_value::Value;

/// A test asks this about object 3.
#[derive(Clone, Copy)]
enum Asked {
    /// Whether it is a change, or 2 where it is refused.
    Write(usize, i64),
    ValueAt(usize),
    Read(&'static str),
    /// The number of the declared property of a name, or 9 where no declared property has that name.
    NumberOf(&'static str),
    /// How many declared properties it has.
    Fields,
    /// 1, or 2 where it is refused.
    SetDynamic(&'static str, i32),
    RemoveDynamic(&'static str),
    /// How many dynamic properties it has.
    DynamicNames,
    Next(u32),
    /// The sum over three calls: 1 for its property 0, 10 for another property, 100 for all.
    TakeWritten,
    HasWritten,
    DropObject,
    Clear,
}

use Asked::*;

/// A table with two places; objects 3 and 5 are in the first one.
#[derive(Drop)]
struct Properties {
    table: Stores,
    alloc: Global,
    ghost two: { length table.shelves.table.places ≡ 2 },
}

impl Bench for Properties {
    type Asked = Asked;

    fn new(alloc: Global) -> Result<Properties, AllocError> {
        let mut table = Stores::new(alloc, layouts(alloc)?);
        open_places(&mut table)?;
        Ok(Properties { table, alloc })
    }

    fn ask(&mut self, place: usize, asked: Asked) -> Result<u64, AllocError> {
        let place = place.min(1);
        match asked {
            Write(number, value) => Ok(self.write(place, number, value)),
            ValueAt(number) => Ok(told(self.table.value(place, 3, number))),
            Read(name) => self.read(place, name),
            NumberOf(name) => Ok(self.number_of(place, name)),
            Fields => Ok(self.fields(place)),
            SetDynamic(name, value) => self.set_dynamic(place, name, value),
            RemoveDynamic(name) => {
                self.table.remove_dynamic(place, 3, name);
                Ok(0)
            }
            DynamicNames => self.dynamic_names(place),
            Next(after) => Ok(self.table.next_object(place, after).unwrap_or(0) as u64),
            TakeWritten => Ok(self.take_written(place)),
            HasWritten => Ok(self.table.has_written(place) as u64),
            DropObject => Ok(self.drop_object(place)),
            Clear => Ok(self.clear(place)),
        }
    }
}

impl Properties {
    fn write(&mut self, place: usize, number: usize, value: i64) -> u64
        requires { place < length self.old.table.shelves.table.places }
    {
        match self.table.write(place, 3, number, Value::Longlong(value)) {
            Ok(is_change) => is_change as u64,
            Err(_) => 2,
        }
    }

    fn read(&self, place: usize, name: &str) -> Result<u64, AllocError>
        requires { place < length self.now.table.shelves.table.places }
    {
        let value = self.table.read(place, 3, name)?;
        Ok(told(Some(&value)))
    }

    fn number_of(&self, place: usize, name: &str) -> u64
        requires { place < length self.now.table.shelves.table.places }
    {
        match self.table.declared(place, 3, name) {
            Some((number, _)) => number as u64,
            None => 9,
        }
    }

    fn fields(&self, place: usize) -> u64
        requires { place < length self.now.table.shelves.table.places }
    {
        match self.table.fields(place, 3) {
            Some(fields) => fields.len() as u64,
            None => 9,
        }
    }

    fn dynamic_names(&self, place: usize) -> Result<u64, AllocError>
        requires { place < length self.now.table.shelves.table.places }
    {
        let names = self.table.dynamic_names(place, 3)?;
        Ok(names.len() as u64)
    }

    fn set_dynamic(&mut self, place: usize, name: &str, value: i32) -> Result<u64, AllocError>
        requires { place < length self.old.table.shelves.table.places }
    {
        let name = Text::from_str(self.alloc, name)?;
        match self.table.set_dynamic(place, 3, name, Value::Int(value)) {
            Ok(()) => Ok(1),
            Err(Fault::Refused(_)) => Ok(2),
            Err(Fault::Memory) => Err(AllocError),
        }
    }

    fn take_written(&mut self, place: usize) -> u64
        requires { place < 2 }
    {
        let first = self.take_one(place);
        let second = self.take_one(place);
        let third = self.take_one(place);
        first.wrapping_add(second).wrapping_add(third)
    }

    fn take_one(&mut self, place: usize) -> u64
        requires { place < length self.old.table.shelves.table.places }
    {
        match self.table.take_written(place) {
            Written::None => 0,
            Written::One(at) if at.number == 0 => 1,
            Written::One(_) => 10,
            Written::All => 100,
        }
    }

    fn drop_object(&mut self, place: usize) -> u64
        requires { place < length self.old.table.shelves.table.places }
    {
        self.table.drop_object(place, 3);
        self.table.count(place) as u64
    }

    fn clear(&mut self, place: usize) -> u64
        requires { place < length self.old.table.shelves.table.places }
    {
        self.table.clear(place);
        self.table.count(place) as u64
    }
}

/// Opens two places, and adds an object of each class to the first.
fn open_places(table: &mut Stores) -> Result<(), AllocError>
    requires { table.old.shelves.table.places ≡ [] }
    ensures { OnOk result (length table.new.shelves.table.places ≡ 2) }
{
    table.ready()?;
    table.open();
    table.add_object(0, 3, 0)?;
    table.add_object(0, 5, 1)?;
    table.ready()?;
    table.open();
    Ok(())
}

/// Class 0 has an int and a qlonglong, and class 1 has nothing.
fn layouts(alloc: Global) -> Result<Items<Items<Field>>, AllocError> {
    let fields = [("level", Kind::Int, true), ("wide", Kind::Longlong, true)];
    let mut layouts = Items::new(alloc);
    layouts.push(fields_of(alloc, &fields)?)?;
    layouts.push(Items::new(alloc))?;
    Ok(layouts)
}

/// The whole number that a value is, without its sign; 0 for any other.
fn told(value: Option<&Value>) -> u64 {
    match value {
        Some(Value::Int(number)) => number.unsigned_abs() as u64,
        Some(Value::Longlong(number)) => number.unsigned_abs(),
        _ => 0,
    }
}

/// A place, what is asked of it, and what is answered.
type Case = (usize, Asked, u64);

const AS_WRITTEN: &[Case] = &[
    (0, Fields, 2),
    (1, Fields, 9),
    (0, NumberOf("wide"), 1),
    (0, NumberOf("width"), 9),
    (0, ValueAt(0), 0),
    (0, Write(0, 7), 1),
    (0, Write(0, 7), 0),
    (0, Write(0, 1 << 40), 2),
    (0, Write(1, 1 << 40), 1),
    (0, Write(2, 1), 0),
    (0, ValueAt(1), 1 << 40),
    (0, Read("level"), 7),
    (0, SetDynamic("level", 4), 1),
    (0, SetDynamic("extra", 5), 1),
    (0, SetDynamic("extra", 6), 1),
    (0, DynamicNames, 2),
    (0, Read("level"), 7),
    (0, Read("extra"), 6),
    (0, RemoveDynamic("extra"), 0),
    (0, Read("extra"), 0),
    (0, DynamicNames, 1),
    (0, Next(0), 3),
    (0, Next(3), 5),
    (0, Next(5), 0),
    (1, Next(0), 0),
    (0, DropObject, 1),
    (0, Read("level"), 0),
    (0, Clear, 0),
];

#[test]
fn properties_are_read_as_they_were_written(rt: HostRuntime) -> Result<(), Fail> {
    assert!(rt; are_answered::<Properties>(rt.alloc(), AS_WRITTEN)?);
    Ok(())
}

const AS_MARKED: &[Case] = &[
    (0, HasWritten, 1),
    (1, HasWritten, 0),
    // A new object's properties count as written, each once.
    (0, TakeWritten, 11),
    (0, HasWritten, 0),
    (0, TakeWritten, 0),
    (0, Write(0, 7), 1),
    (0, Write(0, 8), 1),
    (0, HasWritten, 1),
    (1, HasWritten, 0),
    (0, TakeWritten, 1),
    // So does a write of the value that stands, and none that is refused.
    (0, Write(1, 0), 0),
    (0, TakeWritten, 10),
    (0, Write(0, 1 << 40), 2),
    (0, SetDynamic("extra", 5), 1),
    (0, HasWritten, 0),
    (0, Write(1, 3), 1),
    (0, Write(0, 9), 1),
    (0, TakeWritten, 11),
    // Where an object goes there is one mark for all.
    (0, Write(0, 1), 1),
    (0, DropObject, 1),
    (0, HasWritten, 1),
    (0, TakeWritten, 100),
    (0, HasWritten, 0),
    (0, DropObject, 1),
    (0, HasWritten, 0),
    (0, Clear, 0),
    (0, TakeWritten, 100),
];

#[test]
fn what_was_written_is_told_once(rt: HostRuntime) -> Result<(), Fail> {
    assert!(rt; are_answered::<Properties>(rt.alloc(), AS_MARKED)?);
    Ok(())
}

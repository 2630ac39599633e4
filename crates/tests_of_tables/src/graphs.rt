//! These tests look at what bindings and groups of two places show and tell, call by call.
ghost use Rattle.std.specs.Prelude.{◌≡◌, ◌+◌, ◌<◌, [], OnOk, length};
ghost use Rattle.binding_graph.specs.Step.{InStep};
ghost use Rattle.tests_of_tables.specs.Opened.{AreTwo};

use crate::benches::{Bench, are_answered, digit_behind, fields_of};
use binding_graph::{Bindings, law_openings, law_steps};
use binding_values::{BindingError, Change, ChangeKind, is_bindable};
use plain_types::{Code, Fault, Items, Text};
use property_store::{Field, Property, Stores};
use signature_core::Kind;
use std::alloc::{AllocError, Global};
use std::marker::Model;
use std::test::Fail;
use term_core::Expr;
use variant_value::Value;

/// A test asks this of an object's property.
#[derive(Clone, Copy)]
enum Asked {
    /// Whether it is a change.
    Write(u32, usize, i32),
    /// 0, or the number of the code.
    Bind(u32, usize, &'static str),
    /// Whether it was bound.
    Take(u32, usize),
    /// The value, followed by one digit: 0 for no error, 1 for a loop, 2 for another error.
    ValueOf(u32, usize),
    /// Settles after a write of this property, or of no property where the object is 0. Four digits for each
    /// change: 1 for an error or 2 for a value, the object, the property's number, and the error as above or the value.
    Settle(u32, usize),
    /// The depth, or 100 plus the number of the code.
    Begin,
    End,
    /// Adds an object.
    Add(u32),
    /// Removes an object. Digits for each change, as for `Settle`.
    Remove(u32),
    Clear,
    Count,
    Depth,
    /// How many evaluations settlings have made.
    Evaluations,
}

use Asked::*;

/// Two places, with objects 1 and 2 and with object 1, of a class that declares `x`, `y`, `n`, which cannot be bound,
/// and the text `t`.
#[derive(Drop)]
struct Graphs {
    stores: Stores,
    bindings: Bindings,
    alloc: Global,
}

impl Model for Graphs {
    ghost Value = { Unit };

    ghost view = { λ graphs. tt };

    ghost invariant = { λ graphs. AreTwo graphs.stores graphs.bindings };
}

fn layouts(alloc: Global) -> Result<Items<Items<Field>>, AllocError> {
    let fields = [
        ("x", Kind::Int, true),
        ("y", Kind::Int, true),
        ("n", Kind::Int, false),
        ("t", Kind::Text, true),
    ];
    let mut layouts = Items::new(alloc);
    layouts.push(fields_of(alloc, &fields)?)?;
    Ok(layouts)
}

/// Opens a place in both tables.
fn open_place(stores: &mut Stores, bindings: &mut Bindings) -> Result<(), AllocError>
    requires { InStep stores.old bindings.old }
    ensures step { InStep stores.new bindings.new }
    ensures stores { OnOk result (length stores.new.shelves.table.places ≡ length stores.old.shelves.table.places + 1) }
    ensures graphs { OnOk result (length bindings.new.graphs.places ≡ length bindings.old.graphs.places + 1) }
{
    law_openings();
    stores.ready()?;
    bindings.ready()?;
    bindings.open();
    stores.open();
    Ok(())
}

/// Adds an object, where it is not there.
fn add(
    stores: &mut Stores,
    bindings: &Bindings,
    place: usize,
    object: u32,
) -> Result<(), AllocError>
    requires place { place < length stores.old.shelves.table.places }
    requires step { InStep stores.old bindings.now }
    ensures step { InStep stores.new bindings.now }
    ensures places { length stores.new.shelves.table.places ≡ length stores.old.shelves.table.places }
{
    law_steps();
    if stores.fields(place, object).is_some() {
        return Ok(());
    }
    stores.add_object(place, object, 0)
}

impl Bench for Graphs {
    type Asked = Asked;

    fn new(alloc: Global) -> Result<Graphs, AllocError> {
        let mut stores = Stores::new(alloc, layouts(alloc)?);
        let mut bindings = Bindings::new(alloc);
        open_place(&mut stores, &mut bindings)?;
        open_place(&mut stores, &mut bindings)?;
        add(&mut stores, &bindings, 0, 1)?;
        add(&mut stores, &bindings, 0, 2)?;
        add(&mut stores, &bindings, 1, 1)?;
        Ok(Graphs {
            stores,
            bindings,
            alloc,
        })
    }

    fn ask(&mut self, place: usize, asked: Asked) -> Result<u64, AllocError> {
        let place = place.min(1);
        match asked {
            Write(object, number, value) => {
                Ok(self.write(place, Property { object, number }, value))
            }
            Bind(object, number, text) => self.bind(place, Property { object, number }, text),
            Take(object, number) => self.take(place, Property { object, number }),
            ValueOf(object, number) => self.value(place, Property { object, number }),
            Settle(object, number) => self.settle(place, Property { object, number }),
            Begin => self.begin(place),
            End => Ok(self.end(place)),
            Add(object) => self.add(place, object),
            Remove(object) => self.remove(place, object),
            Clear => Ok(self.clear(place)),
            Count => Ok(self.bindings.count(place) as u64),
            Depth => Ok(self.bindings.depth(place) as u64),
            Evaluations => Ok(self.bindings.evaluations(place)),
        }
    }
}

impl Graphs {
    fn write(&mut self, place: usize, at: Property, value: i32) -> u64
        requires { place < 2 }
    {
        law_steps();
        let change = self
            .stores
            .write(place, at.object, at.number, Value::Int(value));
        change.unwrap_or(false) as u64
    }

    fn bind(&mut self, place: usize, at: Property, text: &str) -> Result<u64, AllocError>
        requires { place < 2 }
    {
        let Ok(json) = serde_json::Value::from_str(self.alloc, text) else {
            return Err(AllocError);
        };
        let expr = match Expr::from_json(self.alloc, &json) {
            Ok(expr) => expr,
            Err(fault) => return number_of(fault),
        };
        if !is_bindable(&self.stores, place, at) {
            return Ok(18);
        }
        match self.bindings.bind(place, &self.stores, at, expr) {
            Ok(()) => Ok(0),
            Err(fault) => number_of(fault),
        }
    }

    fn take(&mut self, place: usize, at: Property) -> Result<u64, AllocError>
        requires { place < 2 }
    {
        Ok(self.bindings.take(place, &mut self.stores, at)? as u64)
    }

    fn value(&self, place: usize, at: Property) -> Result<u64, AllocError>
        requires { place < 2 }
    {
        let (value, error) = self.bindings.value(place, &self.stores, at)?;
        let error = match error {
            Some(error) => digit_of(error),
            None => 0,
        };
        Ok(digit_behind(told(&value), error))
    }

    fn settle(&mut self, place: usize, written: Property) -> Result<u64, AllocError>
        requires { place < 2 }
    {
        let written = match written.object {
            0 => None,
            _ => Some(written),
        };
        let changes = self.bindings.settle(place, &mut self.stores, written)?;
        Ok(told_of(changes.as_slice()))
    }

    fn begin(&mut self, place: usize) -> Result<u64, AllocError>
        requires { place < 2 }
    {
        match self.bindings.begin(place, &mut self.stores) {
            Ok(depth) => Ok(depth as u64),
            Err(fault) => number_of(fault),
        }
    }

    fn end(&mut self, place: usize) -> u64
        requires { place < 2 }
    {
        match self.bindings.end(place, &self.stores) {
            Ok(depth) => depth as u64,
            Err(_) => 117,
        }
    }

    fn add(&mut self, place: usize, object: u32) -> Result<u64, AllocError>
        requires { place < 2 }
    {
        add(&mut self.stores, &self.bindings, place, object)?;
        Ok(0)
    }

    fn remove(&mut self, place: usize, object: u32) -> Result<u64, AllocError>
        requires { place < 2 }
    {
        let changes = self.bindings.remove(place, &mut self.stores, object)?;
        Ok(told_of(changes.as_slice()))
    }

    fn clear(&mut self, place: usize) -> u64
        requires { place < 2 }
    {
        self.bindings.clear(place);
        self.bindings.count(place) as u64
    }
}

fn told_of(changes: &[Change]) -> u64 {
    let mut digits = 0;
    for change in changes {
        digits = behind(digits, change);
    }
    digits
}

/// The digits with the four of another change appended.
fn behind(digits: u64, change: &Change) -> u64 {
    let (kind, digit) = match &change.told {
        ChangeKind::Error(error) => (1, digit_of(*error)),
        ChangeKind::Value(value) => (2, told(value)),
    };
    let at = change.at;
    let digits = digit_behind(digit_behind(digits, kind), at.object as u64);
    digit_behind(digit_behind(digits, at.number as u64), digit)
}

fn digit_of(error: BindingError) -> u64 {
    match error {
        BindingError::BindingLoop => 1,
        BindingError::EvaluationError => 2,
    }
}

/// The whole number that a value is, without its sign, or the length of a text.
fn told(value: &Value) -> u64 {
    match value {
        Value::Int(number) => number.unsigned_abs() as u64,
        Value::Text(text) => text.len() as u64,
        _ => 0,
    }
}

fn number_of(fault: Fault) -> Result<u64, AllocError> {
    match fault {
        Fault::Refused(Code::Limit) => Ok(114),
        Fault::Refused(_) => Ok(122),
        Fault::Memory => Err(AllocError),
    }
}

/// A place, what is asked of it, and what is answered.
type Case = (usize, Asked, u64);

const SUM: &str = r#"{"+":[{"prop":"y"},{"const":1}]}"#;

const OTHERS: &str = r#"{"+":[{"prop":"x","of":1},{"prop":"x","of":2}]}"#;

const X: &str = r#"{"prop":"x"}"#;

const CHOICE: &str =
    r#"{"if":[{"<":[{"prop":"y","of":2},{"const":5}]},{"prop":"y","of":2},{"prop":"x"}]}"#;

const AS_BOUND: &[Case] = &[
    (0, Settle(0, 0), 0),
    (0, Bind(1, 0, SUM), 0),
    (0, Bind(1, 2, SUM), 18),
    (0, Bind(3, 0, SUM), 18),
    (0, Count, 1),
    (1, Count, 0),
    (0, ValueOf(1, 0), 10),
    (0, Settle(1, 0), 2101),
    (0, Settle(1, 0), 0),
    // What was written is told first, then what follows from it, by numbers.
    (0, Write(1, 1, 4), 1),
    (0, Settle(1, 1), 2114_2105),
    (0, Bind(2, 1, OTHERS), 0),
    (0, ValueOf(2, 1), 50),
    (0, Settle(2, 1), 2215),
    // Two that read each other are loops, and so is what reads one of them.
    (0, Write(1, 1, 0), 1),
    (0, Settle(1, 1), 2110_2101_2211),
    (0, Bind(1, 1, X), 0),
    (0, ValueOf(1, 0), 1),
    (0, ValueOf(2, 1), 1),
    (0, Settle(1, 1), 1111_1101_1211_2100_2210),
    // The error stays, and is not told again.
    (0, Write(2, 0, 3), 1),
    (0, Settle(2, 0), 2203),
    // A loop that is not read is none.
    (0, Bind(1, 1, CHOICE), 0),
    (0, Take(2, 1), 1),
    (0, Write(2, 1, 4), 1),
    (0, ValueOf(1, 1), 40),
    (0, ValueOf(1, 0), 50),
    (0, Write(2, 1, 6), 1),
    (0, ValueOf(1, 1), 1),
    (0, Write(2, 1, 2), 1),
    // A property that may not be read, and a text in place of a number, are errors of their own.
    (0, Bind(1, 0, r#"{"prop":"n"}"#), 0),
    (0, ValueOf(1, 0), 2),
    (0, Bind(1, 0, r#"{"const":"a"}"#), 0),
    (0, ValueOf(1, 0), 2),
    (
        0,
        Bind(1, 3, r#"{"cat":[{"const":"ab"},{"const":"c"}]}"#),
        0,
    ),
    (0, ValueOf(1, 3), 30),
    (0, ValueOf(3, 0), 0),
    // What is taken keeps its value.
    (0, Take(1, 1), 1),
    (0, Take(1, 1), 0),
    (0, Write(2, 1, 9), 1),
    (0, ValueOf(1, 1), 20),
    (0, Remove(1), 2219),
    (0, ValueOf(1, 3), 0),
    (0, Settle(0, 0), 0),
    (0, Clear, 0),
];

const IN_GROUPS: &[Case] = &[
    (0, End, 117),
    (0, Bind(1, 0, SUM), 0),
    (0, Settle(1, 0), 2101),
    (0, Begin, 1),
    (0, Write(1, 1, 4), 1),
    (0, Settle(1, 1), 0),
    (0, ValueOf(1, 1), 40),
    (0, ValueOf(1, 0), 10),
    (0, Begin, 2),
    (0, Write(1, 1, 6), 1),
    (0, End, 1),
    (0, Settle(0, 0), 0),
    (0, ValueOf(1, 0), 10),
    (0, Depth, 1),
    (1, Depth, 0),
    (0, Bind(2, 0, X), 0),
    (0, Bind(2, 1, SUM), 0),
    (0, ValueOf(2, 0), 0),
    (0, End, 0),
    // By numbers alone: both loops first.
    (0, Settle(0, 0), 1201_1211_2107_2116),
    // In a group a bound property keeps what it reads there.
    (0, Begin, 1),
    (0, Write(1, 1, 8), 1),
    (0, Take(1, 0), 1),
    (0, ValueOf(1, 0), 70),
    (0, Clear, 0),
    (0, Depth, 0),
];

const EVALUATED: &[Case] = &[
    (0, Bind(1, 0, SUM), 0),
    (0, Evaluations, 0),
    (0, Settle(1, 0), 2101),
    (0, Evaluations, 1),
    (0, Settle(0, 0), 0),
    (0, Evaluations, 1),
    (0, Write(1, 1, 4), 1),
    (0, Settle(1, 1), 2114_2105),
    (0, Evaluations, 2),
    // Nothing reads this.
    (0, Write(2, 0, 3), 1),
    (0, Settle(2, 0), 2203),
    (0, Evaluations, 2),
    // A write counts also where the value stays.
    (0, Write(1, 1, 4), 0),
    (0, Settle(1, 1), 0),
    (0, Evaluations, 3),
    // Looks count nothing, also before a settling.
    (0, ValueOf(1, 0), 50),
    (0, Write(1, 1, 6), 1),
    (0, ValueOf(1, 0), 70),
    (0, ValueOf(1, 0), 70),
    (0, Evaluations, 3),
    (0, Settle(1, 1), 2116_2107),
    (0, Evaluations, 4),
    // Three writes in a group are one.
    (0, Begin, 1),
    (0, Write(1, 1, 2), 1),
    (0, Write(1, 1, 3), 1),
    (0, Write(1, 1, 4), 1),
    (0, Settle(1, 1), 0),
    (0, End, 0),
    (0, Evaluations, 4),
    (0, Settle(0, 0), 2105_2114),
    (0, Evaluations, 5),
];

const TURN: &str =
    r#"{"if":[{"<":[{"prop":"x","of":2},{"const":5}]},{"prop":"y","of":2},{"prop":"y"}]}"#;

/// The property that was read last is evaluated.
const TURNED: &[Case] = &[
    (0, Bind(1, 0, TURN), 0),
    (0, Settle(1, 0), 0),
    (0, Evaluations, 1),
    (0, Write(1, 1, 3), 1),
    (0, Settle(1, 1), 2113),
    (0, Evaluations, 1),
    (0, Write(2, 1, 4), 1),
    (0, Settle(2, 1), 2214_2104),
    (0, Evaluations, 2),
    (0, Write(2, 0, 9), 1),
    (0, Settle(2, 0), 2209_2103),
    (0, Evaluations, 3),
    (0, Write(2, 1, 7), 1),
    (0, Settle(2, 1), 2217),
    (0, Evaluations, 3),
    (0, Write(1, 1, 8), 1),
    (0, Settle(1, 1), 2118_2108),
    (0, Evaluations, 4),
    (0, Write(2, 0, 1), 1),
    (0, Settle(2, 0), 2201_2107),
    (0, Evaluations, 5),
    (0, Write(1, 1, 2), 1),
    (0, Settle(1, 1), 2112),
    (0, Evaluations, 5),
    (0, Write(2, 1, 5), 1),
    (0, Settle(2, 1), 2215_2105),
    (0, Evaluations, 6),
];

/// A loop that opens and closes by the write of a third property.
const LOOPED: &[Case] = &[
    (0, Bind(1, 0, SUM), 0),
    (0, Bind(1, 1, CHOICE), 0),
    (0, Settle(0, 0), 2101),
    (0, Write(2, 1, 6), 1),
    (0, Settle(2, 1), 1101_1111_2216_2100),
    (0, Write(2, 1, 3), 1),
    (0, Settle(2, 1), 2213_2104_2113),
];

/// An object that comes after it is read, and goes again.
const COMES_AND_GOES: &[Case] = &[
    (1, Bind(1, 0, SUM), 0),
    (1, Settle(1, 0), 2101),
    (0, Bind(1, 0, r#"{"prop":"x","of":9}"#), 0),
    (0, Bind(2, 0, SUM), 0),
    (0, Settle(0, 0), 1102_2201),
    (0, Evaluations, 2),
    (0, Add(9), 0),
    (0, Settle(0, 0), 0),
    (0, ValueOf(1, 0), 0),
    (0, Evaluations, 3),
    (0, Write(9, 0, 6), 1),
    (0, Settle(9, 0), 2906_2106),
    (0, Evaluations, 4),
    // Then what has read it is evaluated again, and nothing else.
    (0, Remove(9), 1102_2100),
    (0, Count, 2),
    (0, Evaluations, 5),
    (0, Settle(0, 0), 0),
    // In a group that happens at its end, and nothing is told before. The group's beginning evaluates what was written.
    (0, Add(9), 0),
    (0, Settle(0, 0), 0),
    (0, Evaluations, 6),
    (0, Write(9, 0, 4), 1),
    (0, Begin, 1),
    (0, Remove(9), 0),
    (0, ValueOf(1, 0), 40),
    (0, End, 0),
    (0, Settle(0, 0), 1102_2100),
    (0, Evaluations, 8),
    (1, Evaluations, 1),
];

#[test]
fn bound_properties_show_what_they_are_bound_to(rt: HostRuntime) -> Result<(), Fail> {
    assert!(rt; are_answered::<Graphs>(rt.alloc(), AS_BOUND)?);
    Ok(())
}

#[test]
fn groups_tell_at_their_end(rt: HostRuntime) -> Result<(), Fail> {
    assert!(rt; are_answered::<Graphs>(rt.alloc(), IN_GROUPS)?);
    Ok(())
}

#[test]
fn settlings_evaluate_what_changes_reach(rt: HostRuntime) -> Result<(), Fail> {
    assert!(rt; are_answered::<Graphs>(rt.alloc(), EVALUATED)?);
    assert!(rt; are_answered::<Graphs>(rt.alloc(), TURNED)?);
    assert!(rt; are_answered::<Graphs>(rt.alloc(), LOOPED)?);
    assert!(rt; are_answered::<Graphs>(rt.alloc(), COMES_AND_GOES)?);
    Ok(())
}

/// Binds a property of each of a thousand objects to another property of that object, and writes what the first
/// one reads. Returns the value of the first bound property, and how many evaluations the write took.
fn written_of_many(alloc: Global) -> Result<(u64, u64), AllocError> {
    let mut bench = Graphs::new(alloc)?;
    for object in 1..1001 {
        bench.ask(0, Add(object))?;
        bench.ask(0, Bind(object, 0, r#"{"prop":"y"}"#))?;
    }
    bench.ask(0, Settle(0, 0))?;
    for object in 1..1001 {
        bench.ask(0, ValueOf(object, 0))?;
    }
    let before = bench.ask(0, Evaluations)?;
    bench.ask(0, Write(1, 1, 5))?;
    bench.ask(0, Settle(1, 1))?;
    let evaluations = bench.ask(0, Evaluations)?.wrapping_sub(before);
    Ok((bench.ask(0, ValueOf(1, 0))?, evaluations))
}

#[test]
fn a_write_evaluates_what_reads_it(rt: HostRuntime) -> Result<(), Fail> {
    let (value, evaluations) = written_of_many(rt.alloc())?;
    assert!(rt; value == 50);
    assert!(rt; evaluations <= 1);
    Ok(())
}

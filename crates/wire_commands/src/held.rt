//! A line holds values at the keys of its command.
ghost use Rattle.std.specs.Prelude.{◌≡◌, ◌≤◌, IfOk, None, Some, if◌then◌else◌, length, map, option_map, true};
ghost use Rattle.serde_json.specs.Data.{object};
ghost use Rattle.serde_json.specs.View.{view};
ghost use Rattle.json_reading.specs.Members.{data_of, members_in};
ghost use Rattle.wire_commands.specs.Found.{are_distinct, held_as, with_common, words_of};
ghost use Rattle.wire_commands.specs.Form.{AreHeld};
ghost use Rattle.wire_commands.specs.Keys.{key_seen};
ghost use Rattle.wire_commands.specs.declared.keys.TheConstants.{MOST_KEYS};
ghost use Rattle.wire_commands.specs.Held.{held_seen, json_of, list_of, mode_of, number_in, number_of};
ghost use Rattle.wire_commands.specs.Held.{property_of};
ghost use Rattle.wire_commands.specs.Held.{priority_for, priority_in, reads, signed_in, text_of, truth_of};

use crate::found::find_values;
use crate::keys::{Holds, Key, MOST_KEYS};
use crate::named_property::property_in;
use event_queue::Priority;
use json_reading::{Field, Member, Scalar};
use plain_types::{ConnectionType, Items, Text, is_name};
use serde_json::Value;
use session_model::NamedProperty;
use std::alloc::{AllocError, Global};

/// A key holds one of these.
#[derive(Clone, Copy, Default)]
pub enum Held<'m, 'a> {
    #[default]
    Absent,
    Null,
    Number(u32),
    Text(&'a str),
    Truth(bool),
    Mode(ConnectionType),
    Priority(Priority),
    /// The value is an array.
    List(&'m Field<'a>),
    /// A property of the object of this number.
    Property(u32, &'m str),
    Any(&'m Field<'a>),
}

impl Held<'_, '_> {
    /// The number, where one is held.
    pub(crate) fn number(&self) -> Option<u32>
        ensures { result ≡ number_of (held_seen self.now) }
    {
        match self {
            Held::Number(number) => Some(*number),
            _ => None,
        }
    }

    /// A copy of the text, where one is held.
    #[inline(always)]
    pub(crate) fn text(&self, alloc: Global) -> Result<Option<Text>, AllocError>
        ensures { IfOk result (λ text. text ≡ text_of (held_seen self.now)) }
    {
        match self {
            Held::Text(text) => Ok(Some(Text::from_str(alloc, text)?)),
            _ => Ok(None),
        }
    }

    /// The truth that is held, false where none is.
    pub(crate) fn truth(&self) -> bool
        ensures { result ≡ truth_of (held_seen self.now) }
    {
        match self {
            Held::Truth(truth) => *truth,
            _ => false,
        }
    }

    /// How calls are made, `auto` where nothing is held.
    pub(crate) fn mode(&self) -> ConnectionType
        ensures { result ≡ mode_of (held_seen self.now) }
    {
        match self {
            Held::Mode(mode) => *mode,
            _ => ConnectionType::Auto,
        }
    }

    /// How soon the event of a call is taken that is made in this way, `Normal` where nothing is held. None
    /// where a priority is held for a call that is no event.
    pub(crate) fn priority(&self, mode: ConnectionType) -> Option<Priority>
        ensures { result ≡ priority_for mode (held_seen self.now) }
    {
        match (self, mode) {
            (Held::Absent, _) => Some(Priority::Normal),
            (Held::Priority(priority), ConnectionType::Queued) => Some(*priority),
            _ => None,
        }
    }

    /// Copies of the elements of the array, where one is held.
    pub(crate) fn list(&self, alloc: Global) -> Result<Option<Items<Value>>, AllocError>
        ensures { IfOk result (λ list. option_map (map view) list ≡ list_of (held_seen self.now)) }
    {
        match self {
            Held::List(field) => Ok(Some(field.to_items(alloc)?)),
            _ => Ok(None),
        }
    }

    /// A property with a copy of its name, where one is held.
    pub(crate) fn property(&self, alloc: Global) -> Result<Option<NamedProperty>, AllocError>
        ensures { IfOk result (λ property. property ≡ property_of (held_seen self.now)) }
    {
        match self {
            Held::Property(object, name) => Ok(Some(NamedProperty {
                object: *object,
                property: Text::from_str(alloc, name)?,
            })),
            _ => Ok(None),
        }
    }

    /// A copy of the JSON, where some is held.
    pub(crate) fn json(&self, alloc: Global) -> Result<Option<Value>, AllocError>
        ensures { IfOk result (λ json. option_map view json ≡ json_of (held_seen self.now)) }
    {
        match self {
            Held::Any(field) => Ok(Some(field.to_json(alloc)?)),
            _ => Ok(None),
        }
    }
}

/// Puts what the members hold at each of the keys into the room. Answers whether each is held as it must be,
/// and there are no further keys.
pub(crate) fn held_by<'m, 'a>(
    members: &'m [Member<'a>],
    keys: &[Key],
    room: &mut [Held<'m, 'a>],
) -> bool
    requires few { length keys.now ≤ MOST_KEYS }
    requires room { length room.old ≡ length keys.now }
    requires distinct { are_distinct (with_common (words_of keys.now)) ≡ true }
    ensures held { AreHeld (map key_seen keys.now) (object (members_in members.now)) (if result then Some (map held_seen room.new) else None) }
    ensures room { length room.new ≡ length room.old }
{
    let mut found = [None; MOST_KEYS];
    if !find_values(members, keys, &mut found) {
        return false;
    }
    for (place, key) in keys.iter().enumerate() {
        if !hold(found[place], key, &mut room[place]) {
            return false;
        }
    }
    true
}

/// Puts what a key holds into the room, given the value that is found at it. Returns whether it is held as it must be.
#[inline(always)]
fn hold<'m, 'a>(found: Option<&'m Field<'a>>, key: &Key, room: &mut Held<'m, 'a>) -> bool
    ensures { (if result then Some (held_seen room.new) else None)
        ≡ held_as (option_map (λ field. data_of field.now) found.entry) (key_seen key.now) }
{
    match key {
        Key::Needed(_, holds) => match found {
            Some(field) => put(*holds, field, room),
            None => false,
        },
        Key::Optional(_, holds) => match found {
            Some(field) => put(*holds, field, room),
            None => {
                *room = Held::Absent;
                true
            }
        },
    }
}

/// Puts the value into the room, as a key holds it. Returns whether it is of the sort that the key holds. Most keys hold
/// a number, a name or any JSON: these are put there at once, not moved through an `Option`.
#[inline(always)]
fn put<'m, 'a>(holds: Holds, field: &'m Field<'a>, room: &mut Held<'m, 'a>) -> bool
    ensures { (if result then Some (held_seen room.new) else None) ≡ reads holds (data_of field.now) }
{
    match holds {
        Holds::Number => match number_in(field) {
            Some(number) => *room = Held::Number(number),
            None => return false,
        },
        Holds::Name => match field.as_text() {
            Some(text) if is_name(text) => *room = Held::Text(text),
            _ => return false,
        },
        Holds::Any => *room = Held::Any(field),
        _ => match read(holds, field) {
            Some(held) => *room = held,
            None => return false,
        },
    }
    true
}

/// The value, as a key holds it.
#[inline(always)]
fn read<'m, 'a>(holds: Holds, field: &'m Field<'a>) -> Option<Held<'m, 'a>>
    ensures { option_map held_seen result ≡ reads holds (data_of field.now) }
{
    match holds {
        Holds::Name => field.as_text().filter(|text| is_name(text)).map(Held::Text),
        Holds::Text => field.as_text().map(Held::Text),
        Holds::Number => Some(Held::Number(number_in(field)?)),
        Holds::NumberOrNull if field.is_null() => Some(Held::Null),
        Holds::NumberOrNull => Some(Held::Number(number_in(field)?)),
        Holds::Truth => Some(Held::Truth(field.as_truth()?)),
        Holds::Mode => Some(Held::Mode(ConnectionType::from_name(field.as_text()?)?)),
        Holds::Priority => Some(Held::Priority(priority_in(field)?)),
        Holds::List if field.is_list() => Some(Held::List(field)),
        Holds::List => None,
        Holds::Property => property_in(field),
        Holds::Any => Some(Held::Any(field)),
    }
}

/// The number of an object or of a connection that the value is.
pub(crate) fn number_in(field: &Field<'_>) -> Option<u32>
    ensures { result ≡ number_in (data_of field.now) }
{
    match field.as_number()? {
        0 => None,
        number => u32::try_from(number).ok(),
    }
}

/// The priority that the value is: -1, 0 or 1.
fn priority_in(field: &Field<'_>) -> Option<Priority>
    ensures { result ≡ priority_in (data_of field.now) }
{
    match signed_in(field)? {
        -1 => Some(Priority::Low),
        0 => Some(Priority::Normal),
        1 => Some(Priority::High),
        _ => None,
    }
}

/// The whole number that the value is, where it has 64 bits with its sign.
fn signed_in(field: &Field<'_>) -> Option<i64>
    ensures { result ≡ signed_in (data_of field.now) }
{
    match field {
        Field::Plain(Scalar::Number(number)) => i64::try_from(*number).ok(),
        Field::Plain(Scalar::Signed(number)) => Some(*number),
        Field::Plain(_) | Field::List(_) => None,
        Field::Tree(value) => value.as_i64(),
        Field::Owned(own) => own.json().as_i64(),
    }
}

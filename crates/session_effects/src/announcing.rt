//! Announcing changes, by warnings and by the NOTIFY signals of properties.
ghost use Rattle.std.specs.Prelude.{◌≡◌, IfOk, map, option_and_then, option_map, slice_get, ℕ};
ghost use Rattle.std.specs.Option.{option_copied};
ghost use Rattle.class_table.specs.Lookup.{properties};
ghost use Rattle.binding_values.specs.declared.change.ChangeKind.TheVariants as t;
ghost use Rattle.session_model.specs.Showing.{property_at, told_as};
ghost use Rattle.session_model.specs.State.{State, shown};
ghost use Rattle.binding_graph.specs.WriteChanges.{changes_in};
ghost use Rattle.session_tables.specs.Classes.{HasClass};
ghost use Rattle.session_tables.specs.Tables.{IsPlaced, state_at};
ghost use Rattle.session_effects.specs.Setup.{settings_of};
ghost use Rattle.session_effects.specs.Writing.{announced, items_of, name_of, notice_args, told_items};

use crate::effects::Emission;
use crate::methods::kinds_at;
use crate::session_context::SessionContext;
use binding_values::{BindingError, Change, ChangeKind};
use class_table::Property;
use plain_types::{Items, Text};
use property_store::Property as At;
use session_tables::{Tables, WriteChanges};
use std::alloc::AllocError;
use variant_value::{Args, Value};

/// The announcements that are still to be made after a write.
#[derive(Drop)]
pub enum PendingAnnouncements {
    Nothing,
    /// Only one property has changed, and it has a NOTIFY signal.
    One(NotifySignal),
    /// All of these, in order.
    Several(Items<Change>),
}

/// The NOTIFY signal that is to be sent since a declared property has changed. Its argument is read from
/// the property when the signal is sent, before anything else is done.
#[derive(Clone, Copy)]
pub struct NotifySignal {
    pub object: u32,
    /// The number of the property among those that the object's class declares.
    pub property: usize,
    /// The index of the signal.
    pub signal: u32,
}

/// A warning or a signal that announces one of several changes. It holds what was true when all of them were
/// made, since a slot that one announcement calls may write a property that another one announces.
#[derive(Drop)]
pub enum Announcement {
    /// A bound property has an error that is new, or differs from the one before.
    Warning(At, BindingError),
    /// A property has another value, and it has a NOTIFY signal.
    Signal(Emission),
}

/// Returns what is to be announced after a write to a property that the class of its object declares.
pub(crate) fn news_of(
    caller: &SessionContext,
    object: u32,
    class: u32,
    number: usize,
    changed: WriteChanges,
) -> PendingAnnouncements
    ensures { (state : State) → HasClass state object class → (depth : ℕ)
        → items_of (settings_of caller.now.setup.now) state depth result
        ≡ told_items (settings_of caller.now.setup.now) state depth
        (changes_in (record { object = object; number = number }) (shown state object number).0 changed) }
{
    match changed {
        WriteChanges::Nothing => PendingAnnouncements::Nothing,
        WriteChanges::Written => match notice_of(caller, object, class, number) {
            Some(notice) => PendingAnnouncements::One(notice),
            None => PendingAnnouncements::Nothing,
        },
        WriteChanges::Several(changes) => PendingAnnouncements::Several(changes),
    }
}

/// The NOTIFY signal of an object's declared property, where its class names one.
fn notice_of(
    caller: &SessionContext,
    object: u32,
    class: u32,
    number: usize,
) -> Option<NotifySignal>
    ensures { result ≡ option_map (λ signal. record { object = object; property = number; signal = signal })
        (option_and_then (λ property. property.notify) (slice_get (properties (settings_of caller.now.setup.now).classes class) number)) }
{
    let signal = property_row(caller, class, number)?.notify?;
    Some(NotifySignal {
        object,
        property: number,
        signal,
    })
}

/// The property of this number that a class declares.
fn property_row<'a>(caller: &SessionContext<'a>, class: u32, number: usize) -> Option<&'a Property>
    ensures { option_copied result ≡ slice_get (properties (settings_of caller.now.setup.now).classes class) number }
{
    let classes = &caller.setup.classes;
    let Ok(short) = u32::try_from(number) else {
        // The count is for the proof, which then knows that no class has so many.
        let _count = classes.property_count(class);
        return None;
    };
    classes.property_row(class, short)
}

/// The declared property of an object.
fn property_at<'a>(caller: &SessionContext<'a>, tables: &Tables, at: At) -> Option<&'a Property>
    requires { IsPlaced tables.now caller.now.place }
    ensures { option_copied result ≡ property_at (settings_of caller.now.setup.now) (state_at tables.now caller.now.place) at.object at.number }
{
    let row = tables.forests.row(caller.place, at.object)?;
    property_row(caller, row.class, at.number)
}

/// Returns the arguments of a notification: the value that its property shows, where the signal takes one.
pub fn told_args(
    caller: &SessionContext,
    tables: &Tables,
    notice: NotifySignal,
) -> Result<Args, AllocError>
    requires { IsPlaced tables.now caller.now.place }
    ensures { IfOk result (λ args. args ≡ notice_args (settings_of caller.now.setup.now) (state_at tables.now caller.now.place) notice) }
{
    if kinds_at(caller, tables, notice.object, notice.signal).is_empty() {
        return Ok(Args::from_vec(Vec::new(caller.setup.alloc)));
    }
    let at = At {
        object: notice.object,
        number: notice.property,
    };
    let (value, _) = tables.stores.shown(caller.place, at)?;
    Ok(Args::one(value))
}

/// Returns the announcements of changes, in their order.
pub fn announcements(
    caller: &SessionContext,
    tables: &Tables,
    changes: Items<Change>,
) -> Result<Items<Announcement>, AllocError>
    requires { IsPlaced tables.now caller.now.place }
    ensures { IfOk result (λ told. (depth : ℕ) → map (announced depth) told
        ≡ told_items (settings_of caller.now.setup.now) (state_at tables.now caller.now.place) depth changes) }
{
    let mut told = Items::new(caller.setup.alloc);
    for change in changes.as_slice() {
        if let Some(announcement) = announcement_of(caller, tables, change)? {
            told.push(announcement)?;
        }
    }
    Ok(told)
}

/// Returns the announcement of a change; a new value has one only where the property has a NOTIFY signal.
fn announcement_of(
    caller: &SessionContext,
    tables: &Tables,
    change: &Change,
) -> Result<Option<Announcement>, AllocError>
    requires { IsPlaced tables.now caller.now.place }
    ensures { IfOk result (λ told. (depth : ℕ) → option_map (announced depth) told
        ≡ told_as (settings_of caller.now.setup.now) (state_at tables.now caller.now.place) depth change.now.at change.now.told) }
{
    match &change.told {
        ChangeKind::Error(error) => Ok(Some(Announcement::Warning(change.at, *error))),
        ChangeKind::Value(value) => notification(caller, tables, change.at, value),
    }
}

/// The NOTIFY signal for a property that has this value now, where it has such a signal.
fn notification(
    caller: &SessionContext,
    tables: &Tables,
    at: At,
    value: &Value,
) -> Result<Option<Announcement>, AllocError>
    requires { IsPlaced tables.now caller.now.place }
    ensures { IfOk result (λ told. (depth : ℕ) → option_map (announced depth) told
        ≡ told_as (settings_of caller.now.setup.now) (state_at tables.now caller.now.place) depth at (t.Value value.now)) }
{
    let Some(property) = property_at(caller, tables, at) else {
        return Ok(None);
    };
    let Some(signal) = property.notify else {
        return Ok(None);
    };
    let mut args = Items::new(caller.setup.alloc);
    if !kinds_at(caller, tables, at.object, signal).is_empty() {
        args.push(value.copy(caller.setup.alloc)?)?;
    }
    Ok(Some(Announcement::Signal(Emission {
        object: at.object,
        signal,
        args,
    })))
}

/// The name of a declared property of an object; an empty one where the object or the property is not there.
pub fn property_name(caller: &SessionContext, tables: &Tables, at: At) -> Result<Text, AllocError>
    requires { IsPlaced tables.now caller.now.place }
    ensures { IfOk result (λ name. name ≡ name_of (settings_of caller.now.setup.now) (state_at tables.now caller.now.place) at) }
{
    match property_at(caller, tables, at) {
        Some(property) => property.name.copy(caller.setup.alloc),
        None => Ok(Text::new()),
    }
}

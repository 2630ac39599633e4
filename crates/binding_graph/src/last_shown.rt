//! The values that the properties of a place showed, by object.
ghost use Rattle.std.specs.Prelude.{◌≡◌, [], if◌then◌else◌, IfErr, IfOk, None, OnErr, OnOk, not, option_map};
ghost use Rattle.std.specs.Option.{option_map_or};
ghost use Rattle.property_store.specs.declared.property.Property.{Property};
ghost use Rattle.property_store.specs.Property.{among, is_property};
ghost use Rattle.variant_value.specs.Values.{IsOfKind, is_same};
ghost use Rattle.binding_values.specs.Graph.{AreShown, before, fresh, shown_at};
ghost use Rattle.binding_values.specs.Sorted.{IsGapAt};
ghost use Rattle.binding_graph.specs.LastShown.{AreAsMany, AreByObject, HaveSlots, IsPlaceOf, IsSlot, ShowSame, first_of, head, joined};
ghost use Rattle.binding_graph.specs.Rows.{AreMerged, AreReplaced, IsPut};

use crate::showing::Showing;
use crate::shown_object::ShownObject;
use binding_values::{Shown, find_place, is_at};
use property_store::{Property, default_of};
use std::alloc::{AllocError, Global};
use std::marker::Model;

/// The values that the properties of a place showed, by object.
#[derive(Drop)]
pub(crate) struct LastShown {
    objects: Vec<ShownObject>,
}

impl Model for LastShown {
    ghost use Rattle.std.specs.Prelude.{List};
    ghost use Rattle.binding_values.specs.declared.shown.Shown.{Shown};
    ghost use Rattle.binding_graph.specs.Coded.{coded_showing};

    ghost Value = { List Shown };

    ghost coded = { coded_showing };

    ghost use Rattle.binding_graph.specs.LastShown.{AreByObject, joined};

    ghost view = { λ last. joined last.objects.items };

    ghost invariant = { λ last. AreByObject last.objects.items };
}

impl LastShown {
    pub(crate) fn new(alloc: Global) -> LastShown
        ensures { result ≡ [] }
    {
        LastShown {
            objects: Vec::new(alloc),
        }
    }

    pub(crate) fn from_showing(alloc: Global, showing: Showing) -> Result<LastShown, AllocError>
        ensures { IfOk result (λ last. last ≡ showing) }
    {
        let _ = showing.rows();
        let mut last = LastShown::new(alloc);
        last.replace(alloc, showing, &[])?;
        Ok(last)
    }

    /// How many objects have shown something, or may have.
    pub(crate) fn count_objects(&self) -> usize
        ensures { AreShown self.now }
    {
        self.objects.len()
    }

    /// Returns what a property showed.
    pub(crate) fn at(&self, at: Property) -> Option<&Shown>
        ensures { option_map (λ shown. shown.now) result ≡ shown_at self.now at }
    {
        match place_of(self.objects.as_slice(), at.object) {
            Ok(place) => self.objects[place].shown(at.number),
            Err(_) => None,
        }
    }

    /// Inserts what a property shows, or replaces what it showed, and returns whether its value is a different one.
    pub(crate) fn put(&mut self, alloc: Global, row: Shown) -> Result<bool, AllocError>
        requires { IsOfKind row.kind row.value }
        ensures told { IfOk result (λ is_change. is_change ≡ not (is_same (before self.old row).value row.value)) }
        ensures put { OnOk result (IsPut row self.old self.new) }
        ensures sound { OnOk result (AreShown self.new) }
        ensures err { OnErr result (self.new ≡ self.old) }
    {
        let place = make_slot(alloc, &mut self.objects, row.at)?;
        let previous = self.objects[place].shown(row.at.number);
        let is_change = !is_value_before(previous, &row);
        put_at(&mut self.objects, place, row);
        Ok(is_change)
    }

    /// Replaces what properties showed by what they show now, then drops what absent ones showed.
    pub(crate) fn replace(
        &mut self,
        alloc: Global,
        now: Showing,
        absent: &[Property],
    ) -> Result<(), AllocError>
        ensures replaced { OnOk result (AreReplaced absent.now now self.old self.new) }
        ensures sound { OnOk result (AreShown self.new) }
        ensures err { OnErr result (self.new ≡ self.old) }
    {
        make_slots(alloc, &mut self.objects, now.rows())?;
        put_all(&mut self.objects, now.into_rows());
        remove_all(&mut self.objects, absent);
        Ok(())
    }
}

/// Whether a property that showed `previous` shows the same value now. Before it showed anything it had the default
/// of its kind.
pub(crate) fn is_value_before(previous: Option<&Shown>, shown: &Shown) -> bool
    ensures { result ≡ is_same (option_map_or (λ row. row) (option_map (λ row. row.now) previous.entry) (fresh shown.now.at shown.now.kind)).value
        shown.now.value }
{
    match previous {
        Some(previous) => previous.value.is_same(&shown.value),
        None => default_of(shown.kind).is_same(&shown.value),
    }
}

/// The property that stands for an object in searches.
fn first_of(object: u32) -> Property
    ensures { result ≡ first_of object }
{
    Property { object, number: 0 }
}

/// The place of an object if none before it has gone.
fn guess(objects: &[ShownObject], object: u32) -> usize {
    match objects.first() {
        Some(first) => object.wrapping_sub(first.object) as usize,
        None => 0,
    }
}

/// The place of an object, which is looked for at `near` first, or else the place where it would be inserted.
fn place_near(objects: &[ShownObject], near: usize, object: u32) -> Result<usize, usize>
    requires { AreByObject objects.now }
    ensures place { IfOk result (λ place. IsPlaceOf objects.now object place) }
    ensures gap { IfErr result (λ place. IsGapAt head objects.now (first_of object) place) }
{
    if is_at(objects, near, first_of(object)) {
        return Ok(near);
    }
    find_place(objects, first_of(object))
}

/// The place of an object, or else the place where it would be inserted.
fn place_of(objects: &[ShownObject], object: u32) -> Result<usize, usize>
    requires { AreByObject objects.now }
    ensures place { IfOk result (λ place. IsPlaceOf objects.now object place) }
    ensures gap { IfErr result (λ place. IsGapAt head objects.now (first_of object) place) }
{
    place_near(objects, guess(objects, object), object)
}

/// Returns the place of an object, which is inserted if it is not there.
fn make_object(
    alloc: Global,
    objects: &mut Vec<ShownObject>,
    object: u32,
) -> Result<usize, AllocError>
    requires { AreByObject objects.old.items }
    ensures same { ShowSame objects.old.items objects.new.items }
    ensures place { IfOk result (λ place. IsPlaceOf objects.new.items object place) }
{
    match place_of(objects.as_slice(), object) {
        Ok(place) => Ok(place),
        Err(place) => {
            let slots = Vec::new(alloc);
            objects.insert(place, ShownObject { object, slots })?;
            Ok(place)
        }
    }
}

/// Makes a slot for a property, and returns the place of its object.
fn make_slot(
    alloc: Global,
    objects: &mut Vec<ShownObject>,
    at: Property,
) -> Result<usize, AllocError>
    requires { AreByObject objects.old.items }
    ensures same { ShowSame objects.old.items objects.new.items }
    ensures slot { IfOk result (λ place. IsSlot objects.new.items at place) }
{
    let place = make_object(alloc, objects, at.object)?;
    let of = &mut objects[place];
    of.make_slots(at.number)?;
    Ok(place)
}

/// Makes a slot for each of these rows.
fn make_slots(
    alloc: Global,
    objects: &mut Vec<ShownObject>,
    rows: &[Shown],
) -> Result<(), AllocError>
    requires { AreByObject objects.old.items }
    ensures same { ShowSame objects.old.items objects.new.items }
    ensures slots { OnOk result (HaveSlots objects.new.items rows.now) }
{
    for row in rows {
        make_slot(alloc, objects, row.at)?;
    }
    Ok(())
}

/// Puts a row into its slot, which is there.
fn put_at(objects: &mut Vec<ShownObject>, place: usize, row: Shown)
    requires sound { AreByObject objects.old.items }
    requires slot { IsSlot objects.old.items row.at place }
    requires fits { IsOfKind row.kind row.value }
    ensures put { IsPut row (joined objects.old.items) (joined objects.new.items) }
    ensures sound { AreByObject objects.new.items }
    ensures as_many { AreAsMany objects.old.items objects.new.items }
{
    let number = row.at.number;
    let of = &mut objects[place];
    of.slots[number] = Some(row);
}

/// Puts rows into their slots, which are there.
fn put_all(objects: &mut Vec<ShownObject>, rest: Vec<Shown>)
    requires sound { AreByObject objects.old.items }
    requires fit { AreShown rest.items }
    requires slots { HaveSlots objects.old.items rest.items }
    ensures merged { AreMerged [] rest.items (joined objects.old.items) (joined objects.new.items) }
    ensures sound { AreByObject objects.new.items }
{
    for row in rest {
        match place_of(objects.as_slice(), row.at.object) {
            Ok(place) => put_at(objects, place, row),
            Err(_) => unreachable!(),
        }
    }
}

/// Drops what a property showed, and its object if it has shown nothing else. The object is looked for at `near` first,
/// which becomes its place.
fn remove_row(objects: &mut Vec<ShownObject>, near: &mut usize, at: Property)
    requires { AreByObject objects.old.items }
    ensures removed { (q : Property) → shown_at (joined objects.new.items) q ≡ (if is_property q at then None else shown_at (joined objects.old.items) q) }
    ensures sound { AreByObject objects.new.items }
{
    match place_near(objects.as_slice(), *near, at.object) {
        Ok(place) => {
            *near = place;
            let of = &mut objects[place];
            of.empty_slot(at.number);
            if of.slots.is_empty() {
                drop(objects.remove(place));
            }
        }
        Err(_) => {}
    }
}

/// Drops what these properties showed. Those of one object are next to each other.
fn remove_all(objects: &mut Vec<ShownObject>, gone: &[Property])
    requires { AreByObject objects.old.items }
    ensures removed { (q : Property) → shown_at (joined objects.new.items) q ≡ (if among q gone.now then None else shown_at (joined objects.old.items) q) }
    ensures sound { AreByObject objects.new.items }
{
    let mut near = 0;
    for at in gone {
        remove_row(objects, &mut near, *at);
    }
}

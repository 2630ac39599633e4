//! The descriptions of classes.
ghost use Rattle.std.specs.Prelude.{◌≡◌, ◌++◌, [], ◌∷◌, IfOk, OnOk, filter, map, option_and_then, reverse};
ghost use Rattle.std.specs.List.{flat_map};
ghost use Rattle.std.specs.Option.{unwrap_or};
ghost use Rattle.class_table.specs.Lookup.{line, method_text};
ghost use Rattle.session_model.specs.Classes.{class_name, superclass_of};
ghost use Rattle.session_model.specs.ClassDescriptions.{class_description, declared_method, declared_property, is_wanted, notify_text};
ghost use Rattle.session_model.specs.ClassDescriptions.{own_methods, own_properties};

use crate::descriptions::functors::copied_kinds;
use class_table::{Class, Method, Property};
use plain_types::{Items, Text};
use session_effects::Setup;
use session_model::{ClassDescription, DeclaredMethod, DeclaredProperty};
use std::alloc::{AllocError, Global};

/// The names of all classes, in the order in which they are declared.
pub(crate) fn class_names(setup: &Setup) -> Result<Items<Text>, AllocError>
    ensures { IfOk result (λ names. names ≡ map (λ class. class.name) setup.now.classes) }
{
    let mut names = Items::new(setup.alloc);
    'classes: for index in 0..setup.classes.len() as u32 {
        let Some(row) = setup.classes.class_row(index) else {
            return Ok(names);
        };
        names.push(row.name.copy(setup.alloc)?)?;
    }
    Ok(names)
}

/// The name of the class at an index, or an empty text if there is no such class.
pub(crate) fn named_class(setup: &Setup, index: u32) -> Result<Text, AllocError>
    ensures { IfOk result (λ name. name ≡ unwrap_or (class_name setup.now.classes index) []) }
{
    match setup.classes.class_row(index) {
        Some(row) => row.name.copy(setup.alloc),
        None => Ok(Text::new()),
    }
}

/// The name of the superclass of the class at an index, if it has one.
fn superclass(setup: &Setup, index: u32) -> Result<Option<Text>, AllocError>
    ensures { IfOk result (λ name. name ≡ option_and_then (class_name setup.now.classes) (superclass_of setup.now.classes index)) }
{
    match setup.classes.class_row(index) {
        Some(class) => superclass_name(setup, class),
        None => Ok(None),
    }
}

/// The name of the superclass of a class, if it has one.
pub(crate) fn superclass_name(setup: &Setup, class: &Class) -> Result<Option<Text>, AllocError>
    ensures { IfOk result (λ name. name ≡ option_and_then (class_name setup.now.classes) class.now.superclass) }
{
    let Some(index) = class.superclass else {
        return Ok(None);
    };
    match setup.classes.class_row(index) {
        Some(base) => Ok(Some(base.name.copy(setup.alloc)?)),
        None => Ok(None),
    }
}

/// Describes the class at an index, with the class that declares each property and method.
pub(crate) fn class_description(setup: &Setup, index: u32) -> Result<ClassDescription, AllocError>
    ensures { IfOk result (λ described. described ≡ class_description setup.now.classes index) }
{
    let line = line_of(setup, index)?;
    Ok(ClassDescription {
        class: named_class(setup, index)?,
        properties: all_properties(setup, line.as_slice())?,
        signals: all_methods(setup, true, line.as_slice())?,
        slots: all_methods(setup, false, line.as_slice())?,
        superclass: superclass(setup, index)?,
    })
}

/// The class at an index and its superclasses, by index, `QObject` first.
fn line_of(setup: &Setup, index: u32) -> Result<Vec<u32>, AllocError>
    ensures { IfOk result (λ found. found.items ≡ line setup.now.classes index) }
{
    let mut found = Vec::new(setup.alloc);
    let mut next = Some(index);
    'line: while let Some(at) = next {
        let Some(row) = setup.classes.class_row(at) else {
            return Ok(reversed(found));
        };
        found.push(at)?;
        next = row.superclass;
    }
    Ok(reversed(found))
}

/// The numbers in reverse order.
fn reversed(mut numbers: Vec<u32>) -> Vec<u32>
    ensures { result.items ≡ reverse numbers.items }
{
    numbers.reverse();
    numbers
}

/// The properties that these classes declare, class by class.
fn all_properties(setup: &Setup, line: &[u32]) -> Result<Items<DeclaredProperty>, AllocError>
    ensures { IfOk result (λ described. described ≡ flat_map (own_properties setup.now.classes) line.now) }
{
    let mut described = Items::new(setup.alloc);
    'line: for index in line {
        add_properties(setup, *index, &mut described)?;
    }
    Ok(described)
}

/// Adds the properties that a class declares.
fn add_properties(
    setup: &Setup,
    index: u32,
    described: &mut Items<DeclaredProperty>,
) -> Result<(), AllocError>
    ensures { OnOk result (described.new ≡ described.old ++ own_properties setup.now.classes index) }
{
    let Some(row) = setup.classes.class_row(index) else {
        return Ok(());
    };
    'properties: for property in row.properties.as_slice() {
        described.push(declared_property(setup, index, &row.name, property)?)?;
    }
    Ok(())
}

fn declared_property(
    setup: &Setup,
    index: u32,
    class: &Text,
    property: &Property,
) -> Result<DeclaredProperty, AllocError>
    ensures { IfOk result (λ described. described ≡ declared_property setup.now.classes index class.now property.now) }
{
    Ok(DeclaredProperty {
        bindable: property.bindable,
        class: class.copy(setup.alloc)?,
        kind: property.kind,
        name: property.name.copy(setup.alloc)?,
        notify: notify_text(setup, index, property.notify)?,
    })
}

/// The text of a property's notify signal, where it has one.
pub(crate) fn notify_text(
    setup: &Setup,
    index: u32,
    notify: Option<u32>,
) -> Result<Option<Text>, AllocError>
    ensures { IfOk result (λ text. text ≡ notify_text setup.now.classes index notify) }
{
    let Some(number) = notify else {
        return Ok(None);
    };
    match setup.classes.method_row(index, number) {
        Some(method) => Ok(Some(method.text.copy(setup.alloc)?)),
        None => Ok(None),
    }
}

/// The signals that these classes declare, or the slots, class by class.
fn all_methods(
    setup: &Setup,
    signals: bool,
    line: &[u32],
) -> Result<Items<DeclaredMethod>, AllocError>
    ensures { IfOk result (λ described. described ≡ flat_map (own_methods setup.now.classes signals) line.now) }
{
    let mut described = Items::new(setup.alloc);
    'line: for index in line {
        add_methods(setup, signals, *index, &mut described)?;
    }
    Ok(described)
}

/// Adds the signals that a class declares, or the slots.
fn add_methods(
    setup: &Setup,
    signals: bool,
    index: u32,
    described: &mut Items<DeclaredMethod>,
) -> Result<(), AllocError>
    ensures { OnOk result (described.new ≡ described.old ++ own_methods setup.now.classes signals index) }
{
    let Some(row) = setup.classes.class_row(index) else {
        return Ok(());
    };
    'methods: for method in row.methods.as_slice() {
        add_method(setup.alloc, signals, &row.name, method, described)?;
    }
    Ok(())
}

/// Adds a method if it is a signal, or a slot, as `signals` says.
fn add_method(
    alloc: Global,
    signals: bool,
    class: &Text,
    method: &Method,
    described: &mut Items<DeclaredMethod>,
) -> Result<(), AllocError>
    requires { method.now.text ≡ method_text method.now }
    ensures { OnOk result (described.new ≡ described.old ++ map (declared_method class.now) (filter (is_wanted signals) (method.now ∷ []))) }
{
    if is_wanted(signals, method) {
        described.push(declared_method(alloc, class, method)?)?;
    }
    Ok(())
}

/// Whether a method is a signal, or a slot, as `signals` says.
fn is_wanted(signals: bool, method: &Method) -> bool
    ensures { result ≡ is_wanted signals method.now }
{
    if signals {
        method.is_signal
    } else {
        !method.is_signal
    }
}

fn declared_method(
    alloc: Global,
    class: &Text,
    method: &Method,
) -> Result<DeclaredMethod, AllocError>
    requires { method.now.text ≡ method_text method.now }
    ensures { IfOk result (λ described. described ≡ declared_method class.now method.now) }
{
    Ok(DeclaredMethod {
        class: class.copy(alloc)?,
        kinds: copied_kinds(alloc, method.signature.kinds.as_slice())?,
        signature: method.text.copy(alloc)?,
    })
}

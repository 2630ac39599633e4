//! The class that all others are below.
ghost use Rattle.std.specs.Prelude.{◌≡◌, ◌∷◌, ◌++◌, [], codes, IfOk};
ghost use Rattle.signature_core.specs.declared.kind.Kind.TheVariants as kind;
ghost use Rattle.class_table.specs.Declaring.{delete_later_body, q_object, signal_of, slot_of};

use crate::class::{Class, Method, Property};
use plain_types::{Items, Text};
use signature_core::{Kind, Signature};
use std::alloc::{AllocError, Global};
use term_core::{Action, Body, SingleAction, Step, Target};

/// `QObject`, with the methods and the property of Qt's class of that name that there are here.
pub(crate) fn q_object(alloc: Global) -> Result<Class, AllocError>
    ensures { IfOk result (λ class. class ≡ q_object) }
{
    let methods = object_methods(alloc)?;
    let properties = object_properties(alloc)?;
    Ok(Class {
        name: Text::from_str(alloc, "QObject")?,
        superclass: None,
        method_offset: 0,
        property_offset: 0,
        methods,
        properties,
    })
}

/// The methods of `QObject`: its signals, and then its slot.
fn object_methods(alloc: Global) -> Result<Items<Method>, AllocError>
    ensures { IfOk result (λ methods. methods ≡ q_object.methods) }
{
    let destroyed = signal(alloc, "destroyed", Items::new(alloc))?;
    let methods = with(Items::new(alloc), destroyed)?;
    let name_changed = name_changed(alloc)?;
    let methods = with(methods, name_changed)?;
    let delete_later = delete_later(alloc)?;
    with(methods, delete_later)
}

/// The methods, with another one appended.
fn with(mut methods: Items<Method>, method: Method) -> Result<Items<Method>, AllocError>
    ensures { IfOk result (λ more. more ≡ methods ++ method ∷ []) }
{
    methods.push(method)?;
    Ok(methods)
}

/// The signal that the name was changed, with the name.
fn name_changed(alloc: Global) -> Result<Method, AllocError>
    ensures { IfOk result (λ method. method ≡ signal_of (record { name = codes "objectNameChanged"; kinds = kind.Text ∷ [] })) }
{
    let kinds = text_parameter(alloc)?;
    signal(alloc, "objectNameChanged", kinds)
}

/// The one property of `QObject`, its name.
fn object_properties(alloc: Global) -> Result<Items<Property>, AllocError>
    ensures { IfOk result (λ properties. properties ≡ q_object.properties) }
{
    let mut properties = Items::new(alloc);
    properties.push(Property {
        name: Text::from_str(alloc, "objectName")?,
        kind: Kind::Text,
        notify: Some(1),
        bindable: true,
    })?;
    Ok(properties)
}

fn signal(alloc: Global, name: &str, kinds: Items<Kind>) -> Result<Method, AllocError>
    ensures { IfOk result (λ method. method ≡ signal_of (record { name = name.now; kinds = kinds })) }
{
    let name = Text::from_str(alloc, name)?;
    Method::signal(alloc, Signature { name, kinds })
}

fn text_parameter(alloc: Global) -> Result<Items<Kind>, AllocError>
    ensures { IfOk result (λ kinds. kinds ≡ kind.Text ∷ []) }
{
    let mut kinds = Items::new(alloc);
    kinds.push(Kind::Text)?;
    Ok(kinds)
}

/// The slot that posts the deletion of its own object.
fn delete_later(alloc: Global) -> Result<Method, AllocError>
    ensures { IfOk result (λ method. method ≡ slot_of (record { name = codes "deleteLater"; kinds = [] }) delete_later_body) }
{
    let mut actions = Items::new(alloc);
    actions.push(Action {
        step: Step::Single(SingleAction::DeleteLater(Target::Itself)),
    })?;
    let signature = Signature {
        name: Text::from_str(alloc, "deleteLater")?,
        kinds: Items::new(alloc),
    };
    Method::slot(alloc, signature, Body { params: 0, actions })
}

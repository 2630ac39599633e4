//! Dynamic properties, those that an object was given besides the ones that its class declares.
ghost use Rattle.std.specs.Prelude.{◌≡◌, ◌<◌, IfOk, IfSome, OnOk, OnErr, length, map};
ghost use Rattle.std.specs.Option.{option_map};
ghost use Rattle.plain_types.specs.Answers.{RefusedBy};
ghost use Rattle.property_store.specs.Store.{AreDistinct, dynamic_number, dynamic_value, refusal_of_name, with_name, without_name};

use plain_types::{Code, Fault, Items, Text};
use std::alloc::{AllocError, Global};
use variant_value::Value;

/// How many dynamic properties an object has at most: a limit of our own.
pub const DYNAMIC: usize = 64;

/// A dynamic property.
#[derive(Drop)]
pub(crate) struct Named {
    pub(crate) name: Text,
    pub(crate) value: Value,
}

/// The position of the property with this name.
pub(crate) fn number_of(dynamic: &[Named], name: &str) -> Option<usize>
    ensures number { result ≡ dynamic_number name.now dynamic.now }
    ensures within { IfSome result (λ number. number < length dynamic.now) }
{
    dynamic.iter().position(|named| named.name.as_str() == name)
}

/// Sets the property with this name, or appends it if there is no such property. Beyond `DYNAMIC` that is
/// refused with `Code::Limit`.
pub(crate) fn set(dynamic: &mut Vec<Named>, name: Text, value: Value) -> Result<(), Fault>
    ensures refused { RefusedBy (refusal_of_name name dynamic.old.items) result }
    ensures ok { OnOk result (dynamic.new.items ≡ with_name name value dynamic.old.items) }
    ensures err { OnErr result (dynamic.new.items ≡ dynamic.old.items) }
{
    let named = Named { name, value };
    match number_of(dynamic, named.name.as_str()) {
        Some(number) => dynamic[number] = named,
        None if dynamic.len() >= DYNAMIC => return Err(Fault::Refused(Code::Limit)),
        None => dynamic.push(named)?,
    }
    Ok(())
}

/// Takes out the property of this name.
pub(crate) fn remove(dynamic: &mut Vec<Named>, name: &str)
    requires { AreDistinct dynamic.old.items }
    ensures { dynamic.new.items ≡ without_name name.now dynamic.old.items }
{
    if let Some(number) = number_of(dynamic, name) {
        dynamic.remove(number);
    }
}

/// The value of the property of this name.
pub(crate) fn value_of<'d>(dynamic: &'d [Named], name: &str) -> Option<&'d Value>
    ensures { option_map (λ value. value.now) result ≡ dynamic_value name.now dynamic.now }
{
    let number = number_of(dynamic, name)?;
    Some(&dynamic[number].value)
}

/// Copies of the names, in their order.
pub(crate) fn names(alloc: Global, dynamic: &[Named]) -> Result<Items<Text>, AllocError>
    ensures { IfOk result (λ names. names ≡ map (λ named. named.name) dynamic.now) }
{
    let mut names = Vec::with_capacity(alloc, dynamic.len())?;
    for named in dynamic {
        names.push(named.name.copy(alloc)?)?;
    }
    Ok(Items::from_vec(names))
}

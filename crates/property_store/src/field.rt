//! Declared properties.
ghost use Rattle.std.specs.Prelude.{◌≡◌, ◌<◌, IfOk, IfSome, length, map, slice_get};
ghost use Rattle.std.specs.Option.{option_map};
ghost use Rattle.std.specs.Result.{result_err};
ghost use Rattle.variant_value.specs.Values.{converted};
ghost use Rattle.property_store.specs.Store.{declared_in, default_of, field_number, fields_in, typed_in};
ghost use Rattle.property_store.specs.Storing.{fit_in, is_other, refusal_as, refusal_in, with_fit};

use plain_types::{Code, Items, Text};
use signature_core::Kind;
use std::alloc::{AllocError, Global};
use variant_value::{Args, Value};

/// A declared property, as a store knows it.
pub struct Field {
    pub name: Text,
    pub kind: Kind,
    /// Whether it may be bound to an expression.
    pub bindable: bool,
}

impl Drop for Field {
    fn drop(self) {
        let Field {
            name: _,
            kind: _,
            bindable: _,
        } = self;
    }
}

/// The properties that a class declares; a class that is not there declares none.
pub(crate) fn fields_in(layouts: &Items<Items<Field>>, class: u32) -> &[Field]
    ensures { result.now ≡ fields_in layouts.now class }
{
    match layouts.get(class as usize) {
        Some(fields) => fields.as_slice(),
        None => &[],
    }
}

/// The number of the property of this name.
#[inline(always)]
pub(crate) fn field_number(fields: &[Field], name: &str) -> Option<usize>
    ensures number { result ≡ field_number name.now fields.now }
    ensures within { IfSome result (λ number. number < length fields.now) }
{
    fields.iter().position(|field| field.name.as_str() == name)
}

/// The number and the kind of the property of this name.
pub(crate) fn declared_in(fields: &[Field], name: &str) -> Option<(usize, Kind)>
    ensures { result ≡ declared_in name.now fields.now }
{
    let number = field_number(fields, name)?;
    let field = fields.get(number)?;
    Some((number, field.kind))
}

/// Returns the default of each property of a new object.
pub(crate) fn defaults(alloc: Global, fields: &[Field]) -> Result<Args, AllocError>
    ensures { IfOk result (λ values. values ≡ map (λ field. default_of field.kind) fields.now) }
{
    Ok(match fields {
        [field] => Args::one(default_of(field.kind)),
        _ => Args::from_vec(all_defaults(alloc, fields)?),
    })
}

fn all_defaults(alloc: Global, fields: &[Field]) -> Result<Vec<Value>, AllocError>
    ensures { IfOk result (λ values. values.items ≡ map (λ field. default_of field.kind) fields.now) }
{
    let mut values = Vec::with_capacity(alloc, fields.len())?;
    for field in fields {
        values.push(default_of(field.kind))?;
    }
    Ok(values)
}

/// Returns the value that a property of a kind has until it is written. This takes no memory.
pub fn default_of(kind: Kind) -> Value
    ensures { result ≡ default_of kind }
{
    match kind {
        Kind::Bool => Value::Bool(false),
        Kind::Int => Value::Int(0),
        Kind::Uint => Value::Uint(0),
        Kind::Longlong => Value::Longlong(0),
        Kind::Ulonglong => Value::Ulonglong(0),
        Kind::Text => Value::Text(Text::new()),
    }
}

/// The value of this number.
pub(crate) fn value_at(values: &Args, number: usize) -> Option<&Value>
    ensures { option_map (λ value. value.now) result ≡ slice_get values.now number }
{
    values.as_slice().get(number)
}

/// The kind of the property of this number, and its value.
pub(crate) fn typed_value<'a>(
    fields: &[Field],
    values: &'a Args,
    number: usize,
) -> Option<(Kind, &'a Value)>
    ensures { option_map {U = Kind × Value} (λ typed. (typed.0, typed.1.now)) result ≡ typed_in fields.now values.now number }
{
    let field = fields.get(number)?;
    let value = value_at(values, number)?;
    Some((field.kind, value))
}

/// Stores a value, converted to the property's kind, and returns whether it differs from the previous
/// one. If there is no such property, nothing is stored. A value that cannot be converted is `BadValue`.
#[inline(always)]
pub(crate) fn store(
    fields: &[Field],
    values: &mut Args,
    number: usize,
    value: Value,
) -> Result<bool, Code>
    requires { length values.old ≡ length fields.now }
    ensures refused { result_err result ≡ refusal_in fields.now number value }
    ensures answer { IfOk result (λ answer. answer ≡ is_other (fit_in fields.now number value) number values.old) }
    ensures new { values.new ≡ with_fit (fit_in fields.now number value) number values.old }
{
    let Some(field) = fields.get(number) else {
        return Ok(false);
    };
    let kind = field.kind;
    if value.kind() == Some(kind) {
        return Ok(values.put(number, value));
    }
    store_converted(kind, values, number, value)
}

/// Stores a value of another kind, which is converted first.
#[cold]
#[inline(never)]
fn store_converted(kind: Kind, values: &mut Args, number: usize, value: Value) -> Result<bool, Code>
    requires { number < length values.old }
    ensures refused { result_err result ≡ refusal_as kind value }
    ensures answer { IfOk result (λ answer. answer ≡ is_other (converted kind value) number values.old) }
    ensures new { values.new ≡ with_fit (converted kind value) number values.old }
{
    let Ok(value) = value.convert(kind) else {
        return Err(Code::BadValue);
    };
    Ok(values.put(number, value))
}

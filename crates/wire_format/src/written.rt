//! Values that are written as one piece of JSON, and the ways to write members and arrays of them.
ghost use Rattle.std.specs.Prelude.{◌≡◌, ◌++◌, OnOk, false, map, string_bytes};
ghost use Rattle.serde_json.specs.Data.{boolean, string};
ghost use Rattle.serde_json.specs.View.{items_of};
ghost use Rattle.serde_json.specs.Written.{compact_text, items_text};
ghost use Rattle.variant_value.specs.Values.{json_of};
ghost use Rattle.wire_format.specs.Json.{array_of, json_of_code, json_of_error, json_of_kind, json_of_mode, json_of_number, json_or_null, mode_name};

use crate::shown::{error_name, truth_word};
use crate::writing::push_text;
use binding_values::BindingError;
use itoa::Buffer as Digits;
use plain_types::{Code, ConnectionType, Items, Text};
use signature_core::Kind;
use std::alloc::{AllocError, Global};
use variant_value::Value;

/// A value that is written as one piece of JSON.
pub(crate) trait Written {
    ghost use Rattle.serde_json.specs.Data.{Data};

    ghost json: { Self → Data };

    /// Appends the text.
    fn push(&self, alloc: Global, buffer: &mut String) -> Result<(), AllocError>
        ensures { OnOk result (string_bytes buffer.new ≡ string_bytes buffer.old ++ compact_text (json self.now)) };
}

/// Appends a key and its value. The key is JSON text, with its colon and with the comma or brace before it.
pub(crate) fn put<T: Written>(
    alloc: Global,
    buffer: &mut String,
    key: &str,
    value: &T,
) -> Result<(), AllocError>
    ensures { OnOk result (string_bytes buffer.new
        ≡ string_bytes buffer.old ++ (key.now ++ compact_text (T.json value.now))) }
{
    buffer.push_str(key)?;
    value.push(alloc, buffer)
}

/// Appends an array.
pub(crate) fn push_array<T: Written>(
    alloc: Global,
    buffer: &mut String,
    elements: &[T],
) -> Result<(), AllocError>
    ensures { OnOk result (string_bytes buffer.new
        ≡ string_bytes buffer.old ++ compact_text (array_of T.json elements.now)) }
{
    buffer.push_str("[")?;
    push_elements(alloc, buffer, elements)
}

/// Appends the elements of an array, and the bracket that closes it.
#[inline(always)]
pub(crate) fn push_elements<T: Written>(
    alloc: Global,
    buffer: &mut String,
    elements: &[T],
) -> Result<(), AllocError>
    ensures { OnOk result (string_bytes buffer.new
        ≡ string_bytes buffer.old ++ items_text false (items_of (map T.json elements.now))) }
{
    for (place, element) in elements.iter().enumerate() {
        if place > 0 {
            buffer.push_str(",")?;
        }
        element.push(alloc, buffer)?;
    }
    buffer.push_str("]")
}

impl<T: Written> Written for Items<T> {
    ghost json = { array_of T.json };

    fn push(&self, alloc: Global, buffer: &mut String) -> Result<(), AllocError> {
        push_array(alloc, buffer, self.as_slice())
    }
}

impl<T: Written> Written for Option<T> {
    ghost json = { json_or_null T.json };

    fn push(&self, alloc: Global, buffer: &mut String) -> Result<(), AllocError> {
        match self {
            Some(value) => value.push(alloc, buffer),
            None => buffer.push_str("null"),
        }
    }
}

impl Written for Text {
    ghost json = { string };

    #[inline(always)]
    fn push(&self, alloc: Global, buffer: &mut String) -> Result<(), AllocError> {
        push_text(alloc, buffer, self.as_str())
    }
}

impl Written for bool {
    ghost json = { boolean };

    #[inline(always)]
    fn push(&self, _alloc: Global, buffer: &mut String) -> Result<(), AllocError> {
        buffer.push_str(truth_word(*self))
    }
}

impl Written for u32 {
    ghost json = { json_of_number };

    #[inline(always)]
    fn push(&self, _alloc: Global, buffer: &mut String) -> Result<(), AllocError> {
        buffer.push_str(Digits::new().format(*self))
    }
}

impl Written for u64 {
    ghost json = { json_of_number };

    #[inline(always)]
    fn push(&self, _alloc: Global, buffer: &mut String) -> Result<(), AllocError> {
        buffer.push_str(Digits::new().format(*self))
    }
}

impl Written for usize {
    ghost json = { json_of_number };

    #[inline(always)]
    fn push(&self, _alloc: Global, buffer: &mut String) -> Result<(), AllocError> {
        buffer.push_str(Digits::new().format(*self as u64))
    }
}

impl Written for Code {
    ghost json = { json_of_code };

    #[inline(always)]
    fn push(&self, alloc: Global, buffer: &mut String) -> Result<(), AllocError> {
        push_text(alloc, buffer, self.text())
    }
}

impl Written for Kind {
    ghost json = { json_of_kind };

    #[inline(always)]
    fn push(&self, alloc: Global, buffer: &mut String) -> Result<(), AllocError> {
        push_text(alloc, buffer, self.name())
    }
}

impl Written for ConnectionType {
    ghost json = { json_of_mode };

    #[inline(always)]
    fn push(&self, alloc: Global, buffer: &mut String) -> Result<(), AllocError> {
        push_text(alloc, buffer, mode_name(*self))
    }
}

/// The name by which a connection's type is asked for.
fn mode_name(mode: ConnectionType) -> &'static str
    ensures { result.now ≡ mode_name mode }
{
    match mode {
        ConnectionType::Auto => "auto",
        ConnectionType::Direct => "direct",
        ConnectionType::Queued => "queued",
    }
}

impl Written for BindingError {
    ghost json = { json_of_error };

    #[inline(always)]
    fn push(&self, alloc: Global, buffer: &mut String) -> Result<(), AllocError> {
        push_text(alloc, buffer, error_name(*self))
    }
}

impl Written for Value {
    ghost json = { json_of };

    #[inline(always)]
    fn push(&self, alloc: Global, buffer: &mut String) -> Result<(), AllocError> {
        match self {
            Value::Invalid => buffer.push_str("null"),
            Value::Bool(truth) => buffer.push_str(truth_word(*truth)),
            Value::Int(number) => buffer.push_str(Digits::new().format(*number)),
            Value::Uint(number) => buffer.push_str(Digits::new().format(*number)),
            Value::Longlong(number) => buffer.push_str(Digits::new().format(*number)),
            Value::Ulonglong(number) => buffer.push_str(Digits::new().format(*number)),
            Value::Text(text) => push_text(alloc, buffer, text.as_str()),
        }
    }
}

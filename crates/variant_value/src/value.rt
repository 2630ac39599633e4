//! A value and its JSON.
ghost use Rattle.std.specs.Prelude.{◌≡◌, ◌↔◌, Some, Ok, IfOk, IsTrue, not};
ghost use Rattle.std.specs.Option.{ok_or};
ghost use Rattle.serde_json.specs.View.{view};
ghost use Rattle.plain_types.specs.Answers.{Answers};
ghost use Rattle.variant_value.specs.Values.{IsOfKind, IsShort, is_same, value_of, json_of, kind_of, inferred, converted};
ghost use Rattle.variant_value.specs.Values.{number_of, inferred_number, number_in, whole_number, text_of};

use plain_types::{Code, Fault, Text};
use serde_json::Number;
use signature_core::Kind;
use std::alloc::{AllocError, Global};
use std::mem;

/// The most bytes of UTF-8 that a text may have: a limit of our own.
pub const TEXT_BYTES: usize = 4096;

/// A property holds a value, and a signal carries some.
#[derive(PartialEq)]
pub enum Value {
    /// No value.
    Invalid,
    /// A truth.
    Bool(bool),
    /// A whole number of 32 bits with a sign.
    Int(i32),
    /// A whole number of 32 bits without a sign.
    Uint(u32),
    /// A whole number of 64 bits with a sign.
    Longlong(i64),
    /// A whole number of 64 bits without a sign.
    Ulonglong(u64),
    /// A text. `from_json` and `infer` give none of more than `TEXT_BYTES`.
    Text(Text),
}

// Each scope that drops a value calls this, where a derived `Drop` would have all kinds proved there.
impl Drop for Value {
    fn drop(self) {
        match self {
            Value::Invalid
            | Value::Bool(_)
            | Value::Int(_)
            | Value::Uint(_)
            | Value::Longlong(_)
            | Value::Ulonglong(_)
            | Value::Text(_) => (),
        }
    }
}

impl Value {
    /// Reads a value of this kind from JSON: true or false, a whole number in the kind's range, or a
    /// text. Any other JSON is `BadValue`, and a text of more than `TEXT_BYTES` is `Limit`. A number
    /// with a fraction or an exponent is not a whole number, nor is `-0`.
    pub fn from_json(alloc: Global, kind: Kind, json: &serde_json::Value) -> Result<Value, Fault>
        ensures exact { Answers result (value_of kind (view json.now)) }
        ensures of_kind { IfOk result (IsOfKind kind) }
    {
        let value = match kind {
            Kind::Bool => json.as_bool().map(Value::Bool),
            Kind::Text => match json.as_str() {
                Some(text) => Some(text_of(alloc, text)?),
                None => None,
            },
            _ => whole_number(json).and_then(|number| number_of(kind, number)),
        };
        value.ok_or(Fault::Refused(Code::BadValue))
    }

    /// The value in JSON; `Invalid` is null.
    pub fn to_json(&self, alloc: Global) -> Result<serde_json::Value, AllocError>
        ensures written { IfOk result (λ json. view json ≡ json_of self.now) }

        // A value of a kind, written so, is read again as that kind.
        ensures read_again { (kind : _) → IsOfKind kind self.now
            → value_of kind (json_of self.now) ≡ Ok self.now }
    {
        Ok(match self {
            Value::Invalid => serde_json::Value::Null,
            Value::Bool(truth) => serde_json::Value::Bool(*truth),
            Value::Int(number) => serde_json::Value::from(*number),
            Value::Uint(number) => serde_json::Value::from(*number),
            Value::Longlong(number) => serde_json::Value::from(*number),
            Value::Ulonglong(number) => serde_json::Value::from(*number),
            Value::Text(text) => serde_json::Value::String(String::from_str(alloc, text.as_str())?),
        })
    }

    /// Reads a value whose kind is not given from JSON: true or false, a text, `Invalid` for null, and
    /// a whole number of the first of the kinds `Int`, `Longlong` and `Ulonglong` that holds it. Any
    /// other JSON is `BadValue`, and a text of more than `TEXT_BYTES` is `Limit`.
    pub fn infer(alloc: Global, json: &serde_json::Value) -> Result<Value, Fault>
        ensures exact { Answers result (inferred (view json.now)) }
        ensures short { IfOk result IsShort }
    {
        match json {
            serde_json::Value::Null => Ok(Value::Invalid),
            serde_json::Value::Bool(truth) => Ok(Value::Bool(*truth)),
            serde_json::Value::Number(number) => number
                .as_i128()
                .and_then(inferred_number)
                .ok_or(Fault::Refused(Code::BadValue)),
            serde_json::Value::String(text) => text_of(alloc, text),
            serde_json::Value::Array(_) | serde_json::Value::Object(_) => {
                Err(Fault::Refused(Code::BadValue))
            }
        }
    }

    /// The value as one of this kind: a value of the kind is kept, and a number becomes a number
    /// of the kind where the kind's range holds it. A value that is refused is handed back.
    pub fn convert(self, kind: Kind) -> Result<Value, Value>
        ensures moved { result ≡ ok_or (converted kind self) self }
        ensures kept { kind_of self ≡ Some kind → result ≡ Ok self }
        ensures kind { IfOk result (λ value. kind_of value ≡ Some kind) }
    {
        if self.kind() == Some(kind) {
            return Ok(self);
        }
        match self.number().and_then(|number| number_of(kind, number)) {
            Some(value) => Ok(value),
            None => Err(self),
        }
    }

    /// The kind that the value is of; `Invalid` has none.
    pub fn kind(&self) -> Option<Kind>
        ensures { result ≡ kind_of self.now }
    {
        match self {
            Value::Invalid => None,
            Value::Bool(_) => Some(Kind::Bool),
            Value::Int(_) => Some(Kind::Int),
            Value::Uint(_) => Some(Kind::Uint),
            Value::Longlong(_) => Some(Kind::Longlong),
            Value::Ulonglong(_) => Some(Kind::Ulonglong),
            Value::Text(_) => Some(Kind::Text),
        }
    }

    /// The whole number that the value is, whatever its kind.
    fn number(&self) -> Option<i128>
        ensures { result ≡ number_in self.now }
    {
        match self {
            Value::Int(number) => Some(i128::from(*number)),
            Value::Uint(number) => Some(i128::from(*number)),
            Value::Longlong(number) => Some(i128::from(*number)),
            Value::Ulonglong(number) => Some(i128::from(*number)),
            Value::Invalid | Value::Bool(_) | Value::Text(_) => None,
        }
    }

    /// Whether the other value is of the same kind and has the same content.
    pub fn is_same(&self, other: &Value) -> bool
        ensures is { result ≡ is_same self.now other.now }
        ensures decides { IsTrue result ↔ (self.now ≡ other.now) }
    {
        self == other
    }

    /// Puts a value in the place of this one, and returns whether it is another. A truth or a number is
    /// stored in the place of one of its kind without a move of the whole value.
    #[inline]
    pub fn put(&mut self, value: Value) -> bool
        ensures changed { result ≡ not (is_same self.old value) }
        ensures new { self.new ≡ value }
    {
        match (&mut *self, &value) {
            (Value::Bool(stands), &Value::Bool(new)) => mem::replace(stands, new) != new,
            (Value::Int(stands), &Value::Int(new)) => mem::replace(stands, new) != new,
            (Value::Uint(stands), &Value::Uint(new)) => mem::replace(stands, new) != new,
            (Value::Longlong(stands), &Value::Longlong(new)) => mem::replace(stands, new) != new,
            (Value::Ulonglong(stands), &Value::Ulonglong(new)) => mem::replace(stands, new) != new,
            _ => self.put_whole(value),
        }
    }

    /// Puts a value of any other kind in the place of this one, and returns whether it is another.
    #[inline(never)]
    fn put_whole(&mut self, value: Value) -> bool
        ensures changed { result ≡ not (is_same self.old value) }
        ensures new { self.new ≡ value }
    {
        let is_change = !self.is_same(&value);
        *self = value;
        is_change
    }

    /// An equal value in memory of its own.
    pub fn copy(&self, alloc: Global) -> Result<Value, AllocError>
        ensures { IfOk result (λ value. value ≡ self.now) }
    {
        Ok(match self {
            Value::Invalid => Value::Invalid,
            Value::Bool(truth) => Value::Bool(*truth),
            Value::Int(number) => Value::Int(*number),
            Value::Uint(number) => Value::Uint(*number),
            Value::Longlong(number) => Value::Longlong(*number),
            Value::Ulonglong(number) => Value::Ulonglong(*number),
            Value::Text(text) => Value::Text(text.copy(alloc)?),
        })
    }
}

/// The whole number that the JSON is.
fn whole_number(json: &serde_json::Value) -> Option<i128>
    ensures { result ≡ whole_number (view json.now) }
{
    json.as_number().and_then(Number::as_i128)
}

/// The number as a value of a number kind, where the kind's range holds it.
fn number_of(kind: Kind, number: i128) -> Option<Value>
    ensures { result ≡ number_of kind number }
{
    match kind {
        Kind::Int => i32::try_from(number).ok().map(Value::Int),
        Kind::Uint => u32::try_from(number).ok().map(Value::Uint),
        Kind::Longlong => i64::try_from(number).ok().map(Value::Longlong),
        Kind::Ulonglong => u64::try_from(number).ok().map(Value::Ulonglong),
        Kind::Bool | Kind::Text => None,
    }
}

/// The number as a value of the first kind that holds it.
fn inferred_number(number: i128) -> Option<Value>
    ensures { result ≡ inferred_number number }
{
    number_of(Kind::Int, number)
        .or_else(|| number_of(Kind::Longlong, number))
        .or_else(|| number_of(Kind::Ulonglong, number))
}

/// The text as a value.
fn text_of(alloc: Global, text: &str) -> Result<Value, Fault>
    ensures { Answers result (text_of text.now) }
{
    if text.len() > TEXT_BYTES {
        return Err(Fault::Refused(Code::Limit));
    }
    Ok(Value::Text(Text::from_str(alloc, text)?))
}

//! Operators make a value of two.
ghost use Rattle.std.specs.Prelude.{◌≡◌, ◌≤ℤ◌, ◌+ℤ◌, ◌-ℤ◌, ◌++◌, ◌^◌, ◌-◌, pos, neg_ℤ, IfSome, bytes_eq, int_lt, option_map, option_and_then};
ghost use Rattle.std.specs.Bool.{beq};
ghost use Rattle.std.specs.Ordering.{int_eq};
ghost use Rattle.plain_types.specs.Answers.{Answers};
ghost use Rattle.variant_value.specs.Values.{truth_in, number_in, text_in, number_of, inferred_number, text_of};
ghost use Rattle.signature_core.specs.declared.kind.Kind.TheVariants as kind;
ghost use Rattle.term_evaluation.specs.Stating.{state_in, state_value};
ghost use Rattle.term_evaluation.specs.Operations.{of_two, are_equal, text_value, applied};

use plain_types::{Code, Fault, Text};
use std::alloc::Global;
use term_core::Operator;
use variant_value::{TEXT_BYTES, Value};

/// Applies the operator to its operands' values. Operands of another sort, and a number that no kind holds, are
/// `BadValue`; a text of more than `TEXT_BYTES` is `Limit`.
pub fn apply(alloc: Global, operator: Operator, a: &Value, b: &Value) -> Result<Value, Fault>
    ensures { Answers result (applied operator a.now b.now) }
{
    let value = match operator {
        Operator::Sum => sum(a, b),
        Operator::Difference => difference(a, b),
        Operator::Less => less(a, b).map(Value::Bool),
        Operator::Equal => equal(a, b).map(Value::Bool),
        Operator::Concatenated => return concatenated(alloc, a, b),
    };
    value.ok_or(Fault::Refused(Code::BadValue))
}

/// The truth that a value is.
pub fn truth(value: &Value) -> Option<bool>
    ensures { result ≡ truth_in value.now }
{
    match value {
        Value::Bool(truth) => Some(*truth),
        Value::Invalid
        | Value::Int(_)
        | Value::Uint(_)
        | Value::Longlong(_)
        | Value::Ulonglong(_)
        | Value::Text(_) => None,
    }
}

/// The whole number that a value is, whatever its kind.
fn number(value: &Value) -> Option<i128>
    ensures exact { result ≡ number_in value.now }
    ensures least { IfSome result (λ number. neg_ℤ (pos (2 ^ 63)) ≤ℤ number) }
    ensures most { IfSome result (λ number. number ≤ℤ pos (2 ^ 64 - 1)) }
{
    match value {
        Value::Int(number) => Some(i128::from(*number)),
        Value::Uint(number) => Some(i128::from(*number)),
        Value::Longlong(number) => Some(i128::from(*number)),
        Value::Ulonglong(number) => Some(i128::from(*number)),
        Value::Invalid | Value::Bool(_) | Value::Text(_) => None,
    }
}

fn text(value: &Value) -> Option<&Text>
    ensures { option_map (λ text. text.now) result ≡ text_in value.now }
{
    match value {
        Value::Text(text) => Some(text),
        Value::Invalid
        | Value::Bool(_)
        | Value::Int(_)
        | Value::Uint(_)
        | Value::Longlong(_)
        | Value::Ulonglong(_) => None,
    }
}

/// The number as a value of the first kind that holds it.
fn number_value(number: i128) -> Option<Value>
    ensures { result ≡ inferred_number number }
{
    int_value(number)
        .or_else(|| longlong_value(number))
        .or_else(|| ulonglong_value(number))
}

/// A state as a value: a number of the first kind that holds it.
pub fn state_value(state: u64) -> Value
    ensures { result ≡ state_value state }
{
    number_value(i128::from(state)).unwrap_or(Value::Ulonglong(state))
}

/// The state that a value is: a whole number from 0 to 2^64 - 1.
pub(crate) fn state_in(value: &Value) -> Option<u64>
    ensures { result ≡ state_in value.now }
{
    let number = number(value)?;
    match u64::try_from(number) {
        Ok(state) => Some(state),
        Err(_) => None,
    }
}

fn int_value(number: i128) -> Option<Value>
    ensures { result ≡ number_of kind.Int number }
{
    match i32::try_from(number) {
        Ok(number) => Some(Value::Int(number)),
        Err(_) => None,
    }
}

fn longlong_value(number: i128) -> Option<Value>
    ensures { result ≡ number_of kind.Longlong number }
{
    match i64::try_from(number) {
        Ok(number) => Some(Value::Longlong(number)),
        Err(_) => None,
    }
}

fn ulonglong_value(number: i128) -> Option<Value>
    ensures { result ≡ number_of kind.Ulonglong number }
{
    match u64::try_from(number) {
        Ok(number) => Some(Value::Ulonglong(number)),
        Err(_) => None,
    }
}

fn sum(a: &Value, b: &Value) -> Option<Value>
    ensures { result ≡ option_and_then inferred_number (of_two number_in (λ x y. x +ℤ y) a.now b.now) }
{
    number_value(number(a)? + number(b)?)
}

fn difference(a: &Value, b: &Value) -> Option<Value>
    ensures { result ≡ option_and_then inferred_number (of_two number_in (λ x y. x -ℤ y) a.now b.now) }
{
    number_value(number(a)? - number(b)?)
}

fn less(a: &Value, b: &Value) -> Option<bool>
    ensures { result ≡ of_two number_in int_lt a.now b.now }
{
    Some(number(a)? < number(b)?)
}

fn equal(a: &Value, b: &Value) -> Option<bool>
    ensures { result ≡ are_equal a.now b.now }
{
    let numbers = equal_numbers(a, b);
    let truths = equal_truths(a, b);
    let texts = equal_texts(a, b);
    numbers.or(truths).or(texts)
}

fn equal_numbers(a: &Value, b: &Value) -> Option<bool>
    ensures { result ≡ of_two number_in int_eq a.now b.now }
{
    Some(number(a)? == number(b)?)
}

fn equal_truths(a: &Value, b: &Value) -> Option<bool>
    ensures { result ≡ of_two truth_in beq a.now b.now }
{
    Some(truth(a)? == truth(b)?)
}

fn equal_texts(a: &Value, b: &Value) -> Option<bool>
    ensures { result ≡ of_two text_in bytes_eq a.now b.now }
{
    Some(text(a)? == text(b)?)
}

/// The first text followed by the second.
fn concatenated(alloc: Global, a: &Value, b: &Value) -> Result<Value, Fault>
    ensures { Answers result (text_value (of_two text_in (λ x y. x ++ y) a.now b.now)) }
{
    match (text(a), text(b)) {
        (Some(a), Some(b)) => joined_text(alloc, a.as_str(), b.as_str()),
        _ => Err(Fault::Refused(Code::BadValue)),
    }
}

fn joined_text(alloc: Global, a: &str, b: &str) -> Result<Value, Fault>
    ensures { Answers result (text_of (a.now ++ b.now)) }
{
    if a.len().saturating_add(b.len()) > TEXT_BYTES {
        return Err(Fault::Refused(Code::Limit));
    }
    let mut text = String::from_str(alloc, a)?;
    text.push_str(b)?;
    Ok(Value::Text(Text::from_string(text)?))
}

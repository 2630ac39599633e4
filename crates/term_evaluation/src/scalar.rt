//! Ints and truths, which an evaluation returns in registers. Any other result, such as a text or a fault, it puts
//! aside.
ghost use Rattle.std.specs.Prelude.{◌≡◌, Err, IfSome, Ok, Some};
ghost use Rattle.variant_value.specs.declared.value.Value.TheVariants as v;
ghost use Rattle.variant_value.specs.Values.{inferred_number};
ghost use Rattle.term_evaluation.specs.declared.halt.Halt.TheVariants.{Refused};
ghost use Rattle.term_evaluation.specs.Operations.{applied};
ghost use Rattle.term_evaluation.specs.Outcomes.{Ends, answer};
ghost use Rattle.term_evaluation.specs.Scalars.{Continues, IsTaken, IsTruth, held, scalar_of, scalar_value};

use crate::halt::Halt;
use crate::operations::{apply, truth};
use plain_types::Code;
use std::alloc::Global;
use std::mem;
use term_core::Operator;
use variant_value::Value;

/// The value of an expression, where it is an int or a truth.
#[derive(Clone, Copy)]
pub(crate) enum Scalar {
    Int(i32),
    True,
    False,
    /// The result that the evaluation put aside.
    Other,
}

impl Scalar {
    /// The scalar that a value is.
    #[inline(always)]
    fn of(value: &Value) -> Scalar
        ensures { result ≡ scalar_of value.now }
    {
        match value {
            Value::Int(number) => Scalar::Int(*number),
            Value::Bool(true) => Scalar::True,
            Value::Bool(false) => Scalar::False,
            Value::Invalid
            | Value::Uint(_)
            | Value::Longlong(_)
            | Value::Ulonglong(_)
            | Value::Text(_) => Scalar::Other,
        }
    }
}

/// The result of an evaluation that returned this scalar.
pub(crate) fn held<O: Drop>(scalar: Scalar, aside: Result<Value, Halt<O>>) -> Result<Value, Halt<O>>
    ensures { result ≡ held scalar aside }
{
    match scalar {
        Scalar::Int(number) => Ok(Value::Int(number)),
        Scalar::True => Ok(Value::Bool(true)),
        Scalar::False => Ok(Value::Bool(false)),
        Scalar::Other => aside,
    }
}

/// Puts the result of an evaluation aside, unless it is a scalar.
pub(crate) fn put_aside<O: Drop>(
    found: Result<Value, Halt<O>>,
    aside: &mut Result<Value, Halt<O>>,
) -> Scalar
    ensures { held result aside.new ≡ found }
{
    let scalar = match &found {
        Ok(value) => Scalar::of(value),
        Err(_) => Scalar::Other,
    };
    if let Scalar::Other = scalar {
        *aside = found;
    }
    scalar
}

/// Puts a refusal aside.
#[inline(never)]
pub(crate) fn refuse<O: Drop>(code: Code, aside: &mut Result<Value, Halt<O>>) -> Scalar
    ensures { held result aside.new ≡ Err (Refused code) }
{
    *aside = Err(Halt::Refused(code));
    Scalar::Other
}

/// The value of a constant.
#[inline(always)]
pub(crate) fn constant<O: Drop>(
    alloc: Global,
    value: &Value,
    aside: &mut Result<Value, Halt<O>>,
) -> Scalar
    ensures { Ends (held result aside.new) (Ok value.now) }
{
    match Scalar::of(value) {
        Scalar::Other => copy_aside(alloc, value, aside),
        scalar => scalar,
    }
}

#[inline(never)]
fn copy_aside<O: Drop>(alloc: Global, value: &Value, aside: &mut Result<Value, Halt<O>>) -> Scalar
    ensures { Ends (held result aside.new) (Ok value.now) }
{
    put_aside(copied(alloc, value), aside)
}

fn copied<O: Drop>(alloc: Global, value: &Value) -> Result<Value, Halt<O>>
    ensures { Ends result (Ok value.now) }
{
    Ok(value.copy(alloc)?)
}

/// Takes the value that an evaluation ended with, and returns whether it has one. A fault stays aside.
#[inline(always)]
pub(crate) fn take<O: Drop>(
    scalar: Scalar,
    aside: &mut Result<Value, Halt<O>>,
    value: &mut Value,
) -> bool
    ensures { IsTaken (held scalar aside.old) result value.new aside.new }
{
    *value = match scalar {
        Scalar::Int(number) => Value::Int(number),
        Scalar::True => Value::Bool(true),
        Scalar::False => Value::Bool(false),
        Scalar::Other => return take_aside(aside, value),
    };
    true
}

#[inline(never)]
fn take_aside<O: Drop>(aside: &mut Result<Value, Halt<O>>, value: &mut Value) -> bool
    ensures { IsTaken aside.old result value.new aside.new }
{
    match mem::replace(aside, Err(Halt::Memory)) {
        Ok(found) => {
            *value = found;
            true
        }
        Err(halt) => {
            *aside = Err(halt);
            false
        }
    }
}

/// The truth that an evaluation ended with. Puts aside a fault if it is not a truth.
#[inline(always)]
pub(crate) fn truth_of<O: Drop>(test: Scalar, aside: &mut Result<Value, Halt<O>>) -> Option<bool>
    ensures { IsTruth (held test aside.old) result aside.new }
{
    match test {
        Scalar::True => Some(true),
        Scalar::False => Some(false),
        Scalar::Int(_) => {
            refuse(Code::BadValue, aside);
            None
        }
        Scalar::Other => truth_aside(aside),
    }
}

#[inline(never)]
fn truth_aside<O: Drop>(aside: &mut Result<Value, Halt<O>>) -> Option<bool>
    ensures { IsTruth aside.old result aside.new }
{
    let truth = match aside {
        Ok(value) => truth(value),
        Err(_) => return None,
    };
    if truth.is_none() {
        *aside = Err(Halt::Refused(Code::BadValue));
    }
    truth
}

/// Applies the operator to a value and to the result of the second operand.
#[inline(always)]
pub(crate) fn apply_to<O: Drop>(
    alloc: Global,
    operator: Operator,
    a: &Value,
    b: Scalar,
    aside: &mut Result<Value, Halt<O>>,
) -> Scalar
    ensures { Continues (held b aside.old) (applied operator a.now) (held result aside.new) }
{
    if let (Value::Int(a), Scalar::Int(b)) = (a, b) {
        match of_ints(operator, *a, b) {
            Scalar::Other => {}
            found => return found,
        }
    }
    apply_aside(alloc, operator, a, b, aside)
}

#[inline(never)]
fn apply_aside<O: Drop>(
    alloc: Global,
    operator: Operator,
    a: &Value,
    b: Scalar,
    aside: &mut Result<Value, Halt<O>>,
) -> Scalar
    ensures { Continues (held b aside.old) (applied operator a.now) (held result aside.new) }
{
    let mut second = Value::Invalid;
    if !take(b, aside, &mut second) {
        return Scalar::Other;
    }
    put_aside(applied(alloc, operator, a, &second), aside)
}

fn applied<O: Drop>(
    alloc: Global,
    operator: Operator,
    a: &Value,
    b: &Value,
) -> Result<Value, Halt<O>>
    ensures { Ends result (answer (applied operator a.now b.now)) }
{
    Ok(apply(alloc, operator, a, b)?)
}

/// The result of the operator for two ints, where it is a scalar.
#[inline(always)]
fn of_ints(operator: Operator, a: i32, b: i32) -> Scalar
    ensures { IfSome (scalar_value result) (λ value. applied operator (v.Int a) (v.Int b) ≡ Ok value) }
{
    match operator {
        Operator::Sum => of_number(i64::from(a) + i64::from(b)),
        Operator::Difference => of_number(i64::from(a) - i64::from(b)),
        Operator::Less => of_truth(a < b),
        Operator::Equal => of_truth(a == b),
        Operator::Concatenated => Scalar::Other,
    }
}

fn of_number(number: i64) -> Scalar
    ensures { IfSome (scalar_value result) (λ value. inferred_number number ≡ Some value) }
{
    match i32::try_from(number) {
        Ok(number) => Scalar::Int(number),
        Err(_) => Scalar::Other,
    }
}

fn of_truth(truth: bool) -> Scalar
    ensures { scalar_value result ≡ Some (v.Bool truth) }
{
    if truth { Scalar::True } else { Scalar::False }
}

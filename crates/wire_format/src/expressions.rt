//! An expression is written as what it is read from, in its shortest form.
#![tactic(auto, unfolding(serde_json::proofs::OnLiterals::serde_json_on_literals))]

ghost use Rattle.std.specs.Prelude.{◌≡◌, ◌++◌, OnOk, codes, string_bytes};
ghost use Rattle.serde_json.specs.Data.{string};
ghost use Rattle.serde_json.specs.Written.{compact_text};
ghost use Rattle.term_core.specs.Term.{arg, binary, choice, const, state};
ghost use Rattle.wire_format.specs.Terms.{json_of_read, json_of_term, operator_key};

use crate::written::put;
use plain_types::Text;
use std::alloc::{AllocError, Global};
use term_core::{Expr, Node, Operator, Target};
use variant_value::Value;

/// Appends an expression.
#[cycle(expressions)]
pub(crate) fn push_expression(
    alloc: Global,
    buffer: &mut String,
    expr: &Expr,
) -> Result<(), AllocError>
    ensures { OnOk result (string_bytes buffer.new
        ≡ string_bytes buffer.old ++ compact_text (json_of_term expr.now)) }
{
    match &expr.node {
        Node::Const(value) => push_constant(alloc, buffer, value),
        Node::Arg(place) => push_argument(alloc, buffer, *place),
        Node::State => push_state(buffer),
        Node::Prop(target, name) => push_property(alloc, buffer, target, name),
        Node::Binary(operator, a, b) => push_binary(alloc, buffer, *operator, a, b),
        Node::Choice(test, a, b) => push_choice(alloc, buffer, test, a, b),
    }
}

fn push_constant(alloc: Global, buffer: &mut String, value: &Value) -> Result<(), AllocError>
    ensures { OnOk result (string_bytes buffer.new
        ≡ string_bytes buffer.old ++ compact_text (json_of_term (const value.now))) }
{
    put(alloc, buffer, "{\"const\":", value)?;
    buffer.push_str("}")?;
    Ok(())
}

fn push_argument(alloc: Global, buffer: &mut String, place: usize) -> Result<(), AllocError>
    ensures { OnOk result (string_bytes buffer.new
        ≡ string_bytes buffer.old ++ compact_text (json_of_term (arg place))) }
{
    put(alloc, buffer, "{\"arg\":", &place)?;
    buffer.push_str("}")?;
    Ok(())
}

fn push_state(buffer: &mut String) -> Result<(), AllocError>
    ensures { OnOk result (string_bytes buffer.new
        ≡ string_bytes buffer.old ++ compact_text (json_of_term state)) }
{
    buffer.push_str("{\"state\":true}")?;
    Ok(())
}

/// Appends a property of a target, which is left out where it is the object itself.
fn push_property(
    alloc: Global,
    buffer: &mut String,
    target: &Target,
    name: &Text,
) -> Result<(), AllocError>
    ensures { OnOk result (string_bytes buffer.new
        ≡ string_bytes buffer.old ++ compact_text (json_of_read target.now name.now)) }
{
    match target {
        Target::Itself => {
            put(alloc, buffer, "{\"prop\":", name)?;
            buffer.push_str("}")?;
        }
        Target::Sender => {
            put(alloc, buffer, "{\"of\":\"sender\",\"prop\":", name)?;
            buffer.push_str("}")?;
        }
        Target::Child(child) => {
            put(alloc, buffer, "{\"of\":{\"child\":", child)?;
            put(alloc, buffer, "},\"prop\":", name)?;
            buffer.push_str("}")?;
        }
        Target::Object(number) => {
            put(alloc, buffer, "{\"of\":", number)?;
            put(alloc, buffer, ",\"prop\":", name)?;
            buffer.push_str("}")?;
        }
    }
    Ok(())
}

/// The JSON text before the operands of an operator.
fn operator_opening(operator: Operator) -> &'static str
    ensures { result.now ≡ codes "{" ++ (compact_text (string (operator_key operator)) ++ codes ":[") }
{
    match operator {
        Operator::Sum => "{\"+\":[",
        Operator::Difference => "{\"-\":[",
        Operator::Less => "{\"<\":[",
        Operator::Equal => "{\"=\":[",
        Operator::Concatenated => "{\"cat\":[",
    }
}

#[cycle(expressions)]
fn push_binary(
    alloc: Global,
    buffer: &mut String,
    operator: Operator,
    a: &Expr,
    b: &Expr,
) -> Result<(), AllocError>
    ensures { OnOk result (string_bytes buffer.new
        ≡ string_bytes buffer.old ++ compact_text (json_of_term (binary operator a.now b.now))) }
{
    buffer.push_str(operator_opening(operator))?;
    push_expression(alloc, buffer, a)?;
    buffer.push_str(",")?;
    push_expression(alloc, buffer, b)?;
    buffer.push_str("]}")?;
    Ok(())
}

#[cycle(expressions)]
fn push_choice(
    alloc: Global,
    buffer: &mut String,
    test: &Expr,
    a: &Expr,
    b: &Expr,
) -> Result<(), AllocError>
    ensures { OnOk result (string_bytes buffer.new
        ≡ string_bytes buffer.old ++ compact_text (json_of_term (choice test.now a.now b.now))) }
{
    buffer.push_str("{\"if\":[")?;
    push_expression(alloc, buffer, test)?;
    buffer.push_str(",")?;
    push_expression(alloc, buffer, a)?;
    buffer.push_str(",")?;
    push_expression(alloc, buffer, b)?;
    buffer.push_str("]}")?;
    Ok(())
}

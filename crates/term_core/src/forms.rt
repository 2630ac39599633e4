//! Reading expressions.
ghost use Rattle.std.specs.Prelude.{◌≡◌, Some, IfSome, IfNone};
ghost use Rattle.serde_json.specs.Data.{Data, array, item, no_items, object, member, no_members};
ghost use Rattle.serde_json.specs.View.{view};
ghost use Rattle.plain_types.specs.Answers.{Answers};
ghost use Rattle.term_core.specs.Forms.{term_in, argument_in, state_in, subject_in, property_in, binary_in, choice_in};

use crate::expr::Expr;
use crate::json::{BAD, constant, has_only, name, natural, target};
use crate::operator::{Form, Operator};
use crate::scope::Scope;
use crate::target::Target;
use plain_types::Fault;
use serde_json::Value as Json;
use std::alloc::Global;

/// The target at the key `of`, or the object itself where the key is absent.
pub(crate) fn subject(alloc: Global, json: &Json) -> Result<Target, Fault>
    ensures { Answers result (subject_in (view json.now)) }
{
    match json.get("of") {
        Some(of) => target(alloc, of),
        None => Ok(Target::Itself),
    }
}

fn argument(scope: Scope, json: &Json) -> Result<Expr, Fault>
    ensures { Answers result (argument_in scope (view json.now)) }
{
    let place = natural(json)? as usize;
    if place >= scope.params() {
        return Err(BAD);
    }
    Ok(Expr::argument(place))
}

fn state(scope: Scope, json: &Json) -> Result<Expr, Fault>
    ensures { Answers result (state_in scope (view json.now)) }
{
    if !scope.has_state() || !json.as_bool().unwrap_or(false) {
        return Err(BAD);
    }
    Ok(Expr::state())
}

fn property(alloc: Global, scope: Scope, json: &Json) -> Result<Expr, Fault>
    ensures { Answers result (property_in scope (view json.now)) }
{
    let Some(property) = json.get("prop") else {
        return Err(BAD);
    };
    let name = name(alloc, property)?;
    let target = subject(alloc, json)?;
    if !scope.has_target(&target) || !has_only(json, &["prop", "of"]) {
        return Err(BAD);
    }
    Ok(Expr::property(target, name))
}

/// The one member of an object that has no other.
fn only_member(json: &Json) -> Option<(&str, &Json)>
    ensures one { IfSome result (λ found. view json.now ≡ object (member found.0.now (view found.1.now) no_members)) }
    ensures none { IfNone result ((key : _) (value : Data) → view json.now ≡ object (member key value no_members) → ⊥) }
{
    let members = json.as_object()?;
    let mut all = members.iter();
    let (key, value) = all.next()?;
    match all.next() {
        None => Some((key.as_str(), value)),
        Some(_) => None,
    }
}

/// Reads an expression of any size. JSON that is not an expression is `BadValue`.
#[cycle(forms)]
pub(crate) fn expression(alloc: Global, scope: Scope, json: &Json) -> Result<Expr, Fault>
    ensures { Answers result (term_in scope (view json.now)) }
{
    if json.get("prop").is_some() {
        return property(alloc, scope, json);
    }
    let Some((key, operand)) = only_member(json) else {
        return Err(BAD);
    };
    match Form::from_key(key) {
        Some(Form::Const) => Ok(Expr::constant(constant(alloc, operand)?)),
        Some(Form::Arg) => argument(scope, operand),
        Some(Form::State) => state(scope, operand),
        Some(Form::Binary(operator)) => binary(alloc, scope, operator, operand),
        Some(Form::Choice) => choice(alloc, scope, operand),
        None => Err(BAD),
    }
}

/// The items of an array of two.
fn pair(json: &Json) -> Option<(&Json, &Json)>
    ensures two { IfSome result (λ found. view json.now
        ≡ array (item (view found.0.now) (item (view found.1.now) no_items))) }
    ensures none { IfNone result ((a b : Data) → view json.now ≡ array (item a (item b no_items)) → ⊥) }
{
    match json.as_array()?.as_slice() {
        [a, b] => Some((a, b)),
        _ => None,
    }
}

/// The items of an array of three.
fn triple(json: &Json) -> Option<(&Json, &Json, &Json)>
    ensures three { IfSome result (λ found. view json.now
        ≡ array (item (view found.0.now) (item (view found.1.now) (item (view found.2.now) no_items)))) }
    ensures none { IfNone result ((a b c : Data)
        → view json.now ≡ array (item a (item b (item c no_items))) → ⊥) }
{
    match json.as_array()?.as_slice() {
        [a, b, c] => Some((a, b, c)),
        _ => None,
    }
}

#[cycle(forms)]
fn binary(alloc: Global, scope: Scope, operator: Operator, json: &Json) -> Result<Expr, Fault>
    ensures { Answers result (binary_in scope operator (view json.now)) }
{
    let Some((a, b)) = pair(json) else {
        return Err(BAD);
    };
    let a = expression(alloc, scope, a)?;
    let b = expression(alloc, scope, b)?;
    Ok(Expr::binary(alloc, operator, a, b)?)
}

#[cycle(forms)]
fn choice(alloc: Global, scope: Scope, json: &Json) -> Result<Expr, Fault>
    ensures { Answers result (choice_in scope (view json.now)) }
{
    let Some((test, a, b)) = triple(json) else {
        return Err(BAD);
    };
    let test = expression(alloc, scope, test)?;
    let a = expression(alloc, scope, a)?;
    let b = expression(alloc, scope, b)?;
    Ok(Expr::choice(alloc, test, a, b)?)
}

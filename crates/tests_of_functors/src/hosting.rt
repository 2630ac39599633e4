//! Functors of a host's own, whose bodies and next states are read from JSON: a counter, and a debouncer.
ghost use Rattle.std.specs.Prelude.{◌∷◌, [], IfOk};
ghost use Rattle.signature_core.specs.declared.kind.Kind.TheVariants.{Int};
ghost use Rattle.stored_slots.specs.Functors.{IsBodyFor};
ghost use Rattle.term_core.specs.Bodies.{IsNext};
ghost use Rattle.command_line.specs.Answering.{AnswersBy};

use crate::functors::number_set;
use plain_types::{Fault, Items, Text};
use serde_json::Value as Json;
use signature_core::Kind;
use std::alloc::{AllocError, Global};
use std::test::Fail;
use stored_slots::{Closure, Functors};
use term_core::{Action, Body, Expr};
use term_evaluation::{after, copied_body, unfold};
use variant_value::Value;

/// Sets `x` to how often it was called.
const COUNTER: &str = r#"[
[{"set":"x","to":{"+":[{"state":true},{"const":1}]}}],
{"+":[{"state":true},{"const":1}]}]"#;

/// Sets `x` to its argument where that differs from the argument of the call before. Its state is the last
/// argument plus 2147483649, which is never 0 for an `int`; 0 means that there was no call before.
const DEBOUNCER: &str = r#"[
[{"when":{"=":[{"state":true},{"+":[{"arg":0},{"const":2147483649}]}]},"then":[],
"else":[{"set":"x","to":{"arg":0}}]}],
{"+":[{"arg":0},{"const":2147483649}]}]"#;

fn json(alloc: Global, text: &str) -> Result<Json, Fault> {
    match Json::from_str(alloc, text) {
        Ok(json) => Ok(json),
        Err(_) => Err(Fault::Memory),
    }
}

/// The body and the next state that are a pair in JSON, of a functor of an `int`.
fn parts(alloc: Global, pair: &str) -> Result<(Body, Expr), Fault>
    ensures { IfOk result (λ parts. IsBodyFor (Int ∷ []) parts.0 × IsNext 1 parts.1) }
{
    let pair = json(alloc, pair)?;
    let null = Json::Null;
    let body = Body::from_json_state(alloc, pair.get(0).unwrap_or(&null), 1)?;
    let next = Expr::next_from_json(alloc, pair.get(1).unwrap_or(&null), 1)?;
    Ok((body, next))
}

/// Hands in a functor of an `int`, whose body and next state are a pair in JSON, and calls it with these
/// numbers, each time over the state that the call before has left: what it sets `x` to. One closure does
/// for every such pair.
fn numbers_set(alloc: Global, pair: &str, given: &[i32]) -> Result<Vec<Option<i32>>, Fault> {
    let (body, next) = parts(alloc, pair)?;
    let own_body = copied_body(alloc, &body)?;
    let own_next = next.copy(alloc)?;
    let run: Closure = Box::new(
        alloc,
        move |alloc: Global, found: u64, args: &[Value]| -> Result<(Vec<Action>, u64), AllocError>
            ensures { AnswersBy own_body own_next found args.now result }
        {
            let actions = unfold(alloc, &own_body, found, args)?;
            Ok((actions.into_vec(), after(alloc, &own_next, found, args)?))
        },
    )?;
    let mut params = Items::new(alloc);
    params.push(Kind::Int)?;
    let mut functors = Functors::new(alloc);
    functors.add(Text::from_str(alloc, "own")?, params, body, next, run)?;
    let mut state = 0;
    let mut numbers = Vec::new(alloc);
    for number in given {
        let (actions, follows) = functors.call(0, state, &[Value::Int(*number)])?;
        numbers.push(number_set(alloc, actions.as_slice())?)?;
        state = follows;
    }
    Ok(numbers)
}

#[test]
fn counter_counts_its_calls(rt: HostRuntime) -> Result<(), Fail> {
    let numbers = numbers_set(rt.alloc(), COUNTER, &[5, 5, -1])?;
    assert_eq!(rt; numbers.as_slice(), [Some(1), Some(2), Some(3)].as_slice());
    Ok(())
}

#[test]
fn debouncer_lets_through_what_is_new(rt: HostRuntime) -> Result<(), Fail> {
    let given = [0, 0, 7, 7, i32::MIN, i32::MIN, i32::MAX, 7];
    let numbers = numbers_set(rt.alloc(), DEBOUNCER, &given)?;
    let wanted = [
        Some(0),
        None,
        Some(7),
        None,
        Some(i32::MIN),
        None,
        Some(i32::MAX),
        Some(7),
    ];
    assert_eq!(rt; numbers.as_slice(), wanted.as_slice());
    Ok(())
}

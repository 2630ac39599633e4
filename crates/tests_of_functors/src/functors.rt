//! Functors that are handed in, called, found and looked at.
ghost use Rattle.std.specs.Prelude.{◌≡◌, [], IfOk};
ghost use Rattle.term_core.specs.Term.{state};
ghost use Rattle.term_evaluation.specs.Stating.{after};

use crate::handing::answers;
use command_line::kept_state;
use plain_types::{Code, Fault, Items, Text};
use std::alloc::{AllocError, Global};
use std::test::Fail;
use stored_slots::{Closure, FUNCTORS, Functors};
use term_core::{Action, Body, Expr, Node, SingleAction, Step};
use term_evaluation::{Halt, NoObjects, evaluate};
use variant_value::Value;

/// The value of an expression that speaks of no object, or nothing where it has none.
fn value_of(alloc: Global, expr: &Expr) -> Result<Option<Value>, AllocError> {
    match evaluate(alloc, expr, &[], &NoObjects) {
        Ok(value) => Ok(Some(value)),
        Err(Halt::Memory) => Err(AllocError),
        Err(_) => Ok(None),
    }
}

/// The number that actions set a property to, through branches that are nested as deep as those of
/// `clamp`.
pub fn number_set(alloc: Global, actions: &[Action]) -> Result<Option<i32>, AllocError> {
    let mut left = actions;
    for _ in 0..3 {
        let Some(action) = left.first() else {
            return Ok(None);
        };
        match &action.step {
            Step::Single(SingleAction::Set { value, .. }) => {
                return match &value_of(alloc, value)? {
                    Some(Value::Int(number)) => Ok(Some(*number)),
                    _ => Ok(None),
                };
            }
            Step::Single(_) => return Ok(None),
            Step::When(test, held, failed) => {
                left = match &value_of(alloc, test)? {
                    Some(Value::Bool(true)) => held,
                    _ => failed,
                };
            }
        }
    }
    Ok(None)
}

/// The numbers that `clamp` sets a property to where it is called with these.
fn numbers_set(alloc: Global, given: &[i32]) -> Result<Vec<Option<i32>>, Fault> {
    let mut numbers = Vec::new(alloc);
    for actions in answers(alloc, given)? {
        numbers.push(number_set(alloc, actions.as_slice())?)?;
    }
    Ok(numbers)
}

#[test]
fn clamp_keeps_to_its_bounds(rt: HostRuntime) -> Result<(), Fail> {
    let set = numbers_set(rt.alloc(), &[250, -5, 50])?;
    assert!(rt; set.as_slice() == [Some(100), Some(0), Some(50)].as_slice());
    Ok(())
}

/// Whether `add` returned what it must after this many functors.
fn is_as_wanted(count: usize, added: Result<(), Fault>) -> bool {
    match added {
        Ok(()) => count < FUNCTORS,
        Err(Fault::Refused(Code::Limit)) => count == FUNCTORS,
        Err(Fault::Refused(Code::NameTaken)) => count > FUNCTORS,
        Err(_) => false,
    }
}

/// Names, and the index at which each is found.
const INDICES: &[(&str, Option<u32>)] = &[
    ("0", Some(0)),
    ("25", Some(25)),
    ("255", Some(255)),
    ("256", None),
    ("2555", None),
    ("", None),
];

fn are_found(functors: &Functors) -> bool {
    for (name, wanted) in INDICES {
        if functors.find(*name) != *wanted {
            return false;
        }
    }
    true
}

/// The name of the functor at an index, or an empty text where no functor has that index.
fn name_of(functors: &Functors, index: u32) -> &str {
    match functors.row(index) {
        Some(functor) => functor.name.as_str(),
        None => "",
    }
}

fn have_names(functors: &Functors) -> bool {
    name_of(functors, 0) == "0" && name_of(functors, 255) == "255" && name_of(functors, 256) == ""
}

/// Hands in as many functors as there may be, each named by its index, then one more, and one of a name
/// that is there: whether all is as it has to be.
fn are_as_wanted(alloc: Global) -> Result<bool, AllocError> {
    let mut functors = Functors::new(alloc);
    for count in 0..FUNCTORS + 2 {
        let run: Closure = Box::new(
            alloc,
            |alloc: Global, found: u64, args: &[Value]| -> Result<(Vec<Action>, u64), AllocError>
                ensures { IfOk result (λ answer. (answer.0.items ≡ []) × (answer.1 ≡ after state found args.now)) }
            { Ok((Vec::new(alloc), kept_state(found))) },
        )?;
        let body = Body {
            params: 0,
            actions: Items::new(alloc),
        };
        let name = Text::from_string((count % (FUNCTORS + 1)).to_string(alloc)?)?;
        let next = Expr { node: Node::State };
        let added = functors.add(name, Items::new(alloc), body, next, run);
        if !is_as_wanted(count, added) {
            return Ok(false);
        }
    }
    Ok(are_found(&functors) && have_names(&functors))
}

#[test]
fn functors_have_names_and_are_few(rt: HostRuntime) -> Result<(), Fail> {
    assert!(rt; are_as_wanted(rt.alloc())?);
    Ok(())
}

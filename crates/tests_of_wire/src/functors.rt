//! A functor whose closure finds no memory.
ghost use Rattle.std.specs.Prelude.{◌≡◌, [], IfOk};
ghost use Rattle.term_core.specs.Term.{state};
ghost use Rattle.term_evaluation.specs.Stating.{after};

use crate::fakes::hashing;
use crate::lines::lamps;
use crate::served::{Host, TURNS, answers};
use plain_types::{Items, Text};
use server_world::Server;
use std::alloc::{AllocError, Global};
use std::test::Fail;
use stored_slots::{Closure, Functors};
use term_core::{Action, Body, Expr, Node};
use variant_value::Value;

/// In both sessions a signal calls the functor; it is sent in one of them alone.
const LINES: &str = r#"{"class":"Switch","do":"new","session":"a"}
{"context":1,"do":"connectFunctor","functor":"starved","sender":1,"session":"a","signal":"released()"}
{"class":"Switch","do":"new","session":"b"}
{"context":1,"do":"connectFunctor","functor":"starved","sender":1,"session":"b","signal":"released()"}
{"args":[],"do":"invoke","method":"released()","object":1,"session":"a"}
{"do":"get","object":1,"property":"objectName","session":"a"}
{"do":"get","object":1,"property":"objectName","session":"b"}
"#;

const TOLD: &str = r#"{"reply":1,"session":"a"}
{"reply":1,"session":"a"}
{"reply":1,"session":"b"}
{"reply":1,"session":"b"}
{"error":"E21","session":"a"}
{"error":"E20","session":"a"}
{"reply":"","session":"b"}
"#;

/// A functor that is called with no argument, does nothing, and finds no memory for that.
fn starving(alloc: Global) -> Result<Functors, AllocError> {
    let name = Text::from_str(alloc, "starved")?;
    let starved: Closure = Box::new(
        alloc,
        |_alloc: Global, found: u64, args: &[Value]| -> Result<(Vec<Action>, u64), AllocError>
            ensures { IfOk result (λ answer. (answer.0.items ≡ []) × (answer.1 ≡ after state found args.now)) }
        { Err(AllocError) },
    )?;
    let body = Body {
        params: 0,
        actions: Items::new(alloc),
    };
    let mut functors = Functors::new(alloc);
    let next = Expr { node: Node::State };
    match functors.add(name, Items::new(alloc), body, next, starved) {
        Ok(_) => Ok(functors),
        Err(_) => Err(AllocError),
    }
}

pub fn starving_server(alloc: Global) -> Result<Server, AllocError> {
    Server::new(alloc, lamps(alloc)?, starving(alloc)?, TURNS, hashing()?)
}

/// Whether these lines are answered so, and memory is refused.
fn answers_so(alloc: Global, given: &str, wanted: &str) -> Result<bool, AllocError> {
    let outcome = answers(alloc, Host::Starving, given)?;
    Ok(outcome.tells(wanted, true))
}

/// Whether a session whose functor finds no memory fails, and no other one.
fn fails_alone(alloc: Global) -> Result<bool, AllocError> {
    answers_so(alloc, LINES, TOLD)
}

#[test]
fn closures_may_find_no_memory(rt: HostRuntime) -> Result<(), Fail> {
    assert!(rt; fails_alone(rt.alloc())?);
    Ok(())
}

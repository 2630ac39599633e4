//! The engine.
ghost use Rattle.std.specs.Prelude.{◌≡◌, Some, IfOk};
ghost use Rattle.session_engine.specs.Core.{place};
ghost use Rattle.session_engine.specs.Engine.{seen_engine};

use crate::fakes::hashing;
use crate::lines::{given, lamps};
use plain_types::{Code, Fault};
use session_engine::Engine;
use session_model::Tagged;
use std::alloc::{AllocError, Global};
use std::test::Fail;
use stored_slots::Functors;

fn fresh(alloc: Global) -> Result<Engine, AllocError> {
    let functors = Functors::new(alloc);
    let rows = functors.rows()?;
    Engine::new(alloc, lamps(alloc)?, functors, rows, 10, hashing()?)
}

/// The place of the session that gives a command, which is opened where it is not there.
fn place_of(engine: &mut Engine, given: &Tagged) -> Result<usize, AllocError>
    ensures { IfOk result (λ at. place (seen_engine engine.new) given.now.session ≡ Some at) }
{
    match engine.find(&given.session) {
        Some(place) => Ok(place),
        None => engine.open(&given.session),
    }
}

/// Lines of sessions, and whether the session fails before its line is done.
const SESSIONS: [(&str, bool); 4] = [
    (r#"{"class":"Lamp","do":"new","session":"a"}"#, false),
    (r#"{"class":"Lamp","do":"new","session":"b"}"#, true),
    (r#"{"class":"Lamp","do":"new","session":"c"}"#, false),
    (r#"{"class":"Lamp","do":"new","session":"a"}"#, false),
];

/// Whether a session refuses a command since it has failed.
fn refuses(engine: &mut Engine, given: &Tagged, fails: bool) -> Result<bool, AllocError> {
    let place = place_of(engine, given)?;
    if fails {
        engine.give_up(place);
    }
    let has_failed = engine.failed(place);
    match engine.command(place, &given.command) {
        Err(Fault::Refused(Code::SessionFailed)) => Ok(has_failed),
        _ => Ok(false),
    }
}

fn is_refused(
    alloc: Global,
    engine: &mut Engine,
    line: &str,
    fails: bool,
) -> Result<bool, AllocError> {
    let given = given(alloc, line)?;
    refuses(engine, &given, fails)
}

/// Drops the law that every session is sound, which is for proofs alone.
fn sound(engine: &Engine) {
    engine.law_sound();
}

/// Whether those sessions refuse that have failed, and no other, and the memory is known to be wanted.
fn only_failed_ones_refuse(
    alloc: Global,
    engine: &mut Engine,
    sessions: &[(&str, bool)],
) -> Result<bool, AllocError> {
    sound(engine);
    for (line, fails) in sessions {
        if is_refused(alloc, engine, line, *fails)? != *fails {
            return Ok(false);
        }
    }
    Ok(engine.memory_refused())
}

fn sessions_fail_alone(alloc: Global, engine: &mut Engine) -> Result<bool, AllocError> {
    only_failed_ones_refuse(alloc, engine, &SESSIONS)
}

/// The same of an engine of its own.
fn fail_alone_on_fresh_engine(alloc: Global) -> Result<bool, AllocError> {
    let mut engine = fresh(alloc)?;
    sessions_fail_alone(alloc, &mut engine)
}

#[test]
fn a_failed_session_refuses_and_no_other(rt: HostRuntime) -> Result<(), Fail> {
    assert!(rt; fail_alone_on_fresh_engine(rt.alloc())?);
    Ok(())
}

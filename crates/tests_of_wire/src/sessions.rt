//! Example sessions, from bytes to bytes on a fresh server with enough memory.
ghost use Rattle.command_line.specs.Clamp.{Clamps, IsNumber};

use crate::fakes::hashing;
use crate::lines::classes_of;
use crate::served::{Host, TURNS, answers};
use command_line::{DEMONSTRATION, clamp_answer, with_clamp};
use server_world::Server;
use std::alloc::{AllocError, Global};
use std::test::Fail;
use stored_slots::Functors;
use term_core::Action;
use variant_value::Value;

/// Input lines, and the lines that answer them.
type Session = (&'static str, &'static str);

const LAMP: Session = (
    r#"{"class":"QObject","do":"new","session":"a"}
{"do":"set","object":1,"property":"objectName","session":"a","value":"lamp"}
{"do":"get","object":1,"property":"objectName","session":"a"}"#,
    r#"{"reply":1,"session":"a"}
{"reply":true,"session":"a"}
{"reply":"lamp","session":"a"}"#,
);

const TWO_SESSIONS: Session = (
    r#"{"class":"QObject","do":"new","session":"a"}
{"class":"QObject","do":"new","session":"b"}
{"class":"QObject","do":"new","session":"a"}"#,
    r#"{"reply":1,"session":"a"}
{"reply":1,"session":"b"}
{"reply":2,"session":"a"}"#,
);

/// The same without the line of `b`.
const ONE_SESSION: Session = (
    r#"{"class":"QObject","do":"new","session":"a"}
{"class":"QObject","do":"new","session":"a"}"#,
    r#"{"reply":1,"session":"a"}
{"reply":2,"session":"a"}"#,
);

const NAMES: Session = (
    r#"{"class":"QObject","do":"new","session":"a"}
{"do":"get","object":1,"property":"objectName","session":"a"}
{"do":"set","object":1,"property":"objectName","session":"a","value":null}
{"do":"set","object":1,"property":"objectName","session":"a","value":5}
{"do":"set","object":2,"property":"objectName","session":"a","value":"x"}
{"class":"Nope","do":"new","session":"a"}"#,
    r#"{"reply":1,"session":"a"}
{"reply":"","session":"a"}
{"reply":false,"session":"a"}
{"error":"E22","session":"a"}
{"error":"E04","session":"a"}
{"error":"E03","session":"a"}"#,
);

const CLASSES: Session = (
    r#"{"class":"Probe","do":"meta","session":"a"}
{"class":"QObject","do":"meta","session":"a"}
{"class":"Cell","do":"meta","session":"a"}
{"class":"Nope","do":"meta","session":"a"}
{"class":"Probe","do":"new","session":"a"}
{"class":"Cell","do":"new","session":"a"}
{"class":"probe","do":"new","session":"a"}
{"do":"get","object":2,"property":"objectName","session":"a"}"#,
    r#"{"reply":{"class":"Probe","methodOffset":3,"methods":["destroyed()","objectNameChanged(QString)","deleteLater()","ping()","note()","late()","swap()","again()","kill()","rescue()","drop()"],"properties":["objectName"],"propertyOffset":1,"super":"QObject"},"session":"a"}
{"reply":{"class":"QObject","methodOffset":0,"methods":["destroyed()","objectNameChanged(QString)","deleteLater()"],"properties":["objectName"],"propertyOffset":0,"super":null},"session":"a"}
{"reply":{"class":"Cell","methodOffset":3,"methods":["destroyed()","objectNameChanged(QString)","deleteLater()","xChanged(int)","seen(int)","setX(int)"],"properties":["objectName","x","y","z","flag","big"],"propertyOffset":1,"super":"QObject"},"session":"a"}
{"error":"E03","session":"a"}
{"reply":1,"session":"a"}
{"reply":2,"session":"a"}
{"error":"E03","session":"a"}
{"reply":"","session":"a"}"#,
);

const TREES: Session = (
    r#"{"class":"Probe","do":"new","session":"a"}
{"class":"Probe","do":"new","parent":1,"session":"a"}
{"class":"Probe","do":"new","parent":2,"session":"a"}
{"class":"Probe","do":"new","parent":1,"session":"a"}
{"do":"set","object":3,"property":"objectName","session":"a","value":"k"}
{"do":"set","object":4,"property":"objectName","session":"a","value":"k"}
{"do":"find","name":"k","object":1,"session":"a"}
{"do":"children","object":1,"session":"a"}
{"do":"setParent","object":2,"parent":null,"session":"a"}
{"do":"setParent","object":2,"parent":1,"session":"a"}
{"do":"children","object":1,"session":"a"}"#,
    r#"{"reply":1,"session":"a"}
{"reply":2,"session":"a"}
{"reply":3,"session":"a"}
{"reply":4,"session":"a"}
{"reply":true,"session":"a"}
{"reply":true,"session":"a"}
{"reply":4,"session":"a"}
{"reply":[2,4],"session":"a"}
{"reply":true,"session":"a"}
{"reply":true,"session":"a"}
{"reply":[4,2],"session":"a"}"#,
);

const CONNECTIONS: Session = (
    r#"{"class":"Probe","do":"new","session":"a"}
{"class":"Probe","do":"new","session":"a"}
{"do":"connect","method":"note()","receiver":2,"sender":1,"session":"a","signal":"ping()"}
{"do":"connect","method":"note()","receiver":2,"sender":1,"session":"a","signal":"ping()"}
{"do":"connect","method":"note()","receiver":2,"sender":1,"session":"a","signal":"ping()","unique":true}
{"args":[],"do":"invoke","method":"ping()","object":1,"session":"a"}
{"do":"disconnect","method":"note()","receiver":2,"sender":1,"session":"a","signal":"ping()"}
{"args":[],"do":"invoke","method":"ping()","object":1,"session":"a"}
{"connection":1,"do":"disconnect","session":"a"}"#,
    r#"{"reply":1,"session":"a"}
{"reply":2,"session":"a"}
{"reply":1,"session":"a"}
{"reply":2,"session":"a"}
{"error":"E08","session":"a"}
{"args":[],"call":"note()","object":2,"sender":1,"session":"a"}
{"args":[],"call":"note()","object":2,"sender":1,"session":"a"}
{"reply":true,"session":"a"}
{"reply":2,"session":"a"}
{"reply":true,"session":"a"}
{"reply":false,"session":"a"}"#,
);

const CONNECTED_MEANWHILE: Session = (
    r#"{"class":"Probe","do":"new","session":"a"}
{"class":"Probe","do":"new","session":"a"}
{"do":"connect","method":"swap()","receiver":2,"sender":1,"session":"a","signal":"ping()"}
{"do":"connect","method":"note()","receiver":2,"sender":1,"session":"a","signal":"ping()"}
{"args":[],"do":"invoke","method":"ping()","object":1,"session":"a"}
{"args":[],"do":"invoke","method":"ping()","object":1,"session":"a"}"#,
    r#"{"reply":1,"session":"a"}
{"reply":2,"session":"a"}
{"reply":1,"session":"a"}
{"reply":2,"session":"a"}
{"args":[],"call":"swap()","object":2,"sender":1,"session":"a"}
{"reply":true,"session":"a"}
{"args":[],"call":"swap()","object":2,"sender":1,"session":"a"}
{"args":[],"call":"late()","object":2,"sender":1,"session":"a"}
{"reply":true,"session":"a"}"#,
);

const SENDER_DELETED: Session = (
    r#"{"class":"Probe","do":"new","session":"a"}
{"class":"Probe","do":"new","session":"a"}
{"do":"connect","method":"kill()","receiver":2,"sender":1,"session":"a","signal":"ping()"}
{"do":"connect","method":"note()","receiver":2,"sender":1,"session":"a","signal":"ping()"}
{"args":[],"do":"invoke","method":"ping()","object":1,"session":"a"}
{"do":"get","object":1,"property":"objectName","session":"a"}"#,
    r#"{"reply":1,"session":"a"}
{"reply":2,"session":"a"}
{"reply":1,"session":"a"}
{"reply":2,"session":"a"}
{"args":[],"call":"kill()","object":2,"sender":1,"session":"a"}
{"object":2,"session":"a","warning":"E04"}
{"reply":true,"session":"a"}
{"error":"E04","session":"a"}"#,
);

const UNIQUE: Session = (
    r#"{"class":"Probe","do":"new","session":"a"}
{"do":"connect","method":"note()","receiver":1,"sender":1,"session":"a","signal":"ping()","single":true,"unique":true}
{"do":"connect","method":"note()","receiver":1,"sender":1,"session":"a","signal":"ping()","type":"direct","unique":true}
{"args":[],"do":"invoke","method":"ping()","object":1,"session":"a"}
{"connection":1,"do":"disconnect","session":"a"}"#,
    r#"{"reply":1,"session":"a"}
{"reply":1,"session":"a"}
{"error":"E08","session":"a"}
{"args":[],"call":"note()","object":1,"sender":1,"session":"a"}
{"reply":true,"session":"a"}
{"reply":false,"session":"a"}"#,
);

const EVENTS: Session = (
    r#"{"class":"Probe","do":"new","session":"a"}
{"class":"Probe","do":"new","session":"a"}
{"do":"connect","method":"note()","receiver":1,"sender":2,"session":"a","signal":"ping()","type":"queued"}
{"args":[],"do":"invoke","method":"ping()","object":2,"session":"a"}
{"do":"deleteLater","object":1,"session":"a"}
{"do":"deleteLater","object":1,"session":"a"}
{"args":[],"do":"invoke","method":"ping()","object":2,"session":"a"}
{"do":"spin","session":"a"}"#,
    r#"{"reply":1,"session":"a"}
{"reply":2,"session":"a"}
{"reply":1,"session":"a"}
{"reply":true,"session":"a"}
{"reply":true,"session":"a"}
{"reply":true,"session":"a"}
{"reply":true,"session":"a"}
{"args":[],"call":"note()","object":1,"sender":2,"session":"a"}
{"reply":{"events":2,"left":0,"lost":0,"mismatched":0},"session":"a"}"#,
);

const BLOCKED: Session = (
    r#"{"class":"Probe","do":"new","session":"a"}
{"class":"Probe","do":"new","session":"a"}
{"do":"connect","method":"note()","receiver":2,"sender":1,"session":"a","signal":"ping()"}
{"do":"connect","method":"late()","receiver":2,"sender":1,"session":"a","signal":"destroyed()"}
{"do":"block","object":1,"on":true,"session":"a"}
{"args":[],"do":"invoke","method":"ping()","object":1,"session":"a"}
{"do":"block","object":1,"on":true,"session":"a"}
{"do":"delete","object":1,"session":"a"}"#,
    r#"{"reply":1,"session":"a"}
{"reply":2,"session":"a"}
{"reply":1,"session":"a"}
{"reply":2,"session":"a"}
{"reply":false,"session":"a"}
{"reply":true,"session":"a"}
{"reply":true,"session":"a"}
{"args":[],"call":"late()","object":2,"sender":1,"session":"a"}
{"reply":true,"session":"a"}"#,
);

const DYNAMIC_PROPERTY: Session = (
    r#"{"class":"Cell","do":"new","session":"a"}
{"do":"set","object":1,"property":"tag","session":"a","value":5}
{"do":"get","object":1,"property":"tag","session":"a"}
{"do":"dynamicNames","object":1,"session":"a"}
{"do":"set","object":1,"property":"tag","session":"a","value":null}
{"do":"get","object":1,"property":"tag","session":"a"}
{"do":"dynamicNames","object":1,"session":"a"}
{"do":"set","object":1,"property":"x","session":"a","value":null}"#,
    r#"{"reply":1,"session":"a"}
{"reply":false,"session":"a"}
{"reply":5,"session":"a"}
{"reply":["tag"],"session":"a"}
{"reply":false,"session":"a"}
{"reply":null,"session":"a"}
{"reply":[],"session":"a"}
{"reply":false,"session":"a"}"#,
);

const CELLS: Session = (
    r#"{"class":"Cell","do":"new","session":"a"}
{"class":"Cell","do":"new","session":"a"}
{"do":"connect","method":"setX(int)","receiver":2,"sender":1,"session":"a","signal":"xChanged(int)"}
{"do":"set","object":1,"property":"x","session":"a","value":4}
{"do":"get","object":2,"property":"x","session":"a"}
{"do":"set","object":1,"property":"x","session":"a","value":4}
{"do":"connect","method":"setX(int)","receiver":1,"sender":2,"session":"a","signal":"xChanged(int)"}
{"do":"set","object":1,"property":"x","session":"a","value":5}"#,
    r#"{"reply":1,"session":"a"}
{"reply":2,"session":"a"}
{"reply":1,"session":"a"}
{"args":[4],"call":"setX(int)","object":2,"sender":1,"session":"a"}
{"reply":true,"session":"a"}
{"reply":4,"session":"a"}
{"reply":true,"session":"a"}
{"reply":2,"session":"a"}
{"args":[5],"call":"setX(int)","object":2,"sender":1,"session":"a"}
{"args":[5],"call":"setX(int)","object":1,"sender":2,"session":"a"}
{"reply":true,"session":"a"}"#,
);

/// Each session's functor has its own session's objects as sender and context.
const CLAMPED: Session = (
    r#"{"class":"Cell","do":"new","session":"a"}
{"class":"Cell","do":"new","session":"a"}
{"context":2,"do":"connectFunctor","functor":"clamp","sender":1,"session":"a","signal":"xChanged(int)"}
{"class":"Cell","do":"new","session":"b"}
{"class":"Cell","do":"new","session":"b"}
{"context":2,"do":"connectFunctor","functor":"clamp","sender":1,"session":"b","signal":"xChanged(int)"}
{"do":"set","object":1,"property":"x","session":"a","value":250}
{"do":"set","object":1,"property":"x","session":"b","value":-5}
{"do":"get","object":2,"property":"x","session":"a"}
{"do":"get","object":2,"property":"x","session":"b"}"#,
    r#"{"reply":1,"session":"a"}
{"reply":2,"session":"a"}
{"reply":1,"session":"a"}
{"reply":1,"session":"b"}
{"reply":2,"session":"b"}
{"reply":1,"session":"b"}
{"args":[250],"call":"clamp","object":2,"sender":1,"session":"a"}
{"reply":true,"session":"a"}
{"args":[-5],"call":"clamp","object":2,"sender":1,"session":"b"}
{"reply":true,"session":"b"}
{"reply":100,"session":"a"}
{"reply":0,"session":"b"}"#,
);

/// Sessions of names, classes and objects, each from a fresh server.
const OBJECTS: [Session; 6] = [LAMP, TWO_SESSIONS, ONE_SESSION, NAMES, CLASSES, TREES];

/// The same of signals and who is connected to them.
const SIGNALS: [Session; 4] = [CONNECTIONS, CONNECTED_MEANWHILE, SENDER_DELETED, UNIQUE];

/// The same of events, blocked objects, properties and functors.
const OTHERS: [Session; 5] = [EVENTS, BLOCKED, DYNAMIC_PROPERTY, CELLS, CLAMPED];

/// The functors of the program: `clamp` between 0 and 100.
fn clamps(alloc: Global) -> Result<Functors, AllocError> {
    let (least, most) = (0, 100);
    let clamp = Box::new(
        alloc,
        move |alloc: Global, found: u64, args: &[Value]| -> Result<(Vec<Action>, u64), AllocError>
            requires { IsNumber args.now }
            ensures { Clamps least most found args.now result }
        { clamp_answer(alloc, least, most, found, args) },
    )?;
    match with_clamp(alloc, least, most, clamp) {
        Ok(functors) => Ok(functors),
        Err(_) => Err(AllocError),
    }
}

/// A server as the program makes it: with the demonstration classes and `clamp`.
pub fn clamping_server(alloc: Global) -> Result<Server, AllocError> {
    Server::new(
        alloc,
        classes_of(alloc, DEMONSTRATION)?,
        clamps(alloc)?,
        TURNS,
        hashing()?,
    )
}

/// Whether a session is answered so, and no memory is refused.
fn is_answered(alloc: Global, session: Session) -> Result<bool, AllocError> {
    let (given, wanted) = session;
    let outcome = answers(alloc, Host::Program, given)?;
    Ok(outcome.tells(wanted, false))
}

/// The lines of the first of these sessions that is answered otherwise.
fn wrong_among(alloc: Global, sessions: &[Session]) -> Result<Option<&'static str>, AllocError> {
    for session in sessions {
        if !is_answered(alloc, *session)? {
            return Ok(Some(session.0));
        }
    }
    Ok(None)
}

// Each table is named in a function of its own: what it costs to prove one grows faster than its table.
fn wrong_among_objects(alloc: Global) -> Result<Option<&'static str>, AllocError> {
    wrong_among(alloc, &OBJECTS)
}

fn wrong_among_signals(alloc: Global) -> Result<Option<&'static str>, AllocError> {
    wrong_among(alloc, &SIGNALS)
}

fn wrong_among_others(alloc: Global) -> Result<Option<&'static str>, AllocError> {
    wrong_among(alloc, &OTHERS)
}

/// The lines of the first of all that is answered otherwise.
fn first_wrong(alloc: Global) -> Result<Option<&'static str>, AllocError> {
    let objects = wrong_among_objects(alloc)?;
    let signals = wrong_among_signals(alloc)?;
    let others = wrong_among_others(alloc)?;
    Ok(objects.or(signals).or(others))
}

#[test]
fn sessions_are_answered(rt: HostRuntime) -> Result<(), Fail> {
    let wrong = first_wrong(rt.alloc())?;
    assert!(rt; wrong.is_none(), "{}", wrong.unwrap_or(""));
    Ok(())
}

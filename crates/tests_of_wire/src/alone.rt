//! Sessions alone: on an engine of its own, a session gives the same lines as among others on a server.
ghost use Rattle.std.specs.Prelude.{◌≡◌, All, Some, IfOk, OnOk};
ghost use Rattle.session_model.specs.Fitting.{IsRightPost};
ghost use Rattle.session_engine.specs.Core.{place};
ghost use Rattle.session_engine.specs.Engine.{seen_engine};
ghost use Rattle.session_engine.specs.Items.{IsRightItem};

use crate::fakes::hashing;
use crate::lines::{classes_of, given, text_of};
use command_line::DEMONSTRATION;
use plain_types::{Items, Text};
use server_world::{Entry, Server};
use session_engine::{Engine, Item};
use session_model::{Command, Post, Tagged};
use signature_core::Kind;
use std::alloc::{AllocError, Global};
use std::mem::replace;
use std::test::Fail;
use stored_slots::Functors;
use variant_value::Value;

/// An input of a session: a line of its own, or a number that another session posts under the name `temp`.
#[derive(Clone, Copy)]
enum Coming<'a> {
    Own(&'a str),
    Posted(&'a str, u16),
}

fn engine(alloc: Global) -> Result<Engine, AllocError> {
    let functors = Functors::new(alloc);
    let rows = functors.rows()?;
    Engine::new(
        alloc,
        classes_of(alloc, DEMONSTRATION)?,
        functors,
        rows,
        10_000,
        hashing()?,
    )
}

fn post_of(alloc: Global, number: u16) -> Result<Post, AllocError>
    ensures { IfOk result (λ post. IsRightPost post) }
{
    let mut kinds = Items::new(alloc);
    kinds.push(Kind::Int)?;
    let mut arguments = Items::new(alloc);
    arguments.push(Value::Int(i32::from(number)))?;
    Ok(Post {
        name: Text::from_str(alloc, "temp")?,
        kinds,
        arguments,
    })
}

fn item_of(alloc: Global, coming: &Coming) -> Result<Item, AllocError>
    ensures { IfOk result (λ item. IsRightItem item) }
{
    match coming {
        Coming::Own(line) => {
            let mut given = given(alloc, line)?;
            Ok(Item::Own(replace(&mut given.command, Command::Spin)))
        }
        Coming::Posted(from, number) => Ok(Item::Arrival(
            Text::from_str(alloc, from)?,
            post_of(alloc, *number)?,
        )),
    }
}

fn items_of(alloc: Global, comings: &[Coming]) -> Result<Vec<Item>, AllocError>
    ensures { IfOk result (λ items. All IsRightItem items.items) }
{
    let mut items = Vec::new(alloc);
    for coming in comings {
        items.push(item_of(alloc, coming)?)?;
    }
    Ok(items)
}

/// The place of a session, which is opened if it does not exist yet.
fn place_of(engine: &mut Engine, name: &Text) -> Result<usize, AllocError>
    ensures { IfOk result (λ at. place (seen_engine engine.new) name.now ≡ Some at) }
{
    match engine.find(name) {
        Some(place) => Ok(place),
        None => engine.open(name),
    }
}

/// Returns the lines that a session gives for these items on an engine. It fails if memory runs out.
fn told_by(
    alloc: Global,
    engine: &mut Engine,
    name: &Text,
    items: &[Item],
) -> Result<String, AllocError>
    requires { All IsRightItem items.now }
{
    let place = place_of(engine, name)?;
    let told = engine.alone(place, items)?;
    if engine.memory_refused() {
        return Err(AllocError);
    }
    text_of(alloc, name, &told)
}

fn told_alone(alloc: Global, name: &str, comings: &[Coming]) -> Result<String, AllocError> {
    let mut engine = engine(alloc)?;
    let items = items_of(alloc, comings)?;
    told_by(
        alloc,
        &mut engine,
        &Text::from_str(alloc, name)?,
        items.as_slice(),
    )
}

/// The inputs of a session that joins what `a` publishes, and gets two posts before it leaves.
const JOINER: [Coming<'static>; 7] = [
    Coming::Own(r#"{"class":"Cell","do":"new","session":"b"}"#),
    Coming::Own(
        r#"{"do":"join","from":"a","method":"seen(int)","name":"temp","object":1,"session":"b","types":["int"]}"#,
    ),
    Coming::Posted("a", 7),
    Coming::Own(r#"{"do":"spin","session":"b"}"#),
    Coming::Posted("a", 8),
    Coming::Own(
        r#"{"do":"leave","from":"a","method":"seen(int)","name":"temp","object":1,"session":"b"}"#,
    ),
    Coming::Own(r#"{"do":"spin","session":"b"}"#),
];

const JOINER_TOLD: &str = r#"{"reply":1,"session":"b"}
{"reply":true,"session":"b"}
{"args":[7],"call":"seen(int)","object":1,"sender":0,"session":"b"}
{"reply":{"events":1,"left":0,"lost":0,"mismatched":0},"session":"b"}
{"reply":true,"session":"b"}
{"args":[8],"call":"seen(int)","object":1,"sender":0,"session":"b"}
{"reply":{"events":1,"left":0,"lost":0,"mismatched":0},"session":"b"}
"#;

fn joiner_is_told(alloc: Global) -> Result<bool, AllocError> {
    Ok(told_alone(alloc, "b", &JOINER)?.as_str() == JOINER_TOLD)
}

#[test]
fn a_joiner_alone_is_told_what_it_is_told_beside_its_publisher(
    rt: HostRuntime,
) -> Result<(), Fail> {
    assert!(rt; joiner_is_told(rt.alloc())?);
    Ok(())
}

/// Delivers a post to a session.
fn comes(
    alloc: Global,
    engine: &mut Engine,
    name: &Text,
    coming: (&str, u16),
) -> Result<(), AllocError> {
    let place = place_of(engine, name)?;
    let from = Text::from_str(alloc, coming.0)?;
    engine.arrive(place, &from, &post_of(alloc, coming.1)?)
}

/// Resets a session.
fn begins_anew(engine: &mut Engine, name: &Text) -> Result<(), AllocError> {
    let place = place_of(engine, name)?;
    engine.reset(place);
    Ok(())
}

const CHILDREN: [Coming<'static>; 1] = [Coming::Own(r#"{"do":"children","session":"b"}"#)];

/// The lines of a joiner after a post that it joined and one from a stranger, and its objects after a reset.
fn told_by_single_calls(alloc: Global) -> Result<String, AllocError> {
    let mut engine = engine(alloc)?;
    let name = Text::from_str(alloc, "b")?;
    let joining = items_of(alloc, &JOINER[..2])?;
    told_by(alloc, &mut engine, &name, joining.as_slice())?;
    comes(alloc, &mut engine, &name, ("a", 7))?;
    comes(alloc, &mut engine, &name, ("c", 8))?;
    let spinning = items_of(alloc, &JOINER[3..4])?;
    let mut told = told_by(alloc, &mut engine, &name, spinning.as_slice())?;
    begins_anew(&mut engine, &name)?;
    let listing = items_of(alloc, &CHILDREN)?;
    told.push_str(told_by(alloc, &mut engine, &name, listing.as_slice())?.as_str())?;
    Ok(told)
}

const SINGLE_CALLS_TOLD: &str =
    r#"{"args":[7],"call":"seen(int)","object":1,"sender":0,"session":"b"}
{"reply":{"events":1,"left":0,"lost":0,"mismatched":0},"session":"b"}
{"reply":[],"session":"b"}
"#;

fn single_calls_are_told(alloc: Global) -> Result<bool, AllocError> {
    Ok(told_by_single_calls(alloc)?.as_str() == SINGLE_CALLS_TOLD)
}

#[test]
fn a_post_comes_by_itself_and_a_session_begins_anew(rt: HostRuntime) -> Result<(), Fail> {
    assert!(rt; single_calls_are_told(rt.alloc())?);
    Ok(())
}

/// How many sessions there are in a ring. Each one joins the one before it.
const RING: u16 = 100;

/// The step in which each session writes what it publishes. Before it come the steps for 40 objects, the
/// connections of the first to the others, the publication and the join.
const WRITING: u16 = 81;

/// The lines of a session by their step, where `@` is the session's number and `%` another number.
const MAKING: &str = r#"{"class":"Cell","do":"new","session":"s@"}"#;

const CONNECTING: &str =
    r#"{"do":"connect","method":"setX(int)","receiver":%,"sender":1,"session":"s@","signal":"xChanged(int)"}"#;

const PUBLISHING: &str =
    r#"{"do":"publish","name":"temp","object":1,"session":"s@","signal":"xChanged(int)"}"#;

const JOINING: &str =
    r#"{"do":"join","from":"s%","method":"seen(int)","name":"temp","object":2,"session":"s@","types":["int"]}"#;

const SETTING: &str = r#"{"do":"set","object":1,"property":"x","session":"s@","value":%}"#;

const SPINNING: &str = r#"{"do":"spin","session":"s@"}"#;

/// The last lines of each session.
const LAST: &str = r#"{"args":[%],"call":"seen(int)","object":2,"sender":0,"session":"s@"}
{"reply":{"events":1,"left":0,"lost":0,"mismatched":0},"session":"s@"}
"#;

/// A template filled with both numbers.
fn filled(alloc: Global, template: &str, own: u16, other: u16) -> Result<String, AllocError> {
    let mut text = String::new(alloc);
    for character in template.chars() {
        match character {
            '@' => text.push_str(format!(in alloc; "{own}")?.as_str())?,
            '%' => text.push_str(format!(in alloc; "{other}")?.as_str())?,
            _ => text.push(character)?,
        }
    }
    Ok(text)
}

/// The session before this one in the ring.
fn before(session: u16) -> u16 {
    match session {
        0 => RING - 1,
        _ => session - 1,
    }
}

/// Returns the number that a session writes to the property that it publishes.
fn written_by(session: u16) -> u16 {
    session.saturating_add(1)
}

fn line_of(alloc: Global, session: u16, step: u16) -> Result<String, AllocError> {
    match step {
        0..40 => filled(alloc, MAKING, session, 0),
        40..79 => filled(alloc, CONNECTING, session, step - 38),
        79 => filled(alloc, PUBLISHING, session, 0),
        80 => filled(alloc, JOINING, session, before(session)),
        WRITING => filled(alloc, SETTING, session, written_by(session)),
        _ => filled(alloc, SPINNING, session, 0),
    }
}

/// The lines of all sessions, which take turns.
fn all_given(alloc: Global) -> Result<Vec<Tagged>, AllocError> {
    let mut list = Vec::new(alloc);
    for step in 0..WRITING + 2 {
        for session in 0..RING {
            list.push(given(alloc, line_of(alloc, session, step)?.as_str())?)?;
        }
    }
    Ok(list)
}

fn own_item(alloc: Global, session: u16, step: u16) -> Result<Item, AllocError>
    ensures { IfOk result (λ item. IsRightItem item) }
{
    item_of(alloc, &Coming::Own(line_of(alloc, session, step)?.as_str()))
}

fn arrival_at(alloc: Global, session: u16) -> Result<Item, AllocError>
    ensures { IfOk result (λ item. IsRightItem item) }
{
    let from = filled(alloc, "s@", before(session), 0)?;
    let number = written_by(before(session));
    item_of(alloc, &Coming::Posted(from.as_str(), number))
}

/// Adds what a session receives in a step: its own line, and what the session before it posts.
fn add_step(alloc: Global, items: &mut Vec<Item>, session: u16, step: u16) -> Result<(), AllocError>
    requires { All IsRightItem items.old.items }
    ensures { OnOk result (All IsRightItem items.new.items) }
{
    if step == WRITING && session > 0 {
        items.push(arrival_at(alloc, session)?)?;
        items.push(own_item(alloc, session, step)?)?;
        return Ok(());
    }
    items.push(own_item(alloc, session, step)?)?;
    if step == WRITING {
        items.push(arrival_at(alloc, session)?)?;
    }
    Ok(())
}

/// Returns the items of a session of the ring: its own lines, and the posts of the session before it. A post
/// comes before its own line of that step if the other session takes its turn earlier.
fn ring_items(alloc: Global, session: u16) -> Result<Vec<Item>, AllocError>
    ensures { IfOk result (λ items. All IsRightItem items.items) }
{
    let mut items = Vec::new(alloc);
    for step in 0..WRITING + 2 {
        add_step(alloc, &mut items, session, step)?;
    }
    Ok(items)
}

/// Returns the lines that a run gives for one session.
fn told_in(
    alloc: Global,
    name: &Text,
    list: &[Tagged],
    entries: &[Entry],
) -> Result<String, AllocError> {
    let mut text = String::new(alloc);
    for (given, entry) in list.iter().zip(entries) {
        if given.session != *name {
            continue;
        }
        match entry {
            Entry::Lines(lines) => text.push_str(text_of(alloc, name, lines)?.as_str())?,
            Entry::OutOfMemory => return Err(AllocError),
        }
    }
    Ok(text)
}

/// Whether a session of the ring gives the same lines alone as in the run, and the last of them are the call
/// with what the session before it wrote.
fn is_told_alone(
    alloc: Global,
    session: u16,
    list: &[Tagged],
    entries: &[Entry],
) -> Result<bool, AllocError> {
    let name = Text::from_string(filled(alloc, "s@", session, 0)?)?;
    let beside = told_in(alloc, &name, list, entries)?;
    let mut engine = engine(alloc)?;
    let items = ring_items(alloc, session)?;
    let alone = told_by(alloc, &mut engine, &name, items.as_slice())?;
    let last = filled(alloc, LAST, session, written_by(before(session)))?;
    Ok(alone.as_str() == beside.as_str() && alone.as_str().ends_with(last.as_str()))
}

fn ring_is_told_alone(alloc: Global) -> Result<bool, AllocError> {
    let classes = classes_of(alloc, DEMONSTRATION)?;
    let mut server = Server::new(alloc, classes, Functors::new(alloc), 10_000, hashing()?)?;
    let list = all_given(alloc)?;
    let report = server.run(list.as_slice());
    if report.memory_refused {
        return Err(AllocError);
    }
    for session in 0..RING {
        if !is_told_alone(alloc, session, list.as_slice(), report.lines.as_slice())? {
            return Ok(false);
        }
    }
    Ok(true)
}

#[test]
fn a_hundred_sessions_in_a_ring_are_told_what_each_is_told_alone(
    rt: HostRuntime,
) -> Result<(), Fail> {
    assert!(rt; ring_is_told_alone(rt.alloc())?);
    Ok(())
}

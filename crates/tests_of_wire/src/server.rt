//! The server.
use crate::fakes::hashing;
use crate::lines::{given, lamps, text_of};
use plain_types::Text;
use server_world::{
    Entry, Report, Server, Tagged, influence_is_least, leaving_out_keeps_sessions,
    slicing_keeps_a_session,
};
use session_model::{
    actions_run_in_place, agenda_runs_to_its_end, commands_keep_sessions_sound, machine_is_lawful,
};
use std::alloc::{AllocError, Global};
use std::test::Fail;
use stored_slots::Functors;
use wire_format::sessions_are_isolated;

fn fresh(alloc: Global) -> Result<Server, AllocError> {
    Server::new(alloc, lamps(alloc)?, Functors::new(alloc), 1000, hashing()?)
}

/// Returns the report of a server. It has no contract, so that the tests look only at the report.
fn report_of(server: &mut Server, list: &[Tagged]) -> Report {
    server.run(list)
}

fn commands(alloc: Global, lines: &str) -> Result<Vec<Tagged>, AllocError> {
    let mut list = Vec::new(alloc);
    for line in lines.lines() {
        list.push(given(alloc, line)?)?;
    }
    Ok(list)
}

/// Returns the lines that answer these commands, as text.
fn texts(alloc: Global, list: &[Tagged], entries: &[Entry]) -> Result<String, AllocError> {
    let mut text = String::new(alloc);
    for (given, entry) in list.iter().zip(entries) {
        if let Entry::Lines(lines) = entry {
            text.push_str(text_of(alloc, &given.session, lines)?.as_str())?;
        }
    }
    Ok(text)
}

/// Returns a report's lines as text. It fails if memory was refused or an answer is missing.
fn report_text(alloc: Global, list: &[Tagged], report: &Report) -> Result<String, AllocError> {
    if report.memory_refused || report.lines.len() != list.len() {
        return Err(AllocError);
    }
    texts(alloc, list, report.lines.as_slice())
}

fn text_reported(
    alloc: Global,
    server: &mut Server,
    list: &[Tagged],
) -> Result<String, AllocError> {
    let report = report_of(server, list);
    report_text(alloc, list, &report)
}

/// Returns what one server reports to these lines.
fn reported(alloc: Global, server: &mut Server, lines: &str) -> Result<String, AllocError> {
    let list = commands(alloc, lines)?;
    text_reported(alloc, server, list.as_slice())
}

/// The lines of three runs, one after the other on one server.
const RUNS: [&str; 3] = [
    r#"{"class":"QObject","do":"new","session":"a"}
{"class":"Lamp","do":"new","session":"b"}
{"class":"Lamp","do":"new","session":"a"}"#,
    r#"{"do":"children","session":"b"}
{"do":"children","session":"a"}
{"do":"get","object":1,"property":"objectName","session":"c"}"#,
    r#"{"class":"Switch","do":"new","session":"b"}
{"do":"connect","method":"dim(int)","receiver":1,"sender":2,"session":"b","signal":"pressed(int)"}
{"args":[5],"do":"invoke","method":"pressed(int)","object":2,"session":"b"}
{"args":[5],"do":"invoke","method":"pressed(int)","object":2,"session":"a"}"#,
];

/// The answers to all three runs.
const TOLD: &str = r#"{"reply":1,"session":"a"}
{"reply":1,"session":"b"}
{"reply":2,"session":"a"}
{"reply":[1],"session":"b"}
{"reply":[1,2],"session":"a"}
{"error":"E04","session":"c"}
{"reply":2,"session":"b"}
{"reply":1,"session":"b"}
{"args":[5],"call":"dim(int)","object":1,"sender":2,"session":"b"}
{"reply":true,"session":"b"}
{"reply":false,"session":"a"}
"#;

fn report_runs(
    alloc: Global,
    server: &mut Server,
    runs: &[&'static str],
) -> Result<String, AllocError> {
    let mut text = String::new(alloc);
    for lines in runs {
        text.push_str(reported(alloc, server, lines)?.as_str())?;
    }
    Ok(text)
}

fn report_all(alloc: Global, server: &mut Server) -> Result<String, AllocError> {
    report_runs(alloc, server, &RUNS)
}

fn is_told(text: &str) -> bool {
    text == TOLD
}

/// Whether a server reports that memory was refused after this is noted, and not before.
fn notes(server: &mut Server) -> bool {
    let before = server.memory_refused();
    server.note_memory_refused();
    !before && server.memory_refused()
}

/// Returns what a server answers to all runs, and then whether it notes that memory was refused.
fn reports_and_notes(alloc: Global, server: &mut Server) -> Result<(String, bool), AllocError> {
    let text = report_all(alloc, server)?;
    Ok((text, notes(server)))
}

/// Returns what a fresh server answers to all runs, and whether it notes that memory was refused.
fn fresh_one_reports_and_notes(alloc: Global) -> Result<(String, bool), AllocError> {
    let mut server = fresh(alloc)?;
    reports_and_notes(alloc, &mut server)
}

#[test]
fn runs_on_one_server_go_on_and_refused_memory_is_noted(rt: HostRuntime) -> Result<(), Fail> {
    let (told, notes) = fresh_one_reports_and_notes(rt.alloc())?;
    assert!(rt; is_told(told.as_str()), "{told}");
    assert!(rt; notes);
    Ok(())
}

/// Commands of two sessions after one of them was reset. The answers are `TOLD_BEHIND`.
const BEHIND: &str = r#"{"do":"children","session":"a"}
{"do":"children","session":"b"}"#;

const TOLD_BEHIND: &str = r#"{"reply":[],"session":"a"}
{"reply":[1],"session":"b"}
"#;

fn resets(alloc: Global, server: &mut Server, names: &[&'static str]) -> Result<(), AllocError> {
    for name in names {
        server.reset(&Text::from_str(alloc, name)?);
    }
    Ok(())
}

/// Returns the answers of a server after it has reset a session, and one that does not exist.
fn told_behind_resets(alloc: Global) -> Result<String, AllocError> {
    let mut server = fresh(alloc)?;
    reported(alloc, &mut server, RUNS[0])?;
    resets(alloc, &mut server, &["a", "c"])?;
    reported(alloc, &mut server, BEHIND)
}

#[test]
fn a_session_is_reset_and_no_other(rt: HostRuntime) -> Result<(), Fail> {
    let told = told_behind_resets(rt.alloc())?;
    assert!(rt; told.as_str() == TOLD_BEHIND, "{told}");
    Ok(())
}

#[test]
fn laws_hold() {
    leaving_out_keeps_sessions();
    slicing_keeps_a_session();
    influence_is_least();
    machine_is_lawful();
    agenda_runs_to_its_end();
    commands_keep_sessions_sound();
    actions_run_in_place();
    sessions_are_isolated();
}

//! Commands and the lines that answer them, as text.
use class_table::ClassTable;
use plain_types::{Items, Text};
use session_model::{Line, Tagged};
use std::alloc::{AllocError, Global};
use wire_format::{Scratch, line_text, read_line};

/// A class with two slots and a property, a subclass of it, and a class with two signals.
const LAMPS: &str =
    r#"{"classes":[{"name":"Lamp","super":"QObject","slots":[{"sig":"on()","body":[]},
    {"sig":"dim( int )","body":[]}],"properties":[{"name":"level","type":"int"}]},
    {"name":"Torch","super":"Lamp"},
    {"name":"Switch","super":"QObject","signals":["pressed(int)","released()"],
    "slots":[{"sig":"press(int)","body":[{"emit":"pressed(int)","args":[{"arg":0}]}]},
    {"sig":"drop()","body":[{"delete":"sender"},
    {"set":"objectName","of":"sender","to":{"const":"x"}}]}]}]}"#;

/// The classes that a text declares. It has no contract, since tests look only at what it does.
pub fn classes_of(alloc: Global, text: &str) -> Result<ClassTable, AllocError> {
    match ClassTable::from_text(alloc, text.as_bytes()) {
        Ok(classes) => Ok(classes),
        Err(_) => Err(AllocError),
    }
}

pub fn lamps(alloc: Global) -> Result<ClassTable, AllocError> {
    classes_of(alloc, LAMPS)
}

/// The command in a line.
pub fn given(alloc: Global, line: &str) -> Result<Tagged, AllocError> {
    let mut scratch = Scratch::new(alloc);
    match read_line(alloc, &mut scratch, line.as_bytes()) {
        Ok(given) => Ok(given),
        Err(_) => Err(AllocError),
    }
}

/// Returns the lines of a session as text.
pub fn text_of(alloc: Global, session: &Text, lines: &Items<Line>) -> Result<String, AllocError> {
    let mut text = String::new(alloc);
    for line in lines.as_slice() {
        text.push_str(line_text(alloc, session.as_str(), line)?.as_str())?;
    }
    Ok(text)
}

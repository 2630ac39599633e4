//! Whole runs with enough memory, over sources and sinks that give and take a few bytes per call.
use crate::fakes::{SlowSink, SlowSource};
use crate::served::{Host, outcome_of};
use std::alloc::{AllocError, Global};
use std::test::Fail;
use wire_lines::{RunFault, Summary};

pub const LAMP: &str = "{\"class\":\"QObject\",\"do\":\"new\",\"session\":\"a\"}\n\
    {\"do\":\"set\",\"object\":1,\"property\":\"objectName\",\"session\":\"a\",\"value\":\"lamp\"}\n\
    {\"do\":\"get\",\"object\":1,\"property\":\"objectName\",\"session\":\"a\"}\n";

pub const LAMP_TOLD: &str = "{\"reply\":1,\"session\":\"a\"}\n\
    {\"reply\":true,\"session\":\"a\"}\n\
    {\"reply\":\"lamp\",\"session\":\"a\"}\n";

const GET: &str = "{\"do\":\"get\",\"object\":1,\"property\":\"objectName\",\"session\":\"b\"}";

const NOT_THERE: &str = "{\"error\":\"E04\",\"session\":\"b\"}\n";

const UNREADABLE: &str = "{\"error\":\"E01\",\"session\":\"-\"}\n";

pub fn counted(lines: u64) -> Result<Summary, RunFault> {
    Ok(Summary {
        lines,
        memory_refused: false,
    })
}

/// A text, how often it is repeated, and the length to which each repetition is filled up with spaces.
struct Part(&'static str, usize, usize);

/// Lines of any form and length.
const ODD_LINES: [Part; 13] = [
    Part("\n \t\r\n", 1, 0),
    Part("nonsense\n", 3_000, 0),
    Part(GET, 1, 65_536),
    Part("\n", 1, 0),
    Part(GET, 1, 65_537),
    Part("\n", 1, 0),
    Part("", 1, 65_536),
    Part("\n", 1, 0),
    Part("", 1, 65_537),
    Part("\n", 1, 0),
    Part(GET, 1, 0),
    Part("\r\n", 1, 0),
    Part(LAMP, 1, 0),
];

const ODD_LINES_TOLD: [Part; 5] = [
    Part(UNREADABLE, 3_000, 0),
    Part(NOT_THERE, 1, 0),
    Part(UNREADABLE, 2, 0),
    Part(NOT_THERE, 1, 0),
    Part(LAMP_TOLD, 1, 0),
];

fn bytes_of(alloc: Global, parts: &[Part]) -> Result<Vec<u8>, AllocError> {
    let mut bytes = Vec::new(alloc);
    for part in parts {
        for _ in 0..part.1 {
            let end = bytes.len().saturating_add(part.2);
            bytes.extend_from_slice(part.0.as_bytes())?;
            if bytes.len() < end {
                bytes.resize(end, b' ')?;
            }
        }
    }
    Ok(bytes)
}

/// Whether an input is answered by `wanted` if each call gives at most `at_once` of its bytes.
fn is_answered_at(
    alloc: Global,
    input: &[u8],
    at_once: usize,
    wanted: &[u8],
    lines: u64,
) -> Result<bool, AllocError> {
    let source = SlowSource::new(input, at_once, 0);
    let outcome = outcome_of(alloc, Host::Lamps, source, SlowSink::new(alloc, 7, 0, 0))?;
    Ok(outcome.is(counted(lines), wanted))
}

/// Whether an input is answered by `wanted`, in pieces of 1, 7 and 65,536 bytes.
fn is_answered(alloc: Global, input: &[u8], wanted: &[u8], lines: u64) -> Result<bool, AllocError> {
    for at_once in [1, 7, 65_536] {
        if !is_answered_at(alloc, input, at_once, wanted, lines)? {
            return Ok(false);
        }
    }
    Ok(true)
}

fn odd_lines(alloc: Global) -> Result<Vec<u8>, AllocError> {
    bytes_of(alloc, &ODD_LINES)
}

fn odd_lines_told(alloc: Global) -> Result<Vec<u8>, AllocError> {
    bytes_of(alloc, &ODD_LINES_TOLD)
}

fn odd_lines_are_answered(alloc: Global) -> Result<bool, AllocError> {
    let odd = odd_lines(alloc)?;
    let told = odd_lines_told(alloc)?;
    is_answered(alloc, odd.as_slice(), told.as_slice(), 3_010)
}

fn lamp_is_answered(alloc: Global) -> Result<bool, AllocError> {
    let lamp = LAMP.trim_end().as_bytes();
    is_answered(alloc, lamp, LAMP_TOLD.as_bytes(), 3)
}

#[test]
fn inputs_are_answered_in_pieces_of_any_size(rt: HostRuntime) -> Result<(), Fail> {
    let alloc = rt.alloc();
    assert!(rt; is_answered(alloc, b"", b"", 0)?);
    assert!(rt; lamp_is_answered(alloc)?);
    assert!(rt; odd_lines_are_answered(alloc)?);
    Ok(())
}

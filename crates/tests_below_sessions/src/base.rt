//! The laws of runs, and what codes and faults are printed as.
use isolation::{laws, piece_laws, slice_laws};
use plain_types::{Code, Fault};
use std::alloc::{AllocError, Global};
use std::test::Fail;

#[test]
fn laws_hold_at_any_types() {
    laws::<String, u64, bool, char, u8>();
    slice_laws::<String, u64, bool, char, u8>();
    piece_laws::<String, u64, bool, char, u8, u16>();
}

fn limited() -> Result<u32, Fault> {
    Err(Code::Limit)?
}

/// Codes, with their texts and those of their faults.
const CODES: &[(Code, &str, &str)] = &[
    (Code::UnreadableLine, "E01", "refused: E01"),
    (Code::NoSuchObject, "E04", "refused: E04"),
    (Code::OutOfMemory, "E21", "refused: E21"),
];

fn is_printed(alloc: Global, fault: Fault, wanted: &str) -> Result<bool, AllocError> {
    let printed = fault.to_string(alloc)?;
    Ok(printed.as_str() == wanted)
}

fn are_printed(alloc: Global) -> Result<bool, AllocError> {
    for (code, text, fault) in CODES {
        if code.text() != *text || !is_printed(alloc, Fault::from(*code), *fault)? {
            return Ok(false);
        }
    }
    is_printed(alloc, Fault::from(AllocError), "out of memory")
}

#[test]
fn codes_and_faults_are_printed(rt: HostRuntime) -> Result<(), Fail> {
    assert!(rt; matches!(limited(), Err(Fault::Refused(Code::Limit))));
    assert!(rt; are_printed(rt.alloc())?);
    Ok(())
}

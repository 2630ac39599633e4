//! Benches: a test asks one thing after another of the tables of several places.
use plain_types::{Items, Text};
use property_store::Field;
use signature_core::Kind;
use std::alloc::{AllocError, Global};

pub(crate) trait Bench: Drop {
    /// What may be asked of a place.
    type Asked: Copy;

    fn new(alloc: Global) -> Result<Self, AllocError>;

    /// The answer, as a number.
    fn ask(&mut self, place: usize, asked: Self::Asked) -> Result<u64, AllocError>;
}

/// Whether a bench gives the listed answers. A case is a place, what is asked of it, and the answer.
pub(crate) fn gives<B: Bench>(
    bench: &mut B,
    cases: &[(usize, B::Asked, u64)],
) -> Result<bool, AllocError> {
    for (place, asked, wanted) in cases {
        if bench.ask(*place, *asked)? != *wanted {
            return Ok(false);
        }
    }
    Ok(true)
}

/// Whether a new bench gives the listed answers.
pub(crate) fn are_answered<B: Bench>(
    alloc: Global,
    cases: &[(usize, B::Asked, u64)],
) -> Result<bool, AllocError> {
    let mut bench = B::new(alloc)?;
    gives(&mut bench, cases)
}

/// Numbers the answers of a bench: appends a decimal digit.
pub(crate) fn digit_behind(digits: u64, digit: u64) -> u64 {
    digits.wrapping_mul(10).wrapping_add(digit)
}

/// The properties that a class declares, each with its name, its kind and whether it may be bound.
pub(crate) fn fields_of(
    alloc: Global,
    rows: &[(&'static str, Kind, bool)],
) -> Result<Items<Field>, AllocError> {
    let mut fields = Items::new(alloc);
    for (name, kind, bindable) in rows {
        fields.push(Field {
            name: Text::from_str(alloc, *name)?,
            kind: *kind,
            bindable: *bindable,
        })?;
    }
    Ok(fields)
}

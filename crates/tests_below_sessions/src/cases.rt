//! Tables of cases, read from JSON arrays. Each case is itself an array: what is given, and what is wanted.
use plain_types::Fault;
use serde_json::Value as Json;
use std::alloc::{AllocError, Global};
use variant_value::Value;

/// A table of cases, and what a test looks at in each of them.
pub(crate) trait Cases {
    /// The cases as a JSON array.
    fn text() -> &'static str;

    /// Whether what a case gives is what it wants.
    fn is_as_wanted(alloc: Global, case: &Json) -> Result<bool, Fault>;
}

/// How many cases a table has, and the place of the first that is not as it wants.
pub(crate) fn first_wrong<C: Cases>(alloc: Global) -> Result<(usize, Option<usize>), Fault> {
    let Ok(Json::Array(cases)) = Json::from_str(alloc, C::text()) else {
        return Err(Fault::Memory);
    };
    for (at, case) in cases.iter().enumerate() {
        if !C::is_as_wanted(alloc, case)? {
            return Ok((cases.len(), Some(at)));
        }
    }
    Ok((cases.len(), None))
}

/// A part of a case, or the case itself where it has no such part.
pub(crate) fn part(case: &Json, at: usize) -> &Json {
    case.get(at).unwrap_or(case)
}

/// A text of a case, or an empty text where that part is missing or not a text.
pub(crate) fn word(case: &Json, at: usize) -> &str {
    part(case, at).as_str().unwrap_or("")
}

/// A value with its kind, as `int 5`.
pub(crate) fn shown(alloc: Global, value: &Value) -> Result<String, AllocError> {
    let mut text = match value.kind() {
        Some(kind) => String::from_str(alloc, kind.name())?,
        None => String::from_str(alloc, "none")?,
    };
    text.push(' ')?;
    text.push_str(&value.to_json(alloc)?.to_string(alloc)?)?;
    Ok(text)
}

//! The members of an object that `serde_json` has read.
ghost use Rattle.std.specs.Prelude.{◌≡◌, IfOk, MatchOption, None};
ghost use Rattle.serde_json.specs.Data.{object};
ghost use Rattle.serde_json.specs.Find.{as_object};
ghost use Rattle.serde_json.specs.View.{view, members_view};
ghost use Rattle.json_reading.specs.Members.{members_in};

use crate::field::{Field, Member};
use serde_json::{Map, Value};
use std::alloc::{AllocError, Global};

/// The members of the value, where it is an object.
#[tactic(auto, using(crate::proofs::MemberLemmas::object_of))]
pub fn tree_members<'a>(
    alloc: Global,
    value: &'a Value,
) -> Result<Option<Vec<Member<'a>>>, AllocError>
    ensures { IfOk result
        (λ found. MatchOption found (as_object (view value.now) ≡ None)
        (λ members. view value.now ≡ object (members_in members.items))) }
{
    match value.as_object() {
        Some(map) => Ok(Some(map_members(alloc, map)?)),
        None => Ok(None),
    }
}

fn map_members<'a>(
    alloc: Global,
    map: &'a Map<String, Value>,
) -> Result<Vec<Member<'a>>, AllocError>
    ensures { IfOk result (λ found. members_in found.items ≡ members_view map.now.entries) }
{
    let mut found = Vec::with_capacity(alloc, map.len())?;
    for (key, value) in map.iter() {
        found.push(Member {
            key: key.as_str(),
            value: Field::Tree(value),
        })?;
    }
    Ok(found)
}

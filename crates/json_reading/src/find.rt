//! Looking for a member.
ghost use Rattle.std.specs.Prelude.{◌≡◌, ◌<◌, IfOk, IfSome, bytes_eq, length, option_and_then, option_map, slice_get};
ghost use Rattle.serde_json.specs.Find.{get_member};
ghost use Rattle.serde_json.specs.View.{view};
ghost use Rattle.json_reading.specs.Members.{data_of, members_in};

use crate::field::{Field, Member};
use serde_json::Value;
use std::alloc::{AllocError, Global};

/// Whether a key is this word. Most are of another length, which is asked first.
#[inline(always)]
pub fn is_word(key: &str, word: &str) -> bool
    ensures { result ≡ bytes_eq key.now word.now }
{
    key.len() == word.len() && key == word
}

/// The value of the last member with this key.
pub fn value_at<'m, 'a>(members: &'m [Member<'a>], key: &str) -> Option<&'m Field<'a>>
    ensures { option_map (λ field. data_of field.now) result
        ≡ get_member key.now (members_in members.now) }
{
    match last_at(members, key) {
        Some(place) => Some(&members[place].value),
        None => None,
    }
}

/// The JSON of the last member with this key: itself where the member owns it, which then has null, and else a copy.
pub fn take_at(
    alloc: Global,
    members: &mut [Member<'_>],
    key: &str,
) -> Result<Option<Value>, AllocError>
    ensures { IfOk result (λ json. option_map view json ≡ get_member key.now (members_in members.old)) }
{
    match last_at(members, key) {
        Some(place) => Ok(Some(members[place].value.take_json(alloc)?)),
        None => Ok(None),
    }
}

/// The place of the last member with this key.
#[inline(always)]
fn last_at(members: &[Member<'_>], key: &str) -> Option<usize>
    ensures value { get_member key.now (members_in members.now)
        ≡ option_map (λ member. data_of member.value) (option_and_then (slice_get members.now) result) }
    ensures within { IfSome result (λ place. place < length members.now) }
{
    let mut left = members.len();
    'left: while left > 0 {
        left -= 1;
        if is_word(members[left].key, key) {
            return Some(left);
        }
    }
    None
}

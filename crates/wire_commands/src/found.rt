//! The values that a line has at the keys of its command.
ghost use Rattle.std.specs.Prelude.{◌≡◌, ◌≤◌, [], IsTrue, length, true};
ghost use Rattle.serde_json.specs.Data.{object};
ghost use Rattle.json_reading.specs.Members.{data_of, members_in};
ghost use Rattle.wire_commands.specs.Found.{AreFound, IsPlaceOf, are_distinct, with_common, words_of};
ghost use Rattle.wire_commands.specs.Held.{has_only, is_common};

use crate::keys::Key;
use json_reading::{Field, Member, is_word};

/// Puts the value that the members have at each of the keys to the place of the key. Answers whether there are
/// no further keys. Keys mostly come in the order in which a command names them.
pub(crate) fn find_values<'m, 'a>(
    members: &'m [Member<'a>],
    keys: &[Key],
    found: &mut [Option<&'m Field<'a>>],
) -> bool
    requires room { length keys.now ≤ length found.old }
    requires none { AreFound (λ field. data_of field.now) (words_of keys.now) [] found.old }
    requires distinct { are_distinct (with_common (words_of keys.now)) ≡ true }
    ensures known { result ≡ has_only (words_of keys.now) (object (members_in members.now)) }
    ensures found { IsTrue result → AreFound (λ field. data_of field.now) (words_of keys.now) members.now found.new }
    ensures room { length found.new ≡ length found.old }
{
    let mut next = 0;
    'members: for member in members {
        if !is_common(member.key) {
            let Some(place) = place_of(member.key, keys, next) else {
                return false;
            };
            found[place] = Some(&member.value);
            next = place + 1;
        }
    }
    true
}

/// Whether every command has the key.
#[inline(always)]
fn is_common(word: &str) -> bool
    ensures { result ≡ is_common word.now }
{
    is_word(word, "do") || is_word(word, "session")
}

/// The place of a key, which is looked for at the expected place first.
#[inline(always)]
fn place_of(word: &str, keys: &[Key], expected: usize) -> Option<usize>
    ensures { IsPlaceOf word.now keys.now result }
{
    if expected < keys.len() && is_word(word, keys[expected].word()) {
        return Some(expected);
    }
    any_place_of(word, keys)
}

/// The first place of a key.
fn any_place_of(word: &str, keys: &[Key]) -> Option<usize>
    ensures { IsPlaceOf word.now keys.now result }
{
    'keys: for (place, key) in keys.iter().enumerate() {
        if is_word(word, key.word()) {
            return Some(place);
        }
    }
    None
}

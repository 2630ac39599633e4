//! These functions read the text or the name at a key.
ghost use Rattle.std.specs.Prelude.{◌≡◌, option_map};
ghost use Rattle.serde_json.specs.Data.{object};
ghost use Rattle.json_reading.specs.Fields.{text_at, name_at};
ghost use Rattle.json_reading.specs.Members.{members_in};

use crate::field::Member;
use crate::find::value_at;
use plain_types::is_name;

/// The member at this key, where it is a text.
#[tactic(auto, unfolding(crate::specs::Fields::text_at))]
pub fn text_at<'a>(members: &[Member<'a>], key: &str) -> Option<&'a str>
    ensures { option_map (λ text. text.now) result
        ≡ text_at key.now (object (members_in members.now)) }
{
    value_at(members, key)?.as_text()
}

/// The member at this key, where it is a name.
#[tactic(auto, unfolding(crate::specs::Fields::name_at))]
pub fn name_at<'a>(members: &[Member<'a>], key: &str) -> Option<&'a str>
    ensures { option_map (λ name. name.now) result
        ≡ name_at key.now (object (members_in members.now)) }
{
    let text = text_at(members, key)?;
    if is_name(text) { Some(text) } else { None }
}

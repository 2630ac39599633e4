//! The members of a text, in the quickest way that gives them.
ghost use Rattle.std.specs.Prelude.{◌≡◌, Err, IfOk, None, Some};
ghost use Rattle.serde_json.specs.Data.{object};
ghost use Rattle.serde_json.specs.Read.{read};
ghost use Rattle.json_reading.specs.declared.stop.Stop.TheVariants.{NotJson};
ghost use Rattle.json_reading.specs.Members.{members_in};

use crate::field::Member;
use crate::scan::scan_members;
use crate::stop::Stop;
use crate::token::token_members;
use json::Scratch;
use std::alloc::Global;

/// The members of the text, where it is an object, no list among its members has parts in its parts, and its numbers
/// are whole and have 64 bits, with their sign. What can be is borrowed from the text; the objects among its members
/// are owned. Whether a text is no JSON is answered where the tokens show it. Any other text is left to `serde_json`.
pub fn plain_members<'a>(
    alloc: Global,
    text: &'a str,
    scratch: &'a mut Scratch,
) -> Result<Vec<Member<'a>>, Stop>
    ensures ok { IfOk result (λ members. read text.now ≡ Some (object (members_in members.items))) }
    ensures not_json { result ≡ Err NotJson → read text.now ≡ None }
{
    match scan_members(alloc, text) {
        Ok(members) => Ok(members),
        Err(Stop::Memory) => Err(Stop::Memory),
        Err(_) => token_members(alloc, text, scratch),
    }
}

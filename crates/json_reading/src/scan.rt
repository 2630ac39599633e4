//! Reading an object byte by byte: no white space, no escapes, whole numbers without a sign.
ghost use Rattle.std.specs.Prelude.{◌≡◌, ◌++◌, ◌∷◌, [], map, IfOk, Some};
ghost use Rattle.json.specs.Token.{end_array};
ghost use Rattle.json.specs.Print.{print};
ghost use Rattle.serde_json.specs.Data.{object};
ghost use Rattle.serde_json.specs.Read.{read};
ghost use Rattle.json_reading.specs.Members.{members_in};
ghost use Rattle.json_reading.specs.Spelling.{member_text, scalar_token, field_tokens, AllFit, IsSpelled, StandsAt};

use crate::field::{Field, Member, ROOM, Scalar};
use crate::scalar::{byte_at, scan_scalar, scan_text};
use crate::stop::Stop;
use std::alloc::Global;

/// The members of the text, where it is an object with at least one member and no white space,
/// its texts have no escapes, and its numbers are whole, without a sign and have 64 bits.
pub fn scan_members<'a>(alloc: Global, text: &'a str) -> Result<Vec<Member<'a>>, Stop>
    ensures { IfOk result (λ members. read text.now ≡ Some (object (members_in members.items))) }
{
    let bytes = text.as_bytes();
    if byte_at(bytes, 0) != b'{' {
        return Err(Stop::Form);
    }
    let mut found = Vec::with_capacity(alloc, ROOM)?;
    let mut at = 1;
    'members: loop {
        let (member, end) = scan_member(alloc, text, at)?;
        found.push(member)?;
        match byte_at(bytes, end) {
            b',' => at = end + 1,
            b'}' if end + 1 == bytes.len() => return Ok(found),
            _ => return Err(Stop::Form),
        }
    }
}

/// The member that begins at a place, and where it ends.
#[inline(always)]
fn scan_member<'a>(alloc: Global, text: &'a str, at: usize) -> Result<(Member<'a>, usize), Stop>
    ensures { IfOk result
        (λ found. StandsAt text.now at (member_text found.0) found.1 × IsSpelled found.0.value) }
{
    let (key, colon) = scan_text(text, at)?;
    if byte_at(text.as_bytes(), colon) != b':' {
        return Err(Stop::Form);
    }
    let (value, end) = scan_field(alloc, text, colon + 1)?;
    Ok((Member { key, value }, end))
}

/// The value that begins at a place, and where it ends.
#[inline(always)]
fn scan_field<'a>(alloc: Global, text: &'a str, at: usize) -> Result<(Field<'a>, usize), Stop>
    ensures { IfOk result
        (λ found. StandsAt text.now at (print (field_tokens found.0)) found.1
        × IsSpelled found.0) }
{
    if byte_at(text.as_bytes(), at) == b'[' {
        let (items, end) = scan_items(alloc, text, at + 1)?;
        return Ok((Field::List(items), end));
    }
    let (scalar, end) = scan_scalar(text, at)?;
    Ok((Field::Plain(scalar), end))
}

/// The values without parts from a place up to the bracket that closes their list, and where it
/// ends.
#[inline(never)]
fn scan_items<'a>(
    alloc: Global,
    text: &'a str,
    from: usize,
) -> Result<(Vec<Scalar<'a>>, usize), Stop>
    ensures { IfOk result
        (λ found. StandsAt text.now from
        (print (map scalar_token found.0.items ++ end_array ∷ [])) found.1
        × AllFit found.0.items) }
{
    let bytes = text.as_bytes();
    let mut found = Vec::new(alloc);
    if byte_at(bytes, from) == b']' {
        return Ok((found, from + 1));
    }
    let mut at = from;
    'items: loop {
        let (item, next) = scan_scalar(text, at)?;
        found.push(item)?;
        match byte_at(bytes, next) {
            b',' => at = next + 1,
            b']' => return Ok((found, next + 1)),
            _ => return Err(Stop::Form),
        }
    }
}

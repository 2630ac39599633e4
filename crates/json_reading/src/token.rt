//! Reading an object by the tokens of `json`: white space, escapes, and objects among its members too.
ghost use Rattle.std.specs.Prelude.{FitsSigned, ◌≡◌, ◌++◌, ◌∷◌, ◌<◌, ◌^◌, decimal, length, map, Err, IfOk, IfSome, None, OnOk, Some};
ghost use Rattle.std.specs.Int.{w64};
ghost use Rattle.std.specs.Fmt.{signed_decimal};
ghost use Rattle.json.specs.Token.{end_array, number};
ghost use Rattle.json.specs.Reads.{token_of};
ghost use Rattle.serde_json.specs.Data.{object};
ghost use Rattle.serde_json.specs.Read.{read};
ghost use Rattle.json_reading.specs.declared.stop.Stop.TheVariants.{NotJson};
ghost use Rattle.json_reading.specs.Faults.{BeginsNoValue, HasNoItems};
ghost use Rattle.json_reading.specs.Members.{data_of, members_in};
ghost use Rattle.json_reading.specs.Spelling.{scalar_token, Fits, AllFit};
ghost use Rattle.json_reading.specs.Tokens.{rest_of_members, value_in};

use crate::field::{Field, Member, ROOM, Scalar};
use crate::own::Own;
use crate::real::Real;
use crate::scalar::{scan_negative, scan_number};
use crate::stop::Stop;
use crate::value::{MOST_NESTED, read_members};
use json::{Reader, Scratch, Token};
use std::alloc::Global;

/// The members of the text, where it is an object whose numbers are whole and have 64 bits, with
/// their sign, and whose lists have parts only in objects. Texts with escapes are written to `scratch`.
pub fn token_members<'a>(
    alloc: Global,
    text: &'a str,
    scratch: &'a mut Scratch,
) -> Result<Vec<Member<'a>>, Stop>
    ensures ok { IfOk result (λ members. read text.now ≡ Some (object (members_in members.items))) }
    ensures not_json { result ≡ Err NotJson → read text.now ≡ None }
{
    let mut reader = Reader::new(text, scratch)?;
    match reader.next() {
        Some(Token::BeginObject) => {}
        Some(Token::Bad) => return Err(Stop::NotJson),
        Some(_) => return Err(Stop::Form),
        None => return Err(Stop::NotJson),
    }
    let found = rest_of_members(alloc, &mut reader)?;
    match reader.next() {
        None => Ok(found),
        Some(_) => Err(Stop::NotJson),
    }
}

/// The members up to the brace that closes the object.
fn rest_of_members<'a>(alloc: Global, reader: &mut Reader<'a>) -> Result<Vec<Member<'a>>, Stop>
    ensures ok { IfOk result (λ found. rest_of_members 126 reader.old ≡ Some (members_in found.items, reader.new)) }
    ensures not_json { result ≡ Err NotJson → rest_of_members 126 reader.old ≡ None }
{
    let mut found = Vec::with_capacity(alloc, ROOM)?;
    'members: while let Some(key) = reader.next_key()? {
        let value = token_field(alloc, reader)?;
        found.push(Member { key, value })?;
    }
    Ok(found)
}

/// The next value.
fn token_field<'a>(alloc: Global, reader: &mut Reader<'a>) -> Result<Field<'a>, Stop>
    ensures ok { IfOk result (λ found. value_in 126 reader.old ≡ Some (data_of found, reader.new)) }
    ensures shorter { OnOk result (length reader.new < length reader.old) }
    ensures not_json { result ≡ Err NotJson → value_in 126 reader.old ≡ None }
{
    match reader.next().ok_or(Stop::NotJson)? {
        Token::BeginArray => Ok(Field::List(token_items(alloc, reader)?)),
        Token::BeginObject => {
            let members = read_members(alloc, reader, MOST_NESTED - 2)?;
            Ok(Field::Owned(Box::new(alloc, Own::object(members))?))
        }
        token => Ok(Field::Plain(token_scalar(token)?)),
    }
}

/// The values without parts up to the bracket that closes their list.
fn token_items<'a>(alloc: Global, reader: &mut Reader<'a>) -> Result<Vec<Scalar<'a>>, Stop>
    ensures ok { IfOk result
        (λ found. (reader.old ≡ map scalar_token found.items ++ end_array ∷ reader.new)
        × AllFit found.items) }
    ensures not_json { result ≡ Err NotJson → HasNoItems reader.old }
{
    let mut found = Vec::new(alloc);
    'items: while !reader.take_end_array() {
        let token = reader.next().ok_or(Stop::NotJson)?;
        found.push(token_scalar(token)?)?;
    }
    Ok(found)
}

/// The value without parts that the token is.
pub(crate) fn token_scalar<'a>(token: Token<'a>) -> Result<Scalar<'a>, Stop>
    ensures ok { IfOk result (λ found. (token_of token.entry ≡ scalar_token found) × Fits found) }
    ensures not_json { result ≡ Err NotJson → BeginsNoValue (token_of token.entry) }
{
    match token {
        Token::String(text) => Ok(Scalar::Text(text)),
        Token::Number(text) => number_scalar(text).ok_or(Stop::Form),
        Token::Bool(truth) => Ok(Scalar::Truth(truth)),
        Token::Null => Ok(Scalar::Null),
        Token::BeginObject | Token::BeginArray => Err(Stop::Nested),
        Token::EndObject | Token::EndArray | Token::Key(_) | Token::Bad => Err(Stop::NotJson),
    }
}

/// The number that the whole text is, where it has 64 bits with its sign, or a fraction or an exponent.
fn number_scalar<'a>(text: &'a str) -> Option<Scalar<'a>>
    ensures { IfSome result (λ found. (number text.now ≡ scalar_token found) × Fits found) }
{
    if let Some(number) = whole_number(text) {
        return Some(Scalar::Number(number));
    }
    match negative_number(text) {
        Some(number) => Some(Scalar::Signed(number)),
        None => Some(Scalar::Real(Real::from_text(text)?)),
    }
}

/// The number that the whole text is, as `decimal` writes it.
fn whole_number(text: &str) -> Option<u64>
    ensures { IfSome result (λ number. (text.now ≡ decimal number) × (number < 2 ^ 64)) }
{
    let (number, end) = scan_number(text.as_bytes())?;
    if end == text.len() {
        Some(number)
    } else {
        None
    }
}

/// The number below 0 that the whole text is.
fn negative_number(text: &str) -> Option<i64>
    ensures { IfSome result (λ number. (text.now ≡ signed_decimal number) × FitsSigned w64 number) }
{
    let (number, end) = scan_negative(text.as_bytes())?;
    if end == text.len() {
        Some(number)
    } else {
        None
    }
}

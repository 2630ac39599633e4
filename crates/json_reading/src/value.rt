//! JSON of any form, read by tokens with memory that is lent.
ghost use Rattle.std.specs.Prelude.{◌≡◌, ◌<◌, length, Err, IfOk, None, OnOk, Some, option_map};
ghost use Rattle.serde_json.specs.Read.{read};
ghost use Rattle.serde_json.specs.View.{items_view, members_view, view};
ghost use Rattle.json_reading.specs.declared.stop.Stop.TheVariants.{NotJson};
ghost use Rattle.json_reading.specs.Tokens.{rest_of_items, rest_of_members, value_in};

use crate::copy::scalar_json;
use crate::stop::Stop;
use crate::token::token_scalar;
use json::{Reader, Scratch, Token};
use serde_json::{Map, Value};
use std::alloc::{AllocError, Global};

/// How deep arrays and objects nest in what `serde_json` reads.
pub(crate) const MOST_NESTED: usize = 127;

/// The JSON that the text is, or none. The scratch serves for many texts: `serde_json`, which makes one for each
/// text, reads only those with numbers that are not whole or have more than 64 bits with their sign.
pub fn read_json(
    alloc: Global,
    text: &str,
    scratch: &mut Scratch,
) -> Result<Option<Value>, AllocError>
    ensures { IfOk result (λ json. option_map view json ≡ read text.now) }
{
    match whole_json(alloc, text, scratch) {
        Ok(json) => Ok(Some(json)),
        Err(Stop::NotJson) => Ok(None),
        Err(Stop::Memory) => Err(AllocError),
        Err(_) => any_json(alloc, text),
    }
}

fn any_json(alloc: Global, text: &str) -> Result<Option<Value>, AllocError>
    ensures { IfOk result (λ json. option_map view json ≡ read text.now) }
{
    match Value::from_str(alloc, text) {
        Ok(json) => Ok(Some(json)),
        Err(error) if error.is_memory() => Err(AllocError),
        Err(_) => Ok(None),
    }
}

/// The JSON that the text is, where its numbers are whole and have 64 bits with their sign.
fn whole_json(alloc: Global, text: &str, scratch: &mut Scratch) -> Result<Value, Stop>
    ensures ok { IfOk result (λ json. read text.now ≡ Some (view json)) }
    ensures not_json { result ≡ Err NotJson → read text.now ≡ None }
{
    let mut reader = Reader::new(text, scratch)?;
    let json = read_value(alloc, &mut reader, MOST_NESTED)?;
    match reader.next() {
        None => Ok(json),
        Some(_) => Err(Stop::NotJson),
    }
}

/// The next value, in which arrays and objects nest no deeper than this.
#[cycle(value)]
fn read_value(alloc: Global, reader: &mut Reader<'_>, depth: usize) -> Result<Value, Stop>
    ensures ok { IfOk result (λ json. value_in depth reader.old ≡ Some (view json, reader.new)) }
    ensures shorter { OnOk result (length reader.new < length reader.old) }
    ensures not_json { result ≡ Err NotJson → value_in depth reader.old ≡ None }
{
    match reader.next().ok_or(Stop::NotJson)? {
        Token::BeginArray => {
            if depth == 0 {
                return Err(Stop::NotJson);
            }
            Ok(Value::Array(read_items(alloc, reader, depth - 1)?))
        }
        Token::BeginObject => {
            if depth == 0 {
                return Err(Stop::NotJson);
            }
            Ok(Value::Object(read_members(alloc, reader, depth - 1)?))
        }
        token => {
            let scalar = token_scalar(token)?;
            Ok(scalar_json(alloc, &scalar)?)
        }
    }
}

/// The values up to the bracket that closes their array.
#[cycle(value)]
fn read_items(alloc: Global, reader: &mut Reader<'_>, depth: usize) -> Result<Vec<Value>, Stop>
    ensures ok { IfOk result (λ found. rest_of_items depth reader.old ≡ Some (items_view found.items, reader.new)) }
    ensures shorter { OnOk result (length reader.new < length reader.old) }
    ensures not_json { result ≡ Err NotJson → rest_of_items depth reader.old ≡ None }
{
    let mut found = Vec::new(alloc);
    'items: while !reader.take_end_array() {
        let item = read_value(alloc, reader, depth)?;
        found.push(item)?;
    }
    Ok(found)
}

/// The members up to the brace that closes their object.
#[cycle(value)]
pub(crate) fn read_members(
    alloc: Global,
    reader: &mut Reader<'_>,
    depth: usize,
) -> Result<Map<String, Value>, Stop>
    ensures ok { IfOk result (λ found. rest_of_members depth reader.old ≡ Some (members_view found.entries, reader.new)) }
    ensures shorter { OnOk result (length reader.new < length reader.old) }
    ensures not_json { result ≡ Err NotJson → rest_of_members depth reader.old ≡ None }
{
    let mut found = Map::new(alloc);
    'members: while let Some(name) = reader.next_key()? {
        let key = String::from_str(alloc, name)?;
        let member = read_value(alloc, reader, depth)?;
        drop(found.insert(key, member)?);
    }
    Ok(found)
}

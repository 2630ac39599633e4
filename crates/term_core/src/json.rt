//! The small parts of expressions and actions in JSON.
ghost use Rattle.std.specs.Prelude.{◌≡◌, bytes_eq, map, string_bytes};
ghost use Rattle.std.specs.List.{list_any, list_all};
ghost use Rattle.std.specs.Map.{keys_of};
ghost use Rattle.serde_json.specs.View.{view};
ghost use Rattle.plain_types.specs.Answers.{Answers};
ghost use Rattle.term_core.specs.Json.{has_only, name_in, natural_in, constant_in, target_in, child_target};

use crate::target::Target;
use plain_types::{Code, Fault, Text, is_name};
use serde_json::{Map, Value as Json};
use std::alloc::Global;
use variant_value::Value;

/// The fault for JSON that is not a valid form.
pub(crate) const BAD: Fault = Fault::Refused(Code::BadValue);

/// Whether the JSON is an object with no keys but these.
#[tactic(auto, using(crate::proofs::Keys::keys_are_among_entries))]
pub(crate) fn has_only(json: &Json, allowed: &[&str]) -> bool
    ensures { result ≡ has_only (map (λ key. key.now) allowed.now) (view json.now) }
{
    match json.as_object() {
        None => false,
        Some(members) => keys_are_among(members, allowed),
    }
}

fn keys_are_among(members: &Map<String, Json>, allowed: &[&str]) -> bool
    ensures { result ≡ list_all (λ key. list_any (λ other. bytes_eq (string_bytes key) other.now) allowed.now) (keys_of members.now.entries) }
{
    members.keys().all(|key| is_among(key.as_str(), allowed))
}

fn is_among(key: &str, allowed: &[&str]) -> bool
    ensures { result ≡ list_any (λ other. bytes_eq key.now other.now) allowed.now }
{
    allowed.iter().any(|other| key == *other)
}

/// A text that is a name.
pub(crate) fn name(alloc: Global, json: &Json) -> Result<Text, Fault>
    ensures { Answers result (name_in (view json.now)) }
{
    match json.as_str() {
        Some(text) if is_name(text) => Ok(Text::from_str(alloc, text)?),
        _ => Err(BAD),
    }
}

/// A whole number from 0.
pub(crate) fn natural(json: &Json) -> Result<u64, Fault>
    ensures { Answers result (natural_in (view json.now)) }
{
    json.as_u64().ok_or(BAD)
}

/// A constant: true, false, a whole number or a text, of any length here.
pub(crate) fn constant(alloc: Global, json: &Json) -> Result<Value, Fault>
    ensures { Answers result (constant_in (view json.now)) }
{
    match json {
        Json::Bool(_) | Json::Number(_) => Value::infer(alloc, json),
        Json::String(text) => Ok(Value::Text(Text::from_str(alloc, text)?)),
        _ => Err(BAD),
    }
}

/// A target.
pub(crate) fn target(alloc: Global, json: &Json) -> Result<Target, Fault>
    ensures { Answers result (target_in (view json.now)) }
{
    match json {
        Json::String(word) => match word.as_str() {
            "self" => Ok(Target::Itself),
            "sender" => Ok(Target::Sender),
            _ => Err(BAD),
        },
        Json::Number(_) => match u32::try_from(natural(json)?) {
            Ok(number) if number >= 1 => Ok(Target::Object(number)),
            _ => Err(BAD),
        },
        Json::Object(_) => child(alloc, json),
        _ => Err(BAD),
    }
}

/// A target that is found by its name.
fn child(alloc: Global, json: &Json) -> Result<Target, Fault>
    ensures { Answers result (child_target (view json.now)) }
{
    match json.get("child").and_then(Json::as_str) {
        Some(name) if has_only(json, &["child"]) => Ok(Target::Child(Text::from_str(alloc, name)?)),
        _ => Err(BAD),
    }
}

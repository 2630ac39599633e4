//! A property is named by an object with the number of its object and its name.
ghost use Rattle.std.specs.Prelude.{◌≡◌, option_map, string_bytes};
ghost use Rattle.std.specs.List.{list_all};
ghost use Rattle.std.specs.Map.{keys_of};
ghost use Rattle.serde_json.specs.View.{view};
ghost use Rattle.json_reading.specs.Members.{data_of};
ghost use Rattle.wire_commands.specs.Held.{has_property_keys, held_seen, is_property_key, property_in};

use crate::held::{Held, number_in};
use json_reading::Field;
use plain_types::is_name;
use serde_json::{Map, Value};

/// The property that the value names.
pub(crate) fn property_in<'m, 'a>(field: &'m Field<'a>) -> Option<Held<'m, 'a>>
    ensures { option_map held_seen result ≡ property_in (data_of field.now) }
{
    match field {
        Field::Plain(_) | Field::List(_) => None,
        Field::Tree(value) => property_named(value),
        Field::Owned(own) => property_named(own.json()),
    }
}

fn property_named<'m, 'a>(json: &'m Value) -> Option<Held<'m, 'a>>
    ensures { option_map held_seen result ≡ property_in (view json.now) }
{
    let object = json.get("object")?;
    let property = json.get("property")?;
    let number = number_in(&Field::Tree(object))?;
    let name = property.as_str()?;
    if !is_name(name) || !has_property_keys(json) {
        return None;
    }
    Some(Held::Property(number, name))
}

/// Whether the JSON is an object with no keys but these two.
#[tactic(auto, using(crate::proofs::PropertyKeys::all_keys_of_entries))]
fn has_property_keys(json: &Value) -> bool
    ensures { result ≡ has_property_keys (view json.now) }
{
    match json.as_object() {
        None => false,
        Some(members) => are_property_keys(members),
    }
}

fn are_property_keys(members: &Map<String, Value>) -> bool
    ensures { result ≡ list_all (λ key. is_property_key (string_bytes key)) (keys_of members.now.entries) }
{
    members.keys().all(|key| is_property_key(key.as_str()))
}

fn is_property_key(key: &str) -> bool
    ensures { result ≡ is_property_key key.now }
{
    key == "object" || key == "property"
}

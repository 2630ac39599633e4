//! The form of a class in JSON.
ghost use Rattle.std.specs.Prelude.{◌≡◌, [], None, false, bytes_eq, map, string_bytes};
ghost use Rattle.std.specs.BTreeMap.{keys};
ghost use Rattle.std.specs.List.{list_all, list_any};
ghost use Rattle.std.specs.Option.{option_map};
ghost use Rattle.serde_json.specs.View.{view};
ghost use Rattle.term_core.specs.Json.{has_only};
ghost use Rattle.class_table.specs.Faults.{Gives};
ghost use Rattle.class_table.specs.Forms.{class_seen, method_seen, property_seen};
ghost use Rattle.class_table.specs.Steps.{each, in_front};
ghost use Rattle.class_table.specs.Written.{array_in, at_key, class_in, class_keys, kind_at, member_text, methods_in, name_at, optional, properties_in};
ghost use Rattle.class_table.specs.Written.{property_in, property_keys, signal_in, slot_in, slot_keys, some_text_in, text_in, truth_in};

use crate::fault::{ClassFaultKind, Stop};
use plain_types::is_name;
use serde_json::{Map, Value};
use signature_core::Kind;
use std::alloc::Global;

/// The fault of JSON that is not of the form.
const BAD_FORM: Stop = Stop::Fault(ClassFaultKind::BadForm);

/// A method as it is written.
#[derive(Drop)]
pub(crate) struct MethodForm<'j> {
    pub(crate) signature: &'j str,
    /// A slot has a body; a signal has none.
    pub(crate) body: Option<&'j Value>,
}

/// A property as it is written.
#[derive(Drop)]
pub(crate) struct PropertyForm<'j> {
    pub(crate) name: &'j str,
    pub(crate) kind: Kind,
    /// The signature of the NOTIFY signal, where there is such a signal.
    pub(crate) notify: Option<&'j str>,
    pub(crate) bindable: bool,
}

/// A class as it is written.
#[derive(Drop)]
pub(crate) struct ClassForm<'j> {
    pub(crate) name: &'j str,
    pub(crate) base: &'j str,
    /// The signals, and then the slots.
    pub(crate) methods: Vec<MethodForm<'j>>,
    pub(crate) properties: Vec<PropertyForm<'j>>,
}

impl<'j> ClassForm<'j> {
    #[tactic(auto, unfolding(crate::specs::Written::class_in))]
    pub(crate) fn read(alloc: Global, json: &'j Value) -> Result<ClassForm<'j>, Stop>
        ensures { Gives class_seen result (class_in (view json.now)) }
    {
        let name = name_at(json, "name")?;
        let base = name_at(json, "super")?;
        let methods = methods_in(alloc, json)?;
        let properties = properties_in(alloc, json)?;
        if !has_class_keys(json) {
            return Err(BAD_FORM);
        }
        Ok(ClassForm {
            name,
            base,
            methods,
            properties,
        })
    }
}

/// The signals of a class, and then its slots.
#[tactic(auto, unfolding(crate::specs::Written::methods_in))]
fn methods_in<'j>(alloc: Global, json: &'j Value) -> Result<Vec<MethodForm<'j>>, Stop>
    ensures { Gives (λ v. map method_seen v.items) result (methods_in (view json.now)) }
{
    let signals = signals_in(alloc, array_at(json, "signals")?)?;
    slots_in(signals, array_at(json, "slots")?)
}

fn signals_in<'j>(alloc: Global, array: &'j [Value]) -> Result<Vec<MethodForm<'j>>, Stop>
    ensures { Gives (λ v. map method_seen v.items) result (each signal_in (map view array.now)) }
{
    let mut methods = Vec::new(alloc);
    for json in array {
        let signature = text_in(json)?;
        methods.push(MethodForm {
            signature,
            body: None,
        })?;
    }
    Ok(methods)
}

/// Appends slots to the methods.
fn slots_in<'j>(
    mut methods: Vec<MethodForm<'j>>,
    array: &'j [Value],
) -> Result<Vec<MethodForm<'j>>, Stop>
    ensures { Gives (λ v. map method_seen v.items) result
        (in_front (map method_seen methods.entry.items) (each slot_in (map view array.now))) }
{
    for json in array {
        let slot = slot_in(json)?;
        methods.push(slot)?;
    }
    Ok(methods)
}

#[tactic(auto, unfolding(crate::specs::Written::slot_in))]
fn slot_in(json: &Value) -> Result<MethodForm<'_>, Stop>
    ensures { Gives method_seen result (slot_in (view json.now)) }
{
    let signature = member_text(json, "sig")?;
    let body = member(json, "body")?;
    array_in(body)?;
    if !has_slot_keys(json) {
        return Err(BAD_FORM);
    }
    Ok(MethodForm {
        signature,
        body: Some(body),
    })
}

/// The properties of a class.
#[tactic(auto, unfolding(crate::specs::Written::properties_in))]
fn properties_in<'j>(alloc: Global, json: &'j Value) -> Result<Vec<PropertyForm<'j>>, Stop>
    ensures { Gives (λ v. map property_seen v.items) result (properties_in (view json.now)) }
{
    each_property_in(alloc, array_at(json, "properties")?)
}

fn each_property_in<'j>(alloc: Global, array: &'j [Value]) -> Result<Vec<PropertyForm<'j>>, Stop>
    ensures { Gives (λ v. map property_seen v.items) result (each property_in (map view array.now)) }
{
    let mut properties = Vec::new(alloc);
    for json in array {
        let property = property_in(json)?;
        properties.push(property)?;
    }
    Ok(properties)
}

#[tactic(auto, unfolding(crate::specs::Written::property_in))]
fn property_in(json: &Value) -> Result<PropertyForm<'_>, Stop>
    ensures { Gives property_seen result (property_in (view json.now)) }
{
    let name = name_at(json, "name")?;
    let kind = kind_at(json, "type")?;
    let notify = text_at(json, "notify")?;
    let bindable = truth_at(json, "bindable")?;
    if !has_property_keys(json) {
        return Err(BAD_FORM);
    }
    Ok(PropertyForm {
        name,
        kind,
        notify,
        bindable,
    })
}

/// Whether the JSON is an object with no keys but those of a class.
fn has_class_keys(json: &Value) -> bool
    ensures { result ≡ has_only class_keys (view json.now) }
{
    has_only(json, &["name", "super", "signals", "slots", "properties"])
}

/// Whether the JSON is an object with no keys but those of a slot.
fn has_slot_keys(json: &Value) -> bool
    ensures { result ≡ has_only slot_keys (view json.now) }
{
    has_only(json, &["sig", "body"])
}

/// Whether the JSON is an object with no keys but those of a property.
fn has_property_keys(json: &Value) -> bool
    ensures { result ≡ has_only property_keys (view json.now) }
{
    has_only(json, &["name", "type", "notify", "bindable"])
}

/// Whether the JSON is an object with no keys but these.
#[tactic(auto, using(crate::proofs::FormLemmas::keys_are_among_view))]
pub(crate) fn has_only(json: &Value, keys: &[&str]) -> bool
    ensures { result ≡ has_only (map (λ key. key.now) keys.now) (view json.now) }
{
    match json.as_object() {
        Some(members) => all_are_among(members, keys),
        None => false,
    }
}

fn all_are_among(members: &Map<String, Value>, known: &[&str]) -> bool
    ensures { result ≡ list_all
        (λ key. list_any (λ one. bytes_eq (string_bytes key) one.now) known.now)
        (keys members.now) }
{
    members.keys().all(|key| is_among(key.as_str(), known))
}

fn is_among(key: &str, known: &[&str]) -> bool
    ensures { result ≡ list_any (λ one. bytes_eq key.now one.now) known.now }
{
    known.iter().any(|one| key == *one)
}

/// Returns the value at a key that must be there.
pub(crate) fn member<'j>(json: &'j Value, key: &str) -> Result<&'j Value, Stop>
    ensures { Gives (λ v. view v.now) result (at_key key.now (view json.now)) }
{
    match json.get(key) {
        Some(value) => Ok(value),
        None => Err(BAD_FORM),
    }
}

/// The elements of an array.
#[tactic(auto, using(crate::proofs::FormLemmas::elements_items_view))]
pub(crate) fn array_in(json: &Value) -> Result<&[Value], Stop>
    ensures { Gives (λ v. map view v.now) result (array_in (view json.now)) }
{
    match json.as_array() {
        Some(values) => Ok(values.as_slice()),
        None => Err(BAD_FORM),
    }
}

/// The elements of the array at a key, or no elements where the key is absent.
fn array_at<'j>(json: &'j Value, key: &str) -> Result<&'j [Value], Stop>
    ensures { Gives (λ v. map view v.now) result (optional array_in [] key.now (view json.now)) }
{
    match json.get(key) {
        Some(value) => array_in(value),
        None => Ok(&[]),
    }
}

fn text_at<'j>(json: &'j Value, key: &str) -> Result<Option<&'j str>, Stop>
    ensures { Gives (option_map (λ t. t.now)) result (optional some_text_in None key.now (view json.now)) }
{
    match json.get(key) {
        Some(value) => Ok(Some(text_in(value)?)),
        None => Ok(None),
    }
}

fn truth_at(json: &Value, key: &str) -> Result<bool, Stop>
    ensures { Gives (λ b. b) result (optional truth_in false key.now (view json.now)) }
{
    match json.get(key) {
        Some(value) => truth_in(value),
        None => Ok(false),
    }
}

fn text_in(json: &Value) -> Result<&str, Stop>
    ensures { Gives (λ t. t.now) result (text_in (view json.now)) }
{
    match json.as_str() {
        Some(text) => Ok(text),
        None => Err(BAD_FORM),
    }
}

/// The text at a key that must be present.
fn member_text<'j>(json: &'j Value, key: &str) -> Result<&'j str, Stop>
    ensures { Gives (λ t. t.now) result (member_text key.now (view json.now)) }
{
    text_in(member(json, key)?)
}

/// The name at a key that must be present.
fn name_at<'j>(json: &'j Value, key: &str) -> Result<&'j str, Stop>
    ensures { Gives (λ t. t.now) result (name_at key.now (view json.now)) }
{
    let text = member_text(json, key)?;
    if is_name(text) {
        Ok(text)
    } else {
        Err(BAD_FORM)
    }
}

/// The kind whose name is at a key that must be present.
fn kind_at(json: &Value, key: &str) -> Result<Kind, Stop>
    ensures { Gives (λ k. k) result (kind_at key.now (view json.now)) }
{
    match Kind::from_name(member_text(json, key)?) {
        Some(kind) => Ok(kind),
        None => Err(BAD_FORM),
    }
}

fn truth_in(json: &Value) -> Result<bool, Stop>
    ensures { Gives (λ b. b) result (truth_in (view json.now)) }
{
    match json.as_bool() {
        Some(truth) => Ok(truth),
        None => Err(BAD_FORM),
    }
}

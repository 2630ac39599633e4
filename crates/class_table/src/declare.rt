//! These functions read what a written class declares, and find the first fault in it.
ghost use Rattle.std.specs.Prelude.{◌≡◌, None, Ok, ◌++◌, ◌+◌, ◌<◌, ◌≤◌, IfOk, IfSome, IsTrue, length, map, position, bytes_eq, is_none};
ghost use Rattle.std.specs.Option.{ok_or};
ghost use Rattle.std.specs.List.{All, list_all};
ghost use Rattle.serde_json.specs.View.{view};
ghost use Rattle.signature_core.specs.Reading.{IsNormal, signature_of};
ghost use Rattle.term_core.specs.Bodies.{body_of};
ghost use Rattle.class_table.specs.Declaring.{body_in, class_below, class_of, class_with, is_declared_once, is_signal_at, may_stand, method_of};
ghost use Rattle.class_table.specs.Declaring.{new_names, new_signatures, notify_of, number_of, property_of, signal_named, signed_of, tells};
ghost use Rattle.class_table.specs.Faults.{Gives};
ghost use Rattle.class_table.specs.Forms.{class_seen, method_seen, property_seen};
ghost use Rattle.class_table.specs.Lookup.{is_same, is_distinct, are_distinct_methods, are_distinct_properties, method_number};
ghost use Rattle.class_table.specs.Lookup.{methods, names, index_of, properties, property_number, signatures, text_of};
ghost use Rattle.class_table.specs.Sound.{FitsBehind};
ghost use Rattle.class_table.specs.Signed.{signed_seen};
ghost use Rattle.class_table.specs.Steps.{each};

use crate::class::{Class, METHODS, Method, PROPERTIES, Property, is_same, normal_text};
use crate::fault::{ClassFaultKind, Stop};
use crate::form::{ClassForm, MethodForm, PropertyForm};
use crate::table::ClassTable;
use plain_types::{Code, Fault, Items, Text};
use serde_json::Value;
use signature_core::{Kind, Signature};
use std::alloc::Global;
use std::collections::BTreeSet;
use term_core::Body;

/// A method with its signature, and with its body as it is written.
#[derive(Drop)]
pub(crate) struct Signed<'j> {
    pub(crate) signature: Signature,
    /// A slot has a body; a signal has none.
    pub(crate) body: Option<&'j Value>,
}

/// The methods with their signatures.
fn signed_methods<'j>(alloc: Global, forms: &[MethodForm<'j>]) -> Result<Vec<Signed<'j>>, Stop>
    ensures exact { Gives (λ v. map signed_seen v.items) result (each signed_of (map method_seen forms.now)) }
    ensures normal { IfOk result (λ v. All (λ new. IsNormal new.signature) v.items) }
{
    let mut signed = Vec::new(alloc);
    for form in forms {
        let signature = signature(alloc, form.signature, ClassFaultKind::BadSignature)?;
        signed.push(Signed {
            signature,
            body: form.body,
        })?;
    }
    Ok(signed)
}

/// Reads a signature from its text; a text that is not a signature is a fault of this kind.
fn signature(alloc: Global, text: &str, kind: ClassFaultKind) -> Result<Signature, Stop>
    ensures exact { Gives (λ s. s) result (ok_or (signature_of text.now) kind) }
    ensures normal { IfOk result IsNormal }
{
    match Signature::normalise(alloc, text) {
        Ok(signature) => Ok(signature),
        Err(Fault::Refused(_)) => Err(Stop::Fault(kind)),
        Err(Fault::Memory) => Err(Stop::Memory),
    }
}

/// Whether no method is declared twice.
#[tactic(auto, using(crate::proofs::OnceLemmas::new_methods_once))]
fn are_new_methods(
    alloc: Global,
    table: &ClassTable,
    base: u32,
    signed: &[Signed],
) -> Result<bool, Stop>
    requires once { IsTrue (are_distinct_methods (signatures (methods table.now base))) }
    requires normal { All (λ new. IsNormal new.signature) signed.now }
    ensures { Gives (λ b. b) result (Ok (are_distinct_methods
        (signatures (methods table.now base) ++ new_signatures (map signed_seen signed.now)))) }
{
    if !are_not_inherited(table, base, signed) {
        return Ok(false);
    }
    let texts = normal_texts(alloc, signed)?;
    are_distinct(alloc, texts.as_slice())
}

fn are_not_inherited(table: &ClassTable, base: u32, signed: &[Signed]) -> bool
    ensures { result ≡ list_all
        (λ new. is_none (method_number new.signature (methods table.now base))) signed.now }
{
    signed
        .iter()
        .all(|new| table.method(base, &new.signature).is_none())
}

/// The normal texts of the signatures.
fn normal_texts(alloc: Global, signed: &[Signed]) -> Result<Vec<Text>, Stop>
    ensures { Gives (λ v. v.items) result (Ok (map (λ new. text_of new.signature) signed.now)) }
{
    let mut texts = Vec::new(alloc);
    for new in signed {
        texts.push(normal_text(alloc, &new.signature)?)?;
    }
    Ok(texts)
}

/// Whether no two of the texts are the same. They are kept in order and not hashed, so that none can be
/// chosen to make this slow.
fn are_distinct(alloc: Global, texts: &[Text]) -> Result<bool, Stop>
    ensures { Gives (λ b. b) result (Ok (is_distinct bytes_eq texts.now)) }
{
    let mut seen = BTreeSet::new(alloc);
    for text in texts {
        if !seen.insert(text.as_str())? {
            return Ok(false);
        }
    }
    Ok(true)
}

/// Whether no property is declared twice.
#[tactic(auto, using(crate::proofs::OnceLemmas::new_properties_once))]
fn are_new_properties(
    alloc: Global,
    table: &ClassTable,
    base: u32,
    forms: &[PropertyForm],
) -> Result<bool, Stop>
    requires { IsTrue (are_distinct_properties (names (properties table.now base))) }
    ensures { Gives (λ b. b) result (Ok (are_distinct_properties
        (names (properties table.now base) ++ new_names (map property_seen forms.now)))) }
{
    if !names_are_not_inherited(table, base, forms) {
        return Ok(false);
    }
    let texts = name_texts(alloc, forms)?;
    are_distinct(alloc, texts.as_slice())
}

fn names_are_not_inherited(table: &ClassTable, base: u32, forms: &[PropertyForm]) -> bool
    ensures { result ≡ list_all
        (λ new. is_none (property_number new.name.now (properties table.now base))) forms.now }
{
    forms
        .iter()
        .all(|new| table.property(base, new.name).is_none())
}

/// The names of the properties.
fn name_texts(alloc: Global, forms: &[PropertyForm]) -> Result<Vec<Text>, Stop>
    ensures { Gives (λ v. v.items) result (Ok (map (λ new. new.name.now) forms.now)) }
{
    let mut texts = Vec::new(alloc);
    for new in forms {
        texts.push(Text::from_str(alloc, new.name)?)?;
    }
    Ok(texts)
}

/// The number of the method with this signature, where new methods are numbered after those of the superclass.
#[tactic(auto, using(crate::proofs::SignalLemmas::number_behind))]
fn number_of(table: &ClassTable, base: u32, signed: &[Signed], wanted: &Signature) -> Option<u32>
    requires { length (methods table.now base) + length signed.now ≤ METHODS }
    ensures { result ≡ number_of (methods table.now base) (map signed_seen signed.now) wanted.now }
{
    match table.method(base, wanted) {
        Some(number) => Some(number),
        None => match index_of(signed, wanted) {
            Some(index) => Some(table.method_count(base) + index as u32),
            None => None,
        },
    }
}

fn index_of(signed: &[Signed], wanted: &Signature) -> Option<usize>
    ensures value { result ≡ position (λ new. is_same new.signature wanted.now) signed.now }
    ensures within { IfSome result (λ index. index < length signed.now) }
{
    signed
        .iter()
        .position(|new| is_same(&new.signature, wanted))
}

/// Whether the method of this number is a signal.
#[tactic(auto, using(crate::proofs::SignalLemmas::signal_before, crate::proofs::SignalLemmas::signal_behind))]
fn is_signal_at(table: &ClassTable, base: u32, signed: &[Signed], number: u32) -> bool
    ensures { result ≡ is_signal_at (methods table.now base) (map signed_seen signed.now) number }
{
    let count = table.method_count(base);
    if number < count {
        return match table.method_row(base, number) {
            Some(method) => method.is_signal,
            None => false,
        };
    }
    match signed.get((number - count) as usize) {
        Some(new) => new.body.is_none(),
        None => false,
    }
}

/// Whether a signal with these parameters may be the NOTIFY signal of a property of this kind.
fn tells(kind: Kind, params: &[Kind]) -> bool
    ensures { result ≡ tells kind params.now }
{
    match params {
        [] => true,
        [first] => *first == kind,
        _ => false,
    }
}

/// The number of a property's NOTIFY signal, where it has one.
fn notify(
    alloc: Global,
    table: &ClassTable,
    base: u32,
    signed: &[Signed],
    form: &PropertyForm,
) -> Result<Option<u32>, Stop>
    requires { length (methods table.now base) + length signed.now ≤ METHODS }
    ensures { Gives (λ n. n) result
        (notify_of (methods table.now base) (map signed_seen signed.now) (property_seen form.now)) }
{
    match form.notify {
        Some(text) => Ok(Some(signal_named(alloc, table, base, signed, form.kind, text)?)),
        None => Ok(None),
    }
}

/// The number of the signal with this signature, which may tell a value of this kind.
#[tactic(auto, unfolding(crate::specs::Declaring::signal_named))]
fn signal_named(
    alloc: Global,
    table: &ClassTable,
    base: u32,
    signed: &[Signed],
    kind: Kind,
    text: &str,
) -> Result<u32, Stop>
    requires { length (methods table.now base) + length signed.now ≤ METHODS }
    ensures { Gives (λ n. n) result
        (signal_named (methods table.now base) (map signed_seen signed.now) kind text.now) }
{
    let wanted = signature(alloc, text, ClassFaultKind::BadNotify)?;
    let Some(number) = number_of(table, base, signed, &wanted) else {
        return Err(Stop::Fault(ClassFaultKind::BadNotify));
    };
    if !is_signal_at(table, base, signed, number) || !tells(kind, wanted.kinds.as_slice()) {
        return Err(Stop::Fault(ClassFaultKind::BadNotify));
    }
    Ok(number)
}

/// The properties that are declared.
fn declared_properties(
    alloc: Global,
    table: &ClassTable,
    base: u32,
    signed: &[Signed],
    forms: &[PropertyForm],
) -> Result<Vec<Property>, Stop>
    requires { length (methods table.now base) + length signed.now ≤ METHODS }
    ensures { Gives (λ v. v.items) result
        (each (property_of (methods table.now base) (map signed_seen signed.now))
        (map property_seen forms.now)) }
{
    let mut properties = Vec::new(alloc);
    for form in forms {
        let notify = notify(alloc, table, base, signed, form)?;
        properties.push(Property {
            name: Text::from_str(alloc, form.name)?,
            kind: form.kind,
            notify,
            bindable: form.bindable,
        })?;
    }
    Ok(properties)
}

/// The methods with their bodies.
fn declared_methods(alloc: Global, signed: Vec<Signed>) -> Result<Vec<Method>, Stop>
    ensures { Gives (λ v. v.items) result (each method_of (map signed_seen signed.entry.items)) }
{
    let mut methods = Vec::new(alloc);
    for new in signed {
        let method = declared_method(alloc, new)?;
        methods.push(method)?;
    }
    Ok(methods)
}

fn declared_method(alloc: Global, new: Signed) -> Result<Method, Stop>
    ensures { Gives (λ m. m) result (method_of (signed_seen new.entry)) }
{
    let Signed { signature, body } = new;
    match body {
        Some(json) => {
            let body = slot_body(alloc, json, signature.kinds.len())?;
            Ok(Method::slot(alloc, signature, body)?)
        }
        None => Ok(Method::signal(alloc, signature)?),
    }
}

fn slot_body(alloc: Global, json: &Value, params: usize) -> Result<Body, Stop>
    ensures { Gives (λ b. b) result (body_in (body_of params (view json.now))) }
{
    match Body::from_json(alloc, json, params) {
        Ok(body) => Ok(body),
        Err(Fault::Refused(Code::Limit)) => Err(Stop::Fault(ClassFaultKind::Limit)),
        Err(Fault::Refused(_)) => Err(Stop::Fault(ClassFaultKind::BadBody)),
        Err(Fault::Memory) => Err(Stop::Memory),
    }
}

/// Reads a class from JSON, which is to be added after the classes of the table.
#[tactic(auto, using(crate::proofs::DeclaringLemmas::fits_where_given), unfolding(crate::specs::Declaring::class_of))]
pub(crate) fn declared_class(alloc: Global, table: &ClassTable, json: &Value) -> Result<Class, Stop>
    ensures exact { Gives (λ class. class) result (class_of table.now (view json.now)) }
    ensures fits { IfOk result (λ class. FitsBehind table.now class) }
{
    let form = ClassForm::read(alloc, json)?;
    if table.find(form.name).is_some() {
        return Err(Stop::Fault(ClassFaultKind::NameTaken));
    }
    let Some(base) = table.find(form.base) else {
        return Err(Stop::Fault(ClassFaultKind::NoSuperclass));
    };
    class_below(alloc, table, base, &form)
}

/// The class that is declared below a superclass.
#[tactic(auto, unfolding(crate::specs::Declaring::class_below))]
fn class_below(
    alloc: Global,
    table: &ClassTable,
    base: u32,
    form: &ClassForm,
) -> Result<Class, Stop>
    ensures { Gives (λ class. class) result (class_below table.now base (class_seen form.now)) }
{
    let signed = signed_methods(alloc, form.methods.as_slice())?;
    check_declared(
        alloc,
        table,
        base,
        signed.as_slice(),
        form.properties.as_slice(),
    )?;
    class_with(alloc, table, base, form, signed)
}

/// The class that has these methods, and the properties that are written.
fn class_with(
    alloc: Global,
    table: &ClassTable,
    base: u32,
    form: &ClassForm,
    signed: Vec<Signed>,
) -> Result<Class, Stop>
    requires { length (methods table.now base) + length signed.items ≤ METHODS }
    ensures { Gives (λ class. class) result
        (class_with table.now base (class_seen form.now) (map signed_seen signed.entry.items)) }
{
    let name = Text::from_str(alloc, form.name)?;
    let forms = form.properties.as_slice();
    let properties = declared_properties(alloc, table, base, signed.as_slice(), forms)?;
    let methods = declared_methods(alloc, signed)?;
    Ok(Class {
        name,
        superclass: Some(base),
        method_offset: table.method_count(base),
        property_offset: table.property_count(base),
        methods: Items::from_vec(methods),
        properties: Items::from_vec(properties),
    })
}

/// Checks that nothing is declared twice, and that the class has no more methods and properties than it may.
fn check_declared(
    alloc: Global,
    table: &ClassTable,
    base: u32,
    signed: &[Signed],
    forms: &[PropertyForm],
) -> Result<(), Stop>
    requires normal { All (λ new. IsNormal new.signature) signed.now }
    ensures exact { Gives (λ _. tt) result (may_stand
        (methods table.now base) (map signed_seen signed.now)
        (properties table.now base) (map property_seen forms.now)) }
    ensures few { IfOk result (λ _. length (methods table.now base) + length signed.now ≤ METHODS) }
{
    let method_offset = table.method_count(base);
    let property_offset = table.property_count(base);
    if !is_declared_once(alloc, table, base, signed, forms)? {
        return Err(Stop::Fault(ClassFaultKind::DeclaredTwice));
    }
    if method_offset as usize + signed.len() > METHODS
        || property_offset as usize + forms.len() > PROPERTIES
    {
        return Err(Stop::Fault(ClassFaultKind::Limit));
    }
    Ok(())
}

/// Whether no method and no property is declared twice.
#[tactic(auto, unfolding(crate::specs::Declaring::is_declared_once))]
fn is_declared_once(
    alloc: Global,
    table: &ClassTable,
    base: u32,
    signed: &[Signed],
    forms: &[PropertyForm],
) -> Result<bool, Stop>
    requires methods_once { IsTrue (are_distinct_methods (signatures (methods table.now base))) }
    requires properties_once { IsTrue (are_distinct_properties (names (properties table.now base))) }
    requires normal { All (λ new. IsNormal new.signature) signed.now }
    ensures { Gives (λ b. b) result (Ok (is_declared_once
        (methods table.now base) (map signed_seen signed.now)
        (properties table.now base) (map property_seen forms.now))) }
{
    if !are_new_methods(alloc, table, base, signed)? {
        return Ok(false);
    }
    are_new_properties(alloc, table, base, forms)
}

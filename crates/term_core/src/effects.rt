//! Reading actions that do one thing.
ghost use Rattle.std.specs.Prelude.{◌≡◌, codes};
ghost use Rattle.serde_json.specs.View.{view, items_view};
ghost use Rattle.plain_types.specs.Answers.{Answers};
ghost use Rattle.term_core.specs.Json.{target_in};
ghost use Rattle.term_core.specs.Effects.{signature_in, unless_null, optional, flag_in, mode_in, terms_in, set_in, emit_in, connect_in};
ghost use Rattle.term_core.specs.Effects.{has_receiver, disconnect_in, delete_in, delete_later_in, block_in, set_parent_in, effect_in};

use crate::action::SingleAction;
use crate::expr::Expr;
use crate::forms::{expression, subject};
use crate::json::{BAD, has_only, name, target};
use crate::scope::Scope;
use crate::target::Target;
use plain_types::{ConnectionType, Fault, Items};
use serde_json::Value as Json;
use signature_core::Signature;
use std::alloc::Global;

/// The signature that a text spells.
fn signature(alloc: Global, json: &Json) -> Result<Signature, Fault>
    ensures { Answers result (signature_in (view json.now)) }
{
    let Some(text) = json.as_str() else {
        return Err(BAD);
    };
    match Signature::normalise(alloc, text) {
        Ok(signature) => Ok(signature),
        Err(Fault::Refused(_)) => Err(BAD),
        Err(Fault::Memory) => Err(Fault::Memory),
    }
}

/// A signature, or null.
fn signature_or_null(alloc: Global, json: &Json) -> Result<Option<Signature>, Fault>
    ensures { Answers result (unless_null signature_in (view json.now)) }
{
    match json {
        Json::Null => Ok(None),
        _ => Ok(Some(signature(alloc, json)?)),
    }
}

/// A target, or null.
fn target_or_null(alloc: Global, json: &Json) -> Result<Option<Target>, Fault>
    ensures { Answers result (unless_null target_in (view json.now)) }
{
    match json {
        Json::Null => Ok(None),
        _ => Ok(Some(target(alloc, json)?)),
    }
}

/// The truth at a key, or false where the key is absent.
fn flag(json: &Json, key: &str) -> Result<bool, Fault>
    ensures { Answers result (flag_in key.now (view json.now)) }
{
    match json.get(key) {
        Some(truth) => truth.as_bool().ok_or(BAD),
        None => Ok(false),
    }
}

/// The mode at the key `type`, or `Auto` where the key is absent.
fn mode(json: &Json) -> Result<ConnectionType, Fault>
    ensures { Answers result (mode_in (view json.now)) }
{
    match json.get("type") {
        Some(name) => name.as_str().and_then(ConnectionType::from_name).ok_or(BAD),
        None => Ok(ConnectionType::Auto),
    }
}

fn set(alloc: Global, scope: Scope, json: &Json, named: &Json) -> Result<SingleAction, Fault>
    ensures { Answers result (set_in scope (view json.now) (view named.now)) }
{
    if !has_only(json, &["set", "to", "of"]) {
        return Err(BAD);
    }
    let Some(to) = json.get("to") else {
        return Err(BAD);
    };
    let property = name(alloc, named)?;
    let of = subject(alloc, json)?;
    let value = expression(alloc, scope, to)?;
    Ok(SingleAction::Set {
        of,
        property,
        value,
    })
}

/// The expressions of a list.
fn expressions(alloc: Global, scope: Scope, list: &[Json]) -> Result<Items<Expr>, Fault>
    ensures { Answers result (terms_in scope (items_view list.now)) }
{
    let mut found = Vec::new(alloc);
    for json in list {
        found.push(expression(alloc, scope, json)?)?;
    }
    Ok(Items::from_vec(found))
}

fn emit(alloc: Global, scope: Scope, json: &Json, named: &Json) -> Result<SingleAction, Fault>
    ensures { Answers result (emit_in scope (view json.now) (view named.now)) }
{
    if !has_only(json, &["emit", "args", "of"]) {
        return Err(BAD);
    }
    let Some(list) = json.get("args").and_then(Json::as_array) else {
        return Err(BAD);
    };
    let signal = signature(alloc, named)?;
    let of = subject(alloc, json)?;
    let args = expressions(alloc, scope, list)?;
    Ok(SingleAction::Emit { of, signal, args })
}

fn connect(alloc: Global, json: &Json, named: &Json) -> Result<SingleAction, Fault>
    ensures { Answers result (connect_in (view json.now) (view named.now)) }
{
    if !has_only(
        json,
        &["connect", "of", "to", "method", "type", "unique", "single"],
    ) {
        return Err(BAD);
    }
    let Some(receiver) = json.get("to") else {
        return Err(BAD);
    };
    let Some(member) = json.get("method") else {
        return Err(BAD);
    };
    let mode = mode(json)?;
    let unique = flag(json, "unique")?;
    let single = flag(json, "single")?;
    let signal = signature(alloc, named)?;
    let of = subject(alloc, json)?;
    let to = target(alloc, receiver)?;
    let method = signature(alloc, member)?;
    Ok(SingleAction::Connect {
        of,
        signal,
        to,
        method,
        mode,
        unique,
        single,
    })
}

/// The target at the key `to`, which may be absent.
fn receiver(alloc: Global, json: &Json) -> Result<Option<Target>, Fault>
    ensures { Answers result (optional target_in (codes "to") (view json.now)) }
{
    match json.get("to") {
        Some(to) => Ok(Some(target(alloc, to)?)),
        None => Ok(None),
    }
}

/// The signature at the key `method`, which may be absent.
fn method(alloc: Global, json: &Json) -> Result<Option<Signature>, Fault>
    ensures { Answers result (optional signature_in (codes "method") (view json.now)) }
{
    match json.get("method") {
        Some(method) => Ok(Some(signature(alloc, method)?)),
        None => Ok(None),
    }
}

/// Whether a receiver is named, as it must be where a method is named; true where no method is.
fn has_receiver(json: &Json) -> bool
    ensures { result ≡ has_receiver (view json.now) }
{
    json.get("method").is_none() || json.get("to").is_some()
}

fn disconnect(alloc: Global, json: &Json, named: &Json) -> Result<SingleAction, Fault>
    ensures { Answers result (disconnect_in (view json.now) (view named.now)) }
{
    if !has_receiver(json) || !has_only(json, &["disconnect", "of", "to", "method"]) {
        return Err(BAD);
    }
    let signal = signature_or_null(alloc, named)?;
    let of = subject(alloc, json)?;
    let to = receiver(alloc, json)?;
    let method = method(alloc, json)?;
    Ok(SingleAction::Disconnect {
        of,
        signal,
        to,
        method,
    })
}

fn delete(alloc: Global, json: &Json, named: &Json) -> Result<SingleAction, Fault>
    ensures { Answers result (delete_in (view json.now) (view named.now)) }
{
    if !has_only(json, &["delete"]) {
        return Err(BAD);
    }
    Ok(SingleAction::Delete(target(alloc, named)?))
}

fn delete_later(alloc: Global, json: &Json, named: &Json) -> Result<SingleAction, Fault>
    ensures { Answers result (delete_later_in (view json.now) (view named.now)) }
{
    if !has_only(json, &["deleteLater"]) {
        return Err(BAD);
    }
    Ok(SingleAction::DeleteLater(target(alloc, named)?))
}

fn block(alloc: Global, json: &Json, named: &Json) -> Result<SingleAction, Fault>
    ensures { Answers result (block_in (view json.now) (view named.now)) }
{
    if !has_only(json, &["block", "of"]) {
        return Err(BAD);
    }
    let Some(on) = named.as_bool() else {
        return Err(BAD);
    };
    let of = subject(alloc, json)?;
    Ok(SingleAction::Block { of, on })
}

fn set_parent(alloc: Global, json: &Json, named: &Json) -> Result<SingleAction, Fault>
    ensures { Answers result (set_parent_in (view json.now) (view named.now)) }
{
    if !has_only(json, &["setParent", "of"]) {
        return Err(BAD);
    }
    let parent = target_or_null(alloc, named)?;
    let of = subject(alloc, json)?;
    Ok(SingleAction::SetParent { of, parent })
}

/// Reads an action that does one thing. Other JSON, and an action that chooses between others, is `BadValue`.
pub(crate) fn single_action(alloc: Global, scope: Scope, json: &Json) -> Result<SingleAction, Fault>
    ensures { Answers result (effect_in scope (view json.now)) }
{
    if let Some(named) = json.get("set") {
        return set(alloc, scope, json, named);
    }
    if let Some(named) = json.get("emit") {
        return emit(alloc, scope, json, named);
    }
    if let Some(named) = json.get("connect") {
        return connect(alloc, json, named);
    }
    if let Some(named) = json.get("disconnect") {
        return disconnect(alloc, json, named);
    }
    if let Some(named) = json.get("delete") {
        return delete(alloc, json, named);
    }
    if let Some(named) = json.get("deleteLater") {
        return delete_later(alloc, json, named);
    }
    if let Some(named) = json.get("block") {
        return block(alloc, json, named);
    }
    if let Some(named) = json.get("setParent") {
        return set_parent(alloc, json, named);
    }
    Err(BAD)
}

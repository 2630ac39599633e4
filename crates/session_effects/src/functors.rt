//! The functors of a server, by index and by name, and what they may be called with.
ghost use Rattle.std.specs.Prelude.{◌≡◌, ◌↔◌, IsTrue, bytes_eq};
ghost use Rattle.std.specs.Option.{option_copied};
ghost use Rattle.variant_value.specs.Values.{IsOfKind, IsShort};
ghost use Rattle.stored_slots.specs.Functors.{AreArguments, index_of};
ghost use Rattle.session_model.specs.Functors.{functor_at, functor_named, params_at};
ghost use Rattle.session_effects.specs.Setup.{settings_of};

use crate::session_context::SessionContext;
use plain_types::{Code, Text};
use signature_core::Kind;
use stored_slots::Functor;
use variant_value::{TEXT_BYTES, Value};

/// The functor with this index.
pub fn functor_at<'a>(caller: &SessionContext<'a>, index: u32) -> Option<&'a Functor>
    ensures { option_copied result ≡ functor_at (settings_of caller.now.setup.now) index }
{
    caller.setup.functors.get(index as usize)
}

/// The kinds of the parameters of the functor with this index.
pub fn params_at<'a>(caller: &SessionContext<'a>, index: u32) -> &'a [Kind]
    ensures { result.now ≡ params_at (settings_of caller.now.setup.now) index }
{
    match functor_at(caller, index) {
        Some(functor) => functor.params.as_slice(),
        None => &[],
    }
}

/// The index of the functor of this name.
pub fn functor_named(caller: &SessionContext, name: &Text) -> Result<u32, Code>
    ensures { result ≡ functor_named (settings_of caller.now.setup.now) name.now }
{
    let functors = caller.setup.functors.as_slice();
    match place_of(functors, name.as_str()) {
        Some(index) => Ok(index as u32),
        None => Err(Code::NoSuchFunctor),
    }
}

/// The index of the functor of this name in the list.
fn place_of(functors: &[Functor], name: &str) -> Option<usize>
    ensures { result ≡ index_of name.now functors.now }
{
    functors.iter().position(
        |one|
            ensures { result ≡ bytes_eq name.entry.now one.now.name }
        { name == one.name.as_str() },
    )
}

/// Whether values may be given for parameters of these kinds: as many, each of its kind.
pub fn are_arguments(kinds: &[Kind], values: &[Value]) -> bool
    ensures { IsTrue result ↔ AreArguments kinds.now values.now }
{
    let mut at = 0;
    'values: for value in values {
        let Some(kind) = kinds.get(at) else {
            return false;
        };
        if !is_argument(*kind, value) {
            return false;
        }
        at += 1;
    }
    at == kinds.len()
}

/// Whether a value may be given for a parameter of this kind.
fn is_argument(kind: Kind, value: &Value) -> bool
    ensures { IsTrue result ↔ IsOfKind kind value.now }
{
    match value.kind() {
        Some(its) => its == kind && is_short(value),
        None => false,
    }
}

/// Whether a value is no text that is too long.
fn is_short(value: &Value) -> bool
    ensures { IsTrue result ↔ IsShort value.now }
{
    match value {
        Value::Text(text) => text.as_str().len() <= TEXT_BYTES,
        _ => true,
    }
}

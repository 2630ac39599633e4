//! The methods of objects, by index, by signature and by text.
ghost use Rattle.std.specs.Prelude.{◌≡◌, Err, IfSome, Ok, if◌then◌else◌};
ghost use Rattle.std.specs.Option.{option_copied};
ghost use Rattle.plain_types.specs.Answers.{Answers};
ghost use Rattle.plain_types.specs.declared.code.Code.TheVariants.{NoSuchMethod};
ghost use Rattle.class_table.specs.Lookup.{methods};
ghost use Rattle.class_table.specs.Sound.{IsMethod};
ghost use Rattle.session_model.specs.Methods.{kinds_at, is_signal_at, method_at, method_named, method_with, signal_named, signal_with};
ghost use Rattle.session_tables.specs.Tables.{IsPlaced, state_at};
ghost use Rattle.session_effects.specs.Methods.{its_methods, number_named};
ghost use Rattle.session_effects.specs.Setup.{settings_of};

use crate::session_context::SessionContext;
use class_table::Method;
use plain_types::{Code, Fault, Text};
use session_tables::Tables;
use signature_core::{Kind, Signature};

/// The method of an object with this index.
pub fn method_at<'a>(
    caller: &SessionContext<'a>,
    tables: &Tables,
    object: u32,
    index: u32,
) -> Option<&'a Method>
    requires { IsPlaced tables.now caller.now.place }
    ensures value { option_copied result ≡ method_at (settings_of caller.now.setup.now) (state_at tables.now caller.now.place) object index }
    ensures sound { IfSome result (λ method. IsMethod method.now) }
{
    let row = tables.forests.row(caller.place, object)?;
    caller.setup.classes.method_row(row.class, index)
}

/// The kinds of the parameters of the method of an object with this index.
pub fn kinds_at<'a>(
    caller: &SessionContext<'a>,
    tables: &Tables,
    object: u32,
    index: u32,
) -> &'a [Kind]
    requires { IsPlaced tables.now caller.now.place }
    ensures { result.now ≡ kinds_at (its_methods caller.now tables.now object) index }
{
    match method_at(caller, tables, object, index) {
        Some(method) => method.signature.kinds.as_slice(),
        None => &[],
    }
}

/// The index of the method of an object with this signature.
pub fn method_with(
    caller: &SessionContext,
    tables: &Tables,
    object: u32,
    signature: &Signature,
) -> Result<u32, Code>
    requires { IsPlaced tables.now caller.now.place }
    ensures { result ≡ method_with (its_methods caller.now tables.now object) signature.now }
{
    let Some(row) = tables.forests.row(caller.place, object) else {
        return Err(Code::NoSuchMethod);
    };
    match caller.setup.classes.method(row.class, signature) {
        Some(index) => Ok(index),
        None => Err(Code::NoSuchMethod),
    }
}

/// The index of the signal of an object with this signature; a slot is no signal.
pub fn signal_with(
    caller: &SessionContext,
    tables: &Tables,
    object: u32,
    signature: &Signature,
) -> Result<u32, Code>
    requires { IsPlaced tables.now caller.now.place }
    ensures { result ≡ signal_with (its_methods caller.now tables.now object) signature.now }
{
    let index = method_with(caller, tables, object, signature)?;
    signal_at(caller, tables, object, index)
}

/// The index itself, where the method of an object with this index is a signal.
fn signal_at(caller: &SessionContext, tables: &Tables, object: u32, index: u32) -> Result<u32, Code>
    requires { IsPlaced tables.now caller.now.place }
    ensures { result ≡ (if is_signal_at (its_methods caller.now tables.now object) index then Ok index else Err NoSuchMethod) }
{
    if is_signal(caller, tables, object, index) {
        Ok(index)
    } else {
        Err(Code::NoSuchMethod)
    }
}

/// Whether the method of an object with this index is a signal.
pub fn is_signal(caller: &SessionContext, tables: &Tables, object: u32, index: u32) -> bool
    requires { IsPlaced tables.now caller.now.place }
    ensures { result ≡ is_signal_at (its_methods caller.now tables.now object) index }
{
    match method_at(caller, tables, object, index) {
        Some(method) => method.is_signal,
        None => false,
    }
}

/// The index of the method of an object that a text names.
pub fn method_named(
    caller: &SessionContext,
    tables: &Tables,
    object: u32,
    text: &Text,
) -> Result<u32, Fault>
    requires { IsPlaced tables.now caller.now.place }
    ensures { Answers result (method_named (its_methods caller.now tables.now object) text.now) }
{
    let Some(row) = tables.forests.row(caller.place, object) else {
        drop(Signature::normalise(caller.setup.alloc, text.as_str())?);
        return Err(Fault::Refused(Code::NoSuchMethod));
    };
    match method_in(caller, row.class, text)? {
        Some(index) => Ok(index),
        None => Err(Fault::Refused(Code::NoSuchMethod)),
    }
}

/// The index of the method that a text names, where a class has it. Most texts are the normal text of
/// one.
pub fn method_in(caller: &SessionContext, class: u32, text: &Text) -> Result<Option<u32>, Fault>
    ensures { Answers result (number_named (methods (settings_of caller.now.setup.now).classes class) text.now) }
{
    let found = caller.setup.classes.method_of_text(class, text.as_str());
    if found.is_some() {
        return Ok(found);
    }
    method_spelled(caller, class, text)
}

/// Returns the index of the method that any text names, where a class has it.
#[cold]
#[inline(never)]
fn method_spelled(caller: &SessionContext, class: u32, text: &Text) -> Result<Option<u32>, Fault>
    ensures { Answers result (number_named (methods (settings_of caller.now.setup.now).classes class) text.now) }
{
    let signature = Signature::normalise(caller.setup.alloc, text.as_str())?;
    Ok(caller.setup.classes.method(class, &signature))
}

/// The index of the signal of an object that a text names.
pub fn signal_named(
    caller: &SessionContext,
    tables: &Tables,
    object: u32,
    text: &Text,
) -> Result<u32, Fault>
    requires { IsPlaced tables.now caller.now.place }
    ensures { Answers result (signal_named (its_methods caller.now tables.now object) text.now) }
{
    let index = method_named(caller, tables, object, text)?;
    Ok(signal_at(caller, tables, object, index)?)
}

//! The connections that commands and actions ask for, and those that they ask to be broken.
ghost use Rattle.std.specs.Prelude.{◌≡◌, Ok};
ghost use Rattle.std.specs.Option.{option_map};
ghost use Rattle.plain_types.specs.Answers.{Answers};
ghost use Rattle.session_model.specs.Connecting.{new_connection, receiver_with};
ghost use Rattle.session_model.specs.Methods.{method_named, method_with};
ghost use Rattle.session_model.specs.Acts as acts;
ghost use Rattle.session_model.specs.Signals.{asked_connection, asked_functor_connection, asked_pattern};
ghost use Rattle.session_tables.specs.Tables.{IsPlaced, state_at};
ghost use Rattle.session_effects.specs.Methods.{its_methods};
ghost use Rattle.session_effects.specs.Setup.{settings_of};

use crate::functors::{functor_named, params_at};
use crate::methods::{kinds_at, method_named, method_with, signal_named, signal_with};
use crate::session_context::SessionContext;
use connection_list::{NewConnection, Pattern, Receiver};
use plain_types::{Callee, Code, ConnectionType, Fault, Text};
use session_tables::Tables;
use signature_core::{Signature, fits};

/// How a connection is asked for.
#[derive(Clone, Copy)]
pub struct Options {
    pub mode: ConnectionType,
    pub unique: bool,
    pub single: bool,
}

/// The connection that a command asks for.
pub fn asked_connection(
    caller: &SessionContext,
    tables: &Tables,
    sender: u32,
    signal: &Text,
    receiver: u32,
    method: &Text,
    options: Options,
) -> Result<NewConnection, Fault>
    requires { IsPlaced tables.now caller.now.place }
    ensures { Answers result (asked_connection (settings_of caller.now.setup.now) (state_at tables.now caller.now.place)
        sender signal.now receiver method.now options.mode options.single) }
{
    let signal = signal_named(caller, tables, sender, signal)?;
    let method = method_named(caller, tables, receiver, method)?;
    Ok(to_method(caller, tables, sender, signal, receiver, method, options)?)
}

/// The connection to a functor that a command asks for.
pub fn asked_functor_connection(
    caller: &SessionContext,
    tables: &Tables,
    sender: u32,
    signal: &Text,
    context: u32,
    functor: &Text,
    options: Options,
) -> Result<NewConnection, Fault>
    requires { IsPlaced tables.now caller.now.place }
    ensures { Answers result (asked_functor_connection (settings_of caller.now.setup.now) (state_at tables.now caller.now.place)
        sender signal.now context functor.now options.mode options.single) }
{
    let signal = signal_named(caller, tables, sender, signal)?;
    let functor = functor_named(caller, functor)?;
    if !fits(
        kinds_at(caller, tables, sender, signal),
        params_at(caller, functor),
    ) {
        return Err(Fault::Refused(Code::DoesNotFit));
    }
    Ok(NewConnection {
        sender,
        signal,
        receiver: context,
        callee: Callee::Functor(functor),
        mode: options.mode,
        single: options.single,
    })
}

/// The connection that an action asks for.
pub fn connection(
    caller: &SessionContext,
    tables: &Tables,
    sender: u32,
    signal: &Signature,
    receiver: u32,
    method: &Signature,
    options: Options,
) -> Result<NewConnection, Code>
    requires { IsPlaced tables.now caller.now.place }
    ensures { result ≡ acts.connection (settings_of caller.now.setup.now) (state_at tables.now caller.now.place)
        sender signal.now receiver method.now options.mode options.single }
{
    let signal = signal_with(caller, tables, sender, signal)?;
    let method = method_with(caller, tables, receiver, method)?;
    to_method(caller, tables, sender, signal, receiver, method, options)
}

/// The connection of a signal to a method, where what is sent fits what the method takes.
fn to_method(
    caller: &SessionContext,
    tables: &Tables,
    sender: u32,
    signal: u32,
    receiver: u32,
    method: u32,
    options: Options,
) -> Result<NewConnection, Code>
    requires { IsPlaced tables.now caller.now.place }
    ensures { result ≡ new_connection (settings_of caller.now.setup.now) (state_at tables.now caller.now.place)
        sender (Ok signal) receiver (Ok method) options.mode options.single }
{
    let sent = kinds_at(caller, tables, sender, signal);
    let taken = kinds_at(caller, tables, receiver, method);
    if fits(sent, taken) {
        Ok(NewConnection {
            sender,
            signal,
            receiver,
            callee: Callee::Method(method),
            mode: options.mode,
            single: options.single,
        })
    } else {
        Err(Code::DoesNotFit)
    }
}

/// The connections that a command asks to be broken.
pub fn asked_pattern(
    caller: &SessionContext,
    tables: &Tables,
    sender: u32,
    signal: &Option<Text>,
    receiver: Option<u32>,
    method: &Option<Text>,
) -> Result<Pattern, Fault>
    requires { IsPlaced tables.now caller.now.place }
    ensures { Answers result (asked_pattern (settings_of caller.now.setup.now) (state_at tables.now caller.now.place) sender signal.now receiver method.now) }
{
    let signal = match signal {
        Some(text) => Some(signal_named(caller, tables, sender, text)?),
        None => None,
    };
    let receiver = asked_receiver(caller, tables, receiver, method)?;
    Ok(Pattern {
        sender,
        signal,
        receiver,
    })
}

fn asked_receiver(
    caller: &SessionContext,
    tables: &Tables,
    receiver: Option<u32>,
    method: &Option<Text>,
) -> Result<Option<Receiver>, Fault>
    requires { IsPlaced tables.now caller.now.place }
    ensures { Answers result (receiver_with (λ object. option_map (method_named (its_methods caller.now tables.now object)) method.now) receiver) }
{
    let Some(object) = receiver else {
        return Ok(None);
    };
    let method = match method {
        Some(text) => Some(method_named(caller, tables, object, text)?),
        None => None,
    };
    Ok(Some(Receiver { object, method }))
}

/// The connections that an action asks to be broken.
pub fn pattern(
    caller: &SessionContext,
    tables: &Tables,
    sender: u32,
    signal: &Option<Signature>,
    receiver: Option<u32>,
    method: &Option<Signature>,
) -> Result<Pattern, Code>
    requires { IsPlaced tables.now caller.now.place }
    ensures { result ≡ acts.pattern (settings_of caller.now.setup.now) (state_at tables.now caller.now.place) sender signal.now receiver method.now }
{
    let signal = match signal {
        Some(signature) => Some(signal_with(caller, tables, sender, signature)?),
        None => None,
    };
    let receiver = given_receiver(caller, tables, receiver, method)?;
    Ok(Pattern {
        sender,
        signal,
        receiver,
    })
}

fn given_receiver(
    caller: &SessionContext,
    tables: &Tables,
    receiver: Option<u32>,
    method: &Option<Signature>,
) -> Result<Option<Receiver>, Code>
    requires { IsPlaced tables.now caller.now.place }
    ensures { result ≡ receiver_with (λ object. option_map (method_with (its_methods caller.now tables.now object)) method.now) receiver }
{
    let Some(object) = receiver else {
        return Ok(None);
    };
    let method = match method {
        Some(signature) => Some(method_with(caller, tables, object, signature)?),
        None => None,
    };
    Ok(Some(Receiver { object, method }))
}

//! The commands of signals and slots.

ghost use Rattle.std.specs.Prelude.{IfOk};
ghost use Rattle.wire_commands.specs.Commands.{from_signals};
ghost use Rattle.wire_commands.specs.Form.{Asks, AsksBy};
ghost use Rattle.wire_commands.specs.Signals.{connect, connect_functor, connections, disconnect, invoke};

use crate::events;
use crate::held::{Held, held_by};
use crate::keys::{Holds, Key};
use json_reading::{Member, is_word};
use session_model::{Command, Query};
use std::alloc::{AllocError, Global};

/// Reads a command of signals and slots, except `invoke`. Any other word is read by the next family.
#[inline(always)]
#[tactic(auto, unfolding(crate::specs::Form::asked_by, crate::specs::Signals::forms))]
pub(crate) fn read(
    alloc: Global,
    word: &str,
    members: &[Member<'_>],
) -> Result<Option<Command>, AllocError>
    ensures { IfOk result (AsksBy from_signals word.now members.now) }
{
    if is_word(word, "connect") {
        return connect(alloc, members);
    }
    if is_word(word, "connectFunctor") {
        return connect_functor(alloc, members);
    }
    if is_word(word, "disconnect") {
        return disconnect(alloc, members);
    }
    if is_word(word, "connections") {
        return connections(members);
    }
    events::read(alloc, word, members)
}

const CONNECT: [Key; 7] = [
    Key::Needed("sender", Holds::Number),
    Key::Needed("signal", Holds::Text),
    Key::Needed("receiver", Holds::Number),
    Key::Needed("method", Holds::Text),
    Key::Optional("type", Holds::Mode),
    Key::Optional("unique", Holds::Truth),
    Key::Optional("single", Holds::Truth),
];

/// `connect`: a signal of a sender, a method of a receiver, and how its calls are made.
fn connect(alloc: Global, members: &[Member<'_>]) -> Result<Option<Command>, AllocError>
    ensures { IfOk result (Asks connect members.now) }
{
    let mut held = [Held::Absent; 7];
    if !held_by(members, &CONNECT, &mut held) {
        return Ok(None);
    }
    let [sender, signal, receiver, method, mode, unique, single] = held;
    let (Some(sender), Some(receiver)) = (sender.number(), receiver.number()) else {
        return Ok(None);
    };
    let Some(signal) = signal.text(alloc)? else {
        return Ok(None);
    };
    let Some(method) = method.text(alloc)? else {
        return Ok(None);
    };
    Ok(Some(Command::Connect {
        sender,
        signal,
        receiver,
        method,
        mode: mode.mode(),
        unique: unique.truth(),
        single: single.truth(),
    }))
}

const CONNECT_FUNCTOR: [Key; 7] = [
    Key::Needed("sender", Holds::Number),
    Key::Needed("signal", Holds::Text),
    Key::Needed("context", Holds::Number),
    Key::Needed("functor", Holds::Name),
    Key::Optional("type", Holds::Mode),
    Key::Optional("unique", Holds::Truth),
    Key::Optional("single", Holds::Truth),
];

/// `connectFunctor`: a signal of a sender, a functor with its context, and how its calls are made.
fn connect_functor(alloc: Global, members: &[Member<'_>]) -> Result<Option<Command>, AllocError>
    ensures { IfOk result (Asks connect_functor members.now) }
{
    let mut held = [Held::Absent; 7];
    if !held_by(members, &CONNECT_FUNCTOR, &mut held) {
        return Ok(None);
    }
    let [sender, signal, context, functor, mode, unique, single] = held;
    let (Some(sender), Some(context)) = (sender.number(), context.number()) else {
        return Ok(None);
    };
    let Some(signal) = signal.text(alloc)? else {
        return Ok(None);
    };
    let Some(functor) = functor.text(alloc)? else {
        return Ok(None);
    };
    Ok(Some(Command::ConnectFunctor {
        sender,
        signal,
        context,
        functor,
        mode: mode.mode(),
        unique: unique.truth(),
        single: single.truth(),
    }))
}

const DISCONNECT: [Key; 5] = [
    Key::Optional("connection", Holds::Number),
    Key::Optional("sender", Holds::Number),
    Key::Optional("signal", Holds::Text),
    Key::Optional("receiver", Holds::Number),
    Key::Optional("method", Holds::Text),
];

/// `disconnect`: only a connection, or a sender with an optional signal and receiver. A method is given only
/// together with a receiver.
fn disconnect(alloc: Global, members: &[Member<'_>]) -> Result<Option<Command>, AllocError>
    ensures { IfOk result (Asks disconnect members.now) }
{
    let mut held = [Held::Absent; 5];
    if !held_by(members, &DISCONNECT, &mut held) {
        return Ok(None);
    }
    let [connection, sender, signal, receiver, method] = held;
    match (connection, sender, signal, receiver, method) {
        (Held::Number(connection), Held::Absent, Held::Absent, Held::Absent, Held::Absent) => {
            Ok(Some(Command::DisconnectOne { connection }))
        }
        (Held::Absent, Held::Number(sender), signal, Held::Absent, Held::Absent) => {
            Ok(Some(Command::Disconnect {
                sender,
                signal: signal.text(alloc)?,
                receiver: None,
                method: None,
            }))
        }
        (Held::Absent, Held::Number(sender), signal, Held::Number(receiver), method) => {
            Ok(Some(Command::Disconnect {
                sender,
                signal: signal.text(alloc)?,
                receiver: Some(receiver),
                method: method.text(alloc)?,
            }))
        }
        _ => Ok(None),
    }
}

const INVOKE: [Key; 5] = [
    Key::Needed("object", Holds::Number),
    Key::Needed("method", Holds::Text),
    Key::Needed("args", Holds::List),
    Key::Optional("type", Holds::Mode),
    Key::Optional("priority", Holds::Priority),
];

/// `invoke`: a method of an object, what it is given, how it is called, and how soon where it is queued.
pub(crate) fn invoke(alloc: Global, members: &[Member<'_>]) -> Result<Option<Command>, AllocError>
    ensures { IfOk result (Asks invoke members.now) }
{
    let mut held = [Held::Absent; 5];
    if !held_by(members, &INVOKE, &mut held) {
        return Ok(None);
    }
    let [object, method, args, mode, priority] = held;
    let Some(object) = object.number() else {
        return Ok(None);
    };
    let mode = mode.mode();
    let Some(priority) = priority.priority(mode) else {
        return Ok(None);
    };
    let Some(method) = method.text(alloc)? else {
        return Ok(None);
    };
    let Some(args) = args.list(alloc)? else {
        return Ok(None);
    };
    Ok(Some(Command::Invoke {
        object,
        method,
        args,
        mode,
        priority,
    }))
}

const CONNECTIONS: [Key; 2] = [
    Key::Optional("object", Holds::Number),
    Key::Optional("after", Holds::Number),
];

/// `connections`: an object, and a number of a connection, where these are given.
fn connections(members: &[Member<'_>]) -> Result<Option<Command>, AllocError>
    ensures { IfOk result (Asks connections members.now) }
{
    let mut held = [Held::Absent; 2];
    if !held_by(members, &CONNECTIONS, &mut held) {
        return Ok(None);
    }
    let [object, after] = held;
    let object = object.number();
    let after = after.number();
    Ok(Some(Command::Ask(Query::Connections { object, after })))
}

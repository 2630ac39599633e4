//! These functions do a command to the session that gives it.
ghost use Rattle.std.specs.Prelude.{◌≡◌, ◌≤◌, ◌∷◌, ◌++◌, [], IfOk, OnOk, false, true};
ghost use Rattle.session_model.specs.Asked.{asked};
ghost use Rattle.plain_types.specs.declared.fault.Fault.TheVariants.{Memory};
ghost use Rattle.session_tables.specs.Session.{failed_session};
ghost use Rattle.session_tables.specs.Tables.{IsPlaced, with_session};
ghost use Rattle.session_engine.specs.Commands.{KnowsProperties, Obeys, Performs, family, reply_after, reply_lines};
ghost use Rattle.dispatch.specs.CommandOutput.{fresh_output};

use crate::bindings::{begin, bind, end, unbind};
use crate::connections::{connect, connect_functor, disconnect, disconnect_one};
use crate::events::spin;
use crate::invocation::invoke;
use crate::operations::{block, delete_later, set_parent};
use crate::properties::set;
use crate::sharing::{join, leave, publish, renew, reset, unpublish};
use crate::trees::{delete_object, new_object};
use dispatch::{CallContext, CommandOutput, FunctorTable};
use plain_types::{Code, ConnectionType, Fault, Items};
use session_effects::{Options, SessionContext};
use session_model::{Answer, Command, Line};
use session_queries::answer;
use session_tables::Tables;
use std::alloc::{AllocError, Global};

/// Does a command of a session. A session that has failed accepts only `Reset`. If memory runs out, the session
/// fails. `memory_refused` notes this, and also that another session has failed by a post of the command.
pub fn obey<F: FunctorTable>(
    caller: &SessionContext,
    answering: &F,
    tables: &mut Tables,
    memory_refused: &mut bool,
    command: &Command,
) -> Result<Items<Line>, Fault>
    requires answers { F.functors answering.now ≡ caller.now.setup.now.functors }
    requires placed { IsPlaced tables.old caller.now.place }
    requires known { KnowsProperties caller.now tables.old }
    ensures { Obeys caller.now (asked command.now) tables.old tables.new memory_refused.old memory_refused.new result }
{
    let place = caller.place;
    if tables.failed(place) {
        return match command {
            Command::Reset => renew(caller, tables, memory_refused),
            _ => Err(Fault::Refused(Code::SessionFailed)),
        };
    }
    let actor = CallContext::new(*caller, answering);
    let mut output = CommandOutput::new(caller.setup);
    match perform(&actor, tables, &mut output, command) {
        Ok(answer) => {
            *memory_refused = output.failing | *memory_refused;
            let Ok(()) = output.tell(Line::Reply(answer)) else {
                return Err(give_up(tables, place, memory_refused));
            };
            Ok(output.lines)
        }
        Err(Fault::Refused(code)) => Err(Fault::Refused(code)),
        Err(Fault::Memory) => Err(give_up(tables, place, memory_refused)),
    }
}

/// Makes a session fail because it is out of memory, and notes this in `memory_refused`.
pub fn give_up(tables: &mut Tables, place: usize, memory_refused: &mut bool) -> Fault
    requires { IsPlaced tables.old place }
    ensures tables { tables.new ≡ with_session tables.old place failed_session }
    ensures noted { memory_refused.new ≡ true }
    ensures wanted { result ≡ Memory }
{
    tables.give_up(place);
    *memory_refused = true;
    Fault::Memory
}

/// Does a command, tells what it tells before its reply, and returns what is replied: a query, or a command for
/// objects and their properties.
#[tactic(auto, using(crate::proofs::CommandsLemmas::silently))]
fn perform<F: FunctorTable>(
    actor: &CallContext<F>,
    tables: &mut Tables,
    output: &mut CommandOutput,
    command: &Command,
) -> Result<Answer, Fault>
    requires placed { IsPlaced tables.old actor.now.caller.place }
    requires known { KnowsProperties actor.now.caller tables.old }
    requires fresh { output.old ≡ fresh_output actor.now.caller.setup.now.turns }
    ensures { Performs actor.now.caller (asked command.now) tables.old tables.new output.new.failing (reply_after output.new.lines) result }
{
    match command {
        Command::New { class, parent } => new_object(&actor.caller, tables, class, *parent),
        Command::Delete { object } => delete_object(actor, tables, output, *object),
        Command::SetParent { object, parent } => {
            set_parent(&actor.caller, tables, *object, *parent)
        }
        Command::Ask(query) => answer(&actor.caller, tables, query),
        Command::Set {
            object,
            property,
            value,
        } => set(actor, tables, output, *object, property, value),
        _ => perform_bound(actor, tables, output, command),
    }
}

/// Does a command for bindings, calls and events, or for what other sessions may see, and returns what is
/// replied.
#[tactic(auto, using(crate::proofs::CommandsLemmas::silently))]
fn perform_bound<F: FunctorTable>(
    actor: &CallContext<F>,
    tables: &mut Tables,
    output: &mut CommandOutput,
    command: &Command,
) -> Result<Answer, Fault>
    requires placed { IsPlaced tables.old actor.now.caller.place }
    requires fresh { output.old ≡ fresh_output actor.now.caller.setup.now.turns }
    requires family { 1 ≤ family command.now }
    ensures { Performs actor.now.caller (asked command.now) tables.old tables.new output.new.failing (reply_after output.new.lines) result }
{
    match command {
        Command::Bind {
            object,
            property,
            to,
        } => bind(actor, tables, output, *object, property, to),
        Command::Unbind { object, property } => unbind(actor, tables, output, *object, property),
        Command::Begin => begin(&actor.caller, tables),
        Command::End => end(actor, tables, output),
        Command::Invoke {
            object,
            method,
            args,
            mode,
            priority,
        } => {
            let args = args.as_slice();
            invoke(
                actor, tables, output, *object, method, args, *mode, *priority,
            )
        }
        Command::Spin => spin(actor, tables, output),
        Command::DeleteLater { object } => delete_later(&actor.caller, tables, *object),
        Command::Block { object, on } => block(&actor.caller, tables, *object, *on),
        _ => perform_connection(&actor.caller, tables, command),
    }
}

/// Does a command for connections, or for publications and joins.
fn perform_connection(
    caller: &SessionContext,
    tables: &mut Tables,
    command: &Command,
) -> Result<Answer, Fault>
    requires placed { IsPlaced tables.old caller.now.place }
    requires family { 2 ≤ family command.now }
    ensures { Performs caller.now (asked command.now) tables.old tables.new false reply_lines result }
{
    match command {
        Command::Connect {
            sender,
            signal,
            receiver,
            method,
            mode,
            unique,
            single,
        } => {
            let options = options(*mode, *unique, *single);
            connect(caller, tables, *sender, signal, *receiver, method, options)
        }
        Command::ConnectFunctor {
            sender,
            signal,
            context,
            functor,
            mode,
            unique,
            single,
        } => {
            let options = options(*mode, *unique, *single);
            connect_functor(caller, tables, *sender, signal, *context, functor, options)
        }
        Command::DisconnectOne { connection } => disconnect_one(caller, tables, *connection),
        Command::Disconnect {
            sender,
            signal,
            receiver,
            method,
        } => disconnect(caller, tables, *sender, signal, *receiver, method),
        _ => perform_sharing(caller, tables, command),
    }
}

/// Returns the options that a command asks for its connection.
fn options(mode: ConnectionType, unique: bool, single: bool) -> Options
    ensures { result ≡ record { mode = mode; unique = unique; single = single } }
{
    Options {
        mode,
        unique,
        single,
    }
}

/// Does a command for publications and joins, or `Reset`.
fn perform_sharing(
    caller: &SessionContext,
    tables: &mut Tables,
    command: &Command,
) -> Result<Answer, Fault>
    requires placed { IsPlaced tables.old caller.now.place }
    requires family { 3 ≤ family command.now }
    ensures { Performs caller.now (asked command.now) tables.old tables.new false reply_lines result }
{
    match command {
        Command::Publish {
            object,
            signal,
            name,
        } => publish(caller, tables, *object, signal, name),
        Command::Unpublish { name } => unpublish(caller, tables, name),
        Command::Join {
            from,
            name,
            types,
            object,
            method,
        } => {
            let types = types.as_slice();
            join(caller, tables, from, name, types, *object, method)
        }
        Command::Leave {
            from,
            name,
            object,
            method,
        } => leave(caller, tables, from, name, *object, method),
        Command::Reset => reset(caller, tables),
        _ => unreachable!(),
    }
}

/// A list of one line.
pub fn one_line(alloc: Global, line: Line) -> Result<Items<Line>, AllocError>
    ensures { IfOk result (λ lines. lines ≡ line ∷ []) }
{
    let mut lines = Items::new(alloc);
    lines.push(line)?;
    Ok(lines)
}

/// Appends lines to `told`.
pub fn append(told: &mut Items<Line>, lines: Items<Line>) -> Result<(), AllocError>
    ensures { OnOk result (told.new ≡ told.old ++ lines) }
{
    for line in lines.into_vec() {
        told.push(line)?;
    }
    Ok(())
}

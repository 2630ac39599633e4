//! The commands that tie signals to what they call, and untie them.
ghost use Rattle.std.specs.Prelude.{false};
ghost use Rattle.session_model.specs.Asked.{Connect, ConnectFunctor, Disconnect, DisconnectOne};
ghost use Rattle.session_tables.specs.Tables.{IsPlaced};
ghost use Rattle.session_engine.specs.Commands.{Performs, reply_lines};

use plain_types::{Code, Fault, Text};
use session_effects::{
    Options, SessionContext, asked_connection, asked_functor_connection, asked_pattern, do_found,
    do_operation,
};
use session_model::{Answer, Operation};
use session_tables::Tables;

/// Connects a signal to a method, and replies the connection's number.
pub fn connect(
    caller: &SessionContext,
    tables: &mut Tables,
    sender: u32,
    signal: &Text,
    receiver: u32,
    method: &Text,
    options: Options,
) -> Result<Answer, Fault>
    requires { IsPlaced tables.old caller.now.place }
    ensures { Performs caller.now (Connect sender signal.now receiver method.now options.mode options.unique options.single)
        tables.old tables.new false reply_lines result }
{
    tables.forests.check_living(caller.place, sender)?;
    tables.forests.check_living(caller.place, receiver)?;
    let new = asked_connection(caller, tables, sender, signal, receiver, method, options)?;
    let operation = Operation::Connect {
        new,
        unique: options.unique,
    };
    do_found(tables, caller.place, operation)
}

/// Connects a signal to a functor, and replies the connection's number. A functor's connection is never
/// unique.
pub fn connect_functor(
    caller: &SessionContext,
    tables: &mut Tables,
    sender: u32,
    signal: &Text,
    context: u32,
    functor: &Text,
    options: Options,
) -> Result<Answer, Fault>
    requires { IsPlaced tables.old caller.now.place }
    ensures { Performs caller.now (ConnectFunctor sender signal.now context functor.now options.mode options.unique options.single)
        tables.old tables.new false reply_lines result }
{
    tables.forests.check_living(caller.place, sender)?;
    tables.forests.check_living(caller.place, context)?;
    let new = asked_functor_connection(caller, tables, sender, signal, context, functor, options)?;
    if options.unique {
        return Err(Fault::Refused(Code::UniqueFunctor));
    }
    do_found(
        tables,
        caller.place,
        Operation::Connect { new, unique: false },
    )
}

/// Breaks the connection of this number, and replies whether it existed.
pub fn disconnect_one(
    caller: &SessionContext,
    tables: &mut Tables,
    connection: u32,
) -> Result<Answer, Fault>
    requires { IsPlaced tables.old caller.now.place }
    ensures { Performs caller.now (DisconnectOne connection) tables.old tables.new false reply_lines result }
{
    Ok(Answer::Truth(tables.disconnect_one(caller.place, connection)))
}

/// Breaks the connections of a sender that match, and replies how many.
pub fn disconnect(
    caller: &SessionContext,
    tables: &mut Tables,
    sender: u32,
    signal: &Option<Text>,
    receiver: Option<u32>,
    method: &Option<Text>,
) -> Result<Answer, Fault>
    requires { IsPlaced tables.old caller.now.place }
    ensures { Performs caller.now (Disconnect sender signal.now receiver method.now) tables.old tables.new false reply_lines result }
{
    tables.forests.check_object(caller.place, sender)?;
    tables.forests.check_named(caller.place, receiver)?;
    let pattern = asked_pattern(caller, tables, sender, signal, receiver, method)?;
    do_operation(tables, caller.place, Operation::Disconnect { pattern })
}

//! An agenda by nested calls. Each function does what the item of its name does, and calls the others
//! where that puts items in front. The calls come to an end, since each way round takes a turn, or marks
//! an object that lives as dying; no action gives a turn back, or makes an object.
ghost use Rattle.std.specs.Prelude.{◌≡◌, ◌∷◌, ◌+◌, ◌-◌, [], ◌≤◌, OnOk, OnErr, Some, take};
ghost use Rattle.plain_types.specs.declared.callee.Callee.TheVariants as callee;
ghost use Rattle.term_core.specs.Act.{acts_of, single_action};
ghost use Rattle.session_model.specs.declared.call.TheConstants.{NESTED_SIGNALS};
ghost use Rattle.session_model.specs.Acts as model;
ghost use Rattle.session_model.specs.Agenda.{callee_called, connection_of, method_items, queued_call};
ghost use Rattle.session_model.specs.Items.{Call, Emit, RunFunctor};
ghost use Rattle.session_model.specs.Methods.{method_at};
ghost use Rattle.session_model.specs.Posting.{is_queued};
ghost use Rattle.session_model.specs.State.{with_call};
ghost use Rattle.class_table.specs.Sound.{IsMethod};
ghost use Rattle.session_tables.specs.Tables as session;
ghost use Rattle.session_tables.specs.Tables.{IsPlaced, state_at};
ghost use Rattle.session_effects.specs.Actions.{act_of};
ghost use Rattle.session_effects.specs.Setup.{settings_of};
ghost use Rattle.dispatch.specs.Agenda.{MayNest, RunsItems, RunsNext};
ghost use Rattle.dispatch.specs.CommandOutput.{doing_at};

use crate::call_context::{CallContext, answered};
use crate::command_output::CommandOutput;
use crate::deletion::delete;
use crate::functor_table::FunctorTable;
use crate::notifying::notify;
use crate::posts::post;
use class_table::Method;
use connection_list::Connection;
use event_queue::{Priority, QueuedCall};
use plain_types::{Callee, Code, ConnectionType};
use session_effects::{
    SessionContext, Slot, apply_action, evaluate_test, functor_at, method_at, resolve_delete,
    resolve_emit, set,
};
use session_model::{DESTROYED, NESTED_SIGNALS};
use session_tables::Tables;
use std::alloc::AllocError;
use term_core::{Action, SingleAction, Step};
use variant_value::{Args, Value};

/// Sends a signal, unless the signals of its object are blocked: posts it to the sessions that have joined it, then
/// calls its connections one after another. Connections made meanwhile are not called, nor those broken before they
/// are reached. `destroyed()` cannot be blocked.
#[cycle(agenda)]
pub(crate) fn emit<F: FunctorTable>(
    actor: &CallContext<F>,
    tables: &mut Tables,
    output: &mut CommandOutput,
    target: u32,
    signal: u32,
    args: &[Value],
    depth: u32,
) -> Result<(), AllocError>
    requires { MayNest actor.now.caller tables.old depth }
    ensures { RunsItems actor.now.caller (Emit target signal args.now depth ∷ []) tables.old tables.new output.old output.new result }
{
    let Some(row) = tables.forests.row(actor.caller.place, target) else {
        return Ok(());
    };
    if row.blocked && signal != DESTROYED {
        return Ok(());
    }
    if depth >= NESTED_SIGNALS {
        return output.warn(Code::Limit, Some(target));
    }
    output.failing = post(&actor.caller, tables, target, signal, args, output.failing);
    let up_to = tables.connections.last_number(actor.caller.place);
    let mut after = 0;
    let mut near = 0;
    'calls: while let Some(connection) = tables.connections.next_after(
        actor.caller.place,
        target,
        signal,
        after,
        up_to,
        &mut near,
    ) {
        call(actor, tables, output, &connection, args, depth)?;
        after = connection.number;
    }
    Ok(())
}

/// Calls the callee of an existing connection: at once, or later by an event. A single-shot connection is broken
/// first.
#[cycle(agenda)]
fn call<F: FunctorTable>(
    actor: &CallContext<F>,
    tables: &mut Tables,
    output: &mut CommandOutput,
    connection: &Connection,
    args: &[Value],
    depth: u32,
) -> Result<(), AllocError>
    requires nests { MayNest actor.now.caller tables.old (depth + 1) }
    requires stands { connection_of (doing_at actor.now.caller.place tables.old output.old []) connection.now.number ≡ Some connection.now }
    ensures { RunsItems actor.now.caller (Call connection.now.number args.now depth ∷ []) tables.old tables.new output.old output.new result }
{
    if output.turns == 0 {
        return output.use_up();
    }
    output.turns -= 1;
    tables.break_single_shot(actor.caller.place, connection);
    let index = match connection.callee {
        Callee::Method(index) => index,
        Callee::Functor(index) => {
            return call_functor(actor, tables, output, connection, index, args, depth);
        }
    };
    let Some(method) = method_at(&actor.caller, tables, connection.receiver, index) else {
        return Ok(());
    };
    let given = first(args, method.signature.kinds.len());
    if is_queued(connection.mode) {
        return call_later(&actor.caller, tables, connection, given);
    }
    let slot = Slot {
        object: connection.receiver,
        sender: connection.sender,
        args: given,
        depth: depth + 1,
    };
    run_method(actor, tables, output, index, method, &slot, depth + 1)
}

/// Calls the functor of a connection whose turn is taken: later, by an event, or at once.
#[cycle(agenda)]
fn call_functor<F: FunctorTable>(
    actor: &CallContext<F>,
    tables: &mut Tables,
    output: &mut CommandOutput,
    connection: &Connection,
    index: u32,
    args: &[Value],
    depth: u32,
) -> Result<(), AllocError>
    requires nests { MayNest actor.now.caller tables.old (depth + 1) }
    requires callee { connection.now.callee ≡ callee.Functor index }
    ensures { RunsNext actor.now.caller (λ earlier. callee_called (settings_of actor.now.caller.setup.now) connection.now args.now depth
        (doing_at actor.now.caller.place tables.old output.old earlier) (callee.Functor index)) tables.old tables.new output.old output.new result }
{
    let Some(functor) = functor_at(&actor.caller, index) else {
        return Ok(());
    };
    let given = first(args, functor.params.len());
    if is_queued(connection.mode) {
        return call_later(&actor.caller, tables, connection, given);
    }
    let slot = Slot {
        object: connection.receiver,
        sender: connection.sender,
        args: given,
        depth: depth + 1,
    };
    run_functor(actor, tables, output, index, connection.number, &slot)
}

/// Posts the call of what a connection calls, or counts it as lost where the queue is full.
fn call_later(
    caller: &SessionContext,
    tables: &mut Tables,
    connection: &Connection,
    args: &[Value],
) -> Result<(), AllocError>
    requires { IsPlaced tables.old caller.now.place }
    ensures ok { OnOk result (tables.new ≡ session.with_state tables.old caller.now.place
        (with_call (state_at tables.old caller.now.place) (queued_call connection.now connection.now.callee args.now))) }
    ensures err { OnErr result (tables.new ≡ tables.old) }
{
    let call = QueuedCall {
        object: connection.receiver,
        callee: connection.callee,
        sender: connection.sender,
        connection: connection.number,
        priority: Priority::Normal,
        args: Args::copied(caller.setup.alloc, args)?,
    };
    tables.enqueue_call(caller.place, call)
}

/// Calls the method of an object that has this index. A signal is sent on, at its own depth. For a slot, the call
/// is reported and the actions of its body are run.
#[cycle(agenda)]
pub fn run_method<F: FunctorTable>(
    actor: &CallContext<F>,
    tables: &mut Tables,
    output: &mut CommandOutput,
    index: u32,
    method: &Method,
    slot: &Slot,
    sent_at: u32,
) -> Result<(), AllocError>
    requires placed { IsPlaced tables.old actor.now.caller.place }
    requires sent_at { sent_at ≤ NESTED_SIGNALS }
    requires depth { slot.now.depth ≤ NESTED_SIGNALS }
    requires nested { 1 ≤ slot.now.depth }
    requires found { Some method.now ≡ method_at (settings_of actor.now.caller.setup.now) (state_at tables.old actor.now.caller.place) slot.now.object index }
    requires sound { IsMethod method.now }
    ensures { RunsItems actor.now.caller
        (method_items slot.now.object index slot.now.sender slot.now.args.now sent_at (slot.now.depth - 1) method.now)
        tables.old tables.new output.old output.new result }
{
    if method.is_signal {
        return emit(
            actor,
            tables,
            output,
            slot.object,
            index,
            slot.args,
            sent_at,
        );
    }
    output.call(actor.caller.setup.alloc, &method.text, slot)?;
    acts(actor, tables, output, slot, method.body.actions.as_slice())
}

/// Reports the call of a functor, and runs the actions that the functor answers for the state that its connection
/// keeps. The connection gets the next state before the actions run. If the connection is gone, the state is 0 and
/// the next one is dropped.
#[cycle(agenda)]
pub fn run_functor<F: FunctorTable>(
    actor: &CallContext<F>,
    tables: &mut Tables,
    output: &mut CommandOutput,
    index: u32,
    connection: u32,
    slot: &Slot,
) -> Result<(), AllocError>
    requires placed { IsPlaced tables.old actor.now.caller.place }
    requires depth { slot.now.depth ≤ NESTED_SIGNALS }
    requires nested { 1 ≤ slot.now.depth }
    ensures { RunsItems actor.now.caller
        (RunFunctor slot.now.object index slot.now.sender connection slot.now.args.now (slot.now.depth - 1) ∷ [])
        tables.old tables.new output.old output.new result }
{
    let Some(functor) = functor_at(&actor.caller, index) else {
        return Ok(());
    };
    output.call(actor.caller.setup.alloc, &functor.name, slot)?;
    let state = tables.functor_state(actor.caller.place, connection);
    let (actions, next) = answered(actor, index, functor, state, slot.args)?;
    tables.step_functor(actor.caller.place, connection, next);
    let put_in = Slot {
        object: slot.object,
        sender: slot.sender,
        args: &[],
        depth: slot.depth,
    };
    acts(actor, tables, output, &put_in, actions.as_slice())
}

/// Does actions, one after another.
#[cycle(agenda)]
fn acts<F: FunctorTable>(
    actor: &CallContext<F>,
    tables: &mut Tables,
    output: &mut CommandOutput,
    slot: &Slot,
    actions: &[Action],
) -> Result<(), AllocError>
    requires { MayNest actor.now.caller tables.old slot.now.depth }
    ensures { RunsItems actor.now.caller (model.acts (acts_of actions.now) slot.now.args.now slot.now.object slot.now.sender slot.now.depth)
        tables.old tables.new output.old output.new result }
{
    'actions: for action in actions {
        act(actor, tables, output, slot, action)?;
    }
    Ok(())
}

/// Does an action: a single one, or the branch that its test chooses.
#[cycle(agenda)]
fn act<F: FunctorTable>(
    actor: &CallContext<F>,
    tables: &mut Tables,
    output: &mut CommandOutput,
    slot: &Slot,
    action: &Action,
) -> Result<(), AllocError>
    requires { MayNest actor.now.caller tables.old slot.now.depth }
    ensures { RunsItems actor.now.caller (act_of slot.now action.now ∷ []) tables.old tables.new output.old output.new result }
{
    match &action.step {
        Step::Single(plain) => single_action(actor, tables, output, slot, plain),
        Step::When(test, held, failed) => match evaluate_test(&actor.caller, tables, slot, test) {
            Ok(true) => acts(actor, tables, output, slot, held),
            Ok(false) => acts(actor, tables, output, slot, failed),
            Err(fault) => output.warn_of(fault, slot.object),
        },
    }
}

/// Does what an action does that is no choice. It is never inlined: choices nest around it, and keep
/// nothing of it on the stack.
#[cycle(agenda)]
#[inline(never)]
fn single_action<F: FunctorTable>(
    actor: &CallContext<F>,
    tables: &mut Tables,
    output: &mut CommandOutput,
    slot: &Slot,
    plain: &SingleAction,
) -> Result<(), AllocError>
    requires { MayNest actor.now.caller tables.old slot.now.depth }
    ensures { RunsItems actor.now.caller (act_of slot.now (single_action plain.now) ∷ []) tables.old tables.new output.old output.new result }
{
    match plain {
        SingleAction::Emit { of, signal, args } => {
            match resolve_emit(&actor.caller, tables, slot, of, signal, args.as_slice()) {
                Ok(sent) => emit(
                    actor,
                    tables,
                    output,
                    sent.object,
                    sent.signal,
                    sent.args.as_slice(),
                    slot.depth,
                ),
                Err(fault) => output.warn_of(fault, slot.object),
            }
        }
        SingleAction::Delete(target) => match resolve_delete(&actor.caller, tables, slot, target) {
            Ok(object) => delete(actor, tables, output, object, slot.depth),
            Err(fault) => output.warn_of(fault, slot.object),
        },
        SingleAction::Set {
            of,
            property,
            value,
        } => match set(&actor.caller, tables, slot, of, property, value) {
            Ok(told) => notify(actor, tables, output, told, slot.depth),
            Err(fault) => output.warn_of(fault, slot.object),
        },
        _ => match apply_action(&actor.caller, tables, slot, plain) {
            Ok(()) => Ok(()),
            Err(fault) => output.warn_of(fault, slot.object),
        },
    }
}

/// Whether a call is made later, by an event.
pub fn is_queued(mode: ConnectionType) -> bool
    ensures { result ≡ is_queued mode }
{
    match mode {
        ConnectionType::Auto | ConnectionType::Direct => false,
        ConnectionType::Queued => true,
    }
}

/// The first values, as many as are wanted.
fn first(values: &[Value], wanted: usize) -> &[Value]
    ensures { result.now ≡ take wanted values.now }
{
    if wanted < values.len() {
        &values[..wanted]
    } else {
        values
    }
}

//! The command that calls a slot or sends a signal.
ghost use Rattle.std.specs.Prelude.{◌≡◌, OnOk, OnErr, Some, if◌then◌else◌, map};
ghost use Rattle.serde_json.specs.View.{view};
ghost use Rattle.plain_types.specs.Answers.{RefusedBy};
ghost use Rattle.class_table.specs.Sound.{IsMethod};
ghost use Rattle.plain_types.specs.declared.callee.Callee.TheVariants as callee;
ghost use Rattle.event_queue.specs.declared.event.Event.TheVariants.{Call};
ghost use Rattle.session_model.specs.Agenda.{method_items, with_turn};
ghost use Rattle.session_model.specs.Items.{puts};
ghost use Rattle.session_model.specs.Methods.{method_at};
ghost use Rattle.session_model.specs.Posting.{enqueue_refusal};
ghost use Rattle.session_model.specs.State.{with_event};
ghost use Rattle.session_model.specs.Asked.{Invoke};
ghost use Rattle.session_model.specs.Signals.{values_of};
ghost use Rattle.session_tables.specs.Tables.{IsPlaced, state_at, with_state};
ghost use Rattle.session_effects.specs.Setup.{settings_of};
ghost use Rattle.session_engine.specs.Commands.{Performs, reply_after};
ghost use Rattle.dispatch.specs.Agenda.{RunsNext};
ghost use Rattle.dispatch.specs.CommandOutput.{doing_at, fresh_output};

use class_table::Method;
use dispatch::{CallContext, CommandOutput, FunctorTable, is_queued, run_method};
use event_queue::{Event, Priority, QueuedCall};
use plain_types::{Callee, ConnectionType, Fault, Text};
use session_effects::{SessionContext, Slot, method_in, values_of};
use session_model::Answer;
use session_tables::Tables;
use std::alloc::AllocError;
use variant_value::{Args, Value};

/// Calls a slot of an object or sends a signal of it, at once or by an event, and replies whether it has
/// such a method.
pub fn invoke<F: FunctorTable>(
    actor: &CallContext<F>,
    tables: &mut Tables,
    output: &mut CommandOutput,
    object: u32,
    method: &Text,
    args: &[serde_json::Value],
    mode: ConnectionType,
    priority: Priority,
) -> Result<Answer, Fault>
    requires placed { IsPlaced tables.old actor.now.caller.place }
    requires fresh { output.old ≡ fresh_output actor.now.caller.setup.now.turns }
    ensures { Performs actor.now.caller (Invoke object method.now (map view args.now) mode priority)
        tables.old tables.new output.new.failing (reply_after output.new.lines) result }
{
    let class = tables.class_there(actor.caller.place, object)?;
    let Some(index) = method_in(&actor.caller, class, method)? else {
        return Ok(Answer::Truth(false));
    };
    let Some(row) = actor.caller.setup.classes.method_row(class, index) else {
        unreachable!()
    };
    let kinds = row.signature.kinds.as_slice();
    let values = values_of(actor.caller.setup.alloc, kinds, args)?;
    let values = values.as_slice();
    if is_queued(mode) {
        enqueue(&actor.caller, tables, object, index, values, priority)?;
        return Ok(Answer::Truth(true));
    }
    run(actor, tables, output, row, object, index, values)?;
    Ok(Answer::Truth(true))
}

/// Enqueues a call of the method of this index, which no object has sent, with a priority.
fn enqueue(
    caller: &SessionContext,
    tables: &mut Tables,
    object: u32,
    index: u32,
    values: &[Value],
    priority: Priority,
) -> Result<(), Fault>
    requires { IsPlaced tables.old caller.now.place }
    ensures refusal { RefusedBy (enqueue_refusal (state_at tables.old caller.now.place).queue) result }
    ensures ok { OnOk result (tables.new ≡ with_state tables.old caller.now.place
        (with_event (state_at tables.old caller.now.place)
        (Call (record { object = object; callee = callee.Method index; sender = 0; connection = 0; priority = priority; args = values.now })))) }
    ensures err { OnErr result (tables.new ≡ tables.old) }
{
    tables.check_room(caller.place)?;
    let call = QueuedCall {
        object,
        callee: Callee::Method(index),
        sender: 0,
        connection: 0,
        priority,
        args: Args::copied(caller.setup.alloc, values)?,
    };
    tables.enqueue(caller.place, Event::Call(call))?;
    Ok(())
}

/// Calls the method of this index, which is this one. A slot takes a turn, and a signal none.
fn run<F: FunctorTable>(
    actor: &CallContext<F>,
    tables: &mut Tables,
    output: &mut CommandOutput,
    method: &Method,
    object: u32,
    index: u32,
    values: &[Value],
) -> Result<(), AllocError>
    requires placed { IsPlaced tables.old actor.now.caller.place }
    requires has { Some method.now ≡ method_at (settings_of actor.now.caller.setup.now) (state_at tables.old actor.now.caller.place) object index }
    requires sound { IsMethod method.now }
    ensures { RunsNext actor.now.caller (λ earlier. let doing = doing_at actor.now.caller.place tables.old output.old earlier in
        let call = puts (method_items object index 0 values.now 0 0 method.now) in
        if method.now.is_signal then call doing else with_turn doing call) tables.old tables.new output.old output.new result }
{
    if !method.is_signal {
        if output.turns == 0 {
            return output.use_up();
        }
        output.turns -= 1;
    }
    let slot = Slot {
        object,
        sender: 0,
        args: values,
        depth: 1,
    };
    run_method(actor, tables, output, index, method, &slot, 0)
}

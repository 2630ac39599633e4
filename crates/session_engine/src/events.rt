//! The command that takes what waits in the session.
ghost use Rattle.std.specs.Prelude.{◌≡◌, ◌∷◌, []};
ghost use Rattle.session_model.specs.Agenda.{call_items, event_items};
ghost use Rattle.session_model.specs.Asked.{Spin};
ghost use Rattle.session_model.specs.Items as item;
ghost use Rattle.session_tables.specs.Tables.{IsPlaced, state_at};
ghost use Rattle.session_effects.specs.Setup.{settings_of};
ghost use Rattle.dispatch.specs.Agenda.{RunsItems};
ghost use Rattle.session_engine.specs.Commands.{Performs, reply_after};
ghost use Rattle.dispatch.specs.CommandOutput.{fresh_output};

use dispatch::{CallContext, CommandOutput, FunctorTable, delete, run_functor, run_method};
use event_queue::{Event, QueuedCall};
use plain_types::{Callee, Fault};
use session_effects::{Slot, method_at};
use session_model::Answer;
use session_tables::Tables;
use std::alloc::AllocError;

/// Takes events until the queue is empty or no turn is left, and replies how many.
pub fn spin<F: FunctorTable>(
    actor: &CallContext<F>,
    tables: &mut Tables,
    output: &mut CommandOutput,
) -> Result<Answer, Fault>
    requires placed { IsPlaced tables.old actor.now.caller.place }
    requires fresh { output.old ≡ fresh_output actor.now.caller.setup.now.turns }
    ensures { Performs actor.now.caller Spin tables.old tables.new output.new.failing (reply_after output.new.lines) result }
{
    take_events(actor, tables, output)?;
    Ok(Answer::Spun(tables.spun(actor.caller.place, output.taken)))
}

/// Takes events, one after another, and does what each asks for.
fn take_events<F: FunctorTable>(
    actor: &CallContext<F>,
    tables: &mut Tables,
    output: &mut CommandOutput,
) -> Result<(), AllocError>
    requires placed { IsPlaced tables.old actor.now.caller.place }
    requires none { output.old.taken ≡ 0 }
    ensures { RunsItems actor.now.caller (item.Spin ∷ []) tables.old tables.new output.old output.new result }
{
    'events: while tables.queues.counts(actor.caller.place).queued > 0 {
        if output.turns == 0 {
            return output.use_up();
        }
        let Some(event) = tables.take_event(actor.caller.place) else {
            unreachable!()
        };
        output.turns -= 1;
        output.taken += 1;
        deliver(actor, tables, output, event)?;
    }
    Ok(())
}

/// Does what an event asks for: calls a method, or deletes an object.
fn deliver<F: FunctorTable>(
    actor: &CallContext<F>,
    tables: &mut Tables,
    output: &mut CommandOutput,
    event: Event,
) -> Result<(), AllocError>
    requires placed { IsPlaced tables.old actor.now.caller.place }
    ensures { RunsItems actor.now.caller (event_items (settings_of actor.now.caller.setup.now) (state_at tables.old actor.now.caller.place) event)
        tables.old tables.new output.old output.new result }
{
    match &event {
        Event::Call(call) => deliver_call(actor, tables, output, call),
        Event::Deletion(object) => delete(actor, tables, output, *object, 0),
    }
}

/// Makes a call that was queued.
fn deliver_call<F: FunctorTable>(
    actor: &CallContext<F>,
    tables: &mut Tables,
    output: &mut CommandOutput,
    call: &QueuedCall,
) -> Result<(), AllocError>
    requires placed { IsPlaced tables.old actor.now.caller.place }
    ensures { RunsItems actor.now.caller
        (call_items (settings_of actor.now.caller.setup.now) (state_at tables.old actor.now.caller.place) call.now call.now.callee)
        tables.old tables.new output.old output.new result }
{
    let slot = Slot {
        object: call.object,
        sender: call.sender,
        args: call.args.as_slice(),
        depth: 1,
    };
    let index = match call.callee {
        Callee::Method(index) => index,
        Callee::Functor(index) => {
            return run_functor(actor, tables, output, index, call.connection, &slot);
        }
    };
    let Some(method) = method_at(&actor.caller, tables, call.object, index) else {
        return Ok(());
    };
    run_method(actor, tables, output, index, method, &slot, 0)
}

//! Deleting an object with all below it, by nested calls as those of the agenda: with the same contract,
//! and the same measure. An object is marked as dying before anything else, so that none is deleted twice;
//! then it says so by `destroyed()`, whose slots may do anything.
ghost use Rattle.std.specs.Prelude.{◌∷◌, [], ◌≤◌};
ghost use Rattle.session_model.specs.declared.call.TheConstants.{NESTED_SIGNALS};
ghost use Rattle.session_model.specs.Items.{Detach, Delete, DeleteChild};
ghost use Rattle.session_tables.specs.Tables.{IsPlaced};
ghost use Rattle.dispatch.specs.Agenda.{MayNest, RunsItems};

use crate::agenda::emit;
use crate::call_context::CallContext;
use crate::command_output::CommandOutput;
use crate::functor_table::FunctorTable;
use crate::notifying::tell;
use session_model::DESTROYED;
use session_tables::Tables;
use std::alloc::AllocError;

/// Deletes an object, unless it is gone or dying.
#[cycle(agenda)]
pub fn delete<F: FunctorTable>(
    actor: &CallContext<F>,
    tables: &mut Tables,
    output: &mut CommandOutput,
    target: u32,
    depth: u32,
) -> Result<(), AllocError>
    requires placed { IsPlaced tables.old actor.now.caller.place }
    requires depth { depth ≤ NESTED_SIGNALS }
    ensures { RunsItems actor.now.caller (Delete target depth ∷ []) tables.old tables.new output.old output.new result }
{
    if !tables.forests.lives(actor.caller.place, target) {
        return Ok(());
    }
    tables.mark_dying(actor.caller.place, target);
    emit(actor, tables, output, target, DESTROYED, &[], depth)?;
    detach(actor, tables, output, target, depth)?;
    let changes = tables.remove(actor.caller.place, target)?;
    tell(actor, tables, output, changes, depth)
}

/// Breaks what ties a dying object to others, and deletes its children.
#[cycle(agenda)]
fn detach<F: FunctorTable>(
    actor: &CallContext<F>,
    tables: &mut Tables,
    output: &mut CommandOutput,
    target: u32,
    depth: u32,
) -> Result<(), AllocError>
    requires { MayNest actor.now.caller tables.old depth }
    ensures { RunsItems actor.now.caller (Detach target depth ∷ []) tables.old tables.new output.old output.new result }
{
    let children = tables.forests.children(actor.caller.place, Some(target))?;
    tables.sever(actor.caller.place, target);
    'children: for child in children.as_slice() {
        delete_child(actor, tables, output, target, *child, depth)?;
    }
    Ok(())
}

/// Deletes a child, unless it has gone, is dying or has another parent by now.
#[cycle(agenda)]
fn delete_child<F: FunctorTable>(
    actor: &CallContext<F>,
    tables: &mut Tables,
    output: &mut CommandOutput,
    parent: u32,
    child: u32,
    depth: u32,
) -> Result<(), AllocError>
    requires { MayNest actor.now.caller tables.old depth }
    ensures { RunsItems actor.now.caller (DeleteChild parent child depth ∷ []) tables.old tables.new output.old output.new result }
{
    let place = actor.caller.place;
    if !tables.forests.lives_below(place, parent, child) {
        return Ok(());
    }
    delete(actor, tables, output, child, depth)
}

//! The commands for objects and their trees.
ghost use Rattle.std.specs.Prelude.{◌≡◌, false};
ghost use Rattle.session_model.specs.Asked.{Delete, New};
ghost use Rattle.session_tables.specs.Tables.{IsPlaced};
ghost use Rattle.session_engine.specs.Commands.{KnowsProperties, Performs, reply_after, reply_lines};
ghost use Rattle.dispatch.specs.CommandOutput.{fresh_output};

use dispatch::{CallContext, CommandOutput, FunctorTable, delete};
use plain_types::{Fault, Text};
use session_effects::SessionContext;
use session_model::Answer;
use session_tables::Tables;

pub fn new_object(
    caller: &SessionContext,
    tables: &mut Tables,
    class: &Text,
    parent: Option<u32>,
) -> Result<Answer, Fault>
    requires placed { IsPlaced tables.old caller.now.place }
    requires known { KnowsProperties caller.now tables.old }
    ensures { Performs caller.now (New class.now parent) tables.old tables.new false reply_lines result }
{
    tables.forests.check_parent(caller.place, parent)?;
    let class = caller.setup.class_index(class)?;
    let number = tables.make(caller.place, parent, class)?;
    Ok(Answer::Number(number))
}

/// Deletes an object with all below it.
pub fn delete_object<F: FunctorTable>(
    actor: &CallContext<F>,
    tables: &mut Tables,
    output: &mut CommandOutput,
    object: u32,
) -> Result<Answer, Fault>
    requires placed { IsPlaced tables.old actor.now.caller.place }
    requires fresh { output.old ≡ fresh_output actor.now.caller.setup.now.turns }
    ensures { Performs actor.now.caller (Delete object) tables.old tables.new output.new.failing (reply_after output.new.lines) result }
{
    tables.forests.check_object(actor.caller.place, object)?;
    delete(actor, tables, output, object, 0)?;
    Ok(Answer::Truth(true))
}

//! The command that writes what an object holds under a name.
ghost use Rattle.std.specs.Prelude.{◌≡◌};
ghost use Rattle.serde_json.specs.View.{view};
ghost use Rattle.session_model.specs.Asked.{Set};
ghost use Rattle.session_tables.specs.Tables.{IsPlaced};
ghost use Rattle.session_engine.specs.Commands.{Performs, reply_after};
ghost use Rattle.dispatch.specs.CommandOutput.{fresh_output};

use dispatch::{CallContext, CommandOutput, FunctorTable, notify};
use plain_types::{Fault, Text};
use session_effects::{SessionContext, write_declared, write_dynamic};
use session_model::Answer;
use session_tables::Tables;
use variant_value::Value;

/// Writes a property, and replies whether it is one that the object's class declares and was written.
/// Null leaves a declared property as it is, and takes a dynamic one away.
pub fn set<F: FunctorTable>(
    actor: &CallContext<F>,
    tables: &mut Tables,
    output: &mut CommandOutput,
    object: u32,
    property: &Text,
    value: &serde_json::Value,
) -> Result<Answer, Fault>
    requires placed { IsPlaced tables.old actor.now.caller.place }
    requires fresh { output.old ≡ fresh_output actor.now.caller.setup.now.turns }
    ensures { Performs actor.now.caller (Set object property.now (view value.now)) tables.old tables.new output.new.failing
        (reply_after output.new.lines) result }
{
    let class = tables.class_there(actor.caller.place, object)?;
    let Some((number, kind)) = tables.declared(actor.caller.place, object, property.as_str()) else {
        let value = Value::infer(actor.caller.setup.alloc, value)?;
        write_dynamic(&actor.caller, tables, object, property, value)?;
        return Ok(Answer::Truth(false));
    };
    if value.is_null() {
        return Ok(Answer::Truth(false));
    }
    let value = Value::from_json(actor.caller.setup.alloc, kind, value)?;
    let news = write_declared(&actor.caller, tables, object, class, number, value)?;
    notify(actor, tables, output, news, 0)?;
    Ok(Answer::Truth(true))
}

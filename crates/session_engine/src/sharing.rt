//! The commands by which sessions publish and join signals, and the one that resets a session.
ghost use Rattle.std.specs.Prelude.{false};
ghost use Rattle.plain_types.specs.Answers.{Answers};
ghost use Rattle.session_model.specs.Asked as model;
ghost use Rattle.session_model.specs.Asked.{Leave, Publish, Reset, Unpublish};
ghost use Rattle.session_model.specs.Sharing.{asked_kinds};
ghost use Rattle.session_tables.specs.Tables.{IsPlaced};
ghost use Rattle.session_engine.specs.Commands.{Obeys, Performs, reply_lines};

use crate::commands::{give_up, one_line};
use plain_types::{Code, Fault, Items, Text};
use publish_board::{Join, Publication};
use session_effects::{SessionContext, kinds_at, method_named, signal_named};
use session_model::{Answer, Line};
use session_tables::Tables;
use signature_core::{Kind, PARAMS};
use std::alloc::{AllocError, Global};

/// Publishes a signal of an object under a name.
pub fn publish(
    caller: &SessionContext,
    tables: &mut Tables,
    object: u32,
    signal: &Text,
    name: &Text,
) -> Result<Answer, Fault>
    requires { IsPlaced tables.old caller.now.place }
    ensures { Performs caller.now (Publish object signal.now name.now) tables.old tables.new false reply_lines result }
{
    tables.forests.check_object(caller.place, object)?;
    let signal = signal_named(caller, tables, object, signal)?;
    let name = name.copy(caller.setup.alloc)?;
    let row = Publication {
        name,
        object,
        signal,
    };
    tables.publish(caller.place, row)?;
    Ok(Answer::Truth(true))
}

/// Publishes nothing under a name any more, and replies whether something was.
pub fn unpublish(caller: &SessionContext, tables: &mut Tables, name: &Text) -> Result<Answer, Fault>
    requires { IsPlaced tables.old caller.now.place }
    ensures { Performs caller.now (Unpublish name.now) tables.old tables.new false reply_lines result }
{
    Ok(Answer::Truth(tables.unpublish(caller.place, name)))
}

/// Lets what a session publishes under a name call a method of an object, whether it does so yet or not.
pub fn join(
    caller: &SessionContext,
    tables: &mut Tables,
    from: &Text,
    name: &Text,
    types: &[Text],
    object: u32,
    method: &Text,
) -> Result<Answer, Fault>
    requires { IsPlaced tables.old caller.now.place }
    ensures { Performs caller.now (model.Join from.now name.now types.now object method.now) tables.old tables.new false reply_lines result }
{
    tables.forests.check_object(caller.place, object)?;
    let kinds = asked_kinds(caller.setup.alloc, types)?;
    let method = method_named(caller, tables, object, method)?;
    let join = Join {
        from: from.copy(caller.setup.alloc)?,
        name: name.copy(caller.setup.alloc)?,
        kinds,
        object,
        method,
    };
    let wanted = kinds_at(caller, tables, object, method);
    tables.join(caller.place, caller.name, join, wanted)?;
    Ok(Answer::Truth(true))
}

/// The kinds that texts name, each spelled exactly; beyond as many as a signature has, and for any other
/// text, it is refused as a bad signature.
fn asked_kinds(alloc: Global, types: &[Text]) -> Result<Items<Kind>, Fault>
    ensures { Answers result (asked_kinds types.now) }
{
    if types.len() > PARAMS {
        return Err(Fault::Refused(Code::BadSignature));
    }
    let mut kinds = Items::new(alloc);
    'types: for text in types {
        let Some(kind) = Kind::from_name(text.as_str()) else {
            return Err(Fault::Refused(Code::BadSignature));
        };
        kinds.push(kind)?;
    }
    Ok(kinds)
}

/// Takes out the joins that were made with these four, and replies whether there was one.
pub fn leave(
    caller: &SessionContext,
    tables: &mut Tables,
    from: &Text,
    name: &Text,
    object: u32,
    method: &Text,
) -> Result<Answer, Fault>
    requires { IsPlaced tables.old caller.now.place }
    ensures { Performs caller.now (Leave from.now name.now object method.now) tables.old tables.new false reply_lines result }
{
    tables.forests.check_object(caller.place, object)?;
    let method = method_named(caller, tables, object, method)?;
    let stood = tables.leave(caller.place, from, name, object, method);
    Ok(Answer::Truth(stood))
}

/// Puts the session back to where it was before its first command.
pub fn reset(caller: &SessionContext, tables: &mut Tables) -> Result<Answer, Fault>
    requires { IsPlaced tables.old caller.now.place }
    ensures { Performs caller.now Reset tables.old tables.new false reply_lines result }
{
    tables.clear(caller.place);
    Ok(Answer::Truth(true))
}

/// Puts a session that has failed back to where it was before its first command.
pub fn renew(
    caller: &SessionContext,
    tables: &mut Tables,
    memory_refused: &mut bool,
) -> Result<Items<Line>, Fault>
    requires { IsPlaced tables.old caller.now.place }
    ensures { Obeys caller.now Reset tables.old tables.new memory_refused.old memory_refused.new result }
{
    tables.renew(caller.place);
    match one_line(caller.setup.alloc, Line::Reply(Answer::Truth(true))) {
        Ok(lines) => Ok(lines),
        Err(AllocError) => Err(give_up(tables, caller.place, memory_refused)),
    }
}

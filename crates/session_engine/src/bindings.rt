//! The commands that bind properties to expressions, and that begin and end groups of changes.
ghost use Rattle.std.specs.Prelude.{◌≡◌, ◌∷◌, [], Ok, false};
ghost use Rattle.std.specs.Result.{result_err};
ghost use Rattle.plain_types.specs.Answers.{Answers};
ghost use Rattle.serde_json.specs.View.{view};
ghost use Rattle.term_evaluation.specs.Reading.{reads_of};
ghost use Rattle.session_model.specs.Asked.{Begin, Bind, End, Unbind};
ghost use Rattle.session_model.specs.Binding.{reads_refusal};
ghost use Rattle.session_model.specs.Operations.{behind};
ghost use Rattle.session_tables.specs.Tables.{IsPlaced, state_at};
ghost use Rattle.session_engine.specs.Commands.{Performs, reply_after, reply_lines, reply_once_told};
ghost use Rattle.dispatch.specs.CommandOutput.{fresh_output};

use dispatch::{CallContext, CommandOutput, FunctorTable, tell};
use plain_types::{Code, Fault, Text};
use session_effects::SessionContext;
use session_model::Answer;
use session_tables::Tables;
use std::alloc::{AllocError, Global};
use term_core::{Expr, Target};
use term_evaluation::{Read, reads_of};

/// Binds a property of an object to an expression, and notifies of the changes that this causes.
pub fn bind<F: FunctorTable>(
    actor: &CallContext<F>,
    tables: &mut Tables,
    output: &mut CommandOutput,
    object: u32,
    property: &Text,
    to: &serde_json::Value,
) -> Result<Answer, Fault>
    requires placed { IsPlaced tables.old actor.now.caller.place }
    requires fresh { output.old ≡ fresh_output actor.now.caller.setup.now.turns }
    ensures { Performs actor.now.caller (Bind object property.now (view to.now)) tables.old tables.new output.new.failing
        (reply_after output.new.lines) result }
{
    let (alloc, place) = (actor.caller.setup.alloc, actor.caller.place);
    let at = tables.bindable_property(place, object, property.as_str())?;
    let expr = Expr::from_json(alloc, to)?;
    check_reads(alloc, tables, place, object, &expr)?;
    let changes = tables.bind(place, at, expr)?;
    let told = tell(actor, tables, output, changes, 0);
    reply(told, Answer::Truth(true))
}

/// Refuses an expression that reads what a binding may not read: the first such refusal, in preorder.
fn check_reads(
    alloc: Global,
    tables: &Tables,
    place: usize,
    object: u32,
    expr: &Expr,
) -> Result<(), Fault>
    requires { IsPlaced tables.now place }
    ensures { Answers result (behind (reads_refusal (state_at tables.now place) object (reads_of expr.now)) (Ok tt)) }
{
    let reads = reads_of(alloc, expr)?;
    'reads: for read in reads.as_slice() {
        check_read(tables, place, object, read)?;
    }
    Ok(())
}

/// Refuses to read what a binding may not read.
fn check_read(tables: &Tables, place: usize, object: u32, read: &Read) -> Result<(), Code>
    requires { IsPlaced tables.now place }
    ensures { result_err result ≡ reads_refusal (state_at tables.now place) object (read.now ∷ []) }
{
    let of = match &read.target {
        Target::Itself => object,
        Target::Object(number) => *number,
        Target::Sender | Target::Child(_) => return Err(Code::NoSuchObject),
    };
    tables.bindable_property(place, of, read.name.as_str())?;
    Ok(())
}

/// Binds a property no longer, which keeps the value that it shows, and replies whether it was bound.
pub fn unbind<F: FunctorTable>(
    actor: &CallContext<F>,
    tables: &mut Tables,
    output: &mut CommandOutput,
    object: u32,
    property: &Text,
) -> Result<Answer, Fault>
    requires placed { IsPlaced tables.old actor.now.caller.place }
    requires fresh { output.old ≡ fresh_output actor.now.caller.setup.now.turns }
    ensures { Performs actor.now.caller (Unbind object property.now) tables.old tables.new output.new.failing (reply_after output.new.lines) result }
{
    let place = actor.caller.place;
    let at = tables.asked_property(place, object, property.as_str())?;
    let was_bound = tables.stores.is_bound(place, at);
    let changes = tables.unbind(place, at)?;
    let told = tell(actor, tables, output, changes, 0);
    reply(told, Answer::Truth(was_bound))
}

/// Begins a group, which holds back notifications of changes, and replies how many are open.
pub fn begin(caller: &SessionContext, tables: &mut Tables) -> Result<Answer, Fault>
    requires { IsPlaced tables.old caller.now.place }
    ensures { Performs caller.now Begin tables.old tables.new false reply_lines result }
{
    Ok(Answer::Number(tables.begin(caller.place)?))
}

/// Ends the group that was begun last, and replies how many are left. Ending the outermost one notifies of all that
/// has changed since it began.
pub fn end<F: FunctorTable>(
    actor: &CallContext<F>,
    tables: &mut Tables,
    output: &mut CommandOutput,
) -> Result<Answer, Fault>
    requires placed { IsPlaced tables.old actor.now.caller.place }
    requires fresh { output.old ≡ fresh_output actor.now.caller.setup.now.turns }
    ensures { Performs actor.now.caller End tables.old tables.new output.new.failing (reply_after output.new.lines) result }
{
    let (left, changes) = tables.end(actor.caller.place)?;
    let told = tell(actor, tables, output, changes, 0);
    reply(told, Answer::Number(left))
}

/// Replies, unless memory ran out for what precedes the reply.
fn reply(told: Result<(), AllocError>, answer: Answer) -> Result<Answer, Fault>
    ensures { result ≡ reply_once_told told answer }
{
    match told {
        Ok(()) => Ok(answer),
        Err(_) => Err(Fault::Memory),
    }
}

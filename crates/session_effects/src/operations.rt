//! Operations: what commands and actions do to a session, once each object that it concerns is known.
ghost use Rattle.std.specs.Prelude.{◌≡◌, IfOk, OnErr, OnOk};
ghost use Rattle.plain_types.specs.Answers.{RefusedBy};
ghost use Rattle.session_model.specs.Operations.{HasEnds, operation_answer, operation_refusal, with_operation};
ghost use Rattle.session_tables.specs.Tables.{IsPlaced, state_at, with_state};

use event_queue::Event;
use plain_types::Fault;
use session_model::{Answer, Operation};
use session_tables::Tables;

/// Does an operation, and returns what a command replies for it.
pub fn do_operation(
    tables: &mut Tables,
    place: usize,
    operation: Operation,
) -> Result<Answer, Fault>
    requires { IsPlaced tables.old place }
    ensures refusal { RefusedBy (operation_refusal (state_at tables.old place) operation) result }
    ensures answer { IfOk result (λ answer. answer ≡ operation_answer (state_at tables.old place) operation) }
    ensures ok { OnOk result (tables.new ≡ with_state tables.old place (with_operation (state_at tables.old place) operation)) }
    ensures err { OnErr result (tables.new ≡ tables.old) }
{
    if let Operation::Connect { new, unique: _ } = operation {
        tables.forests.check_living(place, new.sender)?;
        tables.forests.check_living(place, new.receiver)?;
    }
    do_found(tables, place, operation)
}

/// Does an operation for which both ends of a connection have been looked up.
pub fn do_found(tables: &mut Tables, place: usize, operation: Operation) -> Result<Answer, Fault>
    requires placed { IsPlaced tables.old place }
    requires ends { HasEnds (state_at tables.old place) operation }
    ensures refusal { RefusedBy (operation_refusal (state_at tables.old place) operation) result }
    ensures answer { IfOk result (λ answer. answer ≡ operation_answer (state_at tables.old place) operation) }
    ensures ok { OnOk result (tables.new ≡ with_state tables.old place (with_operation (state_at tables.old place) operation)) }
    ensures err { OnErr result (tables.new ≡ tables.old) }
{
    match operation {
        Operation::Connect { new, unique } => {
            let number = tables.connect(place, new, unique)?;
            return Ok(Answer::Number(number));
        }
        Operation::Disconnect { pattern } => {
            return Ok(Answer::Number(tables.disconnect(place, &pattern)));
        }
        Operation::SetParent { object, parent } => tables.set_parent(place, object, parent)?,
        Operation::DeleteLater { object } => {
            tables.forests.check_living(place, object)?;
            tables.check_room(place)?;
            tables.enqueue(place, Event::Deletion(object))?;
        }
        Operation::Block { object, on } => {
            tables.forests.check_object(place, object)?;
            return Ok(Answer::Truth(tables.set_blocked(place, object, on)));
        }
    }
    Ok(Answer::Truth(true))
}

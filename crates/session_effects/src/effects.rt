//! Actions that neither send signals nor delete objects are done here; for those that do, the signal or the
//! object is looked up.
ghost use Rattle.std.specs.Prelude.{◌≡◌, ◌∷◌, [], IfOk, OnErr, IsFalse, IsTrue, Some};
ghost use Rattle.plain_types.specs.Answers.{Answers};
ghost use Rattle.term_core.specs.declared.action.SingleAction.TheVariants as e;
ghost use Rattle.session_model.specs.Acts.{emission};
ghost use Rattle.session_model.specs.Items.{Delete, Emit};
ghost use Rattle.session_model.specs.Targets.{truth_evaluated};
ghost use Rattle.session_tables.specs.Tables.{IsPlaced, state_at};
ghost use Rattle.session_effects.specs.Actions.{FindsOperation, IsSent, KeepsOthers, Tries, is_nested};
ghost use Rattle.session_effects.specs.Setup.{settings_of};

use crate::connections::{Options, connection, pattern};
use crate::evaluation::{
    Reader, all_converted, all_evaluated, named_object_of, object_of, truth_evaluated,
};
use crate::methods::{kinds_at, signal_with};
use crate::operations::do_found;
use crate::session_context::SessionContext;
use crate::slot::Slot;
use plain_types::{Fault, Items};
use session_model::Operation;
use session_tables::Tables;
use signature_core::Signature;
use term_core::{Expr, SingleAction, Target};
use variant_value::Value;

/// A signal that an action sends.
#[derive(Drop)]
pub struct Emission {
    pub object: u32,
    pub signal: u32,
    pub args: Items<Value>,
}

/// Where the expressions of a slot's body are evaluated.
pub fn reader<'a>(caller: &SessionContext, tables: &'a Tables, slot: &Slot) -> Reader<'a>
    requires { IsPlaced tables.now caller.now.place }
    ensures tables { result.tables.now ≡ tables.now }
    ensures place { result.place ≡ caller.now.place }
    ensures object { result.object ≡ slot.now.object }
    ensures sender { result.sender ≡ slot.now.sender }
{
    Reader {
        tables,
        place: caller.place,
        object: slot.object,
        sender: slot.sender,
    }
}

/// The signal that an action sends.
pub fn resolve_emit(
    caller: &SessionContext,
    tables: &Tables,
    slot: &Slot,
    of: &Target,
    signal: &Signature,
    args: &[Expr],
) -> Result<Emission, Fault>
    requires { IsPlaced tables.now caller.now.place }
    ensures { Tries caller.now slot.now (e.Emit of.now signal.now args.now) tables.now
        (λ sent. Emit sent.object sent.signal sent.args slot.now.depth ∷ []) tables.now result }
{
    let reader = reader(caller, tables, slot);
    let object = object_of(&reader, of)?;
    tables.forests.check_object(caller.place, object)?;
    emission_of(caller, &reader, slot, object, signal, args)
}

/// The signal of an object that an action sends.
fn emission_of(
    caller: &SessionContext,
    reader: &Reader,
    slot: &Slot,
    object: u32,
    signal: &Signature,
    args: &[Expr],
) -> Result<Emission, Fault>
    requires { reader.now.place ≡ caller.now.place }
    ensures { IsSent object (emission (settings_of caller.now.setup.now) (state_at reader.now.tables.now caller.now.place)
        reader.now.object reader.now.sender slot.now.args.now object signal.now args.now) result }
{
    let alloc = caller.setup.alloc;
    let signal = signal_with(caller, reader.tables, object, signal)?;
    let values = all_evaluated(alloc, reader, slot.args, args)?;
    let kinds = kinds_at(caller, reader.tables, object, signal);
    let args = all_converted(alloc, kinds, values)?;
    Ok(Emission {
        object,
        signal,
        args,
    })
}

/// The object that an action deletes.
pub fn resolve_delete(
    caller: &SessionContext,
    tables: &Tables,
    slot: &Slot,
    target: &Target,
) -> Result<u32, Fault>
    requires { IsPlaced tables.now caller.now.place }
    ensures { Tries caller.now slot.now (e.Delete target.now) tables.now (λ object. Delete object slot.now.depth ∷ []) tables.now result }
{
    let object = object_of(&reader(caller, tables, slot), target)?;
    tables.forests.check_living(caller.place, object)?;
    Ok(object)
}

/// Does an action that is an operation.
pub fn apply_action(
    caller: &SessionContext,
    tables: &mut Tables,
    slot: &Slot,
    effect: &SingleAction,
) -> Result<(), Fault>
    requires placed { IsPlaced tables.old caller.now.place }
    requires simple { IsFalse (is_nested effect.now) }
    ensures tries { Tries caller.now slot.now effect.now tables.old (λ _. []) tables.new result }
    ensures err { OnErr result (tables.new ≡ tables.old) }
    ensures keeps { KeepsOthers caller.now.place tables.old tables.new }
{
    let operation = operation_of(caller, tables, slot, effect)?;
    do_found(tables, caller.place, operation)?;
    Ok(())
}

/// The operation that an action is.
fn operation_of(
    caller: &SessionContext,
    tables: &Tables,
    slot: &Slot,
    effect: &SingleAction,
) -> Result<Operation, Fault>
    requires placed { IsPlaced tables.now caller.now.place }
    requires simple { IsFalse (is_nested effect.now) }
    ensures { FindsOperation caller.now slot.now effect.now tables.now result }
{
    let reader = reader(caller, tables, slot);
    match effect {
        SingleAction::Connect {
            of,
            signal,
            to,
            method,
            mode,
            unique,
            single,
        } => {
            let options = Options {
                mode: *mode,
                unique: *unique,
                single: *single,
            };
            connect_operation(caller, tables, slot, of, signal, to, method, options)
        }
        SingleAction::Disconnect {
            of,
            signal,
            to,
            method,
        } => disconnect_operation(caller, tables, slot, of, signal, to, method),
        SingleAction::DeleteLater(target) => Ok(Operation::DeleteLater {
            object: object_of(&reader, target)?,
        }),
        SingleAction::Block { of, on } => Ok(Operation::Block {
            object: object_of(&reader, of)?,
            on: *on,
        }),
        SingleAction::SetParent { of, parent } => Ok(Operation::SetParent {
            object: object_of(&reader, of)?,
            parent: named_object_of(&reader, parent)?,
        }),
        _ => unreachable!(),
    }
}

/// The connection of a signal to a method.
fn connect_operation(
    caller: &SessionContext,
    tables: &Tables,
    slot: &Slot,
    of: &Target,
    signal: &Signature,
    to: &Target,
    method: &Signature,
    options: Options,
) -> Result<Operation, Fault>
    requires { IsPlaced tables.now caller.now.place }
    ensures { FindsOperation caller.now slot.now (e.Connect of.now signal.now to.now method.now options.mode options.unique options.single) tables.now result }
{
    let reader = reader(caller, tables, slot);
    let sender = object_of(&reader, of)?;
    let receiver = object_of(&reader, to)?;
    tables.forests.check_living(caller.place, sender)?;
    tables.forests.check_living(caller.place, receiver)?;
    let new = connection(caller, tables, sender, signal, receiver, method, options)?;
    Ok(Operation::Connect {
        new,
        unique: options.unique,
    })
}

/// The connections that are to be broken.
fn disconnect_operation(
    caller: &SessionContext,
    tables: &Tables,
    slot: &Slot,
    of: &Target,
    signal: &Option<Signature>,
    to: &Option<Target>,
    method: &Option<Signature>,
) -> Result<Operation, Fault>
    requires { IsPlaced tables.now caller.now.place }
    ensures { FindsOperation caller.now slot.now (e.Disconnect of.now signal.now to.now method.now) tables.now result }
{
    let reader = reader(caller, tables, slot);
    let sender = object_of(&reader, of)?;
    let receiver = named_object_of(&reader, to)?;
    tables.forests.check_object(caller.place, sender)?;
    tables.forests.check_named(caller.place, receiver)?;
    let pattern = pattern(caller, tables, sender, signal, receiver, method)?;
    Ok(Operation::Disconnect { pattern })
}

/// The truth that the test of a choice is.
pub fn evaluate_test(
    caller: &SessionContext,
    tables: &Tables,
    slot: &Slot,
    test: &Expr,
) -> Result<bool, Fault>
    requires { IsPlaced tables.now caller.now.place }
    ensures { Answers result (truth_evaluated (state_at tables.now caller.now.place) slot.now.object slot.now.sender slot.now.args.now test.now) }
{
    let reader = reader(caller, tables, slot);
    truth_evaluated(caller.setup.alloc, &reader, slot.args, test)
}

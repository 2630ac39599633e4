//! The commands that name an operation outright, by the numbers of its objects.
ghost use Rattle.std.specs.Prelude.{false};
ghost use Rattle.session_model.specs.declared.operation.Operation.TheVariants as operation;
ghost use Rattle.session_model.specs.Asked.{Do};
ghost use Rattle.session_tables.specs.Tables.{IsPlaced};
ghost use Rattle.session_engine.specs.Commands.{Performs, reply_lines};

use plain_types::Fault;
use session_effects::{SessionContext, do_operation};
use session_model::{Answer, Operation};
use session_tables::Tables;

/// Gives an object another parent, or makes it a root.
pub fn set_parent(
    caller: &SessionContext,
    tables: &mut Tables,
    object: u32,
    parent: Option<u32>,
) -> Result<Answer, Fault>
    requires { IsPlaced tables.old caller.now.place }
    ensures { Performs caller.now (Do (operation.SetParent object parent)) tables.old tables.new false reply_lines result }
{
    do_operation(
        tables,
        caller.place,
        Operation::SetParent { object, parent },
    )
}

/// Posts the deletion of an object.
pub fn delete_later(
    caller: &SessionContext,
    tables: &mut Tables,
    object: u32,
) -> Result<Answer, Fault>
    requires { IsPlaced tables.old caller.now.place }
    ensures { Performs caller.now (Do (operation.DeleteLater object)) tables.old tables.new false reply_lines result }
{
    do_operation(tables, caller.place, Operation::DeleteLater { object })
}

/// Blocks the signals of an object, or lets them through, and replies whether they were blocked.
pub fn block(
    caller: &SessionContext,
    tables: &mut Tables,
    object: u32,
    on: bool,
) -> Result<Answer, Fault>
    requires { IsPlaced tables.old caller.now.place }
    ensures { Performs caller.now (Do (operation.Block object on)) tables.old tables.new false reply_lines result }
{
    do_operation(tables, caller.place, Operation::Block { object, on })
}

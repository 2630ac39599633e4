//! Announcements of changes are made by nested calls as those of the agenda: with the same contract, and the
//! same measure.
ghost use Rattle.std.specs.Prelude.{◌∷◌, [], ◌≤◌};
ghost use Rattle.session_model.specs.declared.call.TheConstants.{NESTED_SIGNALS};
ghost use Rattle.session_tables.specs.Tables.{IsPlaced, state_at};
ghost use Rattle.session_effects.specs.declared.announcing.PendingAnnouncements.TheVariants.{One};
ghost use Rattle.session_effects.specs.Setup.{settings_of};
ghost use Rattle.session_effects.specs.Writing.{announced, items_of, told_items};
ghost use Rattle.dispatch.specs.Agenda.{MayNest, RunsItems};

use crate::agenda::emit;
use crate::call_context::CallContext;
use crate::command_output::CommandOutput;
use crate::functor_table::FunctorTable;
use binding_values::Change;
use plain_types::Items;
use session_effects::{
    Announcement, NotifySignal, PendingAnnouncements, announcements, property_name, told_args,
};
use session_model::NESTED_SIGNALS;
use session_tables::Tables;
use std::alloc::AllocError;

/// Notifies of the changes of a write.
#[cycle(agenda)]
#[inline(always)]
pub fn notify<F: FunctorTable>(
    actor: &CallContext<F>,
    tables: &mut Tables,
    output: &mut CommandOutput,
    news: PendingAnnouncements,
    depth: u32,
) -> Result<(), AllocError>
    requires placed { IsPlaced tables.old actor.now.caller.place }
    requires depth { depth ≤ NESTED_SIGNALS }
    ensures { RunsItems actor.now.caller (items_of (settings_of actor.now.caller.setup.now) (state_at tables.old actor.now.caller.place) depth news)
        tables.old tables.new output.old output.new result }
{
    match news {
        PendingAnnouncements::Nothing => Ok(()),
        PendingAnnouncements::One(notice) => notify_of(actor, tables, output, notice, depth),
        PendingAnnouncements::Several(changes) => tell(actor, tables, output, changes, depth),
    }
}

/// Sends the signal of one property. Where it is not published and nothing is connected to it, there is
/// nothing to do below the level where nested signals are warned of.
#[cycle(agenda)]
#[inline(always)]
fn notify_of<F: FunctorTable>(
    actor: &CallContext<F>,
    tables: &mut Tables,
    output: &mut CommandOutput,
    notice: NotifySignal,
    depth: u32,
) -> Result<(), AllocError>
    requires { MayNest actor.now.caller tables.old depth }
    ensures { RunsItems actor.now.caller (items_of (settings_of actor.now.caller.setup.now) (state_at tables.old actor.now.caller.place) depth (One notice))
        tables.old tables.new output.old output.new result }
{
    if depth < NESTED_SIGNALS
        && !tables
            .desks
            .is_published(actor.caller.place, notice.object, notice.signal)
        && !tables
            .connections
            .is_sent(actor.caller.place, notice.object, notice.signal)
    {
        return Ok(());
    }
    let args = told_args(&actor.caller, tables, notice)?;
    emit(
        actor,
        tables,
        output,
        notice.object,
        notice.signal,
        args.as_slice(),
        depth,
    )
}

/// Notifies of changes. All signals and warnings are determined before the first is given. This is never inlined: a
/// deletion nests as deep as there are objects, and must keep little on the stack.
#[cycle(agenda)]
#[inline(never)]
pub fn tell<F: FunctorTable>(
    actor: &CallContext<F>,
    tables: &mut Tables,
    output: &mut CommandOutput,
    changes: Items<Change>,
    depth: u32,
) -> Result<(), AllocError>
    requires placed { IsPlaced tables.old actor.now.caller.place }
    requires depth { depth ≤ NESTED_SIGNALS }
    ensures { RunsItems actor.now.caller (told_items (settings_of actor.now.caller.setup.now) (state_at tables.old actor.now.caller.place) depth changes)
        tables.old tables.new output.old output.new result }
{
    let told = announcements(&actor.caller, tables, changes)?;
    'told: for announcement in told.as_slice() {
        announce(actor, tables, output, announcement, depth)?;
    }
    Ok(())
}

/// Warns of the error of a property, or sends its signal.
#[cycle(agenda)]
fn announce<F: FunctorTable>(
    actor: &CallContext<F>,
    tables: &mut Tables,
    output: &mut CommandOutput,
    announcement: &Announcement,
    depth: u32,
) -> Result<(), AllocError>
    requires { MayNest actor.now.caller tables.old depth }
    ensures { RunsItems actor.now.caller (announced depth announcement.now ∷ []) tables.old tables.new output.old output.new result }
{
    match announcement {
        Announcement::Warning(at, error) => {
            let name = property_name(&actor.caller, tables, *at)?;
            output.warn_of_property(*at, name, *error)
        }
        Announcement::Signal(sent) => emit(
            actor,
            tables,
            output,
            sent.object,
            sent.signal,
            sent.args.as_slice(),
            depth,
        ),
    }
}

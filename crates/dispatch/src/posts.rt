//! A session posts to those that join it.
ghost use Rattle.std.specs.Prelude.{◌≡◌};
ghost use Rattle.session_model.specs.Arriving.{posts_of};
ghost use Rattle.session_tables.specs.Reaching.{Reaches};
ghost use Rattle.session_tables.specs.Tables.{IsPlaced, state_at};

use session_effects::{SessionContext, kinds_at};
use session_tables::{Sending, Tables};
use variant_value::Value;

/// Posts a signal that is sent to the sessions that join it, where it is published, and returns whether any
/// session has failed by a post of this command.
pub fn post(
    caller: &SessionContext,
    tables: &mut Tables,
    object: u32,
    signal: u32,
    args: &[Value],
    failing: bool,
) -> bool
    requires { IsPlaced tables.old caller.now.place }
    ensures reaches { Reaches caller.now.setup.now.classes caller.now.name.now caller.now.place
        (posts_of caller.now.setup.now.classes (state_at tables.old caller.now.place) object signal args.now) tables.old tables.new failing result }
    ensures own { state_at tables.new caller.now.place ≡ state_at tables.old caller.now.place }
{
    if !tables.desks.is_published(caller.place, object, signal) {
        return failing;
    }
    let sending = Sending {
        alloc: caller.setup.alloc,
        classes: &caller.setup.classes,
        place: caller.place,
        from: caller.name,
        object,
        signal,
        kinds: kinds_at(caller, tables, object, signal),
        args,
    };
    tables.deliver(&sending, failing)
}

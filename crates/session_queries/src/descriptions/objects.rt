//! The description of an object.
ghost use Rattle.std.specs.Prelude.{◌≡◌, IfOk};
ghost use Rattle.session_model.specs.ObjectDescriptions.{object_description};
ghost use Rattle.session_queries.specs.Views.{its_settings, its_state};

use crate::descriptions::classes::named_class;
use crate::session_view::SessionView;
use object_tree::Row;
use session_model::ObjectDescription;
use std::alloc::AllocError;

/// Describes the object of this row.
pub(crate) fn object_description(
    session: SessionView,
    row: Row,
) -> Result<ObjectDescription, AllocError>
    ensures { IfOk result (λ described. described ≡ object_description (its_settings session.entry) (its_state session.entry) row) }
{
    let SessionView { caller, tables } = session;
    let place = caller.place;
    let ends = tables.connections.end_counts(place, row.number);
    Ok(ObjectDescription {
        blocked: row.blocked,
        children: tables.forests.count_children(place, row.number),
        class: named_class(caller.setup, row.class)?,
        connections_from: ends.sent,
        connections_to: ends.received,
        events: tables.queues.count_of(place, row.number),
        level: tables.forests.depth(place, row.number),
        parent: row.parent,
    })
}

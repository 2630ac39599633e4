//! The descriptions of connections.
ghost use Rattle.std.specs.Prelude.{◌≡◌, [], IfOk};
ghost use Rattle.std.specs.Option.{option_map_or};
ghost use Rattle.session_model.specs.ConnectionDescriptions.{callee_description, connection_description, connection_descriptions};
ghost use Rattle.session_model.specs.Functors.{functor_at};
ghost use Rattle.session_queries.specs.Views.{its_settings, its_state};

use crate::descriptions::sharing::text_at;
use crate::session_view::SessionView;
use connection_list::Connection;
use plain_types::{Callee, Items, Text};
use session_effects::functor_at;
use session_model::{CalleeDescription, ConnectionDescription};
use std::alloc::AllocError;

/// Describes the connections with numbers above `after`: all, or those that have an object at either end.
pub(crate) fn connection_descriptions(
    session: SessionView,
    object: Option<u32>,
    after: Option<u32>,
) -> Result<Items<ConnectionDescription>, AllocError>
    ensures { IfOk result (λ described. described
        ≡ connection_descriptions (its_settings session.entry) (its_state session.entry) object after) }
{
    let SessionView { caller, tables } = session;
    let rows = tables
        .connections
        .listed(caller.place, object, after.unwrap_or(0))?;
    let mut described = Items::new(caller.setup.alloc);
    'rows: for row in rows.as_slice() {
        described.push(connection_description(session, row)?)?;
    }
    Ok(described)
}

fn connection_description(
    session: SessionView,
    row: &Connection,
) -> Result<ConnectionDescription, AllocError>
    ensures { IfOk result (λ described. described ≡ connection_description (its_settings session.entry) (its_state session.entry) row.now) }
{
    Ok(ConnectionDescription {
        callee: callee_description(session, row.receiver, row.state, row.callee)?,
        mode: row.mode,
        number: row.number,
        receiver: row.receiver,
        sender: row.sender,
        signal: text_at(session, row.sender, row.signal)?,
        single: row.single,
    })
}

fn callee_description(
    session: SessionView,
    receiver: u32,
    kept: u64,
    callee: Callee,
) -> Result<CalleeDescription, AllocError>
    ensures { IfOk result (λ described. described
        ≡ callee_description (its_settings session.entry) (its_state session.entry) receiver kept callee) }
{
    Ok(match callee {
        Callee::Method(index) => CalleeDescription::Method(text_at(session, receiver, index)?),
        Callee::Functor(index) => CalleeDescription::Functor(functor_name(session, index)?, kept),
    })
}

/// The name of the functor with this index, or an empty text if there is no such functor.
fn functor_name(session: SessionView, index: u32) -> Result<Text, AllocError>
    ensures { IfOk result (λ name. name ≡ option_map_or (λ functor. functor.name) (functor_at (its_settings session.entry) index) []) }
{
    match functor_at(session.caller, index) {
        Some(functor) => functor.name.copy(session.caller.setup.alloc),
        None => Ok(Text::new()),
    }
}

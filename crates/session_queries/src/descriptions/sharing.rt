//! The descriptions of publications and joins.
ghost use Rattle.std.specs.Prelude.{◌≡◌, IfOk, map};
ghost use Rattle.session_model.specs.SharingDescriptions.{text_at, join_description, publication_description};
ghost use Rattle.session_queries.specs.Views.{its_settings, its_state};

use crate::descriptions::functors::copied_kinds;
use crate::session_view::SessionView;
use plain_types::{Items, Text};
use publish_board::{Join, Publication};
use session_effects::method_at;
use session_model::{JoinDescription, PublicationDescription};
use std::alloc::AllocError;

/// The text of the method of an object with this index, or an empty text if there is no such method.
pub(crate) fn text_at(session: SessionView, object: u32, index: u32) -> Result<Text, AllocError>
    ensures { IfOk result (λ text. text ≡ text_at (its_settings session.entry) (its_state session.entry) object index) }
{
    let SessionView { caller, tables } = session;
    match method_at(caller, tables, object, index) {
        Some(method) => method.text.copy(caller.setup.alloc),
        None => Ok(Text::new()),
    }
}

/// Describes all publications of the session, the oldest first.
pub(crate) fn publication_descriptions(
    session: SessionView,
) -> Result<Items<PublicationDescription>, AllocError>
    ensures { IfOk result (λ described. described ≡ map (publication_description (its_settings session.entry) (its_state session.entry))
        (its_state session.entry).desk.publications) }
{
    let SessionView { caller, tables } = session;
    let mut described = Items::new(caller.setup.alloc);
    'publications: for row in tables.desks.publications(caller.place) {
        described.push(publication_description(session, row)?)?;
    }
    Ok(described)
}

fn publication_description(
    session: SessionView,
    row: &Publication,
) -> Result<PublicationDescription, AllocError>
    ensures { IfOk result (λ described. described ≡ publication_description (its_settings session.entry) (its_state session.entry) row.now) }
{
    Ok(PublicationDescription {
        name: row.name.copy(session.caller.setup.alloc)?,
        object: row.object,
        signal: text_at(session, row.object, row.signal)?,
    })
}

/// Describes all joins of the session, the oldest first.
pub(crate) fn join_descriptions(session: SessionView) -> Result<Items<JoinDescription>, AllocError>
    ensures { IfOk result (λ described. described ≡ map (join_description (its_settings session.entry) (its_state session.entry))
        (its_state session.entry).desk.joins) }
{
    let SessionView { caller, tables } = session;
    let mut described = Items::new(caller.setup.alloc);
    'joins: for join in tables.desks.joins(caller.place) {
        described.push(join_description(session, join)?)?;
    }
    Ok(described)
}

fn join_description(session: SessionView, join: &Join) -> Result<JoinDescription, AllocError>
    ensures { IfOk result (λ described. described ≡ join_description (its_settings session.entry) (its_state session.entry) join.now) }
{
    let alloc = session.caller.setup.alloc;
    Ok(JoinDescription {
        from: join.from.copy(alloc)?,
        kinds: copied_kinds(alloc, join.kinds.as_slice())?,
        method: text_at(session, join.object, join.method)?,
        name: join.name.copy(alloc)?,
        object: join.object,
    })
}

//! The commands that list what there is in a session, of its classes and of its functors.
#![tactic(auto, using(crate::proofs::ReadingLemmas::starved_reading))]

ghost use Rattle.session_model.specs.declared.query.Query.TheVariants.{Classes, Connections, FindAll, Functors, Joins, Parent, Publications};
ghost use Rattle.session_queries.specs.Reads.{ReadsIn};

use crate::descriptions::{
    class_names, connection_descriptions, functor_descriptions, join_descriptions,
    publication_descriptions,
};
use crate::queries::Reply;
use crate::session_view::SessionView;
use plain_types::{Code, Fault, Text};
use session_model::Answer;

/// Returns the parent of an object, if it has one.
pub(crate) fn parent(session: SessionView, object: u32) -> Reply
    ensures { ReadsIn session.entry (Parent object) result }
{
    let SessionView { caller, tables } = session;
    match tables.forests.row(caller.place, object) {
        Some(row) => Ok(Answer::Found(row.parent)),
        None => Err(Fault::Refused(Code::NoSuchObject)),
    }
}

/// Finds all objects below another one that have the given title and class, if these are given.
pub(crate) fn find_all(
    session: SessionView,
    object: u32,
    title: &Option<Text>,
    class: &Option<Text>,
) -> Reply
    ensures { ReadsIn session.entry (FindAll object title.now class.now) result }
{
    let SessionView { caller, tables } = session;
    tables.forests.check_object(caller.place, object)?;
    let setup = caller.setup;
    let base = setup.named_index(class)?;
    let found = tables.find_all(
        setup.alloc,
        &setup.classes,
        caller.place,
        object,
        title,
        base,
    )?;
    Ok(Answer::Numbers(found))
}

/// Lists the names of the classes, in the order in which they are declared.
pub(crate) fn classes(session: SessionView) -> Reply
    ensures { ReadsIn session.entry Classes result }
{
    Ok(Answer::Names(class_names(session.caller.setup)?))
}

/// Describes the functors, in the order of the server's list.
pub(crate) fn functors(session: SessionView) -> Reply
    ensures { ReadsIn session.entry Functors result }
{
    Ok(Answer::Functors(functor_descriptions(session.caller.setup)?))
}

/// Lists what the session publishes, the oldest first.
pub(crate) fn publications(session: SessionView) -> Reply
    ensures { ReadsIn session.entry Publications result }
{
    Ok(Answer::Publications(publication_descriptions(session)?))
}

/// Lists what the session joins, the oldest first.
pub(crate) fn joins(session: SessionView) -> Reply
    ensures { ReadsIn session.entry Joins result }
{
    Ok(Answer::Joins(join_descriptions(session)?))
}

/// Lists the connections with numbers above `after`: all, or those that have an object at either end.
pub(crate) fn connections(session: SessionView, object: Option<u32>, after: Option<u32>) -> Reply
    ensures { ReadsIn session.entry (Connections object after) result }
{
    let SessionView { caller, tables } = session;
    tables.forests.check_named(caller.place, object)?;
    Ok(Answer::Connections(connection_descriptions(session, object, after)?))
}

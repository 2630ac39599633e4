//! The commands that describe one thing in a session, or a class.
#![tactic(auto, using(crate::proofs::ReadingLemmas::starved_reading))]

ghost use Rattle.session_model.specs.declared.query.Query.TheVariants.{Describe, Object, Properties};
ghost use Rattle.session_queries.specs.Reads.{ReadsIn};

use crate::descriptions::{class_description, object_description, property_descriptions};
use crate::queries::Reply;
use crate::session_view::SessionView;
use plain_types::{Code, Fault, Text};
use session_model::{Answer, Boxed};

/// Describes an object.
pub(crate) fn describe_object(session: SessionView, object: u32) -> Reply
    ensures { ReadsIn session.entry (Object object) result }
{
    let SessionView { caller, tables } = session;
    let Some(row) = tables.forests.row(caller.place, object) else {
        return Err(Fault::Refused(Code::NoSuchObject));
    };
    let described = object_description(session, row)?;
    Ok(Answer::Object(Boxed::new(caller.setup.alloc, described)?))
}

/// Describes a class, with the class that declares each property and method.
pub(crate) fn describe_class(session: SessionView, name: &Text) -> Reply
    ensures { ReadsIn session.entry (Describe name.now) result }
{
    let index = session.caller.setup.class_index(name)?;
    let described = class_description(session.caller.setup, index)?;
    Ok(Answer::Class(Boxed::new(session.caller.setup.alloc, described)?))
}

/// Describes the properties of an object.
pub(crate) fn properties(session: SessionView, object: u32) -> Reply
    ensures { ReadsIn session.entry (Properties object) result }
{
    let SessionView { caller, tables } = session;
    let Some(row) = tables.forests.row(caller.place, object) else {
        return Err(Fault::Refused(Code::NoSuchObject));
    };
    Ok(Answer::Properties(property_descriptions(session, row)?))
}

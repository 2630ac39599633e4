//! This crate says as definitions what a session is and what it does: its state, its commands, and the machine
//! that the theory of isolated sessions speaks of. The only code is the types that the definitions share with
//! the program.
#![tactic(auto)]

ghost use Rattle.session_model.specs.Machine.{IsMetadLawful};
ghost use Rattle.session_model.specs.Run.{RunsToItsEnd};
ghost use Rattle.session_model.specs.Laws.{ActsInPlace, KeepsDeclared, KeepsFitting, KeepsNamed, KeepsSound, KeepsUnderWay};

mod boxed;
mod call;
mod command;
mod descriptions;
mod limits;
mod line;
mod meta;
mod named_property;
mod operation;
mod post;
mod query;

pub use boxed::Boxed;
pub use call::{Call, DESTROYED, NESTED_SIGNALS, OBJECT_NAME};
pub use command::{Command, Tagged};
pub use descriptions::{
    CalleeDescription, ClassDescription, ConnectionDescription, DeclaredMethod, DeclaredProperty,
    FunctorDescription, JoinDescription, ObjectDescription, PropertyDescription,
    PublicationDescription,
};
pub use limits::limits_are_these;
pub use line::{Answer, Line, Spin, Status};
pub use meta::MetaObject;
pub use named_property::NamedProperty;
pub use operation::Operation;
pub use post::Post;
pub use query::Query;

/// The machine of metad's sessions satisfies the laws that the theory of isolated sessions needs: names can be
/// compared, a session ignores a post that it has not joined, and only an accepted join adds a name to those that a
/// session listens to.
pub fn machine_is_lawful()
    ensures { IsMetadLawful }
{}

/// An agenda is run in order, up to its last item; what an item leads to is done before the items after it. Two
/// agendas joined into one are run one after the other.
pub fn agenda_runs_to_its_end()
    ensures { RunsToItsEnd }
{}

/// A session stays sound: between commands its objects form trees within the limits, no object is being deleted,
/// and both ends of every connection exist. Each object has the properties that its class declares, with values of
/// their kinds, and no more dynamic ones than the limit. Only bindable properties that exist are bound. Bindings,
/// open groups and events stay within their limits, and what properties showed before is kept only while a group is
/// open. The object that an event names exists: deleting an object deletes its events and bindings. What is called,
/// connected, published and joined exists and fits: a call has as many arguments as its callee has parameters, each
/// of its kind and no text too long, and so has each post to other sessions. A join names at most 10 types. The
/// dynamic properties, publications and joins of a session have valid names, provided that its commands use valid
/// names there.
pub fn commands_keep_sessions_sound()
    ensures commands { KeepsSound }
    ensures items { KeepsUnderWay }
    ensures properties { KeepsDeclared }
    ensures fitting { KeepsFitting }
    ensures names { KeepsNamed }
{}

/// Running an action with the arguments of its slot has the same effect as putting the arguments in first and
/// running it without any. So the body of a slot is run without a copy of it.
pub fn actions_run_in_place()
    ensures { ActsInPlace }
{}

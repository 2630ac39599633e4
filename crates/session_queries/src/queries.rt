//! The commands that read of a session, and change nothing.
#![tactic(auto, using(crate::proofs::ReadingLemmas::starved_reading))]

ghost use Rattle.session_model.specs.declared.query.Query.TheVariants.{BindingError, Children, DynamicNames, Find, Get, Meta, Status};
ghost use Rattle.session_tables.specs.Tables.{IsPlaced};
ghost use Rattle.session_queries.specs.Reads.{Reads, ReadsIn};

use crate::descriptions::superclass_name;
use crate::session_view::SessionView;
use crate::{bindings, describing, listing};
use plain_types::{Fault, Items, Text};
use session_effects::SessionContext;
use session_model::{Answer, Boxed, MetaObject, Query};
use session_tables::Tables;

/// The answer to a query, or why there is none.
pub(crate) type Reply = Result<Answer, Fault>;

/// Answers a query.
pub fn answer(caller: &SessionContext, tables: &Tables, query: &Query) -> Result<Answer, Fault>
    requires { IsPlaced tables.now caller.now.place }
    ensures { Reads caller.now query.now tables.now result }
{
    let session = SessionView { caller, tables };
    match query {
        Query::Children { object } => children(session, *object),
        Query::Find {
            object,
            name,
            class,
        } => find(session, *object, name, class),
        Query::Get { object, property } => get(session, *object, property),
        Query::DynamicNames { object } => dynamic_names(session, *object),
        Query::Meta { class } => describe(session, class),
        Query::BindingError { object, property } => binding_error(session, *object, property),
        Query::Status => status(session),
        Query::Parent { object } => listing::parent(session, *object),
        Query::FindAll {
            object,
            name,
            class,
        } => listing::find_all(session, *object, name, class),
        Query::Classes => listing::classes(session),
        Query::Functors => listing::functors(session),
        Query::Publications => listing::publications(session),
        Query::Joins => listing::joins(session),
        Query::Object { object } => describing::describe_object(session, *object),
        Query::Describe { class } => describing::describe_class(session, class),
        Query::Connections { object, after } => listing::connections(session, *object, *after),
        Query::Properties { object } => describing::properties(session, *object),
        Query::Bindings { after } => bindings::bindings(session, after),
        Query::Binding { object, property } => bindings::binding(session, *object, property),
    }
}

/// Lists the children of an object, or the roots.
fn children(session: SessionView, object: Option<u32>) -> Reply
    ensures { ReadsIn session.entry (Children object) result }
{
    let SessionView { caller, tables } = session;
    tables.forests.check_named(caller.place, object)?;
    let found = tables.forests.children(caller.place, object)?;
    Ok(Answer::Numbers(Items::from_vec(found)))
}

/// Finds the nearest object below another one that has the given title and class, if these are given.
fn find(session: SessionView, object: u32, title: &Option<Text>, class: &Option<Text>) -> Reply
    ensures { ReadsIn session.entry (Find object title.now class.now) result }
{
    let SessionView { caller, tables } = session;
    tables.forests.check_object(caller.place, object)?;
    let base = caller.setup.named_index(class)?;
    let found = tables.find(&caller.setup.classes, caller.place, object, title, base)?;
    Ok(Answer::Found(found))
}

/// Reads a property of an object. The value is invalid if there is no property of this name.
fn get(session: SessionView, object: u32, property: &Text) -> Reply
    ensures { ReadsIn session.entry (Get object property.now) result }
{
    let SessionView { caller, tables } = session;
    tables.forests.check_object(caller.place, object)?;
    let value = tables.property(caller.place, object, property.as_str())?;
    Ok(Answer::Value(value))
}

/// Lists the names of an object's dynamic properties, the one that was set first at the front.
fn dynamic_names(session: SessionView, object: u32) -> Reply
    ensures { ReadsIn session.entry (DynamicNames object) result }
{
    let SessionView { caller, tables } = session;
    tables.forests.check_object(caller.place, object)?;
    let names = tables.stores.dynamic_names(caller.place, object)?;
    Ok(Answer::Names(names))
}

/// Returns the meta-object of a class.
fn describe(session: SessionView, class: &Text) -> Reply
    ensures { ReadsIn session.entry (Meta class.now) result }
{
    let (alloc, classes) = (session.caller.setup.alloc, &session.caller.setup.classes);
    let index = session.caller.setup.class_index(class)?;
    let Some(row) = classes.class_row(index) else {
        unreachable!()
    };
    let meta = MetaObject {
        class: row.name.copy(alloc)?,
        method_offset: row.method_offset,
        methods: session.caller.setup.method_texts(index)?,
        properties: session.caller.setup.property_names(index)?,
        property_offset: row.property_offset,
        superclass: superclass_name(session.caller.setup, row)?,
    };
    Ok(Answer::Meta(Boxed::new(alloc, meta)?))
}

/// Returns the error of a bound property, if it has one.
fn binding_error(session: SessionView, object: u32, property: &Text) -> Reply
    ensures { ReadsIn session.entry (BindingError object property.now) result }
{
    let SessionView { caller, tables } = session;
    let at = tables.asked_property(caller.place, object, property.as_str())?;
    let (_, error) = tables.stores.shown(caller.place, at)?;
    Ok(Answer::BindingError(error))
}

/// Counts what the session holds.
fn status(session: SessionView) -> Reply
    ensures { ReadsIn session.entry Status result }
{
    let SessionView { caller, tables } = session;
    Ok(Answer::Status(tables.status(caller.place)))
}

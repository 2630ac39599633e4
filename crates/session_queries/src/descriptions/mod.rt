//! The descriptions of things in a session, and of classes and functors.
mod bindings;
mod classes;
mod connections;
mod functors;
mod objects;
mod properties;
mod sharing;

pub(crate) use bindings::{binding_descriptions, bound_expression};
pub(crate) use classes::{class_description, class_names, superclass_name};
pub(crate) use connections::connection_descriptions;
pub(crate) use functors::functor_descriptions;
pub(crate) use objects::object_description;
pub(crate) use properties::property_descriptions;
pub(crate) use sharing::{join_descriptions, publication_descriptions};

//! The queries that clients may make about a session.
use crate::named_property::NamedProperty;
use plain_types::Text;

/// Asks for something in a session, and changes nothing there.
#[derive(Drop)]
pub enum Query {
    /// Lists the children of an object, or the roots.
    Children {
        object: Option<u32>,
    },
    /// Finds the nearest object below another one, with this title and of this class or one below it,
    /// where these are given.
    Find {
        object: u32,
        name: Option<Text>,
        class: Option<Text>,
    },
    /// Reads a property of an object (`QObject::property`).
    Get {
        object: u32,
        property: Text,
    },
    /// Lists the names of an object's dynamic properties, that first set first
    /// (`QObject::dynamicPropertyNames`).
    DynamicNames {
        object: u32,
    },
    /// Describes a class.
    Meta {
        class: Text,
    },
    /// Asks for the error that a bound property stands for, where it does.
    BindingError {
        object: u32,
        property: Text,
    },
    /// Asks how much there is in the session.
    Status,
    /// Asks for the parent of an object.
    Parent {
        object: u32,
    },
    /// Finds all objects that `Find` could find.
    FindAll {
        object: u32,
        name: Option<Text>,
        class: Option<Text>,
    },
    /// Lists the names of all classes, in the order in which they are declared.
    Classes,
    /// Lists the functors of the server.
    Functors,
    /// Lists what the session publishes, in the order of making.
    Publications,
    /// Lists what the session joins, in the order of making.
    Joins,
    /// Describes an object.
    Object {
        object: u32,
    },
    /// Describes a class with all that it has, and says what declares it.
    Describe {
        class: Text,
    },
    /// Lists connections of a greater number, where an object is named those that have it at either end.
    Connections {
        object: Option<u32>,
        after: Option<u32>,
    },
    /// Lists the declared properties of an object, and then the dynamic ones.
    Properties {
        object: u32,
    },
    /// Lists the bound properties, those that follow one where it is named.
    Bindings {
        after: Option<NamedProperty>,
    },
    /// Asks for the expression that a property is bound to, where it is bound.
    Binding {
        object: u32,
        property: Text,
    },
}

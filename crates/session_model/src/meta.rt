//! The meta-object of a class, as clients receive it.
use plain_types::{Items, Text};

/// A meta-object describes a class, as Qt's `QMetaObject` does.
pub struct MetaObject {
    /// The name of the class.
    pub class: Text,
    /// How many methods the superclasses have.
    pub method_offset: u32,
    /// The normal texts of the signatures of all methods, by number.
    pub methods: Items<Text>,
    /// The names of all properties, by number.
    pub properties: Items<Text>,
    /// How many properties the superclasses have.
    pub property_offset: u32,
    /// The name of the superclass; only `QObject` has none.
    pub superclass: Option<Text>,
}

impl Drop for MetaObject {
    fn drop(self) {
        let MetaObject {
            class: _,
            method_offset: _,
            methods: _,
            properties: _,
            property_offset: _,
            superclass: _,
        } = self;
    }
}

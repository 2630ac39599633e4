//! Classes, their methods and their properties.
ghost use Rattle.std.specs.Prelude.{◌≡◌, ◌+◌, ◌≤◌, ◌<◌, IfOk, IfSome, IsTrue, bytes_eq, length, position};
ghost use Rattle.std.specs.Option.{option_map};
ghost use Rattle.class_table.specs.Declaring.{empty_body, signal_of, slot_of};
ghost use Rattle.class_table.specs.Lookup.{is_same, method_number, property_number, text_of};
ghost use Rattle.class_table.specs.Spelled.{IsOwnText};
ghost use Rattle.signature_core.specs.Reading.{IsNormal};

use plain_types::{Items, Text, is_name};
use signature_core::{Kind, PARAMS, Signature};
use std::alloc::{AllocError, Global};
use term_core::Body;

/// The most classes that a class file may declare.
pub const CLASSES: usize = 1024;

/// The most methods that a class may have, those of its superclasses among them.
pub const METHODS: usize = 256;

/// The most properties that a class may have, those of its superclasses among them.
pub const PROPERTIES: usize = 64;

/// A signal or a slot.
pub struct Method {
    pub signature: Signature,
    /// The normal text of the signature.
    pub text: Text,
    pub is_signal: bool,
    /// A slot's body says what it does; that of a signal is empty.
    pub body: Body,
}

impl Drop for Method {
    fn drop(self) {
        let Method {
            signature: _,
            text: _,
            is_signal: _,
            body: _,
        } = self;
    }
}

impl Method {
    /// The signal of this signature, which does nothing of itself.
    pub(crate) fn signal(alloc: Global, signature: Signature) -> Result<Method, AllocError>
        ensures { IfOk result (λ method. method ≡ signal_of signature) }
    {
        let text = normal_text(alloc, &signature)?;
        let params = signature.kinds.len();
        Ok(Method {
            signature,
            text,
            is_signal: true,
            body: empty_body(alloc, params),
        })
    }

    /// The slot of this signature, which does this.
    pub(crate) fn slot(
        alloc: Global,
        signature: Signature,
        body: Body,
    ) -> Result<Method, AllocError>
        ensures { IfOk result (λ method. method ≡ slot_of signature body) }
    {
        let text = normal_text(alloc, &signature)?;
        Ok(Method {
            signature,
            text,
            is_signal: false,
            body,
        })
    }
}

/// The body of a signal with so many parameters.
fn empty_body(alloc: Global, params: usize) -> Body
    ensures { result ≡ empty_body params }
{
    Body {
        params,
        actions: Items::new(alloc),
    }
}

/// A declared property.
pub struct Property {
    pub name: Text,
    pub kind: Kind,
    /// The number of its NOTIFY signal among the methods of the class, inherited ones included.
    pub notify: Option<u32>,
    pub bindable: bool,
}

impl Drop for Property {
    fn drop(self) {
        let Property {
            name: _,
            kind: _,
            notify: _,
            bindable: _,
        } = self;
    }
}

/// A class with what it declares itself. What its superclasses declare comes first in number.
pub struct Class {
    pub name: Text,
    /// The superclass by its index in the table; only `QObject` has none.
    pub superclass: Option<u32>,
    /// How many methods the superclasses have.
    pub method_offset: u32,
    /// How many properties the superclasses have.
    pub property_offset: u32,
    /// The signals, and then the slots, each in the order of the file.
    pub methods: Items<Method>,
    pub properties: Items<Property>,
}

impl Drop for Class {
    fn drop(self) {
        let Class {
            name: _,
            superclass: _,
            method_offset: _,
            property_offset: _,
            methods: _,
            properties: _,
        } = self;
    }
}

impl Class {
    /// The number of the method with this signature among those that the class declares itself.
    pub(crate) fn own_method(&self, signature: &Signature) -> Option<u32>
        requires { self.now.method_offset + length self.now.methods ≤ METHODS }
        ensures { result ≡ option_map (λ index. self.now.method_offset + index)
            (method_number signature.now self.now.methods) }
    {
        let index = method_index(self.methods.as_slice(), signature)?;
        Some(self.method_offset + index as u32)
    }

    /// The number of the method of this normal text among those that the class declares itself.
    pub(crate) fn own_method_of_text(&self, text: &str) -> Option<u32>
        requires { self.now.method_offset + length self.now.methods ≤ METHODS }
        ensures { IfSome result (IsOwnText text.now self.now) }
    {
        let at = text_index(self.methods.as_slice(), text)?;
        let method = self.methods.get(at)?;
        if !is_normal(&method.signature) {
            return None;
        }
        Some(self.method_offset + at as u32)
    }

    /// The number of the property of this name among those that the class declares itself.
    pub(crate) fn own_property(&self, name: &str) -> Option<u32>
        requires { self.now.property_offset + length self.now.properties ≤ PROPERTIES }
        ensures { result ≡ option_map (λ index. self.now.property_offset + index)
            (property_number name.now self.now.properties) }
    {
        let index = property_index(self.properties.as_slice(), name)?;
        Some(self.property_offset + index as u32)
    }
}

/// The index of the method with this signature in the list.
fn method_index(methods: &[Method], signature: &Signature) -> Option<usize>
    ensures value { result ≡ method_number signature.now methods.now }
    ensures within { IfSome result (λ index. index < length methods.now) }
{
    methods
        .iter()
        .position(|method| is_same(&method.signature, signature))
}

/// The index of the method with this normal text in the list.
fn text_index(methods: &[Method], text: &str) -> Option<usize>
    ensures value { result ≡ position (λ method. bytes_eq method.text text.now) methods.now }
    ensures within { IfSome result (λ index. index < length methods.now) }
{
    methods
        .iter()
        .position(|method| method.text.as_str() == text)
}

/// Whether the normal text of a signature spells it.
fn is_normal(signature: &Signature) -> bool
    ensures { IsTrue result → IsNormal signature.now }
{
    is_name(signature.name.as_str()) && signature.kinds.len() <= PARAMS
}

/// The index of the property of this name in the list.
fn property_index(properties: &[Property], name: &str) -> Option<usize>
    ensures value { result ≡ property_number name.now properties.now }
    ensures within { IfSome result (λ index. index < length properties.now) }
{
    properties
        .iter()
        .position(|property| property.name.as_str() == name)
}

/// Whether two signatures have the same name and the same kinds.
pub(crate) fn is_same(a: &Signature, b: &Signature) -> bool
    ensures { result ≡ is_same a.now b.now }
{
    a.name == b.name && a.kinds.as_slice() == b.kinds.as_slice()
}

/// The normal text of a signature.
pub(crate) fn normal_text(alloc: Global, signature: &Signature) -> Result<Text, AllocError>
    ensures { IfOk result (λ text. text ≡ text_of signature.now) }
{
    let text = signature.text(alloc)?;
    Text::from_str(alloc, text.as_str())
}

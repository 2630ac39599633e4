//! The descriptions of the things in a session, of classes and of functors, as clients read them.
use binding_values::BindingError;
use plain_types::{ConnectionType, Items, Text};
use signature_core::Kind;
use variant_value::Value;

/// An object, with what there is of it in its session.
pub struct ObjectDescription {
    /// Whether its signals are blocked.
    pub blocked: bool,
    pub children: usize,
    /// The name of its class.
    pub class: Text,
    /// How many connections have it as their sender.
    pub connections_from: u32,
    /// How many have it as their receiver or context; one from the object to itself counts at both.
    pub connections_to: u32,
    /// How many events in the queue name it.
    pub events: u32,
    /// A root is on level 1.
    pub level: usize,
    pub parent: Option<u32>,
}

impl Drop for ObjectDescription {
    fn drop(self) {
        let ObjectDescription {
            blocked: _,
            children: _,
            class: _,
            connections_from: _,
            connections_to: _,
            events: _,
            level: _,
            parent: _,
        } = self;
    }
}

/// A property, as a class declares it.
pub struct DeclaredProperty {
    pub bindable: bool,
    /// The name of the class that declares it.
    pub class: Text,
    pub kind: Kind,
    pub name: Text,
    /// The text of its notify signal, where it has one.
    pub notify: Option<Text>,
}

impl Drop for DeclaredProperty {
    fn drop(self) {
        let DeclaredProperty {
            bindable: _,
            class: _,
            kind: _,
            name: _,
            notify: _,
        } = self;
    }
}

/// A signal or a slot, as a class declares it.
pub struct DeclaredMethod {
    /// The name of the class that declares it.
    pub class: Text,
    /// The kinds of its parameters.
    pub kinds: Items<Kind>,
    /// The normal text of its signature.
    pub signature: Text,
}

impl Drop for DeclaredMethod {
    fn drop(self) {
        let DeclaredMethod {
            class: _,
            kinds: _,
            signature: _,
        } = self;
    }
}

/// A class, with all that it has; what it has from its superclasses comes first.
pub struct ClassDescription {
    /// Its name.
    pub class: Text,
    pub properties: Items<DeclaredProperty>,
    pub signals: Items<DeclaredMethod>,
    pub slots: Items<DeclaredMethod>,
    /// The name of the superclass; only `QObject` has none.
    pub superclass: Option<Text>,
}

impl Drop for ClassDescription {
    fn drop(self) {
        let ClassDescription {
            class: _,
            properties: _,
            signals: _,
            slots: _,
            superclass: _,
        } = self;
    }
}

/// A functor, as connections name it.
pub struct FunctorDescription {
    /// Whether a call may change the number that its connection keeps.
    pub keeps_state: bool,
    /// The kinds of its parameters.
    pub kinds: Items<Kind>,
    pub name: Text,
}

impl Drop for FunctorDescription {
    fn drop(self) {
        let FunctorDescription {
            keeps_state: _,
            kinds: _,
            name: _,
        } = self;
    }
}

/// A publication, with the text of its signal.
pub struct PublicationDescription {
    pub name: Text,
    pub object: u32,
    pub signal: Text,
}

impl Drop for PublicationDescription {
    fn drop(self) {
        let PublicationDescription {
            name: _,
            object: _,
            signal: _,
        } = self;
    }
}

/// A join, with the text of its method.
pub struct JoinDescription {
    /// The name of the session that it listens to.
    pub from: Text,
    /// The kinds of the parameters of the signal.
    pub kinds: Items<Kind>,
    pub method: Text,
    /// The name under which the signal is published.
    pub name: Text,
    pub object: u32,
}

impl Drop for JoinDescription {
    fn drop(self) {
        let JoinDescription {
            from: _,
            kinds: _,
            method: _,
            name: _,
            object: _,
        } = self;
    }
}

/// The method or functor that a connection calls.
pub enum CalleeDescription {
    /// The method of this text.
    Method(Text),
    /// The functor of this name, for which the connection keeps this number.
    Functor(Text, u64),
}

impl Drop for CalleeDescription {
    fn drop(self) {
        match self {
            CalleeDescription::Method(_) | CalleeDescription::Functor(_, _) => (),
        }
    }
}

/// A connection, with the texts of its signal and of what it calls.
pub struct ConnectionDescription {
    pub callee: CalleeDescription,
    pub mode: ConnectionType,
    pub number: u32,
    /// The object whose method is called, or that is the functor's context.
    pub receiver: u32,
    pub sender: u32,
    pub signal: Text,
    pub single: bool,
}

impl Drop for ConnectionDescription {
    fn drop(self) {
        let ConnectionDescription {
            callee: _,
            mode: _,
            number: _,
            receiver: _,
            sender: _,
            signal: _,
            single: _,
        } = self;
    }
}

/// A property of an object, with what it shows.
pub struct PropertyDescription {
    pub bindable: bool,
    pub bound: bool,
    /// The error of its binding, where it is bound and has one.
    pub error: Option<BindingError>,
    /// A dynamic property has no kind.
    pub kind: Option<Kind>,
    pub name: Text,
    /// The text of its notify signal, where it has one.
    pub notify: Option<Text>,
    pub value: Value,
}

impl Drop for PropertyDescription {
    fn drop(self) {
        let PropertyDescription {
            bindable: _,
            bound: _,
            error: _,
            kind: _,
            name: _,
            notify: _,
            value: _,
        } = self;
    }
}

//! The lines that clients receive.
use crate::boxed::Boxed;
use crate::call::Call;
use crate::descriptions::{
    ClassDescription, ConnectionDescription, FunctorDescription, JoinDescription,
    ObjectDescription, PropertyDescription, PublicationDescription,
};
use crate::meta::MetaObject;
use crate::named_property::NamedProperty;
use binding_values::BindingError;
use plain_types::{Code, Items, Text};
use term_core::Expr;
use variant_value::Value;

/// A command replies with an answer.
#[derive(Drop)]
pub enum Answer {
    /// The number of an object.
    Number(u32),
    /// The number of an object, where one was found.
    Found(Option<u32>),
    /// The numbers of objects, in order.
    Numbers(Items<u32>),
    Truth(bool),
    /// The error that a bound property stands for, where it does.
    BindingError(Option<BindingError>),
    Value(Value),
    /// The names of properties, in order.
    Names(Items<Text>),
    /// The answer describes a class. It is the largest answer and the rarest.
    Meta(Boxed<MetaObject>),
    Spun(Spin),
    Status(Status),
    Functors(Items<FunctorDescription>),
    Publications(Items<PublicationDescription>),
    Joins(Items<JoinDescription>),
    Object(Boxed<ObjectDescription>),
    /// The answer describes a class, with what declares each of its parts.
    Class(Boxed<ClassDescription>),
    Connections(Items<ConnectionDescription>),
    Properties(Items<PropertyDescription>),
    /// The bound properties.
    Bindings(Items<NamedProperty>),
    /// The expression that a property is bound to, where it is bound.
    Binding(Option<Boxed<Expr>>),
}

/// The answer to `spin`.
#[derive(Clone, Copy)]
pub struct Spin {
    /// How many were taken.
    pub events: u32,
    /// How many are still in the queue.
    pub left: u32,
    /// How many calls were lost in this session because the queue was full; `mismatched` is how many posts met a
    /// join of other types.
    pub lost: u64,
    pub mismatched: u64,
}

/// How much there is in a session.
#[derive(Clone, Copy)]
pub struct Status {
    pub bindings: u32,
    pub connections: u32,
    /// How many groups are open.
    pub group: u32,
    pub joins: u32,
    pub lost: u64,
    pub mismatched: u64,
    pub objects: u32,
    pub publications: u32,
    /// How many events are in the queue.
    pub queued: u32,
}

/// One line that a session receives.
pub enum Line {
    Reply(Answer),
    /// The command was refused.
    Error(Code),
    /// A slot or a functor is called.
    Call(Call),
    /// An action in the body of this object's slot, or of a functor that ran for it, was refused, or a
    /// signal of this object was not sent. That the turns are used up is said of no object.
    Warning {
        code: Code,
        object: Option<u32>,
    },
    /// A property of this name that is bound stands for an error, which is new or another one.
    BindingWarning {
        object: u32,
        property: Text,
        error: BindingError,
    },
}

impl Drop for Line {
    fn drop(self) {
        match self {
            Line::Reply(_)
            | Line::Error(_)
            | Line::Call(_)
            | Line::Warning { code: _, object: _ }
            | Line::BindingWarning {
                object: _,
                property: _,
                error: _,
            } => (),
        }
    }
}

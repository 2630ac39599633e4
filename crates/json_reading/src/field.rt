//! Members and their values.

use crate::own::Own;
use crate::real::Real;
use serde_json::Value;

/// The number of members that are given room at once: more than most objects have.
pub(crate) const ROOM: usize = 8;

/// A value without parts.
#[derive(Clone, Copy, Drop)]
pub enum Scalar<'a> {
    Null,
    Truth(bool),
    Number(u64),
    Signed(i64),
    Real(Real<'a>),
    Text(&'a str),
}

/// The value of a member: borrowed from the text or from a tree, or its own.
pub enum Field<'a> {
    Plain(Scalar<'a>),
    List(Vec<Scalar<'a>>),
    Tree(&'a Value),
    /// An object.
    Owned(Box<Own>),
}

impl<'a> Drop for Field<'a> {
    fn drop(self) {
        match self {
            Field::Plain(_) | Field::List(_) | Field::Tree(_) | Field::Owned(_) => (),
        }
    }
}

/// A key with its value. Of members with equal keys the last counts.
pub struct Member<'a> {
    pub key: &'a str,
    pub value: Field<'a>,
}

impl<'a> Drop for Member<'a> {
    fn drop(self) {
        let Member { key: _, value: _ } = self;
    }
}

impl<'a> Field<'a> {
    ghost use Rattle.std.specs.Prelude.{◌≡◌, option_map, option_and_then, is_some};
    ghost use Rattle.serde_json.specs.Find.{as_array, as_null, as_bool, as_str, as_number, as_u64};
    ghost use Rattle.json_reading.specs.Members.{data_of};

    /// Whether the value is null.
    pub fn is_null(&self) -> bool
        ensures { result ≡ is_some (as_null (data_of self.now)) }
    {
        match self {
            Field::Plain(scalar) => matches!(scalar, Scalar::Null),
            Field::List(_) => false,
            Field::Tree(value) => value.is_null(),
            Field::Owned(own) => own.json().is_null(),
        }
    }

    /// Whether the value is an array.
    pub fn is_list(&self) -> bool
        ensures { result ≡ is_some (as_array (data_of self.now)) }
    {
        match self {
            Field::Plain(_) => false,
            Field::List(_) => true,
            Field::Tree(value) => value.is_array(),
            Field::Owned(own) => own.json().is_array(),
        }
    }

    /// The truth that the value is.
    pub fn as_truth(&self) -> Option<bool>
        ensures { result ≡ as_bool (data_of self.now) }
    {
        match self {
            Field::Plain(Scalar::Truth(truth)) => Some(*truth),
            Field::Plain(_) | Field::List(_) => None,
            Field::Tree(value) => value.as_bool(),
            Field::Owned(own) => own.json().as_bool(),
        }
    }

    /// The number that the value is, where it is whole, without a sign and has 64 bits.
    pub fn as_number(&self) -> Option<u64>
        ensures { result ≡ option_and_then as_u64 (as_number (data_of self.now)) }
    {
        match self {
            Field::Plain(Scalar::Number(number)) => Some(*number),
            Field::Plain(Scalar::Signed(number)) => u64::try_from(*number).ok(),
            Field::Plain(_) | Field::List(_) => None,
            Field::Tree(value) => value.as_u64(),
            Field::Owned(own) => own.json().as_u64(),
        }
    }

    /// The text that the value is.
    pub fn as_text(&self) -> Option<&'a str>
        ensures { option_map (λ text. text.now) result ≡ as_str (data_of self.now) }
    {
        match self {
            Field::Plain(Scalar::Text(text)) => Some(*text),
            Field::Plain(_) | Field::List(_) | Field::Owned(_) => None,
            Field::Tree(value) => value.as_str(),
        }
    }
}

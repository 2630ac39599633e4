//! An answer is written as a word, a number or a text.
ghost use Rattle.std.specs.Prelude.{◌≡◌, IsTrue};
ghost use Rattle.serde_json.specs.Data.{boolean};
ghost use Rattle.serde_json.specs.Written.{compact_text};
ghost use Rattle.variant_value.specs.Values.{json_of};
ghost use Rattle.wire_format.specs.Parts.{is_plain_answer, is_plain_value};
ghost use Rattle.wire_format.specs.Shown.{is_plain_shown, text_of_shown};
ghost use Rattle.wire_format.specs.Json.{error_name, json_of_error, json_of_number, json_or_null};
ghost use Rattle.wire_format.specs.Text.{json_of_answer};

use binding_values::BindingError;
use itoa::Buffer as Digits;
use plain_types::Text;
use session_model::{
    Answer, ClassDescription, ConnectionDescription, FunctorDescription, JoinDescription,
    MetaObject, NamedProperty, ObjectDescription, PropertyDescription, PublicationDescription,
    Spin, Status,
};
use term_core::Expr;
use variant_value::Value;

/// An answer is written as one of these.
#[derive(Clone, Copy)]
pub(crate) enum Shown<'a> {
    /// This text, unchanged.
    Word(&'a str),
    /// This text in quotes, with JSON escapes.
    Text(&'a str),
    Numbers(&'a [u32]),
    Names(&'a [Text]),
    Meta(&'a MetaObject),
    Spun(&'a Spin),
    Status(&'a Status),
    Functors(&'a [FunctorDescription]),
    Publications(&'a [PublicationDescription]),
    Joins(&'a [JoinDescription]),
    Object(&'a ObjectDescription),
    Class(&'a ClassDescription),
    Connections(&'a [ConnectionDescription]),
    Properties(&'a [PropertyDescription]),
    Bindings(&'a [NamedProperty]),
    Expression(&'a Expr),
}

/// Returns how an answer is written. The digits of a number are lent.
pub(crate) fn shown_as<'a>(answer: &'a Answer, digits: &'a mut Digits) -> Shown<'a>
    ensures text { text_of_shown result ≡ compact_text (json_of_answer answer.now) }
    ensures plain { is_plain_shown result ≡ is_plain_answer answer.now }
{
    match answer {
        Answer::Number(number) => Shown::Word(digits.format(*number)),
        Answer::Found(found) => Shown::Word(found_word(*found, digits)),
        Answer::Numbers(numbers) => Shown::Numbers(numbers.as_slice()),
        Answer::Truth(truth) => Shown::Word(truth_word(*truth)),
        Answer::BindingError(error) => shown_error(*error),
        Answer::Value(value) => shown_value(value, digits),
        Answer::Names(names) => Shown::Names(names.as_slice()),
        Answer::Meta(meta) => Shown::Meta(meta.get()),
        Answer::Spun(spin) => Shown::Spun(spin),
        Answer::Status(status) => Shown::Status(status),
        Answer::Functors(functors) => Shown::Functors(functors.as_slice()),
        Answer::Publications(publications) => Shown::Publications(publications.as_slice()),
        Answer::Joins(joins) => Shown::Joins(joins.as_slice()),
        Answer::Object(described) => Shown::Object(described.get()),
        Answer::Class(described) => Shown::Class(described.get()),
        Answer::Connections(rows) => Shown::Connections(rows.as_slice()),
        Answer::Properties(properties) => Shown::Properties(properties.as_slice()),
        Answer::Bindings(bindings) => Shown::Bindings(bindings.as_slice()),
        Answer::Binding(Some(expr)) => Shown::Expression(expr.get()),
        Answer::Binding(None) => Shown::Word("null"),
    }
}

#[inline(always)]
pub(crate) fn shown_value<'a>(value: &'a Value, digits: &'a mut Digits) -> Shown<'a>
    ensures text { text_of_shown result ≡ compact_text (json_of value.now) }
    ensures plain { is_plain_shown result ≡ is_plain_value value.now }
{
    match value {
        Value::Invalid => Shown::Word("null"),
        Value::Bool(truth) => Shown::Word(truth_word(*truth)),
        Value::Int(number) => Shown::Word(digits.format(*number)),
        Value::Uint(number) => Shown::Word(digits.format(*number)),
        Value::Longlong(number) => Shown::Word(digits.format(*number)),
        Value::Ulonglong(number) => Shown::Word(digits.format(*number)),
        Value::Text(text) => Shown::Text(text.as_str()),
    }
}

pub(crate) fn truth_word(truth: bool) -> &'static str
    ensures { result.now ≡ compact_text (boolean truth) }
{
    if truth { "true" } else { "false" }
}

/// A number, or `null` for `None`.
pub(crate) fn found_word<'a>(found: Option<u32>, digits: &'a mut Digits) -> &'a str
    ensures { result.now ≡ compact_text (json_or_null json_of_number found) }
{
    match found {
        Some(number) => digits.format(number),
        None => "null",
    }
}

/// The name of an error, or `null` for `None`.
#[tactic(auto, using(crate::proofs::Plain::error_is_plain))]
fn shown_error<'a>(error: Option<BindingError>) -> Shown<'a>
    ensures text { text_of_shown result ≡ compact_text (json_or_null json_of_error error) }
    ensures plain { IsTrue (is_plain_shown result) }
{
    match error {
        Some(error) => Shown::Text(error_name(error)),
        None => Shown::Word("null"),
    }
}

/// The name of an error in the protocol.
pub(crate) fn error_name(error: BindingError) -> &'static str
    ensures { result.now ≡ error_name error }
{
    match error {
        BindingError::BindingLoop => "BindingLoop",
        BindingError::EvaluationError => "EvaluationError",
    }
}

//! The text of a line.
ghost use Rattle.std.specs.Prelude.{◌≡◌, ◌++◌, [], IfOk, OnOk, OnErr, codes, string_bytes};
ghost use Rattle.std.specs.List.{list_all};
ghost use Rattle.serde_json.specs.Data.{string};
ghost use Rattle.serde_json.specs.Written.{compact_text};
ghost use Rattle.variant_value.specs.Values.{json_of};
ghost use Rattle.wire_format.specs.Shown.{text_of_shown};
ghost use Rattle.wire_format.specs.Json.{array_of};
ghost use Rattle.wire_format.specs.Text.{is_plain_byte, text_of_line};

use crate::expressions::push_expression;
use crate::shown::{Shown, shown_as};
use crate::written::{Written, push_array, push_elements, put};
use binding_values::BindingError;
use itoa::Buffer as Digits;
use json::Writer;
use plain_types::{Code, Text};
use session_model::{Answer, Call, Line};
use std::alloc::{AllocError, Global};
use std::mem;
use variant_value::Value;

/// The text of a line for a session, with its line feed: compact JSON, its keys in byte order.
pub fn line_text(alloc: Global, session: &str, line: &Line) -> Result<String, AllocError>
    ensures { IfOk result (λ text. string_bytes text ≡ text_of_line session.now line.now) }
{
    let mut text = String::new(alloc);
    push_line(alloc, &mut text, session, line)?;
    Ok(text)
}

/// Puts the text of a line into a buffer, in place of what it holds, so that one buffer serves for
/// many lines.
pub fn write_line(
    alloc: Global,
    buffer: &mut String,
    session: &str,
    line: &Line,
) -> Result<(), AllocError>
    ensures ok { OnOk result (string_bytes buffer.new ≡ text_of_line session.now line.now) }
    ensures err { OnErr result (string_bytes buffer.new ≡ []) }
{
    buffer.clear();
    match push_line(alloc, buffer, session, line) {
        Ok(()) => Ok(()),
        Err(error) => {
            buffer.clear();
            Err(error)
        }
    }
}

fn push_line(
    alloc: Global,
    buffer: &mut String,
    session: &str,
    line: &Line,
) -> Result<(), AllocError>
    ensures { OnOk result
        (string_bytes buffer.new ≡ string_bytes buffer.old ++ text_of_line session.now line.now) }
{
    match line {
        Line::Reply(answer) => push_reply(alloc, buffer, session, answer),
        Line::Error(code) => push_error(alloc, buffer, session, *code),
        Line::Call(call) => push_call(alloc, buffer, session, call),
        Line::Warning { code, object } => push_warning(alloc, buffer, session, *code, *object),
        Line::BindingWarning {
            object,
            property,
            error,
        } => push_binding_warning(alloc, buffer, session, *object, property, *error),
    }
}

fn push_reply(
    alloc: Global,
    buffer: &mut String,
    session: &str,
    answer: &Answer,
) -> Result<(), AllocError>
    ensures { OnOk result (string_bytes buffer.new
        ≡ string_bytes buffer.old ++ text_of_line session.now (Line.Reply answer.now)) }
{
    buffer.push_str("{\"reply\":")?;
    push_shown(alloc, buffer, shown_as(answer, &mut Digits::new()))?;
    push_session(alloc, buffer, session)?;
    Ok(())
}

fn push_error(
    alloc: Global,
    buffer: &mut String,
    session: &str,
    code: Code,
) -> Result<(), AllocError>
    ensures { OnOk result (string_bytes buffer.new
        ≡ string_bytes buffer.old ++ text_of_line session.now (Line.Error code)) }
{
    put(alloc, buffer, "{\"error\":", &code)?;
    push_session(alloc, buffer, session)?;
    Ok(())
}

fn push_call(
    alloc: Global,
    buffer: &mut String,
    session: &str,
    call: &Call,
) -> Result<(), AllocError>
    ensures { OnOk result (string_bytes buffer.new
        ≡ string_bytes buffer.old ++ text_of_line session.now (Line.Call call.now)) }
{
    push_args(alloc, buffer, call.args.as_slice())?;
    push_method(alloc, buffer, call.method.as_str())?;
    call.object.push(alloc, buffer)?;
    put(alloc, buffer, ",\"sender\":", &call.sender)?;
    push_session(alloc, buffer, session)?;
    Ok(())
}

/// Appends the bracket that opens a call's line, and the values that are given with it.
fn push_args(alloc: Global, buffer: &mut String, args: &[Value]) -> Result<(), AllocError>
    ensures { OnOk result (string_bytes buffer.new ≡ string_bytes buffer.old
        ++ (codes "{\"args\":" ++ compact_text (array_of json_of args.now))) }
{
    buffer.push_str("{\"args\":[")?;
    push_elements(alloc, buffer, args)
}

/// Appends the slot or the functor, up to the number of the object.
fn push_method(alloc: Global, buffer: &mut String, method: &str) -> Result<(), AllocError>
    ensures { OnOk result (string_bytes buffer.new ≡ string_bytes buffer.old
        ++ (codes ",\"call\":" ++ (compact_text (string method.now) ++ codes ",\"object\":"))) }
{
    if !is_plain(method) {
        buffer.push_str(",\"call\":")?;
        push_escaped(alloc, buffer, method)?;
        buffer.push_str(",\"object\":")?;
        return Ok(());
    }
    buffer.push_str(",\"call\":\"")?;
    buffer.push_str(method)?;
    buffer.push_str("\",\"object\":")?;
    Ok(())
}

fn push_warning(
    alloc: Global,
    buffer: &mut String,
    session: &str,
    code: Code,
    object: Option<u32>,
) -> Result<(), AllocError>
    ensures { OnOk result (string_bytes buffer.new
        ≡ string_bytes buffer.old ++ text_of_line session.now (Line.Warning code object)) }
{
    match object {
        None => {
            push_warned(alloc, buffer, "{\"session\":", session, &code)?;
            Ok(())
        }
        Some(object) => {
            put(alloc, buffer, "{\"object\":", &object)?;
            push_warned(alloc, buffer, ",\"session\":", session, &code)?;
            Ok(())
        }
    }
}

fn push_binding_warning(
    alloc: Global,
    buffer: &mut String,
    session: &str,
    object: u32,
    property: &Text,
    error: BindingError,
) -> Result<(), AllocError>
    ensures { OnOk result (string_bytes buffer.new
        ≡ string_bytes buffer.old ++ text_of_line session.now (Line.BindingWarning object property.now error)) }
{
    put(alloc, buffer, "{\"object\":", &object)?;
    put(alloc, buffer, ",\"property\":", property)?;
    push_warned(alloc, buffer, ",\"session\":", session, &error)?;
    Ok(())
}

/// Appends the session of a warning after its key, what it warns of as its last member, and the line's end.
fn push_warned<T: Written>(
    alloc: Global,
    buffer: &mut String,
    key: &str,
    session: &str,
    warning: &T,
) -> Result<(), AllocError>
    ensures { OnOk result (string_bytes buffer.new ≡ string_bytes buffer.old ++ (key.now
        ++ (compact_text (string session.now) ++ (codes ",\"warning\":" ++ (compact_text (T.json warning.now) ++ codes "}\n"))))) }
{
    buffer.push_str(key)?;
    push_text(alloc, buffer, session)?;
    put(alloc, buffer, ",\"warning\":", warning)?;
    buffer.push_str("}\n")?;
    Ok(())
}

/// Appends the session as the last member of a line, and the line's end.
#[inline(always)]
fn push_session(alloc: Global, buffer: &mut String, session: &str) -> Result<(), AllocError>
    ensures { OnOk result (string_bytes buffer.new ≡ string_bytes buffer.old
        ++ (codes ",\"session\":" ++ (compact_text (string session.now) ++ codes "}\n"))) }
{
    if !is_plain(session) {
        buffer.push_str(",\"session\":")?;
        push_escaped(alloc, buffer, session)?;
        buffer.push_str("}\n")?;
        return Ok(());
    }
    buffer.push_str(",\"session\":\"")?;
    buffer.push_str(session)?;
    buffer.push_str("\"}\n")?;
    Ok(())
}

#[inline(always)]
fn push_shown(alloc: Global, buffer: &mut String, shown: Shown<'_>) -> Result<(), AllocError>
    ensures { OnOk result
        (string_bytes buffer.new ≡ string_bytes buffer.old ++ text_of_shown shown.entry) }
{
    match shown {
        Shown::Word(word) => buffer.push_str(word),
        Shown::Text(text) => push_text(alloc, buffer, text),
        Shown::Numbers(numbers) => push_array(alloc, buffer, numbers),
        Shown::Names(names) => push_array(alloc, buffer, names),
        Shown::Meta(meta) => meta.push(alloc, buffer),
        Shown::Spun(spin) => spin.push(alloc, buffer),
        Shown::Status(status) => status.push(alloc, buffer),
        Shown::Functors(functors) => push_array(alloc, buffer, functors),
        Shown::Publications(publications) => push_array(alloc, buffer, publications),
        Shown::Joins(joins) => push_array(alloc, buffer, joins),
        Shown::Object(described) => described.push(alloc, buffer),
        Shown::Class(described) => described.push(alloc, buffer),
        Shown::Connections(rows) => push_array(alloc, buffer, rows),
        Shown::Properties(properties) => push_array(alloc, buffer, properties),
        Shown::Bindings(bindings) => push_array(alloc, buffer, bindings),
        Shown::Expression(expr) => push_expression(alloc, buffer, expr),
    }
}

/// Appends a text between quotes, with what JSON escapes in it.
pub(crate) fn push_text(alloc: Global, buffer: &mut String, text: &str) -> Result<(), AllocError>
    ensures { OnOk result
        (string_bytes buffer.new ≡ string_bytes buffer.old ++ compact_text (string text.now)) }
{
    if !is_plain(text) {
        return push_escaped(alloc, buffer, text);
    }
    buffer.push_str("\"")?;
    buffer.push_str(text)?;
    buffer.push_str("\"")?;
    Ok(())
}

/// Appends a text in which JSON escapes something between quotes. No copy of it is made.
#[cold]
#[inline(never)]
fn push_escaped(alloc: Global, buffer: &mut String, text: &str) -> Result<(), AllocError>
    ensures { OnOk result
        (string_bytes buffer.new ≡ string_bytes buffer.old ++ compact_text (string text.now)) }
{
    let before = mem::replace(buffer, String::new(alloc));
    let mut writer = Writer::new(before.into_bytes());
    let written = writer.string(text);
    // Both parts are UTF-8, so that this is never refused.
    let Ok(whole) = String::from_utf8(writer.into_inner()) else {
        return Err(AllocError);
    };
    *buffer = whole;
    written
}

/// Whether JSON escapes nothing in the text.
pub(crate) fn is_plain(text: &str) -> bool
    ensures { result ≡ list_all is_plain_byte text.now }
{
    text.as_bytes().iter().all(|byte| is_plain_byte(*byte))
}

/// Whether JSON does not escape the byte. Most are above the backslash, which is asked first.
#[inline(always)]
fn is_plain_byte(byte: u8) -> bool
    ensures { result ≡ is_plain_byte byte }
{
    byte > b'\\' || (byte >= b' ' && byte != b'"' && byte != b'\\')
}

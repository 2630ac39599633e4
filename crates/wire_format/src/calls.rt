//! The text of a call's line, in memory of fixed size.
ghost use Rattle.std.specs.Prelude.{◌≡◌, ◌+◌, ◌≤◌, ◌∷◌, ◌++◌, [], IfSome, IsTrue, codes, decimal, length};
ghost use Rattle.json.specs.Filled.{Placed};
ghost use Rattle.serde_json.specs.Written.{compact_text};
ghost use Rattle.variant_value.specs.Values.{json_of};
ghost use Rattle.wire_format.specs.declared.calls.TheConstants.{CALL_BYTES};
ghost use Rattle.wire_format.specs.Json.{array_of};
ghost use Rattle.wire_format.specs.Text.{is_session_text, text_of_line};

use crate::shown::{Shown, shown_value};
use crate::writing::is_plain;
use itoa::Buffer as Digits;
use session_model::Line;
use variant_value::Value;

/// The memory that a call's line is written to.
pub const CALL_BYTES: usize = 256;

/// The text of a call's line, where it is short and has at most one value, which is no text. The
/// memory is lent, and nothing of what it holds is read.
#[inline(always)]
pub fn call_text<'a>(
    session: &str,
    line: &Line,
    memory: &'a mut [u8; CALL_BYTES],
) -> Option<&'a [u8]>
    requires { IsTrue (is_session_text session.now) }
    ensures { IfSome result (λ text. text.now ≡ text_of_line session.now line.now) }
{
    let Line::Call(call) = line else {
        return None;
    };
    let mut digits = Digits::new();
    let Some(word) = word_of(call.args.as_slice(), &mut digits) else {
        return None;
    };
    let method = call.method.as_str();
    if word.len() > 20 || method.len() > 96 || session.len() > 64 || !is_plain(method) {
        return None;
    }
    let at = put_front(memory, word, method);
    let end = put_back(memory, at, call.object, call.sender, session);
    Some(&memory[..end])
}

/// Returns the text between the brackets, where that is nothing or one word.
#[inline(always)]
fn word_of<'a>(args: &'a [Value], digits: &'a mut Digits) -> Option<&'a str>
    ensures { IfSome result (λ word. 91 ∷ (word.now ++ 93 ∷ []) ≡ compact_text (array_of json_of args.now)) }
{
    match args {
        [] => Some(""),
        [value] => match shown_value(value, digits) {
            Shown::Word(word) => Some(word),
            _ => None,
        },
        _ => None,
    }
}

/// Puts what comes before the number of the object.
#[inline(always)]
fn put_front(memory: &mut [u8], word: &str, method: &str) -> usize
    requires memory { length memory.old ≡ CALL_BYTES }
    requires texts { (length word.now ≤ 20) × (length method.now ≤ 96) }
    ensures { Placed memory.old memory.new 0 (codes "{\"args\":[" ++ (word.now ++ (codes "],\"call\":\"" ++ (method.now ++ codes "\",\"object\":")))) result }
{
    let end = put(memory, 0, "{\"args\":[");
    let end = put(memory, end, word);
    let end = put(memory, end, "],\"call\":\"");
    let end = put(memory, end, method);
    put(memory, end, "\",\"object\":")
}

/// Puts the rest, from the number of the object on.
#[inline(always)]
fn put_back(memory: &mut [u8], at: usize, object: u32, sender: u32, session: &str) -> usize
    requires memory { length memory.old ≡ CALL_BYTES }
    requires texts { (at ≤ 146) × (length session.now ≤ 64) }
    ensures { Placed memory.old memory.new at
        (decimal object ++ (codes ",\"sender\":" ++ (decimal sender ++ (codes ",\"session\":\"" ++ (session.now ++ codes "\"}\n"))))) result }
{
    let end = put_number(memory, at, object);
    let end = put(memory, end, ",\"sender\":");
    let end = put_number(memory, end, sender);
    let end = put(memory, end, ",\"session\":\"");
    let end = put(memory, end, session);
    put(memory, end, "\"}\n")
}

#[inline(always)]
fn put_number(memory: &mut [u8], at: usize, number: u32) -> usize
    requires { at + 10 ≤ length memory.old }
    ensures put { Placed memory.old memory.new at (decimal number) result }
    ensures few { result ≤ at + 10 }
{
    if number < 10 {
        memory[at] = b'0' + number as u8;
        return at + 1;
    }
    put(memory, at, Digits::new().format(number))
}

/// Copies a text into memory from `at` on, and returns where it ends.
#[inline(always)]
pub(crate) fn put(memory: &mut [u8], at: usize, text: &str) -> usize
    requires { at + length text.now ≤ length memory.old }
    ensures { Placed memory.old memory.new at text.now result }
{
    let end = at + text.len();
    memory[at..end].copy_from_slice(text.as_bytes());
    end
}

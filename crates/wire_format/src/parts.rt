//! The text of a line in parts, for where no memory is taken.
ghost use Rattle.std.specs.Prelude.{◌≡◌, IfSome, IsTrue};
ghost use Rattle.std.specs.List.{flat_map};
ghost use Rattle.std.specs.Option.{is_some};
ghost use Rattle.session_model.specs.declared.line.Line.TheVariants.{Error};
ghost use Rattle.wire_format.specs.Parts.{has_parts, text_of_parts};
ghost use Rattle.wire_format.specs.Text.{text_of_line, is_session_text};

use crate::calls::{CALL_BYTES, put};
use crate::shown::{Shown, shown_as};
use crate::writing::is_plain;
use itoa::Buffer as Digits;
use plain_types::Code;
use session_model::Line;

/// The text of a line in parts, which are borrowed.
#[derive(Clone, Copy)]
pub struct Parts<'a> {
    opening: &'a str,
    told: &'a str,
    between: &'a str,
    session: &'a str,
}

impl<'a> Parts<'a> {
    /// The parts in the order in which they are written.
    pub fn in_order(&self) -> [&'a str; 5]
        ensures { flat_map (λ part. part.now) result ≡ text_of_parts self.now }
    {
        let opening: &'a str = self.opening;
        let told: &'a str = self.told;
        let between: &'a str = self.between;
        let session: &'a str = self.session;
        let closing: &'a str = "\"}\n";
        [opening, told, between, session, closing]
    }

    /// The text of the line, where its parts are short. The memory is lent, and nothing of what it holds is read.
    #[inline(always)]
    pub fn text<'m>(&self, memory: &'m mut [u8; CALL_BYTES]) -> Option<&'m [u8]>
        ensures { IfSome result (λ text. text.now ≡ text_of_parts self.now) }
    {
        if self.opening.len() > 32 || self.told.len() > 64 {
            return None;
        }
        if self.between.len() > 32 || self.session.len() > 64 {
            return None;
        }
        let end = put(memory, 0, self.opening);
        let end = put(memory, end, self.told);
        let end = put(memory, end, self.between);
        let end = put(memory, end, self.session);
        let end = put(memory, end, "\"}\n");
        Some(&memory[..end])
    }
}

/// The text of a line in parts. A line that tells more than one value, or a text in which JSON
/// escapes something, has none. The digits of a number are lent.
pub fn line_parts<'a>(session: &'a str, line: &'a Line, digits: &'a mut Digits) -> Option<Parts<'a>>
    requires { IsTrue (is_session_text session.now) }
    ensures text { IfSome result (λ parts. text_of_parts parts ≡ text_of_line session.now line.now) }
    ensures some { is_some result ≡ has_parts line.now }
{
    match line {
        Line::Error(code) => Some(error_parts(*code, session)),
        Line::Reply(answer) => match shown_as(answer, digits) {
            Shown::Word(told) => Some(Parts {
                opening: "{\"reply\":",
                told,
                between: ",\"session\":\"",
                session,
            }),
            Shown::Text(told) if is_plain(told) => Some(Parts {
                opening: "{\"reply\":\"",
                told,
                between: "\",\"session\":\"",
                session,
            }),
            _ => None,
        },
        Line::Call(_) | Line::Warning { .. } | Line::BindingWarning { .. } => None,
    }
}

/// The text of a refusal's line in parts.
pub fn error_parts<'a>(code: Code, session: &'a str) -> Parts<'a>
    requires { IsTrue (is_session_text session.now) }
    ensures { text_of_parts result ≡ text_of_line session.now (Error code) }
{
    Parts {
        opening: "{\"error\":\"",
        told: code.text(),
        between: "\",\"session\":\"",
        session,
    }
}

//! The lines of metad's protocol: reading a line as a command, and writing an answer as a line. Also the readers
//! and writers of bytes, which say which bytes they move, where these are known, and count how often they failed.
#![tactic(auto)]

ghost use Rattle.wire_format.specs.Output.{LeavingOutLines, LeavingOutStrangers};
ghost use Rattle.wire_format.specs.Rereading.{AreReadAgain};

mod adapter;
mod calls;
mod descriptions;
mod expressions;
mod fault;
mod line;
mod parts;
mod reading;
mod shown;
mod traits;
mod whole;
mod writing;
mod written;

pub use adapter::Counted;
pub use calls::{CALL_BYTES, call_text};
pub use fault::{LineFault, ReadError};
pub use itoa::Buffer as Digits;
pub use json::Scratch;
pub use line::{LINE_BYTES, is_blank};
pub use parts::{Parts, error_parts, line_parts};
pub use reading::{read_line, text_in};
pub use traits::{Failed, Sink, Source};
pub use whole::write_all;
pub use writing::{line_text, write_line};

/// Sessions are isolated in inputs and in outputs: if the lines of sessions that no kept session joins are left
/// out, each kept session receives the same output, byte for byte.
///
/// There is nothing to run. The clauses are the laws.
pub fn sessions_are_isolated()
    ensures leaving_out { LeavingOutLines }
    ensures strangers { LeavingOutStrangers }
{}

/// The text that is written for the expression of a binding is read as the same expression: whoever copies the reply of
/// `binding` into `bind` binds the same.
pub fn expressions_are_read_again()
    ensures { AreReadAgain }
{}

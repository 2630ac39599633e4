//! How the program ends where it does not run to the end of its input.
ghost use Rattle.std.specs.Prelude.{◌≡◌, ◌⊎◌, IfOk, string_bytes};
ghost use Rattle.std.specs.Option.{option_copied};
ghost use Rattle.clap.specs.Words.{kind_of};
ghost use Rattle.command_line.specs.declared.ending.Stream.TheVariants.{StandardError, StandardOutput};
ghost use Rattle.command_line.specs.Ending.{Complains, EndsByClasses, EndsByWords, IsEnding, IsOfBadName, IsOutOfMemory, Shows, class_text, line, sunk};
ghost use Rattle.command_line.specs.declared.ending.TheConstants.{NO_UTF_8};

use crate::class_file::ClassFileError;
use crate::refusal::{goes_to_standard_output, status_of_refusal, text_of_refusal};
use class_table::ClassFault;
use std::alloc::{AllocError, Global};
use std::borrow::CowStr;
use wire_format::{Failed, Sink, write_all};

/// The stream that the program writes its last text to.
#[derive(Clone, Copy, PartialEq, Eq)]
pub enum Stream {
    StandardOutput,
    StandardError,
}

/// How the program ends: its exit status and its last text. The status is 0 after help, 1 after a
/// class file that is refused, 2 after a mistake in the command line or a name that no session can
/// have, and 5 if memory runs out.
#[derive(Drop)]
pub struct Ending {
    pub status: u8,
    pub stream: Stream,
    /// Each of its lines ends with a line feed.
    pub text: CowStr<'static, Global>,
}

/// The message for a command line that is not valid UTF-8, in the form of other mistakes.
const NO_UTF_8: &str = "error: invalid UTF-8 was detected in one or more arguments

Usage: metad [OPTIONS] [CLASSES]

For more information, try '--help'.
";

impl Ending {
    /// The end when memory runs out. It allocates nothing.
    pub fn out_of_memory() -> Ending
        ensures { IsOutOfMemory result }
    {
        Ending {
            status: 5,
            stream: Stream::StandardError,
            text: CowStr::Borrowed("metad: out of memory\n"),
        }
    }

    /// The end after words of the command line that are not valid UTF-8.
    pub fn no_utf_8() -> Ending
        ensures { IsEnding 2 StandardError NO_UTF_8.now result }
    {
        Ending {
            status: 2,
            stream: Stream::StandardError,
            text: CowStr::Borrowed(NO_UTF_8),
        }
    }

    /// The end after a name that no session can have.
    pub fn bad_session_name() -> Ending
        ensures { IsOfBadName result }
    {
        Ending {
            status: 2,
            stream: Stream::StandardError,
            text: CowStr::Borrowed("metad: bad session name\n"),
        }
    }

    /// The end after a command line that gives no options: it shows the help, or reports the mistake.
    pub fn of_words(alloc: Global, refusal: &clap::Error) -> Ending
        ensures { EndsByWords (kind_of refusal.now) result }
    {
        let Ok(Some(text)) = text_of_refusal(alloc, refusal) else {
            return Ending::out_of_memory();
        };
        let stream = if goes_to_standard_output(refusal) {
            Stream::StandardOutput
        } else {
            Stream::StandardError
        };
        Ending {
            status: status_of_refusal(refusal),
            stream,
            text: CowStr::Owned(text),
        }
    }

    /// The end after a class file that gave no classes.
    pub fn of_class_file(alloc: Global, error: &ClassFileError) -> Ending
        ensures { IsOutOfMemory result ⊎ EndsByClasses error.now result }
    {
        let text = match error {
            ClassFileError::Refused(fault) => class_line(alloc, Some(fault)),
            ClassFileError::Unreadable => class_line(alloc, None),
            ClassFileError::Memory => return Ending::out_of_memory(),
        };
        match text {
            Ok(text) => Ending {
                status: 1,
                stream: Stream::StandardError,
                text: CowStr::Owned(text),
            },
            Err(AllocError) => Ending::out_of_memory(),
        }
    }

    /// Writes the text to its stream, and returns the exit status. If standard output does not take all
    /// of it, a message goes to standard error and the status is 4. A failure of standard error is ignored.
    pub fn say<O: Sink, E: Sink>(&self, output: &mut O, error: &mut E) -> u8
        ensures shown { self.now.stream ≡ StandardOutput → Shows self.now result
            (sunk (O.held output.old) (O.failures output.old)) (sunk (O.held output.new) (O.failures output.new))
            (sunk (E.held error.old) (E.failures error.old)) (sunk (E.held error.new) (E.failures error.new)) }
        ensures told { self.now.stream ≡ StandardError → Complains self.now result
            (sunk (O.held output.old) (O.failures output.old)) (sunk (O.held output.new) (O.failures output.new))
            (sunk (E.held error.old) (E.failures error.old)) (sunk (E.held error.new) (E.failures error.new)) }
    {
        let text = self.text.as_str().as_bytes();
        match self.stream {
            Stream::StandardError => {
                let _ = write_all(error, text);
                self.status
            }
            Stream::StandardOutput => match write_all(output, text) {
                Ok(()) => self.status,
                Err(Failed) => {
                    let _ = write_all(error, b"metad: write fault\n");
                    4
                }
            },
        }
    }
}

/// Returns the message about a refused class file, without a line feed. `fault` is `None` if the file could
/// not be read.
pub fn class_text(alloc: Global, fault: Option<&ClassFault>) -> Result<String, AllocError>
    ensures { IfOk result (λ text. string_bytes text ≡ class_text (option_copied fault.entry)) }
{
    match fault {
        Some(fault) => {
            let (kind, class) = (fault.kind, fault.class);
            format!(in alloc; "metad: class file refused: {kind} at class {class}")
        }
        None => String::from_str(alloc, "metad: class file refused: unreadable"),
    }
}

/// Returns the message about a refused class file as a line, with its line feed.
fn class_line(alloc: Global, fault: Option<&ClassFault>) -> Result<String, AllocError>
    ensures { IfOk result (λ text. string_bytes text ≡ line (class_text (option_copied fault.entry))) }
{
    let mut text = class_text(alloc, fault)?;
    text.push('\n')?;
    Ok(text)
}

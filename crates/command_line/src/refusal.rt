//! How the program ends if the words give no options.
ghost use Rattle.std.specs.Prelude.{◌≡◌, ◌↔◌, IfOk, IsNone, IsTrue};
ghost use Rattle.clap.specs.Words.{kind_of};
ghost use Rattle.clap.specs.declared.error.kind.ErrorKind.TheVariants.{OutOfMemory};
ghost use Rattle.command_line.specs.Statuses.{status_for};

use clap::Error;
use clap::error::ErrorKind;
use std::alloc::{AllocError, Global};

/// The exit status: 0 after help, 2 after a mistake in the words, 5 if memory runs out.
pub(crate) fn status_of_refusal(refusal: &Error) -> u8
    ensures { result ≡ status_for (kind_of refusal.now) }
{
    match refusal.kind() {
        ErrorKind::DisplayHelp | ErrorKind::DisplayVersion => 0,
        ErrorKind::OutOfMemory => 5,
        _ => 2,
    }
}

/// Whether the text goes to standard output, as help does. All else goes to standard error.
pub(crate) fn goes_to_standard_output(refusal: &Error) -> bool
    ensures { IsTrue result ↔ (status_for (kind_of refusal.now) ≡ 0) }
{
    !refusal.use_stderr()
}

/// The text to show, each line of it with a line feed: help, or what is wrong with the words and how
/// the program is used. It is `None` if memory ran out, for which the program has its own message.
pub(crate) fn text_of_refusal(alloc: Global, refusal: &Error) -> Result<Option<String>, AllocError>
    ensures { IfOk result (λ text. IsNone text ↔ (kind_of refusal.now ≡ OutOfMemory)) }
{
    if refusal.kind() == ErrorKind::OutOfMemory {
        return Ok(None);
    }
    Ok(Some(refusal.to_string(alloc)?))
}

//! The exit status and the message of a run that has ended.
ghost use Rattle.std.specs.Prelude.{◌≡◌, option_map};
ghost use Rattle.wire_lines.specs.Status.{status_for, complaint_for};

use crate::fault::RunFault;
use crate::stream::Summary;

/// The exit status of a run, and its message on standard error, without a line end: 0 at the end of the input, 3 if
/// the input could not be read or had no end, 4 if the output could not be written, 5 if memory ran out.
pub fn status_of(ended: &Result<Summary, RunFault>) -> (u8, Option<&'static str>)
    ensures status { result.0 ≡ status_for ended.now }
    ensures complaint { option_map (λ text. text.now) result.1 ≡ complaint_for ended.now }
{
    match ended {
        Ok(_) => (0, None),
        Err(RunFault::Read | RunFault::Endless) => (3, Some("metad: read fault")),
        Err(RunFault::Write) => (4, Some("metad: write fault")),
        Err(RunFault::Memory) => (5, Some("metad: out of memory")),
    }
}

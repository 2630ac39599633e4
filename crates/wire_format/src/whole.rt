//! Writes that go on until all bytes are taken.
ghost use Rattle.wire_format.specs.Bytes.{AppendsAll};
ghost use Rattle.wire_format.specs.Counts.{CountsErrors};

use crate::traits::{Failed, Sink};

/// Writes all of `bytes`, by as many calls of `write` as it takes.
///
/// # Errors
///
/// `Failed` where a call failed, or took none of the bytes that were left. It is the last call that
/// was made.
pub fn write_all<W: Sink>(sink: &mut W, bytes: &[u8]) -> Result<(), Failed>
    ensures bytes { AppendsAll (W.held sink.old) (W.held sink.new) result bytes.now }
    ensures counted { CountsErrors (W.failures sink.old) (W.failures sink.new) result }
{
    let mut taken = 0;
    while taken < bytes.len() {
        let count = sink.write(&bytes[taken..])?;
        if count == 0 {
            return Err(Failed);
        }
        taken += count;
    }
    Ok(())
}

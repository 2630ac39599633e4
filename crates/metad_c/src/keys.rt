//! Random bytes that a host program gives.
use std::io;
use std::random::RandomSource;

/// The random bytes that a host program gave, for the keys by which the names of sessions are hashed.
#[derive(Clone, Copy)]
pub(crate) struct Keys<'a> {
    pub(crate) bytes: &'a [u8],
}

impl RandomSource for Keys<'_> {
    fn fill_bytes(&self, buf: &mut [u8]) -> io::Result<()> {
        let count = buf.len().min(self.bytes.len());
        buf[..count].copy_from_slice(&self.bytes[..count]);
        Ok(())
    }
}

//! A reader and writer whose first calls fail.
use std::io;
use std::io::{ErrorKind, Read, Write};

/// Fails at its first `times` calls, and then gives the bytes of a slice, or takes one byte per call.
#[derive(Drop)]
pub struct Troubled<'a> {
    pub kind: ErrorKind,
    pub times: u32,
    pub left: &'a [u8],
}

impl<'a> Troubled<'a> {
    fn call(&mut self) -> io::Result<()> {
        if self.times == 0 {
            return Ok(());
        }
        self.times -= 1;
        Err(io::Error::from(self.kind))
    }
}

impl<'a> Read for Troubled<'a> {
    fn read(&mut self, buffer: &mut [u8]) -> io::Result<usize> {
        self.call()?;
        self.left.read(buffer)
    }
}

impl<'a> Write for Troubled<'a> {
    fn write(&mut self, buffer: &[u8]) -> io::Result<usize> {
        self.call()?;
        Ok(buffer.len().min(1))
    }

    fn flush(&mut self) -> io::Result<()> {
        Ok(())
    }
}

//! An output that fails.
use std::io::{Error, ErrorKind, Result, Write};

/// Takes at most two bytes a write, and fails after so many writes.
#[derive(Drop)]
pub(crate) struct Faltering {
    pub(crate) left: usize,
}

impl Write for Faltering {
    fn write(&mut self, buf: &[u8]) -> Result<usize> {
        if self.left == 0 {
            return Err(Error::from(ErrorKind::BrokenPipe));
        }
        self.left -= 1;
        Ok(buf.len().min(2))
    }

    fn flush(&mut self) -> Result<()> {
        Ok(())
    }
}

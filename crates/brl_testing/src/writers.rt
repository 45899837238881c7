//! Writers that fail.
use brl_progress::{Progress, Work};
use std::io::{Error, ErrorKind, Result as IoResult, Write};

/// Takes this many writes whole, and then no byte.
#[derive(Drop)]
pub struct Full {
    pub left: u32,
    pub taken: Vec<u8>,
}

impl Write for Full {
    fn write(&mut self, buf: &[u8]) -> IoResult<usize> {
        if self.left == 0 {
            return Ok(0);
        }
        self.left -= 1;
        self.taken.extend_from_slice(buf)?;
        Ok(buf.len())
    }

    fn flush(&mut self) -> IoResult<()> {
        Ok(())
    }
}

/// Refuses each write.
#[derive(Drop)]
pub struct Closed;

impl Write for Closed {
    fn write(&mut self, _buf: &[u8]) -> IoResult<usize> {
        Err(Error::from(ErrorKind::Other))
    }

    fn flush(&mut self) -> IoResult<()> {
        Ok(())
    }
}

impl Progress for Closed {
    fn begin(&mut self, _part: &'static str) {}

    fn report(&mut self, _work: Work) {}

    fn end(&mut self) {}
}

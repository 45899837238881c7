//! Readers that fail.
use std::io::{Error, ErrorKind, Read, Result as IoResult};

/// Gives this many bytes, and then an error of this kind for each read.
#[derive(Drop)]
pub struct Broken {
    pub bytes: usize,
    pub kind: ErrorKind,
}

impl Read for Broken {
    fn read(&mut self, buf: &mut [u8]) -> IoResult<usize> {
        if self.bytes == 0 {
            return Err(Error::from(self.kind));
        }
        let count = self.bytes.min(buf.len());
        self.bytes -= count;
        Ok(count)
    }
}

/// Gives its bytes one at a time, and is then interrupted at each read.
#[derive(Drop)]
pub struct Slow<'a> {
    pub bytes: &'a [u8],
}

impl<'a> Read for Slow<'a> {
    fn read(&mut self, buf: &mut [u8]) -> IoResult<usize> {
        if self.bytes.is_empty() || buf.is_empty() {
            return Err(Error::from(ErrorKind::Interrupted));
        }
        buf[0] = self.bytes[0];
        self.bytes = &self.bytes[1..];
        Ok(1)
    }
}

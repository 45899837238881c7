//! Standard error that hears how far long work is.
use brl_progress::{Progress, Work};
use std::io::{Result as IoResult, Write};

/// Keeps what is written to it, and hears how far work is.
#[derive(Drop)]
pub struct Listener {
    pub written: Vec<u8>,
    /// The part of the work that it heard of last; empty where there was none.
    pub part: &'static str,
    /// The last that it heard.
    pub last: Option<Work>,
    /// How often progress was reported.
    pub times: u32,
    /// How often work has ended.
    pub ends: u32,
}

impl Listener {
    /// One that has heard nothing, and writes to `written`.
    pub fn new(written: Vec<u8>) -> Listener {
        Listener {
            written,
            part: "",
            last: None,
            times: 0,
            ends: 0,
        }
    }
}

impl Write for Listener {
    fn write(&mut self, buf: &[u8]) -> IoResult<usize> {
        self.written.write(buf)
    }

    fn flush(&mut self) -> IoResult<()> {
        self.written.flush()
    }
}

impl Progress for Listener {
    fn begin(&mut self, part: &'static str) {
        self.part = part;
    }

    fn report(&mut self, work: Work) {
        self.last = Some(work);
        self.times = self.times.saturating_add(1);
    }

    fn end(&mut self) {
        self.ends = self.ends.saturating_add(1);
    }
}

//! Standard error, which shows how far long work is where it is a terminal.
ghost use Rattle.std.specs.Prelude.{◌≡◌, Bool, IsTrue};
ghost use Rattle.brl_progress.specs.Console.{IsSilent};

use crate::{Progress, Work};
use std::io::{Result as IoResult, Write};
use std::marker::Model;
use std::time::{Clock, Duration, Instant};

/// How long work takes before it is shown, in milliseconds.
const QUIET: u64 = 2_000;
/// How long what is shown stays before it is shown anew, in milliseconds.
const PAUSE: u64 = 200;
/// Takes a terminal back to the start of its line, and clears that line.
const CLEAR: &str = "\r\x1b[K";

/// A stream for messages. Where it is a terminal, work that takes longer than two seconds is shown
/// on one line, which is written anew five times a second at most, and cleared before anything else
/// is written. Where it isn't, nothing is added.
#[derive(Drop)]
pub struct Console<'c, C, E> {
    clock: &'c C,
    stream: E,
    is_terminal: bool,
    /// The name of the part of the work that is done; empty where it has none.
    part: &'static str,
    /// When progress was first reported, if ever.
    begun: Option<Instant>,
    /// How long after `begun` the work is shown next.
    due: Duration,
    /// Whether a line is shown, which is cleared before anything else is written.
    is_shown: bool,
}

impl<'c, C, E> Model for Console<'c, C, E> {
    ghost use Rattle.brl_progress.specs.Console.{ConsoleView};
    ghost use Rattle.std.specs.Prelude.{IsTrue};

    ghost Value = { ConsoleView E };

    ghost view = { λ c. record { stream = c.stream; is_terminal = c.is_terminal } };

    ghost invariant = { λ c. IsTrue c.is_shown → IsTrue c.is_terminal };
}

impl<'c, C: Clock, E: Write> Console<'c, C, E> {
    /// A stream, and whether it is a terminal.
    pub fn new(clock: &'c C, stream: E, is_terminal: bool) -> Console<'c, C, E>
        ensures stream { result.stream ≡ stream }
        ensures terminal { result.is_terminal ≡ is_terminal }
    {
        Console {
            clock,
            stream,
            is_terminal,
            part: "",
            begun: None,
            due: Duration::from_millis(QUIET),
            is_shown: false,
        }
    }

    /// The stream.
    pub fn into_stream(self) -> E
        ensures { result ≡ self.entry.stream }
    {
        self.stream
    }

    /// Clears the line that is shown.
    fn clear(&mut self)
        ensures { IsSilent self.old self.new }
    {
        if self.is_shown {
            let _ = self.stream.write_all(CLEAR.as_bytes());
            self.is_shown = false;
        }
    }

    /// Shows how far the work is after this number of seconds, on a terminal.
    fn show(&mut self, work: Work, seconds: u64)
        requires { IsTrue self.old.is_terminal }
        ensures { IsSilent self.old self.new }
    {
        let part = self.part;
        let colon = if part.is_empty() { "" } else { ": " };
        let _ = write!(self.stream, "{CLEAR}{part}{colon}{work}, {seconds} s");
        self.is_shown = true;
    }

    /// The time since progress was first reported.
    fn elapsed(&mut self) -> IoResult<Duration>
        ensures { self.new ≡ self.old }
    {
        let now = Instant::now(self.clock)?;
        let begun = *self.begun.get_or_insert(now);
        Ok(now.duration_since(begun))
    }
}

impl<'c, C: Clock, E: Write> Progress for Console<'c, C, E> {
    /// Writes nothing where the stream is no terminal.
    fn begin(&mut self, part: &'static str)
        ensures { IsSilent self.old self.new }
    {
        self.part = part;
    }

    /// Writes nothing where the stream is no terminal.
    fn report(&mut self, work: Work)
        ensures { IsSilent self.old self.new }
    {
        if !self.is_terminal {
            return;
        }
        let Ok(elapsed) = self.elapsed() else {
            return;
        };
        if elapsed < self.due {
            return;
        }
        self.show(work, elapsed.as_secs());
        self.due = elapsed.saturating_add(Duration::from_millis(PAUSE));
    }

    /// Writes nothing where the stream is no terminal.
    fn end(&mut self)
        ensures { IsSilent self.old self.new }
    {
        self.clear();
        self.part = "";
        self.begun = None;
        self.due = Duration::from_millis(QUIET);
    }
}

impl<'c, C: Clock, E: Write> Write for Console<'c, C, E> {
    fn write(&mut self, buf: &[u8]) -> IoResult<usize> {
        self.clear();
        self.stream.write(buf)
    }

    fn flush(&mut self) -> IoResult<()> {
        self.stream.flush()
    }
}

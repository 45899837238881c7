//! How far long work is: what is reported of it, and what a terminal shows.
use crate::tests::program::runs::outcome_of;
use brl_progress::{Console, Progress, Work};
use brl_testing::{Listener, files_of, for_rows_of_2, for_rows_of_3};
use std::alloc::Global;
use std::cell::Cell;
use std::io::{Error, ErrorKind, Result as IoResult, Write};
use std::test::Fail;
use std::time::{Clock, Duration};

/// The files and the words of a run; how often it reports its work; how often it reports that work
/// has ended; and the last report, with the part of the work that began last.
const TOLD: &str = "\
t.ctb: letter a 1; letter b 12|brl,search,t.ctb,o|1|1|searching: 1 states, 0 pairs
t.ctb: letter a 1; letter b 1|brl,search,t.ctb,o|1|1|searching: 1 states, 0 pairs
t.ctb: letter a 1|brl,search,t.ctb,o,--without,b|0|1|
t.ctb: letter a 1; letter b 12; letter x 1-12; always ab 14 & c: BRLCERT 2; state 1 0; state 8 0; state 8 0 b62*; pair 1 2 12; end 3 1|brl,check,t.ctb,c|3|1|checking: 2 of 3 states, 1 pairs
t.ctb: letter a 1 & c: BRLCERT 1; state 1 0 0 -; state 8 0 0 61; state 8 0 1 -; pair 1 2 -; end 3 1|brl,check,t.ctb,c|3|1|checking: 2 of 3 states, 1 pairs
t.ctb: letter a 1 & c: BRLCERT 2; state 01 0; end 1 0|brl,check,t.ctb,c|0|1|
t.ctb: letter a 1|brl,clash,t.ctb,a,a|0|1|
t.ctb: letter a 1|brl,trace,t.ctb,a|0|1|
t.ctb: letter a 1; digit 1 1; punctuation , 2|brl,clashes,t.ctb|3|4|with digits searching: 1 states, 0 pairs
";

/// The numbers and the last work that a run's standard error heard, as in a row.
fn heard_by(alloc: Global, heard: &Listener) -> Result<String, Fail> {
    let (times, ends, part) = (heard.times, heard.ends, heard.part);
    match heard.last {
        Some(work) if part.is_empty() => Ok(format!(in alloc; "{times}|{ends}|{work}")?),
        Some(work) => Ok(format!(in alloc; "{times}|{ends}|{part} {work}")?),
        None => Ok(format!(in alloc; "{times}|{ends}|{part}")?),
    }
}

/// What the standard error of a run heard.
fn heard_of(alloc: Global, files: &str, words: &str) -> Result<String, Fail> {
    let outcome = outcome_of(alloc, words, &mut files_of(alloc, files)?, b"")?;
    heard_by(alloc, &outcome.err)
}

#[test]
fn searches_and_checks_tell_how_far_they_are(rt: HostRuntime) -> Result<(), Fail> {
    for_rows_of_3(rt.alloc(), TOLD, heard_of)
}

/// A clock that is set by hand, in milliseconds; without a time it fails.
#[derive(Drop)]
struct HandClock {
    time: Cell<Option<u64>>,
}

impl Clock for HandClock {
    fn monotonic(&self) -> IoResult<Duration> {
        match self.time.get() {
            Some(time) => Ok(Duration::from_millis(time)),
            None => Err(Error::from(ErrorKind::Other)),
        }
    }

    fn since_1970(&self) -> IoResult<Duration> {
        self.monotonic()
    }
}

/// What happens to a terminal, and what is written to it then. `say` writes a word, `end` ends the
/// work; else a search is reported at this time, with this number of states and ten times as many
/// pairs.
const SHOWN: &str = "\
0 1,1999 2|
0 1,2000 2|\r\x1b[Ksearching: 2 states, 20 pairs, 2 s
5000 1,7100 2,7299 3,7300 4|\r\x1b[Ksearching: 2 states, 20 pairs, 2 s\r\x1b[Ksearching: 4 states, 40 pairs, 2 s
0 1,3000 2,end|\r\x1b[Ksearching: 2 states, 20 pairs, 3 s\r\x1b[K
0 1,3000 2,say,say|\r\x1b[Ksearching: 2 states, 20 pairs, 3 s\r\x1b[Ksaidsaid
0 1,3000 2,say,end|\r\x1b[Ksearching: 2 states, 20 pairs, 3 s\r\x1b[Ksaid
0 1,end,say|said
0 1,3000 2,end,4000 3,5999 4|\r\x1b[Ksearching: 2 states, 20 pairs, 3 s\r\x1b[K
0 1,3000 2,end,4000 3,6000 4|\r\x1b[Ksearching: 2 states, 20 pairs, 3 s\r\x1b[K\r\x1b[Ksearching: 4 states, 40 pairs, 2 s
0 1,broken 2,say|said
broken 1,3000 2,5000 3|\r\x1b[Ksearching: 3 states, 30 pairs, 2 s
";

/// Reports a search to a console.
fn tell<E: Write>(
    clock: &HandClock,
    console: &mut Console<'_, HandClock, E>,
    word: &str,
) -> Result<(), Fail> {
    let (time, states) = word.split_once(' ').ok_or("a number is missing")?;
    let states: u32 = states.parse()?;
    let states = u64::from(states);
    clock.time.set(time.parse().ok());
    console.report(Work::Search {
        states,
        pairs: 10 * states,
    });
    Ok(())
}

/// Does to a console what the words of a field say.
fn act<E: Write>(
    clock: &HandClock,
    console: &mut Console<'_, HandClock, E>,
    words: &str,
) -> Result<(), Fail> {
    for word in words.split(',') {
        match word {
            "end" => console.end(),
            "say" => console.write_all(b"said")?,
            _ => tell(clock, console, word)?,
        }
    }
    Ok(())
}

/// What is written to a stream, which may be a terminal, to which a field's words happen.
fn shown_by(alloc: Global, words: &str, is_terminal: bool) -> Result<Vec<u8>, Fail> {
    let clock = HandClock {
        time: Cell::new(None),
    };
    let mut console = Console::new(&clock, Vec::new(alloc), is_terminal);
    act(&clock, &mut console, words)?;
    Ok(console.into_stream())
}

/// What a terminal shows.
fn shown(alloc: Global, words: &str) -> Result<String, Fail> {
    let written = shown_by(alloc, words, true)?;
    Ok(String::from_str(alloc, std::str::from_utf8(written.as_slice())?)?)
}

#[test]
fn a_terminal_shows_how_far_long_work_is(rt: HostRuntime) -> Result<(), Fail> {
    for_rows_of_2(rt.alloc(), SHOWN, shown)
}

/// Whether another stream gets what is written and nothing else.
fn is_plain(alloc: Global) -> Result<bool, Fail> {
    let written = shown_by(alloc, "0 1,3000 2,say,5000 3,end", false)?;
    Ok(written.as_slice() == b"said".as_slice())
}

#[test]
fn nothing_is_shown_where_there_is_no_terminal(rt: HostRuntime) -> Result<(), Fail> {
    assert!(rt; is_plain(rt.alloc())?);
    Ok(())
}

//! The program `brl`: `run` over the words, the files and the standard streams of a process.
#![tactic(auto)]

mod words;

use crate::words::words_of;
use brl_lines::FileSource;
use brl_progress::Console;
use brl_tool::{Counting, run};
use std::io::IsTerminal;
use std::process::ExitCode;

fn main(rt: HostRuntime) -> ExitCode {
    let alloc = rt.alloc();
    let words = match words_of(alloc, &rt) {
        Ok(words) => words,
        Err(fault) => {
            let _ = eprintln!(rt; "{fault}");
            return ExitCode::from(fault.status());
        }
    };
    let err = rt.stderr();
    let is_terminal = err.is_terminal();
    let status = run(
        alloc,
        words.as_slice(),
        &mut FileSource::new(&rt),
        &mut Counting::new(rt.stdin()),
        &mut Counting::new(rt.stdout()),
        &mut Console::new(&rt, err, is_terminal),
    );
    ExitCode::from(status)
}

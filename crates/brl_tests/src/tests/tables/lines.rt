//! Worked texts, which are fields of bytes, and their lines.
mod includes;
mod operands;
mod sources;

use brl_examples::load_in_memory;
use brl_failure::Failure;
use brl_lines::{Line, LoadFault, Loaded, MapSource, Source, load};
use brl_testing::{bytes_of, for_rows_of_2, for_rows_of_4, lend, lend_mut, one_file};
use std::alloc::Global;
use std::fmt::Write;
use std::test::Fail;

/// Texts and their lines, as `shown` writes them.
const TEXTS: &str = "\
|
letter a 1|t.ctb:1 letter@0 a@7 1@9;
letter a 1;|t.ctb:1 letter@0 a@7 1@9;
space \\s 0\r;letter a 1\r;|t.ctb:1 space@0 \\s@6 0@9;t.ctb:2 letter@12 a@19 1@21;
letter a 1\r|t.ctb:1 letter@0 a@7 1\r@9;
sign \r 1\r\r;|t.ctb:1 sign@0 \r@5 1\r@7;
\u{feff}letter a 1;|t.ctb:1 letter@0 a@7 1@9;
a\u{feff} 1;|t.ctb:1 a\u{feff}@0 1@5;
# letter a 1; #b;letter # 1|t.ctb:3 letter@17 #@24 1@26;
; \t;\t letter\t\ta \t1 ;|t.ctb:3 letter@6 a@14 1@17;
include;letter a 1|t.ctb:1 include@0;t.ctb:2 letter@8 a@15 1@17;
letter \u{e9} 1 comment|t.ctb:1 letter@0 \u{e9}@7 1@10 comment@12;
x|t.ctb:1 x@0;
";

/// The file `t.ctb` with a text.
fn file_of(alloc: Global, text: &str) -> Result<MapSource, Fail> {
    let bytes = bytes_of(alloc, text)?;
    one_file(alloc, "t.ctb", bytes.as_slice())
}

/// Lines as text: `FILE:LINE OPCODE@START OPERAND@START ..;`
fn shown(alloc: Global, lines: &[Line<'_>]) -> Result<String, Fail> {
    let mut text = String::new(alloc);
    for line in lines {
        push_line(&mut text, line)?;
    }
    Ok(text)
}

fn push_line(text: &mut String, line: &Line<'_>) -> Result<(), Fail> {
    write!(text, "{}:{} ", line.file, line.line)?;
    write!(text, "{}@{}", line.opcode.text, line.opcode.start)?;
    for operand in &line.operands {
        write!(text, " {}@{}", operand.text, operand.start)?;
    }
    write!(text, ";")?;
    Ok(())
}

fn loaded_text(alloc: Global, loaded: &Loaded) -> Result<String, Fail> {
    let lines = loaded.lines(alloc)?;
    shown(alloc, lines.as_slice())
}

/// The lines of a load as text, or why it has none.
fn outcome_text(
    alloc: Global,
    outcome: Result<Loaded, Failure<LoadFault>>,
) -> Result<String, Fail> {
    match outcome {
        Ok(loaded) => lend(loaded, |loaded| loaded_text(alloc, loaded)),
        Err(fault) => Ok(format!(in alloc; "{fault}")?),
    }
}

/// The lines of a table as text, or why it has none.
fn outcome<S: Source>(alloc: Global, source: &mut S, root: &str) -> Result<String, Fail> {
    outcome_text(alloc, load(alloc, source, root))
}

fn lines_of_text(alloc: Global, text: &str) -> Result<String, Fail> {
    let mut source = file_of(alloc, text)?;
    outcome_text(alloc, load_in_memory(alloc, &mut source, "t.ctb"))
}

#[test]
fn lines_of_texts(rt: HostRuntime) -> Result<(), Fail> {
    for_rows_of_2(rt.alloc(), TEXTS, lines_of_text)
}

/// The text before a run of letters, how many letters there are, the text after them, and what
/// comes of the table.
const LONG_LINES: &str = "\
|2048||loaded
|2048|;|loaded
|2048|\r;|loaded
\u{feff}|2048|;|loaded
|2048|\r|L6 LineTooLong t.ctb at t.ctb:1
|2049||L6 LineTooLong t.ctb at t.ctb:1
b;;#|2048|;c|L6 LineTooLong t.ctb at t.ctb:3
";

/// The fault of the table `t.ctb`, or `loaded`.
fn refused<S: Source>(alloc: Global, source: &mut S) -> Result<String, Fail> {
    match load(alloc, source, "t.ctb").err() {
        Some(fault) => Ok(format!(in alloc; "{fault}")?),
        None => Ok(String::from_str(alloc, "loaded")?),
    }
}

fn long_line(alloc: Global, before: &str, letters: &str, after: &str) -> Result<String, Fail> {
    let letters: usize = letters.parse()?;
    let text = format!(in alloc; "{before}{:a>letters$}{after}", "")?;
    let source = file_of(alloc, text.as_str())?;
    lend_mut(source, |source| refused(alloc, source))
}

#[test]
fn long_lines(rt: HostRuntime) -> Result<(), Fail> {
    for_rows_of_4(rt.alloc(), LONG_LINES, long_line)
}

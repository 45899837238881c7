//! Lists of clashes, whose sections are printed when they are found.
use brl_testing::{Full, Listener, field_of, files_of, for_rows_of_2, words_of};
use brl_tool::{Counting, Files, run};
use std::alloc::Global;
use std::test::Fail;

/// A table whose list has two sections. The second has no new pair of rules.
const FILES: &str = "t.ctb: letter a 1; letter b 12; letter x 1-12; punctuation , 2";

/// How many writes an output takes, what it gets, what standard error gets, the status, and whether
/// the file of pairs is written: it is before the verdict.
const WRITES: &str = "\
0||U4 OutputFailed|2|false
1|small letters: 1 pair of rules diverges, and no others;   x / ab  1-12  t.ctb:3 letter x  t.ctb:1 letter a|U4 OutputFailed|2|false
2|small letters: 1 pair of rules diverges, and no others;   x / ab  1-12  t.ctb:3 letter x  t.ctb:1 letter a; with marks: 0 more pairs of rules diverge, and no others|U4 OutputFailed|2|true
3|small letters: 1 pair of rules diverges, and no others;   x / ab  1-12  t.ctb:3 letter x  t.ctb:1 letter a; with marks: 0 more pairs of rules diverge, and no others; 1 pair of rules diverges, and no others||1|true
";

/// What a list gives whose output takes this many writes.
fn written(alloc: Global, left: &str) -> Result<String, Fail> {
    let mut files = files_of(alloc, FILES)?;
    let words = words_of(alloc, "brl,clashes,t.ctb,--write,o")?;
    let mut out = Counting::new(Full {
        left: left.parse()?,
        taken: Vec::new(alloc),
    });
    let mut err = Listener::new(Vec::new(alloc));
    let mut input: &[u8] = b"";
    let status = run(
        alloc,
        words.as_slice(),
        &mut files,
        &mut input,
        &mut out,
        &mut err,
    );
    let printed = field_of(alloc, std::str::from_utf8(out.device.taken.as_slice())?)?;
    let told = field_of(alloc, std::str::from_utf8(err.written.as_slice())?)?;
    let is_there = files.is_there("o");
    Ok(format!(in alloc; "{printed}|{told}|{status}|{is_there}")?)
}

#[test]
fn writes_are_refused_in_turn(rt: HostRuntime) -> Result<(), Fail> {
    for_rows_of_2(rt.alloc(), WRITES, written)
}

//! Runs in which memory may run out, each made again in the same process.
use crate::tests::program::runs::{Outcome, is_answered};
use brl_lines::MapSource;
use brl_testing::{Listener, check_rows, cut, field_of, files_of, lines_of, mark, words_of};
use brl_tool::{Counting, run};
use std::alloc::Global;
use std::rt::Files;
use std::test::Fail;

/// Rows of the form of `cases`.
const ROWS: &str = "\
t.ctb: space \\s 0; letter a 1; letter b 12; letter c 14|brl,translate,t.ctb|abc a|ABC A||0
t.ctb: #|brl,translate,t.ctb||||0
t.ctb: space \\s 0; letter a 1; letter b 12; letter c 14|brl,translate,--lacking,t.ctb|az; b|B|lacking z U+007A: count 1, first line 1|2
t.ctb: letter a 1; letter b 12; letter x 1-12; always ab 14|brl,translate,t.ctb|aab|AC||0
t.ctb: space \\s 0; letter b 12; letter u 136; letter t 2345; word but 12; word b 56-12|brl,translate,t.ctb|b but|;B B||0
t.ctb: letter a 1; litdigit 1 1; numsign 3456; nocontractsign 56; numericnocontchars a|brl,translate,t.ctb|1a|#A;A||0
t.ctb: include u.ctb & u.ctb: include t.ctb|brl,translate,t.ctb|||L4 Cycle t.ctb at u.ctb:1|2
t.ctb: letter a 1; letter b 12; letter x 1-12|brl,clash,t.ctb,ab,ab||no clash||0
t.ctb: letter a 1; letter b 12; letter x 1-12|brl,clash,t.ctb,ab,x||left: ab; right: x; cells: 1-12; left from 0:;   a  1   t.ctb:1;   b  12  t.ctb:2; right from 0:;   x  1-12  t.ctb:3||1
t.ctb: letter a 1; pass2 x; noback pass2 y; letter b 9 & u.ctb: #|brl,survey,t.ctb,u.ctb||table: t.ctb; B1 OutsideProfile pass2 at t.ctb:2; B1 OutsideProfile pass2 at t.ctb:3; B4 BadDots 9 at t.ctb:4; opcode letter: 1; opcode noback pass2: 1 (not in the profile); opcode pass2: 1 (not in the profile); file t.ctb: 1 of 4 lines are read; undefined characters (B5 to B7) are looked for once no line has another fault; 1 of 4 lines are read; table: u.ctb; no line defines a character; 0 of 0 lines are read; no verdict: a survey doesn't decide whether two texts have the same cells||1
t.ctb: letter a 1; letter b 1|brl,clash,--escapes,t.ctb,\\x0061,b||left: a; right: b; cells: 1; left from 0:;   a  1  t.ctb:1; right from 0:;   b  1  t.ctb:2||1
|brl,trace,--escapes,t.ctb,\\q|||F2 BadText \\q|2
t.ctb: letter a 1; letter b 12; always ab 14|brl,rules,t.ctb||0  always  ab  14  t.ctb:3; 1  letter  a  1  t.ctb:1; 2  letter  b  12  t.ctb:2||0
|brl,explain,K1||K1 Version; When: the header names no version from 1 to 3; What to do: Search again.||0
t.ctb: uplow Aa 1; capsletter 6|brl,trace,t.ctb,Aa||text: Aa; cells: 6-1-1;   A  6  1  t.ctb:1;   a  -  1  t.ctb:1||0
t.ctb: #|brl,search,t.ctb,o||certified: 1 states, 0 pairs||0
t.ctb: letter a 1; letter b 12|brl,search,t.ctb,o||certified: 2 states, 0 pairs||0
t.ctb: letter a 1; letter b 12; letter x 1-12 & p: letter a 1 / letter x 1-12|brl,clashes,t.ctb,--accept,p,--write,o||small letters: 0 pairs of rules diverge, and no others but for the accepted ones; 0 pairs of rules diverge, and no others but for the accepted ones; but for: 1 pair of rules, 0 sets of characters||0
t.ctb: letter a 1; letter b 12; letter x 1-12 & p: letter x 1-12 / letter b 12|brl,clashes,t.ctb,--accept,p||small letters: 1 pair of rules diverges, and no others;   x / ab  1-12  t.ctb:3 letter x  t.ctb:1 letter a; 1 pair of rules diverges, and no others; stale: 1 line; but for: 0 pairs of rules, 0 sets of characters|P2 NotListed letter x 1-12 / letter b 12 at p:1|1
t.ctb: letter a 1; letter b 12; letter x 1-12 & p: letter x 1-12 / letter a 1|brl,search,t.ctb,o,--accept,p||certified: 2 states, 0 pairs; but for: 1 pair of rules, 0 sets of characters||0
t.ctb: letter a 1; letter b 12; letter x 1-12 & p: letter x 1-12 / letter a 1 & c: BRLCERT 3; state 1 0 0; state 8 0 0; end 2 0|brl,check,t.ctb,c,--accept,p||accepted: 2 states, 0 pairs; but for: 1 pair of rules, 0 sets of characters||0
t.ctb: letter a 1; letter b 12; letter x 1-12|brl,clashes,t.ctb,--write,o||small letters: 1 pair of rules diverges, and no others;   x / ab  1-12  t.ctb:3 letter x  t.ctb:1 letter a; 1 pair of rules diverges, and no others||1
t.ctb: letter a 1; letter b 12|brl,search,t.ctb,o,--without,b||certified: 2 states, 0 pairs; without: b||0
t.ctb: letter a 1|brl,search,t.ctb,o,--without,b|||U8 UndefinedLeftOut b|2
t.ctb: letter a 1 & c: BRLCERT 3; state 1 0 0; end 1 0|brl,check,t.ctb,c,--without,a||accepted: 1 states, 0 pairs; without: a||0
t.ctb: # & c: BRLCERT 2; state 1 0; end 1 0|brl,check,t.ctb,c||accepted: 1 states, 0 pairs||0
t.ctb: letter a 1; letter b 12; letter x 1-12; always ab 14 & c: BRLCERT 2; state 1 0; state 8 0; state 8 0 b62*; pair 1 2 12; end 3 1|brl,check,t.ctb,c||accepted: 3 states, 1 pairs||0
t.ctb: letter a 1 & c: BRLCERT 1; state 1 0 0 -; state 8 0 0 61; state 8 0 1 -; pair 1 2 -; end 3 1|brl,check,t.ctb,c||accepted: 3 states, 1 pairs||0
t.ctb: letter a 1 & c: BRLCERT 2; state 01 0; end 1 0|brl,check,t.ctb,c||refused: K3 NotCanonical line 2||1
";

/// Room for what a row writes.
const ROOM: usize = 8_192;

/// Makes a run between two marks.
fn marked_outcome<R: Files>(
    system: &R,
    alloc: Global,
    words: &[String],
    files: &mut MapSource,
    input: &[u8],
) -> Result<Outcome, Fail> {
    let mut reader = input;
    let mut out = Counting::new(Vec::with_capacity(alloc, ROOM)?);
    let mut err = Listener::new(Vec::with_capacity(alloc, ROOM)?);
    mark(system);
    let status = run(alloc, words, files, &mut reader, &mut out, &mut err);
    mark(system);
    Ok(Outcome {
        out: out.device,
        err,
        status,
    })
}

/// Whether a run says that memory ran out in it: then it has written some first lines of its answer
/// at most. It has written nothing where it did so while the words were read, which may then be a
/// use fault.
fn is_out_of_memory(alloc: Global, outcome: &Outcome, fields: &str) -> Result<bool, Fail> {
    let out = field_of(alloc, std::str::from_utf8(outcome.out.as_slice())?)?;
    Ok(
        outcome.status == 3 && fields.starts_with(out.as_str())
            || outcome.status == 2 && out.is_empty(),
    )
}

/// Whether a run has its answer, or memory ran out in it.
fn may_be(alloc: Global, outcome: &Outcome, fields: &str) -> Result<bool, Fail> {
    Ok(is_out_of_memory(alloc, outcome, fields)? || outcome.fields(alloc)?.as_str() == fields)
}

/// Whether a run over files has its answer, or memory runs out in it; and whether it has its answer
/// when it is made again.
fn is_answered_again<R: Files>(
    system: &R,
    alloc: Global,
    files: &mut MapSource,
    row: &str,
) -> Result<bool, Fail> {
    let (words, rest) = cut(row)?;
    let (input, fields) = cut(rest)?;
    let input = lines_of(alloc, input)?;
    let input = input.as_bytes();
    let first = marked_outcome(
        system,
        alloc,
        words_of(alloc, words)?.as_slice(),
        files,
        input,
    )?;
    Ok(may_be(alloc, &first, fields)? && is_answered(alloc, words, files, input, fields)?)
}

#[test]
fn runs(rt: HostRuntime) -> Result<(), Fail> {
    check_rows(rt.alloc(), ROWS, |alloc, row| {
        let (files, rest) = cut(row)?;
        let mut files = files_of(alloc, files)?;
        is_answered_again(&rt, alloc, &mut files, rest)
    })
}

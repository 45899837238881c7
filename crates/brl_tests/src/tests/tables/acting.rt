//! Which lines can act on texts over an alphabet.
//!
//! The fields of a row: the lines of a table, the characters of an alphabet, and the numbers of the
//! lines that can act. A line that is left out has `-` before it. What is expected was worked out
//! by hand from what the manual says of each opcode.
use brl_acting::{TableLine, acting};
use brl_lines::{Line, Token};
use brl_testing::{chars, for_rows_of_3, with_lines};
use std::alloc::Global;
use std::fmt::Write;
use std::test::Fail;

/// Whether a line has no mark.
fn is_kept(line: &Line<'_>) -> bool {
    line.opcode.text != "-"
}

/// A line without its mark.
fn unmarked<'a>(alloc: Global, line: &Line<'a>) -> Result<Line<'a>, Fail> {
    let mut operands: Vec<Token<'a>> = Vec::new(alloc);
    let skipped = if is_kept(line) { 0 } else { 1 };
    for operand in line.operands.iter().skip(skipped) {
        operands.push(*operand)?;
    }
    let first = line.operands.first().ok_or("a mark without a line")?;
    Ok(Line {
        file: line.file,
        line: line.line,
        opcode: if is_kept(line) { line.opcode } else { *first },
        operands,
    })
}

/// Lines without their marks.
fn all_unmarked<'a>(alloc: Global, lines: &[Line<'a>]) -> Result<Vec<Line<'a>>, Fail> {
    let mut found = Vec::new(alloc);
    for line in lines {
        found.push(unmarked(alloc, line)?)?;
    }
    Ok(found)
}

/// The lines of a row without their marks, by those with them. The line with this number is one
/// with its neighbour.
fn table_lines<'l, 'a>(
    alloc: Global,
    lines: &[Line<'_>],
    unmarked: &'l [Line<'a>],
    continued: u32,
) -> Result<Vec<TableLine<'l, 'a>>, Fail> {
    let mut found = Vec::new(alloc);
    for (marked, line) in lines.iter().zip(unmarked) {
        found.push(TableLine {
            line,
            kept: is_kept(marked),
            continued: line.line == continued,
        })?;
    }
    Ok(found)
}

/// The numbers of the lines that can act, with a comma between them.
fn numbers_of(
    alloc: Global,
    lines: &[TableLine<'_, '_>],
    alphabet: &[char],
) -> Result<String, Fail> {
    let mut text = String::new(alloc);
    let places = acting(alloc, lines, alphabet)?;
    for (count, place) in places.iter().enumerate() {
        if count > 0 {
            text.push(',')?;
        }
        write!(text, "{}", place.saturating_add(1))?;
    }
    Ok(text)
}

/// The numbers of the lines of a field that can act. The line with the number `continued` is one
/// with its neighbour.
fn acting_numbers(
    alloc: Global,
    field: &str,
    alphabet: &[char],
    continued: u32,
) -> Result<String, Fail> {
    with_lines(alloc, field, |lines| {
        let unmarked = all_unmarked(alloc, lines)?;
        let lines = table_lines(alloc, lines, unmarked.as_slice(), continued)?;
        numbers_of(alloc, lines.as_slice(), alphabet)
    })
}

/// The lines that can act of those of a field.
fn acting_in(alloc: Global, field: &str, alphabet: &str) -> Result<String, Fail> {
    acting_numbers(alloc, field, chars(alloc, alphabet)?.as_slice(), 0)
}

/// Definitions that are left out.
const DEFINITIONS: &str = "\
letter a 1; - letter b 19|a|
letter a 1; - letter b 19|ab|2
uplow Aa 1; - uppercase A 19|a|
uplow Aa 1; - uppercase A 19|A|2
uplow Bb 12; - uppercase A 19; uplow Aa 1|Ba|2
letter a 1; - nofor letter b 12|a|
letter a 1; - nofor letter b 12|b|2
";

/// `base` and `uplow` lines that are left out.
const PAIRS: &str = "\
uplow Aa 1; letter b 12; - base uppercase A a|ab|
uplow Aa 1; letter b 12; - base uppercase A a|abA|3
uplow Aa 1; letter b 12; - base uppercase A a|bA|3
letter a 1; letter b 12; - base letter b a|a|3
letter a 1; letter b 12; letter c 14; - base letter b a|c|
letter a 1; letter c 14; - uplow Bb 19|a|
letter a 1; letter c 14; - uplow Bb 19|b|3
";

/// `grouping`, `attribute` and `class`.
const CLASSES: &str = "\
letter a 1; - grouping brackets () 126,345|a|
letter a 1; sign ( 126; - grouping brackets () 126,345|a(|3
letter a 1; letter b 12; - attribute letter b|a|
letter a 1; letter b 12; - attribute letter b|b|3
letter a 1; letter b 12; - class vowels ab|ab|
letter a 1; uplow Bb 12; - class digit b|a|
letter a 1; uplow Bb 12; - class digit b|B|3
";

/// Rules that are left out, and other lines whose characters stand in a text.
const RULES: &str = "\
letter a 1; - always ab 19|a|
letter a 1; - always ab 19|ab|2
uplow Aa 1; - always aa 19|A|2
letter a 1; letter b 12; - nocross always ab 1|a|
letter a 1; letter b 12; - nocross always ab 1|ab|3
letter a 1; digit 1 2; - before digit always a 1|a|
letter a 1; digit 1 2; - before digit always a 1|a1|3
letter a 1; space \\s 0; - before space after letter always a 1|a|3
letter a 1; - before vowels always a 1|a|2
letter a 1; - nofor always a 1,2|a|
letter a 1; letter b 12; - empmatchbefore match a b a 1|a|
letter a 1; letter b 12; - empmatchbefore match a b a 1|b|3
letter a 1; letter b 12; - largesign ab 1; - postpunc a 1|a|4
letter a 1; letter b 12; - contraction ab; - repeated a 1|b|
uplow Aa 1; - literal A|a|2
uplow Aa 1; letter b 12; - compbrl Ab|a|
letter a 1; - comp6 a 1; - begcomp 12; - endcomp 12|a|
letter a 1; punctuation . 3; - hyphen - 36; - decpoint . 46|a|
letter a 1; punctuation . 3; - hyphen - 36; - decpoint . 46|a.|4
letter a 1; - exactdots @12|a|
";

/// `context`, `correct`, and `pass2` to `pass4`.
const TESTS: &str = "\
letter a 1; letter b 12; - context \"a\"!\"b\" @1|a|3
letter a 1; letter b 12; - context \"ab\" @1|a|
uplow Aa 1; - correct \"A\" \"a\"|a|
uplow Aa 1; - correct \"A\" \"a\"|A|2
letter a 1; digit 1 2; - context $d @1; - context $d0-3\"a\" @1; - context !$d\"a\" @1|a|4,5
letter a 1; digit 1 2; - context $d @1|1|3
letter a 1; digit 1 2; - context $ld @1|a|3
letter a 1; letter b 12; - class vowels a; - context %vowels @1; - context %others @1; - context $w @1|b|5
letter a 1; letter b 12; - class vowels a; - context %vowels @1; - context $w @1|a|4,5
letter a 1; - context _![\"b\"]$a #1=2; - context \"b @1|a|2,3
letter a 1; letter b 12; - context \"\\x0062\" @1; - context \"\\xd83d\" @1|a|
letter a 1; letter b 12; - context \"\\x0062\" @1; - context \"\\xd83d\" @1|b|3
letter a 1; letter b 12; - pass2 @12 @3; - pass2 @1 @3; - pass2 @1-12 @3; - pass3 @1!@12 @3; - pass4 @19 @3|a|4,6
letter a 1; letter b 12; always ab 123; - pass2 @123 @3|a|
letter a 1; letter b 12; always ab 123; - pass2 @123 @3|ab|4
uplow Aa 1; capsletter 6; digit 1 2; numsign 3456; - pass2 @6 @3; - pass2 @3456 @3|a|
uplow Aa 1; capsletter 6; digit 1 2; numsign 3456; - pass2 @6 @3; - pass2 @3456 @3|A|5
digit 1 2; litdigit 1 2; numsign 3456; - pass2 @3456 @3|1|4
uplow Aa 1,17; - pass2 @17 @3|a|2
";

/// Lines that never act.
const NEVER: &str = "\
letter a 1; - swapcd x ab 1,2; - multind 6 x; - display a 1; - undefined 6; - locale x; - emphclass x; - noletsign a|a|
";

/// Indicators, modes, sequences and `letsign`.
const INDICATORS: &str = "\
uplow Aa 1; - begcapsphrase 6; - capsletter 9; - lencapsphrase 4|a|
uplow Aa 1; - begcapsphrase 6; - capsletter 9; - lencapsphrase 4|A|2,3,4
letter a 1; digit 1 2; litdigit 1 2; - nonumsign 3; - midendnumericmodechars a; - numericmodechars b|a|
letter a 1; digit 1 2; litdigit 1 2; - nonumsign 3; - midendnumericmodechars a; - numericmodechars b|1|4
letter a 1; digit 1 2; litdigit 1 2; - nonumsign 3; - midendnumericmodechars a; - numericmodechars b|1a|4,5
letter a 1; letter b 12; - class c b; - begmode c 3; - begmode d 3|a|
letter a 1; letter b 12; - class c b; - begmode c 3; - begmode d 3|b|4
letter a 1; space \\s 0; - seqdelimiter a|a|
letter a 1; space \\s 0; sign - 3; - seqdelimiter a|a-|4
letter a 1; letter b 12; - noletsign a; - letsign 56|a|
letter a 1; letter b 12; - noletsign a; - letsign 56|b|4
letter a 1; - letsign 56; word a 1|a|
";

/// Includes, words that are no opcodes, and characters that are none.
const OTHERS: &str = "\
letter a 1; - macro x; - alwais a 1; - nobreak; - always|a|2,3,4,5
letter a 1; - letter \\xd83d\\xdc4d 1; - always a\\xd83d 1|a|
letter a 1; - letter \\q 1|a|2
";

/// Kept lines that liblouis reads in another way.
const KEPT: &str = "\
letter a 1; word a 2|a|
letter a 1; always a 1; word a 2|a|3
letter a 1; word a 2; always a 1|a|
uplow Aa 1; word a 2|a|
uplow Aa 1; word a 2|A|2
uplow Aa 1; uplow Bb 12; always AB 3|a|
uplow Aa 1; uplow Bb 12; always AB 3|ab|3
uplow Aa 1; uplow Bb 12; always ab 3; always AB 4; always Ab 4; word AB 3; word ab 3|ab|
uplow Aa 1; uplow Bb 12; always ab 3; word AB 3; word ab 4|ab|4
digit 1 2; litdigit 1 2; letter a 1; numericmodechars a; numericnocontchars a|1|
digit 1 2; litdigit 1 2; letter a 1; numericmodechars a; numericnocontchars a|1a|4,5
digit 1 2; litdigit 1 2; letter a 1; begnum a1 3|1|
digit 1 2; litdigit 1 2; letter a 1; begnum a1 3; midnum a 3; endnum 11 3|1a|4,5,6
digit 1 2|1|
digit 1 2; - numsign 9|1|1,2
digit 1 2; litdigit 1 2; - nonumsign 9; numsign 3456|1|3
digit 1 2; letter a 1; numsign 3456|a|
uplow Aa 1; begcapsword 6-6|a|
uplow Aa 1; begcapsword 6-6|A|2
uplow Aa 1; begcapsword 6-6; endcapsword 6-3; capsletter 6|A|
uplow Aa 1; letter b 2; begcapsword 6-6; endcapsword 6-3; capsletter 6|Ab|3
uplow Aa 1; begcapsword 6-6; endcapsword 6-3; capsign 6; prfword aa 3; begword aa 3|a|
uplow Aa 1; begcapsword 6-6; endcapsword 6-3; capsign 6; prfword aa 3; begword aa 3|A|5
uplow Aa 1; prfword aa 3|A|
letter a 1; nofor always a 1; noback word aa 3|a|
uplow Aa 1; uplow Bb 12; contraction ab|ab|
uplow Aa 1; uplow Bb 12; contraction ab|Ab|3
uplow Aa 1; uplow Bb 12; contraction ab|A|
uplow Aa 1; contraction a|a|
uplow Aa 1; contraction a|A|2
letter a 1; always a 2; contraction a|a|3
letter a 1; contraction a; always a 2|a|
letter a 1; nocontractsign 4; - letsign 56; contraction a 7; - pass2 @4 @3; - pass2 @56 @3; - pass2 @7 @3|a|3,5,6
letter a 1; nocontractsign 4; - noletsign a; - letsign 56; - pass2 @4 @3; - pass2 @56 @3|a|
letter a 1; letter b 12; nocontractsign 4; contraction b; - pass2 @4 @3|a|
letter a 1; letter b 12; nocontractsign 4; contraction b; - pass2 @4 @3|b|5
";

/// A kept line with `letsign`, which a cut rewrites, and lines beside it.
const LETSIGN: &str = "\
letter a 1; space \\s 0; punctuation . 2; digit 1 3; letsign 56|a|
letter a 1; space \\s 0; punctuation . 2; digit 1 3; letsign 56|a.|
letter a 1; space \\s 0; punctuation . 2; digit 1 3; letsign 56|a1|5
letter a 1; space \\s 0; punctuation . 2; digit 1 3; letsign 56|1.|
letter a 1; letter b 2; space \\s 0; digit 1 3; letsign 56; - noletsign a|a1|
letter a 1; letter b 2; space \\s 0; digit 1 3; letsign 56; - noletsign a|b1|5
letter a 1; space \\s 0; punctuation . 2; letsign 56; - noletsignbefore .|a.|4
letter a 1; space \\s 0; punctuation . 2; letsign 56; - noletsignafter .|a.|4
letter a 1; space \\s 0; punctuation a 1; letsign 56|a|4
uplow Aa 1; space \\s 0; letsign 56|a|
uplow Aa 1; space \\s 0; letsign 56|A|3
letter a 1; letsign 56|a|2
letter a 1; space \\s 0; - letsign 4; letsign 56|a|
letter a 1; space \\s 0; letsign 56; - pass2 @56 @3|a|4
letter a 1; space \\s 0; letsign 56; - noletsign a; - pass2 @56 @3|a|
letter a 1; letter b 2; space \\s 0; sufword a 3; prfword b 3; letsign 56; sufword b 4|a|4
letter a 1; letter b 2; space \\s 0; sufword a 3; prfword b 3; letsign 56; sufword b 4|b|5
letter a 1; letter b 2; space \\s 0; - noletsign ab; sufword a 3; prfword b 3; letsign 56|ab|
letter a 1; space \\s 0; sufword a 3; word a 4; letsign 56|a|
letter a 1; space \\s 0; punctuation . 2; always a. 3; prfword a. 3; begmidword a.a 3; partword a. 3; letsign 56|a.|4,5,6,7
letter a 1; space \\s 0; punctuation . 2; word a. 3; sufword a. 3; begword a. 3; endword a. 3; midword a. 3; letsign 56|a.|
letter a 1; space \\s 0; punctuation . 2; always a. 3; always aa 3; always .a 3; - noletsign a; letsign 56|a.|
letter a 1; space \\s 0; punctuation . 2; always a. 3; letsign 56|a|
letter a 1; space \\s 0; punctuation . 2; always a. 3; - letsign 56|a.|5
";

#[test]
fn kept_letsign_acts(rt: HostRuntime) -> Result<(), Fail> {
    for_rows_of_3(rt.alloc(), LETSIGN, acting_in)
}

#[test]
fn definitions_act(rt: HostRuntime) -> Result<(), Fail> {
    for_rows_of_3(rt.alloc(), DEFINITIONS, acting_in)
}

#[test]
fn pairs_act(rt: HostRuntime) -> Result<(), Fail> {
    for_rows_of_3(rt.alloc(), PAIRS, acting_in)
}

#[test]
fn classes_act(rt: HostRuntime) -> Result<(), Fail> {
    for_rows_of_3(rt.alloc(), CLASSES, acting_in)
}

#[test]
fn rules_act(rt: HostRuntime) -> Result<(), Fail> {
    for_rows_of_3(rt.alloc(), RULES, acting_in)
}

#[test]
fn tests_act(rt: HostRuntime) -> Result<(), Fail> {
    for_rows_of_3(rt.alloc(), TESTS, acting_in)
}

#[test]
fn some_never_act(rt: HostRuntime) -> Result<(), Fail> {
    for_rows_of_3(rt.alloc(), NEVER, acting_in)
}

#[test]
fn indicators_act(rt: HostRuntime) -> Result<(), Fail> {
    for_rows_of_3(rt.alloc(), INDICATORS, acting_in)
}

#[test]
fn other_lines_act(rt: HostRuntime) -> Result<(), Fail> {
    for_rows_of_3(rt.alloc(), OTHERS, acting_in)
}

#[test]
fn kept_lines_act(rt: HostRuntime) -> Result<(), Fail> {
    for_rows_of_3(rt.alloc(), KEPT, acting_in)
}

#[test]
fn a_line_that_goes_on_acts(rt: HostRuntime) -> Result<(), Fail> {
    let field = "letter a 1; - display a 1; - display a 1";
    assert_eq!(rt; acting_numbers(rt.alloc(), field, &['a'], 2)?.as_str(), "2");
    Ok(())
}

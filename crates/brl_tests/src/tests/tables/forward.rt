//! Worked translations, clashes and traces. More of them are in `program`, by what the
//! program prints.
use brl_cells::write_dots;
use brl_failure::Failure;
use brl_forward::{Clash, ConfirmFault, ForwardFault, Side, Traced, confirm, trace, translate};
use brl_rules::Table;
use brl_testing::{agree, chars, for_tables_of_3, for_tables_of_4, with_table};
use std::alloc::Global;
use std::test::Fail;

/// A table's lines, a text and the dots of its translation.
const TRANSLATIONS: &str = "\
letter a 1; letter b 12; letter x 1-12; always ab 14|aab|1-14
space \\s 0; letter b 12; letter u 136; letter t 2345; word but 12; word b 56-12|b but|56-12-0-12
letter a 1; letter b 12; always ab 14; word ab 15|ab|15
letter a 1; letter b 12; always ab 14; word ab 15|aab|1-14
letter a 1; letter b 12; always ab 14; word a 15|ab|14
letter a 1; letter b 12; always a 14; always ab 15|ab|15
uplow Aa 1; uplow Bb 12; capsletter 6; endcapsword 6-3|ABb|6-1-6-12-12
uplow Aa 1; litdigit 2 12; numsign 3456; begcapsword 6-6; endcapsword 6-3|AA2A|6-6-1-1-3456-12-1
uplow Aa 1; uplow \u{c4}a 1; begcapsword 6-6; always aa 14|\u{c4}A|6-6-14
";

/// A table's lines, two texts and the dots of their clash, or nothing.
const CLASHES: &str = "\
letter a 1; letter b 12; letter x 1-12|ab|x|1-12
letter a 1; letter b 12; letter x 1-12|ab|ab|
letter a 1; letter b 12; letter x 1-12; always ab 14|ab|x|
letter a 1; litdigit 1 1; numsign 3456|1a|11|3456-1-1
letter a 1; litdigit 1 1; numsign 3456; nocontractsign 56; numericnocontchars a|1a|11|
uplow Aa 1|A|a|1
uplow Aa 1; uplow Bb 12; capsletter 6; always ab 14|A|a|
uplow Aa 1; uplow Bb 12; uplow Cc 14; capsletter 6; begcapsword 6-6|ABc|ABC|6-6-1-12-14
uplow Aa 1; uplow Bb 12; uplow Cc 14; capsletter 6; begcapsword 6-6; endcapsword 6-3|ABc|ABC|
";

/// A table's lines, a text and its steps: start, rule, length, how many indicators, dots.
const TRACES: &str = "\
letter a 1; letter b 12; letter x 1-12; always ab 14|aab|0 1 1 0 1,1 0 2 0 14,
uplow Aa 1; uplow Bb 12; capsletter 6; always ab 14|aB|0 2 1 0 1,1 3 1 1 6-12,
uplow Aa 1; uplow Bb 12; capsletter 6; begcapsword 6-6; endcapsword 6-3; always ab 14|ABb|0 0 2 2 6-6-14,2 4 1 2 6-3-12,
";

/// The dots of the translation of a text.
fn translated(alloc: Global, table: &Table, text: &str) -> Result<String, Fail> {
    let cells = translate(alloc, table, chars(alloc, text)?.as_slice())?;
    Ok(write_dots(alloc, cells.as_slice())?)
}

#[test]
fn worked_translations(rt: HostRuntime) -> Result<(), Fail> {
    for_tables_of_3(rt.alloc(), TRANSLATIONS, translated)
}

/// The dots of a clash of two texts, or nothing where there is none. Its texts are theirs.
fn clashing(alloc: Global, table: &Table, left: &str, right: &str) -> Result<String, Fail> {
    let left = chars(alloc, left)?;
    let right = chars(alloc, right)?;
    match confirm(alloc, table, left.as_slice(), right.as_slice())? {
        Some(clash) => clash_text(alloc, &clash, left.as_slice(), right.as_slice()),
        None => Ok(String::new(alloc)),
    }
}

/// The dots of a clash that has these texts.
fn clash_text(alloc: Global, clash: &Clash, left: &[char], right: &[char]) -> Result<String, Fail> {
    if clash.left() != left || clash.right() != right {
        return Err(Fail::from("the texts are others"));
    }
    Ok(write_dots(alloc, clash.cells())?)
}

#[test]
fn worked_clashes(rt: HostRuntime) -> Result<(), Fail> {
    for_tables_of_4(rt.alloc(), CLASHES, clashing)
}

/// A step's fields, as rows of traces have them.
fn step_text(alloc: Global, step: &Traced) -> Result<String, Fail> {
    let dots = write_dots(alloc, step.cells.as_slice())?;
    Ok(format!(in alloc;
        "{} {} {} {} {dots},",
        step.start, step.rule, step.length, step.indicators
    )?)
}

fn steps_text(alloc: Global, steps: &[Traced]) -> Result<String, Fail> {
    let mut text = String::new(alloc);
    for step in steps {
        text.push_str(step_text(alloc, step)?.as_str())?;
    }
    Ok(text)
}

/// The steps of a text, each with a comma after it.
fn traced(alloc: Global, table: &Table, text: &str) -> Result<String, Fail> {
    let steps = trace(alloc, table, chars(alloc, text)?.as_slice())?;
    steps_text(alloc, steps.as_slice())
}

#[test]
fn worked_traces(rt: HostRuntime) -> Result<(), Fail> {
    for_tables_of_3(rt.alloc(), TRACES, traced)
}

/// Whether the translation and the trace of `az` have a fault at the `z`, and comparisons have one
/// at a character of either text.
fn are_unknown(alloc: Global, table: &Table) -> bool {
    let unknown = Some(Failure::Fault(ForwardFault::UnknownChar(1)));
    let left = Some(Failure::Fault(ConfirmFault::UnknownChar(Side::Left, 0)));
    let right = Some(Failure::Fault(ConfirmFault::UnknownChar(Side::Right, 1)));
    translate(alloc, table, &['a', 'z']).err() == unknown
        && trace(alloc, table, &['a', 'z']).err() == unknown
        && confirm(alloc, table, &['z'], &['y']).err() == left
        && confirm(alloc, table, &['a'], &['a', 'z']).err() == right
}

#[test]
fn unknown_characters(rt: HostRuntime) -> Result<(), Fail> {
    let alloc = rt.alloc();
    assert!(rt; with_table(alloc, "letter a 1", |table| Ok(are_unknown(alloc, table)))?);
    Ok(())
}

#[test]
fn faults_are_printed(rt: HostRuntime) -> Result<(), Fail> {
    let unknown = ConfirmFault::UnknownChar(Side::Right, 7);
    let text = format!(in rt.alloc(); "{}, {unknown}", ForwardFault::UnknownChar(1))?;
    agree(
        "faults",
        text.as_str(),
        "F1 UnknownChar 1, F1 UnknownChar 7 at right",
    )
}

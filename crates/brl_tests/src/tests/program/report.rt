//! Worked reports.
use brl_forward::confirm;
use brl_lines::{Line, Loaded};
use brl_report::{report, survey_report, trace_report};
use brl_rules::Table;
use brl_table::survey;
use brl_testing::{
    chars, field_of, for_rows_of_2, for_tables_of_3, for_tables_of_4, lend, loaded_of,
};
use std::alloc::Global;
use std::test::Fail;

/// A table's lines, two texts and the lines of the report.
const REPORTS: &str = "\
letter a 1; letter b 12; letter x 1-12|ab|x|left: ab; right: x; cells: 1-12; left from 0:;   a  1   t.ctb:1;   b  12  t.ctb:2; right from 0:;   x  1-12  t.ctb:3
letter \u{56fd} 1; letter b 12; letter x 1-12|\u{56fd}b|x|left: \u{56fd}b; right: x; cells: 1-12; left from 0:;   \u{56fd}  1   t.ctb:1;   b   12  t.ctb:2; right from 0:;   x  1-12  t.ctb:3
";

/// The report of two texts that clash.
fn report_of(alloc: Global, table: &Table, left: &[char], right: &[char]) -> Result<String, Fail> {
    match confirm(alloc, table, left, right)? {
        Some(clash) => Ok(report(alloc, table, &clash)?),
        None => Err(Fail::from("no clash")),
    }
}

fn reported(alloc: Global, table: &Table, left: &str, right: &str) -> Result<String, Fail> {
    let left = chars(alloc, left)?;
    let right = chars(alloc, right)?;
    let text = report_of(alloc, table, left.as_slice(), right.as_slice())?;
    field_of(alloc, text.as_str())
}

#[test]
fn worked_reports(rt: HostRuntime) -> Result<(), Fail> {
    for_tables_of_4(rt.alloc(), REPORTS, reported)
}

/// A table's lines, a text and the lines of its report.
const TRACES: &str = "\
letter a 1; letter b 12|ab|text: ab; cells: 1-12;   a  -  1   t.ctb:1;   b  -  12  t.ctb:2
letter a 1||text: ; cells: \n\
uplow Aa 1; capsletter 6; litdigit 1 1; numsign 3456|Aa1|text: Aa1; cells: 6-1-1-3456-1;   A  6     1  t.ctb:1;   a  -     1  t.ctb:1;   1  3456  1  t.ctb:3
uplow Aa 1; uplow Bb 12; uplow Cc 14; capsletter 6; begcapsword 6-6; endcapsword 6-3; always ab 1456|ABc|text: ABc; cells: 6-6-1456-6-3-14;   AB  6-6  1456  t.ctb:7;   c   6-3  14    t.ctb:3
space \\s 0; punctuation \\\\ 12| \\|text: \\s\\\\; cells: 0-12;   \\s  -  0   t.ctb:1;   \\\\  -  12  t.ctb:2
letter \u{56fd} 1; letter b 12|\u{56fd}b|text: \u{56fd}b; cells: 1-12;   \u{56fd}  -  1   t.ctb:1;   b   -  12  t.ctb:2
";

fn traced(alloc: Global, table: &Table, text: &str) -> Result<String, Fail> {
    let text = chars(alloc, text)?;
    field_of(
        alloc,
        trace_report(alloc, table, &[], text.as_slice())?.as_str(),
    )
}

#[test]
fn worked_traces(rt: HostRuntime) -> Result<(), Fail> {
    for_tables_of_3(rt.alloc(), TRACES, traced)
}

/// Lines, and those of the report of their survey.
const SURVEYS: &str = "\
|no line defines a character; 0 of 0 lines are read
letter a 1|1 of 1 lines are read
letter a 1; pass2 @1 @2; letter b 9; pass2 @2 @3|B1 OutsideProfile pass2 at t.ctb:2; B4 BadDots 9 at t.ctb:3; B1 OutsideProfile pass2 at t.ctb:4; opcode pass2: 2 (not in the profile); opcode letter: 1; file t.ctb: 1 of 4 lines are read; undefined characters (B5 to B7) are looked for once no line has another fault; 1 of 4 lines are read
zeta; context; noback sign x 1; nofor zeta; noback word x 9; letter a 1|B1 OutsideProfile zeta at t.ctb:1; B1 OutsideProfile context at t.ctb:2; B1 OutsideProfile sign at t.ctb:3; B1 OutsideProfile zeta at t.ctb:4; B4 BadDots 9 at t.ctb:5; opcode context: 1 (not in the profile); opcode noback sign: 1 (not in the profile); opcode noback word: 1; opcode nofor zeta: 1 (not in liblouis); opcode zeta: 1 (not in liblouis); file t.ctb: 1 of 6 lines are read; undefined characters (B5 to B7) are looked for once no line has another fault; 1 of 6 lines are read
b x; a x; b y; c z; a w; b q|B1 OutsideProfile b at t.ctb:1; B1 OutsideProfile a at t.ctb:2; B1 OutsideProfile b at t.ctb:3; B1 OutsideProfile c at t.ctb:4; B1 OutsideProfile a at t.ctb:5; B1 OutsideProfile b at t.ctb:6; opcode b: 3 (not in liblouis); opcode a: 2 (not in liblouis); opcode c: 1 (not in liblouis); file t.ctb: 0 of 6 lines are read; undefined characters (B5 to B7) are looked for once no line has another fault; no line defines a character; 0 of 6 lines are read
letter a 1; always ab 2; word a 3; nofor always c 4|B5 UndefinedInRule ab at t.ctb:2; B5 UndefinedInRule c at t.ctb:4; opcode always: 1; opcode nofor always: 1; file t.ctb: 2 of 4 lines are read; 2 of 4 lines are read
";

/// Brief reports of surveys.
const BRIEF_SURVEYS: &str = "\
letter a 1|1 of 1 lines are read
letter a 1; pass2 @1 @2; letter b 9|opcode letter: 1; opcode pass2: 1 (not in the profile); file t.ctb: 1 of 3 lines are read; undefined characters (B5 to B7) are looked for once no line has another fault; 1 of 3 lines are read
letter a 1; always ab 2|opcode always: 1; file t.ctb: 1 of 2 lines are read; 1 of 2 lines are read
";

fn surveyed_lines(
    alloc: Global,
    lines: &[Line<'_>],
    paths: &[&str],
    brief: bool,
) -> Result<String, Fail> {
    let text = lend(
        survey(alloc, lines)?,
        |found| survey_report(alloc, found, lines, paths, brief),
    )?;
    field_of(alloc, text.as_str())
}

fn surveyed(alloc: Global, loaded: &Loaded, brief: bool) -> Result<String, Fail> {
    let lines = loaded.lines(alloc)?;
    let paths = loaded.paths(alloc)?;
    surveyed_lines(alloc, lines.as_slice(), paths.as_slice(), brief)
}

fn surveyed_of(alloc: Global, field: &str, brief: bool) -> Result<String, Fail> {
    lend(
        loaded_of(alloc, field)?,
        |loaded| surveyed(alloc, loaded, brief),
    )
}

#[test]
fn worked_surveys(rt: HostRuntime) -> Result<(), Fail> {
    for_rows_of_2(
        rt.alloc(),
        SURVEYS,
        |alloc, field| surveyed_of(alloc, field, false),
    )?;
    for_rows_of_2(
        rt.alloc(),
        BRIEF_SURVEYS,
        |alloc, field| surveyed_of(alloc, field, true),
    )
}

//! The slips, habits and twins of tables in memory.
use brl_testing::{files_of, for_rows_of_2};
use brl_tool::list_slips_by_file;
use std::alloc::Global;
use std::test::Fail;

/// Files, and the lines of the answer for `t.ctb`: each kind at its bounds, ties, pieces of lines
/// that aren't read, habits, twins and the order.
const SLIPS: &str = "\
t.ctb: letter a 1; letter b 12; letter c 14; letter d 145; word abcd 1-12-14-5|likely slips: 1 line / t.ctb / 5 word abcd  cell 4 is 5 for 145 d
t.ctb: letter a 1; letter b 12; letter c 14; letter d 145; word abc 1-12-5|no likely slips
t.ctb: letter a 1; letter b 12; letter c 14; letter d 145; word abc 1-12-14-5|no likely slips
t.ctb: letter a 1; letter b 12; letter c 14; letter d 145; word abcd 1-12-14-145|no likely slips
t.ctb: letter a 1; letter b 12; letter c 14; letter d 145; word abcd 56-1-12-14-145|no likely slips
t.ctb: letter a 1; letter b 12; letter c 14; letter d 145; word abcd 56-6-1-12-14-145|no likely slips
t.ctb: letter a 1; letter b 12; letter c 14; letter d 145; word abcd 56-6-5-1-12-14-145|no likely slips
t.ctb: letter a 1; letter b 12; letter c 14; letter d 145; word abcd 1-14-12-145|likely slips: 1 line / t.ctb / 5 word abcd  cells 2 and 3 are exchanged: 14 c, 12 b
t.ctb: letter a 1; letter b 12; letter c 14; letter d 145; word abcd 1-12-6-14-145|likely slips: 1 line / t.ctb / 5 word abcd  cell 3, 6, is too many
t.ctb: letter a 1; letter b 12; letter c 14; letter d 145; word abcda 1-12-145-1|no likely slips
t.ctb: letter a 1; letter b 12; letter c 14; letter d 145; word abcdab 1-12-145-1-12|likely slips: 1 line / t.ctb / 5 word abcdab  no 14 c before cell 3
t.ctb: letter a 1; letter b 12; letter c 14; letter d 145; word abcdab 1-12-14-145-1|likely slips: 1 line / t.ctb / 5 word abcdab  no 12 b before cell 6
t.ctb: letter a 1; letter b 12; letter c 14; letter d 145; word abbbcd 1-12-12-14-145|likely slips: 1 line / t.ctb / 5 word abbbcd  no 12 b before cell 2
t.ctb: letter a 1; letter b 12; letter c 14; letter d 145; word abcd 1-12-12-14-145|likely slips: 1 line / t.ctb / 5 word abcd  cell 2, 12 b, is too many
t.ctb: letter a 1; letter b 12; letter c 14; letter d 145; word abcdabc 1-12-14-5-1-12-5|likely slips: 1 line / t.ctb / 5 word abcdabc  cell 4 is 5 for 145 d; cell 7 is 5 for 14 c
t.ctb: letter a 1; letter b 12; letter c 14; letter d 145; word abcdab 1-12-14-5-1-5|no likely slips
t.ctb: letter a 1; letter b 12; letter c 14; letter d 145; always bc 2-3; word abcd 1-2-14-145|likely slips: 1 line / t.ctb / 6 word abcd  cell 3 is 14 c for 3
t.ctb: letter a 1; letter b 12; letter c 14; letter d 145; always ab 1-2; word ab 1-3; word abcd 1-6-14-145|likely slips: 1 line / t.ctb / 7 word abcd  cell 2 is 6 for 2
t.ctb: letter a 1; letter b 12; letter c 14; letter d 145; word abcd 1-12-14-5; always abcd 1-12-14-145|likely slips: 1 line / t.ctb / 5 word abcd  cell 4 is 5 for 145 d
t.ctb: letter a 1; letter b 12; letter c 14; letter d 145; nofor word abc 2-3; word abcda 2-3-145-5|likely slips: 1 line / t.ctb / 6 word abcda  cell 4 is 5 for 1 a
t.ctb: letter a 1; letter b 12; letter c 14; letter d 145; largesign ab 2-3; match % cd % 5-6; before x nocross always da 2; word abcdda 2-3-5-6-6|likely slips: 1 line / t.ctb / 8 word abcdda  cell 5 is 6 for 2 da
t.ctb: letter a 1; letter b 12; letter c 14; letter d 145; largesign abcd 1-12-14-5; match % abcda % 1-12-14-5-1; nofor word abcdb 1-12-14-5-12; nocross always abcdd 1-12-14-5-145|no likely slips
t.ctb: letter a 1; letter b 12; letter c 14; letter d 145; sign + 346; word abc+d 1-12-14-346-5|no likely slips
t.ctb: letter a 1; letter b 12; letter c 14; letter d 145; word abcxd 1-12-14-346-5|no likely slips
t.ctb: letter a 1; letter b 12; letter c 14; letter d 145; uplow Ee 15,5; base uppercase A a; word AbcE 1-12-14-6|likely slips: 1 line / t.ctb / 7 word abce  cell 4 is 6 for 5 e
t.ctb: letter a 1; letter b 12; word abab =; always bab 4-4; word aabab 1-1-12-1-6|likely slips: 1 line / t.ctb / 5 word aabab  cell 5 is 6 for 12 b
t.ctb: letter a 1; letter b 12; letter c 14; letter d 145; word abcda 1-12-6-145-1; word bacdb 12-1-6-145-12; word dbcab 145-12-6-1-12|likely slips: 3 lines / t.ctb / 5 word abcda  cell 3 is 6 for 14 c / 6 word bacdb  cell 3 is 6 for 14 c / 7 word dbcab  cell 3 is 6 for 14 c
t.ctb: letter a 1; letter b 12; letter c 14; letter d 145; word abcda 1-12-6-145-1; word bacdb 12-1-6-145-12; word dbcab 145-12-6-1-12; word bbcdd 12-12-6-145-145; word accda 1-14-6-145-1|no likely slips / 5 lines alike, perhaps meant: 6 for 14 c, as t.ctb:5 abcda
t.ctb: letter a 1; letter b 12; letter c 14; letter d 145; word abcd 1-12-14-5; word abcdabc 1-12-14-2-1-12-3; word ab 36-36; word ad 36-36; word bcdba 12-14-145-1; word bcdbad 12-14-145-6-1-145; word dcba 145-14-12-4; word dcbaa 145-14-12-1-4|likely slips: 6 lines / t.ctb / 10 word bcdbad   cell 4 is 6 for 12 b / 12 word dcbaa    cell 5 is 4 for 1 a / 7 word ab, 8 ad  same cells; b 12, d 145 / 5 word abcd      cell 4 is 5 for 145 d / 11 word dcba     cell 4 is 4 for 1 a / 6 word abcdabc   cell 4 is 2 for 5; cell 7 is 3 for 14 c
t.ctb: letter a 1; letter b 12; letter c 14; letter d 145; word ab 36-36; word ac 36-36; word ad 36-36|likely slips: 3 lines / t.ctb / 5 word ab, 6 ac  same cells; b 12, c 14 / 5 word ab, 7 ad  same cells; b 12, d 145 / 6 word ac, 7 ad  same cells; c 14, d 145
t.ctb: letter a 1; letter b 12; letter c 14; letter d 145; word ab 36-36; word ac 36-36; word ad 36-36; word aa 36-36|no likely slips
t.ctb: letter a 1; letter b 1; word ca 36-36; letter c 14; word cb 36-36|no likely slips
t.ctb: letter a 1; letter b 12; letter c 14; letter d 145; word ab 36; word ad 36|no likely slips
t.ctb: letter a 1; letter b 12; letter c 14; letter d 145; word ab 36-36; word aba 36-36|no likely slips
t.ctb: letter a 1; letter b 12; letter c 14; letter d 145; word ab 2-2; word ad 2-2; word cb 3-2; word cd 3-2; word db 4-2; word dd 4-2; word bb 5-2; word bd 5-2|no likely slips";

/// The lines of a text, without the blanks before them.
fn in_a_row(alloc: Global, text: &str) -> Result<String, Fail> {
    let mut row = String::new(alloc);
    for (number, line) in text.lines().enumerate() {
        if number > 0 {
            row.push_str(" / ")?;
        }
        row.push_str(line.trim_start())?;
    }
    Ok(row)
}

/// The lines of the answer for files.
fn lines_for(alloc: Global, files: &str) -> Result<String, Fail> {
    let mut source = files_of(alloc, files)?;
    match list_slips_by_file(alloc, &mut source, "t.ctb", false) {
        Ok(answer) => in_a_row(alloc, answer.text.as_str()),
        Err(_) => Err(Fail::new(format_args!("no answer"))),
    }
}

#[test]
fn are_listed(rt: HostRuntime) -> Result<(), Fail> {
    for_rows_of_2(rt.alloc(), SLIPS, lines_for)
}

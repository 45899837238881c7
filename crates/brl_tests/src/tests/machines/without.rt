//! Worked tables without some of their characters.
use crate::tests::machines::accept::{answer_text, judge_scoped};
use brl_cert::Cert;
use brl_closure::accept;
use brl_dues::Dues;
use brl_forward::Clash;
use brl_pairs::{Body, Excused, Machine};
use brl_progress::NoProgress;
use brl_rules::Table;
use brl_search::{Found, Searched, search_table};
use brl_states::DuesState;
use brl_testing::{bytes_of, chars, for_rows_of_4, for_tables_of_3, one_file};
use brl_without::{LeftOut, Scope, Without};
use std::alloc::Global;
use std::test::Fail;

/// A table's lines, the characters that are left out, and what is found.
const SEARCHES: &str = "\
space \\s 0; space \\x00a0 0; letter a 1||clashing: 1 and 1 characters
space \\s 0; space \\x00a0 0; letter a 1|\u{a0}|certified: 2 states, 0 pairs
space \\s 0; space \\x00a0 0; letter a 1| |certified: 2 states, 0 pairs
letter a 1; letter b 12; letter c 14; letter x 1-12-14||clashing: 1 and 3 characters
letter a 1; letter b 12; letter c 14; letter x 1-12-14|c|certified: 2 states, 2 pairs
letter a 1; letter b 12; letter c 14; letter x 1-12-14|x|certified: 2 states, 0 pairs
letter a 1; letter b 12; letter c 14; letter d 145; always abc 145|b|certified: 3 states, 0 pairs
letter a 1; letter b 12; letter c 14; letter d 145; always abc 145|bd|certified: 3 states, 0 pairs
letter a 1; letter b 12; letter c 14; letter d 145; always abc 145|abcd|certified: 1 states, 0 pairs
uplow Aa 1|A|certified: 2 states, 0 pairs
";

/// The characters of a field.
fn left_out_of(alloc: Global, field: &str) -> Result<LeftOut, Fail> {
    Ok(LeftOut::new(alloc, chars(alloc, field)?)?)
}

/// What the checker answers for the states and pairs that were found.
fn told_of_body(
    alloc: Global,
    table: &Table,
    left_out: &LeftOut,
    body: &Body<DuesState>,
) -> Result<String, Fail> {
    let dues = Dues::new(alloc, table);
    let machine = Without::new(&dues, left_out);
    let answer = answer_text(alloc, accept(alloc, &machine, body))?;
    Ok(format!(in alloc; "certified: {answer}")?)
}

/// How many characters the texts of a clash have, the shorter first, where they use none of these.
fn told_of_clash(alloc: Global, left_out: &LeftOut, clash: &Clash) -> Result<String, Fail> {
    if !left_out.is_unused_in(clash.left()) || !left_out.is_unused_in(clash.right()) {
        return Ok(String::from_str(alloc, "they are used")?);
    }
    let left = clash.left().len();
    let right = clash.right().len();
    let (less, more) = (left.min(right), left.max(right));
    Ok(format!(in alloc; "clashing: {less} and {more} characters")?)
}

/// What is found, in words.
fn told_of_found(
    alloc: Global,
    table: &Table,
    left_out: &LeftOut,
    found: &Searched,
) -> Result<String, Fail> {
    match found {
        Searched::Found(Found::Certified(Cert::Word(body))) => {
            told_of_body(alloc, table, left_out, body)
        }
        Searched::Found(Found::Clashing(clash)) => told_of_clash(alloc, left_out, clash),
        _ => Ok(String::from_str(alloc, "neither")?),
    }
}

fn told_of(alloc: Global, table: &Table, left_out: &str) -> Result<String, Fail> {
    let left_out = left_out_of(alloc, left_out)?;
    let excused = Excused::nothing(alloc);
    let scope = Scope {
        left_out: &left_out,
        excused: &excused,
        progress: &mut NoProgress,
    };
    let found = search_table(alloc, table, 1_000_000, scope)?;
    told_of_found(alloc, table, &left_out, &found)
}

#[test]
fn worked_searches(rt: HostRuntime) -> Result<(), Fail> {
    for_tables_of_3(rt.alloc(), SEARCHES, told_of)
}

/// A table's lines, the characters that are left out, and how many steps the start of the table's
/// machine has then.
const STEPS: &str = "\
letter a 1; letter b 12; letter c 14; always abc 145||4
letter a 1; letter b 12; letter c 14; always abc 145|a|2
letter a 1; letter b 12; letter c 14; always abc 145|b|2
letter a 1; letter b 12; letter c 14; always abc 145|c|2
letter a 1; letter b 12; letter c 14; always abc 145|ac|1
letter a 1; letter b 12; letter c 14; always abc 145|abc|0
letter a 1; letter b 12; letter c 14; always abc 145|z|4
";

/// How many steps the start of a table's machine has without these characters.
fn step_count(alloc: Global, table: &Table, left_out: &str) -> Result<String, Fail> {
    let left_out = left_out_of(alloc, left_out)?;
    let dues = Dues::new(alloc, table);
    let machine = Without::new(&dues, &left_out);
    let steps = machine.moves(alloc, &machine.start())?;
    Ok(format!(in alloc; "{}", steps.len())?)
}

#[test]
fn worked_steps(rt: HostRuntime) -> Result<(), Fail> {
    for_tables_of_3(rt.alloc(), STEPS, step_count)
}

/// The bytes of a table, the characters that are left out, the bytes of a certificate, and what is
/// answered for them.
const JUDGED: &str = "\
letter a 1;letter b 12;letter x 1-12|x|BRLCERT 3;state 1 0 0;state 8 0 0;end 2 0;|2 states, 0 pairs
letter a 1;letter b 12;letter x 1-12||BRLCERT 3;state 1 0 0;state 8 0 0;end 2 0;|A3 SplitMissing state 0 rules 0 2
letter a 1;letter b 12;letter x 1-12|a|BRLCERT 3;state 1 0 0;end 1 0;|A2 StateMissing state 0 rule 1
letter a 1;letter b 12;letter x 1-12|abx|BRLCERT 3;state 1 0 0;end 1 0;|1 states, 0 pairs
letter a 1;letter b 12;letter x 1-12|abx|BRLCERT 3;end 0 0;|A1 NoStart
letter a 1;letter b 12;letter x 1-12|az|BRLCERT 3;end 0 0;|U8 UndefinedLeftOut z
letter a 1|\\t|BRLCERT 9;|U8 UndefinedLeftOut \\\\
pass2 @1 @2|z|BRLCERT 9;|B1 OutsideProfile pass2 at t.ctb:1
";

/// What is answered for a certificate and a table without these characters.
fn judged(alloc: Global, table: &str, left_out: &str, cert: &str) -> Result<String, Fail> {
    let left_out = left_out_of(alloc, left_out)?;
    let table = bytes_of(alloc, table)?;
    let mut source = one_file(alloc, "t.ctb", table.as_slice())?;
    let cert = bytes_of(alloc, cert)?;
    let cert = cert.as_slice();
    let excused = Excused::nothing(alloc);
    let scope = Scope {
        left_out: &left_out,
        excused: &excused,
        progress: &mut NoProgress,
    };
    let judged = judge_scoped(alloc, &mut source, cert, scope);
    answer_text(alloc, judged)
}

#[test]
fn worked_certificates(rt: HostRuntime) -> Result<(), Fail> {
    for_rows_of_4(rt.alloc(), JUDGED, judged)
}

//! Worked certificates, judged. Certificates and files are fields of bytes.
use brl_accept::{Accepted, JudgeFault, judge, judge_table};
use brl_failure::{Failure, raise};
use brl_lines::MapSource;
use brl_progress::Progress;
use brl_table::load_table;
use brl_testing::{add_file, agree, bytes_of, for_rows_of_2, for_rows_of_3, no_files};
use brl_without::Scope;
use std::alloc::Global;
use std::fmt::{Display, Write};
use std::test::Fail;

/// A certificate, and what is answered for it and the table `letter a 1`.
const CERTIFICATES: &str = "\
BRLCERT 1;state 1 0 0 -;state 8 0 0 61;state 8 0 1 -;pair 1 2 -;end 3 1;|3 states, 1 pairs
BRLCERT 1;end 0 0;|A1 NoStart
BRLCERT 1;state 8 0 0 61;state 8 0 1 -;end 2 0;|A1 NoStart
BRLCERT 1;state 1 0 0 -;end 1 0;|A2 StateMissing state 0 rule 0
BRLCERT 1;state 1 0 0 -;state 8 0 0 61;end 2 0;|A2 StateMissing state 0 rule 0
BRLCERT 1;state 1 0 0 -;state 8 0 0 61.61.61;state 8 0 0 61;state 8 0 1 -;end 4 0;|A2 StateMissing state 1 rule 0
BRLCERT 1;state 1 0 0 -;state 8 0 0 61;state 8 0 1 -;end 3 0;|A3 SplitMissing state 0 rules 0 0
BRLCERT 1;state 1 0 0 -;state 8 0 0 61;state 8 0 1 -;pair 2 1 -;end 3 1;|A4 PairMissing pair 0 rule 0
BRLCERT 1;state 1 0 0 -;state 8 0 0 61;state 8 0 1 -;pair 1 2 -;pair 2 2 -;end 3 2;|A5 BothEnd pair 1
BRLCERT 1;state 1 0 0 -;state 8 0 0 61;state 8 0 1 -;pair 1 2 -;|K8 Truncated line 6
BRLCERT 1;state 1 0 0 -;state 8 0 0 061;state 8 0 1 -;pair 1 2 -;end 3 1;|K3 NotCanonical line 3
BRLCERT 1;state 1 0 0 -;state 8 0 0 61;state 8 0 0 61;state 8 0 1 -;pair 1 2 -;end 3 1;|K4 DuplicateState line 4
BRLCERT 1;state 1 0 0 -;state 8 0 0 61;state 8 0 1 -;pair 1 2 -;pair 1 2 -;end 3 1;|K5 DuplicatePair line 6
BRLCERT 1;state 1 0 0 -;state 8 0 0 61;state 8 0 1 -;pair 1 3 -;end 3 1;|K6 NoSuchState line 5
BRLCERT 1;state 1 0 0 -;state 8 0 0 61;state 8 0 1 -;pair 1 2 -;end 3 2;|K7 WrongCount line 6
BRLCERT 9;state 1 0 0 -;state 8 0 0 61;state 8 0 1 -;pair 1 2 -;end 3 1;|K1 Version line 1
BRLCERT 2;state 1 0 0 -;state 8 0 0 61;state 8 0 1 -;pair 1 2 -;end 3 1;|K2 Syntax line 2
";

/// The file of a table, the file that it may include, and what is answered for the table and a
/// certificate of the start alone.
const TABLES: &str = "\
||1 states, 0 pairs
include u.ctb|letter a 1;letter b 1|A2 StateMissing state 0 rule 0
include t.ctb||L4 Cycle t.ctb at t.ctb:1
";

/// The file of a table, a certificate of version 2 or 3, and what is answered for both.
const CERTIFICATES_OF_DUES: &str = "\
|BRLCERT 2;state 1 0;end 1 0;|1 states, 0 pairs
|BRLCERT 3;state 1 0 0;end 1 0;|1 states, 0 pairs
letter a 1;letter b 12|BRLCERT 3;state 1 0 0;state 8 0 0;end 2 0;|2 states, 0 pairs
letter a 1|BRLCERT 3;state 1 0 0;state 8 0 1;end 2 0;|A2 StateMissing state 0 rule 0
|BRLCERT 3;state 1 0 1;end 1 0;|A1 NoStart
|BRLCERT 3;end 0 0;|A1 NoStart
letter a 1;letter b 12;letter x 1-12;always ab 14|BRLCERT 2;state 1 0;state 8 0;state 8 0 b62*;pair 1 2 12;end 3 1;|3 states, 1 pairs
letter a 1;letter b 12;letter x 1-12|BRLCERT 2;state 1 0;state 8 0;state 8 0 b62*;pair 1 2 12;end 3 1;|A3 SplitMissing state 0 rules 0 2
|BRLCERT 2;end 0 0;|A1 NoStart
letter a 1|BRLCERT 2;state 1 0;end 1 0;|A2 StateMissing state 0 rule 0
letter a 1;letter b 12|BRLCERT 2;state 1 0;state 8 0;end 2 0;|2 states, 0 pairs
uplow Aa 1|BRLCERT 2;state 1 0;state 24 0;state 40 0;pair 1 2 -;end 3 1;|A4 PairMissing pair 0 rule 0
uplow Aa 1|BRLCERT 2;state 1 0;state 24 0;state 40 0;pair 1 2 -;pair 1 1 -;pair 2 2 -;pair 2 1 1;pair 1 1 1;pair 2 2 1;pair 1 2 1;end 3 7;|A5 BothEnd pair 0
letter a 1|BRLCERT 2;state 1 0;state 8 0;state 8 0 b62*;pair 1 2 12;|K8 Truncated line 6
pass2 @1 @2|BRLCERT 2;end 0 0;|B1 OutsideProfile pass2 at t.ctb:1
uplow Aa 1;capsletter 6;begcapsword 6-6;endcapsword 6-3|BRLCERT 2;end 0 0;|K9 OldVersion line 1
uplow Aa 1;capsletter 6;begcapsword 6-6;endcapsword 6-3|BRLCERT 1;state 1 0 0 -;end 1 0;|K9 OldVersion line 1
uplow Aa 1;begcapsword 6-6|BRLCERT 2;|K8 Truncated line 2
uplow Aa 1;capsletter 6;begcapsword 6-6;endcapsword 6-3|BRLCERT 3;end 0 0;|A1 NoStart
begcapsword 6-6|BRLCERT 3;state 1 0 0;end 1 0;|1 states, 0 pairs
endcapsword 6-6|BRLCERT 2;state 1 0;end 1 0;|1 states, 0 pairs
letter a 1;punctuation , 2-1;endcapsword 2|BRLCERT 3;state 1 0 0;state 2 0 0;state 8 0 0;state 8 0 1;end 4 0;|4 states, 0 pairs
";

/// The start alone.
const START: &str = "BRLCERT 1;state 1 0 0 -;end 1 0;";

/// The files of a table, the first named `t.ctb` and the second `u.ctb`.
fn files(alloc: Global, root: &str, other: &str) -> Result<MapSource, Fail> {
    let mut files = no_files(alloc);
    add_file(alloc, &mut files, "t.ctb", bytes_of(alloc, root)?)?;
    add_file(alloc, &mut files, "u.ctb", bytes_of(alloc, other)?)?;
    Ok(files)
}

/// Judges a certificate for the table of the file `t.ctb`, for what is asked.
pub fn judge_scoped<W: Progress>(
    alloc: Global,
    source: &mut MapSource,
    cert: &[u8],
    scope: Scope<'_, W>,
) -> Result<Accepted, Failure<JudgeFault>> {
    let table = raise(load_table(alloc, source, "t.ctb"), JudgeFault::NoTable)?;
    judge_table(alloc, &table, cert, scope)
}

/// What is answered, in words.
pub fn answer_text<E: Display + Drop>(
    alloc: Global,
    answer: Result<Accepted, E>,
) -> Result<String, Fail> {
    match answer {
        Ok(accepted) => Ok(format!(in alloc;
            "{} states, {} pairs",
            accepted.states, accepted.pairs
        )?),
        Err(fault) => Ok(format!(in alloc; "{fault}")?),
    }
}

/// What is answered for a certificate and the table of two files.
fn judged(alloc: Global, root: &str, other: &str, cert: &str) -> Result<String, Fail> {
    let mut source = files(alloc, root, other)?;
    let cert = bytes_of(alloc, cert)?;
    answer_text(alloc, judge(alloc, &mut source, "t.ctb", cert.as_slice()))
}

fn judged_for_one_letter(alloc: Global, cert: &str) -> Result<String, Fail> {
    judged(alloc, "letter a 1", "", cert)
}

#[test]
fn worked_certificates(rt: HostRuntime) -> Result<(), Fail> {
    for_rows_of_2(rt.alloc(), CERTIFICATES, judged_for_one_letter)
}

fn start_judged(alloc: Global, root: &str, other: &str) -> Result<String, Fail> {
    judged(alloc, root, other, START)
}

#[test]
fn worked_tables(rt: HostRuntime) -> Result<(), Fail> {
    for_rows_of_3(rt.alloc(), TABLES, start_judged)?;
    // the table is refused before the certificate
    let given = judged(rt.alloc(), "pass2 @1 @2", "", "")?;
    let want = "B1 OutsideProfile pass2 at t.ctb:1";
    agree("pass2", given.as_str(), want)
}

/// What is answered for a certificate and the table of one file.
fn judged_alone(alloc: Global, root: &str, cert: &str) -> Result<String, Fail> {
    judged(alloc, root, "", cert)
}

#[test]
fn worked_certificates_of_dues(rt: HostRuntime) -> Result<(), Fail> {
    for_rows_of_3(rt.alloc(), CERTIFICATES_OF_DUES, judged_alone)
}

/// The lines of 100 letters.
fn letters(alloc: Global) -> Result<String, Fail> {
    let mut lines = String::new(alloc);
    for code in 0..100 {
        write!(lines, "letter \\x4e{code:02x} 1\n")?;
    }
    Ok(lines)
}

/// What is answered for a certificate and the table of 100 letters.
fn judged_for_100_letters(alloc: Global, cert: &str) -> Result<String, Fail> {
    judged_alone(alloc, letters(alloc)?.as_str(), cert)
}

#[test]
fn a_table_of_100_letters_is_too_wide(rt: HostRuntime) -> Result<(), Fail> {
    let alloc = rt.alloc();
    let given = judged_for_100_letters(alloc, START)?;
    agree("version 1", given.as_str(), "W1 TooWide")?;
    // no table is too wide for version 2
    let given = judged_for_100_letters(alloc, "BRLCERT 2;state 1 0;end 1 0;")?;
    agree(
        "version 2",
        given.as_str(),
        "A2 StateMissing state 0 rule 0",
    )
}

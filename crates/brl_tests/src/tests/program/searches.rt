//! Worked runs of `brl search`: what it writes is checked, and what it reports is compared.
use crate::tests::program::cases;
use crate::tests::program::files::Sealed;
use crate::tests::program::runs::{is_answered, outcome_of};
use brl_failure::Failure;
use brl_lines::MapSource;
use brl_testing::{check_rows, cut, files_of, lines_of};
use brl_tool::Failed;
use std::alloc::Global;
use std::test::Fail;

/// The words that search the table `t.ctb` for the certificate `o`.
const SEARCH: &str = "brl,search,t.ctb,o";

/// The words that check it.
const CHECK: &str = "brl,check,t.ctb,o";

/// The file `t.ctb` with the lines of a field.
fn table_of(alloc: Global, lines: &str) -> Result<MapSource, Fail> {
    let files = format!(in alloc; "t.ctb: {lines}")?;
    files_of(alloc, files.as_str())
}

/// Whether what a search wrote is accepted: the check has the numbers of the search.
fn is_accepted(alloc: Global, files: &mut MapSource, told: &[u8]) -> Result<bool, Fail> {
    let Some(numbers) = told.strip_prefix(b"certified") else {
        return Ok(false);
    };
    let checked = outcome_of(alloc, CHECK, files, b"")?;
    let same = checked.out.strip_prefix(b"accepted") == Some(numbers);
    Ok(same && checked.status == 0)
}

/// The text of the first line that begins with a label.
fn labelled<'a>(report: &'a str, label: &str) -> Result<&'a str, Fail> {
    for line in report.lines() {
        if let Some(text) = line.strip_prefix(label) {
            return Ok(text);
        }
    }
    Err(Fail::from("no such line"))
}

/// The words that compare the two texts of a report.
fn comparison(alloc: Global, report: &str) -> Result<String, Fail> {
    let left = labelled(report, "left: ")?;
    let right = labelled(report, "right: ")?;
    Ok(format!(in alloc; "brl,clash,t.ctb,{left},{right}")?)
}

/// Whether the two texts of a report clash, with that same report, and no certificate was written.
fn is_reported(alloc: Global, files: &mut MapSource, told: &[u8]) -> Result<bool, Fail> {
    let words = comparison(alloc, std::str::from_utf8(told)?)?;
    let compared = outcome_of(alloc, words.as_str(), files, b"")?;
    Ok(compared.is(told, b"", 1) && files.files.get("o").is_none())
}

/// Whether a table is certified, with these notices, and its certificate is accepted.
fn is_certified_so(alloc: Global, files: &mut MapSource, notices: &str) -> Result<bool, Fail> {
    let found = outcome_of(alloc, SEARCH, files, b"")?;
    let notices = lines_of(alloc, notices)?;
    let told = found.out.as_slice();
    Ok(found.is(told, notices.as_bytes(), 0) && is_accepted(alloc, files, told)?)
}

fn is_certified(alloc: Global, row: &str) -> Result<bool, Fail> {
    let (lines, notices) = cut(row)?;
    is_certified_so(alloc, &mut table_of(alloc, lines)?, notices)
}

#[test]
fn certificates_are_accepted(rt: HostRuntime) -> Result<(), Fail> {
    check_rows(rt.alloc(), cases::CERTIFIED, is_certified)
}

/// Whether an outcome is a clash, which is found.
fn is_clash(alloc: Global, files: &mut MapSource) -> Result<bool, Fail> {
    let found = outcome_of(alloc, SEARCH, files, b"")?;
    let told = found.out.as_slice();
    Ok(found.is(told, b"", 1) && is_reported(alloc, files, told)?)
}

/// Whether a clash of a table is found.
fn is_clashing(alloc: Global, lines: &str) -> Result<bool, Fail> {
    is_clash(alloc, &mut table_of(alloc, lines)?)
}

#[test]
fn clashes_are_reported(rt: HostRuntime) -> Result<(), Fail> {
    check_rows(rt.alloc(), cases::CLASHING, is_clashing)
}

/// One of five dots operands.
fn dots(number: u32) -> &'static str {
    match number % 5 {
        0 => "1",
        1 => "12",
        2 => "1-12",
        3 => "12-1",
        _ => "1-1",
    }
}

/// Whether the certificate that a search found is accepted, or the clash is one.
fn is_right(alloc: Global, files: &mut MapSource) -> Result<bool, Fail> {
    let found = outcome_of(alloc, SEARCH, files, b"")?;
    let told = found.out.as_slice();
    let status = found.status;
    match status {
        0 => is_accepted(alloc, files, told),
        1 => is_reported(alloc, files, told),
        _ => Ok(false),
    }
}

/// Whether a table is certified and its certificate is accepted, or a clash is found.
fn is_decided(alloc: Global, lines: &str) -> Result<bool, Fail> {
    is_right(alloc, &mut table_of(alloc, lines)?)
}

#[test]
fn tables_of_three_letters_are_decided(rt: HostRuntime) -> Result<(), Fail> {
    let alloc = rt.alloc();
    for number in 0u32..125 {
        let (a, b, c) = (dots(number), dots(number / 5), dots(number / 25));
        let lines = format!(in alloc; "letter a {a}; letter b {b}; letter c {c}")?;
        assert!(rt; is_decided(alloc, lines.as_str())?, "{lines}");
    }
    Ok(())
}

/// Whether a search is answered so, and writes this certificate.
fn is_written(alloc: Global, lines: &str, fields: &str, cert: &[u8]) -> Result<bool, Fail> {
    let mut files = table_of(alloc, lines)?;
    let answered = is_answered(alloc, SEARCH, &mut files, b"", fields)?;
    Ok(answered && files.files.get("o").map(|bytes| bytes.as_slice()) == Some(cert))
}

#[test]
fn worked_certificates(rt: HostRuntime) -> Result<(), Fail> {
    let alloc = rt.alloc();
    let cert = b"BRLCERT 3\nstate 1 0 0\nend 1 0\n";
    assert!(rt; is_written(alloc, "#", "certified: 1 states, 0 pairs||0", cert)?);
    let lines = "letter a 1; letter b 12";
    let cert = b"BRLCERT 3\nstate 1 0 0\nstate 8 0 0\nend 2 0\n";
    assert!(rt; is_written(alloc, lines, "certified: 2 states, 0 pairs||0", cert)?);
    Ok(())
}

/// Whether a search of a table of two letters whose certificate is refused is answered so.
fn is_sealed(alloc: Global, refusal: Failure<Failed>, fields: &str) -> Result<bool, Fail> {
    let files = table_of(alloc, "letter a 1; letter b 12")?;
    let mut files = Sealed {
        files,
        room: 0,
        refusal,
    };
    is_answered(alloc, SEARCH, &mut files, b"", fields)
}

#[test]
fn a_certificate_cannot_be_written(rt: HostRuntime) -> Result<(), Fail> {
    assert!(rt; is_sealed(rt.alloc(), Failure::Fault(Failed), "|U7 CannotWrite o|2")?);
    assert!(rt; is_sealed(rt.alloc(), Failure::Memory, "|Memory|3")?);
    Ok(())
}

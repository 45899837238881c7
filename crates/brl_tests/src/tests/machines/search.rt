//! Searches of worked tables.
use crate::tests::machines::accept::answer_text;
use brl_cert::{Cert, write_cert};
use brl_closure::{Outcome, Search, accept};
use brl_dues::Dues;
use brl_forward::{Clash, confirm};
use brl_pairs::{Body, Seed};
use brl_progress::Slice;
use brl_rules::Table;
use brl_search::{Found, search, seed_of};
use brl_states::DuesState;
use brl_testing::{check_rows, cut, field_of_bytes, for_rows_of_2, run_slices, table_of};
use std::alloc::{AllocError, Global};
use std::test::Fail;

/// A table's lines, and what is found with the program's limit, or a part of it.
const SEARCHES: &str = "\
letter a 1; letter b 12; letter x 1-12; always ab 14|certified: 3 states, 1 pairs
letter a 1; letter b 12|certified: 2 states, 0 pairs
letter a 1; letter a 12|certified
space \\s 0; letter b 12; letter u 136; letter t 2345; word but 12; word b 56-12|certified
letter a 1; letter b 12; always ab 14; word ab 15|certified: 6 states, 0 pairs
letter a 1; litdigit 1 1; numsign 3456; nocontractsign 56; numericnocontchars a|certified
space \\s 0; letter a 1; letter b 12; letter c 14; always abcabc 25| states, 0 pairs
letter a 1; letter b 12; letter x 1-12|clashing
letter a 1; letter b 12; letter c 14; always ab 14|clashing
space \\s 0; letter b 12; letter u 136; letter t 2345; word but 12|clashing
letter a 1; litdigit 1 1; numsign 3456|clashing
uplow Aa 1|clashing
uplow Aa 1; uplow Bb 12; uplow Cc 14; capsletter 6; begcapsword 6-6; endcapsword 6-3|certified
uplow Aa 1; uplow Bb 12; uplow Cc 14; capsletter 6; begcapsword 6-6|clashing
uplow Aa 1; capsletter 6-1; begcapsword 6|clashing
lowercase x 1; uppercase A 2; midword AA 3; begcapsword 12|certified: 8 states, 0 pairs
";

/// What `confirm` says of a clash's texts, in a word.
fn word_of_clash(alloc: Global, table: &Table, clash: &Clash) -> Result<&'static str, Fail> {
    match confirm(alloc, table, clash.left(), clash.right())? {
        Some(same) => Ok(word_of_same(&same, clash)),
        None => Ok("no clash"),
    }
}

/// What these two clashes are to each other, in a word.
fn word_of_same(same: &Clash, clash: &Clash) -> &'static str {
    if same.left() != clash.left() || same.right() != clash.right() {
        return "another clash";
    }
    if same.cells() == clash.cells() {
        "clashing"
    } else {
        "other cells"
    }
}

/// A table's lines, and the bytes of the certificate that is found.
const CERTIFICATES: &str = "\
|BRLCERT 3;state 1 0 0;end 1 0;
letter a 1; letter b 12|BRLCERT 3;state 1 0 0;state 8 0 0;end 2 0;
";

/// What the checker answers for these states and pairs.
fn told_of_body(alloc: Global, table: &Table, body: &Body<DuesState>) -> Result<String, Fail> {
    let answer = answer_text(alloc, accept(alloc, &Dues::new(alloc, table), body))?;
    Ok(format!(in alloc; "certified: {answer}")?)
}

fn told_of_cert(alloc: Global, table: &Table, cert: &Cert) -> Result<String, Fail> {
    match cert {
        Cert::Word(body) => told_of_body(alloc, table, body),
        Cert::Dues(_) => Ok(String::from_str(alloc, "version 2")?),
        Cert::Window(_) => Ok(String::from_str(alloc, "version 1")?),
    }
}

/// What is found, in words.
fn told_of_found(alloc: Global, table: &Table, found: &Found) -> Result<String, Fail> {
    match found {
        Found::Certified(cert) => told_of_cert(alloc, table, cert),
        Found::Clashing(clash) => {
            let word = word_of_clash(alloc, table, clash)?;
            Ok(String::from_str(alloc, word)?)
        }
        Found::Limit { states, pairs } => {
            Ok(format!(in alloc; "limit: {states} states, {pairs} pairs")?)
        }
    }
}

fn told_of_table(alloc: Global, table: &Table, limit: u32) -> Result<String, Fail> {
    let found = search(alloc, table, limit as u64)?;
    told_of_found(alloc, table, &found)
}

fn told_of(alloc: Global, lines: &str, limit: u32) -> Result<String, Fail> {
    let table = table_of(alloc, lines)?;
    told_of_table(alloc, &table, limit)
}

/// Whether what a search of the table of these lines with this limit finds has these words.
fn finds(alloc: Global, lines: &str, limit: u32, want: &str) -> Result<bool, Fail> {
    Ok(told_of(alloc, lines, limit)?.as_str().contains(want))
}

/// Whether a row's second field is found.
fn is_found(alloc: Global, row: &str) -> Result<bool, Fail> {
    let (lines, want) = cut(row)?;
    finds(alloc, lines, 1_000_000, want)
}

#[test]
fn worked_tables(rt: HostRuntime) -> Result<(), Fail> {
    check_rows(rt.alloc(), SEARCHES, is_found)
}

/// The bytes of the certificate that was found; none where none was.
fn certificate_of_found(alloc: Global, found: &Found) -> Result<Vec<u8>, AllocError> {
    match found {
        Found::Certified(cert) => write_cert(alloc, cert),
        _ => Ok(Vec::new(alloc)),
    }
}

/// The bytes of the certificate of a table.
fn certificate(alloc: Global, table: &Table) -> Result<Vec<u8>, AllocError> {
    let found = search(alloc, table, 1_000_000)?;
    certificate_of_found(alloc, &found)
}

/// The certificate of the table of a field, as a field of bytes.
fn certificate_of(alloc: Global, lines: &str) -> Result<String, Fail> {
    let table = table_of(alloc, lines)?;
    field_of_bytes(alloc, certificate(alloc, &table)?.as_slice())
}

#[test]
fn worked_certificates(rt: HostRuntime) -> Result<(), Fail> {
    for_rows_of_2(rt.alloc(), CERTIFICATES, certificate_of)
}

#[test]
fn the_start_is_more_than_none(rt: HostRuntime) -> Result<(), Fail> {
    let lines = "letter a 1; letter b 12; letter x 1-12";
    assert!(rt; finds(rt.alloc(), lines, 0, "limit: 1 states, 0 pairs")?);
    Ok(())
}

/// How far a search is, in words.
fn told_of_progress(
    alloc: Global,
    progress: &Slice<Search<'_, Dues<'_>>, Outcome<DuesState>>,
) -> Result<String, AllocError> {
    match progress {
        Slice::Unfinished(search) => {
            let (states, pairs) = (search.state_count(), search.pair_count());
            format!(in alloc; "unfinished: {states} states, {pairs} pairs")
        }
        Slice::Finished(Outcome::Closed(body)) => {
            let (states, pairs) = (body.state_count(), body.pair_count());
            format!(in alloc; "closed: {states} states, {pairs} pairs")
        }
        Slice::Finished(_) => String::from_str(alloc, "not closed"),
    }
}

/// How far a search of this machine is after a slice of `first` steps and one of `second`.
fn progress_after(
    alloc: Global,
    dues: &Dues,
    seed: Seed,
    first: u64,
    second: u64,
) -> Result<String, AllocError> {
    let start = Search::start(alloc, dues, 1_000_000, seed)?;
    let progress = run_slices(start, [first, second])?;
    told_of_progress(alloc, &progress)
}

/// Whether the text for a search of the table, after a slice of `first` steps and one of `second`,
/// begins with `want`.
fn comes_to(
    alloc: Global,
    table: &Table,
    first: u64,
    second: u64,
    want: &str,
) -> Result<bool, AllocError> {
    let seed = seed_of(alloc, table)?;
    let told = progress_after(alloc, &Dues::new(alloc, table), seed, first, second)?;
    Ok(told.as_str().starts_with(want))
}

/// Whether a search of the table runs in slices.
fn runs_in_slices(alloc: Global, table: &Table) -> Result<bool, AllocError> {
    Ok(
        comes_to(alloc, table, 0, 0, "unfinished: 1 states, 0 pairs")?
            && comes_to(alloc, table, 1, 0, "unfinished")?
            && comes_to(alloc, table, 1, u64::MAX, "closed: 3 states, 1 pairs")?,
    )
}

#[test]
fn a_search_runs_in_slices(rt: HostRuntime) -> Result<(), Fail> {
    let alloc = rt.alloc();
    let lines = "letter a 1; letter b 12; letter x 1-12; always ab 14";
    let table = table_of(alloc, lines)?;
    assert!(rt; runs_in_slices(alloc, &table)?);
    Ok(())
}

//! Certificates, the checker, the judge, the search and the report.
ghost use Rattle.brl_rules.specs.Translation.{IsClash};

use crate::tests::calls::tables::is_refused;
use brl_accept::{AcceptFault, Accepted, JudgeFault, accept, judge, judge_table};
use brl_cells::Cells;
use brl_cert::{Body, Cert, CertFault, CertPair, WriteFault, read_cert, write_cert};
use brl_divergence::{Divergences, list_divergences};
use brl_dues::{Dues, DuesState};
use brl_failure::Failure;
use brl_forward::Clash;
use brl_lines::MapSource;
use brl_pairs::{Excused, RulePairs};
use brl_progress::NoProgress;
use brl_report::{ReportFault, report};
use brl_search::{
    ClashList, Found, RuleClash, SearchFault, Searched, clashes, search, search_table, seed_of,
};
use brl_table::Table;
use brl_testing::{one_file, table_of};
use brl_without::{LeftOut, Scope};
use std::alloc::{AllocError, Global};
use std::collections::BTreeMap;
use std::test::Fail;

/// The certificate of a table of the letters `a` and `b`.
const CERT: &[u8] = b"BRLCERT 3\nstate 1 0 0\nstate 8 0 0\nend 2 0\n";

/// Whether a certificate is written with these bytes.
fn is_written(alloc: Global, cert: &Cert) -> bool {
    let written: Result<Vec<u8>, WriteFault> = write_cert(alloc, cert);
    match &written {
        Ok(bytes) => bytes.as_slice() == CERT,
        Err(_) => false,
    }
}

fn reads_and_writes(alloc: Global) -> bool {
    let cert: Result<Cert, Failure<CertFault>> = read_cert(alloc, CERT);
    match &cert {
        Ok(cert) => is_written(alloc, cert),
        Err(_) => false,
    }
}

fn are_certificates(alloc: Global) -> bool {
    let pair: CertPair = CertPair {
        ahead: 0,
        behind: 0,
        lead: Cells::new(alloc),
    };
    reads_and_writes(alloc) && is_refused(read_cert(alloc, b"BRLCERT 9\n")) && pair.lead.is_empty()
}

/// Whether these are the numbers of that certificate.
fn are_counts(accepted: Accepted) -> bool {
    accepted.states == 2 && accepted.pairs == 0
}

fn accepts(alloc: Global, dues: &Dues<'_>, body: &Body<DuesState>) -> bool {
    let accepted: Result<Accepted, Failure<AcceptFault>> = accept(alloc, dues, body);
    match accepted {
        Ok(accepted) => are_counts(accepted),
        Err(_) => false,
    }
}

/// Whether the checker accepts that certificate for a table.
fn is_accepted(alloc: Global, table: &Table) -> bool {
    match read_cert(alloc, CERT) {
        Ok(Cert::Word(body)) => accepts(alloc, &Dues::new(alloc, table), &body),
        _ => false,
    }
}

/// Whether the judge accepts that certificate for the table of a file.
fn is_judged(alloc: Global, files: &mut MapSource, path: &str) -> bool {
    let judged: Result<Accepted, Failure<JudgeFault>> = judge(alloc, files, path, CERT);
    match judged {
        Ok(accepted) => are_counts(accepted),
        Err(_) => false,
    }
}

fn judges(alloc: Global) -> Result<bool, Fail> {
    let mut files = one_file(alloc, "t.ctb", b"letter a 1\nletter b 12\n")?;
    Ok(is_judged(alloc, &mut files, "t.ctb") && !is_judged(alloc, &mut files, "u.ctb"))
}

fn is_certified(alloc: Global, table: &Table) -> bool {
    let found: Result<Found, SearchFault> = search(alloc, table, 1000);
    match &found {
        Ok(Found::Certified(cert)) => is_written(alloc, cert),
        _ => false,
    }
}

fn is_reported(alloc: Global, table: &Table, clash: &Clash) -> bool
    requires { IsClash table.now clash.now.left clash.now.right clash.now.cells }
{
    let text: Result<String, ReportFault> = report(alloc, table, clash);
    match &text {
        Ok(text) => text.as_str().starts_with("left: "),
        Err(_) => false,
    }
}

fn has_a_report(alloc: Global, table: &Table) -> bool {
    let found: Result<Found, SearchFault> = search(alloc, table, 1000);
    match &found {
        Ok(Found::Clashing(clash)) => is_reported(alloc, table, clash),
        _ => false,
    }
}

/// Whether this is a pair of these rules, with a clash of two texts of one character.
fn is_rule_clash(clash: &RuleClash, lesser: u32, greater: u32) -> bool {
    let clash_of: &Clash = &clash.clash;
    clash.lesser == lesser
        && clash.greater == greater
        && clash_of.left().len() == 1
        && clash_of.right().len() == 1
}

/// Whether the copy of the pair of the first two rules is one.
fn is_copied(alloc: Global, table: &Table, clash: &RuleClash) -> bool {
    let copy: Result<RuleClash, AllocError> = clash.copy(alloc, table);
    match &copy {
        Ok(copy) => is_rule_clash(copy, 0, 1),
        Err(_) => false,
    }
}

/// Whether a list of clashes of two letters has their pair alone.
fn has_both(alloc: Global, table: &Table, found: &ClashList) -> bool {
    match found {
        ClashList::Complete { list, body } => {
            list.len() == 1 && is_copied(alloc, table, &list[0]) && body.state_count() == 2
        }
        ClashList::Partial { .. } => false,
    }
}

/// Whether the list of a table's clashes without some characters, of two letters with the same
/// cells, has their pair alone.
fn lists_both_without(alloc: Global, table: &Table, left_out: &LeftOut) -> bool {
    let found: Result<ClashList, AllocError> = clashes(
        alloc,
        table,
        1000,
        left_out,
        Vec::new(alloc),
        &mut NoProgress,
    );
    match &found {
        Ok(found) => has_both(alloc, table, found),
        Err(_) => false,
    }
}

/// Whether the list of all clashes of a table has both pairs of rules.
fn lists_both(alloc: Global, table: &Table) -> bool {
    let left_out = LeftOut::none(alloc);
    lists_both_without(alloc, table, &left_out)
}

/// Whether the list of the divergences of a table's machine, of two letters with the same cells,
/// has their pair alone.
fn machine_lists_both(alloc: Global, table: &Table) -> Result<bool, Fail> {
    let dues = Dues::new(alloc, table);
    let seed = seed_of(alloc, table)?;
    let found: Result<Divergences<DuesState>, AllocError> = list_divergences(
        alloc,
        &dues,
        1000,
        seed,
        BTreeMap::new(alloc),
        &mut NoProgress,
    );
    match &found {
        Ok(Divergences::Complete { list, .. }) => Ok(list.len() == 1 && list.contains_key(&(0, 1))),
        _ => Ok(false),
    }
}

/// Whether the table of two letters is certified.
fn certifies(alloc: Global) -> Result<bool, Fail> {
    let table = table_of(alloc, "letter a 1; letter b 12")?;
    Ok(is_accepted(alloc, &table) && is_certified(alloc, &table))
}

/// Whether the table of two letters with the same cells has a clash, and isn't accepted.
fn finds_a_clash(alloc: Global) -> Result<bool, Fail> {
    let table = table_of(alloc, "letter a 1; letter b 1")?;
    let is_found = !is_accepted(alloc, &table) && has_a_report(alloc, &table);
    Ok(is_found && lists_both(alloc, &table) && machine_lists_both(alloc, &table)?)
}

/// The pair of the rules of two letters is accepted.
fn pair_excused(alloc: Global) -> Result<Excused, Fail> {
    let mut pairs = Vec::new(alloc);
    pairs.push((0, 1))?;
    Ok(Excused {
        accepted: RulePairs::new(alloc, pairs)?,
        exchanged: RulePairs::none(alloc),
    })
}

/// Whether that certificate is judged for a table, but for what is excused.
fn is_judged_but_for(alloc: Global, table: &Table, excused: &Excused) -> bool {
    let left_out = LeftOut::none(alloc);
    let scope = Scope {
        left_out: &left_out,
        excused,
        progress: &mut NoProgress,
    };
    let judged: Result<Accepted, Failure<JudgeFault>> = judge_table(alloc, table, CERT, scope);
    match judged {
        Ok(accepted) => are_counts(accepted),
        Err(_) => false,
    }
}

/// Whether a search of a table, but for what is excused, finds a certificate of two states.
fn is_certified_but_for(alloc: Global, table: &Table, excused: &Excused) -> bool {
    let left_out = LeftOut::none(alloc);
    let scope = Scope {
        left_out: &left_out,
        excused,
        progress: &mut NoProgress,
    };
    let found: Result<Searched, AllocError> = search_table(alloc, table, 1000, scope);
    match &found {
        Ok(Searched::Found(Found::Certified(cert))) => cert.counts() == (2, 0),
        _ => false,
    }
}

/// Whether the table of two letters with the same cells is certified but for their pair of rules.
fn certifies_but_for(alloc: Global) -> Result<bool, Fail> {
    let table = table_of(alloc, "letter a 1; letter b 1")?;
    let excused = pair_excused(alloc)?;
    let is_judged = is_judged_but_for(alloc, &table, &excused);
    Ok(is_judged && is_certified_but_for(alloc, &table, &excused))
}

fn are_reached(alloc: Global) -> Result<bool, Fail> {
    let are_judged = judges(alloc)? && certifies_but_for(alloc)?;
    Ok(are_certificates(alloc) && are_judged && certifies(alloc)? && finds_a_clash(alloc)?)
}

#[test]
fn calls_of_verdicts(rt: HostRuntime) -> Result<(), Fail> {
    assert!(rt; are_reached(rt.alloc())?);
    Ok(())
}

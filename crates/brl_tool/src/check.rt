//! `brl check`: whether a certificate is accepted for a table.
ghost use Rattle.std.specs.Prelude.{◌≡◌};
ghost use Rattle.brl_lines.specs.Outcome.{CountsFailure};
ghost use Rattle.std.specs.Option.{option_copied};
ghost use Rattle.brl_answers.specs.Answers.{UnlessMemory, load_outcome};
ghost use Rattle.brl_tool.specs.Excusing.{ByExcusal};
ghost use Rattle.brl_tool.specs.Verdicts.{AcceptsGood, Checks, IsAcceptance, IsRefusal, Judges, JudgesFile, RendersFailure};
ghost use Rattle.brl_without.specs.Alphabet.{alphabet_view, left_out_by};
ghost use Rattle.brl_without.specs.Tables.{AreDefined};

use crate::alphabet::alphabet_of;
use crate::excusing::{ButFor, excusal_by, lines_with};
use crate::file_text::bytes_at;
use crate::loaded_table::{LoadedTable, table_at};
use brl_accept::{JudgeFault, judge_table};
use brl_answers::{Answer, RunFault, Status, counts_text};
use brl_cli::AlphabetOption;
use brl_closure::Accepted;
use brl_failure::Failure;
use brl_lines::Source;
use brl_progress::Progress;
use brl_rules::Table;
use brl_table::one_table_law;
use brl_without::{Alphabet, Scope, Undefined};
use std::alloc::Global;
use std::fmt::Display;

/// The paths of the files of a check: the table's, the certificate's, and that of what is excused,
/// where there is one.
#[derive(Clone, Copy)]
pub struct CheckedFiles<'a> {
    pub table: &'a str,
    pub cert: &'a str,
    pub accept: Option<&'a str>,
}

/// Judges the certificate in a file for the table of another, as `judge_table` does, with what a
/// third file excuses; valid ones are accepted. The option says of which
/// characters the texts are made. The pairs of rules that the third file names are accepted, and
/// the steps of characters of its sets may be exchanged. The option is parsed first, the
/// certificate's file is read before the table's, and that of what is excused once the table has
/// these characters. The answer is the lines of an acceptance or the line of a refusal. Progress is
/// reported state by state.
pub fn check_by_words<S: Source, W: Progress>(
    alloc: Global,
    source: &mut S,
    paths: CheckedFiles<'_>,
    option: AlphabetOption<'_>,
    progress: &mut W,
) -> Result<Answer, RunFault>
    ensures checks { Checks (S.gives source.old) paths.entry.table.now paths.entry.cert.now (option_copied paths.entry.accept) option.entry result }
    ensures accepts { AcceptsGood (S.gives source.old) paths.entry.table.now paths.entry.cert.now (option_copied paths.entry.accept) option.entry result }
    ensures count { CountsFailure (S.faults source.old) (S.faults source.new) (load_outcome result) }
    ensures same { S.gives source.new ≡ S.gives source.old }
{
    one_table_law(&*source);
    check_files(alloc, source, paths, option, progress)
}

/// Reads the option and the certificate, and judges it.
fn check_files<S: Source, W: Progress>(
    alloc: Global,
    source: &mut S,
    paths: CheckedFiles<'_>,
    option: AlphabetOption<'_>,
    progress: &mut W,
) -> Result<Answer, RunFault>
    ensures checks { Checks (S.gives source.old) paths.entry.table.now paths.entry.cert.now (option_copied paths.entry.accept) option.entry result }
    ensures count { CountsFailure (S.faults source.old) (S.faults source.new) (load_outcome result) }
    ensures same { S.gives source.new ≡ S.gives source.old }
{
    let alphabet = alphabet_of(alloc, option)?;
    let bytes = bytes_at(alloc, source, paths.cert)?;
    check_bytes(alloc, source, paths, bytes.as_slice(), &alphabet, progress)
}

/// Judges a certificate with these bytes for the table of a file.
fn check_bytes<S: Source, W: Progress>(
    alloc: Global,
    source: &mut S,
    paths: CheckedFiles<'_>,
    bytes: &[u8],
    alphabet: &Alphabet,
    progress: &mut W,
) -> Result<Answer, RunFault>
    ensures judges { JudgesFile (alphabet_view alphabet.now) (S.gives source.old) paths.entry.table.now (option_copied paths.entry.accept) bytes.now result }
    ensures count { CountsFailure (S.faults source.old) (S.faults source.new) (load_outcome result) }
    ensures same { S.gives source.new ≡ S.gives source.old }
{
    let loaded = table_at(alloc, source, paths.table)?;
    check_loaded(
        alloc,
        source,
        &loaded,
        paths.accept,
        bytes,
        alphabet,
        progress,
    )
}

/// Judges it for a table, but for what the file at a path excuses.
fn check_loaded<S: Source, W: Progress>(
    alloc: Global,
    source: &mut S,
    loaded: &LoadedTable,
    accept: Option<&str>,
    bytes: &[u8],
    alphabet: &Alphabet,
    progress: &mut W,
) -> Result<Answer, RunFault>
    ensures judges { ByExcusal (alphabet_view alphabet.now) (S.gives source.old) (option_copied accept.entry) loaded.now.table loaded.now.files.lines
        (Judges (alphabet_view alphabet.now) (option_copied accept.entry) loaded.now.table bytes.now) result }
    ensures count { CountsFailure (S.faults source.old) (S.faults source.new) (load_outcome result) }
    ensures same { S.gives source.new ≡ S.gives source.old }
{
    let left_out = alphabet.left_out(alloc, &loaded.table)?;
    let excusal = excusal_by(alloc, source, loaded, accept)?;
    let but_for = ButFor {
        alphabet,
        left_out: &left_out,
        accept,
        excusal: &excusal,
    };
    judgement(alloc, &loaded.table, bytes, but_for, progress)
}

/// The answer to what the judge finds of a table that defines what is left out.
fn judgement<W: Progress>(
    alloc: Global,
    table: &Table,
    bytes: &[u8],
    but_for: ButFor<'_>,
    progress: &mut W,
) -> Result<Answer, RunFault>
    requires defined { AreDefined table.now (left_out_by table.now (alphabet_view but_for.alphabet.now)) }
    requires left_out { but_for.left_out.now ≡ left_out_by table.now (alphabet_view but_for.alphabet.now) }
    ensures { Judges (alphabet_view but_for.entry.alphabet.now) (option_copied but_for.entry.accept) table.now bytes.now but_for.entry.excusal.now result }
{
    let scope = Scope {
        left_out: but_for.left_out,
        excused: &but_for.excusal.excused,
        progress,
    };
    match judge_table(alloc, table, bytes, scope) {
        Ok(accepted) => acceptance(alloc, but_for, accepted),
        Err(failure) => answer_failure(alloc, failure),
    }
}

/// The answer where the judge accepts nothing. A fault of the table, or no memory, says nothing of
/// the certificate.
fn answer_failure(alloc: Global, failure: Failure<JudgeFault>) -> Result<Answer, RunFault>
    ensures { RendersFailure failure result }
{
    match failure {
        Failure::Fault(JudgeFault::NoTable(fault)) => Err(Failure::Fault(fault).into()),
        Failure::Fault(JudgeFault::NotDefined(fault)) => Err(RunFault::NotDefined(
            Undefined::LeftOut(fault),
        )),
        Failure::Fault(JudgeFault::Cert(fault)) => refusal(alloc, &fault),
        Failure::Fault(JudgeFault::OldVersion) => refusal(alloc, &JudgeFault::OldVersion),
        Failure::Fault(JudgeFault::Wide(fault)) => Err(RunFault::Wide(fault)),
        Failure::Fault(JudgeFault::Refused(fault)) => refusal(alloc, &fault),
        Failure::Memory => Err(RunFault::Memory),
    }
}

/// The answer where a certificate is accepted.
fn acceptance(alloc: Global, but_for: ButFor<'_>, accepted: Accepted) -> Result<Answer, RunFault>
    ensures { UnlessMemory (IsAcceptance (alphabet_view but_for.entry.alphabet.now) (option_copied but_for.entry.accept) but_for.entry.excusal.now accepted) result }
{
    let states = u64::from(accepted.states);
    let pairs = u64::from(accepted.pairs);
    let line = counts_text(alloc, "accepted", states, pairs)?;
    let text = lines_with(alloc, line, but_for)?;
    Ok(Answer::new(Status::Done, text))
}

/// The answer where a certificate is refused for this fault.
fn refusal<E: Display>(alloc: Global, fault: &E) -> Result<Answer, RunFault>
    ensures { UnlessMemory IsRefusal result }
{
    let reason = fault.to_string(alloc)?;
    let text = format!(in alloc; "refused: {reason}\n")?;
    Ok(Answer::new(Status::Refuted, text))
}

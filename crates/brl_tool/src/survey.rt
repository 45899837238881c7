//! `brl survey`: the lines of tables that are outside the profile or faulty.
ghost use Rattle.std.specs.Prelude.{◌≡◌, ◌++◌, IfErr, IfOk, OnOk, Some, map, string_bytes};
ghost use Rattle.brl_failure.specs.Failure.{IfFault};
ghost use Rattle.brl_lines.specs.Gathered.{left_view};
ghost use Rattle.brl_lines.specs.Skipping.{IsUnloaded};
ghost use Rattle.brl_table.specs.Survey.{survey_of};
ghost use Rattle.brl_report.specs.Survey.{IsSurveyText};
ghost use Rattle.brl_acting.specs.WholeTable.{acting_view};
ghost use Rattle.brl_tool.specs.Surveying.{IsIfAny, IsRefusedAs, IsReport, IsReportAt, IsReportOf, IsReportOfTable, IsReportOver, IsTextOver, IsUnreported, Surveys, SurveysByFiles, alphabet_if_any, is_suspect_over, part_text, skipped_part, status_after_report};
ghost use Rattle.brl_without.specs.Alphabet.{IsLacking, alphabet_view};
ghost use Rattle.brl_tool.specs.Suspects.{is_suspect as is_suspect_by};
ghost use Rattle.brl_answers.specs.Answers.{EndsAs};
ghost use Rattle.brl_answers.specs.Status.{status_of};
ghost use Rattle.brl_answers.specs.declared.run_fault.RunFault.TheVariants.{NotDefined};
ghost use Rattle.brl_answers.specs.declared.status.Status.TheVariants as statuses;

use crate::acting::{Judged, acting_lines, with_acting};
use crate::alphabet::alphabet_of;
use crate::notices::write_notices;
use crate::remarks::write_remarks;
use crate::suspects::{has_unknown_opcode, is_suspect};
use brl_answers::{Answer, RunFault, Status};
use brl_cli::AlphabetOption;
use brl_cut::{Cut, CutTable, cut_table};
use brl_failure::Failure;
use brl_lines::{
    LeftInclude, LoadFault, Loaded, Source, WithoutDictionaries, load_without_dictionaries,
};
use brl_report::{report_of_cut, skipped_report, survey_report};
use brl_rules::Table;
use brl_table::{survey, table_of_loaded};
use brl_without::Alphabet;
use std::alloc::{AllocError, Global};
use std::io::Write;

/// What a survey is asked for: the paths of the tables' files, whether the reports are to be brief,
/// and the characters of the texts on which lines are to be judged.
#[derive(Clone, Copy)]
pub struct SurveyRequest<'t, 'a> {
    pub tables: &'t [&'a str],
    pub brief: bool,
    pub only: Option<&'a str>,
}

/// How a table is reported: briefly; or, where an alphabet is given, by the lines that can act on
/// texts of it.
#[derive(Clone, Copy)]
struct Manner<'a> {
    brief: bool,
    only: Option<&'a Alphabet>,
}

/// Surveys the tables that can be loaded, or lists their lines that can act; the status is 1
/// exactly where one is suspect. The answer has the report of each table that can be loaded, after
/// a line that names it where there are several, and then a line that there is no verdict. A report
/// begins with the hyphenation dictionaries that were skipped; one that is to be brief has neither
/// these nor the faults. Standard error gets the notices and remarks of each table whose lines are
/// all read, and a line for each that can't be loaded; then the status is that of a fault. Else it
/// is that of a refutation where a table has a line whose opcode is none of liblouis', or no line
/// that defines a character.
///
/// Where characters are given, a table's report is that of its cut with lines rewritten, which is
/// written nowhere, and of the lines of the table that can act on texts of these characters. The
/// status is that of a refutation where one can. A table whose cut lacks characters of these is one
/// that can't be loaded.
pub fn survey_by_words<S: Source, E: Write>(
    alloc: Global,
    source: &mut S,
    asked: SurveyRequest<'_, '_>,
    err: &mut E,
) -> Result<Answer, RunFault>
    ensures surveys { Surveys asked.entry.brief asked.entry.only (S.gives source.old) (map (λ path. path.now) asked.entry.tables.now) result }
    ensures same { S.gives source.new ≡ S.gives source.old }
{
    let brief = asked.brief;
    match asked.only {
        None => {
            let manner = Manner { brief, only: None };
            survey_by_files(alloc, source, asked.tables, manner, err)
        }
        Some(word) => survey_over(alloc, source, asked, word, err),
    }
}

/// Surveys tables on texts of the characters that a word spells.
fn survey_over<S: Source, E: Write>(
    alloc: Global,
    source: &mut S,
    asked: SurveyRequest<'_, '_>,
    word: &str,
    err: &mut E,
) -> Result<Answer, RunFault>
    ensures surveys { Surveys asked.entry.brief (Some word.entry) (S.gives source.old) (map (λ path. path.now) asked.entry.tables.now) result }
    ensures same { S.gives source.new ≡ S.gives source.old }
{
    let alphabet = alphabet_of(alloc, AlphabetOption::Only(word))?;
    let manner = Manner {
        brief: asked.brief,
        only: Some(&alphabet),
    };
    survey_by_files(alloc, source, asked.tables, manner, err)
}

/// Surveys the tables whose files are at these paths.
fn survey_by_files<S: Source, E: Write>(
    alloc: Global,
    source: &mut S,
    paths: &[&str],
    manner: Manner<'_>,
    err: &mut E,
) -> Result<Answer, RunFault>
    ensures surveys { SurveysByFiles manner.entry.brief (alphabet_if_any manner.entry.only) (S.gives source.old) (map (λ path. path.now) paths.now) result }
    ensures same { S.gives source.new ≡ S.gives source.old }
{
    let several = paths.len() > 1;
    let mut text = String::new(alloc);
    let mut status = Status::Done;
    for path in paths {
        match report_if_any(alloc, source, path, manner, err)? {
            Some(report) => {
                push_part(&mut text, several, path, report.text.as_str())?;
                status = after_report(status, report.suspect);
            }
            None => status = Status::Faulty,
        }
    }
    text.push_str("no verdict: a survey doesn't decide whether two texts have the same cells\n")?;
    Ok(Answer::new(status, text))
}

/// The report of a table, and whether it is suspect.
#[derive(Drop)]
struct Report {
    text: String,
    suspect: bool,
}

/// The status after the report of one more table.
fn after_report(status: Status, suspect: bool) -> Status
    ensures { result ≡ status_after_report status suspect }
{
    match status {
        Status::Done if suspect => Status::Refuted,
        _ => status,
    }
}

/// The report of the table at a path; `None` where there is none: standard error gets the fault.
fn report_if_any<S: Source, E: Write>(
    alloc: Global,
    source: &mut S,
    path: &str,
    manner: Manner<'_>,
    err: &mut E,
) -> Result<Option<Report>, AllocError>
    ensures report { IfOk result (IsIfAny manner.entry.brief (alphabet_if_any manner.entry.only) (S.gives source.old) path.now) }
    ensures same { S.gives source.new ≡ S.gives source.old }
{
    match report_by(alloc, source, path, manner, err) {
        Ok(report) => Ok(Some(report)),
        Err(fault) => {
            refuse(&fault, err)?;
            Ok(None)
        }
    }
}

/// Writes to standard error why a table has no report, if that is a fault.
fn refuse<E: Write>(fault: &RunFault, err: &mut E) -> Result<(), AllocError>
    ensures { OnOk result (status_of fault.now ≡ statuses.Faulty) }
{
    match fault.status() {
        Status::Faulty => {
            fault.report(err);
            Ok(())
        }
        _ => Err(AllocError),
    }
}

/// The report of the table at a path.
fn report_by<S: Source, E: Write>(
    alloc: Global,
    source: &mut S,
    path: &str,
    manner: Manner<'_>,
    err: &mut E,
) -> Result<Report, RunFault>
    ensures report { IfOk result (λ report. IsReport manner.entry.brief (alphabet_if_any manner.entry.only) (S.gives source.old) path.now (string_bytes report.text) report.suspect) }
    ensures fault { IfErr result (IsRefusedAs (alphabet_if_any manner.entry.only) (S.gives source.old) path.now) }
    ensures same { S.gives source.new ≡ S.gives source.old }
{
    match manner.only {
        None => Ok(report_at(alloc, source, path, manner.brief, err)?),
        Some(alphabet) => report_over(alloc, source, path, alphabet),
    }
}

/// The report of the cut of the table at a path, with lines rewritten, and of the lines of the
/// table that can act on texts of an alphabet.
fn report_over<S: Source>(
    alloc: Global,
    source: &mut S,
    path: &str,
    alphabet: &Alphabet,
) -> Result<Report, RunFault>
    ensures report { IfOk result (λ report. IsReportOver (alphabet_view alphabet.now) (S.gives source.old) path.now (string_bytes report.text) report.suspect) }
    ensures fault { IfErr result (IsUnreported (alphabet_view alphabet.now) (S.gives source.old) path.now) }
    ensures same { S.gives source.new ≡ S.gives source.old }
{
    let of = cut_table(alloc, source, path, "", true)?;
    report_of_table(alloc, &of, path, alphabet)
}

/// The report of a table that was cut.
fn report_of_table(
    alloc: Global,
    of: &CutTable,
    path: &str,
    alphabet: &Alphabet,
) -> Result<Report, RunFault>
    ensures report { IfOk result (λ report. IsReportOfTable (alphabet_view alphabet.now) of.now path.now (string_bytes report.text) report.suspect) }
    ensures fault { IfErr result (EndsAs NotDefined (IsLacking of.now.table (alphabet_view alphabet.now))) }
{
    let acting = acting_lines(alloc, of, alphabet)?;
    let judged = Judged {
        alphabet,
        acting: acting.as_slice(),
    };
    Ok(report_of_acting(alloc, &of.cut, path, judged)?)
}

/// The report of a cut of the table at a path, and of the lines that can act.
fn report_of_acting(
    alloc: Global,
    cut: &Cut,
    path: &str,
    judged: Judged<'_>,
) -> Result<Report, AllocError>
    ensures text { IfOk result (λ report. IsTextOver (alphabet_view judged.entry.alphabet.now) (map acting_view judged.entry.acting.now) cut.now path.now (string_bytes report.text)) }
    ensures suspect { IfOk result (λ report. report.suspect ≡ is_suspect_over cut.now (map acting_view judged.entry.acting.now)) }
{
    let report = report_of_cut(alloc, cut, true)?;
    Ok(Report {
        text: with_acting(alloc, report, judged, "a cut with --rewrite", path)?,
        suspect: judged.acting.len() > 0 || has_unknown_opcode(cut.left_out.as_slice()),
    })
}

/// Appends the report of the table at a path, after a line with the path if there are several.
fn push_part(text: &mut String, several: bool, path: &str, report: &str) -> Result<(), AllocError>
    ensures { OnOk result (string_bytes text.new ≡ string_bytes text.old ++ part_text several path.now report.now) }
{
    if several {
        text.push_str("table: ")?;
        text.push_str(path)?;
        text.push('\n')?;
    }
    text.push_str(report)
}

/// The report of the table whose file is at a path. Its notices and remarks are written where its
/// lines are all read.
fn report_at<S: Source, E: Write>(
    alloc: Global,
    source: &mut S,
    path: &str,
    brief: bool,
    err: &mut E,
) -> Result<Report, Failure<LoadFault>>
    ensures report { IfOk result (λ report. IsReportAt brief (S.gives source.old) path.now (string_bytes report.text) report.suspect) }
    ensures fault { IfErr result (IfFault (IsUnloaded (S.gives source.old) path.now)) }
    ensures same { S.gives source.new ≡ S.gives source.old }
{
    let table = load_without_dictionaries(alloc, source, path)?;
    write_notes_if_read(alloc, &table.loaded, err)?;
    Ok(report_of(alloc, &table, brief)?)
}

/// Writes the notices of a table and the remarks on it to standard error, where its lines are all
/// read.
fn write_notes_if_read<E: Write>(
    alloc: Global,
    loaded: &Loaded,
    err: &mut E,
) -> Result<(), AllocError> {
    match table_of_loaded(alloc, loaded) {
        Ok(table) => write_notes(alloc, &table, loaded, err),
        Err(Failure::Fault(_)) => Ok(()),
        Err(Failure::Memory) => Err(AllocError),
    }
}

/// Writes the notices of a table, and the remarks on it, to standard error.
fn write_notes<E: Write>(
    alloc: Global,
    table: &Table,
    loaded: &Loaded,
    err: &mut E,
) -> Result<(), AllocError> {
    write_notices(alloc, table, err)?;
    let lines = loaded.lines(alloc)?;
    write_remarks(alloc, table, lines.as_slice(), err)
}

/// The report of a table that was loaded without its dictionaries.
fn report_of(alloc: Global, table: &WithoutDictionaries, brief: bool) -> Result<Report, AllocError>
    ensures text { let loaded = table.now.loaded in
        IfOk result (λ report. IsReportOf brief (map left_view table.now.skipped.items) loaded.lines loaded.paths (string_bytes report.text)) }
    ensures suspect { IfOk result (λ report. report.suspect ≡ is_suspect_by (survey_of table.now.loaded.lines)) }
{
    let mut text = skipped_text(alloc, table.skipped.as_slice(), brief)?;
    let surveyed = surveyed(alloc, &table.loaded, brief)?;
    text.push_str(surveyed.text.as_str())?;
    let suspect = surveyed.suspect;
    Ok(Report { text, suspect })
}

/// The lines of include lines that were skipped; none where the report is to be brief.
fn skipped_text(alloc: Global, skipped: &[LeftInclude], brief: bool) -> Result<String, AllocError>
    ensures { IfOk result (λ text. string_bytes text ≡ skipped_part brief (map left_view skipped.now)) }
{
    if brief {
        return Ok(String::new(alloc));
    }
    skipped_report(alloc, skipped)
}

/// The report of a survey of loaded files.
fn surveyed(alloc: Global, loaded: &Loaded, brief: bool) -> Result<Report, AllocError>
    ensures text { let lines = loaded.now.lines in
        IfOk result (λ report. IsSurveyText brief (survey_of lines) lines loaded.now.paths (string_bytes report.text)) }
    ensures suspect { IfOk result (λ report. report.suspect ≡ is_suspect_by (survey_of loaded.now.lines)) }
{
    let lines = loaded.lines(alloc)?;
    let paths = loaded.paths(alloc)?;
    let found = survey(alloc, lines.as_slice())?;
    let suspect = is_suspect(&found);
    let text = survey_report(alloc, &found, lines.as_slice(), paths.as_slice(), brief)?;
    Ok(Report { text, suspect })
}

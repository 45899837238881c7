//! `brl cut`: the lines of a table that are read, as a table of its own.
ghost use Rattle.std.specs.Prelude.{◌≡◌, IfOk, map, string_bytes};
ghost use Rattle.brl_acting.specs.WholeTable.{acting_view};
ghost use Rattle.brl_cut.specs.Files.{file_view};
ghost use Rattle.brl_tool.specs.Cutting.{AnswersOver, Cuts, CutsAlone, CutsOver, IsActingAnswer, IsCutAnswer, IsTextOfCut, JudgesCut, new_file_view, status_of_cut, status_over};
ghost use Rattle.brl_without.specs.Alphabet.{alphabet_view};

use crate::acting::{Judged, acting_lines, left_out_places, with_acting};
use crate::alphabet::alphabet_of;
use crate::suspects::has_unknown_opcode;
use brl_answers::{Answer, Files, NewFile, NewFiles, RunFault, Status};
use brl_cli::AlphabetOption;
use brl_cut::{Cut, CutTable, cut_table, mark_lines, written_root};
use brl_lines::GatheredFile;
use brl_report::report_of_cut;
use brl_without::Alphabet;
use std::alloc::{AllocError, Global};

/// What a cut is asked for: the path of the table's file, the folder where the files are written,
/// whether lines are rewritten, and the characters of the texts on which lines are to be judged.
#[derive(Clone, Copy)]
pub struct CutRequest<'a> {
    pub table: &'a str,
    pub dir: &'a str,
    pub rewrite: bool,
    pub only: Option<&'a str>,
}

/// Cuts the table of a file: the answer has the cut's files, which are new, for the folder, its
/// report, and a line that there is no verdict. Lines are rewritten where that is asked for. Where
/// characters are given, it also says which lines of the table can act on texts of these
/// characters. The status is that of a refutation where one can, and where the opcode of a line
/// that is left out is none of liblouis'. `NotDefined` where the cut lacks characters of these.
pub fn cut_by_words<F: Files>(
    alloc: Global,
    files: &mut F,
    asked: CutRequest<'_>,
) -> Result<Answer, RunFault>
    ensures cuts { Cuts asked.entry.only asked.entry.rewrite (F.gives files.old) asked.entry.table.now asked.entry.dir.now result }
    ensures same { F.gives files.new ≡ F.gives files.old }
{
    match asked.only {
        None => cut_alone(alloc, files, asked),
        Some(word) => cut_over(alloc, files, asked, word),
    }
}

/// Cuts a table, where no characters are given.
fn cut_alone<F: Files>(
    alloc: Global,
    files: &mut F,
    asked: CutRequest<'_>,
) -> Result<Answer, RunFault>
    ensures cuts { CutsAlone asked.entry.rewrite (F.gives files.old) asked.entry.table.now asked.entry.dir.now result }
    ensures same { F.gives files.new ≡ F.gives files.old }
{
    let of = cut_table(alloc, files, asked.table, asked.dir, asked.rewrite)?;
    Ok(answer_of(alloc, &of.cut, asked.rewrite)?)
}

/// Cuts a table, and judges its lines on texts of the characters that a word spells.
fn cut_over<F: Files>(
    alloc: Global,
    files: &mut F,
    asked: CutRequest<'_>,
    word: &str,
) -> Result<Answer, RunFault>
    ensures cuts { CutsOver word.entry asked.entry.rewrite (F.gives files.old) asked.entry.table.now asked.entry.dir.now result }
    ensures same { F.gives files.new ≡ F.gives files.old }
{
    let alphabet = alphabet_of(alloc, AlphabetOption::Only(word))?;
    let of = cut_table(alloc, files, asked.table, asked.dir, asked.rewrite)?;
    judge_cut(alloc, &of, asked, &alphabet)
}

/// The answer with a cut, once its lines are judged on texts of an alphabet.
fn judge_cut(
    alloc: Global,
    of: &CutTable,
    asked: CutRequest<'_>,
    alphabet: &Alphabet,
) -> Result<Answer, RunFault>
    ensures { JudgesCut asked.entry.rewrite asked.entry.table.now asked.entry.dir.now (alphabet_view alphabet.now) of.now result }
{
    let acting = acting_lines(alloc, of, alphabet)?;
    let judged = Judged {
        alphabet,
        acting: acting.as_slice(),
    };
    answer_over(alloc, of, asked, judged)
}

/// The answer with a cut whose lines are judged so. Left-out lines that can act are marked.
fn answer_over(
    alloc: Global,
    of: &CutTable,
    asked: CutRequest<'_>,
    judged: Judged<'_>,
) -> Result<Answer, RunFault>
    ensures { AnswersOver asked.entry.rewrite asked.entry.table.now asked.entry.dir.now (alphabet_view judged.entry.alphabet.now) of.now (map acting_view judged.entry.acting.now) result }
{
    let places = left_out_places(alloc, judged.acting)?;
    let marked = mark_lines(alloc, of, asked.table, asked.dir, places.as_slice())?;
    Ok(acting_answer(alloc, &of.cut, asked, judged, marked.as_slice())?)
}

/// The answer with a cut.
fn answer_of(alloc: Global, cut: &Cut, rewrite: bool) -> Result<Answer, AllocError>
    ensures { IfOk result (IsCutAnswer rewrite cut.now) }
{
    let text = text_of_cut(alloc, cut, rewrite)?;
    let files = new_files(alloc, cut.files.as_slice())?;
    Ok(Answer {
        text,
        status: status_of(cut),
        files: NewFiles::AllNew(files),
    })
}

/// The answer with a cut, the lines of it that can act, and its files, where these are marked.
fn acting_answer(
    alloc: Global,
    cut: &Cut,
    asked: CutRequest<'_>,
    judged: Judged<'_>,
    marked: &[GatheredFile],
) -> Result<Answer, AllocError>
    ensures { IfOk result (IsActingAnswer asked.entry.rewrite asked.entry.table.now asked.entry.dir.now (alphabet_view judged.entry.alphabet.now) cut.now (map acting_view judged.entry.acting.now) (map file_view marked.now)) }
{
    let text = text_of_cut(alloc, cut, asked.rewrite)?;
    let root = written_root(alloc, asked.dir, asked.table)?;
    Ok(Answer {
        text: with_acting(alloc, text, judged, root.as_str(), asked.table)?,
        status: status_with(status_of(cut), judged.acting.len()),
        files: NewFiles::AllNew(new_files(alloc, marked)?),
    })
}

/// The status of a cut, where this many lines can act.
fn status_with(status: Status, acting: usize) -> Status
    ensures { result ≡ status_over status acting }
{
    match acting {
        0 => status,
        _ => Status::Refuted,
    }
}

/// The status of a cut.
fn status_of(cut: &Cut) -> Status
    ensures { result ≡ status_of_cut cut.now }
{
    if has_unknown_opcode(cut.left_out.as_slice()) {
        Status::Refuted
    } else {
        Status::Done
    }
}

/// The report of a cut, and a line that there is no verdict.
fn text_of_cut(alloc: Global, cut: &Cut, rewrite: bool) -> Result<String, AllocError>
    ensures { IfOk result (λ text. IsTextOfCut rewrite cut.now (string_bytes text)) }
{
    let mut text = report_of_cut(alloc, cut, rewrite)?;
    text.push_str("no verdict: a cut doesn't decide whether two texts have the same cells\n")?;
    Ok(text)
}

/// Files that are to be written.
fn new_files(alloc: Global, files: &[GatheredFile]) -> Result<Vec<NewFile>, AllocError>
    ensures { IfOk result (λ new. map new_file_view new.items ≡ map file_view files.now) }
{
    let mut new = Vec::with_capacity(alloc, files.len())?;
    for file in files {
        new.push(NewFile {
            path: String::from_str(alloc, file.path.as_str())?,
            bytes: Vec::from_slice(alloc, file.bytes.as_slice())?,
        })?;
    }
    Ok(new)
}

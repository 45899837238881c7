//! The program over any files and streams.
ghost use Rattle.std.specs.Prelude.{◌≡◌};
ghost use Rattle.brl_answers.specs.Delivery.{world};
ghost use Rattle.brl_tool.specs.Diagnosing.{form_by};
ghost use Rattle.brl_tool.specs.Running.{Answers, Asks, IsStatus, KeepsOutput, MayGainFiles, Performs, Replies, ReportsOne, Runs, Translates};

use crate::check::{CheckedFiles, check_by_words};
use crate::clash::compare_by_words;
use crate::clashes::{ListedClashes, list_clashes_by_words};
use crate::cut::{CutRequest, cut_by_words};
use crate::explain::explain_line;
use crate::rules::list_rules_by_file;
use crate::search::{SearchedFiles, search_by_words};
use crate::slips::list_slips_by_file;
use crate::survey::{SurveyRequest, survey_by_words};
use crate::trace::trace_by_word;
use crate::translate::{Translation, translate_by_file};
use crate::unused::list_unused_by_words;
use crate::{Files, Input, Output};
use brl_answers::{Answer, RunFault, Status, deliver};
use brl_clashes::ListForm;
use brl_cli::{NotATask, Question, Task, Words, Work};
use brl_failure::Failure;
use brl_progress::Progress;
use std::alloc::Global;
use std::io::Write;

/// Does what the words ask for, and answers the exit status, 0 to 3: 1 only for a clash, a list, a
/// refusal, or a suspect survey or cut. It is 0 where the work was done, 1 where two texts clash, a
/// certificate is refused, no text uses some rule, a rule is likely to be a slip, a line of a table
/// that is cut or surveyed can act on the texts that are asked for, or a table that is surveyed or
/// cut has an opcode that is none of liblouis' (one that is surveyed also where no line defines a
/// character), 2 where the words, a file, the table, a text, the input or the output had a fault,
/// and 3 where memory ran out, a search decided nothing, or a table is too wide for a certificate
/// of version 1. The first of the words is the program's name.
///
/// Standard output gets the translation, what was found of two texts, of a certificate, by a search
/// or by a survey, the steps of a text, the rules of a table or those of them that no text uses,
/// what a fault means, or help or the version where these are asked for. Standard error gets the
/// notices of a table that is searched or surveyed, the characters that are listed as lacking, one
/// line for a fault (a survey has one for each table that can't be loaded, and goes on), or the
/// text of a use fault; what can't be written there is dropped and changes no status. It also gets
/// reports of how far a search or a check is, and of its end, before its answer is delivered.
/// Faults come in the order of the work: the words, and what they spell, the certificate's file,
/// the table's files, a file for a new certificate or for pairs of rules that is one that is read,
/// the table's lines, a character that is left out and isn't defined, the file of accepted pairs of
/// rules, the texts, the input, the certificate or the search, a line of accepted pairs, the file
/// that gets a certificate or pairs of rules or the files of a table that is cut, the output.
///
/// With `--path` the files of tables are looked for in folders, too; `files` stays with these
/// folders. Files are written only where a search found a certificate or all pairs of rules were
/// listed that are to be written, that file and no other, and where a table is cut, files at whose
/// paths nothing was. A file that was read is refused as the file for the certificate or the pairs
/// before the search.
pub fn run<'a, W: Words<'a>, F: Files, I: Input, O: Output, E: Write + Progress>(
    alloc: Global,
    words: W,
    files: &mut F,
    input: &mut I,
    out: &mut O,
    err: &mut E,
) -> u8
    ensures status { IsStatus result }
    ensures runs { Runs (W.asks words) F.same_file (I.remaining input.old) (λ folders. world (F.gives (F.looked folders files.old)) (O.failures out.old) (O.contents out.old))
        (world (F.gives files.old) (O.failures out.old) (O.contents out.old)) (world (F.gives files.new) (O.failures out.new) (O.contents out.new)) result }
    ensures clash { result ≡ 1 → ReportsOne (λ folders. world (F.gives (F.looked folders files.old)) (O.failures out.old) (O.contents out.old))
        (world (F.gives files.new) (O.failures out.new) (O.contents out.new)) }
    ensures same { result ≡ 1 → MayGainFiles (F.gives files.old) (F.gives files.new) }
{
    match words.work(alloc) {
        Ok(work) => do_work(alloc, work, files, input, out, err).code(),
        Err(reply) => answer_words(alloc, reply, files, out, err).code(),
    }
}

/// Does a task, where the files of tables are looked for in folders, too.
fn do_work<F: Files, I: Input, O: Output, E: Write + Progress>(
    alloc: Global,
    work: Work<'_>,
    files: &mut F,
    input: &mut I,
    out: &mut O,
    err: &mut E,
) -> Status
    ensures performs { Performs work.entry.task F.same_file (I.remaining input.old)
        (world (F.gives (F.looked work.entry.folders files.old)) (O.failures out.old) (O.contents out.old))
        (world (F.gives files.new) (O.failures out.new) (O.contents out.new)) result }
    ensures kept { (F.gives (F.looked work.entry.folders files.old)).may ≡ (F.gives files.old).may }
{
    let Work { task, folders } = work;
    files.look_in(folders);
    perform(alloc, task, files, input, out, err)
}

/// Does a task.
fn perform<F: Files, I: Input, O: Output, E: Write + Progress>(
    alloc: Global,
    task: Task<'_>,
    files: &mut F,
    input: &mut I,
    out: &mut O,
    err: &mut E,
) -> Status
    ensures { Performs task.entry F.same_file (I.remaining input.old) (world (F.gives files.old) (O.failures out.old) (O.contents out.old))
        (world (F.gives files.new) (O.failures out.new) (O.contents out.new)) result }
{
    match task {
        Task::Translate {
            table,
            form,
            lacking,
        } => {
            let wanted = Translation {
                table,
                form,
                lacking,
            };
            translate(alloc, wanted, files, input, out, err)
        }
        Task::Ask(question) => ask(alloc, question, files, out, err),
    }
}

/// Translates the input. Standard error gets the lines of the characters that are listed as
/// lacking.
fn translate<F: Files, I: Input, O: Output, E: Write>(
    alloc: Global,
    wanted: Translation<'_>,
    files: &mut F,
    input: &mut I,
    out: &mut O,
    err: &mut E,
) -> Status
    ensures { Translates wanted.entry.table.now wanted.entry.form wanted.entry.lacking (I.remaining input.old) (world (F.gives files.old) (O.failures out.old) (O.contents out.old))
        (world (F.gives files.new) (O.failures out.new) (O.contents out.new)) result }
{
    match translate_by_file(alloc, files, wanted, input, out) {
        Ok(lacking) if lacking.is_empty() => Status::Done,
        Ok(lacking) => {
            let _ = err.write_all(lacking.as_bytes());
            Status::Faulty
        }
        Err(fault) => fault.report(err),
    }
}

/// Answers a question, and delivers the answer after what a list of clashes printed. Standard error
/// hears of the end of the work before.
fn ask<F: Files, O: Output, E: Write + Progress>(
    alloc: Global,
    question: Question<'_>,
    files: &mut F,
    out: &mut O,
    err: &mut E,
) -> Status
    ensures { Asks question.entry F.same_file (world (F.gives files.old) (O.failures out.old) (O.contents out.old))
        (world (F.gives files.new) (O.failures out.new) (O.contents out.new)) result }
{
    let quiet = !decides(&question);
    let outcome = answer(alloc, question, files, out, err);
    err.end();
    deliver(alloc, outcome, quiet, files, out, err)
}

/// Whether the answer to a question is a verdict on texts or a certificate, whose loss is always
/// reported; readers of other answers may stop at any line.
fn decides(question: &Question<'_>) -> bool {
    matches!(
        question,
        Question::Clash { .. } | Question::Check { .. } | Question::Search { .. }
    )
}

/// The answer to a question. The sections of a list of clashes are printed when they are found.
fn answer<F: Files, O: Output, E: Write + Progress>(
    alloc: Global,
    question: Question<'_>,
    files: &mut F,
    out: &mut O,
    err: &mut E,
) -> Result<Answer, RunFault>
    ensures answers { Answers question.entry F.same_file (world (F.gives files.old) (O.failures out.old) (O.contents out.old))
        (world (F.gives files.new) (O.failures out.new) (O.contents out.new)) result }
    ensures quiet { KeepsOutput question.entry (world (F.gives files.old) (O.failures out.old) (O.contents out.old))
        (world (F.gives files.new) (O.failures out.new) (O.contents out.new)) }
    ensures same { F.gives files.new ≡ F.gives files.old }
{
    match question {
        Question::Clash {
            table,
            left,
            right,
            options,
        } => compare_by_words(alloc, files, table, left, right, options),
        Question::Survey {
            tables,
            brief,
            only,
        } => {
            let asked = SurveyRequest {
                tables: tables.as_slice(),
                brief,
                only,
            };
            survey_by_words(alloc, files, asked, err)
        }
        Question::Trace {
            table,
            text,
            options,
        } => trace_by_word(alloc, files, table, text, options),
        Question::Explain { line } => explain_line(alloc, files, line),
        Question::Rules { table, numbers } => {
            list_rules_by_file(alloc, files, table, numbers.as_slice())
        }
        Question::Unused {
            table,
            limit,
            alphabet,
        } => list_unused_by_words(alloc, files, table, limit, alphabet, err),
        Question::Cut {
            table,
            dir,
            rewrite,
            only,
        } => {
            let asked = CutRequest {
                table,
                dir,
                rewrite,
                only,
            };
            cut_by_words(alloc, files, asked)
        }
        Question::Slips { table, columns } => list_slips_by_file(alloc, files, table, columns),
        Question::Check {
            table,
            cert,
            accept,
            alphabet,
        } => {
            let paths = CheckedFiles {
                table,
                cert,
                accept,
            };
            check_by_words(alloc, files, paths, alphabet, err)
        }
        Question::Search {
            table,
            cert: out,
            limit,
            accept,
            alphabet,
        } => {
            let paths = SearchedFiles { table, out, accept };
            search_by_words(alloc, files, paths, limit, alphabet, err)
        }
        Question::Clashes {
            table,
            limit,
            first,
            key,
            columns,
            alphabet,
            pairs,
        } => {
            let asked = ListedClashes {
                table,
                limit,
                form: list_form(first, key, columns),
                option: alphabet,
                pairs,
            };
            list_clashes_by_words(alloc, files, asked, out, err)
        }
    }
}

/// The form in which pairs of rules are listed: as columns where these are asked for; else by their
/// kinds, unless a number of them or the key of one kind is given.
fn list_form<'a>(first: Option<u32>, key: Option<&'a str>, columns: bool) -> ListForm<'a>
    ensures { result ≡ form_by columns first key.entry }
{
    if columns {
        return ListForm::Columns { key };
    }
    match (first, key) {
        (None, None) => ListForm::Screen,
        (first, key) => ListForm::Pairs {
            first: first.unwrap_or(0) as usize,
            key,
        },
    }
}

/// Answers words that ask for no work: the text of help and of the version goes to standard output,
/// that of a use fault to standard error.
fn answer_words<F: Files, O: Output, E: Write>(
    alloc: Global,
    reply: Failure<NotATask>,
    files: &mut F,
    out: &mut O,
    err: &mut E,
) -> Status
    ensures { Replies reply (world (F.gives files.old) (O.failures out.old) (O.contents out.old))
        (world (F.gives files.new) (O.failures out.new) (O.contents out.new)) result }
{
    match reply {
        Failure::Fault(NotATask::Help(text)) => {
            deliver(
                alloc,
                Ok(Answer::new(Status::Done, text)),
                true,
                files,
                out,
                err,
            )
        }
        Failure::Fault(NotATask::UseFault(text)) => {
            let _ = err.write_all(text.as_bytes());
            Status::Faulty
        }
        Failure::Memory => RunFault::Memory.report(err),
    }
}

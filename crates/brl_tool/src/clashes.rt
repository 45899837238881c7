//! `brl clashes`: every pair of rules of a table at which clashing texts diverge.
ghost use Rattle.std.specs.Prelude.{◌≡◌, IfErr, IfOk, List, Some, map, option_map, string_bytes, ℕ};
ghost use Rattle.std.specs.Option.{option_copied};
ghost use Rattle.brl_answers.specs.Answers.{load_outcome};
ghost use Rattle.brl_answers.specs.Delivery.{world};
ghost use Rattle.brl_clashes.specs.Showing.{asked_of};
ghost use Rattle.brl_lines.specs.Answer.{FileAnswers};
ghost use Rattle.brl_lines.specs.Outcome.{CountsFailure};
ghost use Rattle.brl_lines.specs.Views.{line_view};
ghost use Rattle.brl_tool.specs.Baselines.{IsBaseline, IsFaultOfText, excused_by_text, leaves_stale as stale_stay};
ghost use Rattle.brl_tool.specs.Diagnosing.{AnswersTally, Diagnoses, Lists, ReadsInput, status_of_sections};
ghost use Rattle.brl_without.specs.Alphabet.{alphabet_view, left_out_by};

use crate::Output;
use crate::alphabet::alphabet_of;
use crate::baselines::{Baseline, excused_by, exempt_by, file_of_pairs, refuse_file_that_is_read};
use crate::file_text::text_at;
use crate::loaded_table::LoadedTable;
use crate::notices::write_if_without_characters;
use brl_accepted::StaleLines;
use brl_answers::{Answer, Files, RunFault, Status};
use brl_clashes::{
    ListForm, ListOutcome, ListRequest, Taken, Tally, last_lines, show_list, verdict_text,
};
use brl_cli::{AlphabetOption, PairFiles};
use brl_lines::load;
use brl_progress::Progress;
use brl_without::{Alphabet, LeftOut};
use std::alloc::{AllocError, Global};
use std::io::Write;

/// What a list of clashes is asked for: the path of the table's file, how many states, pairs and
/// pairs of rules a section may find, in which form it is shown, the option of the characters of
/// which texts are made, and the files of pairs of rules.
#[derive(Clone, Copy)]
pub struct ListedClashes<'a> {
    pub table: &'a str,
    pub limit: u32,
    pub form: ListForm<'a>,
    pub option: AlphabetOption<'a>,
    pub pairs: PairFiles<'a>,
}

/// What a list is made of: a table and its files, the alphabet of its texts, the characters of the
/// table that this leaves out, and the text of the file of accepted pairs.
#[derive(Drop)]
pub struct ListInput {
    pub loaded: LoadedTable,
    pub alphabet: Alphabet,
    pub left_out: LeftOut,
    pub baseline: Option<String>,
}

/// Lists the pairs of rules at which clashing texts diverge by the table of a file, as `show_list`
/// does, and answers the verdict, or the fault. The option says of which
/// characters the texts are made. The pairs that the file at `pairs.accept` names are left out,
/// and those that are left go to the file at `pairs.write`, unless there may be others. Its stale
/// lines name none; with `pairs.prune` they are taken out of it. Standard error gets these lines,
/// and reports of progress. `PairsWouldOverwrite` where the file that is written is one of the
/// table's, or that of the accepted pairs and not its own; `NotDefined` where the table lacks
/// characters of the option; `OutputFailed` where a section can't be printed. Before another fault
/// but `Memory` nothing is printed.
pub fn list_clashes_by_words<F: Files, O: Output, E: Write + Progress>(
    alloc: Global,
    files: &mut F,
    asked: ListedClashes<'_>,
    out: &mut O,
    err: &mut E,
) -> Result<Answer, RunFault>
    ensures diagnoses { Diagnoses asked.entry.option F.same_file asked.entry.table.now asked.entry.limit asked.entry.form asked.entry.pairs
        (world (F.gives files.old) (O.failures out.old) (O.contents out.old)) (world (F.gives files.new) (O.failures out.new) (O.contents out.new)) result }
    ensures count { CountsFailure (F.faults files.old) (F.faults files.new) (load_outcome result) }
    ensures same { F.gives files.new ≡ F.gives files.old }
{
    let input = read_input(alloc, files, asked)?;
    list_clashes(alloc, &input, asked, out, err)
}

/// Reads what a list is made of. The file of accepted pairs is read before the work.
fn read_input<F: Files>(
    alloc: Global,
    files: &mut F,
    asked: ListedClashes<'_>,
) -> Result<ListInput, RunFault>
    ensures reads { ReadsInput asked.entry.option (F.gives files.old) F.same_file asked.entry.table.now asked.entry.pairs result }
    ensures count { CountsFailure (F.faults files.old) (F.faults files.new) (load_outcome result) }
    ensures same { F.gives files.new ≡ F.gives files.old }
{
    let alphabet = alphabet_of(alloc, asked.option)?;
    let read = load(alloc, files, asked.table)?;
    refuse_file_that_is_read(alloc, files, &read, asked.pairs)?;
    let loaded = LoadedTable::of(alloc, read)?;
    let left_out = alphabet.left_out(alloc, &loaded.table)?;
    let baseline = baseline_text(alloc, files, asked.pairs.accept)?;
    Ok(ListInput {
        loaded,
        alphabet,
        left_out,
        baseline,
    })
}

/// The text of the file of accepted pairs, where one is asked for.
fn baseline_text<F: Files>(
    alloc: Global,
    files: &mut F,
    accept: Option<&str>,
) -> Result<Option<String>, RunFault>
    ensures text { IfOk result (λ text. IsBaseline (F.gives files.old) (option_copied accept.entry) (option_map string_bytes text)) }
    ensures fault { IfErr result (λ fault. (path : List ℕ) × (option_copied accept.entry ≡ Some path) × IsFaultOfText (F.gives files.old) path fault) }
    ensures count { CountsFailure (F.faults files.old) (F.faults files.new) (load_outcome result) }
    ensures same { F.gives files.new ≡ F.gives files.old }
{
    match accept {
        Some(path) => Ok(Some(text_at(alloc, files, path)?)),
        None => Ok(None),
    }
}

/// Lists the clashes of what was read. Standard error hears of it first where no line defines a
/// character.
fn list_clashes<O: Output, E: Write + Progress>(
    alloc: Global,
    input: &ListInput,
    asked: ListedClashes<'_>,
    out: &mut O,
    err: &mut E,
) -> Result<Answer, RunFault>
    requires { input.now.left_out ≡ left_out_by input.now.loaded.table (alphabet_view input.now.alphabet) }
    ensures { (gives : FileAnswers) → Lists asked.entry.limit asked.entry.form asked.entry.pairs (world gives (O.failures out.old) (O.contents out.old))
        (world gives (O.failures out.new) (O.contents out.new)) input.now result }
{
    let table = &input.loaded.table;
    write_if_without_characters(table, err);
    let lines = input.loaded.files.lines(alloc)?;
    let lines = lines.as_slice();
    let baseline = baseline_of(input, asked.pairs);
    let excused = excused_by(alloc, table, lines, baseline)?;
    let request = ListRequest {
        table,
        lines,
        left_out: &input.left_out,
        excused: &excused,
        limit: asked.limit,
        form: asked.form,
    };
    let tally = show_list(alloc, request, out, err)?;
    Ok(answer_after(alloc, input, asked.pairs, request, baseline, &tally, err)?)
}

/// The file of accepted pairs, where one was read.
fn baseline_of<'a>(input: &'a ListInput, pairs: PairFiles<'a>) -> Option<Baseline<'a>>
    ensures { option_map (λ file. file.text.now) result ≡ option_map string_bytes input.now.baseline }
{
    let text = input.baseline.as_ref()?;
    Some(Baseline {
        path: pairs.accept.unwrap_or_default(),
        text: text.as_str(),
    })
}

/// Writes the stale lines of a file to standard error. What can't be written there is dropped.
fn write_stale<E: Write>(stale: &StaleLines, err: &mut E) {
    for fault in &stale.0 {
        let _ = writeln!(err, "{fault}");
    }
}

/// What comes after the sections of a list: its verdict, the status, and the file that is written.
/// Standard error gets the stale lines of the file of accepted pairs.
fn answer_after<E: Write>(
    alloc: Global,
    input: &ListInput,
    pairs: PairFiles<'_>,
    request: ListRequest<'_>,
    baseline: Option<Baseline<'_>>,
    tally: &Tally,
    err: &mut E,
) -> Result<Answer, AllocError>
    requires { request.excused.now ≡ excused_by_text (option_map (λ file. file.text.now) baseline) request.table.now (map line_view request.lines.now) }
    ensures { IfOk result (AnswersTally (alphabet_view input.now.alphabet) (asked_of request.entry) (option_map (λ file. file.text.now) baseline.entry) pairs.entry tally.now) }
{
    let exempt = exempt_by(alloc, request, tally, baseline, pairs.prune)?;
    write_stale(&exempt.stale, err);
    let files = file_of_pairs(alloc, request, &exempt, tally, pairs)?;
    let verdict = verdict_text(alloc, tally, exempt.taken)?;
    let text = last_lines(alloc, request.form, &input.alphabet, verdict)?;
    Ok(Answer {
        text,
        status: status_of(exempt.taken, tally.outcome()),
        files,
    })
}

/// The status for the outcome of a list, beside what a file takes out of it.
fn status_of(taken: Option<Taken>, outcome: ListOutcome) -> Status
    ensures { result ≡ status_of_sections taken outcome }
{
    match outcome {
        ListOutcome::Unambiguous if leaves_stale(taken) => Status::Faulty,
        ListOutcome::Unambiguous => Status::Done,
        ListOutcome::Clashing => Status::Refuted,
        ListOutcome::Unfinished => Status::Undecided,
    }
}

/// Whether stale lines stay in the file of accepted pairs.
fn leaves_stale(taken: Option<Taken>) -> bool
    ensures { result ≡ stale_stay taken }
{
    match taken {
        Some(taken) => !taken.pruned && taken.stale > 0,
        None => false,
    }
}

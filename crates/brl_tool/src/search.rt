//! `brl search`: whether two texts of a table clash.
ghost use Rattle.std.specs.Prelude.{◌≡◌, ◌≢◌, ℕ, All, IfErr, IfOk, OnOk};
ghost use Rattle.brl_lines.specs.Outcome.{CountsFailure};
ghost use Rattle.std.specs.Option.{option_copied};
ghost use Rattle.brl_answers.specs.Answers.{UnlessMemory, load_outcome};
ghost use Rattle.brl_tool.specs.Baselines.{read_paths as paths_of_read};
ghost use Rattle.brl_tool.specs.Excusing.{ByExcusal};
ghost use Rattle.brl_tool.specs.Verdicts.{IsCertificateAt, IsOverwriting, IsUnexchanged, IsVerdict, Searches};
ghost use Rattle.brl_search.specs.Scoped.{IsSearched};
ghost use Rattle.brl_search.specs.declared.scoped.Searched.TheVariants as searched;
ghost use Rattle.brl_without.specs.Alphabet.{alphabet_view, left_out_by};
ghost use Rattle.brl_without.specs.Tables.{AreDefined};

use crate::alphabet::alphabet_of;
use crate::baselines::read_paths;
use crate::certificate::{certificate_with, certified_text};
use crate::excusing::{ButFor, excusal_by, lines_with};
use crate::loaded_table::LoadedTable;
use crate::notices::write_notices;
use crate::same_file::path_of_file;
use brl_answers::{Answer, Files, RunFault, Status, counts_text};
use brl_cli::AlphabetOption;
use brl_closure::AcceptFault;
use brl_lines::{Loaded, load};
use brl_progress::Progress;
use brl_report::report;
use brl_rules::Table;
use brl_search::{Found, Searched, search_table};
use brl_states::Cert;
use brl_without::{Alphabet, Scope};
use std::alloc::{AllocError, Global};
use std::io::Write;

/// The paths of the files of a search: the table's, the certificate's, and that of what is excused,
/// where there is one.
#[derive(Clone, Copy)]
pub struct SearchedFiles<'a> {
    pub table: &'a str,
    pub out: &'a str,
    pub accept: Option<&'a str>,
}

/// Searches the table of a file, as `search_table` does, with what another file excuses; a
/// certificate is valid, and its file none that is read. The texts are those of the characters of
/// which the option says that they are made. The pairs of rules that the other file names are
/// accepted, and the steps of characters of its sets may be exchanged. The answer is a certificate
/// for the file at `out`, with its numbers; or the report of a clash, at another pair of rules; or
/// why some steps can't be exchanged; or the numbers at which more than `limit` states or pairs
/// were found.
///
/// The option is parsed first. `WouldOverwrite` where `out` names a file that is read, `NotDefined`
/// where the table lacks characters of the option. What is excused is read after that. Before the
/// search standard error gets the table's notices, and then reports of progress.
pub fn search_by_words<F: Files, E: Write + Progress>(
    alloc: Global,
    files: &mut F,
    paths: SearchedFiles<'_>,
    limit: u32,
    option: AlphabetOption<'_>,
    err: &mut E,
) -> Result<Answer, RunFault>
    ensures searches { Searches (F.gives files.old) F.same_file paths.entry.table.now paths.entry.out.now (option_copied paths.entry.accept) limit option.entry result }
    ensures count { CountsFailure (F.faults files.old) (F.faults files.new) (load_outcome result) }
    ensures same { F.gives files.new ≡ F.gives files.old }
{
    let alphabet = alphabet_of(alloc, option)?;
    let read = load(alloc, files, paths.table)?;
    refuse_file_that_is_read(alloc, files, &read, paths.accept, paths.out)?;
    let loaded = LoadedTable::of(alloc, read)?;
    search_loaded(alloc, files, &loaded, paths, limit, &alphabet, err)
}

/// Refuses a file for the certificate that is one of a table's files, or that of what is excused.
fn refuse_file_that_is_read<F: Files>(
    alloc: Global,
    files: &F,
    loaded: &Loaded,
    accept: Option<&str>,
    out: &str,
) -> Result<(), RunFault>
    ensures apart { OnOk result (All (λ one. one ≢ out.now) (paths_of_read loaded.now.paths (option_copied accept.entry))) }
    ensures refused { IfErr result (IsOverwriting F.same_file (paths_of_read loaded.now.paths (option_copied accept.entry)) out.now) }
{
    let paths = read_paths(alloc, loaded, accept)?;
    match path_of_file(alloc, files, paths.as_slice(), out)? {
        Some(path) => Err(RunFault::WouldOverwrite(String::from_str(alloc, path)?)),
        None => Ok(()),
    }
}

/// Searches a table, once it has the characters of an alphabet, but for what the file at a path
/// excuses.
fn search_loaded<F: Files, E: Write + Progress>(
    alloc: Global,
    files: &mut F,
    loaded: &LoadedTable,
    paths: SearchedFiles<'_>,
    limit: u32,
    alphabet: &Alphabet,
    err: &mut E,
) -> Result<Answer, RunFault>
    ensures searches { ByExcusal (alphabet_view alphabet.now) (F.gives files.old) (option_copied paths.entry.accept) loaded.now.table loaded.now.files.lines
        (λ excusal. UnlessMemory (IsVerdict (alphabet_view alphabet.now) (option_copied paths.entry.accept) excusal loaded.now.table paths.entry.out.now limit)) result }
    ensures count { CountsFailure (F.faults files.old) (F.faults files.new) (load_outcome result) }
    ensures same { F.gives files.new ≡ F.gives files.old }
{
    let left_out = alphabet.left_out(alloc, &loaded.table)?;
    let excusal = excusal_by(alloc, files, loaded, paths.accept)?;
    let but_for = ButFor {
        alphabet,
        left_out: &left_out,
        accept: paths.accept,
        excusal: &excusal,
    };
    Ok(verdict(alloc, &loaded.table, but_for, paths.out, limit, err)?)
}

/// Writes a table's notices, and searches it.
fn verdict<E: Write + Progress>(
    alloc: Global,
    table: &Table,
    but_for: ButFor<'_>,
    out: &str,
    limit: u32,
    err: &mut E,
) -> Result<Answer, AllocError>
    requires defined { AreDefined table.now (left_out_by table.now (alphabet_view but_for.alphabet.now)) }
    requires left_out { but_for.left_out.now ≡ left_out_by table.now (alphabet_view but_for.alphabet.now) }
    ensures { IfOk result (IsVerdict (alphabet_view but_for.entry.alphabet.now) (option_copied but_for.entry.accept) but_for.entry.excusal.now table.now out.now limit) }
{
    write_notices(alloc, table, err)?;
    let found = found_but_for(alloc, table, limit, but_for, err)?;
    answer_found(alloc, table, but_for, out, &found)
}

/// What a search of a table finds.
fn found_but_for<P: Progress>(
    alloc: Global,
    table: &Table,
    limit: u32,
    but_for: ButFor<'_>,
    progress: &mut P,
) -> Result<Searched, AllocError>
    requires { but_for.left_out.now ≡ left_out_by table.now (alphabet_view but_for.alphabet.now) }
    ensures { IfOk result (IsSearched (left_out_by table.now (alphabet_view but_for.entry.alphabet.now)) but_for.entry.excusal.now.excused table.now limit) }
{
    let scope = Scope {
        left_out: but_for.left_out,
        excused: &but_for.excusal.excused,
        progress,
    };
    search_table(alloc, table, u64::from(limit), scope)
}

/// The answer with what was found of a table.
fn answer_found(
    alloc: Global,
    table: &Table,
    but_for: ButFor<'_>,
    out: &str,
    found: &Searched,
) -> Result<Answer, AllocError>
    requires defined { AreDefined table.now (left_out_by table.now (alphabet_view but_for.alphabet.now)) }
    requires found { (limit : ℕ) × IsSearched (left_out_by table.now (alphabet_view but_for.alphabet.now)) but_for.excusal.now.excused table.now limit found.now }
    ensures { (limit : ℕ) → IsSearched (left_out_by table.now (alphabet_view but_for.entry.alphabet.now)) but_for.entry.excusal.now.excused table.now limit found.now →
        IfOk result (IsVerdict (alphabet_view but_for.entry.alphabet.now) (option_copied but_for.entry.accept) but_for.entry.excusal.now table.now out.now limit) }
{
    match found {
        Searched::Found(found) => answer_of(alloc, table, but_for, out, found),
        Searched::NotExchangeable(fault) => unexchanged(alloc, fault),
    }
}

/// The answer with a certificate, a clash, or the limit.
fn answer_of(
    alloc: Global,
    table: &Table,
    but_for: ButFor<'_>,
    out: &str,
    found: &Found,
) -> Result<Answer, AllocError>
    requires defined { AreDefined table.now (left_out_by table.now (alphabet_view but_for.alphabet.now)) }
    requires found { (limit : ℕ) × IsSearched (left_out_by table.now (alphabet_view but_for.alphabet.now)) but_for.excusal.now.excused table.now limit (searched.Found found.now) }
    ensures { (limit : ℕ) → IsSearched (left_out_by table.now (alphabet_view but_for.entry.alphabet.now)) but_for.entry.excusal.now.excused table.now limit (searched.Found found.now) →
        IfOk result (IsVerdict (alphabet_view but_for.entry.alphabet.now) (option_copied but_for.entry.accept) but_for.entry.excusal.now table.now out.now limit) }
{
    match found {
        Found::Certified(cert) => certificate(alloc, cert, but_for, out),
        Found::Clashing(clash) => Ok(Answer::new(Status::Refuted, report(alloc, table, clash)?)),
        Found::Limit { states, pairs } => {
            let text = counts_text(alloc, "limit", *states, *pairs)?;
            Ok(Answer::new(Status::Undecided, text))
        }
    }
}

/// The answer where steps of exchanged pairs can't be exchanged everywhere.
fn unexchanged(alloc: Global, fault: &AcceptFault) -> Result<Answer, AllocError>
    ensures { IfOk result IsUnexchanged }
{
    let reason = fault.to_string(alloc)?;
    let text = format!(in alloc; "not exchangeable: {reason}\n")?;
    Ok(Answer::new(Status::Undecided, text))
}

/// The answer with a certificate for the file at a path.
fn certificate(
    alloc: Global,
    cert: &Cert,
    but_for: ButFor<'_>,
    path: &str,
) -> Result<Answer, AllocError>
    ensures { IfOk result (IsCertificateAt (alphabet_view but_for.entry.alphabet.now) (option_copied but_for.entry.accept) but_for.entry.excusal.now path.now cert.now) }
{
    let line = certified_text(alloc, cert)?;
    let text = lines_with(alloc, line, but_for)?;
    certificate_with(alloc, cert, path, text)
}

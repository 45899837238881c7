//! The files of pairs of rules of `brl clashes`: what one excuses, and what is written.
ghost use Rattle.std.specs.Prelude.{◌≡◌, IfErr, IfOk, OnOk, if◌then◌else◌, length, map, option_map, string_bytes};
ghost use Rattle.std.specs.Option.{option_copied};
ghost use Rattle.brl_accepted.specs.Reading.{accepted_count as accepted_among, excused_of, if_whole as list_if_whole};
ghost use Rattle.brl_lines.specs.Views.{line_view};
ghost use Rattle.brl_tool.specs.Baselines.{
  AreFilesWith,
  IsApart,
  IsOverwritingRead,
  excused_by_text,
  is_written_by,
  only_read as paths_only_read,
  pruned_by,
  read_paths as paths_of_read,
  taken_by,
  text_of_listed,
  written_path as path_to_write,
};

use crate::same_file::path_of_file;
use brl_accepted::{
    Counts, Excusal, Nameable, StaleLines, accepted_count, excused_count, read_excusal,
    write_accepted,
};
use brl_answers::{Files, NewFile, NewFiles, RunFault};
use brl_clashes::{ListRequest, Taken, Tally, character_sets};
use brl_cli::PairFiles;
use brl_lines::{Line, Loaded};
use brl_pairs::{Excused, RulePairs};
use brl_rules::Table;
use std::alloc::{AllocError, Global};

/// Refuses a file that is to be written where it is one of a table's files, or that of the accepted
/// pairs, unless its stale lines are to be taken out.
pub fn refuse_file_that_is_read<F: Files>(
    alloc: Global,
    files: &F,
    loaded: &Loaded,
    pairs: PairFiles<'_>,
) -> Result<(), RunFault>
    ensures apart { OnOk result (IsApart (path_to_write pairs.entry) (paths_only_read loaded.now.paths pairs.entry)) }
    ensures refused { IfErr result (IsOverwritingRead F.same_file (paths_only_read loaded.now.paths pairs.entry) (path_to_write pairs.entry)) }
{
    let Some(out) = written_path(pairs) else {
        return Ok(());
    };
    let paths = only_read(alloc, loaded, pairs)?;
    match path_of_file(alloc, files, paths.as_slice(), out)? {
        Some(path) => {
            let path = String::from_str(alloc, path)?;
            Err(RunFault::PairsWouldOverwrite(path))
        }
        None => Ok(()),
    }
}

/// The path of the file that is written: that of the accepted pairs, where its stale lines are
/// taken out, else that which gets the pairs.
fn written_path<'a>(pairs: PairFiles<'a>) -> Option<&'a str>
    ensures { option_copied result ≡ path_to_write pairs.entry }
{
    if pairs.prune {
        pairs.accept
    } else {
        pairs.write
    }
}

/// The paths of the files that are only read.
fn only_read<'a>(
    alloc: Global,
    loaded: &'a Loaded,
    pairs: PairFiles<'a>,
) -> Result<Vec<&'a str>, AllocError>
    ensures { IfOk result (λ paths. map (λ one. one.now) paths.items ≡ paths_only_read loaded.now.paths pairs.entry) }
{
    if pairs.prune {
        return read_paths(alloc, loaded, None);
    }
    read_paths(alloc, loaded, pairs.accept)
}

/// The paths of the files that are read: those of a table, and that of the accepted pairs.
pub(crate) fn read_paths<'a>(
    alloc: Global,
    loaded: &'a Loaded,
    accept: Option<&'a str>,
) -> Result<Vec<&'a str>, AllocError>
    ensures { IfOk result (λ paths. map (λ one. one.now) paths.items ≡ paths_of_read loaded.now.paths (option_copied accept.entry)) }
{
    let mut paths = loaded.paths(alloc)?;
    if let Some(path) = accept {
        paths.push(path)?;
    }
    Ok(paths)
}

/// A file of pairs of rules: its path, and its text.
#[derive(Clone, Copy)]
pub struct Baseline<'a> {
    pub path: &'a str,
    pub text: &'a str,
}

/// What a file excuses of the pairs of a list, and its stale lines.
#[derive(Drop)]
pub struct Exempt {
    /// How much it excuses, where a file is read.
    pub taken: Option<Taken>,
    pub stale: StaleLines,
    /// The text of the file without its stale lines.
    pub kept: String,
}

/// What a file excuses, whatever is listed; nothing without a file.
pub fn excused_by(
    alloc: Global,
    table: &Table,
    lines: &[Line<'_>],
    baseline: Option<Baseline<'_>>,
) -> Result<Excused, AllocError>
    ensures { IfOk result (λ excused. excused ≡ excused_by_text (option_map (λ file. file.text.now) baseline.entry) table.now (map line_view lines.now)) }
{
    let Some(file) = baseline else {
        return Ok(Excused::nothing(alloc));
    };
    let sets = character_sets(alloc, table)?;
    let known = Nameable::new(table, lines, sets.as_slice());
    let excusal = read_excusal(alloc, known, None, file.path, file.text)?;
    Ok(excusal.excused)
}

/// How much a file excuses of the pairs that the sections of a list have, and its stale lines;
/// nothing without a file. The list is beside what it excuses.
pub fn exempt_by(
    alloc: Global,
    asked: ListRequest<'_>,
    tally: &Tally,
    baseline: Option<Baseline<'_>>,
    prune: bool,
) -> Result<Exempt, AllocError>
    requires { asked.excused.now ≡ excused_by_text (option_map (λ file. file.text.now) baseline) asked.table.now (map line_view asked.lines.now) }
    ensures taken { IfOk result (λ exempt. exempt.taken ≡ taken_by (option_map (λ file. file.text.now) baseline.entry) prune asked.entry.table.now (map line_view asked.entry.lines.now) tally.now.found tally.now.whole) }
    ensures kept { IfOk result (λ exempt. string_bytes exempt.kept ≡ pruned_by (option_map (λ file. file.text.now) baseline.entry) asked.entry.table.now (map line_view asked.entry.lines.now) tally.now.found tally.now.whole) }
{
    let Some(file) = baseline else {
        return Ok(Exempt {
            taken: None,
            stale: StaleLines(Vec::new(alloc)),
            kept: String::new(alloc),
        });
    };
    let sets = character_sets(alloc, asked.table)?;
    let known = Nameable::new(asked.table, asked.lines, sets.as_slice());
    let listed = RulePairs::new(alloc, tally.found.to_vec(alloc)?)?;
    let list = if_whole(tally.whole, &listed);
    let excusal = read_excusal(alloc, known, list, file.path, file.text)?;
    let taken = taken_of(asked.excused, &excusal, listed.as_slice(), prune);
    let Excusal { stale, kept, .. } = excusal;
    Ok(Exempt {
        taken: Some(taken),
        stale: StaleLines(stale),
        kept,
    })
}

/// The numbers that an answer gives of a file: what it excuses, beside its stale lines, of the
/// pairs that are listed.
fn taken_of(excused: &Excused, excusal: &Excusal, listed: &[(u32, u32)], prune: bool) -> Taken
    ensures { result ≡ record { listed = length (excused_of excused.now listed.now); counts = record { pairs = accepted_among excused.now listed.now; sets = excusal.now.sets }; stale = length excusal.now.stale.items; pruned = prune } }
{
    Taken {
        listed: excused_count(excused, listed),
        counts: Counts {
            pairs: accepted_count(excused, listed),
            sets: excusal.sets,
        },
        stale: excusal.stale.len(),
        pruned: prune,
    }
}

/// A list of pairs, where it is whole.
fn if_whole(whole: bool, listed: &RulePairs) -> Option<&RulePairs>
    ensures { option_copied result ≡ list_if_whole whole listed.entry.now }
{
    if whole { Some(listed) } else { None }
}

/// The file that is written: the file of accepted pairs without its stale lines, where it has some
/// and these are to be taken out; else the file with the pairs of rules that are left, where a path
/// is given for it and the list is whole.
pub fn file_of_pairs(
    alloc: Global,
    asked: ListRequest<'_>,
    exempt: &Exempt,
    tally: &Tally,
    pairs: PairFiles<'_>,
) -> Result<NewFiles, AllocError>
    ensures { IfOk result (AreFilesWith (path_to_write pairs.entry) (is_written_by pairs.entry.prune exempt.now.taken tally.now.whole)
        (if pairs.entry.prune then string_bytes exempt.now.kept else text_of_listed asked.entry.table.now (map line_view asked.entry.lines.now) tally.now.left)) }
{
    let Some(path) = written_path(pairs) else {
        return Ok(NewFiles::Nothing);
    };
    if !is_written(pairs.prune, exempt.taken, tally.whole) {
        return Ok(NewFiles::Nothing);
    }
    let path = String::from_str(alloc, path)?;
    let bytes = content(alloc, asked, exempt, tally, pairs.prune)?;
    Ok(NewFiles::InPlace(NewFile { path, bytes }))
}

/// What is written.
fn content(
    alloc: Global,
    asked: ListRequest<'_>,
    exempt: &Exempt,
    tally: &Tally,
    prune: bool,
) -> Result<Vec<u8>, AllocError>
    ensures { IfOk result (λ bytes. bytes.items ≡ (if prune then string_bytes exempt.now.kept else text_of_listed asked.entry.table.now (map line_view asked.entry.lines.now) tally.now.left)) }
{
    if prune {
        return Vec::from_slice(alloc, exempt.kept.as_bytes());
    }
    let pairs = tally.left.to_vec(alloc)?;
    let text = pairs_text(alloc, asked, pairs.as_slice())?;
    Ok(text.into_bytes())
}

/// The text of a file with these pairs of a table's rules.
fn pairs_text(
    alloc: Global,
    asked: ListRequest<'_>,
    pairs: &[(u32, u32)],
) -> Result<String, AllocError>
    ensures { IfOk result (λ text. string_bytes text ≡ text_of_listed asked.entry.table.now (map line_view asked.entry.lines.now) pairs.now) }
{
    let sets = character_sets(alloc, asked.table)?;
    let known = Nameable::new(asked.table, asked.lines, sets.as_slice());
    write_accepted(alloc, known, pairs)
}

/// Whether a file is written: where lines are stale that are to be taken out, or where the list is
/// whole.
fn is_written(prune: bool, taken: Option<Taken>, whole: bool) -> bool
    ensures { result ≡ is_written_by prune taken whole }
{
    if !prune {
        return whole;
    }
    match taken {
        Some(taken) => taken.stale > 0,
        None => false,
    }
}

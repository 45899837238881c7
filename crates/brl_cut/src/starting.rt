//! The files of a cut before they are written: rewritten, and settled.
ghost use Rattle.std.specs.Prelude.{◌≡◌, IfErr, IfOk, Ok, false, map, string_bytes};
ghost use Rattle.brl_failure.specs.Failure.{IfFault};
ghost use Rattle.brl_cut.specs.Cuts.{IsUnloaded};
ghost use Rattle.brl_cut.specs.Files.{edit_view, file_view};
ghost use Rattle.brl_cut.specs.Rewriting.{rewritten as rewritten_by};
ghost use Rattle.brl_cut.specs.RewritingViews.{around_view};
ghost use Rattle.brl_cut.specs.Rounds.{IsSurveyed, IsUnsettled, SettlesTo};
ghost use Rattle.brl_cut.specs.Settling.{lines_among};

use crate::files::{Edit, load_files};
use crate::rewriting::{Around, Rewritten, rewrite_files};
use crate::rounds::{Settled, Surveyed, settle, survey_files, survey_loaded};
use brl_failure::Failure;
use brl_lines::{GatheredFile, LoadFault, Loaded};
use std::alloc::Global;

/// The lines of files, the edits that rewrote them, the files that were made, and what was found
/// then.
#[derive(Drop)]
pub(crate) struct Started {
    pub whole: Loaded,
    pub edits: Vec<Edit>,
    pub made: Vec<GatheredFile>,
    pub settled: Settled,
}

/// Surveys files that may have been rewritten. Those that weren't have the lines that were loaded.
fn survey_rewritten(
    alloc: Global,
    around: Around<'_>,
    whole: &Loaded,
    files: &[GatheredFile],
    rewrite: bool,
) -> Result<Surveyed, Failure<LoadFault>>
    requires { rewrite ≡ false → lines_among (map string_bytes around.folders.now) (map file_view files.now) around.root.now ≡ Ok whole.now.lines }
    ensures found { IfOk result (IsSurveyed (map string_bytes around.entry.folders.now) around.entry.root.now (map file_view files.now)) }
    ensures fault { IfErr result (IfFault (IsUnsettled (map string_bytes around.entry.folders.now) around.entry.root.now (map file_view files.now))) }
{
    if rewrite {
        return survey_files(alloc, around.folders, files, around.root);
    }
    Ok(survey_loaded(alloc, whole)?)
}

/// Settles files that may have been rewritten.
fn settle_rewritten(
    alloc: Global,
    around: Around<'_>,
    whole: &Loaded,
    files: Vec<GatheredFile>,
    rewrite: bool,
) -> Result<Settled, Failure<LoadFault>>
    requires { rewrite ≡ false → lines_among (map string_bytes around.folders.now) (map file_view files.items) around.root.now ≡ Ok whole.now.lines }
    ensures settled { IfOk result (SettlesTo (map string_bytes around.entry.folders.now) around.entry.root.now (map file_view files.items)) }
    ensures fault { IfErr result (IfFault (IsUnsettled (map string_bytes around.entry.folders.now) around.entry.root.now (map file_view files.items))) }
{
    let first = survey_rewritten(alloc, around, whole, files.as_slice(), rewrite)?;
    settle(alloc, around.folders, files, around.root, first)
}

/// Loads the files of a table, rewrites them where this is asked for, and settles them.
pub(crate) fn start_cut(
    alloc: Global,
    around: Around<'_>,
    files: Vec<GatheredFile>,
    rewrite: bool,
) -> Result<Started, Failure<LoadFault>>
    ensures whole { IfOk result (λ new. lines_among (map string_bytes around.entry.folders.now) (map file_view files.items) around.entry.root.now ≡ Ok new.whole.lines) }
    ensures edits { IfOk result (λ new. map edit_view new.edits.items ≡ (rewritten_by rewrite (around_view around.entry) (map file_view files.items)).edits) }
    ensures made { IfOk result (λ new. map file_view new.made.items ≡ (rewritten_by rewrite (around_view around.entry) (map file_view files.items)).made) }
    ensures settled { IfOk result (λ new.
        SettlesTo (map string_bytes around.entry.folders.now) around.entry.root.now (rewritten_by rewrite (around_view around.entry) (map file_view files.items)).files new.settled) }
    ensures fault { IfErr result (IfFault (IsUnloaded rewrite (around_view around.entry) (map file_view files.items))) }
{
    let whole = load_files(alloc, around.folders, files.as_slice(), around.root)?;
    let rewritten = rewrite_files(alloc, around, &whole, files, rewrite)?;
    let Rewritten { files, edits, made } = rewritten;
    let settled = settle_rewritten(alloc, around, &whole, files, rewrite)?;
    Ok(Started {
        whole,
        edits,
        made,
        settled,
    })
}

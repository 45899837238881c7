//! The file that an include line leads to.
ghost use Rattle.std.specs.Prelude.{◌≡◌, None, Some, false, true, if◌then◌else◌, IfErr, IfOk, List, ℕ, option_map, string_bytes};
ghost use Rattle.std.specs.List.{list_any};
ghost use Rattle.std.specs.Str.{bytes_eq};
ghost use Rattle.brl_failure.specs.Failure.{IfFault};
ghost use Rattle.brl_lines.specs.Files.{answers_of, chain_of};
ghost use Rattle.brl_lines.specs.Answer.{FileAnswers};
ghost use Rattle.brl_lines.specs.Gathered.{way_view};
ghost use Rattle.brl_lines.specs.Lines.{gathers as gathers_by, refusal as refusal_of, with_left};
ghost use Rattle.brl_lines.specs.Outcome.{AreGiven, CountsFailure, is_read_failed};
ghost use Rattle.brl_lines.specs.Steps.{FailsFrom, IsSeen, Opens, Takes, at_in, comes_again as comes_again_by, enter_in, take_in};
ghost use Rattle.brl_lines.specs.Views.{load_fault_view, location_ref_view};

use crate::expand::Expansion;
use crate::fault::{LoadFault, LoadFaultKind, LocationRef, refusal};
use crate::finding::locate;
use crate::include::{IncludeLine, included};
use crate::open_file::OpenFile;
use crate::read::index_at;
use crate::source::Source;
use crate::way::{IncludeReason, IncludeRef, Policy, Way};
use brl_failure::Failure;
use std::alloc::Global;

/// The file that an include line leads to, if it is followed.
pub(crate) fn enter<S: Source>(
    alloc: Global,
    source: &mut S,
    table: &mut Expansion,
    policy: Policy,
    root: &str,
    file: &OpenFile,
    include: &IncludeLine,
) -> Result<Option<OpenFile>, Failure<LoadFault>>
    requires { AreGiven (S.gives source.old) (answers_of table.old.files.entries) }
    ensures ok { IfOk result (Takes (S.gives source.old) policy root.now file.now table.old table.new
        (λ answer. take_in policy (S.gives source.old).folders root.now file.now answer (record { file = string_bytes file.now.path; line = include.now.line }) (string_bytes include.now.name))) }
    ensures err { IfErr result (FailsFrom (S.gives source.old) table.old
        (λ answer. take_in policy (S.gives source.old).folders root.now file.now answer (record { file = string_bytes file.now.path; line = include.now.line }) (string_bytes include.now.name))) }
    ensures count { CountsFailure (S.faults source.old) (S.faults source.new) result }
    ensures same { S.gives source.new ≡ S.gives source.old }
{
    let include = IncludeRef {
        place: file.place(include.line),
        name: include.name.as_str(),
    };
    if table.way.passes(alloc, policy, include)? {
        return Ok(None);
    }
    look_for(alloc, source, table, policy, root, file, include)
}

/// The file of an include line that is looked for, if it is followed.
fn look_for<S: Source>(
    alloc: Global,
    source: &mut S,
    table: &mut Expansion,
    policy: Policy,
    root: &str,
    file: &OpenFile,
    include: IncludeRef<'_>,
) -> Result<Option<OpenFile>, Failure<LoadFault>>
    requires { AreGiven (S.gives source.old) (answers_of table.old.files.entries) }
    ensures ok { IfOk result (Takes (S.gives source.old) policy root.now file.now table.old table.new
        (λ answer. enter_in policy (S.gives source.old).folders root.now file.now answer (location_ref_view include.entry.place) include.entry.name.now)) }
    ensures err { IfErr result (FailsFrom (S.gives source.old) table.old
        (λ answer. enter_in policy (S.gives source.old).folders root.now file.now answer (location_ref_view include.entry.place) include.entry.name.now)) }
    ensures count { CountsFailure (S.faults source.old) (S.faults source.new) result }
    ensures same { S.gives source.new ≡ S.gives source.old }
{
    let usual = included(alloc, root, include.name)?;
    let usual = usual.as_str();
    let place = Some(include.place);
    if table.way.is_full() {
        let kind = LoadFaultKind::TooManyIncludes;
        return Err(refusal(alloc, kind, usual, place));
    }
    if file.depth_left == 0 && !policy.gathers() {
        return Err(too_deep(alloc, file, usual, place));
    }
    let path = locate(alloc, source, &mut table.files, usual, include.name, place)?;
    open_at(alloc, table, policy, file, include, path)
}

/// Why the file at a path, to which a file leads, is refused where it would be too deep: it leads
/// to itself, or it is too deep.
fn too_deep(
    alloc: Global,
    file: &OpenFile,
    path: &str,
    place: Option<LocationRef<'_>>,
) -> Failure<LoadFault>
    ensures { IfFault (λ fault. refusal_of (if list_any (bytes_eq path.now) (chain_of file.now) then LoadFaultKind.Cycle else LoadFaultKind.TooDeep) path.now (option_map location_ref_view place.entry) ≡ load_fault_view fault) result }
{
    let kind = if file.is_led_to_by(path) {
        LoadFaultKind::Cycle
    } else {
        LoadFaultKind::TooDeep
    };
    refusal(alloc, kind, path, place)
}

/// The file at a path to which an include line leads, if it is followed. Where there is none, or
/// the walk came to it before, the line is refused or left out.
fn open_at(
    alloc: Global,
    table: &mut Expansion,
    policy: Policy,
    file: &OpenFile,
    include: IncludeRef<'_>,
    path: String,
) -> Result<Option<OpenFile>, Failure<LoadFault>>
    requires { IsSeen table.old.files.entries (string_bytes path) }
    ensures ok { (gives : FileAnswers) (root : List ℕ) → AreGiven gives (answers_of table.old.files.entries) → IfOk result (Takes gives policy root file.now table.old table.new
        (λ answer. at_in policy gives.folders root file.now (string_bytes path) answer (location_ref_view include.entry.place) include.entry.name.now)) }
    ensures err { (gives : FileAnswers) (root : List ℕ) → AreGiven gives (answers_of table.old.files.entries) → IfErr result (FailsFrom gives table.old
        (λ answer. at_in policy gives.folders root file.now (string_bytes path) answer (location_ref_view include.entry.place) include.entry.name.now)) }
    ensures read { IfErr result (IfFault (λ fault. is_read_failed fault.kind ≡ false)) }
{
    let at = path.as_str();
    let Some(index) = index_at(&table.files, at) else {
        let (reason, kind) = (IncludeReason::Missing, LoadFaultKind::NotFound);
        return stop(alloc, &mut table.way, policy, include, at, reason, kind);
    };
    if comes_again(&table.way, policy, file, at) {
        let (reason, kind) = (IncludeReason::Repeated, LoadFaultKind::Cycle);
        return stop(alloc, &mut table.way, policy, include, at, reason, kind);
    }
    let inner = open(alloc, &mut table.way, file, include, path, index)?;
    Ok(Some(inner))
}

/// Whether a walk came to the file at a path before: at all, where files are gathered, and else on
/// the way to the file that leads to it.
fn comes_again(way: &Way, policy: Policy, file: &OpenFile, path: &str) -> bool
    ensures { result ≡ comes_again_by (gathers_by policy) (way_view way.now) (chain_of file.now) path.now }
{
    if policy.gathers() {
        way.has(path)
    } else {
        file.is_led_to_by(path)
    }
}

/// Follows no include line: it is left out for a reason where files are gathered, and else refused.
fn stop(
    alloc: Global,
    way: &mut Way,
    policy: Policy,
    include: IncludeRef<'_>,
    path: &str,
    reason: IncludeReason,
    kind: LoadFaultKind,
) -> Result<Option<OpenFile>, Failure<LoadFault>>
    ensures ok { IfOk result (λ inner. (inner ≡ None) × (gathers_by policy ≡ true) × (way_view way.new ≡ with_left (location_ref_view include.entry.place) include.entry.name.now reason (way_view way.old))) }
    ensures err { IfErr result (IfFault (λ fault. (gathers_by policy ≡ false) × (refusal_of kind path.now (Some (location_ref_view include.entry.place)) ≡ load_fault_view fault))) }
{
    if policy.gathers() {
        way.leave(alloc, include, reason)?;
        return Ok(None);
    }
    Err(refusal(alloc, kind, path, Some(include.place)))
}

/// Goes on to the file with an index, which was found at a path.
fn open(
    alloc: Global,
    way: &mut Way,
    file: &OpenFile,
    include: IncludeRef<'_>,
    path: String,
    index: usize,
) -> Result<OpenFile, Failure<LoadFault>>
    ensures ok { IfOk result (Opens way.old way.new file.now include.entry.name.now path index) }
    ensures err { IfErr result (IfFault (λ fault. (file.now.depth_left ≡ 0) × (refusal_of LoadFaultKind.TooDeep (string_bytes path) (Some (location_ref_view include.entry.place)) ≡ load_fault_view fault))) }
{
    if file.depth_left == 0 {
        let place = Some(include.place);
        return Err(refusal(alloc, LoadFaultKind::TooDeep, path.as_str(), place));
    }
    way.add_file(alloc, path.as_str(), include.name)?;
    let includers = file.chain(alloc)?;
    Ok(OpenFile {
        index,
        path,
        includers,
        depth_left: file.depth_left - 1,
    })
}

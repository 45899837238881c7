//! Rewrites lines of files, so that they are read.
ghost use Rattle.std.specs.Prelude.{◌≡◌, [], ◌∷◌, ◌++◌, IfOk, Ok, filter, is_some, length, map, string_bytes};
ghost use Rattle.std.specs.List.{list_any};
ghost use Rattle.std.specs.Option.{option_map_or};
ghost use Rattle.std.specs.Result.{is_ok};
ghost use Rattle.std.specs.Str.{bytes_eq};
ghost use Rattle.brl_acting.specs.Sets.{is_one_of};
ghost use Rattle.brl_lines.specs.Views.{line_view, location_view};
ghost use Rattle.brl_cut.specs.Edits.{is_of};
ghost use Rattle.brl_cut.specs.Files.{edit_view, file_view};
ghost use Rattle.brl_cut.specs.LetsignViews.{known_view};
ghost use Rattle.brl_cut.specs.Letsigns.{include_edit as include_edit_by, is_taken as is_taken_by, made_file, made_name, made_path, sign_edits as sign_edits_by};
ghost use Rattle.brl_cut.specs.Rewriting.{base_edits, changed as changed_by, is_rewritten as is_rewritten_by, known_lines, last_change as last_change_by, lines_in, may_change as may_change_by, rewritten as rewritten_by, with_definitions, with_last_change};
ghost use Rattle.brl_cut.specs.RewritingViews.{around_view, change_from, change_view, contraction_change_of, contractions_of, rewritten_view, sign_change_of};
ghost use Rattle.brl_cut.specs.Settling.{lines_among};
ghost use Rattle.brl_cut.specs.Signs.{sign_view};

use crate::base::base_of_lines;
use crate::contraction::{Given, contraction_edits};
use crate::files::{Edit, edit_files, load_files};
use crate::letsign::{Known, made_text, sign_edits};
use crate::noback::noback_of_lines;
use crate::signs::{Sign, letsign_of};
use brl_acting::Letters;
use brl_failure::Failure;
use brl_lines::{GatheredFile, Line, Loaded, Location, folder};
use std::alloc::{AllocError, Global};

/// The name of the file that is made for a letter sign.
pub(crate) const MADE_NAME: &str = "letsign-made.cti";

/// Where the files of a table are: the folders in which they are looked for, their names, and the
/// path of the root.
#[derive(Clone, Copy)]
pub(crate) struct Around<'a> {
    pub folders: &'a [String],
    pub names: &'a [String],
    pub root: &'a str,
    /// The path at which the root was found.
    pub home: &'a str,
}

/// Edits of files, and files that are made.
#[derive(Drop)]
pub(crate) struct Change {
    pub edits: Vec<Edit>,
    pub made: Vec<GatheredFile>,
}

/// Files whose lines are rewritten, the edits that did it, and the files that were made.
#[derive(Drop)]
pub(crate) struct Rewritten {
    pub files: Vec<GatheredFile>,
    pub edits: Vec<Edit>,
    pub made: Vec<GatheredFile>,
}

/// The table whose root has a path, of these files and no others, which are looked for in these
/// folders too; `None` where it can't be loaded.
fn load_if_whole(
    alloc: Global,
    folders: &[String],
    files: &[GatheredFile],
    root: &str,
) -> Result<Option<Loaded>, AllocError>
    ensures lines { IfOk result (λ loaded. option_map_or (λ l. l.lines) loaded [] ≡ known_lines (map string_bytes folders.now) root.now (map file_view files.now)) }
    ensures whole { IfOk result (λ loaded. is_some loaded ≡ is_ok (lines_among (map string_bytes folders.now) (map file_view files.now) root.now)) }
{
    match load_files(alloc, folders, files, root) {
        Ok(loaded) => Ok(Some(loaded)),
        Err(Failure::Fault(_)) => Ok(None),
        Err(Failure::Memory) => Err(AllocError),
    }
}

/// The lines of a table; none where it can't be loaded.
fn lines_of(alloc: Global, loaded: &Option<Loaded>) -> Result<Vec<Line<'_>>, AllocError>
    ensures { IfOk result (λ lines. map line_view lines.items ≡ option_map_or (λ l. l.lines) loaded.now []) }
{
    match loaded {
        Some(loaded) => loaded.lines(alloc),
        None => Ok(Vec::new(alloc)),
    }
}

/// The edits of lines that begin with `base uppercase` in these files.
fn base_edits_in(
    alloc: Global,
    around: Around<'_>,
    files: &[GatheredFile],
) -> Result<Vec<Edit>, AllocError>
    ensures { IfOk result (λ edits. map edit_view edits.items ≡ base_edits (lines_in (around_view around.entry) (map file_view files.now))) }
{
    let loaded = load_if_whole(alloc, around.folders, files, around.root)?;
    let lines = lines_of(alloc, &loaded)?;
    base_of_lines(alloc, lines.as_slice())
}

/// Rewrites the lines of files, which were loaded, that become definitions.
fn rewrite_definitions(
    alloc: Global,
    around: Around<'_>,
    whole: &Loaded,
    files: &[GatheredFile],
) -> Result<Rewritten, AllocError>
    requires { lines_among (map string_bytes around.folders.now) (map file_view files.now) around.root.now ≡ Ok whole.now.lines }
    ensures { IfOk result (λ new. rewritten_view new ≡ with_definitions (around_view around.entry) (map file_view files.now)) }
{
    let lines = whole.lines(alloc)?;
    let mut edits = noback_of_lines(alloc, lines.as_slice())?;
    let after = edit_files(alloc, files, edits.as_slice())?;
    let mut more = base_edits_in(alloc, around, after.as_slice())?;
    let files = edit_files(alloc, after.as_slice(), more.as_slice())?;
    edits.append(&mut more)?;
    let made = Vec::new(alloc);
    Ok(Rewritten { files, edits, made })
}

/// The change of the `contraction` lines alone.
fn contraction_change(
    alloc: Global,
    given: &Given,
    lines: &[Line<'_>],
) -> Result<Change, AllocError>
    ensures { IfOk result (λ change. change_view change ≡ contraction_change_of given.now.characters.entries given.now.signs.items (map line_view lines.now)) }
{
    Ok(Change {
        edits: contraction_edits(alloc, given, lines)?,
        made: Vec::new(alloc),
    })
}

/// The edit by which the line that gives a sign includes the file that is made.
fn include_edit(alloc: Global, sign: &Sign<'_>) -> Result<Edit, AllocError>
    ensures { IfOk result (λ edit. edit_view edit ≡ include_edit_by (sign_view sign.now)) }
{
    let prefix = String::from_str(alloc, "include letsign-made.cti # ")?;
    Edit::new(alloc, sign.file, sign.line, prefix)
}

/// The path of the file that is made: beside the root.
fn made_path_of(alloc: Global, root: &str) -> Result<String, AllocError>
    ensures { IfOk result (λ path. string_bytes path ≡ made_path root.now) }
{
    let mut path = String::from_str(alloc, folder(root))?;
    path.push_str(MADE_NAME)?;
    Ok(path)
}

/// The file that is made of these lines, as the only one.
fn made_files(
    alloc: Global,
    root: &str,
    known: Known<'_>,
    lines: &[Line<'_>],
) -> Result<Vec<GatheredFile>, AllocError>
    ensures { IfOk result (λ made. map file_view made.items ≡ made_file root.now (known_view known.entry) (map line_view lines.now) ∷ []) }
{
    let mut made = Vec::with_capacity(alloc, 1)?;
    made.push(GatheredFile {
        path: made_path_of(alloc, root)?,
        bytes: made_text(alloc, known, lines)?,
    })?;
    Ok(made)
}

/// The edits of the `contraction` lines and of the line that gives a sign.
fn all_edits(
    alloc: Global,
    known: Known<'_>,
    sign: &Sign<'_>,
    lines: &[Line<'_>],
) -> Result<Vec<Edit>, AllocError>
    ensures { IfOk result (λ edits. map edit_view edits.items ≡
        contractions_of known.entry.given.now.characters.entries known.entry.given.now.signs.items (map line_view lines.now) ++ include_edit_by (sign_view sign.now) ∷ sign_edits_by (known_view known.entry) (map line_view lines.now)) }
{
    let mut edits = contraction_edits(alloc, known.given, lines)?;
    edits.push(include_edit(alloc, sign)?)?;
    edits.append(&mut sign_edits(alloc, known, lines)?)?;
    Ok(edits)
}

/// The change of the `contraction` lines, and of the line that gives a sign.
fn sign_change(
    alloc: Global,
    root: &str,
    given: &Given,
    sign: &Sign<'_>,
    lines: &[Line<'_>],
) -> Result<Change, AllocError>
    ensures { IfOk result (λ change. change_view change ≡ sign_change_of root.now given.now.characters.entries given.now.signs.items (sign_view sign.now) (map line_view lines.now)) }
{
    let letters = Letters::of_lines(alloc, lines)?;
    let known = Known {
        given,
        letters: &letters,
        sign: sign.cells.as_slice(),
    };
    Ok(Change {
        edits: all_edits(alloc, known, sign, lines)?,
        made: made_files(alloc, root, known, lines)?,
    })
}

/// Files after a change.
fn changed(
    alloc: Global,
    files: &[GatheredFile],
    change: &Change,
) -> Result<Vec<GatheredFile>, AllocError>
    ensures { IfOk result (λ new. map file_view new.items ≡ changed_by (change_view change.now) (map file_view files.now)) }
{
    let edits = change.edits.as_slice();
    let mut new = edit_files(alloc, files, edits)?;
    new.append(&mut edit_files(alloc, change.made.as_slice(), edits)?)?;
    Ok(new)
}

/// Whether one of these names is that of the file that is made.
fn has_made_name(names: &[String]) -> bool
    ensures { result ≡ is_one_of (map string_bytes names.now) made_name }
{
    names.iter().any(|name| MADE_NAME == name.as_str())
}

/// Whether one of these files has a path.
fn has_path(files: &[GatheredFile], path: &str) -> bool
    ensures { result ≡ list_any (λ file. bytes_eq path.now file.0) (map file_view files.now) }
{
    files.iter().any(|file| path == file.path.as_str())
}

/// Whether one of these files has the name or the path of the file that is made.
fn is_taken(alloc: Global, around: Around<'_>, files: &[GatheredFile]) -> Result<bool, AllocError>
    ensures { IfOk result (λ is. is ≡ is_taken_by (around_view around.entry).names around.entry.home.now (map file_view files.now)) }
{
    let path = made_path_of(alloc, around.home)?;
    Ok(has_made_name(around.names) || has_path(files, path.as_str()))
}

/// Whether a change of these files may be made that makes a file: none has its name or its path,
/// and the table can be loaded after it.
fn may_change(
    alloc: Global,
    around: Around<'_>,
    files: &[GatheredFile],
    change: &Change,
) -> Result<bool, AllocError>
    ensures { IfOk result (λ may. may ≡ may_change_by (around_view around.entry) (map file_view files.now) (change_view change.now)) }
{
    if is_taken(alloc, around, files)? {
        return Ok(false);
    }
    let new = changed(alloc, files, change)?;
    let loaded = load_if_whole(alloc, around.folders, new.as_slice(), around.root)?;
    Ok(loaded.is_some())
}

/// The change of the `contraction` lines and, where the file for it may be made, of the line that
/// gives a sign.
fn change_by_sign(
    alloc: Global,
    around: Around<'_>,
    files: &[GatheredFile],
    given: &Given,
    sign: &Sign<'_>,
    lines: &[Line<'_>],
) -> Result<Change, AllocError>
    ensures { IfOk result (λ change. change_view change ≡
        change_from (around_view around.entry) (map file_view files.now) given.now.characters.entries given.now.signs.items (sign_view sign.now) (map line_view lines.now)) }
{
    let change = sign_change(alloc, around.home, given, sign, lines)?;
    if may_change(alloc, around, files, &change)? {
        return Ok(change);
    }
    contraction_change(alloc, given, lines)
}

/// The change of these lines of files: of those that begin with `contraction` and, where the file
/// for it may be made, of the last one that begins with `letsign`.
fn last_change(
    alloc: Global,
    around: Around<'_>,
    files: &[GatheredFile],
    lines: &[Line<'_>],
) -> Result<Change, AllocError>
    ensures { IfOk result (λ change. change_view change ≡ last_change_by (around_view around.entry) (map file_view files.now) (map line_view lines.now)) }
{
    let letsign = letsign_of(alloc, lines)?;
    let given = Given::of_lines(alloc, lines, &letsign)?;
    match &letsign {
        Some(sign) => change_by_sign(alloc, around, files, &given, sign, lines),
        None => contraction_change(alloc, &given, lines),
    }
}

/// The change of files by their `contraction` and `letsign` lines.
fn change_of_files(
    alloc: Global,
    around: Around<'_>,
    files: &[GatheredFile],
) -> Result<Change, AllocError>
    ensures { IfOk result (λ change. change_view change ≡
        last_change_by (around_view around.entry) (map file_view files.now) (lines_in (around_view around.entry) (map file_view files.now))) }
{
    let loaded = load_if_whole(alloc, around.folders, files, around.root)?;
    let lines = lines_of(alloc, &loaded)?;
    last_change(alloc, around, files, lines.as_slice())
}

/// Rewrites the `contraction` and `letsign` lines of files that were rewritten.
fn rewrite_last(
    alloc: Global,
    around: Around<'_>,
    rewritten: Rewritten,
) -> Result<Rewritten, AllocError>
    ensures { IfOk result (λ new. rewritten_view new ≡ with_last_change (around_view around.entry) (rewritten_view rewritten)) }
{
    let Rewritten {
        files,
        mut edits,
        ..
    } = rewritten;
    let mut change = change_of_files(alloc, around, files.as_slice())?;
    let files = changed(alloc, files.as_slice(), &change)?;
    edits.append(&mut change.edits)?;
    Ok(Rewritten {
        files,
        edits,
        made: change.made,
    })
}

/// Rewrites the lines of files, which were loaded, where this is asked for.
pub(crate) fn rewrite_files(
    alloc: Global,
    around: Around<'_>,
    whole: &Loaded,
    files: Vec<GatheredFile>,
    rewrite: bool,
) -> Result<Rewritten, AllocError>
    requires { lines_among (map string_bytes around.folders.now) (map file_view files.items) around.root.now ≡ Ok whole.now.lines }
    ensures { IfOk result (λ new. rewritten_view new ≡ rewritten_by rewrite (around_view around.entry) (map file_view files.items)) }
{
    if rewrite {
        let rewritten = rewrite_definitions(alloc, around, whole, files.as_slice())?;
        return rewrite_last(alloc, around, rewritten);
    }
    Ok(Rewritten {
        files,
        edits: Vec::new(alloc),
        made: Vec::new(alloc),
    })
}

/// Whether an edit is of the line at a place.
fn is_edit_of(edit: &Edit, place: &Location) -> bool
    ensures { result ≡ is_of (string_bytes place.now.file) place.now.line (edit_view edit.now) }
{
    place.file.as_str() == edit.file.as_str() && edit.line == place.line
}

/// Whether the line at a place is rewritten.
fn is_rewritten(edits: &[Edit], place: &Location) -> bool
    ensures { result ≡ is_rewritten_by (map edit_view edits.now) (location_view place.now) }
{
    edits.iter().any(|edit| is_edit_of(edit, place))
}

/// How many of the lines at these places are rewritten.
pub(crate) fn count_rewritten(edits: &[Edit], places: &[Location]) -> usize
    ensures { result ≡ length (filter (is_rewritten_by (map edit_view edits.now)) (map location_view places.now)) }
{
    let mut count = 0;
    for place in places {
        if is_rewritten(edits, place) {
            count += 1;
        }
    }
    count
}

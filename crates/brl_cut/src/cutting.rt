//! The readable part of a table.
ghost use Rattle.std.specs.Prelude.{◌≡◌, ◌++◌, IfErr, IfOk, OnOk, map, string_bytes, true};
ghost use Rattle.std.specs.List.{list_any};
ghost use Rattle.std.specs.Str.{bytes_eq};
ghost use Rattle.brl_failure.specs.Failure.{IfFault};
ghost use Rattle.brl_lines.specs.GatherFaults.{gathered_view};
ghost use Rattle.brl_lines.specs.Views.{location_view};
ghost use Rattle.brl_cut.specs.Cuts.{AreWhole, IsCut, IsCutFault, IsCutOf, IsRead, IsReadAs, IsUncut, IsUnreadAs, IsUnwritten, all_names as all_names_of, finished, home_of as home_by, without_includes, written_root as written_root_of};
ghost use Rattle.brl_cut.specs.Letsigns.{made_name};
ghost use Rattle.brl_cut.specs.Marks.{mark, marked_file, marked_files};
ghost use Rattle.brl_table.specs.Survey.{faulty_line_view};
ghost use Rattle.brl_cut.specs.Edits.{edited, edited_files, prefix_in};
ghost use Rattle.brl_cut.specs.Files.{edit_view, file_view};
ghost use Rattle.brl_cut.specs.Settling.{fault_edit};

use crate::alike::keep_files;
use crate::files::{
    BecomesComment, Edit, copies, edit_bytes, edit_files, edits_of, source_of, with_comments,
};
use crate::includes::include_faults;
use crate::outcome::CutTable;
use crate::placing::{place_files, written_root};
use crate::rewriting::{Around, MADE_NAME, count_rewritten};
use crate::rounds::Settled;
use crate::starting::{Started, start_cut};
use brl_failure::{Failure, raise};
use brl_lines::{GatherFault, Gathered, GatheredFile, LoadFault, Loaded, Location, Source, gather};
use brl_rules::Table;
use brl_table::{Cut, FaultyLine, NoTable, load_table};
use std::alloc::{AllocError, Global};
use thiserror::Error;

/// Why a table isn't cut.
#[derive(Debug, Drop, Error)]
pub enum CutFault {
    /// Its files can't be gathered.
    #[error("{0}")]
    Gather(GatherFault),
    /// They can't be loaded after lines became comments.
    #[error("{0}")]
    Load(LoadFault),
    /// The written files define no table.
    #[error("{0}")]
    NotRead(NoTable),
}

/// The lines of gathered files, and their cut.
#[derive(Drop)]
struct CutFiles {
    pub whole: Loaded,
    pub cut: Cut,
}

/// The table whose root is at a path, of these files and no others, which are looked for in no
/// folders.
fn read_back(alloc: Global, files: &[GatheredFile], root: &str) -> Result<Table, Failure<NoTable>>
    ensures table { IfOk result (IsReadAs (map file_view files.now) root.now) }
    ensures fault { IfErr result (IfFault (IsUnreadAs (map file_view files.now) root.now)) }
{
    let mut source = source_of(alloc, &[], files)?;
    load_table(alloc, &mut source, root)
}

/// The table of these files, whose root has a path before it is written into a folder.
fn read_written(
    alloc: Global,
    files: &[GatheredFile],
    root: &str,
    dir: &str,
) -> Result<Table, Failure<CutFault>>
    ensures table { IfOk result (IsReadAs (map file_view files.now) (written_root_of dir.now root.now)) }
    ensures fault { IfErr result (IfFault (IsUnwritten (map file_view files.now) root.now dir.now)) }
{
    let written = written_root(alloc, dir, root)?;
    raise(read_back(alloc, files, written.as_str()), CutFault::NotRead)
}

/// The path of the file of each place.
fn files_of_places(alloc: Global, places: &[Location]) -> Result<Vec<String>, AllocError>
    ensures { IfOk result (λ paths. map string_bytes paths.items ≡ map (λ place. place.file) (map location_view places.now)) }
{
    let mut paths = Vec::with_capacity(alloc, places.len())?;
    for place in places {
        paths.push(String::from_str(alloc, place.file.as_str())?)?;
    }
    Ok(paths)
}

/// Adds the paths of files.
fn push_paths(
    alloc: Global,
    paths: &mut Vec<String>,
    files: &[GatheredFile],
) -> Result<(), AllocError>
    ensures { OnOk result (map string_bytes paths.new.items ≡ map string_bytes paths.old.items ++ map (λ file. file.0) (map file_view files.now)) }
{
    for file in files {
        paths.push(String::from_str(alloc, file.path.as_str())?)?;
    }
    Ok(())
}

/// The paths of gathered files, and of those that were made.
fn all_paths(
    alloc: Global,
    files: &[GatheredFile],
    made: &[GatheredFile],
) -> Result<Vec<String>, AllocError>
    ensures { IfOk result (λ paths. map string_bytes paths.items ≡ map (λ file. file.0) (map file_view files.now ++ map file_view made.now)) }
{
    let mut paths = Vec::new(alloc);
    push_paths(alloc, &mut paths, files)?;
    push_paths(alloc, &mut paths, made)?;
    Ok(paths)
}

/// The names of gathered files, and of those that were made.
fn all_names(
    alloc: Global,
    names: &[String],
    made: &[GatheredFile],
) -> Result<Vec<String>, AllocError>
    ensures { IfOk result (λ all. map string_bytes all.items ≡ map string_bytes names.now ++ map (λ file. made_name) (map file_view made.now)) }
{
    let mut all = copies(alloc, names)?;
    for _made in made {
        all.push(String::from_str(alloc, MADE_NAME)?)?;
    }
    Ok(all)
}

/// Gathered files, and those that were made, as they are written: the lines that were found faulty
/// are comments, each of the line as it was, and the others are rewritten by these edits.
fn finish_files(
    alloc: Global,
    gathered: &Gathered,
    made: &[GatheredFile],
    mut edits: Vec<Edit>,
    found: &[FaultyLine],
) -> Result<Vec<GatheredFile>, AllocError>
    ensures { IfOk result (λ new. map file_view new.items ≡
        edited_files (map edit_view edits.items ++ map fault_edit (map faulty_line_view found.now)) (without_includes (gathered_view gathered.now) ++ map file_view made.now)) }
{
    edits.append(&mut edits_of(alloc, found)?)?;
    let files = without_left_out(alloc, gathered)?;
    let mut new = edit_files(alloc, files.as_slice(), edits.as_slice())?;
    new.append(&mut edit_files(alloc, made, edits.as_slice())?)?;
    Ok(new)
}

/// The cut of the table whose root has a path, for the folder `dir`: its files, with the lines that
/// aren't read as comments, and the table that they define. A file gets the name in the include
/// line that first leads to it, wherever it was found, and the root the last part of its path; so
/// the files there are found in no other folder. Each line keeps its number and its end. A line
/// that isn't read becomes a comment that says why: `# `, the reason, `: ` and the line; one of
/// more than 2,048 bytes is cut off.
///
/// Lines are left out in this order: include lines as `gather` leaves them out; and then, again and
/// again, the lines that a survey of the others finds faulty, until it finds none. So every command
/// reads what is written.
///
/// With `rewrite` lines are rewritten before faulty ones are left out. Before a line
/// `noback OP C D ..` where `OP C D` by itself defines a character that is put, and ` # `, so that
/// the line itself is a comment; then before a line `base uppercase C D` in the same way `uplow CD`
/// with the dots that the small letter D has by other lines; and then before a line
/// `contraction X`, where each character of X is defined and none is a capital, `word X` with the
/// dots of the first `nocontractsign` line, those of the last `letsign` line and those of the
/// characters, if these are 16 cells or fewer.
///
/// The last `letsign` line whose dots are read becomes an include line of a file that is made
/// beside the root, `letsign-made.cti`. It has a `word` line for each letter before which the sign
/// may be (`brl_acting::Letters`): with the dots of the sign and those of the first `always`,
/// `sufword` or `prfword` line of this letter alone, else its own; where that line is a
/// `contraction`, with the dots of this. A `word`, `sufword` or `begword` line that begins with
/// such a letter and a character that is no letter gets the dots of the sign, too. So it is where
/// no file has the path or the name of the one that is made, and where the table can be loaded
/// after it. The made file is the last one of the cut. A line that is rewritten and then left out
/// is written as it was.
pub fn cut_table<S: Source>(
    alloc: Global,
    source: &mut S,
    root: &str,
    dir: &str,
    rewrite: bool,
) -> Result<CutTable, Failure<CutFault>>
    ensures cut { IfOk result (IsCut rewrite (S.gives source.old) root.now dir.now) }
    ensures fault { IfErr result (IfFault (IsCutFault rewrite (S.gives source.old) root.now dir.now)) }
    ensures same { S.gives source.new ≡ S.gives source.old }
{
    let gathered = raise(gather(alloc, source, root), CutFault::Gather)?;
    let CutFiles { whole, cut } = cut_gathered(
        alloc,
        source.folders(),
        &gathered,
        root,
        dir,
        rewrite,
    )?;
    let table = read_written(alloc, cut.files.as_slice(), root, dir)?;
    let written = written_root(alloc, dir, root)?;
    Ok(CutTable {
        gathered,
        whole,
        cut,
        table,
        written,
    })
}

/// The files of a cut with `# can act: ` before the comments at these places, and the table that
/// they define; or why they define none. The cut was made for the folder `dir`. A place has the
/// path that its file had before it was cut. `NotRead` where the files define no table any more,
/// which never comes of comments.
pub fn mark_lines(
    alloc: Global,
    of: &CutTable,
    root: &str,
    dir: &str,
    places: &[Location],
) -> Result<Vec<GatheredFile>, Failure<CutFault>>
    ensures files { IfOk result (λ files. map file_view files.items ≡ marked_files (map location_view places.now) of.now) }
    ensures read { OnOk result (IsRead (marked_files (map location_view places.now) of.now) (written_root_of dir.now root.now)) }
    ensures fault { IfErr result (IfFault (IsUnwritten (marked_files (map location_view places.now) of.now) root.now dir.now)) }
{
    let files = mark_files(alloc, of, places)?;
    check_marked(alloc, of, files.as_slice(), root, dir)?;
    Ok(files)
}

/// Whether the files of a cut with marks define its table. They are read only where that isn't
/// plain: where lines that aren't comments are marked, or the cut was made for another folder.
fn check_marked(
    alloc: Global,
    of: &CutTable,
    files: &[GatheredFile],
    root: &str,
    dir: &str,
) -> Result<(), Failure<CutFault>>
    ensures read { OnOk result (IsRead (map file_view files.now) (written_root_of dir.now root.now)) }
    ensures fault { IfErr result (IfFault (IsUnwritten (map file_view files.now) root.now dir.now)) }
{
    if is_read_still(alloc, of, files, root, dir)? {
        return Ok(());
    }
    read_written(alloc, files, root, dir)?;
    Ok(())
}

/// Whether files have the lines of a cut's files, but for comments, and the cut was made for this
/// folder.
fn is_read_still(
    alloc: Global,
    of: &CutTable,
    files: &[GatheredFile],
    root: &str,
    dir: &str,
) -> Result<bool, AllocError>
    ensures { IfOk result (λ is. is ≡ true → IsRead (map file_view files.now) (written_root_of dir.now root.now)) }
{
    let written = written_root(alloc, dir, root)?;
    Ok(of.written.as_str() == written.as_str() && keep_files(of.cut.files.as_slice(), files))
}

/// Whether one of these marks is of a file that had this path before it was cut.
fn has_mark(marks: &[Edit], before: &str) -> bool
    ensures { result ≡ list_any (λ mark. bytes_eq before.now (string_bytes mark.file)) marks.now }
{
    marks.iter().any(|mark| before == mark.file.as_str())
}

/// The bytes of a file with these marks, where it had this path before it was cut.
fn mark_bytes(
    alloc: Global,
    marks: &[Edit],
    before: &str,
    bytes: &[u8],
) -> Result<Vec<u8>, AllocError>
    ensures { IfOk result (λ new. new.items ≡ edited (prefix_in (map edit_view marks.now) before.now) bytes.now) }
{
    if has_mark(marks, before) {
        edit_bytes(alloc, bytes, marks, before)
    } else {
        Vec::from_slice(alloc, bytes)
    }
}

/// A file with these marks, where it had this path before it was cut.
fn mark_file(
    alloc: Global,
    marks: &[Edit],
    before: &str,
    file: &GatheredFile,
) -> Result<GatheredFile, AllocError>
    ensures { IfOk result (λ new. file_view new ≡ marked_file (map edit_view marks.now) (before.now, file_view file.now)) }
{
    Ok(GatheredFile {
        path: String::from_str(alloc, file.path.as_str())?,
        bytes: mark_bytes(alloc, marks, before, file.bytes.as_slice())?,
    })
}

/// The files of a cut, with marks before the lines at these places.
fn mark_files(
    alloc: Global,
    of: &CutTable,
    places: &[Location],
) -> Result<Vec<GatheredFile>, AllocError>
    ensures { IfOk result (λ files. map file_view files.items ≡ marked_files (map location_view places.now) of.now) }
{
    let marks = edits_of(alloc, places)?;
    let Cut { files, paths, .. } = &of.cut;
    let mut marked = Vec::with_capacity(alloc, files.len())?;
    for (path, file) in paths.iter().zip(files) {
        marked.push(mark_file(alloc, marks.as_slice(), path.as_str(), file)?)?;
    }
    Ok(marked)
}

impl BecomesComment for Location {
    ghost use Rattle.brl_lines.specs.Views.{location_view};
    ghost use Rattle.brl_cut.specs.Marks.{mark};

    ghost edit_of = { λ place. mark (location_view place) };

    fn edit(&self, alloc: Global) -> Result<Edit, AllocError> {
        let prefix = String::from_str(alloc, "# can act: ")?;
        Edit::new(alloc, self.file.as_str(), self.line, prefix)
    }
}

/// Gathered files without the include lines that are left out.
fn without_left_out(alloc: Global, gathered: &Gathered) -> Result<Vec<GatheredFile>, AllocError>
    ensures { IfOk result (λ files. map file_view files.items ≡ without_includes (gathered_view gathered.now)) }
{
    with_comments(
        alloc,
        gathered.files.as_slice(),
        gathered.left_out.as_slice(),
    )
}

/// The path at which the root of these files was found: that of the first one.
fn home_of<'a>(files: &'a [GatheredFile], root: &'a str) -> &'a str
    ensures { result.now ≡ home_by (map file_view files.entry.now) root.entry.now }
{
    match files {
        [first, ..] => first.path.as_str(),
        [] => root,
    }
}

/// Cuts a table whose files are gathered, and were looked for in these folders too.
fn cut_gathered<'a>(
    alloc: Global,
    folders: &'a [String],
    gathered: &'a Gathered,
    root: &'a str,
    dir: &str,
    rewrite: bool,
) -> Result<CutFiles, Failure<CutFault>>
    ensures whole { IfOk result (λ of. AreWhole (map string_bytes folders.entry.now) root.entry.now (gathered_view gathered.entry.now) of.whole.lines) }
    ensures cut { IfOk result (λ of. IsCutOf rewrite (map string_bytes folders.entry.now) (gathered_view gathered.entry.now) root.entry.now dir.now of.cut) }
    ensures fault { IfErr result (IfFault (IsUncut rewrite (map string_bytes folders.entry.now) root.entry.now dir.now (gathered_view gathered.entry.now))) }
{
    let all = gathered.files.as_slice();
    let around = Around {
        folders,
        names: gathered.names.as_slice(),
        root,
        home: home_of(all, root),
    };
    let files = without_left_out(alloc, gathered)?;
    let started = raise(start_cut(alloc, around, files, rewrite), CutFault::Load)?;
    let Started {
        whole,
        edits,
        made,
        settled,
    } = started;
    let rewritten = count_rewritten(edits.as_slice(), settled.places.as_slice());
    let made = made.as_slice();
    let names = all_names(alloc, gathered.names.as_slice(), made)?;
    let paths = all_paths(alloc, gathered.files.as_slice(), made)?;
    let texts = finish_files(alloc, gathered, made, edits, settled.found.as_slice())?;
    let placed = place_files(alloc, dir, names.as_slice(), texts.as_slice())?;
    let mut left_out = include_faults(alloc, gathered.left_out.as_slice())?;
    let Settled { mut found, places } = settled;
    left_out.append(&mut found)?;
    let line_files = files_of_places(alloc, places.as_slice())?;
    let cut = Cut {
        files: placed,
        paths,
        left_out,
        line_files,
        rewritten,
    };
    Ok(CutFiles { whole, cut })
}

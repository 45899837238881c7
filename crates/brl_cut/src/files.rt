//! Files in memory, and edits of their lines.
ghost use Rattle.std.specs.Prelude.{◌≡◌, IfOk, List, [], ◌∷◌, map, string_bytes};
ghost use Rattle.brl_failure.specs.Failure.{GivesAs};
ghost use Rattle.brl_lines.specs.Views.{load_fault_view};
ghost use Rattle.brl_cut.specs.Edits.{edited as edited_bytes, edited_files, prefix_in};
ghost use Rattle.brl_cut.specs.Files.{HasPrefixes, HoldsFiles, edit_view, file_view};
ghost use Rattle.brl_cut.specs.Settling.{lines_among};

use crate::text::edited;
use brl_failure::Failure;
use brl_lines::{GatheredFile, LoadFault, Loaded, MapSource, files_in_memory_law, load};
use std::alloc::{AllocError, Global};
use std::collections::BTreeMap;

/// An edit of a line: what is put before it, in the file at a path. Lines are counted from 1.
#[derive(Drop)]
pub(crate) struct Edit {
    pub file: String,
    pub line: u32,
    pub prefix: String,
}

impl Edit {
    /// An edit of a line of the file at a path.
    pub fn new(alloc: Global, file: &str, line: u32, prefix: String) -> Result<Edit, AllocError>
        ensures { IfOk result (λ edit. edit_view edit ≡ record { file = file.now; line = line; prefix = string_bytes prefix }) }
    {
        let file = String::from_str(alloc, file)?;
        Ok(Edit { file, line, prefix })
    }
}

/// A line that becomes a comment.
pub(crate) trait BecomesComment {
    ghost use Rattle.std.specs.Prelude.{◌≡◌, IfOk};
    ghost use Rattle.brl_cut.specs.Edits.{EditView};
    ghost use Rattle.brl_cut.specs.Files.{edit_view};

    // the edit that makes it one
    ghost edit_of: { Self → EditView };

    /// The edit that makes it a comment, which says why.
    fn edit(&self, alloc: Global) -> Result<Edit, AllocError>
        ensures { IfOk result (λ edit. edit_view edit ≡ edit_of self.now) };
}

/// The edits that make lines comments.
pub(crate) fn edits_of<L: BecomesComment>(
    alloc: Global,
    lines: &[L],
) -> Result<Vec<Edit>, AllocError>
    ensures { IfOk result (λ edits. map edit_view edits.items ≡ map L.edit_of lines.now) }
{
    let mut edits = Vec::with_capacity(alloc, lines.len())?;
    for line in lines {
        edits.push(line.edit(alloc)?)?;
    }
    Ok(edits)
}

/// What is put before the lines of the file at a path, by their numbers; the last edit of a line
/// decides.
fn prefixes_of<'a>(
    alloc: Global,
    edits: &'a [Edit],
    path: &str,
) -> Result<BTreeMap<usize, &'a str>, AllocError>
    ensures { IfOk result (λ prefixes. HasPrefixes prefixes (prefix_in (map edit_view edits.entry.now) path.now)) }
{
    let mut prefixes = BTreeMap::new(alloc);
    for edit in edits {
        if path == edit.file.as_str() {
            prefixes.insert(edit.line as usize, edit.prefix.as_str())?;
        }
    }
    Ok(prefixes)
}

/// The bytes of the file at a path after edits.
pub(crate) fn edit_bytes(
    alloc: Global,
    bytes: &[u8],
    edits: &[Edit],
    path: &str,
) -> Result<Vec<u8>, AllocError>
    ensures { IfOk result (λ new. new.items ≡ edited_bytes (prefix_in (map edit_view edits.now) path.now) bytes.now) }
{
    let prefixes = prefixes_of(alloc, edits, path)?;
    edited(alloc, bytes, &prefixes)
}

/// A file after edits.
fn edit_file(alloc: Global, file: &GatheredFile, edits: &[Edit]) -> Result<GatheredFile, AllocError>
    ensures { IfOk result (λ new. edited_files (map edit_view edits.now) (file_view file.now ∷ []) ≡ file_view new ∷ []) }
{
    let path = file.path.as_str();
    Ok(GatheredFile {
        path: String::from_str(alloc, path)?,
        bytes: edit_bytes(alloc, file.bytes.as_slice(), edits, path)?,
    })
}

/// Files after edits.
pub(crate) fn edit_files(
    alloc: Global,
    files: &[GatheredFile],
    edits: &[Edit],
) -> Result<Vec<GatheredFile>, AllocError>
    ensures { IfOk result (λ new. map file_view new.items ≡ edited_files (map edit_view edits.now) (map file_view files.now)) }
{
    let mut new = Vec::with_capacity(alloc, files.len())?;
    for file in files {
        new.push(edit_file(alloc, file, edits)?)?;
    }
    Ok(new)
}

/// Files where these lines are comments.
pub(crate) fn with_comments<L: BecomesComment>(
    alloc: Global,
    files: &[GatheredFile],
    lines: &[L],
) -> Result<Vec<GatheredFile>, AllocError>
    ensures { IfOk result (λ new. map file_view new.items ≡ edited_files (map L.edit_of lines.now) (map file_view files.now)) }
{
    let edits = edits_of(alloc, lines)?;
    edit_files(alloc, files, edits.as_slice())
}

/// Copies of texts.
pub(crate) fn copies(alloc: Global, texts: &[String]) -> Result<Vec<String>, AllocError>
    ensures { IfOk result (λ others. map string_bytes others.items ≡ map string_bytes texts.now) }
{
    let mut others = Vec::with_capacity(alloc, texts.len())?;
    for text in texts {
        others.push(String::from_str(alloc, text.as_str())?)?;
    }
    Ok(others)
}

/// A source that has these files and no others, and looks in these folders; the last file at a path
/// decides.
pub(crate) fn source_of(
    alloc: Global,
    folders: &[String],
    files: &[GatheredFile],
) -> Result<MapSource, AllocError>
    ensures { IfOk result (HoldsFiles (map string_bytes folders.now) (map file_view files.now)) }
{
    let mut map = BTreeMap::new(alloc);
    for file in files {
        let path = String::from_str(alloc, file.path.as_str())?;
        let bytes = Vec::from_slice(alloc, file.bytes.as_slice())?;
        map.insert(path, bytes)?;
    }
    let folders = Some(copies(alloc, folders)?);
    Ok(MapSource {
        files: map,
        folders,
    })
}

/// Loads the table whose root has a path, of these files and no others, which are looked for in
/// these folders too.
pub(crate) fn load_files(
    alloc: Global,
    folders: &[String],
    files: &[GatheredFile],
    root: &str,
) -> Result<Loaded, Failure<LoadFault>>
    ensures { GivesAs (λ loaded. loaded.lines) load_fault_view (lines_among (map string_bytes folders.now) (map file_view files.now) root.now) result }
{
    let mut source = source_of(alloc, folders, files)?;
    files_in_memory_law(&source);
    load(alloc, &mut source, root)
}

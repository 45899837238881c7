//! Gathers the files of a table that are there.
ghost use Rattle.std.specs.Prelude.{◌≡◌, IfErr, IfOk, flat_map, map, string_bytes};
ghost use Rattle.brl_failure.specs.Failure.{IfFault};
ghost use Rattle.brl_lines.specs.Files.{answers_of};
ghost use Rattle.brl_lines.specs.GatherFaults.{IsGatherFault, IsGathered, file_if, held};
ghost use Rattle.brl_lines.specs.Lines.{answer_at};

use crate::expand::Expansion;
use crate::fault::{LoadFault, Location};
use crate::read::{ReadFiles, file_there};
use crate::source::Source;
use crate::walk::walk;
use crate::way::{LeftInclude, Policy, Way};
use brl_failure::{Failure, raise};
use std::alloc::{AllocError, Global};
use thiserror::Error;

/// A file of a table: its path, and its bytes.
#[derive(Debug, Drop)]
pub struct GatheredFile {
    pub path: String,
    pub bytes: Vec<u8>,
}

/// The files of a table, in the order in which include lines first lead to them, the root first;
/// their names in the same order; and the include lines that are left out, in the order in which
/// they were reached.
#[derive(Debug, Drop)]
pub struct Gathered {
    /// Each file with the path where it was found.
    pub files: Vec<GatheredFile>,
    /// The name in the include line that first leads to each file; the root's is what is after the
    /// last slash of its path.
    pub names: Vec<String>,
    pub left_out: Vec<LeftInclude>,
}

/// An include line whose name leads out of the root's folder.
#[derive(Debug, Drop, Error)]
#[error("include {name} at {place} leads out of the table's folder")]
pub struct LeadsOut {
    pub name: String,
    pub place: Location,
}

/// Why the files of a table aren't gathered.
#[derive(Debug, Drop, Error)]
pub enum GatherFault {
    /// A file can't be read, or is one too many or too deep.
    #[error("{0}")]
    Load(LoadFault),
    /// An include line leads out of the root's folder.
    #[error("{0}")]
    LeadsOut(LeadsOut),
}

/// Gathers the files of the table whose root has a path: the root, and the files to which include
/// lines lead, with their names and the lines that are left out. They are where `load` finds them.
///
/// An include line is left out where it includes a hyphenation dictionary, whose name ends in
/// `.dic`; where its file isn't there; and where its file was gone through before, or leads to it.
/// `LeadsOut` where the name in one isn't one of a file below the root's folder: it is absolute, or
/// a part of it is empty, `.` or `..`; a dictionary's may be. `Load` for the first other include
/// line after 1,024 that were followed (`TooManyIncludes`); where a file can't be read or isn't
/// good, as in `load`; where there is no root; and where a file is deeper than 16, the root being 1
/// (`TooDeep`). The first fault is reported.
pub fn gather<S: Source>(
    alloc: Global,
    source: &mut S,
    root: &str,
) -> Result<Gathered, Failure<GatherFault>>
    ensures gathered { IfOk result (IsGathered (S.gives source.old) root.now) }
    ensures fault { IfErr result (IfFault (IsGatherFault (S.gives source.old) root.now)) }
    ensures same { S.gives source.new ≡ S.gives source.old }
{
    let table = raise(walk(alloc, source, root, Policy::Gather), GatherFault::Load)?;
    let Expansion { files, way, .. } = table;
    let Way {
        paths,
        names,
        left_out,
        out,
    } = way;
    if let Some(out) = out {
        return Err(Failure::Fault(GatherFault::LeadsOut(out)));
    }
    let files = files_at(alloc, &files, paths.as_slice())?;
    Ok(Gathered {
        files,
        names,
        left_out,
    })
}

/// Copies of the files at some paths, among those that were read.
fn files_at(
    alloc: Global,
    files: &ReadFiles,
    paths: &[String],
) -> Result<Vec<GatheredFile>, AllocError>
    ensures { IfOk result (λ found. map (λ file. (string_bytes file.path, file.bytes.items)) found.items
        ≡ flat_map (λ path. file_if path (held (answer_at (answers_of files.now.entries) path))) (map string_bytes paths.now)) }
{
    let mut found = Vec::with_capacity(alloc, paths.len())?;
    for path in paths {
        let path = path.as_str();
        if let Some(file) = file_there(files, path) {
            found.push(GatheredFile {
                path: String::from_str(alloc, path)?,
                bytes: Vec::from_slice(alloc, file.bytes())?,
            })?;
        }
    }
    Ok(found)
}

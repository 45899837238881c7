//! Where the files of a table are written: into a folder, each under its name.
ghost use Rattle.std.specs.Prelude.{◌≡◌, IfOk, map, string_bytes};
ghost use Rattle.brl_cut.specs.Cuts.{written_files, written_root as root_written};
ghost use Rattle.brl_cut.specs.Files.{file_view};

use brl_lines::{GatheredFile, last_part, path_in};
use std::alloc::{AllocError, Global};

/// The path where the root that has a path is written into a folder: under the last part of its
/// path.
pub fn written_root(alloc: Global, dir: &str, root: &str) -> Result<String, AllocError>
    ensures { IfOk result (λ written. string_bytes written ≡ root_written dir.now root.now) }
{
    path_in(alloc, dir, last_part(root))
}

/// Files with these names, at the paths where they are written into a folder.
pub(crate) fn place_files(
    alloc: Global,
    dir: &str,
    names: &[String],
    files: &[GatheredFile],
) -> Result<Vec<GatheredFile>, AllocError>
    ensures { IfOk result (λ placed. map file_view placed.items ≡ written_files dir.now (map string_bytes names.now) (map file_view files.now)) }
{
    let mut placed = Vec::with_capacity(alloc, files.len())?;
    for (name, file) in names.iter().zip(files) {
        placed.push(GatheredFile {
            path: path_in(alloc, dir, name.as_str())?,
            bytes: Vec::from_slice(alloc, file.bytes.as_slice())?,
        })?;
    }
    Ok(placed)
}

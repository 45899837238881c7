//! Where a file is found: at its usual path, or by its name in one of the folders of the source.
ghost use Rattle.std.specs.Prelude.{◌≡◌, ◌≢◌, [], ◌∷◌, IfErr, IfOk, map, option_map, string_bytes, take};
ghost use Rattle.brl_failure.specs.Failure.{IfFault};
ghost use Rattle.brl_lines.specs.Files.{answers_of};
ghost use Rattle.brl_lines.specs.Includes.{paths_in as paths_of_name};
ghost use Rattle.brl_lines.specs.Outcome.{AreGiven, CountsFailure};
ghost use Rattle.brl_lines.specs.Steps.{Fails, FindsFirst, Locates, text_of_first, text_of_found};
ghost use Rattle.brl_lines.specs.Views.{location_ref_view};

use crate::fault::{LoadFault, LoadFaultKind, LocationRef};
use crate::include::path_in;
use crate::read::{ReadFiles, look_at};
use crate::source::Source;
use brl_failure::Failure;
use std::alloc::{AllocError, Global};

/// The usual path of a file, and its paths by its name in these folders; none of these where the
/// name begins with a slash.
fn paths_to_try(
    alloc: Global,
    folders: &[String],
    usual: &str,
    name: &str,
) -> Result<Vec<String>, AllocError>
    ensures { IfOk result (λ paths. map string_bytes paths.items ≡ usual.now ∷ paths_of_name (map string_bytes folders.now) name.now) }
{
    let mut paths = Vec::new(alloc);
    paths.push(String::from_str(alloc, usual)?)?;
    if name.starts_with('/') {
        return Ok(paths);
    }
    for folder in folders {
        paths.push(path_in(alloc, folder.as_str(), name)?)?;
    }
    Ok(paths)
}

/// The first of some paths where there is a file; the first of them where there is none at any.
fn first_there<S: Source>(
    alloc: Global,
    source: &mut S,
    files: &mut ReadFiles,
    paths: &[String],
    other: &str,
    place: Option<LocationRef<'_>>,
) -> Result<String, Failure<LoadFault>>
    requires given { AreGiven (S.gives source.old) (answers_of files.old.entries) }
    requires first { take 1 (map string_bytes paths.now) ≡ other.now ∷ [] }
    ensures ok { IfOk result (λ path. FindsFirst (S.gives source.old) files.old.entries files.new.entries (map string_bytes paths.now) other.now (string_bytes path)) }
    ensures err { IfErr result (Fails (S.gives source.old) files.old.entries (text_of_first (map string_bytes paths.now) other.now (option_map location_ref_view place.entry))) }
    ensures there { IfErr result (IfFault (λ fault. fault.kind ≢ LoadFaultKind.NotFound)) }
    ensures count { CountsFailure (S.faults source.old) (S.faults source.new) result }
    ensures same { S.gives source.new ≡ S.gives source.old }
{
    for path in paths {
        if look_at(alloc, source, files, path.as_str(), place)? {
            return Ok(String::from_str(alloc, path.as_str())?);
        }
    }
    Ok(String::from_str(alloc, other)?)
}

/// The path at which a file is found that has a name and a usual path. The paths are read where
/// it may be, up to the first that has a file.
pub(crate) fn locate<S: Source>(
    alloc: Global,
    source: &mut S,
    files: &mut ReadFiles,
    usual: &str,
    name: &str,
    place: Option<LocationRef<'_>>,
) -> Result<String, Failure<LoadFault>>
    requires { AreGiven (S.gives source.old) (answers_of files.old.entries) }
    ensures ok { IfOk result (λ path. Locates (S.gives source.old) files.old.entries files.new.entries usual.now name.now (string_bytes path)) }
    ensures err { IfErr result (Fails (S.gives source.old) files.old.entries (text_of_found (S.gives source.old).folders usual.now name.now (option_map location_ref_view place.entry))) }
    ensures there { IfErr result (IfFault (λ fault. fault.kind ≢ LoadFaultKind.NotFound)) }
    ensures count { CountsFailure (S.faults source.old) (S.faults source.new) result }
    ensures same { S.gives source.new ≡ S.gives source.old }
{
    let paths = paths_to_try(alloc, source.folders(), usual, name)?;
    first_there(alloc, source, files, paths.as_slice(), usual, place)
}

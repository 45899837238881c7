//! A file whose lines are being added, and the files that lead to it.
ghost use Rattle.std.specs.Prelude.{◌≡◌, ◌∷◌, IfOk, map, string_bytes};
ghost use Rattle.std.specs.List.{list_any};
ghost use Rattle.std.specs.Str.{bytes_eq};
ghost use Rattle.brl_lines.specs.Files.{chain_of};
ghost use Rattle.brl_lines.specs.Views.{location_ref_view};

use crate::fault::LocationRef;
use std::alloc::{AllocError, Global};

/// A file whose lines are being added.
#[derive(Drop)]
pub(crate) struct OpenFile {
    /// Its index among the files that were read.
    pub index: usize,
    pub path: String,
    /// The paths of the files that lead to it, the nearest first.
    pub includers: Vec<String>,
    /// How deep below it a file may be.
    pub depth_left: u32,
}

impl OpenFile {
    /// Whether a path is that of the file, or of one that leads to it.
    pub(crate) fn is_led_to_by(&self, path: &str) -> bool
        ensures { result ≡ list_any (bytes_eq path.now) (chain_of self.now) }
    {
        path == self.path.as_str() || is_in(self.includers.as_slice(), path)
    }

    /// A line of the file.
    pub(crate) fn place(&self, line: u32) -> LocationRef<'_>
        ensures { location_ref_view result ≡ record { file = string_bytes self.now.path; line = line } }
    {
        LocationRef {
            file: self.path.as_str(),
            line,
        }
    }

    /// The path of the file, before those that lead to it.
    pub(crate) fn chain(&self, alloc: Global) -> Result<Vec<String>, AllocError>
        ensures { IfOk result (λ paths. map string_bytes paths.items ≡ chain_of self.now) }
    {
        push_path(alloc, self.path.as_str(), self.includers.as_slice())
    }
}

/// Whether a path is in a list.
pub(crate) fn is_in(paths: &[String], path: &str) -> bool
    ensures { result ≡ list_any (bytes_eq path.now) (map string_bytes paths.now) }
{
    for other in paths {
        if path == other.as_str() {
            return true;
        }
    }
    false
}

/// A path, before others.
fn push_path(alloc: Global, path: &str, others: &[String]) -> Result<Vec<String>, AllocError>
    ensures { IfOk result (λ v. map string_bytes v.items ≡ path.now ∷ map string_bytes others.now) }
{
    let mut paths = Vec::new(alloc);
    paths.push(String::from_str(alloc, path)?)?;
    for other in others {
        paths.push(String::from_str(alloc, other.as_str())?)?;
    }
    Ok(paths)
}

//! The way of a walk through the files of a table: the files that it came through, and the include
//! lines that weren't followed.
ghost use Rattle.std.specs.Prelude.{◌≡◌, IfOk, None, OnOk, Some, false, if◌then◌else◌, length, nat_lt};
ghost use Rattle.std.specs.List.{list_any};
ghost use Rattle.std.specs.Str.{bytes_eq};
ghost use Rattle.brl_lines.specs.Gathered.{way_view};
ghost use Rattle.brl_lines.specs.Gathering.{
  is_dictionary as is_dictionary_name,
  is_plain as is_plain_name,
  is_plain_part as is_plain_part_of,
};
ghost use Rattle.brl_lines.specs.Lines.{gathers as gathers_by, most_includes, no_way, passed, with_file, with_left, with_out};
ghost use Rattle.brl_lines.specs.Views.{location_ref_view};

use crate::fault::LocationRef;
use crate::gathering::LeadsOut;
use crate::open_file::is_in;
use std::alloc::{AllocError, Global};

/// The most include lines that are followed in one walk.
const MOST_INCLUDES: usize = 1024;

/// Which include lines of a table are followed.
#[derive(Clone, Copy)]
pub enum Policy {
    /// All of them.
    Load,
    /// None of a hyphenation dictionary.
    SkipDictionaries,
    /// Nor one of a file that isn't there, or that was gone through before; and none after one that
    /// leads out of the root's folder.
    Gather,
}

/// Why an include line is left out.
#[derive(Clone, Copy, Debug, PartialEq, Eq)]
pub enum IncludeReason {
    /// It includes a hyphenation dictionary.
    Dictionary,
    /// Its file was included before, or includes the file of this line.
    Repeated,
    /// Its file isn't there.
    Missing,
}

/// An include line that is left out: the path of its file, its number there, from 1, the name in
/// it, and why.
#[derive(Debug, Drop)]
pub struct LeftInclude {
    pub file: String,
    pub line: u32,
    pub name: String,
    pub reason: IncludeReason,
}

/// Where an include line is, and the name in it.
#[derive(Clone, Copy)]
pub(crate) struct IncludeRef<'a> {
    pub place: LocationRef<'a>,
    pub name: &'a str,
}

/// What a walk came through: of the files, the paths where they were found and the names by which
/// they were looked for; the include lines that are left out; and the one that leads out of the
/// root's folder; all in order.
#[derive(Drop)]
pub(crate) struct Way {
    pub paths: Vec<String>,
    pub names: Vec<String>,
    pub left_out: Vec<LeftInclude>,
    pub out: Option<LeadsOut>,
}

impl Policy {
    /// Whether files are gathered.
    pub(crate) fn gathers(self) -> bool
        ensures { result ≡ gathers_by self }
    {
        match self {
            Policy::Load | Policy::SkipDictionaries => false,
            Policy::Gather => true,
        }
    }
}

impl Way {
    /// The way before its first file.
    pub(crate) fn new(alloc: Global) -> Way
        ensures { way_view result ≡ no_way }
    {
        Way {
            paths: Vec::new(alloc),
            names: Vec::new(alloc),
            left_out: Vec::new(alloc),
            out: None,
        }
    }

    /// Adds the file at a path, which was looked for by a name.
    pub(crate) fn add_file(
        &mut self,
        alloc: Global,
        path: &str,
        name: &str,
    ) -> Result<(), AllocError>
        ensures { OnOk result (way_view self.new ≡ with_file path.now name.now (way_view self.old)) }
    {
        self.paths.push(String::from_str(alloc, path)?)?;
        self.names.push(String::from_str(alloc, name)?)?;
        Ok(())
    }

    /// Leaves an include line out.
    pub(crate) fn leave(
        &mut self,
        alloc: Global,
        include: IncludeRef<'_>,
        reason: IncludeReason,
    ) -> Result<(), AllocError>
        ensures { OnOk result (way_view self.new ≡ with_left (location_ref_view include.entry.place) include.entry.name.now reason (way_view self.old)) }
    {
        let file = String::from_str(alloc, include.place.file)?;
        let name = String::from_str(alloc, include.name)?;
        self.left_out.push(LeftInclude {
            file,
            line: include.place.line,
            name,
            reason,
        })?;
        Ok(())
    }

    /// Ends at an include line that leads out.
    fn end(&mut self, alloc: Global, include: IncludeRef<'_>) -> Result<(), AllocError>
        ensures { OnOk result (way_view self.new ≡ with_out (location_ref_view include.entry.place) include.entry.name.now (way_view self.old)) }
    {
        let name = String::from_str(alloc, include.name)?;
        let place = include.place.copy(alloc)?;
        self.out = Some(LeadsOut { name, place });
        Ok(())
    }

    /// Passes an include line, if it isn't to be looked for, and notes why. Whether it did.
    pub(crate) fn passes(
        &mut self,
        alloc: Global,
        policy: Policy,
        include: IncludeRef<'_>,
    ) -> Result<bool, AllocError>
        ensures is { IfOk result (λ is. passed policy (location_ref_view include.entry.place) include.entry.name.now (way_view self.old) ≡ if is then Some (way_view self.new) else None) }
        ensures same { IfOk result (λ is. is ≡ false → way_view self.new ≡ way_view self.old) }
    {
        match policy {
            Policy::Load => Ok(false),
            Policy::Gather if self.out.is_some() => Ok(true),
            Policy::SkipDictionaries | Policy::Gather if is_dictionary(include.name) => {
                self.leave(alloc, include, IncludeReason::Dictionary)?;
                Ok(true)
            }
            Policy::Gather if !is_plain(include.name) => {
                self.end(alloc, include)?;
                Ok(true)
            }
            Policy::SkipDictionaries | Policy::Gather => Ok(false),
        }
    }

    /// Whether no more include lines are followed.
    pub(crate) fn is_full(&self) -> bool
        ensures { result ≡ nat_lt most_includes (length (way_view self.now).paths) }
    {
        self.paths.len() > MOST_INCLUDES
    }

    /// Whether it came through the file at a path.
    pub(crate) fn has(&self, path: &str) -> bool
        ensures { result ≡ list_any (bytes_eq path.now) (way_view self.now).paths }
    {
        is_in(self.paths.as_slice(), path)
    }
}

/// Whether a name is that of a hyphenation dictionary.
fn is_dictionary(name: &str) -> bool
    ensures { result ≡ is_dictionary_name name.now }
{
    name.ends_with(".dic")
}

/// Whether a part of a name names a folder, or a file in a folder.
fn is_plain_part(part: &str) -> bool
    ensures { result ≡ is_plain_part_of part.now }
{
    !(part.is_empty() || part == "." || part == "..")
}

/// Whether a name is one of a file below a folder.
fn is_plain(name: &str) -> bool
    ensures { result ≡ is_plain_name name.now }
{
    name.split('/').all(|part| is_plain_part(part))
}

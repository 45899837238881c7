//! Why a table has no lines.
ghost use Rattle.std.specs.Prelude.{◌≡◌, IfOk, option_map};
ghost use Rattle.brl_failure.specs.Failure.{IfFault};
ghost use Rattle.brl_lines.specs.Lines.{refusal as refusal_of};
ghost use Rattle.brl_lines.specs.Views.{load_fault_view, location_ref_view, location_view};

use brl_failure::Failure;
use std::alloc::{AllocError, Global};
use std::fmt;
use thiserror::Error;

/// The fault of a file, or of the include line that names it.
#[derive(Clone, Copy, Debug, PartialEq, Eq, Error)]
pub enum LoadFaultKind {
    /// There is no file at the path.
    #[error("L1 NotFound")]
    NotFound,
    /// The file could not be read.
    #[error("L2 ReadFailed")]
    ReadFailed,
    /// The bytes are not UTF-8.
    #[error("L3 NotUtf8")]
    NotUtf8,
    /// The file is in its own chain of includes.
    #[error("L4 Cycle")]
    Cycle,
    /// The file would be too deep below the root.
    #[error("L5 TooDeep")]
    TooDeep,
    /// A line has more than 2,048 bytes without its end.
    #[error("L6 LineTooLong")]
    LineTooLong,
    /// Too many include lines were followed before.
    #[error("L8 TooManyIncludes")]
    TooManyIncludes,
    /// The file has more than `MOST_FILE_BYTES`.
    #[error("L9 TooLarge")]
    TooLarge,
}

/// A file, by its path, and a line of it, from 1.
#[derive(Debug, Drop, Error)]
#[error("{file}:{line}")]
pub struct Location {
    pub file: String,
    pub line: u32,
}

/// What follows a fault's path: ` at FILE:LINE` where there is a place, else nothing.
#[derive(Clone, Copy)]
struct At<'a>(&'a Option<Location>);

impl fmt::Display for At<'_> {
    fn fmt<W: fmt::Write>(&self, f: &mut fmt::Formatter<W>) -> fmt::Result {
        match self.0 {
            Some(place) => write!(f, " at {place}"),
            None => Ok(()),
        }
    }
}

/// The fault of the file at `path`, for which its table has no lines. The place is the include line
/// that named the file, and there is none for the root; of a long line it is its own. It is shown
/// as `CODE NAME PATH`, and ` at FILE:LINE` where it has a place.
#[derive(Debug, Drop, Error)]
#[error("{kind} {path}{at}", at = At(.place))]
pub struct LoadFault {
    pub kind: LoadFaultKind,
    pub path: String,
    pub place: Option<Location>,
}

/// A file, by its path, and a line of it.
#[derive(Clone, Copy)]
pub(crate) struct LocationRef<'a> {
    pub file: &'a str,
    pub line: u32,
}

impl LocationRef<'_> {
    /// A copy of the place.
    pub(crate) fn copy(self, alloc: Global) -> Result<Location, AllocError>
        ensures { IfOk result (λ copy. location_view copy ≡ location_ref_view self.entry) }
    {
        Ok(Location {
            file: String::from_str(alloc, self.file)?,
            line: self.line,
        })
    }
}

impl LoadFault {
    /// A fault, with copies of its path and place.
    pub(crate) fn new(
        alloc: Global,
        kind: LoadFaultKind,
        path: &str,
        place: Option<LocationRef<'_>>,
    ) -> Result<LoadFault, AllocError>
        ensures { IfOk result (λ fault. refusal_of kind path.now (option_map location_ref_view place.entry) ≡ load_fault_view fault) }
    {
        let path = String::from_str(alloc, path)?;
        let place = owned_place(alloc, place)?;
        Ok(LoadFault { kind, path, place })
    }
}

/// A copy of a place, where there is one.
fn owned_place(
    alloc: Global,
    place: Option<LocationRef<'_>>,
) -> Result<Option<Location>, AllocError>
    ensures { IfOk result (λ copy. option_map location_view copy ≡ option_map location_ref_view place.entry) }
{
    let Some(place) = place else {
        return Ok(None);
    };
    Ok(Some(place.copy(alloc)?))
}

/// A fault with copies of its path and place, or `Memory` where there is none for them.
pub(crate) fn refusal(
    alloc: Global,
    kind: LoadFaultKind,
    path: &str,
    place: Option<LocationRef<'_>>,
) -> Failure<LoadFault>
    ensures { IfFault (λ fault. refusal_of kind path.now (option_map location_ref_view place.entry) ≡ load_fault_view fault) result }
{
    match LoadFault::new(alloc, kind, path, place) {
        Ok(fault) => Failure::Fault(fault),
        Err(_) => Failure::Memory,
    }
}

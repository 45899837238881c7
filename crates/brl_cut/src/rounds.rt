//! Rounds of surveys of files, whose faulty lines become comments.
ghost use Rattle.std.specs.Prelude.{◌≡◌, Err, IfErr, IfOk, map, string_bytes};
ghost use Rattle.brl_failure.specs.Failure.{IfFault};
ghost use Rattle.brl_lines.specs.Lines.{location_of};
ghost use Rattle.brl_lines.specs.Views.{line_view, load_fault_view, location_view};
ghost use Rattle.brl_table.specs.Survey.{faulty_line_view, survey_of};
ghost use Rattle.brl_cut.specs.Files.{file_view};
ghost use Rattle.brl_cut.specs.Rounds.{IsSurveyed, IsUnsettled, SettlesTo};
ghost use Rattle.brl_cut.specs.Settling.{lines_among};

use crate::files::{BecomesComment, Edit, load_files, with_comments};
use brl_failure::Failure;
use brl_lines::{GatheredFile, Line, LoadFault, Loaded, Location};
use brl_table::{FaultyLine, survey};
use std::alloc::{AllocError, Global};

/// What a survey of files finds: their faulty lines, and the place of each line.
#[derive(Drop)]
pub(crate) struct Surveyed {
    pub faulty: Vec<FaultyLine>,
    pub places: Vec<Location>,
}

/// The faulty lines that became comments until all lines of the files were read, and the place of
/// each of these.
#[derive(Drop)]
pub(crate) struct Settled {
    pub found: Vec<FaultyLine>,
    pub places: Vec<Location>,
}

/// Surveys the lines of a table.
pub(crate) fn survey_loaded(alloc: Global, loaded: &Loaded) -> Result<Surveyed, AllocError>
    ensures faulty { IfOk result (λ found. map faulty_line_view found.faulty.items ≡ (survey_of loaded.now.lines).faulty) }
    ensures places { IfOk result (λ found. map location_view found.places.items ≡ map location_of loaded.now.lines) }
{
    let lines = loaded.lines(alloc)?;
    let found = survey(alloc, lines.as_slice())?;
    let places = places_of_lines(alloc, lines.as_slice())?;
    Ok(Surveyed {
        faulty: found.faulty,
        places,
    })
}

/// Surveys the table whose root has a path, of these files and no others, which are looked for in
/// these folders too.
pub(crate) fn survey_files(
    alloc: Global,
    folders: &[String],
    files: &[GatheredFile],
    root: &str,
) -> Result<Surveyed, Failure<LoadFault>>
    ensures found { IfOk result (IsSurveyed (map string_bytes folders.now) root.now (map file_view files.now)) }
    ensures fault { IfErr result (IfFault (λ fault. lines_among (map string_bytes folders.now) (map file_view files.now) root.now ≡ Err (load_fault_view fault))) }
{
    let loaded = load_files(alloc, folders, files, root)?;
    Ok(survey_loaded(alloc, &loaded)?)
}

/// The place of each line.
fn places_of_lines(alloc: Global, lines: &[Line<'_>]) -> Result<Vec<Location>, AllocError>
    ensures { IfOk result (λ places. map location_view places.items ≡ map location_of (map line_view lines.now)) }
{
    let mut places = Vec::with_capacity(alloc, lines.len())?;
    for line in lines {
        places.push(Location {
            file: String::from_str(alloc, line.file)?,
            line: line.line,
        })?;
    }
    Ok(places)
}

impl BecomesComment for FaultyLine {
    ghost use Rattle.brl_table.specs.Survey.{faulty_line_view};
    ghost use Rattle.brl_cut.specs.Settling.{fault_edit};

    ghost edit_of = { λ faulty. fault_edit (faulty_line_view faulty) };

    fn edit(&self, alloc: Global) -> Result<Edit, AllocError> {
        let fault = &self.fault;
        let kind = fault.kind;
        let subject = fault.subject.as_str();
        let prefix = format!(in alloc; "# {kind} {subject}: ")?;
        Edit::new(alloc, fault.file.as_str(), fault.line, prefix)
    }
}

/// Makes lines comments until a survey of the table whose root has a path finds none faulty: again
/// and again all those that it finds, first those that were found already. A table that can't be
/// loaded from these files, which are looked for in these folders too, is a fault.
pub(crate) fn settle(
    alloc: Global,
    folders: &[String],
    files: Vec<GatheredFile>,
    root: &str,
    first: Surveyed,
) -> Result<Settled, Failure<LoadFault>>
    requires { IsSurveyed (map string_bytes folders.now) root.now (map file_view files.items) first }
    ensures settled { IfOk result (SettlesTo (map string_bytes folders.now) root.now (map file_view files.items)) }
    ensures fault { IfErr result (IfFault (IsUnsettled (map string_bytes folders.now) root.now (map file_view files.items))) }
{
    let mut files = files;
    let mut found = Vec::new(alloc);
    let mut surveyed = first;
    for _ in 0..u64::MAX {
        if surveyed.faulty.is_empty() {
            return Ok(Settled {
                found,
                places: surveyed.places,
            });
        }
        files = with_comments(alloc, files.as_slice(), surveyed.faulty.as_slice())?;
        found.append(&mut surveyed.faulty)?;
        surveyed = survey_files(alloc, folders, files.as_slice(), root)?;
    }
    Err(Failure::Memory)
}

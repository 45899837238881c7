//! The lines of a whole table: which of them a cut keeps, and which can act.
ghost use Rattle.std.specs.Prelude.{◌≡◌, ◌++◌, ◌+◌, ◌<◌, ◌^◌, ◌||◌, ℕ, List, IfOk, OnOk, flat_map, map};
ghost use Rattle.std.proofs.Common.{rules};
ghost use Rattle.std.specs.Cmp.Rules.{hashing};
ghost use Rattle.std.specs.Hash as fed;
ghost use Rattle.brl_lines.specs.GatherFaults.{gathered_view};
ghost use Rattle.brl_lines.specs.Gathered.{left_view};
ghost use Rattle.brl_lines.specs.Views.{line_view};
ghost use Rattle.brl_table.specs.Survey.{faulty_line_view};
ghost use Rattle.brl_acting.specs.WholeTable.{Holds, acting_among as acting_among_by, acting_in, acting_line as acting_by, acting_of_table as acting_of_table_by, acting_view, continued_at, continued_places as continued_by, file_view, goes_on as goes_on_by, has_place, include_line as include_line_by, is_key, is_in_files as is_in_files_by, is_missing as is_missing_by, is_place, line_at, line_place, made_line as made_by, made_lines as made_lines_by, missing_lines as missing_by, left_out_place, place_view, rows_of, table_line as table_line_by, taken_lines};
ghost use Rattle.brl_acting.specs.Words.{table_line_view};

use crate::judging::acting;
use crate::parts::opcode_of;
use crate::table_line::TableLine;
use brl_lines::{
    Gathered, GatheredFile, IncludeReason, LeftInclude, Line, Loaded, Location, Token,
};
use brl_table::FaultyLine;
use indexmap::IndexSet;
use std::alloc::{AllocError, Global};
use std::hash::{Hash, Hasher};

/// A line that can act: its opcode, which comes after all prefixes; its place; and whether the cut
/// keeps it.
#[derive(Drop)]
pub struct ActingLine {
    pub opcode: String,
    pub place: Location,
    pub kept: bool,
}

/// The place of a line: its number from 1, and the path of its file.
#[derive(Clone, Copy, PartialEq, Eq)]
struct Place<'a> {
    line: usize,
    path: &'a str,
}

impl Hash for Place<'_> {
    ghost hash_input = { λ place. fed.usize place.line };

    ghost respects_eq = { Prim.search (hashing, rules) };

    /// Few lines have the same number, and a path has many characters.
    fn hash<H: Hasher>(&self, state: &mut H) {
        self.line.hash(state);
    }
}

/// The places of lines that are left out.
fn left_out_places(alloc: Global, left_out: &[FaultyLine]) -> Result<Vec<Place<'_>>, AllocError>
    ensures { IfOk result (λ places. map place_view places.items ≡ map left_out_place (map faulty_line_view left_out.now)) }
{
    let mut places = Vec::with_capacity(alloc, left_out.len())?;
    for faulty in left_out {
        places.push(Place {
            line: faulty.fault.line as usize,
            path: faulty.fault.file.as_str(),
        })?;
    }
    Ok(places)
}

/// Whether a row of a file ends with a backslash, so that for liblouis the next one belongs to it.
fn goes_on(row: &[u8]) -> bool
    ensures { result ≡ goes_on_by row.now }
{
    row.ends_with(b"\\") || row.ends_with(b"\\\r")
}

/// The rows of a file.
fn rows_of_file(alloc: Global, bytes: &[u8]) -> Result<Vec<&[u8]>, AllocError>
    ensures { IfOk result (λ rows. map (λ row. row.now) rows.items ≡ rows_of bytes.now) }
{
    bytes.split(|byte| *byte == b'\n').collect(alloc)
}

/// Adds the place of a row that goes on in the next one, and the place of that.
fn push_row<'a>(
    places: &mut Vec<Place<'a>>,
    path: &'a str,
    place: usize,
    row: &[u8],
) -> Result<(), AllocError>
    requires { place + 2 < 2 ^ 64 }
    ensures { OnOk result (map place_view places.new.items ≡ map place_view places.old.items ++ continued_at path.entry.now (place, row.now)) }
{
    if goes_on(row) {
        places.push(Place {
            line: place + 1,
            path,
        })?;
        places.push(Place {
            line: place + 2,
            path,
        })?;
    }
    Ok(())
}

/// The places of the rows of a file that go on in the next one, each with the place of that.
fn continued_in(alloc: Global, file: &GatheredFile) -> Result<Vec<Place<'_>>, AllocError>
    ensures { IfOk result (λ places. map place_view places.items ≡ continued_by (file_view file.now)) }
{
    let rows = rows_of_file(alloc, file.bytes.as_slice())?;
    let path = file.path.as_str();
    let mut places = Vec::new(alloc);
    for (place, row) in rows.iter().enumerate() {
        push_row(&mut places, path, place, row)?;
    }
    Ok(places)
}

/// The places of all rows of files that belong to their neighbours for liblouis.
fn continued_places(alloc: Global, files: &[GatheredFile]) -> Result<Vec<Place<'_>>, AllocError>
    ensures { IfOk result (λ places. map place_view places.items ≡ flat_map continued_by (map file_view files.now)) }
{
    let mut places = Vec::new(alloc);
    for file in files {
        places.append(&mut continued_in(alloc, file)?)?;
    }
    Ok(places)
}

/// Adds a place to those that can be looked up.
fn insert_place<'a>(set: &mut IndexSet<Place<'a>>, place: Place<'a>) -> Result<(), AllocError>
    ensures { OnOk result ((other : List ℕ × ℕ) →
        is_key set.new.keys other ≡ (is_key set.old.keys other || is_place other (place_view place.entry))) }
{
    set.insert(place)?;
    Ok(())
}

/// Places that can be looked up.
fn set_of<'a>(alloc: Global, places: &[Place<'a>]) -> Result<IndexSet<Place<'a>>, AllocError>
    ensures { IfOk result (λ set. Holds (map place_view places.now) set.keys) }
{
    let mut set = IndexSet::with_capacity(alloc, places.len())?;
    for place in places {
        insert_place(&mut set, *place)?;
    }
    Ok(set)
}

/// Whether a set has the place of a line.
fn has_line(places: &IndexSet<Place<'_>>, line: &Line<'_>) -> bool
    ensures { (all : List (List ℕ × ℕ)) → Holds all places.now.keys → result ≡ has_place all (line_place (line_view line.now)) }
{
    if places.is_empty() {
        return false;
    }
    places.contains(&Place {
        line: line.line as usize,
        path: line.file,
    })
}

/// A line of a table, where the first of these places are left out, and the others are one line
/// with a neighbour.
fn table_line<'l, 'a>(
    line: &'l Line<'a>,
    left_out: &IndexSet<Place<'_>>,
    continued: &IndexSet<Place<'_>>,
) -> TableLine<'l, 'a>
    ensures { (left others : List (List ℕ × ℕ)) → Holds left left_out.now.keys → Holds others continued.now.keys →
        table_line_view result ≡ table_line_by left others (line_view line.entry.now) }
{
    TableLine {
        line,
        kept: !has_line(left_out, line),
        continued: has_line(continued, line),
    }
}

/// Lines of a table, each with whether it is kept, and whether it is one with its neighbour.
fn table_lines<'l, 'a>(
    alloc: Global,
    lines: &'l [Line<'a>],
    left_out: &[Place<'_>],
    continued: &[Place<'_>],
) -> Result<Vec<TableLine<'l, 'a>>, AllocError>
    ensures { IfOk result (λ found. map table_line_view found.items ≡
        map (table_line_by (map place_view left_out.now) (map place_view continued.now)) (map line_view lines.entry.now)) }
{
    let left_out = set_of(alloc, left_out)?;
    let continued = set_of(alloc, continued)?;
    let mut found = Vec::with_capacity(alloc, lines.len())?;
    for line in lines {
        found.push(table_line(line, &left_out, &continued))?;
    }
    Ok(found)
}

/// Whether an include line is left out since there is no file.
fn is_missing(left: &LeftInclude) -> bool
    ensures { result ≡ is_missing_by (left_view left.now) }
{
    match left.reason {
        IncludeReason::Missing => true,
        IncludeReason::Dictionary | IncludeReason::Repeated => false,
    }
}

/// An include line that is left out, without its operand.
fn include_line(alloc: Global, left: &LeftInclude) -> Line<'_>
    ensures { line_view result ≡ include_line_by (left_view left.now) }
{
    Line {
        file: left.file.as_str(),
        line: left.line,
        opcode: Token {
            text: "include",
            start: 0,
        },
        operands: Vec::new(alloc),
    }
}

/// Adds the include lines that are left out since there is no file.
fn push_missing<'a>(
    alloc: Global,
    lines: &mut Vec<Line<'a>>,
    left_out: &'a [LeftInclude],
) -> Result<(), AllocError>
    ensures { OnOk result (map line_view lines.new.items ≡ map line_view lines.old.items ++ missing_by (map left_view left_out.entry.now)) }
{
    for left in left_out {
        if is_missing(left) {
            lines.push(include_line(alloc, left))?;
        }
    }
    Ok(())
}

/// The lines at places that can act.
fn lines_at(
    alloc: Global,
    lines: &[TableLine<'_, '_>],
    places: &[usize],
) -> Result<Vec<ActingLine>, AllocError>
    ensures { IfOk result (λ found. map acting_view found.items ≡ taken_lines (map table_line_view lines.now) places.now) }
{
    let mut found = Vec::with_capacity(alloc, places.len())?;
    for place in places {
        push_line(alloc, &mut found, lines, *place)?;
    }
    Ok(found)
}

/// Adds the line at a place, where there is one.
fn push_line(
    alloc: Global,
    found: &mut Vec<ActingLine>,
    lines: &[TableLine<'_, '_>],
    place: usize,
) -> Result<(), AllocError>
    ensures { OnOk result (map acting_view found.new.items ≡ map acting_view found.old.items ++ line_at (map table_line_view lines.now) place) }
{
    if let Some(line) = lines.get(place) {
        found.push(acting_line(alloc, line)?)?;
    }
    Ok(())
}

/// A line that can act.
fn acting_line(alloc: Global, at: &TableLine<'_, '_>) -> Result<ActingLine, AllocError>
    ensures { IfOk result (λ acting. acting_view acting ≡ acting_by (table_line_view at.now)) }
{
    let line = at.line;
    Ok(ActingLine {
        opcode: String::from_str(alloc, opcode_of(alloc, line)?)?,
        place: Location {
            file: String::from_str(alloc, line.file)?,
            line: line.line,
        },
        kept: at.kept,
    })
}

/// Which of these lines can act on texts over an alphabet.
fn acting_of_lines(
    alloc: Global,
    lines: &[TableLine<'_, '_>],
    alphabet: &[char],
) -> Result<Vec<ActingLine>, AllocError>
    ensures { IfOk result (λ found. map acting_view found.items ≡ acting_among_by (map table_line_view lines.now) alphabet.now) }
{
    let places = acting(alloc, lines, alphabet)?;
    lines_at(alloc, lines, places.as_slice())
}

/// Which of these lines can act on texts over an alphabet, where some of them are left out.
fn acting_among(
    alloc: Global,
    lines: &[Line<'_>],
    left_out: &[FaultyLine],
    files: &[GatheredFile],
    alphabet: &[char],
) -> Result<Vec<ActingLine>, AllocError>
    ensures { IfOk result (λ found. map acting_view found.items ≡
        acting_in (map left_out_place (map faulty_line_view left_out.now)) (flat_map continued_by (map file_view files.now)) (map line_view lines.now) alphabet.now) }
{
    let left_out = left_out_places(alloc, left_out)?;
    let continued = continued_places(alloc, files)?;
    let table_lines = table_lines(alloc, lines, left_out.as_slice(), continued.as_slice())?;
    acting_of_lines(alloc, table_lines.as_slice(), alphabet)
}

/// Whether a line that is left out is one of a file of the table.
fn is_in_files(gathered: &Gathered, faulty: &FaultyLine) -> bool
    ensures { result ≡ is_in_files_by (gathered_view gathered.now) (faulty_line_view faulty.now) }
{
    let path = faulty.fault.file.as_str();
    gathered.files.iter().any(|file| file.path.as_str() == path)
}

/// A line that is left out, of a file that the cut has made.
fn made_line(alloc: Global, faulty: &FaultyLine) -> Result<ActingLine, AllocError>
    ensures { IfOk result (λ acting. acting_view acting ≡ made_by (faulty_line_view faulty.now)) }
{
    Ok(ActingLine {
        opcode: String::from_str(alloc, faulty.opcode.as_str())?,
        place: Location {
            file: String::from_str(alloc, faulty.fault.file.as_str())?,
            line: faulty.fault.line,
        },
        kept: false,
    })
}

/// Adds the lines that are left out of a file that the cut has made.
fn push_made(
    alloc: Global,
    found: &mut Vec<ActingLine>,
    gathered: &Gathered,
    left_out: &[FaultyLine],
) -> Result<(), AllocError>
    ensures { OnOk result (map acting_view found.new.items ≡ map acting_view found.old.items ++ made_lines_by (gathered_view gathered.now) (map faulty_line_view left_out.now)) }
{
    for faulty in left_out {
        if !is_in_files(gathered, faulty) {
            found.push(made_line(alloc, faulty)?)?;
        }
    }
    Ok(())
}

/// The lines of a whole table that can act on texts over an alphabet, among those that its cut
/// leaves out and the include lines whose file isn't there. First come those of the gathered files
/// in the order in which liblouis reads them, then include lines whose file isn't there, and then
/// all that are left out of a file that the cut has made. The alphabet has characters that the cut
/// defines, and always the blank. Where there are none, the whole table writes the cells of its cut
/// for each text over the alphabet: this is a claim of liblouis that isn't proved. `AllocError` if
/// memory runs out.
pub fn acting_of_table<'a>(
    alloc: Global,
    whole: &'a Loaded,
    gathered: &'a Gathered,
    left_out: &[FaultyLine],
    alphabet: &[char],
) -> Result<Vec<ActingLine>, AllocError>
    ensures { IfOk result (λ found. map acting_view found.items ≡
        acting_of_table_by whole.entry.now.lines (gathered_view gathered.entry.now) (map faulty_line_view left_out.now) alphabet.now) }
{
    let mut lines = whole.lines(alloc)?;
    push_missing(alloc, &mut lines, gathered.left_out.as_slice())?;
    let mut found = acting_among(
        alloc,
        lines.as_slice(),
        left_out,
        gathered.files.as_slice(),
        alphabet,
    )?;
    push_made(alloc, &mut found, gathered, left_out)?;
    Ok(found)
}

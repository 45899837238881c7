//! Worked cells, their spellings and their marks. In rows a cell is its number, in hexadecimal.
use brl_cells::{Cell, Cells, DotsFault, read_dots, to_ascii, to_unicode, write_dots};
use brl_failure::Failure;
use brl_testing::{agree, check_rows, cut, for_rows_of_2, for_rows_of_3, lend, numbers_of};
use std::alloc::Global;
use std::fmt::Write;
use std::test::Fail;

/// Dots operands and their cells.
const READ: &str = "\
21-0|3,0
1|1
0|0
1-12|1,3
2345|1e
17|41
87654321|ff
1-1-1-1-1-1-1-1-1-1-1-1-1-1-1-1|1,1,1,1,1,1,1,1,1,1,1,1,1,1,1,1
";

/// Cells, and the dots operands that are written for them.
const WRITTEN: &str = "\
|
0|0
3,0|12-0
3c,1|3456-1
ff|12345678
";

/// The cells whose numbers are a field.
fn cells_of(alloc: Global, field: &str) -> Result<Vec<Cell>, Fail> {
    let mut cells = Vec::new(alloc);
    for number in &numbers_of(alloc, field)? {
        cells.push(Cell(u8::try_from(*number)?))?;
    }
    Ok(cells)
}

/// Whether a row's dots operand is read as its cells.
fn is_read(alloc: Global, row: &str) -> Result<bool, Fail> {
    let (dots, cells) = cut(row)?;
    let cells = cells_of(alloc, cells)?;
    Ok(read_dots(alloc, dots, 16)?.as_slice() == cells.as_slice())
}

#[test]
fn dots_are_read(rt: HostRuntime) -> Result<(), Fail> {
    check_rows(rt.alloc(), READ, is_read)
}

/// The dots operand that is written for the cells of a field.
fn written(alloc: Global, field: &str) -> Result<String, Fail> {
    Ok(write_dots(alloc, cells_of(alloc, field)?.as_slice())?)
}

#[test]
fn dots_are_written(rt: HostRuntime) -> Result<(), Fail> {
    for_rows_of_2(rt.alloc(), WRITTEN, written)
}

/// Texts that are no dots operands, the most cells that are taken, 16 or 1, and the fault.
const FAULTS: &str = "\
|16|C1 EmptyCell
1-|16|C1 EmptyCell
-1|16|C1 EmptyCell
1--9|16|C1 EmptyCell
9|16|C2 BadDot
01|16|C2 BadDot
10|16|C2 BadDot
1 2|16|C2 BadDot
1é|16|C2 BadDot
9-11|16|C2 BadDot
11|16|C3 RepeatedDot
119|16|C3 RepeatedDot
1-2|1|C4 TooManyCells
1-2-9|1|C2 BadDot
1-1-1-1-1-1-1-1-1-1-1-1-1-1-1-1-1|16|C4 TooManyCells
";

/// The fault of a text.
fn fault_of(alloc: Global, text: &str, most: &str) -> Result<String, Fail> {
    let most = if most == "1" { 1 } else { 16 };
    let fault = read_dots(alloc, text, most).err();
    Ok(fault.ok_or("no fault")?.to_string(alloc)?)
}

#[test]
fn the_first_fault_decides(rt: HostRuntime) -> Result<(), Fail> {
    for_rows_of_3(rt.alloc(), FAULTS, fault_of)
}

/// Writes the faults as they are printed, each with a comma.
fn write_faults(text: &mut String) -> Result<(), Fail> {
    let faults = [
        Failure::Fault(DotsFault::EmptyCell),
        Failure::Fault(DotsFault::BadDot),
        Failure::Fault(DotsFault::RepeatedDot),
        Failure::Fault(DotsFault::TooManyCells),
        Failure::Memory,
    ];
    for fault in faults {
        write!(text, "{fault},")?;
    }
    Ok(())
}

#[test]
fn faults_are_printed_by_code_and_name(rt: HostRuntime) -> Result<(), Fail> {
    let mut text = String::new(rt.alloc());
    write_faults(&mut text)?;
    let want = "C1 EmptyCell,C2 BadDot,C3 RepeatedDot,C4 TooManyCells,Memory,";
    agree("faults", text.as_str(), want)
}

/// Cells and their marks in Braille ASCII, or nothing for a cell that has none.
const MARKS: &str = "\
0|\u{20}
1|A
3|B
9|C
f|P
10|\"
1f|Q
20|,
2f|&
30|;
33|\\
3c|#
3f|=
40|
41|
80|
ff|
";

/// The mark of a cell, or nothing.
fn mark_of(alloc: Global, cell: &str) -> Result<String, Fail> {
    match to_ascii(Cell(u8::from_str_radix(cell, 16)?)) {
        Some(mark) => Ok(format!(in alloc; "{}", char::from(mark))?),
        None => Ok(String::new(alloc)),
    }
}

#[test]
fn cells_have_marks(rt: HostRuntime) -> Result<(), Fail> {
    for_rows_of_2(rt.alloc(), MARKS, mark_of)
}

#[test]
fn cells_are_unicode_braille(rt: HostRuntime) {
    let cases = [(0, '\u{2800}'), (0b1000001, '\u{2841}'), (255, '\u{28FF}')];
    for (cell, character) in cases {
        assert!(rt; to_unicode(Cell(cell)) == character, "at {cell}");
    }
}

/// Adds the cells from 0 to 9.
fn push_ten(cells: &mut Cells) -> Result<(), Fail> {
    for number in 0..10u8 {
        cells.push(Cell(number))?;
    }
    Ok(())
}

/// Whether a copy is equal to its list of ten cells, and a list of the first two is another.
fn are_lists(ten: &Cells, copy: &Cells, two: &Cells) -> bool {
    ten.len() == 10
        && !ten.is_empty()
        && copy == ten
        && two != ten
        && two.as_slice() == [Cell(0), Cell(1)].as_slice()
}

fn compare_lists(alloc: Global, ten: &Cells) -> Result<bool, Fail> {
    let two = Cells::from_slice(alloc, &[Cell(0), Cell(1)])?;
    Ok(lend(ten.copy()?, |copy| are_lists(ten, copy, &two)))
}

#[test]
fn cells_are_a_list(rt: HostRuntime) -> Result<(), Fail> {
    let mut cells = Cells::new(rt.alloc());
    assert!(rt; cells.is_empty());
    push_ten(&mut cells)?;
    assert!(rt; compare_lists(rt.alloc(), &cells)?);
    Ok(())
}

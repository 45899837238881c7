//! Cells as marks of North American Braille ASCII and as characters of Unicode braille.
ghost use Rattle.std.specs.Prelude.{◌≡◌, ◌≤◌, ◌↔◌, IsNone};
ghost use Rattle.brl_cells.specs.Marks.{ascii_mark, unicode_mark};

use crate::Cell;

/// The mark of each cell without the dots 7 and 8, in the order of the cells' numbers.
const ASCII_MARKS: [u8; 64] = *b" A1B'K2L@CIF/MSP\
    \"E3H9O6R^DJG>NTQ\
    ,*5<-U8V.%[$+X!&\
    ;:4\\0Z7(_?W]#Y)=";

/// The mark of a cell in North American Braille ASCII, or `None` where it has dot 7 or 8.
pub fn to_ascii(cell: Cell) -> Option<u8>
    ensures mark { result ≡ ascii_mark cell }
    ensures none { IsNone result ↔ (64 ≤ cell) }
{
    ASCII_MARKS.get(usize::from(cell.0)).copied()
}

/// The character of a cell in Unicode braille: U+2800 plus the cell's number.
pub fn to_unicode(cell: Cell) -> char
    ensures { result ≡ unicode_mark cell }
{
    char::from_u32(0x2800 + u32::from(cell.0)).unwrap()
}

//! The letters of a table, and those before which `letsign` may stand.
ghost use Rattle.std.specs.Prelude.{◌≡◌, IfOk, map};
ghost use Rattle.brl_acting.specs.Letters.{letters_by, letters_of, letters_view, table_line as table_line_of};
ghost use Rattle.brl_acting.specs.PartsViews.{parts_view};
ghost use Rattle.brl_acting.specs.Words.{table_line_view};
ghost use Rattle.brl_lines.specs.Views.{line_view};

use crate::char_set::CharSet;
use crate::class_pairs::{classes_of, noletsigns_of};
use crate::classes::members;
use crate::line_parts::Parts;
use crate::parts::parts_of_lines;
use crate::table_line::TableLine;
use brl_lines::Line;
use std::alloc::{AllocError, Global};

/// The letters of a table, and those before which `letsign` may stand: small letters, and letters
/// without a case, which no `noletsign` line lists, and which are no `word` and no `largesign` by
/// themselves.
#[derive(Drop)]
pub struct Letters {
    letters: CharSet,
    /// Characters before which it doesn't stand.
    without_sign: CharSet,
}

impl Letters {
    /// The letters that lines give, and those before which `letsign` may stand. `AllocError` if
    /// memory runs out.
    pub fn of_lines(alloc: Global, lines: &[Line<'_>]) -> Result<Letters, AllocError>
        ensures { IfOk result (λ letters. letters_view letters ≡ letters_of (map line_view lines.now)) }
    {
        let lines = table_lines(alloc, lines)?;
        letters_of_parts(alloc, parts_of_lines(alloc, lines.as_slice())?.as_slice())
    }

    /// Whether a character is a letter.
    pub fn has(&self, character: char) -> bool
        ensures { result ≡ (letters_view self.now).is_letter character }
    {
        self.letters.has(character)
    }

    /// Whether a character is one before which `letsign` may stand.
    pub fn takes_sign(&self, character: char) -> bool
        ensures { result ≡ (letters_view self.now).takes_sign character }
    {
        self.letters.has(character) && !self.without_sign.has(character)
    }
}

/// These lines, as a cut has them that leaves none out.
fn table_lines<'l, 'a>(
    alloc: Global,
    lines: &'l [Line<'a>],
) -> Result<Vec<TableLine<'l, 'a>>, AllocError>
    ensures { IfOk result (λ found. map table_line_view found.items ≡ map table_line_of (map line_view lines.entry.now)) }
{
    let mut found = Vec::with_capacity(alloc, lines.len())?;
    for line in lines {
        found.push(TableLine {
            line,
            kept: true,
            continued: false,
        })?;
    }
    Ok(found)
}

/// The letters that the parts of lines give.
fn letters_of_parts(alloc: Global, lines: &[Parts<'_>]) -> Result<Letters, AllocError>
    ensures { IfOk result (λ letters. letters_view letters ≡ letters_by (map parts_view lines.now)) }
{
    let pairs = classes_of(alloc, lines)?;
    let letters = members(alloc, pairs.as_slice(), "letter")?;
    let mut without_sign = members(alloc, pairs.as_slice(), "uppercase")?;
    without_sign.add(noletsigns_of(alloc, lines)?.as_slice())?;
    Ok(Letters {
        letters,
        without_sign,
    })
}

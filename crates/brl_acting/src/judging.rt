//! The lines of a table that can act on texts over an alphabet.
ghost use Rattle.std.specs.Prelude.{◌≡◌, ◌++◌, IfOk, OnOk, map};
ghost use Rattle.brl_acting.specs.Acting.{acting_at, acting_lines, acting_of, can_act as can_act_by};
ghost use Rattle.brl_acting.specs.Readings.{known_view};
ghost use Rattle.brl_acting.specs.PartsViews.{parts_view};
ghost use Rattle.brl_acting.specs.Words.{parts_of, table_line_view};

use crate::kept::kept_acts;
use crate::known::{Known, known_of};
use crate::left_out::faulty_acts;
use crate::line_parts::Parts;
use crate::parts::parts_of_lines;
use crate::table_line::TableLine;
use std::alloc::{AllocError, Global};

/// Whether the line at a place can act.
fn can_act(
    alloc: Global,
    known: &Known<'_>,
    place: usize,
    parts: &Parts<'_>,
) -> Result<bool, AllocError>
    ensures { IfOk result (λ acts. acts ≡ can_act_by (known_view known.now) place (parts_view parts.now)) }
{
    if parts.continued {
        return Ok(true);
    }
    if parts.kept {
        kept_acts(alloc, known, place, parts)
    } else {
        faulty_acts(alloc, known, parts)
    }
}

/// The places of the lines that can act, by the parts of each line.
fn acting_places(
    alloc: Global,
    known: &Known<'_>,
    parts: &[Parts<'_>],
) -> Result<Vec<usize>, AllocError>
    ensures { IfOk result (λ places. places.items ≡ acting_of (known_view known.now) (map parts_view parts.now)) }
{
    let mut places = Vec::new(alloc);
    for (place, line) in parts.iter().enumerate() {
        push_acting(alloc, known, &mut places, place, line)?;
    }
    Ok(places)
}

/// Adds the place of a line, if the line can act.
fn push_acting(
    alloc: Global,
    known: &Known<'_>,
    places: &mut Vec<usize>,
    place: usize,
    parts: &Parts<'_>,
) -> Result<(), AllocError>
    ensures { OnOk result (places.new.items ≡ places.old.items ++ acting_at (known_view known.now) (place, parts_view parts.now)) }
{
    if can_act(alloc, known, place, parts)? {
        places.push(place)?;
    }
    Ok(())
}

/// The places of the lines that can act on texts over an alphabet, in order: those whose needs are
/// all met. The lines are those of the whole table, in the order in which liblouis reads them. The
/// alphabet has characters that kept lines define; the blank belongs to it, whether given or not.
/// Where there is no such line, the whole table writes the cells of its cut for each text over the
/// alphabet: this is a claim of liblouis that isn't proved. Lines that can act say what is in the
/// way first; another line may act on what they write. `AllocError` if memory runs out.
pub fn acting(
    alloc: Global,
    lines: &[TableLine<'_, '_>],
    alphabet: &[char],
) -> Result<Vec<usize>, AllocError>
    ensures { IfOk result (λ places. places.items ≡ acting_lines (map table_line_view lines.now) alphabet.now) }
{
    let parts = parts_of_lines(alloc, lines)?;
    let known = known_of(alloc, parts.as_slice(), alphabet)?;
    let places = acting_places(alloc, &known, parts.as_slice())?;
    Ok(places)
}

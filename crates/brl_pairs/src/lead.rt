//! The lead of one run over another, and how it changes when the run behind gives more cells.
ghost use Rattle.brl_pairs.specs.Pairs.{IsAdvanced};

use brl_cells::Cell;

/// A lead after the run behind has given more cells.
#[derive(Clone, Copy, PartialEq, Eq, Debug)]
pub enum Advanced<'a> {
    /// The cells begin the lead: the run behind stays behind, by this rest of the lead.
    Still(&'a [Cell]),
    /// The lead is a shorter beginning of the cells: the run behind gets ahead, by this rest of the
    /// cells.
    Swapped(&'a [Cell]),
    /// Neither begins the other: the two runs give different cells.
    Apart,
}

/// The lead after the run behind has given these cells. Where they equal the lead, nothing is left
/// of it: `Still` with an empty rest. The rests are slices of the arguments, so no memory is
/// allocated.
pub fn advance<'a>(lead: &'a [Cell], cells: &'a [Cell]) -> Advanced<'a>
    ensures { IsAdvanced lead.entry.now cells.entry.now result }
{
    if let Some(rest) = lead.strip_prefix(cells) {
        return Advanced::Still(rest);
    }
    match cells.strip_prefix(lead) {
        Some(rest) => Advanced::Swapped(rest),
        None => Advanced::Apart,
    }
}

//! The order in which slips are shown.
ghost use Rattle.std.specs.Prelude.{◌≡◌, length, slice_get};
ghost use Rattle.std.specs.List.Sorted.{IsPermutation, IsSorted};
ghost use Rattle.std.specs.Option.{option_map_or};
ghost use Rattle.brl_slips.specs.Order.{cells_at as cell_count, group_at, group_of, slip_cmp};

use crate::fault::Fault;
use crate::slip::Slip;
use std::cmp::Ordering;

/// The group of a slip by its fault and the number of the rule's cells: those of a lesser group
/// come first. Twins come after the first two groups.
pub(crate) fn group(fault: Fault, length: usize) -> u8
    ensures { result ≡ group_of fault length }
{
    match fault {
        Fault::TwoReplaced(_, _) => 3,
        _ if length == 4 => 2,
        Fault::TooMany(_) | Fault::Missing(_) => 1,
        _ => 0,
    }
}

/// The group of the slip with a number.
fn group_at(slips: &[Slip], number: usize) -> u8
    ensures { result ≡ group_at slips.now number }
{
    match slips.get(number) {
        Some(slip) => group(slip.fault, slip.length),
        None => 0,
    }
}

/// The number of cells of the slip with a number.
fn cells_at(slips: &[Slip], number: usize) -> usize
    ensures { result ≡ cell_count slips.now number }
{
    match slips.get(number) {
        Some(slip) => slip.length,
        None => 0,
    }
}

/// The order of the slips with two numbers: by their groups; then the rule with more cells comes
/// first; then the one that comes first in the table.
pub(crate) fn compare_slips(slips: &[Slip], one: usize, other: usize) -> Ordering
    ensures { result ≡ slip_cmp slips.now one other }
{
    group_at(slips, one)
        .cmp(&group_at(slips, other))
        .then(cells_at(slips, other).cmp(&cells_at(slips, one)))
        .then(one.cmp(&other))
}

/// The numbers of slips in their order.
pub(crate) fn in_order(slips: &[Slip], numbers: Vec<usize>) -> Vec<usize>
    ensures moved { IsPermutation numbers.items result.items }
    ensures sorted { IsSorted (slip_cmp slips.now) result.items }
{
    let mut sorted = numbers;
    sorted.sort_unstable_by(|one, other| compare_slips(slips, *one, *other));
    sorted
}

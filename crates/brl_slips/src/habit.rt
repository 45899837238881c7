//! The differences of slips, and those that are in too many of them.
ghost use Rattle.std.specs.Prelude.{◌≡◌, ◌<◌, ◌++◌, All, IfOk, OnOk, filter, flat_map, length, map};
ghost use Rattle.std.specs.List.{list_any, position};
ghost use Rattle.brl_slips.specs.Counting.{AreTallies, IsCounted, case_of, cases_of, habit_of, is_among, is_often};
ghost use Rattle.brl_slips.specs.Habits.{AreHabits, both, differences_by, differences_of, replaced_at, same};
ghost use Rattle.brl_slips.specs.Shown.{kept_of};
ghost use Rattle.brl_slips.specs.Slips.{IsFault, IsShownSlip};

use crate::fault::Fault;
use crate::lexicon::Lexicon;
use crate::slip::{Slip, cells_of_row};
use brl_cells::Cell;
use std::alloc::{AllocError, Global};
use std::cmp::Reverse;

/// In how many slips a difference makes a habit.
const HABIT: usize = 4;

/// A difference, without its place.
#[derive(Clone, Copy, PartialEq, Eq, Debug)]
pub enum Difference {
    /// A cell, and the one that was meant.
    Replaced { is: Cell, meant: Cell },
    Exchanged,
    TooMany(Cell),
    Missing(Cell),
}

/// A difference that is in four slips or more: an author's habit, or one fault that was copied.
#[derive(Debug, Drop)]
pub struct Habit {
    pub difference: Difference,
    /// In how many slips it is.
    pub count: usize,
    /// The number of the first rule that has it.
    pub entry: usize,
}

/// A difference of a slip, and the number of the slip's rule.
#[derive(Clone, Copy)]
struct Case {
    difference: Difference,
    entry: usize,
}

/// How many cases of a difference there are, and the number of the first one's rule.
#[derive(Clone, Copy)]
struct Tally {
    difference: Difference,
    count: usize,
    entry: usize,
}

/// The numbers of slips that are shown, and the habits of the others.
#[derive(Drop)]
pub(crate) struct Parted {
    pub kept: Vec<usize>,
    pub habits: Vec<Habit>,
}

/// Parts slips from habits: the numbers of the slips without a habit, in ascending order, and the
/// habits, the most frequent first. Of habits that are as frequent the one that is met first comes
/// first.
pub(crate) fn part_habits(
    alloc: Global,
    lexicon: &Lexicon,
    slips: &[Slip],
) -> Result<Parted, AllocError>
    requires { All (IsShownSlip lexicon.now) slips.now }
    ensures kept { IfOk result (λ parted. parted.kept.items ≡ kept_of lexicon.now slips.now) }
    ensures habits { IfOk result (λ parted. AreHabits lexicon.now slips.now parted.habits.items) }
{
    let habits = habits_of(alloc, lexicon, slips)?;
    let kept = without_habits(alloc, lexicon, habits.as_slice(), slips)?;
    Ok(Parted { kept, habits })
}

/// The habits of slips, the most frequent first.
fn habits_of(alloc: Global, lexicon: &Lexicon, slips: &[Slip]) -> Result<Vec<Habit>, AllocError>
    requires { All (IsShownSlip lexicon.now) slips.now }
    ensures { IfOk result (λ habits. AreHabits lexicon.now slips.now habits.items) }
{
    let cases = cases_of(alloc, lexicon, slips)?;
    let tallies = tallies_of(alloc, cases.as_slice())?;
    let mut habits = often(alloc, tallies.as_slice())?;
    habits.sort_by_key(|habit| Reverse(habit.count))?;
    Ok(habits)
}

/// The numbers of the slips none of whose differences is a habit.
fn without_habits(
    alloc: Global,
    lexicon: &Lexicon,
    habits: &[Habit],
    slips: &[Slip],
) -> Result<Vec<usize>, AllocError>
    requires slips { All (IsShownSlip lexicon.now) slips.now }
    requires habits { AreHabits lexicon.now slips.now habits.now }
    ensures { IfOk result (λ kept. kept.items ≡ kept_of lexicon.now slips.now) }
{
    let mut kept = Vec::new(alloc);
    for (number, slip) in slips.iter().enumerate() {
        let differences = differences_of(alloc, lexicon, slip)?;
        if !has_habit(habits, differences.as_slice()) {
            kept.push(number)?;
        }
    }
    Ok(kept)
}

/// Whether one of the differences is a habit's.
fn has_habit(habits: &[Habit], differences: &[Difference]) -> bool
    ensures { result ≡ list_any (is_among habits.now) differences.now }
{
    differences
        .iter()
        .any(|difference| is_habit(habits, *difference))
}

/// Whether a difference is a habit's.
fn is_habit(habits: &[Habit], difference: Difference) -> bool
    ensures { result ≡ is_among habits.now difference }
{
    habits.iter().any(|habit| difference == habit.difference)
}

/// The cases of slips, in the order of the slips.
fn cases_of(alloc: Global, lexicon: &Lexicon, slips: &[Slip]) -> Result<Vec<Case>, AllocError>
    requires { All (IsShownSlip lexicon.now) slips.now }
    ensures { IfOk result (λ cases. cases.items ≡ flat_map (cases_of lexicon.now) slips.now) }
{
    let mut cases = Vec::new(alloc);
    for slip in slips {
        let differences = differences_of(alloc, lexicon, slip)?;
        push_cases(&mut cases, differences.as_slice(), slip.entry)?;
    }
    Ok(cases)
}

/// Adds a case for each difference of a slip of this rule.
fn push_cases(
    cases: &mut Vec<Case>,
    differences: &[Difference],
    entry: usize,
) -> Result<(), AllocError>
    ensures { OnOk result (cases.new.items ≡ cases.old.items ++ map (case_of entry) differences.now) }
{
    for difference in differences {
        cases.push(Case {
            difference: *difference,
            entry,
        })?;
    }
    Ok(())
}

/// The differences of a slip: one, or two where two cells stand for others in different ways.
fn differences_of(
    alloc: Global,
    lexicon: &Lexicon,
    slip: &Slip,
) -> Result<Vec<Difference>, AllocError>
    requires { IsShownSlip lexicon.now slip.now }
    ensures { IfOk result (λ found. found.items ≡ differences_of lexicon.now slip.now) }
{
    let Some(piece) = lexicon.piece_of(slip.entry) else {
        return Ok(Vec::new(alloc));
    };
    let spelled = cells_of_row(alloc, lexicon.pieces.as_slice(), slip.spelling.as_slice())?;
    differences_by(
        alloc,
        slip.fault,
        piece.cells.as_slice(),
        spelled.as_slice(),
    )
}

/// The differences of cells from those of a spelling, by the fault.
fn differences_by(
    alloc: Global,
    fault: Fault,
    cells: &[Cell],
    spelled: &[Cell],
) -> Result<Vec<Difference>, AllocError>
    requires { IsFault fault cells.now spelled.now }
    ensures { IfOk result (λ found. found.items ≡ differences_by fault cells.now spelled.now) }
{
    match fault {
        Fault::Replaced(place) => Vec::from_slice(alloc, &[replaced_at(cells, spelled, place)]),
        Fault::Exchanged(_) => Vec::from_slice(alloc, &[Difference::Exchanged]),
        Fault::TooMany(place) => Vec::from_slice(alloc, &[Difference::TooMany(cells[place])]),
        Fault::Missing(place) => Vec::from_slice(alloc, &[Difference::Missing(spelled[place])]),
        Fault::TwoReplaced(first, second) => both(
            alloc,
            replaced_at(cells, spelled, first),
            replaced_at(cells, spelled, second),
        ),
    }
}

/// The difference of a cell that is replaced at a place.
fn replaced_at(cells: &[Cell], spelled: &[Cell], place: usize) -> Difference
    requires is { place < length cells.now }
    requires meant { place < length spelled.now }
    ensures { result ≡ replaced_at cells.now spelled.now place }
{
    Difference::Replaced {
        is: cells[place],
        meant: spelled[place],
    }
}

/// Two differences: one, where they are the same.
fn both(alloc: Global, one: Difference, other: Difference) -> Result<Vec<Difference>, AllocError>
    ensures { IfOk result (λ found. found.items ≡ both one other) }
{
    if one == other {
        return Vec::from_slice(alloc, &[one]);
    }
    Vec::from_slice(alloc, &[one, other])
}

/// How many cases there are of each difference.
fn tallies_of(alloc: Global, cases: &[Case]) -> Result<Vec<Tally>, AllocError>
    ensures { IfOk result (λ tallies. AreTallies cases.now tallies.items) }
{
    let mut tallies = Vec::new(alloc);
    for case in cases {
        count(&mut tallies, case)?;
    }
    Ok(tallies)
}

/// Counts a case.
fn count(tallies: &mut Vec<Tally>, case: &Case) -> Result<(), AllocError>
    ensures { OnOk result (IsCounted case.now tallies.old.items tallies.new.items) }
{
    if let Some(place) = place_of_tally(tallies.as_slice(), case) {
        tallies[place].count = tallies[place].count.saturating_add(1);
        return Ok(());
    }
    tallies.push(Tally {
        difference: case.difference,
        count: 1,
        entry: case.entry,
    })?;
    Ok(())
}

/// The place of the tally of a case's difference.
fn place_of_tally(tallies: &[Tally], case: &Case) -> Option<usize>
    ensures { result ≡ position (λ tally. same case.now.difference tally.difference) tallies.now }
{
    tallies
        .iter()
        .position(|tally| case.difference == tally.difference)
}

/// The differences that are in four slips or more, in the order of their tallies.
fn often(alloc: Global, tallies: &[Tally]) -> Result<Vec<Habit>, AllocError>
    ensures { IfOk result (λ habits. habits.items ≡ map habit_of (filter is_often tallies.now)) }
{
    tallies
        .iter()
        .filter(|tally| tally.count >= HABIT)
        .map(|tally| Habit {
            difference: tally.difference,
            count: tally.count,
            entry: tally.entry,
        })
        .collect(alloc)
}

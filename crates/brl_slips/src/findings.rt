//! The slips, habits and twins of a table.
ghost use Rattle.std.specs.Prelude.{◌≤◌, IfOk, vec_len};
ghost use Rattle.std.specs.List.Sorted.{IsPermutation, IsSorted};
ghost use Rattle.brl_slips.specs.Finding.{IsSlipFound};
ghost use Rattle.brl_slips.specs.Habits.{AreHabits};
ghost use Rattle.brl_slips.specs.Order.{slip_cmp};
ghost use Rattle.brl_slips.specs.Searching.{IsIndex};
ghost use Rattle.brl_slips.specs.Shown.{kept_of};
ghost use Rattle.brl_slips.specs.Slips.{AreSlips};
ghost use Rattle.brl_slips.specs.Twins.{AreTwins};

use crate::habit::{Habit, Parted, part_habits};
use crate::lexicon::Lexicon;
use crate::order::in_order;
use crate::slip::{Likeness, Slip, likeness_of};
use crate::starts::Index;
use crate::twins::{Twins, find_twins};
use std::alloc::{AllocError, Global};

/// After how many tried pieces no more rules are tested: 100 times what any table of liblouis
/// needs.
const MOST_STEPS: u64 = 20_000_000;

/// What is found in a table.
#[derive(Drop)]
pub struct Findings {
    /// The slips among the first rules, in the order of the table, those of habits too.
    pub slips: Vec<Slip>,
    /// The numbers of the slips that are shown: those of no habit, the most suspicious first.
    pub shown: Vec<usize>,
    pub habits: Vec<Habit>,
    /// The twins that are shown: those of letters that are no habit, the longest first.
    pub twins: Vec<Twins>,
    /// How many rules were tested.
    pub judged: usize,
}

/// The slips among the first rules of a table, its habits and its twins; the slips of no habit are
/// shown, each once, in order.
pub fn find_slips(alloc: Global, lexicon: &Lexicon) -> Result<Findings, AllocError>
    ensures slips { IfOk result (λ found. AreSlips lexicon.now found.judged found.slips.items) }
    ensures habits { IfOk result (λ found. AreHabits lexicon.now found.slips.items found.habits.items) }
    ensures shown { IfOk result (λ found. IsPermutation (kept_of lexicon.now found.slips.items) found.shown.items) }
    ensures sorted { IfOk result (λ found. IsSorted (slip_cmp found.slips.items) found.shown.items) }
    ensures twins { IfOk result (λ found. AreTwins lexicon.now found.twins.items) }
    ensures judged { IfOk result (λ found. found.judged ≤ vec_len lexicon.now.entries) }
{
    let index = Index::of_pieces(alloc, lexicon.pieces.as_slice())?;
    let Judged { slips, count } = judge_all(alloc, lexicon, &index)?;
    let Parted { kept, habits } = part_habits(alloc, lexicon, slips.as_slice())?;
    let shown = in_order(slips.as_slice(), kept);
    let twins = find_twins(alloc, lexicon)?;
    Ok(Findings {
        slips,
        shown,
        habits,
        twins,
        judged: count,
    })
}

/// The slips of the first rules, and how many these are.
#[derive(Drop)]
struct Judged {
    slips: Vec<Slip>,
    count: usize,
}

/// Tests each rule, until too many pieces were tried.
fn judge_all(alloc: Global, lexicon: &Lexicon, index: &Index) -> Result<Judged, AllocError>
    requires { IsIndex lexicon.now.pieces.items index.now }
    ensures slips { IfOk result (λ judged. AreSlips lexicon.now judged.count judged.slips.items) }
    ensures few { IfOk result (λ judged. judged.count ≤ vec_len lexicon.now.entries) }
{
    let mut slips = Vec::new(alloc);
    let mut steps = 0;
    for entry in 0..lexicon.entries.len() {
        if steps > MOST_STEPS {
            return Ok(Judged {
                slips,
                count: entry,
            });
        }
        if let Some(slip) = slip_of(alloc, lexicon, index, entry, &mut steps)? {
            slips.push(slip)?;
        }
    }
    let count = lexicon.entries.len();
    Ok(Judged { slips, count })
}

/// The slip that the rule with a number is, if it is one. Adds the number of pieces that were tried
/// to the steps.
fn slip_of(
    alloc: Global,
    lexicon: &Lexicon,
    index: &Index,
    entry: usize,
    steps: &mut u64,
) -> Result<Option<Slip>, AllocError>
    requires { IsIndex lexicon.now.pieces.items index.now }
    ensures { IfOk result (IsSlipFound lexicon.now entry) }
{
    let Some(piece) = lexicon.piece_of(entry) else {
        return Ok(None);
    };
    let likeness = likeness_of(alloc, lexicon, index, piece, steps)?;
    let Some(Likeness { fault, spelling }) = likeness else {
        return Ok(None);
    };
    Ok(Some(Slip {
        entry,
        fault,
        spelling,
        length: piece.cells.len(),
    }))
}

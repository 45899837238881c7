//! A machine of two letters, through the laws of unambiguous machines.
ghost use Rattle.std.specs.Prelude.{◌≡◌, [], ◌∷◌, IfOk};
ghost use Rattle.brl_pairs.specs.Divergence.{DivergeOnlyAt, DivergeWhereListed, IsClosedBut, IsUnambiguousBut, sets_apart};
ghost use Rattle.brl_pairs.specs.Examples.{a_or_b, letter_step, letters};
ghost use Rattle.brl_pairs.specs.Runs.{IsUnambiguous};

use brl_cells::{Cell, Cells, Chars};
use brl_pairs::{
    Machine, Sets, Step, closed_sets_law, divergence_law, divergence_sets_law,
    numbered_divergence_law, numbered_sets_law, one_divergence_law,
};
use std::alloc::{AllocError, Global};

/// The machine of `letter a 1; letter b 1-12`. A state knows whether a letter is before it.
pub struct Letters;

impl Machine for Letters {
    ghost use Rattle.brl_pairs.specs.Examples.{letters};

    type State = bool;

    ghost behaviour = { λ _. letters };

    fn start(&self) -> bool {
        false
    }

    fn moves(&self, alloc: Global, _state: &bool) -> Result<Vec<Step<bool>>, AllocError> {
        let mut listed = Vec::new(alloc);
        listed.push(letter_step(alloc, 0, 'a', &[Cell(1)])?)?;
        listed.push(letter_step(alloc, 1, 'b', &[Cell(1), Cell(3)])?)?;
        Ok(listed)
    }

    fn ends(&self, _state: &bool) -> bool {
        true
    }
}

/// The step that reads a letter.
fn letter_step(
    alloc: Global,
    rule: u32,
    letter: char,
    cells: &[Cell],
) -> Result<Step<bool>, AllocError>
    ensures { IfOk result (λ step. step ≡ letter_step rule letter cells.now) }
{
    let mut reads = Vec::new(alloc);
    reads.push(letter)?;
    Ok(Step {
        rule,
        reads: Chars::from_vec(reads),
        cells: Cells::from_slice(alloc, cells)?,
        next: true,
    })
}

/// The closed sets of the letters.
struct LetterSets;

impl Sets<bool> for LetterSets {
    ghost use Rattle.brl_pairs.specs.Examples.{letter_pairs, letter_states};
    ghost use Rattle.brl_pairs.specs.Pairs.{numbered};

    ghost sets = { numbered letter_states letter_pairs };
}

/// No two texts of the letters are translated to the same cells: a theorem by closed sets.
pub fn letters_are_unambiguous()
    ensures { IsUnambiguous letters }
{
    closed_sets_law::<Letters, LetterSets>(&Letters);
}

/// No two texts of the letters have the same cells, as sets show whose states and pairs have
/// numbers.
pub fn numbered_letters_are_unambiguous()
    ensures { IsUnambiguous letters }
{
    numbered_sets_law(&Letters);
}

/// The states of the letters, and no pairs: sets that are closed but for the pair of their rules.
struct NoPairs;

impl Sets<bool> for NoPairs {
    ghost use Rattle.brl_pairs.specs.Examples.{letter_states, no_pairs};
    ghost use Rattle.brl_pairs.specs.Pairs.{numbered};

    ghost sets = { numbered letter_states no_pairs };
}

/// Texts of the letters that are translated to the same cells are equal, or diverge at the two
/// rules.
pub fn letters_diverge_at_their_rules()
    ensures { IsUnambiguousBut a_or_b letters }
{
    divergence_law::<Letters, NoPairs>(&Letters);
}

/// Paths with the same cells diverge at the two rules alone, as sets show whose states and pairs
/// have numbers.
pub fn numbered_letters_diverge_at_their_rules()
    ensures { DivergeOnlyAt a_or_b letters }
{
    numbered_divergence_law(&Letters);
}

/// The runs of the letters are sets that are closed but for the pair of their two rules.
pub fn runs_of_letters_are_closed()
    ensures { IsClosedBut letters a_or_b (sets_apart letters a_or_b) }
{
    numbered_divergence_law(&Letters);
    divergence_sets_law(&Letters);
}

/// Paths of the letters diverge at one place, where a state lists two steps.
pub fn letters_diverge_where_listed()
    ensures { DivergeWhereListed letters }
{
    one_divergence_law(&Letters);
}

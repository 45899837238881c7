//! The steps that take a rule in a run of capitals. The choices of capitals for the rule's
//! characters are listed character by character, and a beginning that breaks a due of the state is
//! left with all that would go on from it.
ghost use Rattle.std.specs.Prelude.{◌≡◌, [], ◌∷◌, ◌++◌, option_map, All, IfOk, IfSome, IsTrue, OnOk, Some};
ghost use Rattle.brl_dues.specs.Letters.{left_past, caps_run_step, caps_run_steps};
ghost use Rattle.brl_states.specs.Order.{is_proper};

use crate::carry::dues_past;
use crate::origin::Origin;
use crate::step::{Taken, finish_step, reads_of, what_follows};
use brl_pairs::Step;
use brl_rules::Table;
use brl_states::{Due, DuesState};
use std::alloc::{AllocError, Global};

/// The capitals that a step reads after its first one, as far as they are chosen, and what is left
/// of the letter's bars after all of these.
#[derive(Drop)]
struct Beginning {
    capitals: Vec<char>,
    left: Vec<Due>,
    ghost proper: { All (λ due. IsTrue (is_proper due)) left.items },
}

impl Beginning {
    /// This beginning with one more capital. `None` where a due is broken.
    fn with(
        &self,
        alloc: Global,
        table: &Table,
        capital: char,
    ) -> Result<Option<Beginning>, AllocError>
        ensures left { IfOk result (λ longer. option_map (λ b. b.left.items) longer ≡ left_past table.now (capital ∷ []) self.now.left.items) }
        ensures capitals { IfOk result (λ longer. IfSome longer (λ b. b.capitals.items ≡ self.now.capitals.items ++ capital ∷ [])) }
    {
        let Some(left) = dues_past(alloc, table, &[capital], self.left.as_slice())? else {
            return Ok(None);
        };
        let mut capitals = Vec::with_capacity(alloc, self.capitals.len() + 1)?;
        capitals.extend_from_slice(self.capitals.as_slice())?;
        capitals.push(capital)?;
        Ok(Some(Beginning { capitals, left }))
    }
}

/// Appends the steps that take this in a run of capitals, one for each choice of capitals for the
/// other characters that breaks no due.
pub fn push_caps_run_steps(
    alloc: Global,
    origin: &Origin<'_>,
    taken: Taken<'_>,
    listed: &mut Vec<Step<DuesState>>,
) -> Result<(), AllocError>
    ensures { OnOk result (listed.new.items ≡ listed.old.items
        ++ caps_run_steps origin.now.table.now origin.now.state.now origin.now.letter.now taken.entry.number taken.entry.after taken.entry.cells.now [] taken.entry.others.now) }
{
    let first = origin.letter.character();
    if !origin.table.may_begin_caps_run(first) {
        return Ok(());
    }
    // Else all choices for the characters before one that has none would be made in vain.
    if !origin.table.has_choices(alloc, taken.others)? {
        return Ok(());
    }
    let bars = origin.letter.bars();
    let Some(left) = dues_past(alloc, origin.table.table(), &[first], bars)? else {
        return Ok(());
    };
    let beginning = Beginning {
        capitals: Vec::new(alloc),
        left,
    };
    go_on(alloc, origin, taken, beginning, taken.others, listed)
}

/// Appends the steps that go on from a beginning with capitals of these folds.
fn go_on(
    alloc: Global,
    origin: &Origin<'_>,
    taken: Taken<'_>,
    beginning: Beginning,
    folds: &[char],
    listed: &mut Vec<Step<DuesState>>,
) -> Result<(), AllocError>
    requires { left_past origin.now.table.now (origin.now.letter.now.character ∷ beginning.capitals.items) origin.now.letter.now.bars ≡ Some beginning.left.items }
    ensures { OnOk result (listed.new.items ≡ listed.old.items
        ++ caps_run_steps origin.now.table.now origin.now.state.now origin.now.letter.now taken.entry.number taken.entry.after taken.entry.cells.now beginning.capitals.items folds.now) }
{
    let Some((fold, others)) = folds.split_first() else {
        return push_chosen(alloc, origin, taken, beginning, listed);
    };
    let capitals = origin.table.capitals(alloc)?;
    for capital in capitals.as_slice() {
        if capital.fold != *fold {
            continue;
        }
        let table = origin.table.table();
        if let Some(longer) = beginning.with(alloc, table, capital.character)? {
            go_on(alloc, origin, taken, longer, others, listed)?;
        }
    }
    Ok(())
}

/// Appends the step of a beginning that is a whole choice, if it can be taken.
fn push_chosen(
    alloc: Global,
    origin: &Origin<'_>,
    taken: Taken<'_>,
    chosen: Beginning,
    listed: &mut Vec<Step<DuesState>>,
) -> Result<(), AllocError>
    requires { left_past origin.now.table.now (origin.now.letter.now.character ∷ chosen.capitals.items) origin.now.letter.now.bars ≡ Some chosen.left.items }
    ensures { OnOk result (listed.new.items ≡ listed.old.items
        ++ caps_run_step origin.now.table.now origin.now.state.now origin.now.letter.now taken.entry.number taken.entry.after taken.entry.cells.now chosen.capitals.items) }
{
    let Beginning { capitals, left } = chosen;
    let taken = Taken {
        run: true,
        others: capitals.as_slice(),
        ..taken
    };
    let Some(next) = what_follows(origin, taken) else {
        return Ok(());
    };
    let reads = reads_of(alloc, origin, taken)?;
    if let Some(step) = finish_step(alloc, origin, taken, next, reads, left)? {
        listed.push(step)?;
    }
    Ok(())
}

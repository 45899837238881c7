//! Work that is done in slices of some steps, with progress reports between them.
ghost use Rattle.std.specs.Prelude.{IfOk};
ghost use Rattle.brl_progress.specs.Slices.{EndsWith, IfFinished, IfUnfinished};

use crate::{Progress, Work};
use std::alloc::AllocError;

/// What work gives after some steps.
#[derive(Drop)]
pub enum Slice<S, T> {
    /// There is more to do.
    Unfinished(S),
    Finished(T),
}

/// Work that is done in slices: it runs for a number of steps at a time, until it is finished.
pub trait Sliced: Sized + Drop {
    type Outcome: Drop;

    ghost use Rattle.std.specs.Prelude.{ℕ, ◌≤◌, ◌+◌};

    // what holds of its outcome, in whatever slices it is done
    ghost ends_with: { Self → Self.Outcome → Type 0 };

    // what it may be after this number of steps
    ghost comes_to: { ℕ → Self → Self → Type 0 };

    // how many steps are left at most
    ghost steps_left: { Self → ℕ };

    /// How far it is.
    fn work(&self) -> Work;

    /// Continues the work for at most this number of steps: gives its outcome, or the work that is
    /// left after this number. After `AllocError` it can't be continued.
    fn run(self, steps: u64) -> Result<Slice<Self, Self::Outcome>, AllocError>
        ensures finished { IfOk result (IfFinished (ends_with self)) }
        ensures unfinished { IfOk result (IfUnfinished (comes_to steps self)) };

    // the outcome of what is left is one of the whole
    ghost same: { (steps : ℕ) (old new : Self) → comes_to steps old new → (outcome : Self.Outcome) → ends_with new outcome → ends_with old outcome };

    // each step is one less to do
    ghost fewer: { (steps : ℕ) (old new : Self) → comes_to steps old new → steps_left new + steps ≤ steps_left old };
}

/// The most steps between two reports.
const SLICE: u64 = 16;

/// Runs work to its end, with an outcome that no observer changes; `watch` hears of the progress
/// before each slice of steps.
pub fn run_to_end<S: Sliced, W: Progress>(
    begun: Slice<S, S::Outcome>,
    watch: &mut W,
) -> Result<S::Outcome, AllocError>
    ensures { IfOk result (EndsWith S.ends_with begun) }
{
    let mut slice = begun;
    loop {
        match slice {
            Slice::Unfinished(rest) => {
                watch.report(rest.work());
                slice = rest.run(SLICE)?;
            }
            Slice::Finished(outcome) => return Ok(outcome),
        }
    }
}

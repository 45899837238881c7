//! Work in slices, one after the other.
use brl_progress::{Slice, Sliced};
use std::alloc::AllocError;

/// Work after slices of these numbers of steps, as far as it isn't finished before.
pub fn run_slices<S: Sliced>(
    begun: Slice<S, S::Outcome>,
    slices: [u64; 2],
) -> Result<Slice<S, S::Outcome>, AllocError> {
    let mut slice = begun;
    for steps in slices {
        slice = match slice {
            Slice::Unfinished(rest) => rest.run(steps)?,
            finished => finished,
        };
    }
    Ok(slice)
}

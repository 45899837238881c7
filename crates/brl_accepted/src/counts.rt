//! How much a file excuses, and the line of an answer that says so.
ghost use Rattle.std.specs.Prelude.{◌≡◌, IfOk, string_bytes};
ghost use Rattle.brl_accepted.specs.Counting.{but_for_line as line_of_counts, lesser_first as in_order, pair_count as count_of_pairs, pairs_words as words_of_pairs, sets_words as words_of_sets};

use brl_pairs::Seed;
use indexmap::IndexSet;
use std::alloc::{AllocError, Global};

/// How much a file excuses.
#[derive(Clone, Copy)]
pub struct Counts {
    /// How many pairs of rules lines of their own name.
    pub pairs: usize,
    /// How many sets of characters lines name.
    pub sets: usize,
}

/// The words after this number of pairs of rules.
fn pairs_words(count: usize) -> &'static str
    ensures { result.now ≡ words_of_pairs count }
{
    if count == 1 {
        " pair of rules"
    } else {
        " pairs of rules"
    }
}

/// The words after this number of sets of characters.
fn sets_words(count: usize) -> &'static str
    ensures { result.now ≡ words_of_sets count }
{
    if count == 1 {
        " set of characters"
    } else {
        " sets of characters"
    }
}

/// The line that says how many pairs of rules and how many sets of characters are excused. It ends
/// with LF. `AllocError` if memory runs out.
pub fn but_for_line(alloc: Global, counts: Counts) -> Result<String, AllocError>
    ensures { IfOk result (λ text. string_bytes text ≡ line_of_counts counts) }
{
    let Counts { pairs, sets } = counts;
    let accepted = pairs_words(pairs);
    let exchanged = sets_words(sets);
    format!(in alloc; "but for: {pairs}{accepted}, {sets}{exchanged}\n")
}

/// How many distinct pairs of rules these are, whatever the order of the two.
pub fn pair_count(alloc: Global, pairs: &[(u32, u32)]) -> Result<usize, AllocError>
    ensures { IfOk result (λ count. count ≡ count_of_pairs pairs.now) }
{
    let mut once = IndexSet::with_hasher(alloc, seed_of(alloc, pairs)?);
    for pair in pairs {
        once.insert(lesser_first(*pair))?;
    }
    Ok(once.len())
}

/// The seed that is drawn from these pairs, so that whoever names them can't choose their hashes.
fn seed_of(alloc: Global, pairs: &[(u32, u32)]) -> Result<Seed, AllocError> {
    let mut bytes = Vec::new(alloc);
    for pair in pairs {
        bytes.extend_from_slice(&pair.0.to_le_bytes())?;
        bytes.extend_from_slice(&pair.1.to_le_bytes())?;
    }
    Ok(Seed::of(bytes.as_slice()))
}

/// A pair of rules, the lesser number first.
fn lesser_first(pair: (u32, u32)) -> (u32, u32)
    ensures { result ≡ in_order pair }
{
    if pair.0 <= pair.1 {
        pair
    } else {
        (pair.1, pair.0)
    }
}

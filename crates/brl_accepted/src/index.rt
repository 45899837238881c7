//! The rules that a line of a pair names, looked up by what they say.
ghost use Rattle.std.specs.Prelude.{◌≡◌, ◌++◌, ◌∷◌, ℕ, [], All, IfOk, List, OnOk, flat_map, if◌then◌else◌, map, string_bytes};
ghost use Rattle.std.specs.Option.{MatchOption};
ghost use Rattle.std.specs.Str.{bytes_eq};
ghost use Rattle.brl_accepted.specs.Pairs.{pairs_of_line as pairs_named_by, said as words_said};
ghost use Rattle.brl_accepted.specs.Words.{BeginsWithWord, IsIndex, IsThreeWords, IsWord, Parts, numbers_of};

use crate::words::said;
use brl_pairs::Seed;
use indexmap::IndexMap;
use std::alloc::{AllocError, Global};

/// The numbers of the rules that say the same, by what they say.
pub(crate) type Index<'a> = IndexMap<&'a [u8], Vec<u32>, Seed>;

/// These rules by what they say.
pub(crate) fn index_of<'a>(
    alloc: Global,
    words: &'a [String],
    numbers: &[u32],
) -> Result<Index<'a>, AllocError>
    ensures { IfOk result (IsIndex (map string_bytes words.entry.now) numbers.now) }
{
    let mut index = IndexMap::with_hasher(alloc, seed_of(alloc, words)?);
    for number in numbers {
        insert(alloc, &mut index, said(words, *number).as_bytes(), *number)?;
    }
    Ok(index)
}

/// Adds the number of a rule that says this text.
fn insert<'a>(
    alloc: Global,
    index: &mut Index<'a>,
    text: &'a [u8],
    number: u32,
) -> Result<(), AllocError>
    ensures { OnOk result ((other : List ℕ) → numbers_of index.new other ≡ numbers_of index.old other ++ (if bytes_eq other text.now then number ∷ [] else [])) }
{
    if let Some(others) = index.get_mut(text) {
        others.push(number)?;
        return Ok(());
    }
    let mut first = Vec::new(alloc);
    first.push(number)?;
    index.insert(text, first)?;
    Ok(())
}

/// The seed that is drawn from these strings, so that who writes them can't choose their hashes.
fn seed_of(alloc: Global, strings: &[String]) -> Result<Seed, AllocError> {
    let mut bytes = Vec::new(alloc);
    for string in strings {
        bytes.extend_from_slice(string.as_bytes())?;
    }
    Ok(Seed::of(bytes.as_slice()))
}

/// The numbers of the rules that say a text.
fn numbers_at<'b>(index: &'b Index<'_>, text: &[u8]) -> &'b [u32]
    ensures { result.now ≡ numbers_of index.entry.now text.now }
{
    match index.get(text) {
        Some(numbers) => numbers.as_slice(),
        None => &[],
    }
}

/// The pairs of rules whose line this is, each in the order of the line. Each rule says three
/// words, and the index has it by these.
pub(crate) fn pairs_of_line(
    alloc: Global,
    index: &Index<'_>,
    row: &str,
) -> Result<Vec<(u32, u32)>, AllocError>
    ensures { (words : List (List ℕ)) (numbers : List ℕ) → All (λ number. IsThreeWords (words_said words number)) numbers → IsIndex words numbers index.now
        → IfOk result (λ pairs. pairs.items ≡ pairs_named_by words numbers row.now) }
{
    let mut pairs = Vec::new(alloc);
    if let Some((one, other)) = parts(row) {
        push_pairs(numbers_at(index, one), numbers_at(index, other), &mut pairs)?;
    }
    Ok(pairs)
}

/// The first three words of a line, and what follows the mark between two rules after these.
fn parts(row: &str) -> Option<(&[u8], &[u8])>
    ensures { Parts row.entry.now result }
{
    let rest = after_word(after_word(after_word(row)?)?)?;
    let other = rest.as_bytes().strip_prefix(b"/ ".as_slice())?;
    let (one, _) = row.as_bytes().split_at(row.len() - rest.len() - 1);
    Some((one, other))
}

/// What follows the first blank of a text.
fn after_word(text: &str) -> Option<&str>
    ensures { MatchOption result (IsWord text.entry.now) (λ rest. BeginsWithWord text.entry.now rest.now) }
{
    let (_, rest) = text.split_once(' ')?;
    Some(rest)
}

/// Appends the pairs of one of these rules and one of the others.
fn push_pairs(ones: &[u32], others: &[u32], pairs: &mut Vec<(u32, u32)>) -> Result<(), AllocError>
    ensures { OnOk result (pairs.new.items ≡ pairs.old.items ++ flat_map (λ r. map (λ s. (r, s)) others.now) ones.now) }
{
    for one in ones {
        push_pairs_of(*one, others, pairs)?;
    }
    Ok(())
}

/// Appends the pairs of a rule and one of these.
fn push_pairs_of(one: u32, others: &[u32], pairs: &mut Vec<(u32, u32)>) -> Result<(), AllocError>
    ensures { OnOk result (pairs.new.items ≡ pairs.old.items ++ map (λ s. (one, s)) others.now) }
{
    for other in others {
        pairs.push((one, *other))?;
    }
    Ok(())
}

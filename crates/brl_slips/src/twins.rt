//! Twins: two rules with the same cells whose characters differ in one letter.
ghost use Rattle.std.specs.Prelude.{◌≡◌, ◌≢◌, ◌≤◌, ◌<◌, ◌+◌, ◌^◌, ℕ, Decides, IfOk, OnOk, length, slice_index};
ghost use Rattle.std.specs.List.{list_any};
ghost use Rattle.std.specs.List.Sorted.{IsPermutation, IsSorted};
ghost use Rattle.brl_slips.specs.Pairing.{AreAll, AreCounted, AreFamilies, AreFound, IsAdded, IsDifferenceFound, IsOneMore, IsPairBelow, IsSmallFamily, count_of, has_chars, is_wanted, members_of};
ghost use Rattle.brl_slips.specs.Twins.{AreApart, AreRare, AreShown, AreTwins, IsCandidate, letter_at, letters, twins_cmp};

use crate::alphabet::Characters;
use crate::lexicon::{Lexicon, Piece};
use brl_cells::Cells;
use indexmap::IndexMap;
use std::alloc::{AllocError, Global};
use std::cmp::Ordering;

/// How many texts with the same cells and as many characters are a family, in which none are twins.
const FAMILY: usize = 4;

/// In how many pairs the same two letters differ so that none of these are twins.
const HABIT: usize = 4;

/// Two rules with the same cells and as many characters, which differ at this place alone.
#[derive(Clone, Copy, Debug)]
pub struct Twins {
    /// The number of the earlier rule.
    pub one: usize,
    /// The number of the later rule.
    pub other: usize,
    pub place: usize,
    /// The cells of each.
    pub length: usize,
}

/// What rules of a family have in common.
#[derive(PartialEq, Eq, Hash, Drop)]
struct Family {
    cells: Cells,
    characters: usize,
}

/// The twins of a table: those with more cells first, and then in the order of the table.
pub(crate) fn find_twins(alloc: Global, lexicon: &Lexicon) -> Result<Vec<Twins>, AllocError>
    ensures { IfOk result (λ twins. AreTwins lexicon.now twins.items) }
{
    let pairs = candidates(alloc, lexicon)?;
    let twins = without_habits(alloc, lexicon, pairs.as_slice())?;
    Ok(in_order(twins))
}

/// The order of two twins.
fn compare_twins(one: &Twins, other: &Twins) -> Ordering
    ensures { result ≡ twins_cmp one.now other.now }
{
    other
        .length
        .cmp(&one.length)
        .then(one.one.cmp(&other.one).then(one.other.cmp(&other.other)))
}

/// Twins in their order.
fn in_order(twins: Vec<Twins>) -> Vec<Twins>
    ensures moved { IsPermutation twins.items result.items }
    ensures sorted { IsSorted twins_cmp result.items }
{
    let mut sorted = twins;
    sorted.sort_unstable_by(|one, other| compare_twins(one, other));
    sorted
}

/// All twins of small families, those of a habit too.
fn candidates(alloc: Global, lexicon: &Lexicon) -> Result<Vec<Twins>, AllocError>
    ensures { IfOk result (λ pairs. AreAll (IsCandidate lexicon.now) pairs.items) }
{
    let families = families_of(alloc, lexicon)?;
    let mut pairs = Vec::new(alloc);
    for other in 0..lexicon.entries.len() {
        push_pairs(lexicon, &families, other, &mut pairs)?;
    }
    Ok(pairs)
}

/// The family of a rule with this piece.
fn family_of(piece: &Piece) -> Result<Family, AllocError>
    ensures cells { IfOk result (λ family. family.cells ≡ piece.now.cells) }
    ensures characters { IfOk result (λ family. family.characters ≡ length piece.now.chars) }
{
    Ok(Family {
        cells: piece.cells.copy()?,
        characters: piece.chars.len(),
    })
}

/// The rules that a family has: none where it isn't there.
fn members<'a>(families: &'a IndexMap<Family, Vec<usize>>, family: &Family) -> &'a [usize]
    ensures { result.now ≡ members_of families.now family.now }
{
    match families.get(family) {
        Some(members) => members.as_slice(),
        None => &[],
    }
}

/// The families of all rules: of rules that say the same the first, and no more than make a family.
fn families_of(alloc: Global, lexicon: &Lexicon) -> Result<IndexMap<Family, Vec<usize>>, AllocError>
    ensures { IfOk result (AreFamilies lexicon.now (length lexicon.now.entries.items)) }
{
    let mut families = IndexMap::new(alloc);
    for entry in 0..lexicon.entries.len() {
        add_rule(alloc, lexicon, &mut families, entry)?;
    }
    Ok(families)
}

/// Adds the next rule to its family, if none there has its text and it isn't too many.
fn add_rule(
    alloc: Global,
    lexicon: &Lexicon,
    families: &mut IndexMap<Family, Vec<usize>>,
    entry: usize,
) -> Result<(), AllocError>
    requires { AreFamilies lexicon.now entry families.old }
    ensures { OnOk result (AreFamilies lexicon.now (entry + 1) families.new) }
{
    let Some(piece) = lexicon.piece_of(entry) else {
        return Ok(());
    };
    let family = family_of(piece)?;
    if is_wanted(lexicon, members(families, &family), piece) {
        insert(alloc, families, family, entry)?;
    }
    Ok(())
}

/// Whether a family of these rules takes one more, with this piece.
fn is_wanted(lexicon: &Lexicon, members: &[usize], piece: &Piece) -> bool
    ensures { result ≡ is_wanted lexicon.now members.now piece.now.chars }
{
    members.len() < FAMILY && !has_text(lexicon, members, piece)
}

/// Whether one of these rules has the characters of a piece.
fn has_text(lexicon: &Lexicon, members: &[usize], piece: &Piece) -> bool
    ensures { result ≡ list_any (has_chars lexicon.now piece.now.chars) members.now }
{
    members
        .iter()
        .any(|member| has_chars(lexicon, piece, *member))
}

/// Whether a rule has the characters of a piece.
fn has_chars(lexicon: &Lexicon, piece: &Piece, member: usize) -> bool
    ensures { result ≡ has_chars lexicon.now piece.now.chars member }
{
    match lexicon.piece_of(member) {
        Some(other) => other.chars == piece.chars,
        None => false,
    }
}

/// Adds a rule to a family.
fn insert(
    alloc: Global,
    families: &mut IndexMap<Family, Vec<usize>>,
    family: Family,
    entry: usize,
) -> Result<(), AllocError>
    ensures { OnOk result (IsAdded families.old families.new family entry) }
{
    if let Some(members) = families.get_mut(&family) {
        members.push(entry)?;
        return Ok(());
    }
    let mut first = Vec::new(alloc);
    first.push(entry)?;
    families.insert(family, first)?;
    Ok(())
}

/// Adds the twins whose later rule is this one.
fn push_pairs(
    lexicon: &Lexicon,
    families: &IndexMap<Family, Vec<usize>>,
    other: usize,
    pairs: &mut Vec<Twins>,
) -> Result<(), AllocError>
    requires families { AreFamilies lexicon.now (length lexicon.now.entries.items) families.now }
    requires pairs { AreAll (IsPairBelow lexicon.now other) pairs.old.items }
    ensures { OnOk result (AreAll (IsPairBelow lexicon.now (other + 1)) pairs.new.items) }
{
    let Some(piece) = lexicon.piece_of(other) else {
        return Ok(());
    };
    let family = family_of(piece)?;
    let members = members(families, &family);
    if members.len() >= FAMILY || !members.contains(&other) {
        return Ok(());
    }
    push_pairs_with(lexicon, members, other, pairs)
}

/// Adds the twins of rules of a small family and one of them.
fn push_pairs_with(
    lexicon: &Lexicon,
    members: &[usize],
    other: usize,
    pairs: &mut Vec<Twins>,
) -> Result<(), AllocError>
    requires members { IsSmallFamily lexicon.now other members.now }
    requires pairs { AreAll (IsPairBelow lexicon.now other) pairs.old.items }
    ensures { OnOk result (AreAll (IsPairBelow lexicon.now (other + 1)) pairs.new.items) }
{
    for one in members {
        if let Some(twins) = twins_of(lexicon, *one, other) {
            pairs.push(twins)?;
        }
    }
    Ok(())
}

/// Two rules as twins, where one character differs: a letter, whose cells are others.
fn twins_of(lexicon: &Lexicon, one: usize, other: usize) -> Option<Twins>
    ensures { AreFound lexicon.now one other result }
{
    let left = lexicon.piece_of(one)?;
    let right = lexicon.piece_of(other)?;
    if one >= other || left.cells != right.cells {
        return None;
    }
    if left.cells.len() < 2 || left.chars.len() < 2 {
        return None;
    }
    let place = one_difference(left.chars.as_slice(), right.chars.as_slice())?;
    if !are_apart(&lexicon.alphabet, left, right, place) {
        return None;
    }
    let length = left.cells.len();
    Some(Twins {
        one,
        other,
        place,
        length,
    })
}

/// Whether the characters of two pieces at a place are letters with different cells of their own.
fn are_apart(alphabet: &Characters, left: &Piece, right: &Piece, place: usize) -> bool
    requires left { place < length left.now.chars }
    requires right { place < length right.now.chars }
    ensures { Decides result (AreApart alphabet.now (slice_index left.now.chars place) (slice_index right.now.chars place)) }
{
    let one = left.chars.as_slice()[place];
    let other = right.chars.as_slice()[place];
    alphabet.is_letter(one)
        && alphabet.is_letter(other)
        && alphabet.cells(one) != alphabet.cells(other)
}

/// The place at which two texts differ, where there is just one.
fn one_difference(left: &[char], right: &[char]) -> Option<usize>
    ensures { IsDifferenceFound left.now right.now result }
{
    if left.len() != right.len() {
        return None;
    }
    let place = differing_from(left, right, 0);
    if place == left.len() || differing_from(left, right, place + 1) < left.len() {
        return None;
    }
    Some(place)
}

/// The first place, from this one on, at which two texts of the same length differ; their end where
/// none is.
fn differing_from(left: &[char], right: &[char], from: usize) -> usize
    requires as_long { length left.now ≡ length right.now }
    requires from { from ≤ length left.now }
    ensures after { from ≤ result }
    ensures within { result ≤ length left.now }
    ensures same { (place : ℕ) → from ≤ place → place < result → slice_index left.now place ≡ slice_index right.now place }
    ensures differs { result < length left.now → slice_index left.now result ≢ slice_index right.now result }
{
    for place in from..left.len() {
        if left[place] != right[place] {
            return place;
        }
    }
    left.len()
}

/// The character of a rule at a place.
fn letter_at(lexicon: &Lexicon, entry: usize, place: usize) -> Option<char>
    ensures { result ≡ letter_at lexicon.now entry place }
{
    let piece = lexicon.piece_of(entry)?;
    piece.chars.as_slice().get(place).copied()
}

/// The two letters of twins, the lesser first.
fn letters(lexicon: &Lexicon, twins: &Twins) -> Option<(char, char)>
    ensures { result ≡ letters lexicon.now twins.now }
{
    let one = letter_at(lexicon, twins.one, twins.place)?;
    let other = letter_at(lexicon, twins.other, twins.place)?;
    if one <= other {
        Some((one, other))
    } else {
        Some((other, one))
    }
}

/// In how many of these twins two letters differ.
fn letter_counts(
    alloc: Global,
    lexicon: &Lexicon,
    pairs: &[Twins],
) -> Result<IndexMap<(char, char), usize>, AllocError>
    requires { AreAll (IsCandidate lexicon.now) pairs.now }
    ensures { IfOk result (AreCounted lexicon.now (IsCandidate lexicon.now)) }
{
    let mut counts = IndexMap::new(alloc);
    for twins in pairs {
        if let Some(letters) = letters(lexicon, twins) {
            count(&mut counts, letters)?;
        }
    }
    Ok(counts)
}

/// The twins whose two letters differ in fewer than four of these.
fn without_habits(
    alloc: Global,
    lexicon: &Lexicon,
    pairs: &[Twins],
) -> Result<Vec<Twins>, AllocError>
    requires { AreAll (IsCandidate lexicon.now) pairs.now }
    ensures { IfOk result (λ kept. AreAll (AreShown lexicon.now) kept.items) }
{
    let counts = letter_counts(alloc, lexicon, pairs)?;
    let mut kept = Vec::new(alloc);
    for twins in pairs {
        if are_rare(lexicon, &counts, twins) {
            kept.push(*twins)?;
        }
    }
    Ok(kept)
}

/// Whether the two letters of twins differ in fewer than four.
fn are_rare(lexicon: &Lexicon, counts: &IndexMap<(char, char), usize>, twins: &Twins) -> bool
    requires counts { AreCounted lexicon.now (IsCandidate lexicon.now) counts.now }
    requires twins { IsCandidate lexicon.now twins.now }
    ensures { Decides result (AreRare lexicon.now (letters lexicon.now twins.now)) }
{
    match letters(lexicon, twins) {
        Some(letters) => count_of(counts, letters) < HABIT,
        None => false,
    }
}

/// How often two letters were counted.
fn count_of(counts: &IndexMap<(char, char), usize>, letters: (char, char)) -> usize
    ensures { result ≡ count_of counts.now letters }
{
    counts.get(&letters).copied().unwrap_or(0)
}

/// Counts two letters.
fn count(
    counts: &mut IndexMap<(char, char), usize>,
    letters: (char, char),
) -> Result<(), AllocError>
    requires { count_of counts.old letters < 2 ^ 63 }
    ensures { OnOk result (IsOneMore counts.old counts.new letters) }
{
    if let Some(often) = counts.get_mut(&letters) {
        *often += 1;
        return Ok(());
    }
    counts.insert(letters, 1)?;
    Ok(())
}

//! The order of clashes.
ghost use Rattle.std.specs.Prelude.{◌≡◌, ◌+◌, length};
ghost use Rattle.brl_clashes.specs.Order.{difference, differing, suspicion_cmp, unequal};

use brl_search::RuleClash;
use std::cmp::Ordering;

/// The order of clashes, the most suspicious first: those of texts of the same length, by how many
/// characters differ; then those of fewer characters; then those of lesser rules.
pub fn compare_clashes(one: &RuleClash, other: &RuleClash) -> Ordering
    ensures { result ≡ suspicion_cmp one.now other.now }
{
    unequal(one)
        .cmp(&unequal(other))
        .then(differing(one).cmp(&differing(other)))
        .then(characters(one).cmp(&characters(other)))
        .then(one.lesser.cmp(&other.lesser))
        .then(one.greater.cmp(&other.greater))
}

/// 0 for a clash of texts of the same length, else 1.
fn unequal(clash: &RuleClash) -> u8
    ensures { result ≡ unequal clash.now.clash.left clash.now.clash.right }
{
    if clash.clash.left().len() == clash.clash.right().len() {
        0
    } else {
        1
    }
}

/// At how many places the texts of a clash differ, and 0 where one is longer.
pub fn differing(clash: &RuleClash) -> usize
    ensures { result ≡ differing clash.now.clash.left clash.now.clash.right }
{
    let left = clash.clash.left();
    let right = clash.clash.right();
    if left.len() != right.len() {
        return 0;
    }
    difference(left, right)
}

/// At how many places two texts have different characters, up to the end of the shorter one.
fn difference(left: &[char], right: &[char]) -> usize
    ensures { result ≡ difference left.now right.now }
{
    left.iter().zip(right).filter(|(c, d)| c != d).count()
}

/// How many characters the texts of a clash have together.
fn characters(clash: &RuleClash) -> u64
    ensures { result ≡ length clash.now.clash.left + length clash.now.clash.right }
{
    clash.clash.left().len() as u64 + clash.clash.right().len() as u64
}

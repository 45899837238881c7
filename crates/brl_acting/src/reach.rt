//! Which characters stand for which.
ghost use Rattle.std.specs.Prelude.{◌≡◌, IfOk};
ghost use Rattle.brl_acting.specs.Capitals.{over_by, reach_by, reach_view, reached as reached_by, seconds as seconds_by, stood_by, turned as turned_by};
ghost use Rattle.brl_acting.specs.Sets.{is_in, set_view};

use crate::char_set::CharSet;
use std::alloc::{AllocError, Global};

/// The characters of an alphabet, and those that they stand for: capitals stand for their small
/// letters.
#[derive(Drop)]
pub(crate) struct Reach {
    pub alphabet: CharSet,
    /// What they stand for beside themselves.
    pub over: CharSet,
    /// What they stand for: themselves, too.
    pub stood: CharSet,
    /// The characters that stand for one of these.
    pub near: CharSet,
}

/// The second characters of pairs whose first one is in a set.
pub(crate) fn seconds(
    alloc: Global,
    pairs: &[(char, char)],
    set: &CharSet,
) -> Result<Vec<char>, AllocError>
    ensures { IfOk result (λ chars. chars.items ≡ seconds_by pairs.now (set_view set.now)) }
{
    let mut chars = Vec::new(alloc);
    for (first, second) in pairs {
        if set.has(*first) {
            chars.push(*second)?;
        }
    }
    Ok(chars)
}

/// What a set reaches by steps from the first to the second characters of pairs.
fn reached(alloc: Global, pairs: &[(char, char)], from: CharSet) -> Result<CharSet, AllocError>
    ensures { IfOk result (λ set. set_view set ≡ reached_by pairs.now (set_view from)) }
{
    let mut set = from;
    for _step in 0..pairs.len() {
        let next = seconds(alloc, pairs, &set)?;
        if set.has_all(next.as_slice()) {
            return Ok(set);
        }
        set.add(next.as_slice())?;
    }
    Ok(set)
}

/// Pairs the other way round.
fn turned(alloc: Global, pairs: &[(char, char)]) -> Result<Vec<(char, char)>, AllocError>
    ensures { IfOk result (λ others. others.items ≡ turned_by pairs.now) }
{
    let mut others = Vec::with_capacity(alloc, pairs.len())?;
    for (first, second) in pairs {
        others.push((*second, *first))?;
    }
    Ok(others)
}

/// What characters stand for beside themselves.
fn over_of(alloc: Global, bases: &[(char, char)], chars: &[char]) -> Result<CharSet, AllocError>
    ensures { IfOk result (λ set. set_view set ≡ over_by bases.now chars.now) }
{
    let alphabet = CharSet::of(alloc, chars)?;
    let small = seconds(alloc, bases, &alphabet)?;
    let from = CharSet::of(alloc, small.as_slice())?;
    let over = reached(alloc, bases, from)?;
    Ok(over)
}

/// What characters stand for.
fn stood_of(alloc: Global, bases: &[(char, char)], chars: &[char]) -> Result<CharSet, AllocError>
    ensures { IfOk result (λ set. set_view set ≡ stood_by bases.now chars.now) }
{
    let mut stood = over_of(alloc, bases, chars)?;
    stood.add(chars)?;
    Ok(stood)
}

/// What is known of the characters of an alphabet, by the capitals of a table.
pub(crate) fn reach_of(
    alloc: Global,
    bases: &[(char, char)],
    chars: &[char],
) -> Result<Reach, AllocError>
    ensures { IfOk result (λ reach. reach_view reach ≡ reach_by bases.now chars.now) }
{
    let turned = turned(alloc, bases)?;
    let alphabet = CharSet::of(alloc, chars)?;
    let over = over_of(alloc, bases, chars)?;
    let stood = stood_of(alloc, bases, chars)?;
    let from = stood_of(alloc, bases, chars)?;
    let near = reached(alloc, turned.as_slice(), from)?;
    Ok(Reach {
        alphabet,
        over,
        stood,
        near,
    })
}

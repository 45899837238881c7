//! Which characters an alphabet has.
ghost use Rattle.std.specs.Prelude.{◌≡◌, IfOk};
ghost use Rattle.std.specs.List.{list_any};
ghost use Rattle.brl_acting.specs.Classes.{facts_by, has_caseless as has_caseless_by, has_letter as has_letter_by, has_mark as has_mark_by, has_odd as has_odd_by, is_apart as is_apart_by, is_caseless as is_caseless_by, is_odd as is_odd_by, members_view};
ghost use Rattle.brl_acting.specs.Sets.{is_in, set_view};

use crate::char_set::CharSet;
use crate::classes::MemberSets;
use crate::reach::seconds;
use std::alloc::{AllocError, Global};

/// Whether an alphabet has a character of some kinds.
#[derive(Clone, Copy)]
pub(crate) struct Facts {
    pub has_capital: bool,
    pub has_digit: bool,
    /// One that is neither a letter nor a space.
    pub has_mark: bool,
    /// A letter before which `letsign` may stand.
    pub has_letter: bool,
    /// One beside which, or before which, a rewritten `letsign` isn't exact.
    pub has_odd: bool,
    /// A letter that is no capital and has none.
    pub has_caseless: bool,
}

/// Whether the alphabet has a character that is neither a letter nor a space.
fn has_mark(all: &MemberSets, chars: &[char]) -> bool
    ensures { result ≡ has_mark_by (members_view all.now) chars.now }
{
    chars
        .iter()
        .any(|c| !(all.letters.has(*c) || all.spaces.has(*c)))
}

/// Whether it has a letter before which `letsign` may stand.
fn has_letter(all: &MemberSets, noletsigns: &CharSet, chars: &[char]) -> bool
    ensures { result ≡ has_letter_by (members_view all.now) (set_view noletsigns.now) chars.now }
{
    chars
        .iter()
        .any(|c| all.letters.has(*c) && !noletsigns.has(*c))
}

/// Whether a character is a space or a punctuation mark.
fn is_apart(all: &MemberSets, c: char) -> bool
    ensures { result ≡ is_apart_by (members_view all.now) c }
{
    all.spaces.has(c) || all.marks.has(c)
}

/// Whether it is one beside which, or before which, a rewritten `letsign` isn't exact.
fn is_odd(all: &MemberSets, besides: &CharSet, c: char) -> bool
    ensures { result ≡ is_odd_by (members_view all.now) (set_view besides.now) c }
{
    all.capitals.has(c) || besides.has(c) || all.letters.has(c) == is_apart(all, c)
}

/// Whether the alphabet has one.
fn has_odd(
    alloc: Global,
    all: &MemberSets,
    besides: &[char],
    chars: &[char],
) -> Result<bool, AllocError>
    ensures { IfOk result (λ has. has ≡ has_odd_by (members_view all.now) (is_in besides.now) chars.now) }
{
    let besides = CharSet::of(alloc, besides)?;
    Ok(any_odd(all, &besides, chars))
}

/// Whether one of characters is one.
fn any_odd(all: &MemberSets, besides: &CharSet, chars: &[char]) -> bool
    ensures { result ≡ has_odd_by (members_view all.now) (set_view besides.now) chars.now }
{
    chars.iter().any(|c| is_odd(all, besides, *c))
}

/// Whether a character is a letter, no capital, and none of these small letters of capitals.
fn is_caseless(all: &MemberSets, small: &CharSet, c: char) -> bool
    ensures { result ≡ is_caseless_by (members_view all.now) (set_view small.now) c }
{
    all.letters.has(c) && !(all.capitals.has(c) || small.has(c))
}

/// Whether the alphabet has a letter that is no capital and has none.
fn has_caseless(
    alloc: Global,
    all: &MemberSets,
    bases: &[(char, char)],
    chars: &[char],
) -> Result<bool, AllocError>
    ensures { IfOk result (λ has. has ≡ has_caseless_by (members_view all.now) bases.now chars.now) }
{
    let small = seconds(alloc, bases, &all.capitals)?;
    let set = CharSet::of(alloc, small.as_slice())?;
    Ok(any_caseless(all, &set, chars))
}

/// Whether one of characters is one.
fn any_caseless(all: &MemberSets, small: &CharSet, chars: &[char]) -> bool
    ensures { result ≡ list_any (is_caseless_by (members_view all.now) (set_view small.now)) chars.now }
{
    chars.iter().any(|c| is_caseless(all, small, *c))
}

/// Which characters an alphabet has, by the members of classes.
pub(crate) fn facts_of(
    alloc: Global,
    all: &MemberSets,
    bases: &[(char, char)],
    noletsigns: &CharSet,
    besides: &[char],
    chars: &[char],
) -> Result<Facts, AllocError>
    ensures { IfOk result (λ facts. facts ≡ facts_by (members_view all.now) bases.now (set_view noletsigns.now) besides.now chars.now) }
{
    let has_plain = all.plain_digits.has_any(chars);
    let has_literary = all.literary_digits.has_any(chars);
    let has_odd = has_odd(alloc, all, besides, chars)?;
    let has_caseless = has_caseless(alloc, all, bases, chars)?;
    Ok(Facts {
        has_capital: all.capitals.has_any(chars),
        has_digit: has_plain || has_literary,
        has_mark: has_mark(all, chars),
        has_letter: has_letter(all, noletsigns, chars),
        has_odd,
        has_caseless,
    })
}

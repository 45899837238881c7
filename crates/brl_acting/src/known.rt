//! What is known of the lines of a table and an alphabet.
ghost use Rattle.std.specs.Prelude.{◌≡◌, ◌∷◌, IfOk, map};
ghost use Rattle.brl_acting.specs.Readings.{known_by, known_from as known_from_facts, known_of as known_with_blank, known_view};
ghost use Rattle.brl_acting.specs.Classes.{members_view};
ghost use Rattle.brl_acting.specs.Sets.{pair_views, set_view};
ghost use Rattle.brl_acting.specs.PartsViews.{parts_view};

use crate::bases::bases_of;
use crate::char_set::CharSet;
use crate::class_pairs;
use crate::class_pairs::{ClassPair, besides_of, noletsigns_of};
use crate::classes::{Classes, MemberSets, classes_of, members_of};
use crate::facts::{Facts, facts_of};
use crate::line_parts::Parts;
use crate::reach::{Reach, reach_of};
use crate::readings::{Readings, readings_of};
use std::alloc::{AllocError, Global};

/// What is known of the lines of a table and an alphabet.
#[derive(Drop)]
pub(crate) struct Known<'a> {
    pub reach: Reach,
    pub classes: Classes<'a>,
    pub facts: Facts,
    pub read: Readings<'a>,
}

/// What is known of lines and these characters, by the classes, their members, the capitals and the
/// letters without `letsign` that the lines give, and by facts.
fn known_from<'a>(
    alloc: Global,
    lines: &[Parts<'a>],
    pairs: &[ClassPair<'a>],
    bases: &[(char, char)],
    all: MemberSets,
    noletsigns: CharSet,
    facts: Facts,
    chars: &[char],
) -> Result<Known<'a>, AllocError>
    ensures { IfOk result (λ known. known_view known ≡
        known_from_facts (map parts_view lines.now) (pair_views pairs.now) bases.now (members_view all) (set_view noletsigns) facts chars.now) }
{
    let reach = reach_of(alloc, bases, chars)?;
    let classes = classes_of(alloc, pairs, all, noletsigns, &reach.stood)?;
    let read = readings_of(alloc, lines, bases, &reach.near, facts)?;
    Ok(Known {
        reach,
        classes,
        facts,
        read,
    })
}

/// What is known of lines and these characters.
fn known_with<'a>(
    alloc: Global,
    lines: &[Parts<'a>],
    chars: &[char],
) -> Result<Known<'a>, AllocError>
    ensures { IfOk result (λ known. known_view known ≡ known_by (map parts_view lines.now) chars.now) }
{
    let pairs = class_pairs::classes_of(alloc, lines)?;
    let pairs = pairs.as_slice();
    let bases = bases_of(alloc, lines)?;
    let bases = bases.as_slice();
    let noletsigns = CharSet::of(alloc, noletsigns_of(alloc, lines)?.as_slice())?;
    let all = members_of(alloc, pairs)?;
    let besides = besides_of(alloc, lines)?;
    let facts = facts_of(alloc, &all, bases, &noletsigns, besides.as_slice(), chars)?;
    known_from(alloc, lines, pairs, bases, all, noletsigns, facts, chars)
}

/// What is known of lines and an alphabet, to which the blank belongs.
pub(crate) fn known_of<'a>(
    alloc: Global,
    lines: &[Parts<'a>],
    alphabet: &[char],
) -> Result<Known<'a>, AllocError>
    ensures { IfOk result (λ known. known_view known ≡ known_with_blank (map parts_view lines.now) alphabet.now) }
{
    let mut chars = Vec::with_capacity(alloc, alphabet.len())?;
    chars.push(' ')?;
    chars.extend_from_slice(alphabet)?;
    known_with(alloc, lines, chars.as_slice())
}

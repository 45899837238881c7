//! The classes of a table, and which of them an alphabet meets.
ghost use Rattle.std.specs.Prelude.{◌≡◌, IfOk};
ghost use Rattle.brl_acting.specs.Classes.{classes_from, classes_view, is_name_of, members as members_by, members_in, members_view, met_by};
ghost use Rattle.brl_acting.specs.Sets.{is_in, names_view, pair_views, set_view};

use crate::char_set::CharSet;
use crate::class_pairs::ClassPair;
use crate::name_set::NameSet;
use std::alloc::{AllocError, Global};

/// The names of classes, and members of some.
#[derive(Drop)]
pub(crate) struct Classes<'a> {
    /// The names of all classes.
    pub names: NameSet<'a>,
    /// The names of those that have a member for which characters of the alphabet stand.
    pub met: NameSet<'a>,
    pub capitals: CharSet,
    pub plain_digits: CharSet,
    pub literary_digits: CharSet,
    pub letters: CharSet,
    /// Letters before which `letsign` doesn't stand.
    pub noletsigns: CharSet,
}

/// The members of some classes.
#[derive(Drop)]
pub(crate) struct MemberSets {
    pub capitals: CharSet,
    pub plain_digits: CharSet,
    pub literary_digits: CharSet,
    pub letters: CharSet,
    pub spaces: CharSet,
    /// Punctuation marks.
    pub marks: CharSet,
}

/// The members of some classes, by the characters that have these.
pub(crate) fn members_of(alloc: Global, pairs: &[ClassPair<'_>]) -> Result<MemberSets, AllocError>
    ensures { IfOk result (λ all. members_view all ≡ members_in (pair_views pairs.now)) }
{
    Ok(MemberSets {
        capitals: members(alloc, pairs, "uppercase")?,
        plain_digits: members(alloc, pairs, "digit")?,
        literary_digits: members(alloc, pairs, "litdigit")?,
        letters: members(alloc, pairs, "letter")?,
        spaces: members(alloc, pairs, "space")?,
        marks: members(alloc, pairs, "punctuation")?,
    })
}

/// The names of pairs.
fn names_of<'a>(alloc: Global, pairs: &[ClassPair<'a>]) -> Result<NameSet<'a>, AllocError>
    ensures { IfOk result (λ names. names_view names ≡ is_name_of (pair_views pairs.now)) }
{
    let mut names = NameSet {
        names: Vec::new(alloc),
    };
    for pair in pairs {
        names.add(pair.0)?;
    }
    Ok(names)
}

/// The pairs whose character is stood for.
fn met_of<'a>(
    alloc: Global,
    pairs: &[ClassPair<'a>],
    stood: &CharSet,
) -> Result<Vec<ClassPair<'a>>, AllocError>
    ensures { IfOk result (λ met. pair_views met.items ≡ met_by (set_view stood.now) (pair_views pairs.now)) }
{
    let mut met = Vec::new(alloc);
    for (name, character) in pairs {
        if stood.has(*character) {
            met.push((*name, *character))?;
        }
    }
    Ok(met)
}

/// The characters of a class.
pub(crate) fn members(
    alloc: Global,
    pairs: &[ClassPair<'_>],
    name: &str,
) -> Result<CharSet, AllocError>
    ensures { IfOk result (λ set. set_view set ≡ is_in (members_by name.now (pair_views pairs.now))) }
{
    let chars = member_list(alloc, pairs, name)?;
    CharSet::of(alloc, chars.as_slice())
}

/// The list of the characters of a class.
fn member_list(alloc: Global, pairs: &[ClassPair<'_>], name: &str) -> Result<Vec<char>, AllocError>
    ensures { IfOk result (λ chars. chars.items ≡ members_by name.now (pair_views pairs.now)) }
{
    let mut chars = Vec::new(alloc);
    for (class, character) in pairs {
        if *class == name {
            chars.push(*character)?;
        }
    }
    Ok(chars)
}

/// The classes of a table by the characters that have them, by the members of some, by letters
/// before which `letsign` doesn't stand, and by those that are stood for.
pub(crate) fn classes_of<'a>(
    alloc: Global,
    pairs: &[ClassPair<'a>],
    all: MemberSets,
    noletsigns: CharSet,
    stood: &CharSet,
) -> Result<Classes<'a>, AllocError>
    ensures { IfOk result (λ classes. classes_view classes ≡ classes_from (members_view all) (set_view noletsigns) (pair_views pairs.now) (set_view stood.now)) }
{
    let met_pairs = met_of(alloc, pairs, stood)?;
    let names = names_of(alloc, pairs)?;
    let met = names_of(alloc, met_pairs.as_slice())?;
    Ok(Classes {
        names,
        met,
        capitals: all.capitals,
        plain_digits: all.plain_digits,
        literary_digits: all.literary_digits,
        letters: all.letters,
        noletsigns,
    })
}

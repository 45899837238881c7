//! A section of a list of clashes.
ghost use Rattle.std.specs.Prelude.{◌≡◌, IfOk};
ghost use Rattle.brl_clashes.specs.Sections.{AreClashesOf, clashes_of as clashes_in, is_whole as has_all, lists_none as has_none};

use crate::Kind;
use brl_rules::Table;
use brl_search::{ClashList, RuleClash};
use std::alloc::{AllocError, Global};

/// What is found for the texts of one kind of characters and of those of the sections before it.
#[derive(Drop)]
pub struct Section {
    /// The kind that this section adds.
    pub kind: Kind,
    pub found: ClashList,
}

/// The clashes of a list.
pub fn clashes_of(found: &ClashList) -> &[RuleClash]
    ensures { result.now ≡ clashes_in found.now }
{
    match found {
        ClashList::Complete { list, .. } => list.as_slice(),
        ClashList::Partial { list, .. } => list.as_slice(),
    }
}

/// The clashes of a list, which is used up.
pub fn into_clashes(found: ClashList) -> Vec<RuleClash>
    ensures { result.items ≡ clashes_in found }
{
    match found {
        ClashList::Complete { list, .. } => list,
        ClashList::Partial { list, .. } => list,
    }
}

/// Copies of these clashes, in the same order. The table is the one whose clashes they are.
pub fn copies_of(
    alloc: Global,
    table: &Table,
    clashes: &[RuleClash],
) -> Result<Vec<RuleClash>, AllocError>
    requires { AreClashesOf table.now clashes.now }
    ensures { IfOk result (λ copies. copies.items ≡ clashes.now) }
{
    let mut copies = Vec::new(alloc);
    for clash in clashes {
        copies.push(clash.copy(alloc, table)?)?;
    }
    Ok(copies)
}

/// Whether a list has every pair of rules at which clashing texts diverge.
pub fn is_whole(found: &ClashList) -> bool
    ensures { result ≡ has_all found.now }
{
    match found {
        ClashList::Complete { .. } => true,
        ClashList::Partial { .. } => false,
    }
}

/// Whether a list has no pair of rules.
pub fn lists_none(found: &ClashList) -> bool
    ensures { result ≡ has_none found.now }
{
    clashes_of(found).is_empty()
}

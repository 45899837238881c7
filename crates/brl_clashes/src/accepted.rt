//! The pairs of rules that a section lists, and a section without those that are excused.
ghost use Rattle.std.specs.Prelude.{◌≡◌, ◌++◌, IfOk, OnOk};
ghost use Rattle.brl_accepted.specs.Reading.{is_excused as is_excused_by};
ghost use Rattle.brl_clashes.specs.Accepted.{IsLeftOf, IsLeftOfList};
ghost use Rattle.brl_clashes.specs.Sections.{clashes_beside, clashes_but, listed_after};
ghost use Rattle.brl_search.specs.Clashes.{rules_of_clashes};

use crate::Section;
use crate::listed_pairs::ListedPairs;
use crate::section::clashes_of;
use brl_accepted::{Counts, is_excused};
use brl_pairs::Excused;
use brl_search::{ClashList, RuleClash};
use std::alloc::{AllocError, Global};

/// What a file of accepted pairs takes out of a list.
#[derive(Clone, Copy)]
pub struct Taken {
    /// How many of the listed pairs of rules are accepted.
    pub listed: usize,
    /// How much the file excuses.
    pub counts: Counts,
    /// How many of its lines are stale.
    pub stale: usize,
    /// Whether these are taken out of the file.
    pub pruned: bool,
}

/// Lists those pairs of rules of a section that aren't listed.
pub fn push_section(
    alloc: Global,
    listed: &mut ListedPairs,
    section: &Section,
) -> Result<(), AllocError>
    ensures { OnOk result (listed.new ≡ listed_after listed.old section.now) }
{
    let new = new_pairs(alloc, listed, clashes_of(&section.found))?;
    push_pairs(listed, new.as_slice())
}

/// The pairs of rules of those of these clashes whose pairs aren't listed.
fn new_pairs(
    alloc: Global,
    listed: &ListedPairs,
    clashes: &[RuleClash],
) -> Result<Vec<(u32, u32)>, AllocError>
    ensures { IfOk result (λ pairs. pairs.items ≡ rules_of_clashes (clashes_beside listed.now clashes.now)) }
{
    let mut new = Vec::new(alloc);
    for clash in clashes {
        let pair = (clash.lesser, clash.greater);
        if !listed.contains(pair) {
            new.push(pair)?;
        }
    }
    Ok(new)
}

/// Lists these pairs.
fn push_pairs(listed: &mut ListedPairs, pairs: &[(u32, u32)]) -> Result<(), AllocError>
    ensures { OnOk result (listed.new ≡ listed.old ++ pairs.now) }
{
    for pair in pairs {
        listed.push(*pair)?;
    }
    Ok(())
}

/// What is left of a section without the clashes at pairs of rules that are excused.
pub fn left_of(excused: &Excused, section: Section) -> Section
    ensures { IsLeftOf (is_excused_by excused.now) section result }
{
    let Section { kind, found } = section;
    let found = left_of_list(excused, found);
    Section { kind, found }
}

/// What is left of a list without the clashes at pairs of rules that are excused.
fn left_of_list(excused: &Excused, found: ClashList) -> ClashList
    ensures { IsLeftOfList (is_excused_by excused.now) found result }
{
    match found {
        ClashList::Complete { list, body } => {
            let list = others(excused, list);
            ClashList::Complete { list, body }
        }
        ClashList::Partial {
            list,
            states,
            pairs,
        } => {
            let list = others(excused, list);
            ClashList::Partial {
                list,
                states,
                pairs,
            }
        }
    }
}

/// The clashes at pairs of rules that aren't excused.
fn others(excused: &Excused, clashes: Vec<RuleClash>) -> Vec<RuleClash>
    ensures { result.items ≡ clashes_but (is_excused_by excused.now) clashes.items }
{
    let mut left = clashes;
    left.retain(|clash| !is_excused(excused, (clash.lesser, clash.greater)));
    left
}

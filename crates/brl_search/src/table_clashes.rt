//! Every pair of rules of a table at which clashing texts diverge.
ghost use Rattle.std.specs.Prelude.{◌≡◌, ◌≤◌, ◌++◌, ℕ, All, IfOk, IfSome, OnOk, length, option_to_list};
ghost use Rattle.std.specs.BTreeMap.{btree_map_len};
ghost use Rattle.brl_divergence.specs.Answers.{AreDivergencesOf, IsListed};
ghost use Rattle.brl_divergence.specs.Listed.{IsDivergence, rules_of};
ghost use Rattle.brl_rules.specs.Translation.{IsClash};
ghost use Rattle.brl_search.specs.Clashes.{AreClashes, AreRuleClashes, IsRuleClash, rules_of_clashes};
ghost use Rattle.brl_search.specs.Searched.{machine_of};
ghost use Rattle.brl_without.specs.Without.{without};

use crate::{seed_of, small_clash_of};
use brl_closure::Texts;
use brl_divergence::{Divergences, RuleTexts, complete_list_law, list_divergences};
use brl_dues::{Dues, exact_law};
use brl_forward::{Clash, clash_of};
use brl_pairs::{Body, Machine};
use brl_progress::Progress;
use brl_rules::Table;
use brl_states::DuesState;
use brl_traces::{dues_divergence_law, dues_trace_law};
use brl_without::{LeftOut, Without, exact_without_law};
use std::alloc::{AllocError, Global};
use std::collections::BTreeMap;

/// A pair of rules, by their numbers, and a clash whose texts diverge at it. No character can be
/// left out of these so that they clash and diverge there.
#[derive(Drop)]
pub struct RuleClash {
    pub lesser: u32,
    pub greater: u32,
    pub clash: Clash,
}

impl RuleClash {
    /// An equal pair of rules with an equal clash. The table is the one whose clash it is.
    pub fn copy(&self, alloc: Global, table: &Table) -> Result<RuleClash, AllocError>
        requires { IsClash table.now self.now.clash.left self.now.clash.right self.now.clash.cells }
        ensures { IfOk result (λ copy. copy ≡ self.now) }
    {
        let left = self.clash.left().to_vec(alloc)?;
        let right = self.clash.right().to_vec(alloc)?;
        Ok(RuleClash {
            lesser: self.lesser,
            greater: self.greater,
            clash: clash_of(alloc, table, left, right)?,
        })
    }
}

/// The pairs of rules of a table at which clashing texts diverge, in ascending order.
#[derive(Drop)]
pub enum ClashList {
    /// These pairs of rules, and no others. The states and pairs are closed but for them.
    Complete {
        list: Vec<RuleClash>,
        body: Body<DuesState>,
    },
    /// These pairs of rules, and maybe more: this number of states and this number of pairs were
    /// found when one of the two, or the length of the list, became more than the limit.
    Partial {
        list: Vec<RuleClash>,
        states: u64,
        pairs: u64,
    },
}

/// Lists every pair of rules at which clashing texts without some characters diverge, each with a
/// small clash; or finds the limit. Texts that diverge at the pairs of known clashes aren't
/// searched, or made small, again. What is found so far is reported slice by slice.
///
/// `Partial` as soon as the states found, the pairs found or the pairs of rules listed are more
/// than `limit`.
pub fn clashes<P: Progress>(
    alloc: Global,
    table: &Table,
    limit: u64,
    left_out: &LeftOut,
    known: Vec<RuleClash>,
    progress: &mut P,
) -> Result<ClashList, AllocError>
    requires limit { limit ≤ 4294967295 }
    requires known { All (IsRuleClash left_out.now table.now) known.items }
    requires few { length known.items ≤ limit }
    ensures { IfOk result (AreClashes left_out.now table.now limit) }
{
    let dues = Dues::new(alloc, table);
    let machine = Without::new(&dues, left_out);
    let seed = seed_of(alloc, table)?;
    let listed = texts_of(alloc, table, left_out, known.as_slice())?;
    let divergences = list_divergences(alloc, &machine, limit, seed, listed, progress)?;
    clashes_of(alloc, table, left_out, known, divergences)
}

/// The texts of clashes at pairs of rules, as those of paths of the dues machine without some
/// characters.
fn texts_of(
    alloc: Global,
    table: &Table,
    left_out: &LeftOut,
    clashes: &[RuleClash],
) -> Result<RuleTexts, AllocError>
    requires { All (IsRuleClash left_out.now table.now) clashes.now }
    ensures listed { IfOk result (IsListed (without left_out.now (machine_of table.now))) }
    ensures few { IfOk result (λ list. btree_map_len list ≤ length clashes.now) }
{
    let dues = Dues::new(alloc, table);
    let machine = Without::new(&dues, left_out);
    let _ = machine.start();
    dues_trace_law(table);
    let mut list = BTreeMap::new(alloc);
    for it in clashes {
        let texts = Texts {
            left: it.clash.left().to_vec(alloc)?,
            right: it.clash.right().to_vec(alloc)?,
        };
        list.insert((it.lesser, it.greater), texts)?;
    }
    Ok(list)
}

/// The clashes of a table, from known ones and the divergences of its dues machine without some
/// characters.
fn clashes_of(
    alloc: Global,
    table: &Table,
    left_out: &LeftOut,
    known: Vec<RuleClash>,
    divergences: Divergences<DuesState>,
) -> Result<ClashList, AllocError>
    requires known { All (IsRuleClash left_out.now table.now) known.items }
    requires divergences { (limit : ℕ) × AreDivergencesOf (without left_out.now (machine_of table.now)) limit divergences }
    ensures { (limit : ℕ) → AreDivergencesOf (without left_out.now (machine_of table.now)) limit divergences →
        IfOk result (AreClashes left_out.now table.now limit) }
{
    match divergences {
        Divergences::Complete { list, body } => {
            let dues = Dues::new(alloc, table);
            exact_law(table);
            exact_without_law(&dues);
            let machine = Without::new(&dues, left_out);
            complete_list_law(&machine);
            dues_divergence_law(table);
            let list = rule_clashes(alloc, table, left_out, known, list)?;
            Ok(ClashList::Complete { list, body })
        }
        Divergences::Partial {
            list,
            states,
            pairs,
        } => {
            let list = rule_clashes(alloc, table, left_out, known, list)?;
            Ok(ClashList::Partial {
                list,
                states,
                pairs,
            })
        }
    }
}

/// The clash of each pair of rules: a known one, where the known ones ascend and are listed, too,
/// or else one that is made small from its texts.
fn rule_clashes(
    alloc: Global,
    table: &Table,
    left_out: &LeftOut,
    known: Vec<RuleClash>,
    list: RuleTexts,
) -> Result<Vec<RuleClash>, AllocError>
    requires known { All (IsRuleClash left_out.now table.now) known.items }
    requires list { IsListed (without left_out.now (machine_of table.now)) list }
    ensures clashes { IfOk result (λ clashes. AreRuleClashes left_out.now table.now clashes.items) }
    ensures rules { IfOk result (λ clashes. rules_of_clashes clashes.items ≡ rules_of list) }
{
    let mut rest = list;
    let mut known = known;
    known.reverse();
    let mut clashes = Vec::new(alloc);
    while let Some((rules, texts)) = rest.pop_first() {
        let clash = rule_clash(alloc, table, left_out, &mut known, rules, texts)?;
        clashes.push(clash)?;
    }
    Ok(clashes)
}

/// The clash at a pair of rules: the last of the known ones, which is taken out, if it is at this
/// pair; or else one that is made small from two texts.
fn rule_clash(
    alloc: Global,
    table: &Table,
    left_out: &LeftOut,
    known: &mut Vec<RuleClash>,
    rules: (u32, u32),
    texts: Texts,
) -> Result<RuleClash, AllocError>
    requires known { All (IsRuleClash left_out.now table.now) known.old.items }
    requires texts { IsDivergence (without left_out.now (machine_of table.now)) (rules, texts) }
    ensures clash { IfOk result (IsRuleClash left_out.now table.now) }
    ensures rules { IfOk result (λ clash. (clash.lesser, clash.greater) ≡ rules) }
    ensures known { OnOk result (All (IsRuleClash left_out.now table.now) known.new.items) }
{
    if let Some(clash) = take_at(known, rules) {
        return Ok(clash);
    }
    let dues = Dues::new(alloc, table);
    exact_law(table);
    exact_without_law(&dues);
    dues_trace_law(table);
    let clash = small_clash_of(alloc, table, texts, Some(rules))?;
    Ok(RuleClash {
        lesser: rules.0,
        greater: rules.1,
        clash,
    })
}

/// The last of these clashes, which is taken out, if it is at this pair of rules.
fn take_at(clashes: &mut Vec<RuleClash>, rules: (u32, u32)) -> Option<RuleClash>
    ensures taken { clashes.old.items ≡ clashes.new.items ++ option_to_list result }
    ensures rules { IfSome result (λ clash. (clash.lesser, clash.greater) ≡ rules) }
{
    let last = clashes.last()?;
    if last.lesser != rules.0 || last.greater != rules.1 {
        return None;
    }
    clashes.pop()
}

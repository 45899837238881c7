//! The pairs of rules at which texts diverge.
use brl_closure::Texts;
use brl_pairs::{Body, Key};
use std::collections::BTreeMap;

/// Pairs of rules in ascending order, each with two texts that diverge at it. The lesser rule
/// number of a pair comes first.
pub type RuleTexts = BTreeMap<(u32, u32), Texts>;

/// The pairs of rules of a machine at which two texts with the same cells diverge.
#[derive(Drop)]
pub enum Divergences<S: Key> {
    /// These pairs of rules, and no others. The states and pairs are closed but for them.
    Complete {
        list: RuleTexts,
        body: Body<S>,
    },
    /// These pairs of rules, and maybe more: this number of states and this number of pairs were
    /// found when one of the two, or the length of the list, became more than the limit.
    Partial {
        list: RuleTexts,
        states: u64,
        pairs: u64,
    },
}

//! Dues: what a state requires of the characters to come.
ghost use Rattle.std.specs.Prelude.{◌≡◌, IfOk};
ghost use Rattle.brl_states.specs.Order.{cond_cmp, cond_kind, cond_set, due_cmp};

use brl_cells::Chars;
use brl_pairs::Sequence;
use brl_rules::Cond;
use std::alloc::{AllocError, Global};
use std::cmp::Ordering;

/// What a state requires of the rest of a text. The end of the text counts as class space.
#[derive(PartialEq, Eq, Hash, Debug, Drop)]
pub enum Due {
    /// The classes of the next character meet the condition.
    Need(Cond),
    /// The rest doesn't begin with these characters, followed by one whose classes meet the
    /// condition.
    Bar(Chars, Cond),
}

impl Due {
    /// An equal due. `AllocError` if memory runs out.
    pub fn copy(&self, alloc: Global) -> Result<Due, AllocError>
        ensures { IfOk result (λ due. due ≡ self.now) }
    {
        Ok(match self {
            Due::Need(cond) => Due::Need(*cond),
            Due::Bar(chars, cond) => Due::Bar(chars.copy(alloc)?, *cond),
        })
    }
}

/// Equal dues. `AllocError` if memory runs out.
pub fn copy_dues(alloc: Global, dues: &[Due]) -> Result<Vec<Due>, AllocError>
    ensures { IfOk result (λ copies. copies.items ≡ dues.now) }
{
    let mut copies = Vec::with_capacity(alloc, dues.len())?;
    for due in dues {
        copies.push(due.copy(alloc)?)?;
    }
    Ok(copies)
}

/// The order of two dues: a need before a bar; needs by their conditions; bars by their characters,
/// then by their conditions.
pub fn compare_dues(a: &Due, b: &Due) -> Ordering
    ensures { result ≡ due_cmp a.now b.now }
{
    match (a, b) {
        (Due::Need(c), Due::Need(d)) => compare_conds(*c, *d),
        (Due::Need(_), Due::Bar(_, _)) => Ordering::Less,
        (Due::Bar(_, _), Due::Need(_)) => Ordering::Greater,
        (Due::Bar(s, c), Due::Bar(t, d)) => s.compare(t).then(compare_conds(*c, *d)),
    }
}

/// The order of two conditions: Any, Meets, Avoids, then by the number of the set.
fn compare_conds(a: Cond, b: Cond) -> Ordering
    ensures { result ≡ cond_cmp a b }
{
    kind_of(a).cmp(&kind_of(b)).then(set_of(a).cmp(&set_of(b)))
}

/// The place of a condition's kind in the order.
fn kind_of(cond: Cond) -> u8
    ensures { result ≡ cond_kind cond }
{
    match cond {
        Cond::Any => 0,
        Cond::Meets(_) => 1,
        Cond::Avoids(_) => 2,
    }
}

/// The set of a condition as a number.
fn set_of(cond: Cond) -> u8
    ensures { result ≡ cond_set cond }
{
    match cond {
        Cond::Any => 0,
        Cond::Meets(set) => set.0,
        Cond::Avoids(set) => set.0,
    }
}

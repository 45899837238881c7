//! The bars of rules in a run of capitals.
ghost use Rattle.std.specs.Prelude.{◌≡◌, ◌++◌, map, IfOk, OnOk};
ghost use Rattle.brl_dues.specs.Adding.{Adds};
ghost use Rattle.brl_dues.specs.Capitals.{choices};
ghost use Rattle.brl_dues.specs.Carry.{carry_capitals};
ghost use Rattle.brl_states.specs.declared.due.Due.TheVariants.{Bar};

use crate::carry::{add, class_of, opposed_to};
use crate::cased::CasedTable;
use brl_rules::{Cond, holds};
use brl_states::Due;
use std::alloc::{AllocError, Global};

/// Appends what is left, after the characters `past` of a run of capitals, of the bars of a rule
/// with these characters to the dues found so far. Returns whether none is broken.
pub fn add_caps_run_bars(
    alloc: Global,
    table: &CasedTable<'_>,
    past: &[char],
    chars: &[char],
    cond: Cond,
    found: &mut Vec<Due>,
) -> Result<bool, AllocError>
    ensures { IfOk result (λ whole. Adds (carry_capitals table.now past.now chars.now cond) found.old.items found.new.items whole) }
{
    let shared = past.len().min(chars.len());
    for i in 0..shared {
        if !table.stands_for(past[i], chars[i]) {
            return Ok(true);
        }
    }
    if shared < past.len() {
        return Ok(!holds(cond, class_of(table.table(), past[shared])));
    }
    if shared < chars.len() {
        add_choices(alloc, table, &chars[shared..], cond, found)?;
        return Ok(true);
    }
    add(opposed_to(cond), found)
}

/// Appends a bar for each text of capitals whose folds are these characters.
fn add_choices(
    alloc: Global,
    table: &CasedTable<'_>,
    chars: &[char],
    cond: Cond,
    found: &mut Vec<Due>,
) -> Result<(), AllocError>
    ensures { OnOk result (found.new.items ≡ found.old.items ++ map (λ text. Bar text cond) (choices table.now chars.now)) }
{
    for text in table.choices(alloc, chars)? {
        found.push(Due::Bar(text, cond))?;
    }
    Ok(())
}

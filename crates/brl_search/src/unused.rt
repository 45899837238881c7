//! The rules of a table that no text uses.
ghost use Rattle.std.specs.Prelude.{◌≤◌, IfOk};
ghost use Rattle.brl_search.specs.Used.{AreUnusedRules};

use crate::seed_of;
use brl_dues::{Dues, exact_law};
use brl_pairs::Machine;
use brl_progress::Progress;
use brl_rules::Table;
use brl_traces::dues_trace_law;
use brl_unused::{TakenRules, places_of, taken_rules};
use brl_without::{LeftOut, Without, exact_without_law};
use std::alloc::{AllocError, Global};

/// The rules of a table that no text uses.
#[derive(Drop)]
pub enum UnusedRules {
    /// These, by their numbers, ascending. Of each other rule there is a text that uses it.
    Unused(Vec<u32>),
    /// This number of states were found when they became more than the limit.
    Limit { states: u64 },
}

/// The rules of a table that no text without some characters uses, while some text uses each other
/// rule; or the limit. It is the rules that no path of its dues machine without these takes. Own
/// definitions of characters are rules too. How many states are found is reported. `Limit` as soon
/// as they are more than `limit`.
pub fn unused_rules<P: Progress>(
    alloc: Global,
    table: &Table,
    limit: u64,
    left_out: &LeftOut,
    progress: &mut P,
) -> Result<UnusedRules, AllocError>
    requires { limit ≤ 4294967295 }
    ensures { IfOk result (AreUnusedRules left_out.now table.now limit) }
{
    exact_law(table);
    dues_trace_law(table);
    let dues = Dues::new(alloc, table);
    let machine = Without::new(&dues, left_out);
    exact_without_law(&dues);
    let _ = machine.start();
    let rules = table.rules_in_rank().len() + table.char_count();
    let seed = seed_of(alloc, table)?;
    match taken_rules(alloc, &machine, rules, limit, seed, progress)? {
        TakenRules::Marked(marks) => {
            let unused = places_of(alloc, marks.as_slice(), false)?;
            Ok(UnusedRules::Unused(unused))
        }
        TakenRules::Limit { states } => Ok(UnusedRules::Limit { states }),
    }
}

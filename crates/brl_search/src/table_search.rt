//! The search of a table.
ghost use Rattle.std.specs.Prelude.{◌≤◌, ℕ, IfOk};
ghost use Rattle.brl_closure.specs.Answers.{IsOutcome};
ghost use Rattle.brl_search.specs.Found.{IfCertified, IfClashing, IsFound, IsFoundWithout};
ghost use Rattle.brl_search.specs.Searched.{machine_of};
ghost use Rattle.brl_search.specs.Small.{IsSmallClash};
ghost use Rattle.brl_rules.specs.Translation.{IsUnambiguous};
ghost use Rattle.brl_without.specs.Without.{without};

use crate::{seed_of, small_clash_of};
use brl_closure::{Outcome, Texts, same_cells_law, search_machine};
use brl_dues::{Dues, exact_law};
use brl_forward::Clash;
use brl_pairs::numbered_sets_law;
use brl_progress::{NoProgress, Progress};
use brl_rules::Table;
use brl_states::{Cert, DuesState};
use brl_without::{LeftOut, Without, exact_without_law, unambiguous_without_law};
use std::alloc::{AllocError, Global};

/// What a search of a table finds.
#[derive(Drop)]
pub enum Found {
    /// A certificate: no two different texts of the table have the same translation.
    Certified(Cert),
    /// Two different texts with the same translation.
    Clashing(Clash),
    /// This number of states and this number of pairs were found when one of the two became more
    /// than the limit.
    Limit { states: u64, pairs: u64 },
}

/// Why a search finds nothing: memory runs out.
pub type SearchFault = AllocError;

/// Searches a table: finds a closed certificate, so that the table is unambiguous, or a clash, made
/// small, or the limit. The certificate is of version 3. Its states are in the order in which they
/// are found: the start first, and then each as the next state of a step of an earlier one.
///
/// `Limit` as soon as the states found, or the pairs found, are more than `limit`.
pub fn search(alloc: Global, table: &Table, limit: u64) -> Result<Found, SearchFault>
    requires { limit ≤ 4294967295 }
    ensures found { IfOk result (IsFound table.now limit) }
    ensures unambiguous { IfOk result (IfCertified (λ _. IsUnambiguous table.now)) }
    ensures small { IfOk result (IfClashing (IsSmallClash table.now)) }
{
    let left_out = LeftOut::none(alloc);
    find(alloc, table, limit, &left_out, &mut NoProgress)
}

/// Searches a table for a certificate or a clash of texts that use none of some characters, over
/// its dues machine without these. What is found so far is reported slice by slice.
pub(crate) fn find<P: Progress>(
    alloc: Global,
    table: &Table,
    limit: u64,
    left_out: &LeftOut,
    progress: &mut P,
) -> Result<Found, AllocError>
    requires { limit ≤ 4294967295 }
    ensures found { IfOk result (IsFoundWithout left_out.now table.now limit) }
    ensures small { IfOk result (IfClashing (IsSmallClash table.now)) }
{
    let dues = Dues::new(alloc, table);
    let machine = Without::new(&dues, left_out);
    let seed = seed_of(alloc, table)?;
    let outcome = search_machine(alloc, &machine, limit, seed, progress)?;
    found_of(alloc, table, left_out, outcome)
}

/// What a table's search finds, from the outcome of the search of its dues machine without some
/// characters.
fn found_of(
    alloc: Global,
    table: &Table,
    left_out: &LeftOut,
    outcome: Outcome<DuesState>,
) -> Result<Found, AllocError>
    requires { (limit : ℕ) × IsOutcome (without left_out.now (machine_of table.now)) limit outcome }
    ensures found { (limit : ℕ) → IsOutcome (without left_out.now (machine_of table.now)) limit outcome →
        IfOk result (IsFoundWithout left_out.now table.now limit) }
    ensures small { IfOk result (IfClashing (IsSmallClash table.now)) }
{
    let dues = Dues::new(alloc, table);
    exact_law(table);
    exact_without_law(&dues);
    unambiguous_without_law(&dues);
    let machine = Without::new(&dues, left_out);
    match outcome {
        Outcome::Closed(body) => {
            numbered_sets_law(&machine);
            Ok(Found::Certified(Cert::Word(body)))
        }
        Outcome::BothEnd { left, right } => {
            same_cells_law(&machine);
            let clash = small_clash_of(alloc, table, Texts { left, right }, None)?;
            Ok(Found::Clashing(clash))
        }
        Outcome::Limit { states, pairs } => Ok(Found::Limit { states, pairs }),
    }
}

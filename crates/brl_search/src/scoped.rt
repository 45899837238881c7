//! The search of a table for what is asked of it, where pairs of rules may be excused.
ghost use Rattle.std.specs.Prelude.{◌≡◌, ◌≤◌, ℕ, IfOk, List};
ghost use Rattle.brl_rules.specs.TableView.{TableView};
ghost use Rattle.brl_search.specs.Clashes.{AreClashes};
ghost use Rattle.brl_search.specs.Scoped.{AreAllExcused, IsFoundFor, IsSearched, first_unexcused, is_excused as is_excused_clash};
ghost use Rattle.brl_search.specs.declared.table_clashes.ClashList.TheVariants.{Partial};

use crate::table_search::find;
use crate::{ClashList, Found, RuleClash, accepted_list_law, clashes};
use brl_closure::{AcceptFault, accept_up_to};
use brl_dues::Dues;
use brl_failure::Failure;
use brl_pairs::{Body, Excused};
use brl_progress::Progress;
use brl_rules::Table;
use brl_states::{Cert, DuesState};
use brl_traces::dues_exchange_law;
use brl_without::{Scope, Without};
use std::alloc::{AllocError, Global};

/// What a search of a table finds for what it is asked for.
#[derive(Drop)]
pub enum Searched {
    /// A certificate that `judge_table` accepts for what is asked for; or a clash, whose texts
    /// diverge at a pair of rules that isn't excused; or the limit was passed, by the states, the
    /// pairs or the number of pairs of rules at which texts diverge.
    Found(Found),
    /// Texts diverge at no pairs of rules but excused ones, but steps of exchanged ones can't be
    /// exchanged everywhere. This is the first fault of the states and pairs that show that there
    /// are no others.
    NotExchangeable(AcceptFault),
}

/// Searches a table without some characters: finds a certificate but for what is excused, the least
/// other clash, or the limit. Where nothing is, it finds what `search` would, over the table's dues
/// machine without these characters. Progress is reported slice by slice.
///
/// Where something is excused it lists the pairs of rules at which clashing texts diverge, as
/// `clashes` does, and then checks what shows that there are no others. A clash is that of the
/// least pair of rules listed that isn't excused. `Limit` as soon as the states found, the pairs
/// found or the pairs of rules listed are more than `limit`, where each of the last is excused: a
/// clash at another pair is answered also where the limit is passed.
pub fn search_table<P: Progress>(
    alloc: Global,
    table: &Table,
    limit: u64,
    scope: Scope<'_, P>,
) -> Result<Searched, AllocError>
    requires { limit ≤ 4294967295 }
    ensures { IfOk result (IsSearched scope.entry.left_out.now scope.entry.excused.now table.now limit) }
{
    if scope.excused.is_nothing() {
        let found = find(alloc, table, limit, scope.left_out, scope.progress)?;
        return Ok(Searched::Found(found));
    }
    search_excusing(alloc, table, limit, scope)
}

/// Searches a table by the list of all pairs of rules at which clashing texts diverge.
fn search_excusing<P: Progress>(
    alloc: Global,
    table: &Table,
    limit: u64,
    scope: Scope<'_, P>,
) -> Result<Searched, AllocError>
    requires { limit ≤ 4294967295 }
    ensures { IfOk result (IsFoundFor scope.entry.left_out.now scope.entry.excused.now table.now limit) }
{
    let Scope {
        left_out,
        excused,
        progress,
    } = scope;
    let known = Vec::new(alloc);
    match clashes(alloc, table, limit, left_out, known, &mut *progress)? {
        ClashList::Complete { list, body } => {
            accepted_list_law();
            match first_beside(excused, list) {
                Some(it) => Ok(Searched::Found(Found::Clashing(it.clash))),
                None => {
                    let scope = Scope {
                        left_out,
                        excused,
                        progress,
                    };
                    check_body(alloc, table, body, scope)
                }
            }
        }
        ClashList::Partial {
            list,
            states,
            pairs,
        } => Ok(found_so_far(excused, list, states, pairs)),
    }
}

/// Whether the rules of a clash are a pair that is accepted, or that may be exchanged.
fn is_excused(excused: &Excused, clash: &RuleClash) -> bool
    ensures { result ≡ is_excused_clash excused.now clash.now }
{
    excused.accepted.has(clash.lesser, clash.greater)
        || excused.exchanged.has(clash.lesser, clash.greater)
}

/// The first of these clashes whose pair of rules isn't excused.
fn first_beside(excused: &Excused, list: Vec<RuleClash>) -> Option<RuleClash>
    ensures { result ≡ first_unexcused excused.now list.items }
{
    list.into_iter().find(|clash| !is_excused(excused, clash))
}

/// What is found by a list that may lack pairs of rules: its first clash that isn't excused, or
/// else the limit.
fn found_so_far(excused: &Excused, list: Vec<RuleClash>, states: u64, pairs: u64) -> Searched
    ensures { (left_out : List ℕ) → (t : TableView) → (limit : ℕ) → AreClashes left_out t limit (Partial list states pairs) →
        IsFoundFor left_out excused.now t limit result }
{
    match first_beside(excused, list) {
        Some(it) => Searched::Found(Found::Clashing(it.clash)),
        None => Searched::Found(Found::Limit { states, pairs }),
    }
}

/// Checks the states and pairs that come with a whole list. Each pair of rules of the list is
/// excused.
fn check_body<P: Progress>(
    alloc: Global,
    table: &Table,
    body: Body<DuesState>,
    scope: Scope<'_, P>,
) -> Result<Searched, AllocError>
    requires { (limit : ℕ) × AreAllExcused scope.left_out.now scope.excused.now table.now limit body }
    ensures { (limit : ℕ) → AreAllExcused scope.entry.left_out.now scope.entry.excused.now table.now limit body →
        IfOk result (IsFoundFor scope.entry.left_out.now scope.entry.excused.now table.now limit) }
{
    let Scope {
        left_out,
        excused,
        progress,
    } = scope;
    dues_exchange_law(table);
    let dues = Dues::new(alloc, table);
    let machine = Without::new(&dues, left_out);
    match accept_up_to(alloc, &machine, excused, &body, progress) {
        Ok(_) => Ok(Searched::Found(Found::Certified(Cert::Word(body)))),
        Err(Failure::Fault(fault)) => Ok(Searched::NotExchangeable(fault)),
        Err(Failure::Memory) => Err(AllocError),
    }
}

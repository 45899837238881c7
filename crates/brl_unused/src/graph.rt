//! Which of the states that are found are live: from them a final state is reached.
ghost use Rattle.std.specs.Prelude.{◌≡◌, ◌<◌, ◌≤◌, ◌^◌, ◌↔◌, ℕ, Bool, List, IfOk, IsFalse, IsTrue, OnOk, Some, length, slice_get};
ghost use Rattle.std.specs.List.{Contains};
ghost use Rattle.brl_pairs.specs.declared.edge.ListedEdge.{ListedEdge as EdgeValue};
ghost use Rattle.brl_unused.specs.Graph.{AreAscending, AreLive, IsWhole};
ghost use Rattle.brl_unused.specs.Marking.{AreMarked, IsClosed, IsClosedAt, LeadToLive, LeadsOn, unmarked};

use crate::found::FoundStates;
use brl_pairs::{Key, ListedEdge};
use std::alloc::{AllocError, Global};

/// The places that have this mark, ascending.
pub fn places_of(alloc: Global, marks: &[bool], mark: bool) -> Result<Vec<u32>, AllocError>
    requires { length marks.now < 2 ^ 32 }
    ensures each { IfOk result (λ places. (place : ℕ) → Contains places.items place ↔ (slice_get marks.now place ≡ Some mark)) }
    ensures ascending { IfOk result (λ places. AreAscending places.items) }
{
    let mut places = Vec::new(alloc);
    for place in 0..marks.len() {
        if marks[place] == mark {
            places.push(place as u32)?;
        }
    }
    Ok(places)
}

/// Whether one of these edges leads to a live state.
fn lead_to_live(edges: &[ListedEdge], live: &[bool]) -> bool
    requires { (e : EdgeValue) → Contains edges.now e → e.next < length live.now }
    ensures { IsTrue result ↔ LeadToLive edges.now live.now }
{
    for edge in edges {
        if live[edge.next as usize] {
            return true;
        }
    }
    false
}

/// Whether an edge of the state at this place leads to a live state.
fn leads_on<S: Key, D: Key>(
    alloc: Global,
    found: &FoundStates<S, D>,
    place: usize,
    live: &[bool],
) -> Result<bool, AllocError>
    requires whole { IsWhole found.now }
    requires within { place < length found.now.order.items }
    requires live { length live.now ≡ length found.now.contexts.named.states }
    ensures { IfOk result (λ leads. IsTrue leads ↔ LeadsOn found.now live.now place) }
{
    let edges = found.contexts.edges(alloc, &found.expanded[place])?;
    Ok(lead_to_live(edges.as_slice(), live))
}

/// Marks the state at this place if one of its edges leads to a live state. True where it wasn't
/// marked and is now.
fn mark_at<S: Key, D: Key>(
    alloc: Global,
    found: &FoundStates<S, D>,
    place: usize,
    live: &mut Vec<bool>,
) -> Result<bool, AllocError>
    requires whole { IsWhole found.now }
    requires within { place < length found.now.order.items }
    requires live { length live.old.items ≡ length found.now.contexts.named.states }
    ensures marked { (ends : List Bool) → OnOk result (AreMarked ends found.now live.old.items → AreMarked ends found.now live.new.items) }
    ensures count { OnOk result (length live.new.items ≡ length live.old.items) }
    ensures fewer { IfOk result (λ more. IsTrue more → unmarked live.new.items < unmarked live.old.items) }
    ensures same { IfOk result (λ more. IsFalse more → live.new.items ≡ live.old.items) }
    ensures closed { IfOk result (λ more. IsFalse more → IsClosedAt found.now live.old.items place) }
{
    let number = found.order[place] as usize;
    if live[number] {
        return Ok(false);
    }
    let leads = leads_on(alloc, found, place, live.as_slice())?;
    if leads {
        live[number] = true;
    }
    Ok(leads)
}

/// Marks states of which an edge leads to a live state: one round over all that are found, the last
/// first. False where no state is marked that wasn't.
fn mark_round<S: Key, D: Key>(
    alloc: Global,
    found: &FoundStates<S, D>,
    live: &mut Vec<bool>,
) -> Result<bool, AllocError>
    requires whole { IsWhole found.now }
    requires live { length live.old.items ≡ length found.now.contexts.named.states }
    ensures marked { (ends : List Bool) → OnOk result (AreMarked ends found.now live.old.items → AreMarked ends found.now live.new.items) }
    ensures count { OnOk result (length live.new.items ≡ length live.old.items) }
    ensures most { OnOk result (unmarked live.new.items ≤ unmarked live.old.items) }
    ensures fewer { IfOk result (λ more. IsTrue more → unmarked live.new.items < unmarked live.old.items) }
    ensures closed { IfOk result (λ more. IsFalse more → IsClosed found.now live.new.items) }
{
    let mut more = false;
    let mut place = found.order.len();
    while place > 0 {
        place -= 1;
        if mark_at(alloc, found, place, live)? {
            more = true;
        }
    }
    Ok(more)
}

/// Marks the states from which a final state is reached: backwards from the final ones, in rounds,
/// until one marks no more. `ends` says which of the known states are final.
pub fn live_states<S: Key, D: Key>(
    alloc: Global,
    ends: &[bool],
    found: &FoundStates<S, D>,
) -> Result<Vec<bool>, AllocError>
    requires whole { IsWhole found.now }
    requires count { length ends.now ≡ length found.now.contexts.named.states }
    ensures { IfOk result (λ live. AreLive ends.now found.now live.items) }
{
    let mut live = Vec::from_slice(alloc, ends)?;
    let mut more = true;
    while more {
        more = mark_round(alloc, found, &mut live)?;
    }
    Ok(live)
}

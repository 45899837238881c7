//! What a state changes of the forms of its base.
ghost use Rattle.std.specs.Prelude.{◌≡◌, ◌↔◌, ◌<◌, ◌+◌, [], IfOk, IsTrue, OnOk, Some, length, map, slice_get};
ghost use Rattle.brl_contexts.specs.Met.{AreMetByForm};
ghost use Rattle.brl_contexts.specs.Changes.{AreAlike, AreChangesTo, AreMeeting, AreOpened, DoAscend, IsOpened, IsPastForm, IsRepeated, IsShared};
ghost use Rattle.brl_contexts.specs.Named.{AreCarried, StillNames};
ghost use Rattle.brl_pairs.specs.Members.{HaveOneNumber};

use crate::forms::Forms;
use crate::met::{Met, bars_at, met_by_form};
use crate::named::{Named, number_owing};
use brl_cells::Cells;
use brl_pairs::{Based, Past, as_u32, cells_at};
use std::alloc::{AllocError, Global};

/// What a state changes of a form. All other forms whose gates it opens are its steps as they are.
#[derive(Clone, Copy)]
pub struct Change {
    /// The number of the form.
    pub form: u32,
    /// The number of the state to which the form leads here. `None` where the state has no such
    /// step, or has it by a form before.
    pub next: Option<u32>,
}

/// Of each gate, whether a state opens it.
pub fn opened<B: Based>(
    alloc: Global,
    machine: &B,
    state: &B::State,
    gates: &[u8],
) -> Result<Vec<bool>, AllocError>
    ensures { IfOk result (λ opens. opens.items ≡ map ((B.sharing machine.now).opens state.now) gates.now) }
{
    let mut opens = Vec::with_capacity(alloc, gates.len())?;
    for gate in gates {
        opens.push(machine.opens(state, *gate))?;
    }
    Ok(opens)
}

/// What the state with this number changes of the forms of its base, by ascending form. `opens`
/// says which gates it opens. Where changed forms lead is added to the states.
pub fn changes_of<B: Based>(
    alloc: Global,
    machine: &B,
    named: &mut Named<B::State, B::More>,
    forms: &Forms,
    state: usize,
    opens: &[bool],
) -> Result<Vec<Change>, AllocError>
    requires shared { IsShared (B.behaviour machine.now) (B.sharing machine.now) named.old state forms.now }
    requires opens { AreOpened (B.sharing machine.now) named.old state forms.now opens.now }
    ensures changes { IfOk result (λ changes. AreChangesTo B.State.eq (B.behaviour machine.now) (B.sharing machine.now) named.new state (length forms.now.edges.items) changes.items) }
    ensures names { OnOk result (StillNames named.old named.new) }
    ensures carried { OnOk result (AreCarried (B.sharing machine.now) named.new) }
{
    let own = &named.states.as_slice()[state];
    let met = met_by_form(alloc, machine, own, forms.reads.as_slice(), &forms.order)?;
    let mut changes = Vec::new(alloc);
    push_changes(
        alloc,
        machine,
        named,
        forms,
        state,
        opens,
        met.as_slice(),
        &mut changes,
    )?;
    Ok(changes)
}

/// Appends what the state with this number changes of the forms that its bars meet.
fn push_changes<B: Based>(
    alloc: Global,
    machine: &B,
    named: &mut Named<B::State, B::More>,
    forms: &Forms,
    state: usize,
    opens: &[bool],
    met: &[Met],
    changes: &mut Vec<Change>,
) -> Result<(), AllocError>
    requires shared { IsShared (B.behaviour machine.now) (B.sharing machine.now) named.old state forms.now }
    requires opens { AreOpened (B.sharing machine.now) named.old state forms.now opens.now }
    requires met { (s : B.State) → slice_get named.old.states state ≡ Some s → AreMetByForm ((B.sharing machine.now).bars s) forms.now.reads.items met.now }
    requires none { changes.old.items ≡ [] }
    ensures changes { OnOk result (AreChangesTo B.State.eq (B.behaviour machine.now) (B.sharing machine.now) named.new state (length forms.now.edges.items) changes.new.items) }
    ensures names { OnOk result (StillNames named.old named.new) }
    ensures carried { OnOk result (AreCarried (B.sharing machine.now) named.new) }
{
    machine.law();
    // For the laws of machines, which `start` ensures.
    let _ = machine.start();
    let mut from = 0;
    while from < met.len() {
        let bars = bars_at(alloc, met, from)?;
        let form = met[from].form as usize;
        if opens[forms.gate_of[form] as usize] {
            push_change(
                alloc,
                machine,
                named,
                forms,
                state,
                form,
                bars.as_slice(),
                changes,
            )?;
        }
        from += bars.len();
    }
    Ok(())
}

/// Appends what the state with this number changes of a form, if it changes it. `bars` are those of
/// its bars that meet the form, and it opens the form's gate.
fn push_change<B: Based>(
    alloc: Global,
    machine: &B,
    named: &mut Named<B::State, B::More>,
    forms: &Forms,
    state: usize,
    form: usize,
    bars: &[u32],
    changes: &mut Vec<Change>,
) -> Result<(), AllocError>
    requires shared { IsShared (B.behaviour machine.now) (B.sharing machine.now) named.old state forms.now }
    requires within { form < length forms.now.edges.items }
    requires opened { IsOpened (B.sharing machine.now) named.old state forms.now form }
    requires met { AreMeeting (B.sharing machine.now) named.old state forms.now form bars.now }
    requires below { AreChangesTo B.State.eq (B.behaviour machine.now) (B.sharing machine.now) named.old state form changes.old.items }
    ensures below { OnOk result (AreChangesTo B.State.eq (B.behaviour machine.now) (B.sharing machine.now) named.new state (form + 1) changes.new.items) }
    ensures names { OnOk result (StillNames named.old named.new) }
    ensures carried { OnOk result (AreCarried (B.sharing machine.now) named.new) }
{
    machine.law();
    // For the laws of machines, which `start` ensures.
    let _ = machine.start();
    let past = past_form(alloc, machine, named, forms, state, form, bars)?;
    let cells = named.cells.as_slice();
    let next = match past {
        Past::Same => return Ok(()),
        Past::Broken => None,
        Past::More(number) if is_repeated(cells, forms, form, number, changes.as_slice()) => None,
        Past::More(number) => Some(number),
    };
    let form = as_u32(form)?;
    changes.push(Change { form, next })?;
    Ok(())
}

/// What the bars of the state with this number leave past a form, where what is more due is given
/// as the number of the state to which the form leads then.
fn past_form<B: Based>(
    alloc: Global,
    machine: &B,
    named: &mut Named<B::State, B::More>,
    forms: &Forms,
    state: usize,
    form: usize,
    bars: &[u32],
) -> Result<Past<u32>, AllocError>
    requires shared { IsShared (B.behaviour machine.now) (B.sharing machine.now) named.old state forms.now }
    requires within { form < length forms.now.edges.items }
    requires met { AreMeeting (B.sharing machine.now) named.old state forms.now form bars.now }
    ensures past { IfOk result (IsPastForm (B.behaviour machine.now) (B.sharing machine.now) named.new state forms.now form) }
    ensures one_number { OnOk result (HaveOneNumber named.new.states) }
    ensures names { OnOk result (StillNames named.old named.new) }
    ensures carried { OnOk result (AreCarried (B.sharing machine.now) named.new) }
{
    let target = forms.edges[form].next;
    let own = &named.states.as_slice()[state];
    let next = &named.states.as_slice()[target as usize];
    let more = match machine.past(alloc, own, bars, &forms.reads[form], next)? {
        Past::Broken => return Ok(Past::Broken),
        Past::Same => return Ok(Past::Same),
        Past::More(more) => more,
    };
    let number = number_owing(alloc, machine, named, target, more)?;
    Ok(Past::More(number))
}

/// Whether two forms are of one rule, give the same cells, and read the same characters.
fn are_alike(cells: &[Cells], forms: &Forms, one: usize, other: usize) -> bool
    requires one { one < length forms.now.edges.items }
    requires other { other < length forms.now.edges.items }
    requires reads { length forms.now.reads.items ≡ length forms.now.edges.items }
    ensures { IsTrue result ↔ AreAlike cells.now forms.now one other }
{
    let edge = forms.edges[one];
    let second = forms.edges[other];
    if edge.rule != second.rule || cells_at(cells, edge.cells) != cells_at(cells, second.cells) {
        return false;
    }
    forms.reads[one] == forms.reads[other]
}

/// Whether one of these changes gives the step that a form gives where it leads to this state.
/// `changes` are of forms before this one.
fn is_repeated(cells: &[Cells], forms: &Forms, form: usize, next: u32, changes: &[Change]) -> bool
    requires within { form < length forms.now.edges.items }
    requires reads { length forms.now.reads.items ≡ length forms.now.edges.items }
    requires ascending { DoAscend forms.now form changes.now }
    ensures { IsTrue result ↔ IsRepeated cells.now forms.now form next changes.now }
{
    let rule = forms.edges[form].rule;
    let mut left = changes.len();
    while left > 0 {
        left -= 1;
        let change = changes[left];
        let earlier = change.form as usize;
        // Steps that are the same are of one rule, so changes of lesser rules aren't compared.
        if forms.edges[earlier].rule != rule {
            return false;
        }
        if change.next == Some(next) && are_alike(cells, forms, earlier, form) {
            return true;
        }
    }
    false
}

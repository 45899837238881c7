//! Which forms the bars of a state meet.
ghost use Rattle.std.specs.Prelude.{◌≡◌, ◌<◌, ◌++◌, All, IfOk, OnOk, length, map};
ghost use Rattle.std.specs.List.{range_with_len};
ghost use Rattle.brl_contexts.specs.Forms.{HasAll};
ghost use Rattle.brl_contexts.specs.Met.{AreBarsAt, AreMetByForm, met_at, met_in};
ghost use Rattle.brl_pairs.specs.Order.{IsOrderOf, places_of};

use brl_cells::Chars;
use brl_pairs::{Around, Based, Order, as_u32};
use std::alloc::{AllocError, Global};

/// A form, by its number, and a bar of a state that meets what it reads, by its number.
#[derive(Clone, Copy)]
pub struct Met {
    pub form: u32,
    pub bar: u32,
}

/// The forms that the bars of a state meet, each with the bar, bar by bar. `reads` has what the
/// forms read, by their numbers, and `order` has these in order.
pub fn all_met<B: Based>(
    alloc: Global,
    machine: &B,
    state: &B::State,
    reads: &[Chars],
    order: &Order,
) -> Result<Vec<Met>, AllocError>
    requires { IsOrderOf reads.now order.now }
    ensures { IfOk result (λ found. found.items ≡ met_in ((B.sharing machine.now).bars state.now) reads.now order.now.numbers.items) }
{
    let mut found = Vec::new(alloc);
    let mut bar = 0;
    while let Some(chars) = machine.bar(state, bar) {
        let number = as_u32(bar)?;
        let around = order.around(alloc, reads, chars)?;
        push_met(order.numbers.as_slice(), &around, number, &mut found)?;
        bar += 1;
    }
    Ok(found)
}

/// Appends the forms at the places around a bar.
fn push_met(
    numbers: &[u32],
    around: &Around,
    bar: u32,
    found: &mut Vec<Met>,
) -> Result<(), AllocError>
    requires { All (λ place. place < length numbers.now) (places_of around.now) }
    ensures { OnOk result (found.new.items ≡ found.old.items ++ map (met_at numbers.now bar) (places_of around.now)) }
{
    push_at(numbers, around.shorter.as_slice(), bar, found)?;
    push_from(numbers, around.from, around.count, bar, found)
}

/// Appends the forms at these places.
fn push_at(
    numbers: &[u32],
    places: &[u32],
    bar: u32,
    found: &mut Vec<Met>,
) -> Result<(), AllocError>
    requires { All (λ place. place < length numbers.now) places.now }
    ensures { OnOk result (found.new.items ≡ found.old.items ++ map (met_at numbers.now bar) places.now) }
{
    for place in places {
        let form = numbers[*place as usize];
        found.push(Met { form, bar })?;
    }
    Ok(())
}

/// Appends the forms at this many places from one on.
fn push_from(
    numbers: &[u32],
    from: usize,
    count: usize,
    bar: u32,
    found: &mut Vec<Met>,
) -> Result<(), AllocError>
    requires { All (λ place. place < length numbers.now) (range_with_len from count) }
    ensures { OnOk result (found.new.items ≡ found.old.items ++ map (met_at numbers.now bar) (range_with_len from count)) }
{
    for after in 0..count {
        let form = numbers[from + after];
        found.push(Met { form, bar })?;
    }
    Ok(())
}

/// The forms that the bars of a state meet, each with its bars, ascending: by ascending form.
/// `order` has each form once.
pub fn met_by_form<B: Based>(
    alloc: Global,
    machine: &B,
    state: &B::State,
    reads: &[Chars],
    order: &Order,
) -> Result<Vec<Met>, AllocError>
    requires order { IsOrderOf reads.now order.now }
    requires all { HasAll (length reads.now) order.now.numbers.items }
    ensures { IfOk result (λ found. AreMetByForm ((B.sharing machine.now).bars state.now) reads.now found.items) }
{
    let mut found = all_met(alloc, machine, state, reads, order)?;
    found.sort_by_key(|met| met.form)?;
    Ok(found)
}

/// The bars that meet the form at a place, where its first one is.
pub fn bars_at(alloc: Global, met: &[Met], from: usize) -> Result<Vec<u32>, AllocError>
    requires within { from < length met.now }
    ensures { IfOk result (λ bars. AreBarsAt met.now from bars.items) }
{
    let form = met[from].form;
    let mut bars = Vec::new(alloc);
    let mut next = from;
    while next < met.len() && met[next].form == form {
        bars.push(met[next].bar)?;
        next += 1;
    }
    Ok(bars)
}

//! Sequences of numbers in ascending order. Those that begin a given one are a chain before its
//! place, and those that begin with it follow its place. So they are looked up: what splits with
//! cells, what follows a lead, and what bars meet.
ghost use Rattle.std.specs.Prelude.{◌≡◌, ◌<◌, ◌≤◌, ℕ, IfOk, filter, length, map, nat_eq, true, false};
ghost use Rattle.std.specs.List.{range_with_len, starts_with};
ghost use Rattle.brl_pairs.specs.Order.{AreBeginnings, AreInOrder, IsCutAt, IsLastBeginning, IsOrderOf, all_at, at as sequence_at, is_low as does_low, places_around, places_of};
ghost use Rattle.brl_pairs.specs.Sorted.{is_before};

use crate::Sequence;
use crate::sorted::as_u32;
use std::alloc::{AllocError, Global};

/// Sequences in ascending order, each by its number among those that are kept elsewhere. Some may
/// be equal.
#[derive(Drop)]
pub struct Order {
    /// The number of the sequence at each place, from 0.
    pub numbers: Vec<u32>,
    /// By place, one more than the last place before it whose sequence begins its own; 0 if there
    /// is none.
    pub shorter: Vec<u32>,
}

/// The places of the sequences that begin a key, or begin with it, from 0.
#[derive(Drop)]
pub struct Around {
    /// The places before the key's whose sequences begin it, ascending.
    pub shorter: Vec<u32>,
    /// The first place whose sequence doesn't come before the key.
    pub from: usize,
    /// The number of the places from there on whose sequences begin with the key.
    pub count: usize,
}

/// The sequence at a place.
fn at<'a, W: Sequence>(kept: &'a [W], numbers: &[u32], place: usize) -> &'a W
    requires in_order { AreInOrder (map W.numbers kept.now) numbers.now }
    requires within { place < length numbers.now }
    ensures { W.numbers result.now ≡ sequence_at (all_at (map W.numbers kept.now) numbers.now) place }
{
    &kept[numbers[place] as usize]
}

/// Whether the sequence at a place comes before the key or, where this is asked, begins with it.
fn is_low<W: Sequence>(kept: &[W], numbers: &[u32], place: usize, key: &W, begins: bool) -> bool
    requires in_order { AreInOrder (map W.numbers kept.now) numbers.now }
    requires within { place < length numbers.now }
    ensures { result ≡ does_low begins (W.numbers key.now) (sequence_at (all_at (map W.numbers kept.now) numbers.now) place) }
{
    let own = at(kept, numbers, place);
    if begins {
        return own.begins_with(key);
    }
    own.compare(key).is_lt()
}

/// The first place from here on whose sequence doesn't come before the key or, where this is asked,
/// doesn't begin with it; then none of them comes before the key.
fn first_place<W: Sequence>(
    kept: &[W],
    numbers: &[u32],
    from: usize,
    key: &W,
    begins: bool,
) -> usize
    requires in_order { AreInOrder (map W.numbers kept.now) numbers.now }
    requires within { from ≤ length numbers.now }
    requires none_before { begins ≡ true → (place : ℕ) → from ≤ place → place < length numbers.now →
        is_before (sequence_at (all_at (map W.numbers kept.now) numbers.now) place) (W.numbers key.now) ≡ false }
    ensures { IsCutAt (λ place. does_low begins (W.numbers key.now) (sequence_at (all_at (map W.numbers kept.now) numbers.now) place))
        from (length numbers.now) result }
{
    let mut low = from;
    let mut high = numbers.len();
    while low < high {
        let middle = low + (high - low) / 2;
        if is_low(kept, numbers, middle, key, begins) {
            low = middle + 1;
        } else {
            high = middle;
        }
    }
    low
}

/// One more than the last of the first places, this many, whose sequence begins the key, from those
/// that are known of the places before; 0 where there is none.
fn last_beginning<W: Sequence>(
    kept: &[W],
    numbers: &[u32],
    shorter: &[u32],
    end: usize,
    key: &W,
) -> usize
    requires in_order { AreInOrder (map W.numbers kept.now) numbers.now }
    requires beginnings { AreBeginnings (all_at (map W.numbers kept.now) numbers.now) shorter.now }
    requires known { end ≤ length shorter.now }
    requires within { end ≤ length numbers.now }
    requires none_after { (place : ℕ) → place < end →
        is_before (W.numbers key.now) (sequence_at (all_at (map W.numbers kept.now) numbers.now) place) ≡ false }
    ensures { IsLastBeginning (all_at (map W.numbers kept.now) numbers.now) (W.numbers key.now) end result }
{
    let mut last = end;
    while last > 0 && !key.begins_with(at(kept, numbers, last - 1)) {
        last = shorter[last - 1] as usize;
    }
    last
}

/// The places before this one whose sequences begin the key, ascending.
fn beginning<W: Sequence>(
    alloc: Global,
    kept: &[W],
    order: &Order,
    end: usize,
    key: &W,
) -> Result<Vec<u32>, AllocError>
    requires order { IsOrderOf (map W.numbers kept.now) order.now }
    requires within { end ≤ length order.now.numbers.items }
    requires none_after { (place : ℕ) → place < end →
        is_before (W.numbers key.now) (sequence_at (all_at (map W.numbers kept.now) order.now.numbers.items) place) ≡ false }
    ensures { IfOk result (λ found. found.items ≡ filter
        (λ place. starts_with nat_eq (W.numbers key.now) (sequence_at (all_at (map W.numbers kept.now) order.now.numbers.items) place)) (range_with_len 0 end)) }
{
    let numbers = order.numbers.as_slice();
    let shorter = order.shorter.as_slice();
    let mut found = Vec::new(alloc);
    let mut last = last_beginning(kept, numbers, shorter, end, key);
    while last > 0 {
        let place = as_u32(last - 1)?;
        found.push(place)?;
        last = shorter[last - 1] as usize;
    }
    found.reverse();
    Ok(found)
}

impl Order {
    /// The order of sequences that ascend.
    pub fn new<W: Sequence>(
        alloc: Global,
        kept: &[W],
        numbers: Vec<u32>,
    ) -> Result<Order, AllocError>
        requires { AreInOrder (map W.numbers kept.now) numbers.items }
        ensures order { IfOk result (IsOrderOf (map W.numbers kept.now)) }
        ensures numbers { IfOk result (λ order. order.numbers.items ≡ numbers.items) }
    {
        let shorter = beginnings(alloc, kept, numbers.as_slice())?;
        Ok(Order { numbers, shorter })
    }

    /// The places of the sequences that begin a key or begin with it, ascending. Those that begin
    /// it are found one from the other, and the others by halving, so no others are read.
    pub fn around<W: Sequence>(
        &self,
        alloc: Global,
        kept: &[W],
        key: &W,
    ) -> Result<Around, AllocError>
        requires { IsOrderOf (map W.numbers kept.now) self.now }
        ensures { IfOk result (λ around.
            places_of around ≡ places_around (all_at (map W.numbers kept.now) self.now.numbers.items) (W.numbers key.now)) }
    {
        let numbers = self.numbers.as_slice();
        let from = first_place(kept, numbers, 0, key, false);
        let end = first_place(kept, numbers, from, key, true);
        let shorter = beginning(alloc, kept, self, from, key)?;
        Ok(Around {
            shorter,
            from,
            count: end - from,
        })
    }
}

/// For each place one more than the last place before it whose sequence begins its own.
fn beginnings<W: Sequence>(
    alloc: Global,
    kept: &[W],
    numbers: &[u32],
) -> Result<Vec<u32>, AllocError>
    requires { AreInOrder (map W.numbers kept.now) numbers.now }
    ensures many { IfOk result (λ shorter. length shorter.items ≡ length numbers.now) }
    ensures beginnings { IfOk result (λ shorter. AreBeginnings (all_at (map W.numbers kept.now) numbers.now) shorter.items) }
{
    let mut shorter = Vec::with_capacity(alloc, numbers.len())?;
    for place in 0..numbers.len() {
        let own = at(kept, numbers, place);
        let last = last_beginning(kept, numbers, shorter.as_slice(), place, own);
        let number = as_u32(last)?;
        shorter.push(number)?;
    }
    Ok(shorter)
}

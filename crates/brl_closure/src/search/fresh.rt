//! Parts of a state's steps that aren't kept yet.
ghost use Rattle.std.specs.Prelude.{◌≡◌, ◌⊎◌, ◌↔◌, ◌<◌, ℕ, [], map, All, IfNone, IfOk, IfSome, IsSome, OnOk, None, Some, length, slice_get};
ghost use Rattle.std.specs.Global.{Vec as VecValue};
ghost use Rattle.brl_parts.specs.Parts.{IsKept};
ghost use Rattle.brl_pairs.specs.declared.edge.ListedEdge.{ListedEdge as EdgeValue};
ghost use Rattle.brl_closure.specs.Fresh.{HasStepLeft, HaveNumbers, IsOneOf, IsWithin, number_at};

use brl_pairs::{Key, ListedEdge, Step};
use brl_parts::Parts;
use std::alloc::{AllocError, Global};

/// A part that isn't kept yet: the edges of its first steps, and its other steps, the last one
/// first. New parts take their steps by turns (DECISIONS, 'Parts in a search').
#[derive(Drop)]
pub struct Fresh<S: Key, P: Key> {
    pub part: P,
    pub edges: Vec<ListedEdge>,
    pub left: Vec<Step<S>>,
}

/// Where a part is: its number among those that are kept, or its place among those that aren't yet.
#[derive(Clone, Copy)]
pub enum Place {
    Known(usize),
    New(usize),
}

/// The parts of a state's steps: where each is, and those that aren't kept yet.
#[derive(Drop)]
pub struct Parting<S: Key, P: Key> {
    pub places: Vec<Place>,
    pub fresh: Vec<Fresh<S, P>>,
}

/// The next step of one of the parts.
#[derive(Clone, Copy)]
struct Next {
    rule: u32,
    place: usize,
}

/// The next step with the lesser rule, of `least` and that of the part at `place`, which has `rule`
/// if a step is left there. It is `least` where both rules are the same.
fn lesser(least: Option<Next>, rule: Option<u32>, place: usize) -> Option<Next>
    ensures some { IfSome result (λ next. (least ≡ Some next) ⊎ ((next.place ≡ place) × IsSome rule)) }
    ensures none { IfNone result ((least ≡ None) × (IsSome rule → ⊥)) }
{
    let Some(rule) = rule else {
        return least;
    };
    match least {
        Some(next) if next.rule <= rule => least,
        _ => Some(Next { rule, place }),
    }
}

/// The rule of the next step of a part, if one is left.
fn next_rule<S: Key, P: Key>(part: &Fresh<S, P>) -> Option<u32>
    ensures { IsSome result ↔ (0 < length part.now.left.items) }
{
    match part.left.last() {
        Some(step) => Some(step.rule),
        None => None,
    }
}

/// The place of the part whose next step has the least rule; of several the first. `None` where no
/// step is left.
pub fn next_of<S: Key, P: Key>(fresh: &[Fresh<S, P>]) -> Option<usize>
    ensures some { IfSome result (HasStepLeft fresh.now) }
    ensures none { IfNone result (All (λ f. f.left.items ≡ []) fresh.now) }
{
    let mut least = None;
    for (place, part) in fresh.iter().enumerate() {
        least = lesser(least, next_rule(part), place);
    }
    match least {
        Some(next) => Some(next.place),
        None => None,
    }
}

/// Keeps these parts, and returns their numbers.
pub fn keep_parts<S: Key, P: Key>(
    alloc: Global,
    parts: &mut Parts<P>,
    fresh: Vec<Fresh<S, P>>,
) -> Result<Vec<usize>, AllocError>
    ensures numbers { IfOk result (λ numbers. HaveNumbers parts.new.parts fresh.items numbers.items) }
    ensures kept { OnOk result ((k : ℕ) (p : P) (own : VecValue EdgeValue) → IsKept parts.new k p own → IsKept parts.old k p own ⊎ IsOneOf fresh.items p own) }
    ensures stays { OnOk result ((k : ℕ) (p : P) → slice_get parts.old.parts k ≡ Some p → slice_get parts.new.parts k ≡ Some p) }
{
    let mut numbers = Vec::with_capacity(alloc, fresh.len())?;
    for part in fresh {
        let number = parts.add(part.part, part.edges)?;
        numbers.push(number)?;
    }
    Ok(numbers)
}

/// The numbers of the parts at these places, where those that weren't kept have these numbers now.
pub fn numbers_of(
    alloc: Global,
    places: &[Place],
    fresh: &[usize],
) -> Result<Vec<usize>, AllocError>
    requires { All (IsWithin (length fresh.now)) places.now }
    ensures { IfOk result (λ numbers. numbers.items ≡ map (number_at fresh.now) places.now) }
{
    let mut numbers = Vec::with_capacity(alloc, places.len())?;
    for place in places {
        numbers.push(match place {
            Place::Known(number) => *number,
            Place::New(place) => fresh[*place],
        })?;
    }
    Ok(numbers)
}

//! Where the characters with a fold are among those that may come next.
ghost use Rattle.std.specs.Prelude.{◌≡◌, ◌≢◌, ◌<◌, ◌≤◌, filter, length, slice_index_or, IfOk};
ghost use Rattle.std.specs.List.{AllWithin};
ghost use Rattle.brl_dues.specs.ByFold.{has_fold, places_from, AreByFold};
ghost use Rattle.std.specs.List.Sorted.{IsNonDecreasingBy};
ghost use Rattle.brl_dues.specs.declared.folds.Place.{Place as PlaceValue};

use crate::letter::Letter;
use std::alloc::{AllocError, Global};

/// The place of a character among those that may come next, from 0, and its fold.
#[derive(Clone, Copy)]
pub struct Place {
    pub fold: char,
    pub number: usize,
}

/// The places of these characters by their folds; of one fold, in order.
pub fn by_fold(alloc: Global, letters: &[Letter<'_>]) -> Result<Vec<Place>, AllocError>
    ensures { IfOk result (λ places. AreByFold places.items letters.now) }
{
    let mut places = places_of(alloc, letters)?;
    places.sort_by_key(|place| place.fold)?;
    Ok(places)
}

/// The places of these characters, in order.
fn places_of(alloc: Global, letters: &[Letter<'_>]) -> Result<Vec<Place>, AllocError>
    ensures { IfOk result (λ places. places.items ≡ places_from 0 letters.now) }
{
    let mut places = Vec::with_capacity(alloc, letters.len())?;
    for (number, letter) in letters.iter().enumerate() {
        let fold = letter.fold();
        places.push(Place { fold, number })?;
    }
    Ok(places)
}

/// The places that have this fold, of places in the order of their folds.
pub fn with_fold(fold: char, places: &[Place]) -> &[Place]
    requires { IsNonDecreasingBy (λ (place : PlaceValue). place.fold) places.now }
    ensures { result.now ≡ filter (has_fold fold) places.now }
{
    let from = &places[places.partition_point(|place| place.fold < fold)..];
    &from[..count_of(fold, from)]
}

/// The number of places with this fold before the first with another one.
fn count_of(fold: char, places: &[Place]) -> usize
    ensures bound { result ≤ length places.now }
    ensures before { AllWithin (λ (place : PlaceValue). place.fold ≡ fold) places.now 0 result }
    ensures other { (d : PlaceValue) → result < length places.now → (slice_index_or places.now result d).fold ≢ fold }
{
    for (count, place) in places.iter().enumerate() {
        if place.fold != fold {
            return count;
        }
    }
    places.len()
}

//! Where the bars of a state stand that begin with a character.
ghost use Rattle.std.specs.Prelude.{◌≡◌, ◌==◌, ◌<◌, ◌≤◌, ℕ, false, true, filter, length, map, slice_index_or, vec_len, IfOk, if◌then◌else◌};
ghost use Rattle.std.specs.List.{AllWithin};
ghost use Rattle.std.specs.Option.{option_map_or};
ghost use Rattle.brl_dues.specs.Capitals.{letters};
ghost use Rattle.brl_dues.specs.Letters.{bars_from};
ghost use Rattle.brl_dues.specs.Starts.{first_place, starts};
ghost use Rattle.brl_states.specs.Order.{AreDues};
ghost use Rattle.brl_states.specs.declared.due.Due.{Due as DueValue};

use brl_rules::Table;
use brl_states::Due;
use std::alloc::{AllocError, Global};

/// Of each character of a table, by its number, the place of the first bar that begins with it, and
/// the number of dues where there is none.
pub fn starts_of(alloc: Global, table: &Table, dues: &[Due]) -> Result<Vec<usize>, AllocError>
    ensures { IfOk result (λ places. places.items ≡ starts table.now dues.now) }
{
    let mut places = vec![in alloc; dues.len(); table.char_count()]?;
    for done in 0..dues.len() {
        let place = dues.len() - 1 - done;
        put_start(table, &dues[place], place, &mut places);
    }
    Ok(places)
}

/// Puts the place of a due for the character that it begins with, if the due is a bar.
fn put_start(table: &Table, due: &Due, place: usize, places: &mut Vec<usize>)
    requires { vec_len places.old ≡ length table.now.characters }
    ensures { (later : ℕ → ℕ) → places.old.items ≡ map later (letters table.now) →
        places.new.items ≡ map (λ c. if bars_from c due.now then place else later c) (letters table.now) }
{
    table.law();
    let Some(first) = first_char(due) else {
        return;
    };
    if let Some(info) = table.info(first) {
        places[info.number as usize] = place;
    }
}

/// The first character of a bar. `None` for a need.
fn first_char(due: &Due) -> Option<char>
    ensures { (c : ℕ) → bars_from c due.now ≡ option_map_or (λ first. first == c) result false }
{
    match due {
        Due::Need(_) => None,
        Due::Bar(chars, _) => chars.as_slice().first().copied(),
    }
}

/// The bars of some dues that begin with a character, where the first of them is at this place.
/// They are next to each other.
pub fn bars_at(character: char, start: usize, dues: &[Due]) -> &[Due]
    requires dues { AreDues dues.now }
    requires start { start ≡ first_place (bars_from character) dues.now }
    ensures { result.now ≡ filter (bars_from character) dues.now }
{
    let from = &dues[start..];
    &from[..count_of(character, from)]
}

/// The number of bars that begin with a character before the first other due.
fn count_of(character: char, dues: &[Due]) -> usize
    ensures bound { result ≤ length dues.now }
    ensures before { AllWithin (λ (due : DueValue). bars_from character due ≡ true) dues.now 0 result }
    ensures other { (d : DueValue) → result < length dues.now → bars_from character (slice_index_or dues.now result d) ≡ false }
{
    for (count, due) in dues.iter().enumerate() {
        if !is_from(character, due) {
            return count;
        }
    }
    dues.len()
}

/// Whether a due is a bar that begins with a character.
fn is_from(character: char, due: &Due) -> bool
    ensures { result ≡ bars_from character due.now }
{
    first_char(due) == Some(character)
}

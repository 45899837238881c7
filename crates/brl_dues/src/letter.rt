//! The characters that may come next in a state, each with the state's bars that begin with it.
ghost use Rattle.std.specs.Prelude.{◌≡◌, ℕ, [], ◌∷◌, ◌++◌, filter, All, IfOk, IsTrue, OnOk, if◌then◌else◌};
ghost use Rattle.brl_rules.specs.TableView.{TableView};
ghost use Rattle.brl_rules.specs.Text.{fold_of as fold};
ghost use Rattle.brl_dues.specs.Contexts.{is_bar};
ghost use Rattle.brl_dues.specs.Letters.{bars_from, first_of as first_due_of, lets_in as does_let_in, may_come as does_come, new_letter, new_letters};
ghost use Rattle.brl_states.specs.Order.{is_proper, AreDues};

use crate::carry::class_of;
use crate::rules_above::RulesAbove;
use brl_rules::{Cond, Table, holds};
use brl_states::Due;
use std::alloc::{AllocError, Global};
use std::marker::Model;

/// A character that may come next, the state's bars that begin with it, and the rules that begin
/// with it among those that were passed, which are ranked above the others.
#[derive(Drop)]
pub struct Letter<'a> {
    character: char,
    fold: char,
    bars: &'a [Due],
    above: RulesAbove<'a>,
}

impl<'a> Model for Letter<'a> {
    ghost use Rattle.std.specs.Prelude.{All, IsTrue};
    ghost use Rattle.brl_dues.specs.LetterView.{LetterView};
    ghost use Rattle.brl_states.specs.Order.{is_proper};

    ghost Value = { LetterView };

    ghost view = { λ l. record { character = l.character; fold = l.fold; bars = l.bars.now; above = l.above } };

    ghost invariant = { λ l. All (λ due. IsTrue (is_proper due)) l.bars.now };
}

impl<'a> Letter<'a> {
    /// A character with this fold and these bars, with no rules above.
    pub fn new(alloc: Global, character: char, fold: char, bars: &'a [Due]) -> Letter<'a>
        requires { All (λ due. IsTrue (is_proper due)) bars.now }
        ensures { result ≡ record { character = character; fold = fold; bars = bars.now; above = [] } }
    {
        Letter {
            character,
            fold,
            bars,
            above: RulesAbove::new(alloc),
        }
    }

    /// The character.
    pub fn character(&self) -> char
        ensures { result ≡ self.now.character }
    {
        self.character
    }

    /// Its fold.
    pub fn fold(&self) -> char
        ensures { result ≡ self.now.fold }
    {
        self.fold
    }

    /// The bars that begin with it.
    pub fn bars(&self) -> &[Due]
        ensures bars { result.now ≡ self.now.bars }
        ensures proper { All (λ due. IsTrue (is_proper due)) result.now }
    {
        self.bars
    }

    /// The rules above.
    pub fn above(&self) -> &RulesAbove<'a>
        ensures { result.now ≡ self.now.above }
    {
        &self.above
    }

    /// Adds a rule to those above: its other characters, and its after-condition.
    pub fn push(&mut self, others: &'a [char], after: Cond) -> Result<(), AllocError>
        ensures { OnOk result (self.new ≡ record self.old { above = self.old.above ++ (others.now, after) ∷ [] }) }
    {
        self.above.push(others, after)
    }
}

/// The characters of a table that no due refuses, by their numbers, with their bars and no rules
/// above.
pub fn new_letters_of<'a>(
    alloc: Global,
    table: &Table,
    dues: &'a [Due],
) -> Result<Vec<Letter<'a>>, AllocError>
    requires { AreDues dues.now }
    ensures { IfOk result (λ found. found.items ≡ new_letters table.now dues.now) }
{
    let mut found = Vec::new(alloc);
    for number in 0..table.char_count() {
        push_letter(alloc, table, table.char_at(number as u32), dues, &mut found)?;
    }
    Ok(found)
}

/// Appends a character with its bars, if no due refuses it.
fn push_letter<'a>(
    alloc: Global,
    table: &Table,
    character: char,
    dues: &'a [Due],
    found: &mut Vec<Letter<'a>>,
) -> Result<(), AllocError>
    requires { AreDues dues.now }
    ensures { OnOk result (found.new.items ≡ found.old.items
        ++ (if does_come table.now dues.now character then new_letter table.now dues.now character ∷ [] else [])) }
{
    if may_come(table, character, dues) {
        found.push(new_letter_of(alloc, table, character, dues))?;
    }
    Ok(())
}

/// A character with its bars among these dues and no rules above.
pub fn new_letter_of<'a>(
    alloc: Global,
    table: &Table,
    character: char,
    dues: &'a [Due],
) -> Letter<'a>
    requires { AreDues dues.now }
    ensures { result ≡ new_letter table.now dues.now character }
{
    let fold = fold_of(table, character);
    let bars = bars_with(character, dues);
    Letter::new(alloc, character, fold, bars)
}

/// Whether no due refuses a character.
fn may_come(table: &Table, character: char, dues: &[Due]) -> bool
    requires { AreDues dues.now }
    ensures { result ≡ does_come table.now dues.now character }
{
    all_let_in(table, character, needs_of(dues))
}

/// The needs of some dues, which come first. Only these can refuse a character.
pub fn needs_of(dues: &[Due]) -> &[Due]
    requires { AreDues dues.now }
    ensures { (t : TableView) (c : ℕ) → does_come t result.now c ≡ does_come t dues.now c }
{
    &dues[..dues.partition_point(|due| first_of(due) == 0)]
}

/// The bars of some dues, which come last.
pub fn bars_of(dues: &[Due]) -> &[Due]
    requires { AreDues dues.now }
    ensures bars { result.now ≡ filter is_bar dues.now }
    ensures proper { All (λ due. IsTrue (is_proper due)) result.now }
{
    &dues[dues.partition_point(|due| first_of(due) == 0)..]
}

/// Whether each of some dues allows a character to come next.
pub fn all_let_in(table: &Table, character: char, dues: &[Due]) -> bool
    ensures { result ≡ does_come table.now dues.now character }
{
    dues.iter().all(|due| lets_in(table, character, due))
}

/// The bars of some dues that begin with a character. They stand together.
fn bars_with(character: char, dues: &[Due]) -> &[Due]
    requires { AreDues dues.now }
    ensures bars { result.now ≡ filter (bars_from character) dues.now }
    ensures proper { All (λ due. IsTrue (is_proper due)) result.now }
{
    let before = character as u32;
    let from = &dues[dues.partition_point(|due| first_of(due) <= before)..];
    &from[..from.partition_point(|due| first_of(due) <= before + 1)]
}

/// The first character of a bar, from 1 on, and 0 for a need.
fn first_of(due: &Due) -> u32
    ensures { result ≡ first_due_of due.now }
{
    match due {
        Due::Need(_) => 0,
        Due::Bar(chars, _) => match chars.as_slice().first() {
            Some(first) => *first as u32 + 1,
            None => 0,
        },
    }
}

/// Whether a due allows a character to come next: a bar always does.
fn lets_in(table: &Table, character: char, due: &Due) -> bool
    ensures { result ≡ does_let_in table.now character due.now }
{
    match due {
        Due::Need(cond) => holds(*cond, class_of(table, character)),
        Due::Bar(_, _) => true,
    }
}

/// The fold of a character: itself where the table doesn't define it.
pub fn fold_of(table: &Table, character: char) -> char
    ensures { result ≡ fold table.now character }
{
    match table.info(character) {
        Some(info) => info.fold,
        None => character,
    }
}

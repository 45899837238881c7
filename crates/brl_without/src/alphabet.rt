//! The characters of which texts are made.
ghost use Rattle.std.specs.Prelude.{◌≡◌, IfErr, IfOk, None, OnOk};
ghost use Rattle.brl_failure.specs.Failure.{IfFault};
ghost use Rattle.brl_without.specs.Alphabet.{
  HasAll,
  IsEmptyOf,
  IsLacking,
  IsUndefinedOf,
  alphabet_view,
  characters_outside,
  empty_among,
  first_empty as empty_first,
  is_in_one as is_in_one_of,
  left_out_by,
  table_characters as characters_of,
};
ghost use Rattle.brl_without.specs.Tables.{AreDefined};

use crate::left_out::LeftOut;
use crate::span::{Span, spell_span};
use crate::undefined::{Undefined, check_defined};
use brl_failure::{Failure, raise};
use brl_rules::Table;
use std::alloc::{AllocError, Global};

/// The characters of which texts are made.
#[derive(Debug, Drop)]
pub enum Alphabet {
    /// All characters of a table but these.
    Without(Vec<char>),
    /// The characters of a table that are in one of these spans.
    Only(Vec<Span>),
}

impl Alphabet {
    /// The characters of a table that are left out, if it has those that are asked for; else the
    /// fault names the first that it lacks. They are in the order in which they were given, or for
    /// spans in that of their first definitions. The table must define each character that is to be
    /// left out, or one of each span.
    pub fn left_out(&self, alloc: Global, table: &Table) -> Result<LeftOut, Failure<Undefined>>
        ensures left_out { IfOk result (λ left_out. left_out ≡ left_out_by table.now (alphabet_view self.now)) }
        ensures all { OnOk result (HasAll table.now (alphabet_view self.now)) }
        ensures defined { OnOk result (AreDefined table.now (left_out_by table.now (alphabet_view self.now))) }
        ensures fault { IfErr result (IfFault (IsLacking table.now (alphabet_view self.now))) }
    {
        match self {
            Alphabet::Without(given) => all_but(alloc, table, given.as_slice()),
            Alphabet::Only(spans) => only(alloc, table, spans.as_slice()),
        }
    }
}

/// These characters are left out of a table that defines them.
fn all_but(alloc: Global, table: &Table, given: &[char]) -> Result<LeftOut, Failure<Undefined>>
    ensures left_out { IfOk result (λ left_out. left_out ≡ given.now) }
    ensures defined { OnOk result (AreDefined table.now given.now) }
    ensures fault { IfErr result (IfFault (IsUndefinedOf table.now given.now)) }
{
    let left_out = LeftOut::new(alloc, Vec::from_slice(alloc, given)?)?;
    raise(check_defined(alloc, table, &left_out), Undefined::LeftOut)?;
    Ok(left_out)
}

/// The characters of a table that are in none of these spans are left out, if each span has one.
fn only(alloc: Global, table: &Table, spans: &[Span]) -> Result<LeftOut, Failure<Undefined>>
    ensures left_out { IfOk result (λ left_out. left_out ≡ characters_outside table.now spans.now) }
    ensures all { OnOk result (empty_first table.now spans.now ≡ None) }
    ensures fault { IfErr result (IfFault (IsEmptyOf table.now spans.now)) }
{
    let mut characters = table_characters(alloc, table)?;
    if let Some(span) = first_empty(characters.as_slice(), spans) {
        return Err(Failure::Fault(Undefined::Only(spell_span(alloc, span)?)));
    }
    characters.retain(|c| !is_in_one(spans, *c));
    Ok(LeftOut::new(alloc, characters)?)
}

/// The first span that has none of these characters.
fn first_empty(characters: &[char], spans: &[Span]) -> Option<Span>
    ensures { result ≡ empty_among characters.now spans.now }
{
    spans
        .iter()
        .copied()
        .find(|span| !span.has_one_of(characters))
}

/// Whether a character is in one of these spans.
fn is_in_one(spans: &[Span], c: char) -> bool
    ensures { result ≡ is_in_one_of spans.now c }
{
    spans.iter().any(|span| span.has(c))
}

/// The characters of a table in the order of their first definitions.
pub fn table_characters(alloc: Global, table: &Table) -> Result<Vec<char>, AllocError>
    ensures { IfOk result (λ characters. characters.items ≡ characters_of table.now) }
{
    let mut characters = Vec::new(alloc);
    for number in 0..table.char_count() as u32 {
        characters.push(table.char_at(number))?;
    }
    Ok(characters)
}

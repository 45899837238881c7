//! The kinds of a table's characters.
ghost use Rattle.std.specs.Prelude.{◌≡◌, ◌++◌, IfOk};
ghost use Rattle.std.specs.List.{list_any};
ghost use Rattle.brl_clashes.specs.Kinds.{
  is_of as is_character_of,
  kept,
  kind_of as kind_of_classes,
  kinds as all_kinds,
  kinds_among as among,
  number_of,
  of_kinds as are_of_kinds,
  or_letter,
};
ghost use Rattle.brl_clashes.specs.Columns.{kind_name};

use bitflags::Flags;
use brl_rules::{Class, Table};
use brl_without::{LeftOut, table_characters};
use std::alloc::{AllocError, Global};

/// The kind of a character: what it is first of these, in the order of capitals, digits, letters
/// and blanks, marks.
#[derive(Clone, Copy)]
pub enum Kind {
    /// A letter that is no capital, or a blank.
    Letter,
    Digit,
    Capital,
    /// A punctuation mark.
    Mark,
    Other,
}

impl Kind {
    /// The number of a kind in the order of sections.
    fn number(self) -> u8
        ensures { result ≡ number_of self }
    {
        match self {
            Kind::Letter => 0,
            Kind::Digit => 1,
            Kind::Capital => 2,
            Kind::Mark => 3,
            Kind::Other => 4,
        }
    }

    /// The texts of the section of a kind.
    pub(crate) fn name(self) -> &'static str
        ensures { result.now ≡ kind_name self }
    {
        match self {
            Kind::Letter => "small letters",
            Kind::Digit => "with digits",
            Kind::Capital => "with capitals",
            Kind::Mark => "with marks",
            Kind::Other => "all characters",
        }
    }
}

/// The kinds in the order of sections.
fn kinds() -> [Kind; 5]
    ensures { result ≡ all_kinds }
{
    [
        Kind::Letter,
        Kind::Digit,
        Kind::Capital,
        Kind::Mark,
        Kind::Other,
    ]
}

/// The kind of a character of these classes.
fn kind_of(classes: Class) -> Kind
    ensures { result ≡ kind_of_classes classes }
{
    if classes.intersects(Class::UPPERCASE) {
        return Kind::Capital;
    }
    if classes.intersects(Class::DIGIT) {
        return Kind::Digit;
    }
    if classes.intersects(Class::LETTER) || classes.intersects(Class::SPACE) {
        return Kind::Letter;
    }
    if classes.intersects(Class::PUNCTUATION) {
        return Kind::Mark;
    }
    Kind::Other
}

/// Whether a character of a table is of a kind.
pub fn is_of(table: &Table, kind: Kind, character: char) -> bool
    ensures { result ≡ is_character_of table.now kind character }
{
    let classes = match table.info(character) {
        Some(info) => info.classes,
        None => Class::NONE,
    };
    kind_of(classes).number() == kind.number()
}

/// Whether a character of a table is of one of these kinds.
fn is_of_one(table: &Table, kinds: &[Kind], character: char) -> bool
    ensures { result ≡ list_any (λ kind. is_character_of table.now kind character) kinds.now }
{
    kinds.iter().any(|kind| is_of(table, *kind, character))
}

/// The characters of a table that aren't left out, in the order of their first definitions.
pub fn kept_characters(
    alloc: Global,
    table: &Table,
    left_out: &LeftOut,
) -> Result<Vec<char>, AllocError>
    ensures { IfOk result (λ characters. characters.items ≡ kept table.now left_out.now) }
{
    let mut characters = table_characters(alloc, table)?;
    characters.retain(|c| !left_out.contains(*c));
    Ok(characters)
}

/// The kinds for which a list has sections, where these characters of the table aren't left out.
pub fn section_kinds(
    alloc: Global,
    table: &Table,
    characters: &[char],
) -> Result<Vec<Kind>, AllocError>
    ensures { IfOk result (λ kinds. kinds.items ≡ or_letter (among table.now characters.now)) }
{
    let mut found = kinds_among(alloc, table, characters)?;
    if found.is_empty() {
        found.push(Kind::Letter)?;
    }
    Ok(found)
}

/// The kinds of these characters of a table, in order.
fn kinds_among(alloc: Global, table: &Table, characters: &[char]) -> Result<Vec<Kind>, AllocError>
    ensures { IfOk result (λ kinds. kinds.items ≡ among table.now characters.now) }
{
    let mut found = Vec::from_slice(alloc, kinds().as_slice())?;
    found.retain(|kind| has_kind(table, characters, *kind));
    Ok(found)
}

/// Whether one of these characters of a table is of a kind.
fn has_kind(table: &Table, characters: &[char], kind: Kind) -> bool
    ensures { result ≡ list_any (is_character_of table.now kind) characters.now }
{
    characters.iter().any(|c| is_of(table, kind, *c))
}

/// What is left out, and after it those of these characters of a table that are of one of these
/// kinds.
pub fn left_out_and(
    alloc: Global,
    table: &Table,
    left_out: &LeftOut,
    later: &[Kind],
    characters: &[char],
) -> Result<LeftOut, AllocError>
    ensures { IfOk result (λ all. all ≡ left_out.now ++ are_of_kinds table.now later.now characters.now) }
{
    let mut more = Vec::from_slice(alloc, characters)?;
    more.retain(|c| is_of_one(table, later, *c));
    let mut given = Vec::from_slice(alloc, left_out.as_slice())?;
    given.extend_from_slice(more.as_slice())?;
    LeftOut::new(alloc, given)
}

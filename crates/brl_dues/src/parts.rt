//! The parts of a state's steps. Each has the steps that begin with one character. They depend on
//! few of the classes before, and of the dues on the bars that begin with the character alone, so
//! states share parts.
ghost use Rattle.std.specs.Prelude.{◌≡◌, [], ◌∷◌, ◌++◌, IfOk, OnOk, if◌then◌else◌};
ghost use Rattle.brl_dues.specs.Letters.{may_come as does_come};
ghost use Rattle.brl_dues.specs.Parts.{asked, asked_context, class_if as classes_if, part_with, state_parts};
ghost use Rattle.brl_states.specs.Order.{AreDues};

use crate::letter::{all_let_in, needs_of};
use crate::starts::{bars_at, starts_of};
use brl_pairs::Key;
use brl_rules::{Class, Cond, Context, Table, holds};
use brl_states::{Due, DueList, DuesState, copy_dues};
use std::alloc::{AllocError, Global};

/// The steps of a state that begin with a character. The state has no dues but bars that begin with
/// this character.
#[derive(PartialEq, Eq, Hash, Debug, Drop)]
pub struct DuesPart {
    pub state: DuesState,
    pub character: char,
}

impl Key for DuesPart {
    ghost use Rattle.brl_dues.specs.SamePart.{same_parts};

    ghost same = { same_parts };
}

/// The parts of a state's steps: one for each character that no due refuses, by their numbers.
pub fn find_parts(
    alloc: Global,
    table: &Table,
    state: &DuesState,
) -> Result<Vec<DuesPart>, AllocError>
    ensures { IfOk result (λ parts. parts.items ≡ state_parts table.now state.now) }
{
    let here = asked_of(table, state.context());
    let dues = state.dues.as_slice();
    let needs = needs_of(dues);
    // One pass over the dues in place of a search for each character.
    let starts = starts_of(alloc, table, dues)?;
    let mut parts = Vec::with_capacity(alloc, table.char_count())?;
    for number in 0..table.char_count() {
        let character = table.char_at(number as u32);
        let bars = bars_at(character, starts[number], dues);
        push_part(alloc, table, here, needs, bars, character, &mut parts)?;
    }
    Ok(parts)
}

/// What steps ask of a context. States that differ in the rest share their parts.
pub fn asked_of(table: &Table, here: Context) -> Context
    ensures { result ≡ asked_context table.now here }
{
    Context {
        classes: asked_classes(table, here.classes),
        numeric: here.numeric,
        run: here.run,
    }
}

/// What steps ask of the classes before: whether they have one of space and punctuation, digit and
/// letter, and in a table with word capitals uppercase.
fn asked_classes(table: &Table, before: Class) -> Class
    ensures { result ≡ asked table.now before }
{
    let gap = class_if(holds(Cond::Meets(Class::GAP), before), Class::SPACE);
    let digit = class_if(holds(Cond::Meets(Class::DIGIT), before), Class::DIGIT);
    let letter = class_if(holds(Cond::Meets(Class::LETTER), before), Class::LETTER);
    let is_capital = holds(Cond::Meets(Class::UPPERCASE), before);
    let upper = class_if(table.has_word_capitals() && is_capital, Class::UPPERCASE);
    Class(gap.0 | digit.0 | letter.0 | upper.0)
}

/// These classes where this is so, and else none.
fn class_if(is_so: bool, classes: Class) -> Class
    ensures { result ≡ classes_if is_so classes }
{
    if is_so { classes } else { Class::NONE }
}

/// Appends the part of a character with these bars in this context, if no need refuses it.
fn push_part(
    alloc: Global,
    table: &Table,
    here: Context,
    needs: &[Due],
    bars: &[Due],
    character: char,
    parts: &mut Vec<DuesPart>,
) -> Result<(), AllocError>
    requires { AreDues bars.now }
    ensures { OnOk result (parts.new.items ≡ parts.old.items
        ++ (if does_come table.now needs.now character then part_with here bars.now character ∷ [] else [])) }
{
    if all_let_in(table, character, needs) {
        let bars = DueList::from_vec(copy_dues(alloc, bars)?);
        let state = DuesState::from_context(here, bars);
        parts.push(DuesPart { state, character })?;
    }
    Ok(())
}

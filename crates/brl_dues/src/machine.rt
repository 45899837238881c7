//! The dues machine.
ghost use Rattle.std.specs.Prelude.{◌≡◌};
ghost use Rattle.brl_rules.specs.Text.{is_text};
ghost use Rattle.brl_rules.specs.Translation.{translation};
ghost use Rattle.brl_dues.specs.Due.{met_by_space};

use crate::cased::CasedTable;
use crate::letter::{new_letter_of, new_letters_of};
use crate::parts::{DuesPart, find_parts};
use crate::sharing::{bar_at, base_of, gate_of, opens, past, with_dues};
use crate::steps::{list_letter_steps, list_steps};
use brl_cells::Chars;
use brl_pairs::{Based, Machine, Parted, Past, Step};
use brl_rules::{Class, Context, Table, choice_laws, holds, translation_laws};
use brl_states::{Due, DueList, DuesState};
use std::alloc::{AllocError, Global};
use std::marker::Model;

/// The dues machine of a table. A contract sees the table.
#[derive(Drop)]
pub struct Dues<'a> {
    alloc: Global,
    table: &'a Table,
}

impl<'a> Model for Dues<'a> {
    ghost use Rattle.brl_rules.specs.TableView.{TableView};

    ghost Value = { TableView };

    ghost view = { λ d. d.table.now };
}

impl<'a> Dues<'a> {
    /// The dues machine of a table, whose texts and translation are the table's. No memory is
    /// allocated.
    pub fn new(alloc: Global, table: &'a Table) -> Dues<'a>
        ensures table { result ≡ table.now }
        ensures texts { (⟦<Dues<'a> as Machine>⟧.behaviour result).is_text ≡ is_text table.now }
        ensures translation { (⟦<Dues<'a> as Machine>⟧.behaviour result).translation ≡ translation table.now }
    {
        Dues { alloc, table }
    }
}

impl<'a> Machine for Dues<'a> {
    ghost use Rattle.brl_dues.specs.Steps.{dues_machine};

    type State = DuesState;

    ghost behaviour = { dues_machine };

    fn start(&self) -> DuesState {
        // The laws of the machine follow from those of the table.
        choice_laws();
        translation_laws();
        self.table.law();
        DuesState::from_context(Context::START, DueList::new(self.alloc))
    }

    fn moves(&self, alloc: Global, state: &DuesState) -> Result<Vec<Step<DuesState>>, AllocError> {
        let table = CasedTable::new(alloc, self.table)?;
        let letters = new_letters_of(alloc, self.table, state.dues.as_slice())?;
        list_steps(alloc, &table, state, letters)
    }

    fn ends(&self, state: &DuesState) -> bool {
        state.dues.as_slice().iter().all(is_met_by_space)
    }
}

impl<'a> Parted for Dues<'a> {
    ghost use Rattle.brl_dues.specs.Parts.{steps_of_part};

    type Part = DuesPart;

    ghost steps_of = { steps_of_part };

    fn parts(&self, alloc: Global, state: &DuesState) -> Result<Option<Vec<DuesPart>>, AllocError> {
        Ok(Some(find_parts(alloc, self.table, state)?))
    }

    fn part_steps(
        &self,
        alloc: Global,
        part: &DuesPart,
    ) -> Result<Vec<Step<DuesState>>, AllocError> {
        let table = CasedTable::for_letter(alloc, self.table, part.character)?;
        let dues = part.state.dues.as_slice();
        let letter = new_letter_of(alloc, self.table, part.character, dues);
        list_letter_steps(alloc, &table, &part.state, letter)
    }
}

/// The base of a state has what steps ask of its context, and no dues. A gate has the classes of
/// the first character, and needs open it.
impl<'a> Based for Dues<'a> {
    ghost use Rattle.brl_dues.specs.Sharing.{dues_sharing};

    type More = DueList;

    ghost sharing = { dues_sharing };

    fn law(&self) {
        self.table.law();
    }

    fn base(&self, alloc: Global, state: &DuesState) -> Result<Option<DuesState>, AllocError> {
        Ok(Some(base_of(alloc, self.table, state)))
    }

    fn gate(&self, reads: &Chars) -> u8 {
        gate_of(self.table, reads.as_slice())
    }

    fn opens(&self, state: &DuesState, gate: u8) -> bool {
        opens(state, gate)
    }

    fn bar<'s>(&self, state: &'s DuesState, number: usize) -> Option<&'s Chars> {
        bar_at(state.dues.as_slice(), number)
    }

    fn past(
        &self,
        alloc: Global,
        state: &DuesState,
        met: &[u32],
        reads: &Chars,
        next: &DuesState,
    ) -> Result<Past<DueList>, AllocError> {
        past(alloc, self.table, state, met, reads.as_slice(), next)
    }

    fn owing(
        &self,
        alloc: Global,
        next: &DuesState,
        more: &DueList,
    ) -> Result<DuesState, AllocError> {
        with_dues(alloc, next, more)
    }
}

/// Whether class space meets a due. A bar doesn't apply at the end of a text.
fn is_met_by_space(due: &Due) -> bool
    ensures { result ≡ met_by_space due.now }
{
    match due {
        Due::Need(cond) => holds(*cond, Class::SPACE),
        Due::Bar(_, _) => true,
    }
}

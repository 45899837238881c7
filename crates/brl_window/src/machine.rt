//! The window machine.
ghost use Rattle.std.specs.Prelude.{◌≡◌, ◌<◌, ◌≤◌, IfOk, OnErr, OnOk, min};
ghost use Rattle.brl_rules.specs.Text.{is_text};
ghost use Rattle.brl_rules.specs.Translation.{translation};
ghost use Rattle.brl_window.specs.Width.{start_moves};

use crate::steps::{find_steps, longest_rule, sort_steps};
use brl_cells::Chars;
use brl_pairs::{Based, Machine, Parted, Past, Step};
use brl_rules::{Context, Table, choice_laws, translation_laws};
use brl_states::WindowState;
use std::alloc::{AllocError, Global};
use std::marker::Model;
use thiserror::Error;

/// The most steps that the start may have.
const MOST_MOVES: u64 = 10_000;

/// The start of the table's window machine would have more than 10,000 steps.
#[derive(Clone, Copy, PartialEq, Eq, Debug, Error)]
#[error("W1 TooWide")]
pub struct TooWide;

/// The window machine of a table. A contract sees the table.
#[derive(Drop)]
pub struct Window<'a> {
    alloc: Global,
    table: &'a Table,
}

impl<'a> Model for Window<'a> {
    ghost use Rattle.brl_rules.specs.TableView.{TableView};

    ghost Value = { TableView };

    ghost view = { λ w. w.table.now };
}

impl<'a> Window<'a> {
    /// The window machine of a table, whose texts and translation are the table's; `TooWide` where
    /// its start would have too many steps. No memory is allocated.
    ///
    /// `TooWide` exactly where its start would have more than 10,000 steps: `n + n^2 + .. + n^k`
    /// for `n` characters, where `k` is the length of the longest rule (1 where there is none) plus
    /// one.
    pub fn new(alloc: Global, table: &'a Table) -> Result<Window<'a>, TooWide>
        ensures table { IfOk result (λ w. w ≡ table.now) }
        ensures texts { IfOk result (λ w. (⟦<Window<'a> as Machine>⟧.behaviour w).is_text ≡ is_text table.now) }
        ensures translation { IfOk result (λ w.
            (⟦<Window<'a> as Machine>⟧.behaviour w).translation ≡ translation table.now) }
        ensures ok { OnOk result (start_moves table.now ≤ 10000) }
        ensures err { OnErr result (10000 < start_moves table.now) }
    {
        if count_moves(table) > MOST_MOVES {
            return Err(TooWide);
        }
        Ok(Window { alloc, table })
    }
}

/// The number of steps from the start, or 10,001 where it is more than that.
fn count_moves(table: &Table) -> u64
    ensures { result ≡ min (start_moves table.now) 10001 }
{
    let letters = table.char_count() as u64;
    let mut moves = 0;
    for power in 0..longest_rule(table) + 1 {
        moves = (letters + letters * moves).min(MOST_MOVES + 1);
    }
    moves
}

impl<'a> Machine for Window<'a> {
    ghost use Rattle.brl_window.specs.Windows.{window_machine};

    type State = WindowState;

    ghost behaviour = { window_machine };

    fn start(&self) -> WindowState {
        // The laws of the machine follow from those of the table.
        choice_laws();
        translation_laws();
        self.table.law();
        let coming = Chars::from_vec(Vec::new(self.alloc));
        WindowState::from_context(Context::START, false, coming)
    }

    #[tactic(auto, unfolding(crate::specs::Windows::window_steps))]
    fn moves(
        &self,
        alloc: Global,
        state: &WindowState,
    ) -> Result<Vec<Step<WindowState>>, AllocError> {
        let mut found = find_steps(alloc, self.table, state)?;
        sort_steps(&mut found)?;
        Ok(found)
    }

    fn ends(&self, state: &WindowState) -> bool {
        state.coming.len() == 0
    }
}

/// It says of no state of which parts its steps are made.
impl<'a> Parted for Window<'a> {
    ghost use Rattle.std.specs.Prelude.{[]};

    type Part = bool;

    ghost steps_of = { λ w part. [] };

    fn parts(&self, _alloc: Global, _state: &WindowState) -> Result<Option<Vec<bool>>, AllocError> {
        Ok(None)
    }

    fn part_steps(
        &self,
        alloc: Global,
        _part: &bool,
    ) -> Result<Vec<Step<WindowState>>, AllocError> {
        Ok(Vec::new(alloc))
    }
}

/// It says of no state which base it has.
impl<'a> Based for Window<'a> {
    ghost use Rattle.brl_pairs.specs.Based.{nothing_shared};
    ghost use Rattle.brl_window.specs.Windows.{window_machine};

    type More = bool;

    ghost sharing = { λ w. nothing_shared (window_machine w).start };

    fn law(&self) {}

    fn base(
        &self,
        _alloc: Global,
        _state: &WindowState,
    ) -> Result<Option<WindowState>, AllocError> {
        Ok(None)
    }

    fn gate(&self, _reads: &Chars) -> u8 {
        0
    }

    fn opens(&self, _state: &WindowState, _gate: u8) -> bool {
        true
    }

    fn bar<'s>(&self, _state: &'s WindowState, _number: usize) -> Option<&'s Chars> {
        None
    }

    fn past(
        &self,
        _alloc: Global,
        _state: &WindowState,
        _met: &[u32],
        _reads: &Chars,
        _next: &WindowState,
    ) -> Result<Past<bool>, AllocError> {
        Ok(Past::Same)
    }

    fn owing(
        &self,
        _alloc: Global,
        _next: &WindowState,
        _more: &bool,
    ) -> Result<WindowState, AllocError> {
        Ok(self.start())
    }
}

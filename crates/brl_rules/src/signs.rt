//! The indicators, and the cells that a table gives them.
ghost use Rattle.std.specs.Prelude.{◌≡◌, ◌<◌, ◌≤◌, ◌↔◌, ◌++◌, ℕ, Bool, false, IsTrue, OnOk, length};
ghost use Rattle.brl_rules.specs.Indicators.{is_used, indicators_before, indicators_of, used_cells};
ghost use Rattle.brl_rules.specs.TableView.{TableView};
ghost use Rattle.brl_rules.specs.declared.signs.Sign.{Sign as SignView};
ghost use Rattle.brl_rules.specs.Signs.{cells_at, no_cells, sign_number, with_cells};

use crate::{Class, Context, Info, Table};
use bitflags::Flags;
use brl_cells::{Cell, Cells};
use std::alloc::{AllocError, Global};
use std::array;
use std::marker::Model;

/// The indicators. The manual's section "Braille Indicator Opcodes" has them.
#[derive(Clone, Copy, PartialEq, Eq, Debug)]
pub enum Sign {
    /// Before a capital.
    CapsLetter,
    /// Before the first digit of a number.
    NumSign,
    /// In a number before a character that could be read as a digit.
    NoContractSign,
    /// Before a run of capitals.
    BegCapsWord,
    /// After a run of capitals, before a letter that isn't one.
    EndCapsWord,
}

impl Sign {
    /// All indicators, by their numbers.
    pub const ALL: [Sign; 5] = [
        Sign::CapsLetter,
        Sign::NumSign,
        Sign::NoContractSign,
        Sign::BegCapsWord,
        Sign::EndCapsWord,
    ];

    /// All indicators, in the order in which they come where several are used.
    pub const ORDER: [Sign; 5] = [
        Sign::EndCapsWord,
        Sign::NoContractSign,
        Sign::NumSign,
        Sign::BegCapsWord,
        Sign::CapsLetter,
    ];

    /// The number of indicators.
    const COUNT: usize = 5;

    /// The number of the indicator, from 0.
    fn number(self) -> usize
        ensures number { result ≡ sign_number self }
        ensures small { result < 5 }
    {
        self as usize
    }
}

/// The cells of each indicator, none where it isn't defined. A contract sees a list of them, by the
/// indicators' numbers.
#[derive(Drop)]
pub struct Indicators {
    cells: [Cells; Sign::COUNT],
}

impl Model for Indicators {
    ghost use Rattle.std.specs.Prelude.{ℕ, List};

    ghost Value = { List (List ℕ) };

    ghost view = { λ s. s.cells };
}

impl Indicators {
    /// No indicator has cells. It takes no memory.
    pub fn new(alloc: Global) -> Indicators
        ensures { result ≡ no_cells }
    {
        Indicators {
            cells: array::from_fn(|_| Cells::new(alloc)),
        }
    }

    /// The cells of an indicator.
    pub fn cells(&self, sign: Sign) -> &[Cell]
        ensures { result.now ≡ cells_at self.now sign }
    {
        self.cells[sign.number()].as_slice()
    }

    /// Gives an indicator these cells; the others keep theirs.
    pub fn set(&mut self, sign: Sign, cells: Cells)
        ensures { self.new ≡ with_cells self.old sign cells }
    {
        self.cells[sign.number()] = cells;
    }

    /// Whether each indicator has at most this number of cells.
    pub fn are_few(&self, most: usize) -> bool
        ensures { IsTrue result ↔ ((sign : SignView) → length (cells_at self.now sign) ≤ most) }
    {
        self.cells.iter().all(|cells| cells.len() <= most)
    }
}

impl Table {
    /// Appends the cells of the indicators before `rest`, which begins in a run of capitals or
    /// doesn't, to `cells`. After `AllocError` some of them may be there.
    pub fn push_indicators(
        &self,
        here: Context,
        run: bool,
        rest: &[char],
        cells: &mut Vec<Cell>,
    ) -> Result<(), AllocError>
        ensures { OnOk result (cells.new.items ≡ cells.old.items ++ indicators_before self.now here run rest.now) }
    {
        let Some(first) = rest.first() else {
            return Ok(());
        };
        let Some(info) = self.info(*first) else {
            return Ok(());
        };
        self.push_used_indicators(here, run, info, cells)
    }

    /// Appends the cells of the indicators before a character with this info, which is in a run of
    /// capitals or isn't, to `cells`. After `AllocError` some of them may be there.
    pub fn push_indicators_of(
        &self,
        here: Context,
        run: bool,
        info: &Info,
        cells: &mut Vec<Cell>,
    ) -> Result<(), AllocError>
        ensures { OnOk result (cells.new.items ≡ cells.old.items ++ indicators_of self.now here run info.now) }
    {
        if !may_use_signs(here, info) {
            return Ok(());
        }
        self.push_used_indicators(here, run, info, cells)
    }

    /// Does what `push_indicators_of` does, for a character of any info.
    fn push_used_indicators(
        &self,
        here: Context,
        run: bool,
        info: &Info,
        cells: &mut Vec<Cell>,
    ) -> Result<(), AllocError>
        ensures { OnOk result (cells.new.items ≡ cells.old.items ++ indicators_of self.now here run info.now) }
    {
        self.push_sign(here, run, info, Sign::EndCapsWord, cells)?;
        self.push_sign(here, run, info, Sign::NoContractSign, cells)?;
        self.push_sign(here, run, info, Sign::NumSign, cells)?;
        self.push_sign(here, run, info, Sign::BegCapsWord, cells)?;
        self.push_sign(here, run, info, Sign::CapsLetter, cells)?;
        Ok(())
    }

    /// Appends the cells of an indicator, if it is used there.
    fn push_sign(
        &self,
        here: Context,
        run: bool,
        info: &Info,
        sign: Sign,
        cells: &mut Vec<Cell>,
    ) -> Result<(), AllocError>
        ensures { OnOk result (cells.new.items ≡ cells.old.items ++ used_cells self.now here run info.now sign) }
    {
        if self.uses_indicator(here, run, info, sign) {
            cells.extend_from_slice(self.indicator(sign))?;
        }
        Ok(())
    }

    /// Whether the table uses an indicator before a character with this info, which is in a run of
    /// capitals or isn't.
    pub fn uses_indicator(&self, here: Context, run: bool, info: &Info, sign: Sign) -> bool
        ensures { result ≡ is_used self.now here run info.now sign }
    {
        let is_capital = info.classes.intersects(Class::UPPERCASE);
        let after_run = here.run && self.has_word_capitals();
        match sign {
            Sign::EndCapsWord => after_run && info.classes.intersects(Class::LETTER) && !is_capital,
            Sign::NoContractSign => here.numeric && info.nocont,
            Sign::NumSign => info.literary && !here.numeric,
            Sign::BegCapsWord => is_capital && run && !here.classes.intersects(Class::UPPERCASE),
            Sign::CapsLetter => is_capital && !run,
        }
    }
}

/// Whether any indicator may be used before a character with this info: it may for few characters.
fn may_use_signs(here: Context, info: &Info) -> bool
    ensures { result ≡ false → (table : TableView) (run : Bool) (sign : SignView) → is_used table here run info.now sign ≡ false }
{
    here.run || info.nocont || info.literary || info.classes.intersects(Class::UPPERCASE)
}

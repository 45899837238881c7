//! Clashes: two different texts that are translated to the same cells.
ghost use Rattle.std.specs.Prelude.{◌≡◌, ◌↔◌, IsTrue, ℕ, List, IfOk, IfErr, IfSome, IfNone};
ghost use Rattle.brl_rules.specs.Text.{is_text};
ghost use Rattle.brl_rules.specs.Translation.{IsClash, translation};
ghost use Rattle.brl_failure.specs.Failure.{IfFault};
ghost use Rattle.brl_forward.specs.Faults.{IsFaultOfSide, IsFaultOfTwo};

use crate::translation::translate_known;
use crate::{ConfirmFault, Side, translate};
use brl_cells::Cell;
use brl_failure::Failure;
use brl_rules::Table;
use std::alloc::{AllocError, Global};
use std::marker::Model;

/// Two texts that a table translates to the same cells. A contract sees a `ClashView`.
#[derive(Drop)]
pub struct Clash {
    left: Vec<char>,
    right: Vec<char>,
    cells: Vec<Cell>,
}

impl Model for Clash {
    ghost use Rattle.brl_forward.specs.ClashView.{ClashView};

    ghost Value = { ClashView };

    ghost view = { λ c. record { left = c.left.items; right = c.right.items; cells = c.cells.items } };
}

impl Clash {
    /// The left text.
    pub fn left(&self) -> &[char]
        ensures { result.now ≡ self.now.left }
    {
        self.left.as_slice()
    }

    /// The right text.
    pub fn right(&self) -> &[char]
        ensures { result.now ≡ self.now.right }
    {
        self.right.as_slice()
    }

    /// The cells of both.
    pub fn cells(&self) -> &[Cell]
        ensures { result.now ≡ self.now.cells }
    {
        self.cells.as_slice()
    }
}

/// The clash of two texts, exactly where they differ and have the same cells; `UnknownChar` for a
/// character that isn't defined, of the left text first.
pub fn confirm(
    alloc: Global,
    table: &Table,
    left: &[char],
    right: &[char],
) -> Result<Option<Clash>, Failure<ConfirmFault>>
    ensures left_text { IfOk result (λ _. IsTrue (is_text table.now left.now)) }
    ensures right_text { IfOk result (λ _. IsTrue (is_text table.now right.now)) }
    ensures left { IfOk result (λ found. IfSome found (λ clash. clash.left ≡ left.now)) }
    ensures right { IfOk result (λ found. IfSome found (λ clash. clash.right ≡ right.now)) }
    ensures clash { IfOk result (λ found. IfSome found (λ clash. IsClash table.now left.now right.now clash.cells)) }
    ensures none { IfOk result (λ found. IfNone found
        ((cells : List ℕ) → IsClash table.now left.now right.now cells → ⊥)) }
    ensures fault { IfErr result (IfFault (IsFaultOfTwo table.now left.now right.now)) }
{
    let cells = cells_of_side(alloc, table, left, Side::Left)?;
    let others = cells_of_side(alloc, table, right, Side::Right)?;
    if are_same_text(left, right) || !are_same_cells(cells.as_slice(), others.as_slice()) {
        return Ok(None);
    }
    Ok(Some(Clash {
        left: left.to_vec(alloc)?,
        right: right.to_vec(alloc)?,
        cells,
    }))
}

/// The clash of two texts that are known to clash, with their cells. One of them is translated, for
/// the cells.
pub fn clash_of(
    alloc: Global,
    table: &Table,
    left: Vec<char>,
    right: Vec<char>,
) -> Result<Clash, AllocError>
    requires { IsClash table.now left.items right.items (translation table.now left.items) }
    ensures left { IfOk result (λ clash. clash.left ≡ left.items) }
    ensures right { IfOk result (λ clash. clash.right ≡ right.items) }
    ensures clash { IfOk result (λ clash. IsClash table.now clash.left clash.right clash.cells) }
{
    let cells = translate_known(alloc, table, left.as_slice())?;
    Ok(Clash { left, right, cells })
}

/// The cells of one of two texts.
fn cells_of_side(
    alloc: Global,
    table: &Table,
    text: &[char],
    side: Side,
) -> Result<Vec<Cell>, Failure<ConfirmFault>>
    ensures text { IfOk result (λ _. IsTrue (is_text table.now text.now)) }
    ensures cells { IfOk result (λ cells. cells.items ≡ translation table.now text.now) }
    ensures fault { IfErr result (IfFault (IsFaultOfSide side table.now text.now)) }
{
    translate(alloc, table, text).map_err(|failure| failure.map(|fault| fault.of_side(side)))
}

/// Whether two texts are equal.
fn are_same_text(left: &[char], right: &[char]) -> bool
    ensures { IsTrue result ↔ (left.now ≡ right.now) }
{
    left == right
}

/// Whether two lists of cells are equal.
fn are_same_cells(left: &[Cell], right: &[Cell]) -> bool
    ensures { IsTrue result ↔ (left.now ≡ right.now) }
{
    left == right
}

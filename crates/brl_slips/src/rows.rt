//! The rows of what was found: slips and twins in their order.
use crate::fault::Fault;
use crate::findings::Findings;
use crate::lexicon::{Lexicon, Piece};
use crate::names::Names;
use crate::order::group;
use crate::said::Named;
use crate::slip::{Slip, cells_of_row};
use crate::twins::Twins;
use brl_lines::Line;
use brl_table::is_place_opcode;
use std::alloc::{AllocError, Global};

/// The group before which twins come.
const AFTER_TWINS: u8 = 2;

/// A rule of a row: its line and its piece.
#[derive(Clone, Copy)]
pub(crate) struct RuleOfRow<'a> {
    pub line: &'a Line<'a>,
    pub piece: &'a Piece,
}

impl<'a> RuleOfRow<'a> {
    /// The rule with a number.
    pub(crate) fn of(
        lexicon: &'a Lexicon,
        lines: &'a [Line<'a>],
        entry: usize,
    ) -> Option<RuleOfRow<'a>> {
        let piece = lexicon.piece_of(entry)?;
        let line = lines.get(lexicon.entries.get(entry)?.line)?;
        Some(RuleOfRow { line, piece })
    }

    /// The opcode that gives the rule its place.
    pub(crate) fn opcode(self) -> &'a str {
        let line = self.line;
        if is_place_opcode(line.opcode.text) {
            return line.opcode.text;
        }
        match line.operands.first() {
            Some(operand) => operand.text,
            None => line.opcode.text,
        }
    }
}

/// A row: a slip, or twins, and the words for it.
#[derive(Drop)]
pub(crate) struct Row<'a> {
    /// What it is: the kind of a slip, or twins.
    pub kind: &'static str,
    pub rule: RuleOfRow<'a>,
    /// The later rule of twins.
    pub twin: Option<RuleOfRow<'a>>,
    pub said: String,
    /// The pieces of the spelling of a slip; none of twins.
    pub spelling: &'a [usize],
}

/// The word for a kind of slip.
fn kind_of(fault: Fault) -> &'static str {
    match fault {
        Fault::Replaced(_) => "replaced",
        Fault::Exchanged(_) => "exchanged",
        Fault::TooMany(_) => "too many",
        Fault::Missing(_) => "missing",
        Fault::TwoReplaced(_, _) => "two replaced",
    }
}

/// What rows are made of.
#[derive(Clone, Copy)]
pub(crate) struct RowSource<'a> {
    pub alloc: Global,
    pub lexicon: &'a Lexicon,
    pub names: &'a Names,
    pub lines: &'a [Line<'a>],
    pub findings: &'a Findings,
}

impl<'a> RowSource<'a> {
    /// The table with its names of cells.
    pub(crate) fn named(self) -> Named<'a> {
        Named {
            alloc: self.alloc,
            lexicon: self.lexicon,
            names: self.names,
        }
    }

    /// The rows in their order: the slips of the first groups, the twins, the other slips.
    pub(crate) fn rows(self) -> Result<Vec<Row<'a>>, AllocError> {
        let mut rows = Vec::new(self.alloc);
        self.push_slips(&mut rows, |group| group < AFTER_TWINS)?;
        for twins in &self.findings.twins {
            self.push_twins(&mut rows, twins)?;
        }
        self.push_slips(&mut rows, |group| group >= AFTER_TWINS)?;
        Ok(rows)
    }

    /// Adds the rows of slips of some groups.
    fn push_slips<F: Fn(u8) -> bool>(
        self,
        rows: &mut Vec<Row<'a>>,
        takes: F,
    ) -> Result<(), AllocError>
        requires { F.IsAlwaysCallable takes }
    {
        for number in &self.findings.shown {
            let Some(slip) = self.findings.slips.get(*number) else {
                continue;
            };
            if takes(group(slip.fault, slip.length)) {
                self.push_slip(rows, slip)?;
            }
        }
        Ok(())
    }

    /// Adds the row of a slip.
    fn push_slip(self, rows: &mut Vec<Row<'a>>, slip: &'a Slip) -> Result<(), AllocError> {
        let Some(rule) = RuleOfRow::of(self.lexicon, self.lines, slip.entry) else {
            return Ok(());
        };
        let spelling = slip.spelling.as_slice();
        let spelled = cells_of_row(self.alloc, self.lexicon.pieces.as_slice(), spelling)?;
        let mut said = String::new(self.alloc);
        self.named().push_fault(
            &mut said,
            slip.fault,
            rule.piece.cells.as_slice(),
            spelled.as_slice(),
            spelling,
        )?;
        rows.push(Row {
            kind: kind_of(slip.fault),
            rule,
            twin: None,
            said,
            spelling,
        })?;
        Ok(())
    }

    /// Adds the row of twins.
    fn push_twins(self, rows: &mut Vec<Row<'a>>, twins: &Twins) -> Result<(), AllocError> {
        let (Some(rule), Some(twin)) = (
            RuleOfRow::of(self.lexicon, self.lines, twins.one),
            RuleOfRow::of(self.lexicon, self.lines, twins.other),
        ) else {
            return Ok(());
        };
        let mut said = String::new(self.alloc);
        self.named()
            .push_twins(&mut said, rule.piece, twin.piece, twins.place)?;
        rows.push(Row {
            kind: "twins",
            rule,
            twin: Some(twin),
            said,
            spelling: &[],
        })?;
        Ok(())
    }
}

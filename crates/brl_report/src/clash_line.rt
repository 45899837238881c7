//! A clash in one line.
ghost use Rattle.std.specs.Prelude.{◌≡◌, ◌++◌, IfOk, OnOk, map, string_bytes};
ghost use Rattle.brl_lines.specs.Views.{line_view};
ghost use Rattle.brl_report.specs.ClashLine.{clash_line, diverges_by, rules_note, spelled_after, texts_note};
ghost use Rattle.brl_rules.specs.Translation.{IsClash};

use crate::rules::{Lined, RuleForm, push_after_blanks};
use crate::steps::{common_prefix, report_steps};
use brl_cells::write_dots;
use brl_forward::Clash;
use brl_lines::{Line, spell_visibly};
use brl_rules::Table;
use std::alloc::{AllocError, Global};

/// Appends the line of a clash: its two texts and their cells, and the two rules at which they
/// diverge, each with file, line, opcode and characters. The texts are as in a table, the cells in
/// dots. The rule of the left text comes first. The opcodes are those of the table's lines.
pub fn push_clash_line(
    alloc: Global,
    table: &Table,
    lines: &[Line<'_>],
    clash: &Clash,
    rules: (u32, u32),
    text: &mut String,
) -> Result<(), AllocError>
    requires { IsClash table.now clash.now.left clash.now.right clash.now.cells }
    ensures { OnOk result (string_bytes text.new ≡ string_bytes text.old ++ clash_line table.now (map line_view lines.now) clash.now rules.0 rules.1) }
{
    push_texts(alloc, clash, text)?;
    push_after_blanks(text, write_dots(alloc, clash.cells())?.as_str())?;
    let lined = Lined::new(alloc, table, lines);
    push_rules(&lined, clash, rules, text)?;
    text.push('\n')
}

/// Appends the texts of a clash.
fn push_texts(alloc: Global, clash: &Clash, text: &mut String) -> Result<(), AllocError>
    ensures { OnOk result (string_bytes text.new ≡ string_bytes text.old ++ texts_note clash.now) }
{
    push_spelled(alloc, "  ", clash.left(), text)?;
    push_spelled(alloc, " / ", clash.right(), text)
}

/// Appends characters as they are written, after a mark.
fn push_spelled(
    alloc: Global,
    mark: &str,
    characters: &[char],
    text: &mut String,
) -> Result<(), AllocError>
    ensures { OnOk result (string_bytes text.new ≡ string_bytes text.old ++ spelled_after mark.now characters.now) }
{
    text.push_str(mark)?;
    text.push_str(spell_visibly(alloc, characters)?.as_str())
}

/// Appends two rules, that of the left text of a clash first.
fn push_rules(
    lined: &Lined<'_>,
    clash: &Clash,
    rules: (u32, u32),
    text: &mut String,
) -> Result<(), AllocError>
    requires { IsClash lined.now.table.now clash.now.left clash.now.right clash.now.cells }
    ensures { OnOk result (string_bytes text.new ≡ string_bytes text.old ++ rules_note lined.now.table.now (map line_view lined.now.lines.now) clash.now rules.0 rules.1) }
{
    let (mut first, mut second) = rules;
    if !diverges_by(lined.alloc, lined.table, clash, first)? {
        (first, second) = (second, first);
    }
    lined.push_rule(first, RuleForm::Note, text)?;
    lined.push_rule(second, RuleForm::Note, text)
}

/// Whether the left text's first step that the right one doesn't have is one of this rule.
fn diverges_by(alloc: Global, table: &Table, clash: &Clash, rule: u32) -> Result<bool, AllocError>
    requires { IsClash table.now clash.now.left clash.now.right clash.now.cells }
    ensures { IfOk result (λ by. by ≡ diverges_by table.now clash.now rule) }
{
    let left = report_steps(alloc, table, clash.left())?;
    let right = report_steps(alloc, table, clash.right())?;
    let place = common_prefix(left.as_slice(), right.as_slice());
    Ok(left.get(place).map_or(true, |step| step.step.rule == rule))
}

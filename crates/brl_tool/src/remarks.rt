//! Remarks on a table: rules that are there again, with other cells.
ghost use Rattle.std.specs.Prelude.{◌≡◌, ◌↔◌, ◌++◌, IfSome, IsTrue, OnOk, map, string_bytes};
ghost use Rattle.brl_lines.specs.Views.{line_view};
ghost use Rattle.brl_tool.specs.Remarks.{AreAlike, IsFirstAlike, Repeats, remark_line, rule_after};

use brl_lines::Line;
use brl_report::rule_words;
use brl_rules::{Rule, Table};
use std::alloc::{AllocError, Global};
use std::io::Write;

/// The number of a rule that repeats another, and that of the other.
#[derive(Clone, Copy)]
struct Again {
    number: u32,
    first: u32,
}

/// Whether two rules are for the same characters at the same places.
fn are_alike(other: &Rule, rule: &Rule) -> bool
    ensures { IsTrue result ↔ AreAlike other.now rule.now }
{
    other.chars.as_slice() == rule.chars.as_slice() && other.place == rule.place
}

/// The number of the first rule that is like this one.
fn first_alike(rules: &[Rule], rule: &Rule) -> Option<usize>
    ensures { IfSome result (IsFirstAlike rules.now rule.now) }
{
    for number in 0..rules.len() {
        if are_alike(&rules[number], rule) {
            return Some(number);
        }
    }
    None
}

/// The number of the rule that this one repeats.
fn repeated(rules: &[Rule], rule: &Rule) -> Option<usize>
    ensures { IfSome result (Repeats rules.now rule.now) }
{
    let first = first_alike(rules, rule)?;
    let other = rules.get(first)?;
    if have_same_cells(other, rule) {
        return None;
    }
    Some(first)
}

/// Whether two rules have the same cells.
fn have_same_cells(other: &Rule, rule: &Rule) -> bool
    ensures { IsTrue result ↔ (other.now.cells ≡ rule.now.cells) }
{
    other.cells.as_slice() == rule.cells.as_slice()
}

/// Appends the line on a rule that repeats another.
fn push_remark(
    alloc: Global,
    table: &Table,
    lines: &[Line<'_>],
    again: Again,
    text: &mut String,
) -> Result<(), AllocError>
    ensures { OnOk result (string_bytes text.new ≡ string_bytes text.old ++ remark_line table.now (map line_view lines.now) again.first again.number) }
{
    push_rule(alloc, table, lines, "remark RuleAgain ", again.number, text)?;
    push_rule(alloc, table, lines, " / ", again.first, text)?;
    text.push('\n')
}

/// Appends what the rule with a number says, after a mark.
fn push_rule(
    alloc: Global,
    table: &Table,
    lines: &[Line<'_>],
    mark: &str,
    number: u32,
    text: &mut String,
) -> Result<(), AllocError>
    ensures { OnOk result (string_bytes text.new ≡ string_bytes text.old ++ rule_after mark.now table.now (map line_view lines.now) number) }
{
    let words = rule_words(alloc, table, lines, number)?;
    text.push_str(mark)?;
    text.push_str(words.as_str())
}

/// Writes to standard error which rules of a table of these lines repeat another. What can't be
/// written there is dropped.
pub fn write_remarks<E: Write>(
    alloc: Global,
    table: &Table,
    lines: &[Line<'_>],
    err: &mut E,
) -> Result<(), AllocError> {
    let rules = table.rules_in_rank();
    let mut text = String::new(alloc);
    for (number, rule) in rules.iter().enumerate() {
        if let Some(first) = repeated(rules, rule) {
            let again = Again {
                number: number as u32,
                first: first as u32,
            };
            push_remark(alloc, table, lines, again, &mut text)?;
        }
    }
    let _ = err.write_all(text.as_bytes());
    Ok(())
}

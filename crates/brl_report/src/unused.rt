//! The list of the rules of a table that no text uses.
ghost use Rattle.std.specs.Prelude.{◌≡◌, ◌++◌, IfOk, OnOk, flat_map, length, map, string_bytes};
ghost use Rattle.std.specs.Option.{option_map_or};
ghost use Rattle.brl_lines.specs.Views.{line_view};
ghost use Rattle.brl_report.specs.Unused.{first_rule as rule_of_first_step, in_place_note, rule_in_place as rule_chosen_in_place, all_used, some_unused, unused_count, unused_line, unused_text};

use crate::rules::{Lined, RuleForm, rule_count};
use brl_failure::Failure;
use brl_forward::trace;
use brl_lines::Line;
use brl_rules::Table;
use std::alloc::{AllocError, Global};

/// The rules of a table that have these numbers, as those that no text uses: each as in the list of
/// rules, with the rule that is chosen instead. That rule is there where its characters are a text
/// and it isn't chosen itself. The last line says how many they are, and how many rules the table
/// has.
///
/// Every line ends with LF. `AllocError` if memory runs out.
pub fn unused_report(
    alloc: Global,
    table: &Table,
    lines: &[Line<'_>],
    numbers: &[u32],
) -> Result<String, AllocError>
    ensures { IfOk result (λ text. string_bytes text ≡ unused_text table.now (map line_view lines.now) numbers.now) }
{
    let lined = Lined::new(alloc, table, lines);
    let mut text = String::new(alloc);
    for number in numbers {
        lined.push_unused(*number, &mut text)?;
    }
    push_count(numbers.len(), rule_count(table), &mut text)?;
    Ok(text)
}

impl Lined<'_> {
    /// Appends the line of an unused rule.
    fn push_unused(&self, number: u32, text: &mut String) -> Result<(), AllocError>
        ensures { OnOk result (string_bytes text.new ≡ string_bytes text.old ++ unused_line self.now.table.now (map line_view self.now.lines.now) number) }
    {
        self.push_rule(number, RuleForm::Entry, text)?;
        self.push_in_place(number, text)?;
        text.push('\n')
    }

    /// Appends the rule that is chosen in place of the one with a number, where that is another.
    fn push_in_place(&self, number: u32, text: &mut String) -> Result<(), AllocError>
        ensures { OnOk result (string_bytes text.new ≡ string_bytes text.old ++ in_place_note self.now.table.now (map line_view self.now.lines.now) number) }
    {
        let Some(other) = rule_in_place(self.alloc, self.table, number)? else {
            return Ok(());
        };
        if other == number {
            return Ok(());
        }
        text.push_str("  in its place:")?;
        self.push_rule(other, RuleForm::Note, text)
    }
}

/// The rule that is chosen in place of the one with a number: for its own characters as a text.
fn rule_in_place(alloc: Global, table: &Table, number: u32) -> Result<Option<u32>, AllocError>
    ensures { IfOk result (λ found. found ≡ rule_chosen_in_place table.now number) }
{
    if let Some(rule) = table.rules_in_rank().get(number as usize) {
        return first_rule(alloc, table, rule.chars.as_slice());
    }
    let place = number as usize - table.rules_in_rank().len();
    if place >= table.char_count() {
        return Ok(None);
    }
    let character = table.char_at(place as u32);
    if table.info(character).is_none() {
        return Ok(None);
    }
    first_rule(alloc, table, &[character])
}

/// The rule of the first step of a text's trace. `None` where the table doesn't define a character
/// of the text, and for an empty text.
fn first_rule(alloc: Global, table: &Table, text: &[char]) -> Result<Option<u32>, AllocError>
    ensures { IfOk result (λ found. found ≡ rule_of_first_step table.now text.now) }
{
    match trace(alloc, table, text) {
        Ok(steps) => Ok(steps.first().map(|step| step.rule)),
        Err(Failure::Fault(_)) => Ok(None),
        Err(Failure::Memory) => Err(AllocError),
    }
}

/// Appends how many of all rules are unused.
fn push_count(unused: usize, rules: u32, text: &mut String) -> Result<(), AllocError>
    ensures { OnOk result (string_bytes text.new ≡ string_bytes text.old ++ unused_count unused rules) }
{
    if unused == 0 {
        return push_all_used(rules, text);
    }
    push_some_unused(unused, rules, text)
}

/// Appends that each of these rules is used.
fn push_all_used(rules: u32, text: &mut String) -> Result<(), AllocError>
    ensures { OnOk result (string_bytes text.new ≡ string_bytes text.old ++ all_used rules) }
{
    if rules == 1 {
        writeln!(text, "the one rule is used by some text")?;
        return Ok(());
    }
    writeln!(text, "each of {rules} rules is used by some text")?;
    Ok(())
}

/// Appends that this number of these rules are unused.
fn push_some_unused(unused: usize, rules: u32, text: &mut String) -> Result<(), AllocError>
    ensures { OnOk result (string_bytes text.new ≡ string_bytes text.old ++ some_unused unused rules) }
{
    if unused == 1 {
        writeln!(text, "{unused} of {rules} rules is used by no text")?;
        return Ok(());
    }
    writeln!(text, "{unused} of {rules} rules are used by no text")?;
    Ok(())
}

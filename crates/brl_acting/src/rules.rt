//! The rules of kept lines.
ghost use Rattle.std.specs.Prelude.{◌≡◌, ◌++◌, IfOk, OnOk, map};
ghost use Rattle.brl_acting.specs.Readings.{gives_rule as gives_rule_by, is_rule as is_rule_by, rule_at as rule_by, rule_view, rules_of as rules_by};
ghost use Rattle.brl_acting.specs.PartsViews.{parts_view};

use crate::form::Form;
use crate::line_parts::Parts;
use crate::operand::word_at;
use std::alloc::{AllocError, Global};

/// A kept rule: its opcode, its characters, its dots as they are written, and the place of its
/// line.
#[derive(Drop)]
pub(crate) struct Rule<'a> {
    pub opcode: &'a str,
    pub chars: Vec<char>,
    pub dots: &'a str,
    pub place: usize,
}

/// Whether a form is that of rules.
pub(crate) fn is_rule(form: Option<Form>) -> bool
    ensures { result ≡ is_rule_by form }
{
    matches!(form, Some(Form::Rule))
}

/// Whether a line is a kept rule that is used.
fn gives_rule(parts: &Parts<'_>) -> bool
    ensures { result ≡ gives_rule_by (parts_view parts.now) }
{
    parts.kept && !parts.nofor && is_rule(parts.form)
}

/// Adds the rule of a line at a place, if it is one that is kept and used.
fn push_rule<'a>(
    alloc: Global,
    rules: &mut Vec<Rule<'a>>,
    place: usize,
    parts: &Parts<'a>,
) -> Result<(), AllocError>
    ensures { OnOk result (map rule_view rules.new.items ≡ map rule_view rules.old.items ++ rule_by (place, parts_view parts.now)) }
{
    if !gives_rule(parts) {
        return Ok(());
    }
    let words = parts.words.as_slice();
    let Some(chars) = &parts.chars else {
        return Ok(());
    };
    let chars = Vec::from_slice(alloc, chars.as_slice())?;
    rules.push(Rule {
        opcode: word_at(words, 0),
        chars,
        dots: word_at(words, 2),
        place,
    })?;
    Ok(())
}

/// The rules of kept lines, in their order.
pub(crate) fn rules_of<'a>(alloc: Global, lines: &[Parts<'a>]) -> Result<Vec<Rule<'a>>, AllocError>
    ensures { IfOk result (λ rules. map rule_view rules.items ≡ rules_by (map parts_view lines.now)) }
{
    let mut rules = Vec::new(alloc);
    for (place, parts) in lines.iter().enumerate() {
        push_rule(alloc, &mut rules, place, parts)?;
    }
    Ok(rules)
}

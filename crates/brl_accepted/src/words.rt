//! What rules say, and the lines of pairs of rules.
ghost use Rattle.std.specs.Prelude.{◌≡◌, ◌++◌, IfOk, OnOk, map, string_bytes};
ghost use Rattle.brl_accepted.specs.Pairs.{pair_line as line_of_pair, pairs_text, said as words_said, whole_line, wording as words_of_rules};
ghost use Rattle.brl_lines.specs.Views.{line_view};

use brl_lines::Line;
use brl_report::{rule_numbers, rule_words};
use brl_rules::Table;
use std::alloc::{AllocError, Global};

/// What each rule of a table of these lines says, by its number: the opcode, the characters as they
/// are spelled in a table, and the cells in dots.
pub(crate) fn wording(
    alloc: Global,
    table: &Table,
    lines: &[Line<'_>],
) -> Result<Vec<String>, AllocError>
    ensures { IfOk result (λ words. map string_bytes words.items ≡ words_of_rules table.now (map line_view lines.now)) }
{
    let numbers = rule_numbers(alloc, table)?;
    let mut words = Vec::new(alloc);
    for number in numbers.as_slice() {
        words.push(rule_words(alloc, table, lines, *number)?)?;
    }
    Ok(words)
}

/// What the rule with a number says, and nothing where no rule has it.
pub(crate) fn said(words: &[String], number: u32) -> &str
    ensures { result.now ≡ words_said (map string_bytes words.now) number }
{
    match words.get(number as usize) {
        Some(word) => word.as_str(),
        None => "",
    }
}

/// The line of a pair of rules, without its end.
fn pair_line(alloc: Global, words: &[String], pair: (u32, u32)) -> Result<String, AllocError>
    ensures { IfOk result (λ text. string_bytes text ≡ line_of_pair (map string_bytes words.now) pair) }
{
    let one = said(words, pair.0);
    let other = said(words, pair.1);
    format!(in alloc; "{one} / {other}")
}

/// The text of a file that names these pairs of rules, a line for each, by what the rules say.
///
/// Every line ends with LF. `AllocError` if memory runs out.
pub(crate) fn write_pairs(
    alloc: Global,
    words: &[String],
    pairs: &[(u32, u32)],
) -> Result<String, AllocError>
    ensures { IfOk result (λ text. string_bytes text ≡ pairs_text (map string_bytes words.now) pairs.now) }
{
    let mut text = String::new(alloc);
    for pair in pairs {
        push_line(alloc, words, *pair, &mut text)?;
    }
    Ok(text)
}

/// Appends the line of a pair of rules.
fn push_line(
    alloc: Global,
    words: &[String],
    pair: (u32, u32),
    text: &mut String,
) -> Result<(), AllocError>
    ensures { OnOk result (string_bytes text.new ≡ string_bytes text.old ++ whole_line (map string_bytes words.now) pair) }
{
    text.push_str(pair_line(alloc, words, pair)?.as_str())?;
    text.push('\n')
}

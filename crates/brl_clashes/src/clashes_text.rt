//! The text of a list of clashes.
ghost use Rattle.std.specs.Prelude.{◌≡◌, ◌++◌, IfOk, List, string_bytes, ℕ};
ghost use Rattle.brl_clashes.specs.ClashesText.{IsTop, last_lines as last_lines_in, sets_in as sets_in_form};
ghost use Rattle.brl_without.specs.Alphabet.{alphabet_view};

use crate::ListForm;
use crate::columns::COLUMN_NAMES;
use crate::sets::sets_in;
use brl_answers::with_alphabet_line;
use brl_lines::Line;
use brl_rules::Table;
use brl_slips::{find_slips, read_lexicon, slips_text};
use brl_without::Alphabet;
use std::alloc::{AllocError, Global};

/// What comes before the sections of a list in a form: where pairs may be shown by their kinds, the
/// rules of the table that look like slips, or the names of columns; and the sets of two or more of
/// these characters of the table that it treats as one.
///
/// Every line ends with LF. `AllocError` if memory runs out.
pub fn head_text(
    alloc: Global,
    table: &Table,
    lines: &[Line<'_>],
    form: ListForm<'_>,
    plain: &[char],
) -> Result<String, AllocError>
    ensures { IfOk result (λ text. (top : List ℕ) × IsTop form.entry top × (string_bytes text ≡ top ++ sets_in_form form.entry table.now plain.now)) }
{
    let mut text = top_text(alloc, form, lines)?;
    text.push_str(sets_in(alloc, form, table, plain)?.as_str())?;
    Ok(text)
}

/// The most slips that have a line before a list.
const MOST_SLIPS: usize = 12;

/// What comes before a list in a form: the likely slips of a table of these lines, where there are
/// some and pairs are shown by their kinds; or the names of columns.
fn top_text(alloc: Global, form: ListForm<'_>, lines: &[Line<'_>]) -> Result<String, AllocError>
    ensures { IfOk result (λ text. IsTop form.entry (string_bytes text)) }
{
    match form {
        ListForm::Screen => first_slips(alloc, lines),
        ListForm::Pairs { .. } => Ok(String::new(alloc)),
        ListForm::Columns { .. } => String::from_str(alloc, COLUMN_NAMES),
    }
}

/// The last lines of a list in a form: its verdict, and the line that names the characters of
/// texts; columns have none.
pub fn last_lines(
    alloc: Global,
    form: ListForm<'_>,
    alphabet: &Alphabet,
    verdict: String,
) -> Result<String, AllocError>
    ensures { IfOk result (λ text. string_bytes text ≡ last_lines_in form.entry (alphabet_view alphabet.now) (string_bytes verdict)) }
{
    match form {
        ListForm::Columns { .. } => Ok(String::new(alloc)),
        ListForm::Screen | ListForm::Pairs { .. } => with_alphabet_line(alloc, verdict, alphabet),
    }
}

/// The text of the first likely slips of a table of these lines; empty where there are none.
fn first_slips(alloc: Global, lines: &[Line<'_>]) -> Result<String, AllocError> {
    let lexicon = read_lexicon(alloc, lines)?;
    let findings = find_slips(alloc, &lexicon)?;
    if findings.shown.is_empty() && findings.twins.is_empty() {
        return Ok(String::new(alloc));
    }
    slips_text(alloc, &lexicon, lines, &findings, MOST_SLIPS)
}

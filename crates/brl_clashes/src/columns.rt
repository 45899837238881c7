//! A list of clashes as columns for programs.
ghost use Rattle.std.specs.Prelude.{◌≡◌, ◌<◌, ◌++◌, IfSome, OnOk, codes, length, map, string_bytes};
ghost use Rattle.std.specs.Option.{option_map_or};
ghost use Rattle.brl_clashes.specs.Columns.{clash_columns, column_line, kind_columns, own_source as source_of_own, place_columns, rule_columns, rules_columns, source_of as source_of_rule, text_column};
ghost use Rattle.brl_lines.specs.Views.{line_view};

use crate::pair_tests::kind_of;
use crate::representatives::own_character;
use crate::section_text::Listing;
use crate::{Kind, PairKind};
use brl_cells::write_dots;
use brl_lines::spell_visibly;
use brl_report::rule_words;
use brl_rules::Table;
use brl_search::RuleClash;
use std::alloc::AllocError;

/// The names of the columns.
pub const COLUMN_NAMES: &str =
    "section\tkind\tleft\tright\tcells\tfile\tline\trule\tfile2\tline2\trule2\n";

/// Appends the line of a clash of the section of a kind of characters: the section, the kind of
/// its pair of rules, its texts, their cells in dots, and the file, the line and the words of each
/// rule, the lesser first.
pub fn push_columns(
    listing: Listing<'_>,
    kind: Kind,
    clash: &RuleClash,
    text: &mut String,
) -> Result<(), AllocError>
    ensures { OnOk result (string_bytes text.new ≡ string_bytes text.old
        ++ column_line listing.entry.table.now (map line_view listing.entry.lines.now) listing.entry.firsts.now listing.entry.listed.now kind clash.now) }
{
    let kind_of_pair = kind_of(listing.table, listing.firsts, listing.listed, clash);
    push_kinds(kind, kind_of_pair, text)?;
    push_clash(listing, clash, text)?;
    push_rules(listing, clash, text)
}

/// Appends the columns of the two rules of a clash, and the end of the line.
fn push_rules(listing: Listing<'_>, clash: &RuleClash, text: &mut String) -> Result<(), AllocError>
    ensures { OnOk result (string_bytes text.new ≡ string_bytes text.old ++ rules_columns listing.entry.table.now (map line_view listing.entry.lines.now) clash.now) }
{
    push_rule(listing, clash.lesser, text)?;
    push_rule(listing, clash.greater, text)?;
    text.push('\n')
}

/// Appends the columns of a section and of a kind.
fn push_kinds(section: Kind, kind: PairKind, text: &mut String) -> Result<(), AllocError>
    ensures { OnOk result (string_bytes text.new ≡ string_bytes text.old ++ kind_columns section kind) }
{
    text.push_str(section.name())?;
    text.push('\t')?;
    text.push_str(kind.key())
}

/// Appends the columns of the texts of a clash, and of their cells.
fn push_clash(listing: Listing<'_>, clash: &RuleClash, text: &mut String) -> Result<(), AllocError>
    ensures { OnOk result (string_bytes text.new ≡ string_bytes text.old ++ clash_columns clash.now) }
{
    push_text(listing, clash.clash.left(), text)?;
    push_text(listing, clash.clash.right(), text)?;
    let dots = write_dots(listing.alloc, clash.clash.cells())?;
    text.push('\t')?;
    text.push_str(dots.as_str())
}

/// Appends the column of a text.
fn push_text(listing: Listing<'_>, characters: &[char], text: &mut String) -> Result<(), AllocError>
    ensures { OnOk result (string_bytes text.new ≡ string_bytes text.old ++ text_column characters.now) }
{
    text.push('\t')?;
    text.push_str(spell_visibly(listing.alloc, characters)?.as_str())
}

/// Appends the columns of the rule with a number.
fn push_rule(listing: Listing<'_>, number: u32, text: &mut String) -> Result<(), AllocError>
    ensures { OnOk result (string_bytes text.new ≡ string_bytes text.old ++ rule_columns listing.entry.table.now (map line_view listing.entry.lines.now) number) }
{
    let words = rule_words(listing.alloc, listing.table, listing.lines, number)?;
    text.push('\t')?;
    push_place(listing, number, text)?;
    text.push('\t')?;
    text.push_str(words.as_str())
}

/// Appends the file and the line by which the rule with a number is defined.
fn push_place(listing: Listing<'_>, number: u32, text: &mut String) -> Result<(), AllocError>
    ensures { OnOk result (string_bytes text.new ≡ string_bytes text.old ++ option_map_or (place_columns listing.entry.table.now) (source_of_rule listing.entry.table.now number) (codes "\t")) }
{
    match source_of(listing.table, number) {
        Some((file, line)) => push_source(listing.table, file, line, text),
        None => text.push('\t'),
    }
}

/// The number of the file and the line by which the rule with a number is defined.
fn source_of(table: &Table, number: u32) -> Option<(usize, u32)>
    ensures value { result ≡ source_of_rule table.now number }
    ensures named { IfSome result (λ source. source.0 < length table.now.files) }
{
    table.law();
    match table.rules_in_rank().get(number as usize) {
        Some(rule) => Some((rule.file, rule.line)),
        None => own_source(table, number),
    }
}

/// The number of the file and the line of the own definition with a number.
fn own_source(table: &Table, number: u32) -> Option<(usize, u32)>
    ensures value { result ≡ source_of_own table.now number }
    ensures named { IfSome result (λ source. source.0 < length table.now.files) }
{
    table.law();
    let Some(character) = own_character(table, number) else {
        return None;
    };
    let Some(info) = table.info(character) else {
        return None;
    };
    Some((info.file, info.line))
}

/// Appends the name of a file and one of its lines.
fn push_source(table: &Table, file: usize, line: u32, text: &mut String) -> Result<(), AllocError>
    requires { file < length table.now.files }
    ensures { OnOk result (string_bytes text.new ≡ string_bytes text.old ++ place_columns table.now (file, line)) }
{
    text.push_str(table.file_name(file))?;
    text.push('\t')?;
    write!(text, "{line}")
}

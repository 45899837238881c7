//! The table that a list of lines defines.
ghost use Rattle.std.specs.Prelude.{◌≡◌, ◌≤◌, ◌<◌, ◌∷◌, ◌++◌, [], false, All, IfOk, IfErr, List, OnOk, length, map, nat_lt, position, slice_get, vec_len, string_bytes, bytes_eq};
ghost use Rattle.brl_failure.specs.Failure.{IfFault};
ghost use Rattle.brl_lines.specs.Views.{line_view};
ghost use Rattle.brl_table.specs.Items.{item_of as item_defined};
ghost use Rattle.brl_table.specs.ItemLimits.{IsItemWithinLimits};
ghost use Rattle.brl_rules.specs.Limits.{IsRule};
ghost use Rattle.brl_rules.specs.Rank.{in_rank};
ghost use Rattle.brl_table.specs.Building.{listed_with, over, FindsReference, Adds, AreAdded, HaveRoles, AreRead, AreWithinLimits, IsReferenceFault, ResolvesLine, Resolves, SignsRepresent, Represents};
ghost use Rattle.brl_table.specs.declared.item.Definition.{Definition};
ghost use Rattle.brl_table.specs.declared.item.Item.{Item as ItemView};
ghost use Rattle.brl_table.specs.declared.item.Item.TheVariants as items;
ghost use Rattle.brl_rules.specs.declared.rule.Rule.{Rule as RuleView};
ghost use Rattle.brl_table.specs.Faults.{
  are_too_many,
  repeats_indicator as repeats_indicator_by,
  characters_in as characters_named,
  opcode_in as opcode_named,
  operand_of as operand_named,
  IsAt,
  IsFirstFaultOf,
};
ghost use Rattle.brl_table.specs.Reading.{
  AreGood,
  Listed,
  defined_characters,
  definitions,
  defined_entries,
  files_of,
  rule_of,
  table_of,
  used_rules,
};

use crate::characters::Characters;
use crate::item::{Item, ListLine, NumericRole, RuleLine};
use crate::laws::good_lines_law;
use crate::line::item_of;
use crate::operand::refuse;
use crate::table_fault::WordFault;
use crate::{TableFault, TableFaultKind};
use brl_failure::Failure;
use brl_lines::Line;
use brl_rules::{Indicators, Info, Rule, Table, TableParts, rank_law, signs_law};
use indexmap::IndexMap;
use std::alloc::{AllocError, Global};

/// The most characters of a table.
const MOST_CHARACTERS: usize = 1024;

/// The most used rules of a table.
const MOST_RULES: usize = 4096;

/// The table that lines define, or the first fault of two passes over them.
///
/// The first pass reads each line by itself and adds it to the table. Faults of a line come in this
/// order: its opcode, its operands, its characters, its dots, and too many characters of its rule;
/// then an indicator that is defined already, and too many characters or used rules of the table.
/// The second pass comes after all definitions are known. It asks whether the table defines the
/// characters of each rule and list, and then whether a `numericnocontchars` line names a digit.
pub fn read_table(alloc: Global, lines: &[Line<'_>]) -> Result<Table, Failure<TableFault>>
    ensures good { IfOk result (λ _. AreGood (map line_view lines.now)) }
    ensures table { IfOk result (λ table. table ≡ table_of (map line_view lines.now)) }
    ensures fault { IfErr result (IfFault (IsFirstFaultOf (map line_view lines.now))) }
{
    good_lines_law();
    let files = file_names(alloc, lines)?;
    let mut builder = TableBuilder::new(alloc);
    let rules = builder.read(alloc, files.as_slice(), lines)?;
    Ok(builder.finish(files, rules)?)
}

/// A table that is being built.
#[derive(Drop)]
pub(crate) struct TableBuilder {
    /// The item of each line.
    items: Vec<Item>,
    /// The characters that the items define.
    characters: Characters,
    /// The indicators that the items define.
    signs: Indicators,
    /// The number of used rules among the items.
    used: usize,
}

impl TableBuilder {
    /// A table without lines.
    pub(crate) fn new(alloc: Global) -> TableBuilder
        ensures items { result.items.items ≡ [] }
        ensures represents { Represents [] result.characters result.signs result.used }
        ensures within { AreWithinLimits result.characters result.signs result.used }
    {
        TableBuilder {
            items: Vec::new(alloc),
            characters: Characters::new(alloc),
            signs: Indicators::new(alloc),
            used: 0,
        }
    }

    /// Reads the lines of files with these names. Returns the used rules, or the first fault.
    fn read(
        &mut self,
        alloc: Global,
        files: &[String],
        lines: &[Line<'_>],
    ) -> Result<Vec<Rule>, Failure<TableFault>>
        requires none { self.old.items.items ≡ [] }
        requires represents { Represents [] self.old.characters self.old.signs self.old.used }
        requires within { AreWithinLimits self.old.characters self.old.signs self.old.used }
        requires named { map string_bytes files.now ≡ files_of (map line_view lines.now) }
        ensures read { IfOk result (λ rules.
            AreRead (map line_view lines.now) self.new.items.items self.new.characters self.new.signs self.new.used rules.items) }
        ensures fault { IfErr result (IfFault (IsFirstFaultOf (map line_view lines.now))) }
    {
        self.add_all(alloc, files, lines)?;
        apply_lists(self.items.as_slice(), &mut self.characters);
        self.resolve_all(alloc, lines)
    }

    /// The first pass over the lines of files with these names.
    #[tactic(auto, using(crate::proofs::FirstPass::has_file))]
    fn add_all(
        &mut self,
        alloc: Global,
        files: &[String],
        lines: &[Line<'_>],
    ) -> Result<(), Failure<TableFault>>
        requires none { self.old.items.items ≡ [] }
        requires represents { Represents [] self.old.characters self.old.signs self.old.used }
        requires within { AreWithinLimits self.old.characters self.old.signs self.old.used }
        requires named { map string_bytes files.now ≡ files_of (map line_view lines.now) }
        ensures added { OnOk result
            (AreAdded (map line_view lines.now) self.new.items.items self.new.characters self.new.signs self.new.used) }
        ensures fault { IfErr result (IfFault (IsFirstFaultOf (map line_view lines.now))) }
    {
        for line in lines {
            let file = place_of(files, line.file).unwrap();
            if let Err(failure) = self.add(alloc, file, line) {
                return Err(fault_at(alloc, failure, line));
            }
        }
        Ok(())
    }

    /// The first pass over one line, of the file with this number. A line with a fault changes
    /// nothing.
    pub(crate) fn add(
        &mut self,
        alloc: Global,
        file: usize,
        line: &Line<'_>,
    ) -> Result<(), Failure<WordFault>>
        requires represents { Represents self.old.items.items self.old.characters self.old.signs self.old.used }
        requires within { AreWithinLimits self.old.characters self.old.signs self.old.used }
        ensures same { IfErr result (IfFault (λ _. self.new ≡ self.old)) }
        ensures adds { let view = line_view line.now in
            Adds self.old.items.items view file (item_defined file view) self.new.items.items
            self.new.characters self.new.signs self.new.used result }
    {
        signs_law();
        let item = item_of(alloc, file, line)?;
        let opcode = opcode_in(line, &item);
        if self.repeats_indicator(&item) {
            return refuse(alloc, TableFaultKind::IndicatorTwice, opcode);
        }
        if self.exceeds_limits(&item) {
            return refuse(alloc, TableFaultKind::TooMany, opcode);
        }
        self.apply(&item)?;
        self.items.push(item)?;
        Ok(())
    }

    /// Whether the item defines an indicator a second time.
    fn repeats_indicator(&self, item: &Item) -> bool
        ensures { (earlier : List ItemView) → SignsRepresent earlier self.now.signs → result ≡ repeats_indicator_by earlier item.now }
    {
        signs_law();
        match item {
            Item::Indicates(sign, _) => !self.signs.cells(*sign).is_empty(),
            _ => false,
        }
    }

    /// Whether an item would give the table too many characters or used rules.
    fn exceeds_limits(&self, item: &Item) -> bool
        requires { AreWithinLimits self.now.characters self.now.signs self.now.used }
        ensures { (earlier : List ItemView) → Represents earlier self.now.characters self.now.signs self.now.used →
            result ≡ are_too_many (earlier ++ item.now ∷ []) }
    {
        self.characters.count_with(item) > MOST_CHARACTERS || self.used_with(item) > MOST_RULES
    }

    /// The number of used rules with that of an item.
    fn used_with(&self, item: &Item) -> usize
        requires { self.now.used ≤ 4096 }
        ensures { (earlier : List ItemView) → self.now.used ≡ length (used_rules earlier) → result ≡ length (used_rules (earlier ++ item.now ∷ [])) }
    {
        match item {
            Item::Rules(rule) if rule.head.used => self.used + 1,
            _ => self.used,
        }
    }

    /// Applies an item to the characters, the indicators and the number of used rules.
    fn apply(&mut self, item: &Item) -> Result<(), AllocError>
        requires once { repeats_indicator_by self.old.items.items item.now ≡ false }
        requires represents { Represents self.old.items.items self.old.characters self.old.signs self.old.used }
        requires within { AreWithinLimits self.old.characters self.old.signs self.old.used }
        ensures represents { OnOk result (Represents (self.old.items.items ++ item.now ∷ []) self.new.characters self.new.signs self.new.used) }
        ensures items { self.new.items.items ≡ self.old.items.items }
    {
        signs_law();
        match item {
            Item::Defines(definition) => self.characters.define(definition)?,
            Item::DefinesBoth(upper, lower) => {
                self.characters.define(upper)?;
                self.characters.define(lower)?;
            }
            Item::Rules(rule) if rule.head.used => self.used += 1,
            Item::Indicates(sign, cells) => self.signs.set(*sign, cells.copy()?),
            Item::Rules(_) | Item::Lists(_) | Item::Nothing => {}
        }
        Ok(())
    }

    /// Whether the items define a character.
    pub(crate) fn has_characters(&self) -> bool
        ensures { (items : List ItemView) → Represents items self.now.characters self.now.signs self.now.used →
            result ≡ nat_lt 0 (length (defined_characters (definitions items))) }
    {
        self.characters.infos.len() > 0
    }

    /// Gives the characters that list lines name their roles, before the second pass.
    pub(crate) fn mark_listed(&mut self)
        requires { Represents self.old.items.items self.old.characters self.old.signs self.old.used }
        ensures marked { HaveRoles self.old.items.items self.new.characters }
        ensures items { self.new.items ≡ self.old.items }
    {
        apply_lists(self.items.as_slice(), &mut self.characters);
    }

    /// The second pass over the line at a place. Its rule is dropped.
    pub(crate) fn resolve_at(
        &self,
        alloc: Global,
        place: usize,
        line: &Line<'_>,
    ) -> Result<(), Failure<WordFault>>
        requires { place < vec_len self.now.items }
        ensures { (item : ItemView) → slice_get self.now.items.items place ≡ Some item →
            FindsReference self.now.characters.infos.entries (line_view line.now) item result }
    {
        let mut rules = Vec::new(alloc);
        self.resolve(alloc, line, &self.items[place], &mut rules)
    }

    /// The second pass over the lines. Returns the used rules in the order of the lines, or the
    /// first fault.
    fn resolve_all(
        &self,
        alloc: Global,
        lines: &[Line<'_>],
    ) -> Result<Vec<Rule>, Failure<TableFault>>
        requires { length lines.now ≡ length self.now.items.items }
        ensures rules { IfOk result (λ rules.
            rules.items ≡ map (rule_of (over self.now.characters.infos.entries)) (used_rules self.now.items.items)) }
        ensures passes { IfOk result (λ _. Resolves self.now.characters.infos.entries (map line_view lines.now) self.now.items.items (length lines.now)) }
        ensures fault { IfErr result (IfFault (IsReferenceFault self.now.characters.infos.entries (map line_view lines.now) self.now.items.items)) }
    {
        let mut rules = Vec::new(alloc);
        for (place, line) in lines.iter().enumerate() {
            if let Err(failure) = self.resolve(alloc, line, &self.items[place], &mut rules) {
                return Err(fault_at(alloc, failure, line));
            }
        }
        Ok(rules)
    }

    /// The second pass over one line: resolves its characters, and adds its rule if it is used.
    fn resolve(
        &self,
        alloc: Global,
        line: &Line<'_>,
        item: &Item,
        rules: &mut Vec<Rule>,
    ) -> Result<(), Failure<WordFault>>
        ensures { ResolvesLine self.now.characters.infos.entries (line_view line.now) item.now rules.old.items rules.new.items result }
    {
        match item {
            Item::Rules(written) => {
                let Some(rule) = self.characters.rule(alloc, written)? else {
                    let characters = characters_in(line, written);
                    return refuse(alloc, TableFaultKind::UndefinedInRule, characters);
                };
                if written.head.used {
                    rules.push(rule)?;
                }
                Ok(())
            }
            Item::Lists(list) => self.resolve_list(alloc, line, list),
            _ => Ok(()),
        }
    }

    /// The second pass over a list line.
    fn resolve_list(
        &self,
        alloc: Global,
        line: &Line<'_>,
        list: &ListLine,
    ) -> Result<(), Failure<WordFault>>
        ensures { (rules : List RuleView) → ResolvesLine self.now.characters.infos.entries (line_view line.now) (items.Lists list.now) rules rules result }
    {
        let characters = list.chars.as_slice();
        if !self.characters.defines_all(characters) {
            return refuse(alloc, TableFaultKind::UndefinedInList, operand_of(line, 0));
        }
        if list.role == NumericRole::NeedsNoContractSign
            && self.characters.has_literary(characters)
        {
            return refuse(alloc, TableFaultKind::TwoRoles, operand_of(line, 0));
        }
        Ok(())
    }

    /// The characters that were defined, each with what was read of it.
    pub(crate) fn into_characters(self) -> IndexMap<char, Info>
        ensures { result ≡ self.characters.infos }
    {
        let TableBuilder {
            items: _,
            characters,
            signs: _,
            used: _,
        } = self;
        characters.infos
    }

    /// The table of what was read, with these rules and files.
    fn finish(self, files: Vec<String>, rules: Vec<Rule>) -> Result<Table, AllocError>
        requires marked { HaveRoles self.items.items self.characters }
        requires limits { All (IsItemWithinLimits (vec_len files)) self.items.items }
        requires within { AreWithinLimits self.characters self.signs self.used }
        requires few_rules { length rules.items ≤ 4096 }
        requires rules { All (IsRule self.characters.infos.entries (vec_len files)) rules.items }
        ensures characters { IfOk result (λ t. t.characters ≡ self.characters.infos.entries) }
        ensures rules { IfOk result (λ t. t.rules ≡ in_rank rules.items) }
        ensures signs { IfOk result (λ t. t.signs ≡ self.signs) }
        ensures files { IfOk result (λ t. t.files ≡ map string_bytes files.items) }
        ensures notices { IfOk result (λ t. t.notices ≡ self.characters.notices.items) }
    {
        rank_law();
        let _count = self.characters.infos.len();
        let TableBuilder {
            items: _,
            characters,
            signs,
            used: _,
        } = self;
        Table::from_parts(TableParts {
            characters: characters.infos,
            rules,
            signs,
            files,
            notices: characters.notices,
        })
    }
}

/// AppliesRole the characters that list lines among these name.
fn apply_lists(items: &[Item], characters: &mut Characters)
    ensures roles { (defined : List Definition) (listed : Listed) →
        characters.old.infos.entries ≡ defined_entries defined listed →
        characters.new.infos.entries ≡ defined_entries defined (listed_with listed items.now) }
    ensures notices { characters.new.notices ≡ characters.old.notices }
{
    for item in items {
        if let Item::Lists(line) = item {
            characters.apply_list(line);
        }
    }
}

/// The opcode that a line's fault names: the place opcode of a rule that follows `noback` or
/// `nofor`.
fn opcode_in<'a>(line: &Line<'a>, item: &Item) -> &'a str
    ensures { result.now ≡ opcode_named (line_view line.now) item.now }
{
    match item {
        Item::Rules(rule) if rule.head.prefixed => operand_of(line, 0),
        _ => line.opcode.text,
    }
}

/// The operand that has a rule's characters.
fn characters_in<'a>(line: &Line<'a>, rule: &RuleLine) -> &'a str
    ensures { result.now ≡ characters_named (line_view line.now) rule.now }
{
    operand_of(line, if rule.head.prefixed { 1 } else { 0 })
}

/// An operand of a line, from 0. Empty where the line has none there.
fn operand_of<'a>(line: &Line<'a>, number: usize) -> &'a str
    ensures { result.now ≡ operand_named (line_view line.now) number }
{
    match line.operands.get(number) {
        Some(operand) => operand.text,
        None => "",
    }
}

/// The names of the lines' files without repetitions, in the order in which lines first name them.
pub(crate) fn file_names(alloc: Global, lines: &[Line<'_>]) -> Result<Vec<String>, AllocError>
    ensures { IfOk result (λ files. map string_bytes files.items ≡ files_of (map line_view lines.now)) }
{
    let mut files: Vec<String> = Vec::new(alloc);
    for line in lines {
        if place_of(files.as_slice(), line.file).is_none() {
            files.push(String::from_str(alloc, line.file)?)?;
        }
    }
    Ok(files)
}

/// The place of a name in a list, from 0.
pub(crate) fn place_of(names: &[String], name: &str) -> Option<usize>
    ensures { result ≡ position (λ other. bytes_eq name.now (string_bytes other)) names.now }
{
    names.iter().position(|other| name == other.as_str())
}

/// The fault of a line, with the line's file and number.
pub(crate) fn fault_at(
    alloc: Global,
    failure: Failure<WordFault>,
    line: &Line<'_>,
) -> Failure<TableFault>
    ensures { IsAt (line_view line.now) failure result }
{
    let Failure::Fault(fault) = failure else {
        return Failure::Memory;
    };
    let Ok(file) = String::from_str(alloc, line.file) else {
        return Failure::Memory;
    };
    Failure::Fault(TableFault {
        kind: fault.kind,
        subject: fault.subject,
        file,
        line: line.line,
    })
}

//! The characters of a table that is being read, and its rules over them.
ghost use Rattle.std.specs.Prelude.{◌≡◌, ◌+◌, ◌≤◌, ◌∷◌, ◌++◌, [], IfOk, List, OnOk, None, Some, length, map, nat_eq, true, ℕ, if◌then◌else◌};
ghost use Rattle.std.specs.List.{flat_map, list_any};
ghost use Rattle.indexmap.specs.IndexSet.{IsEmpty, contains};
ghost use Rattle.brl_table.specs.declared.item.Definition.{Definition};
ghost use Rattle.brl_table.specs.Reading.{Listed, defined_characters, defined_entries, definition_in, is_repeated as is_repeated_by, own_cells as own_cells_of, rule_of};
ghost use Rattle.brl_table.specs.Building.{with_role, info_first, merged, listed_more, none_listed, over, CharactersRepresent};
ghost use Rattle.brl_rules.specs.Text.{fold_of, is_defined, is_literary, is_text};

use crate::item::{Definition, Item, ListLine, NumericRole, RuleLine};
use bitflags::Flags;
use brl_cells::{Cells, Chars};
use brl_rules::{Info, Notice, Rule};
use indexmap::{IndexMap, IndexSet};
use std::alloc::{AllocError, Global};

/// The characters that lines define.
#[derive(Drop)]
pub struct Characters {
    /// The characters in the order of their first definitions.
    pub infos: IndexMap<char, Info>,
    /// The characters with a plain line.
    pub plain: IndexSet<char>,
    /// The lines that define a character again.
    pub notices: Vec<Notice>,
}

impl Characters {
    /// No characters.
    pub fn new(alloc: Global) -> Characters
        ensures infos { result.infos.entries ≡ [] }
        ensures plain { IsEmpty result.plain }
        ensures notices { result.notices.items ≡ [] }
    {
        Characters {
            infos: IndexMap::new(alloc),
            plain: IndexSet::new(alloc),
            notices: Vec::new(alloc),
        }
    }

    /// Adds a definition: it is merged with those of its character, or is the first one.
    pub fn define(&mut self, definition: &Definition) -> Result<(), AllocError>
        requires { length self.old.infos.entries ≤ 1025 }
        ensures { OnOk result ((defined : List Definition) →
            CharactersRepresent defined self.old → CharactersRepresent (defined ++ definition.now ∷ []) self.new) }
    {
        let again = self.is_repeated(definition);
        update_infos(&mut self.infos, definition)?;
        insert_plain(&mut self.plain, definition)?;
        if again {
            self.notices.push(Notice {
                character: definition.character,
                file: definition.file,
                line: definition.line,
            })?;
        }
        Ok(())
    }

    /// The number of characters with those that an item defines.
    pub fn count_with(&self, item: &Item) -> usize
        requires { length self.now.infos.entries ≤ 1024 }
        ensures { (defined : List Definition) → CharactersRepresent defined self.now →
            result ≡ length (defined_characters (defined ++ definition_in item.now)) }
    {
        let count = self.infos.len();
        match item {
            Item::Defines(definition) => count + self.new_count(definition.character),
            Item::DefinesBoth(upper, lower) => {
                let first = self.new_count(upper.character);
                if upper.character == lower.character {
                    return count + first;
                }
                count + first + self.new_count(lower.character)
            }
            _ => count,
        }
    }

    /// 1 for a character that isn't defined yet, else 0.
    fn new_count(&self, character: char) -> usize
        ensures value { result ≡ (if is_defined (over self.now.infos.entries) character then 0 else 1) }
        ensures small { result ≤ 1 }
    {
        if self.infos.contains_key(&character) {
            0
        } else {
            1
        }
    }

    /// Whether the character has a definition of the same kind, `litdigit` or plain.
    fn is_repeated(&self, definition: &Definition) -> bool
        ensures { (defined : List Definition) → CharactersRepresent defined self.now → result ≡ is_repeated_by defined definition.now }
    {
        if definition.literary {
            self.is_literary(definition.character)
        } else {
            self.plain.contains(&definition.character)
        }
    }

    /// Whether a character has a `litdigit` line.
    fn is_literary(&self, character: char) -> bool
        ensures { result ≡ is_literary (over self.now.infos.entries) character }
    {
        match self.infos.get(&character) {
            Some(info) => info.literary,
            None => false,
        }
    }

    /// Gives each character of a list line its role. Undefined characters are left out.
    pub fn apply_list(&mut self, line: &ListLine)
        ensures roles { (defined : List Definition) (listed : Listed) →
            self.old.infos.entries ≡ defined_entries defined listed →
            self.new.infos.entries ≡ defined_entries defined (listed_more line.now.role line.now.chars listed) }
        ensures plain { self.new.plain ≡ self.old.plain }
        ensures notices { self.new.notices ≡ self.old.notices }
    {
        for character in line.chars.as_slice() {
            if let Some(info) = self.infos.get_mut(character) {
                set_role(info, line.role);
            }
        }
    }

    /// Whether all these characters are defined.
    pub fn defines_all(&self, chars: &[char]) -> bool
        ensures { result ≡ is_text (over self.now.infos.entries) chars.now }
    {
        chars
            .iter()
            .all(|character| self.infos.contains_key(character))
    }

    /// Whether one of these characters has a `litdigit` line.
    pub fn has_literary(&self, chars: &[char]) -> bool
        ensures { result ≡ list_any (is_literary (over self.now.infos.entries)) chars.now }
    {
        chars.iter().any(|character| self.is_literary(*character))
    }

    /// The rule of a line, with its characters folded. `None` where one of them is undefined.
    pub fn rule(&self, alloc: Global, line: &RuleLine) -> Result<Option<Rule>, AllocError>
        ensures { let t = over self.now.infos.entries in
            IfOk result (λ found. found ≡ (if is_text t line.now.chars then Some (rule_of t line.now) else None)) }
    {
        let Some(chars) = self.folded(alloc, line.chars.as_slice())? else {
            return Ok(None);
        };
        let cells = match &line.cells {
            Some(cells) => cells.copy()?,
            None => self.own_cells(alloc, chars.as_slice())?,
        };
        Ok(Some(Rule {
            chars,
            cells,
            place: line.place,
            file: line.head.file,
            line: line.head.line,
        }))
    }

    /// The folds of characters. `None` where one of them is undefined.
    fn folded(&self, alloc: Global, chars: &[char]) -> Result<Option<Chars>, AllocError>
        ensures { let t = over self.now.infos.entries in
            IfOk result (λ found. found ≡ (if is_text t chars.now then Some (map (fold_of t) chars.now) else None)) }
    {
        let mut folded = Vec::new(alloc);
        for character in chars {
            let Some(info) = self.infos.get(character) else {
                return Ok(None);
            };
            folded.push(info.fold)?;
        }
        Ok(Some(Chars::from_vec(folded)))
    }

    /// The cells of these characters' definitions, joined.
    fn own_cells(&self, alloc: Global, chars: &[char]) -> Result<Cells, AllocError>
        ensures { let t = over self.now.infos.entries in
            IfOk result (λ cells. cells ≡ flat_map (own_cells_of t) chars.now) }
    {
        let mut cells = Vec::new(alloc);
        for character in chars {
            if let Some(info) = self.infos.get(character) {
                cells.extend_from_slice(info.cells.as_slice())?;
            }
        }
        Cells::from_slice(alloc, cells.as_slice())
    }
}

/// Adds the character of a plain definition to those with a plain line.
fn insert_plain(plain: &mut IndexSet<char>, definition: &Definition) -> Result<(), AllocError>
    ensures { OnOk result ((c : ℕ) → contains nat_eq plain.new c ≡ (if definition.now.literary then contains nat_eq plain.old c
        else (if nat_eq definition.now.character c then true else contains nat_eq plain.old c))) }
{
    if !definition.literary {
        plain.insert(definition.character)?;
    }
    Ok(())
}

/// Updates the infos with a definition of a character.
fn update_infos(infos: &mut IndexMap<char, Info>, definition: &Definition) -> Result<(), AllocError>
    requires { length infos.old.entries ≤ 1025 }
    ensures { OnOk result ((defined : List Definition) →
        infos.old.entries ≡ defined_entries defined none_listed → infos.new.entries ≡ defined_entries (defined ++ definition.now ∷ []) none_listed) }
{
    match infos.get_mut(&definition.character) {
        Some(info) => merge(info, definition)?,
        None => {
            let number = infos.len() as u32;
            infos.insert(definition.character, first_info(number, definition)?)?;
        }
    }
    Ok(())
}

/// The info of a character after its first definition.
fn first_info(number: u32, definition: &Definition) -> Result<Info, AllocError>
    ensures { IfOk result (λ info. info ≡ info_first number definition.now) }
{
    Ok(Info {
        number,
        cells: definition.cells.copy()?,
        classes: definition.classes,
        literary: definition.literary,
        mode: false,
        nocont: false,
        fold: definition.fold,
        file: definition.file,
        line: definition.line,
    })
}

/// Merges one more definition into a character's info. Its first `litdigit` line gives it its
/// cells.
fn merge(info: &mut Info, definition: &Definition) -> Result<(), AllocError>
    ensures { OnOk result (info.new ≡ merged definition.now info.old) }
{
    if definition.literary && !info.literary {
        info.cells = definition.cells.copy()?;
        info.file = definition.file;
        info.line = definition.line;
        info.literary = true;
    }
    info.classes = info.classes.union(definition.classes);
    if info.fold == definition.character {
        info.fold = definition.fold;
    }
    Ok(())
}

/// Gives a character the role of a list line.
fn set_role(info: &mut Info, role: NumericRole)
    ensures { info.new ≡ with_role role info.old }
{
    match role {
        NumericRole::KeepsMode => info.mode = true,
        NumericRole::NeedsNoContractSign => info.nocont = true,
    }
}

//! A table with its capitals.
ghost use Rattle.std.specs.Prelude.{◌≡◌, ℕ, false, [], ◌∷◌, ◌++◌, ◌&&◌, map, not, IfOk, OnOk, if◌then◌else◌};
ghost use Rattle.std.specs.List.{flat_map, list_all};
ghost use Rattle.brl_rules.specs.Text.{context_after, context_after_all, has_word_capitals, is_capital as does_capital, is_mode};
ghost use Rattle.brl_dues.specs.Capitals.{alike, any_if as any_cond_if, capitals, choices, further as what_follows, is_upper as is_upper_in, put_capital};
ghost use Rattle.brl_dues.specs.CapitalList.{capital_of, is_fold_among, is_fold_of_capital, listed, put_at, stands_for as does_stand_for};

use crate::carry::class_of;
use crate::letter::fold_of;
use brl_cells::Chars;
use brl_rules::{Class, Cond, Context, Table, holds};
use std::alloc::{AllocError, Global};
use std::marker::Model;

/// A capital of a table.
#[derive(Clone, Copy)]
pub struct Capital {
    pub character: char,
    pub fold: char,
}

/// The capitals of a table: those that a `CasedTable` keeps, or a new list.
#[derive(Drop)]
pub enum Capitals<'a> {
    Kept(&'a [Capital]),
    New(Vec<Capital>),
}

impl<'a> Capitals<'a> {
    /// The capitals.
    pub fn as_slice(&self) -> &[Capital]
        ensures { result.now ≡ listed self.now }
    {
        match self {
            Capitals::Kept(capitals) => capitals,
            Capitals::New(capitals) => capitals.as_slice(),
        }
    }
}

/// A table. It keeps its capitals where steps may ask for them many times. A contract sees the
/// table.
#[derive(Drop)]
pub struct CasedTable<'a> {
    table: &'a Table,
    has_word_capitals: bool,
    keeps_capitals: bool,
    capitals: Vec<Capital>,
}

impl<'a> Model for CasedTable<'a> {
    ghost use Rattle.brl_rules.specs.TableView.{TableView};
    ghost use Rattle.brl_dues.specs.CapitalList.{AreCapitals};

    ghost Value = { TableView };

    ghost view = { λ c. c.table.now };

    ghost invariant = { λ c. AreCapitals c.table.now c.has_word_capitals c.keeps_capitals c.capitals.items };
}

impl<'a> CasedTable<'a> {
    /// A table for steps that begin with any character. It keeps its capitals if it has word
    /// capitals, and else allocates no memory.
    pub fn new(alloc: Global, table: &'a Table) -> Result<CasedTable<'a>, AllocError>
        ensures { IfOk result (λ cased. cased ≡ table.now) }
    {
        CasedTable::with_capitals_if(alloc, table, table.has_word_capitals())
    }

    /// A table for steps that begin with this character. It keeps its capitals if a run of capitals
    /// may begin with the character, and else allocates no memory.
    pub fn for_letter(
        alloc: Global,
        table: &'a Table,
        character: char,
    ) -> Result<CasedTable<'a>, AllocError>
        ensures { IfOk result (λ cased. cased ≡ table.now) }
    {
        let may_begin = table.has_word_capitals() && is_upper(table, character);
        CasedTable::with_capitals_if(alloc, table, may_begin)
    }

    /// A table, which keeps its capitals if this is so.
    fn with_capitals_if(
        alloc: Global,
        table: &'a Table,
        keeps_capitals: bool,
    ) -> Result<CasedTable<'a>, AllocError>
        ensures { IfOk result (λ cased. cased ≡ table.now) }
    {
        let mut capitals = Vec::new(alloc);
        if keeps_capitals {
            add_capitals(table, &mut capitals)?;
        }
        Ok(CasedTable {
            table,
            has_word_capitals: table.has_word_capitals(),
            keeps_capitals,
            capitals,
        })
    }

    /// The table.
    pub fn table(&self) -> &Table
        ensures { result.now ≡ self.now }
    {
        self.table
    }

    /// Whether a run of capitals may begin with a character: the table has word capitals, and it is
    /// a capital.
    pub fn may_begin_caps_run(&self, character: char) -> bool
        ensures { result ≡ (has_word_capitals self.now && is_upper_in self.now character) }
    {
        self.has_word_capitals && is_upper(self.table, character)
    }

    /// What must follow these characters so that they begin in a run of capitals, or out of one,
    /// after a character of these classes. `None` where they can't.
    pub fn further(
        &self,
        before: Class,
        run: bool,
        character: char,
        others: &[char],
    ) -> Option<Cond>
        ensures { result ≡ what_follows self.now before run (character ∷ others.now) }
    {
        if !self.may_begin_caps_run(character) {
            return any_if(!run);
        }
        if is_capital(before) {
            return any_if(run);
        }
        match others.first() {
            Some(second) => any_if(is_upper(self.table, *second) == run),
            None if run => Some(Cond::Meets(Class::UPPERCASE)),
            None => Some(Cond::Avoids(Class::UPPERCASE)),
        }
    }

    /// The context after more characters.
    pub fn context_behind(&self, here: Context, chars: &[char]) -> Context
        ensures { result ≡ context_after_all self.now here chars.now }
    {
        let Some((last, others)) = chars.split_last() else {
            return here;
        };
        match self.table.info(*last) {
            // Any character but one of `numericmodechars` sets the mode, whatever it was before.
            Some(info) if !info.mode => {
                let before = self.context_before(here, others);
                self.table.context_after_info(before, info)
            }
            _ => self.table.context_after(here, chars),
        }
    }

    /// The context after more characters, as far as it matters to a character after them that
    /// isn't in `numericmodechars`: a capital there is in a run where the last of these is one.
    fn context_before(&self, here: Context, chars: &[char]) -> Context
        ensures { (c : ℕ) → is_mode self.now c ≡ false → context_after self.now result c ≡ context_after self.now (context_after_all self.now here chars.now) c }
    {
        match chars.split_last() {
            Some((last, _)) if self.has_word_capitals => self.table.context_after(here, &[*last]),
            _ => here,
        }
    }

    /// Whether a character is a capital whose fold is this one.
    pub fn stands_for(&self, character: char, fold: char) -> bool
        ensures { result ≡ does_stand_for self.now character fold }
    {
        is_upper(self.table, character) && fold == fold_of(self.table, character)
    }

    /// The capitals, in the order of their definitions. They are listed anew if they aren't kept.
    pub fn capitals(&self, alloc: Global) -> Result<Capitals<'_>, AllocError>
        ensures { IfOk result (λ found. listed found ≡ map (capital_of self.now) (capitals self.now)) }
    {
        if self.keeps_capitals {
            return Ok(Capitals::Kept(self.capitals.as_slice()));
        }
        let mut capitals = Vec::new(alloc);
        add_capitals(self.table, &mut capitals)?;
        Ok(Capitals::New(capitals))
    }

    /// Whether there is a text of capitals whose folds are these characters.
    pub fn has_choices(&self, alloc: Global, chars: &[char]) -> Result<bool, AllocError>
        ensures { IfOk result (λ has. has ≡ list_all (is_fold_of_capital self.now) chars.now) }
    {
        let capitals = self.capitals(alloc)?;
        Ok(are_folds(chars, capitals.as_slice()))
    }

    /// The texts of capitals whose folds are these characters.
    pub fn choices(&self, alloc: Global, chars: &[char]) -> Result<Vec<Chars>, AllocError>
        ensures { IfOk result (λ found. found.items ≡ choices self.now chars.now) }
    {
        let found = self.capitals(alloc)?;
        let capitals = found.as_slice();
        let mut texts = Vec::new(alloc);
        if !are_folds(chars, capitals) {
            return Ok(texts);
        }
        texts.push(Chars::from_vec(Vec::new(alloc)))?;
        for done in 0..chars.len() {
            let fold = chars[chars.len() - 1 - done];
            texts = put_capitals(alloc, fold, capitals, texts.as_slice())?;
        }
        Ok(texts)
    }
}

/// Whether each of these characters is the fold of one of these capitals.
fn are_folds(chars: &[char], capitals: &[Capital]) -> bool
    ensures { result ≡ list_all (is_fold_among capitals.now) chars.now }
{
    chars.iter().all(|fold| is_fold(*fold, capitals))
}

/// Whether a character is the fold of one of these capitals.
fn is_fold(fold: char, capitals: &[Capital]) -> bool
    ensures { result ≡ is_fold_among capitals.now fold }
{
    capitals.iter().any(|capital| fold == capital.fold)
}

/// These texts with each of these capitals that has this fold in front.
fn put_capitals(
    alloc: Global,
    fold: char,
    capitals: &[Capital],
    texts: &[Chars],
) -> Result<Vec<Chars>, AllocError>
    ensures { IfOk result (λ found. found.items ≡ flat_map (put_at fold texts.now) capitals.now) }
{
    let mut found = Vec::new(alloc);
    for capital in capitals {
        if fold == capital.fold {
            put_front(alloc, capital.character, texts, &mut found)?;
        }
    }
    Ok(found)
}

/// Appends these texts with a character in front.
fn put_front(
    alloc: Global,
    character: char,
    texts: &[Chars],
    found: &mut Vec<Chars>,
) -> Result<(), AllocError>
    ensures { OnOk result (found.new.items ≡ found.old.items ++ map (λ text. character ∷ text) texts.now) }
{
    for text in texts {
        let others = text.as_slice();
        let mut chars = Vec::with_capacity(alloc, others.len() + 1)?;
        chars.push(character)?;
        chars.extend_from_slice(others)?;
        found.push(Chars::from_vec(chars))?;
    }
    Ok(())
}

/// Appends the capitals of a table.
fn add_capitals(table: &Table, found: &mut Vec<Capital>) -> Result<(), AllocError>
    requires { found.old.items ≡ [] }
    ensures { OnOk result (found.new.items ≡ map (capital_of table.now) (capitals table.now)) }
{
    for number in 0..table.char_count() {
        add_capital(table, table.char_at(number as u32), found)?;
    }
    Ok(())
}

/// Appends a character, if it is a capital.
fn add_capital(table: &Table, character: char, found: &mut Vec<Capital>) -> Result<(), AllocError>
    ensures { OnOk result (found.new.items ≡ found.old.items
        ++ (if is_upper_in table.now character then capital_of table.now character ∷ [] else [])) }
{
    if is_upper(table, character) {
        let fold = fold_of(table, character);
        found.push(Capital { character, fold })?;
    }
    Ok(())
}

/// Whether a character is a capital.
fn is_upper(table: &Table, character: char) -> bool
    ensures { result ≡ is_upper_in table.now character }
{
    is_capital(class_of(table, character))
}

/// Whether a character of these classes is a capital.
fn is_capital(classes: Class) -> bool
    ensures { result ≡ does_capital classes }
{
    holds(Cond::Meets(Class::UPPERCASE), classes)
}

/// No condition, where this is so.
fn any_if(is_so: bool) -> Option<Cond>
    ensures { result ≡ any_cond_if is_so }
{
    if is_so { Some(Cond::Any) } else { None }
}

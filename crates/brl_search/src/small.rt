//! Clashes made small: characters are left out of their texts while they clash.
ghost use Rattle.std.specs.Prelude.{◌≡◌, ◌∷◌, ◌<◌, ◌≤◌, ℕ, [], IfNone, IfOk, IfSome, length};
ghost use Rattle.brl_rules.specs.Translation.{IsClash};
ghost use Rattle.brl_search.specs.Small.{ClashAt, IsMinimal, IsPartOf, IsSmall};
ghost use Rattle.brl_search.specs.Smaller.{AreKeysOf, IsNone, Keeps, is_long as is_long_by, size_of};
ghost use Rattle.brl_traces.specs.Traces.{TracesDivergeAt};

use crate::keys::{Keys, keys_of};
use crate::texts::{both_without, clash_at};
use brl_closure::Texts;
use brl_forward::{Clash, clash_of};
use brl_rules::Table;
use std::alloc::{AllocError, Global};

/// How many characters a text has at most that isn't long. Leaving out one character of a text
/// costs as many translations as it has characters, so single ones of long texts stay.
const MOST_CHARACTERS: usize = 256;

/// Which clashes count: those of a table, and where a pair of rules is given, of texts whose traces
/// diverge at it.
#[derive(Clone, Copy)]
struct ClashFilter<'a> {
    alloc: Global,
    table: &'a Table,
    rules: Option<(u32, u32)>,
}

/// The clash of two texts that clash, made small: no character of one, nor one of each, can be left
/// out, unless a text has over 256. Where one of them has more than 256 characters once blocks were
/// left out, both stay as they are then. Where a pair of rules is given, at which the traces of the
/// two texts diverge, only such clashes count.
///
/// First half of the characters, from some place on, are tried at once, then a quarter, and so on
/// to a 256th, which costs some 512 translations of the left text. Then, each time that a character
/// of one text or of each is left out, and the last time, when none can be, this costs one
/// translation for each character of the two texts, and a comparison of two numbers for each two
/// places.
pub fn small_clash_of(
    alloc: Global,
    table: &Table,
    texts: Texts,
    rules: Option<(u32, u32)>,
) -> Result<Clash, AllocError>
    requires { ClashAt table.now rules texts.left.items texts.right.items }
    ensures clash { IfOk result (λ clash. IsClash table.now clash.left clash.right clash.cells) }
    ensures diverge { IfOk result (λ clash. IfSome rules (λ pair. TracesDivergeAt table.now (pair ∷ []) clash.left clash.right)) }
    ensures left { IfOk result (λ clash. IsPartOf clash.left texts.left.items) }
    ensures right { IfOk result (λ clash. IsPartOf clash.right texts.right.items) }
    ensures small { IfOk result (λ clash. IsSmall table.now rules clash.left clash.right) }
{
    let filter = ClashFilter {
        alloc,
        table,
        rules,
    };
    let shorter = filter.without_blocks(texts)?;
    let small = filter.without_characters(shorter)?;
    clash_of(alloc, table, small.left, small.right)
}

/// Whether one of two texts has more than 256 characters.
fn is_long(texts: &Texts) -> bool
    ensures { result ≡ is_long_by texts.now }
{
    texts.left.len() > MOST_CHARACTERS || texts.right.len() > MOST_CHARACTERS
}

impl<'a> ClashFilter<'a> {
    /// Two texts that clash, without blocks of their first characters: first long blocks, then
    /// shorter ones, down to a 256th of the left text.
    fn without_blocks(&self, given: Texts) -> Result<Texts, AllocError>
        requires { ClashAt self.now.table.now self.now.rules given.left.items given.right.items }
        ensures { IfOk result (Keeps self.now.table.now self.now.rules given) }
    {
        let least = given.left.len() / MOST_CHARACTERS;
        let mut size = given.left.len() / 2;
        let mut texts = given;
        while size > least {
            texts = self.without_blocks_of(texts, size)?;
            size /= 2;
        }
        Ok(texts)
    }

    /// Two texts that clash, without each block of this many characters that can be left out of
    /// both at one place.
    fn without_blocks_of(&self, given: Texts, size: usize) -> Result<Texts, AllocError>
        requires clash { ClashAt self.now.table.now self.now.rules given.left.items given.right.items }
        requires size { 0 < size }
        ensures { IfOk result (Keeps self.now.table.now self.now.rules given) }
    {
        let mut texts = given;
        let mut start: usize = 0;
        while start < texts.left.len() && start < texts.right.len() {
            let end = start.saturating_add(size);
            let next = both_without(self.alloc, &texts, start..end, start..end)?;
            if clash_at(self.alloc, self.table, &next, self.rules)? {
                texts = next;
            } else {
                start = end;
            }
        }
        Ok(texts)
    }

    /// Two texts that clash, without one character of one or of each as often as they clash then;
    /// long texts are left as they are.
    fn without_characters(&self, given: Texts) -> Result<Texts, AllocError>
        requires { ClashAt self.now.table.now self.now.rules given.left.items given.right.items }
        ensures texts { IfOk result (Keeps self.now.table.now self.now.rules given) }
        ensures small { IfOk result (λ texts. IsSmall self.now.table.now self.now.rules texts.left.items texts.right.items) }
    {
        if is_long(&given) {
            return Ok(given);
        }
        let mut texts = given;
        while let Some(next) = self.without_one(&texts)? {
            texts = next;
        }
        Ok(texts)
    }

    /// Two texts without one character of one or of each, if they clash then.
    fn without_one(&self, texts: &Texts) -> Result<Option<Texts>, AllocError>
        requires { ClashAt self.now.table.now self.now.rules texts.now.left.items texts.now.right.items }
        ensures keeps { IfOk result (λ found. IfSome found (Keeps self.now.table.now self.now.rules texts.now)) }
        ensures smaller { IfOk result (λ found. IfSome found (λ next. size_of next < size_of texts.now)) }
        ensures none { IfOk result (λ found. IfNone found (IsMinimal self.now.table.now self.now.rules texts.now.left.items texts.now.right.items)) }
    {
        let keys = Keys {
            left: keys_of(self.alloc, self.table, texts.left.as_slice())?,
            right: keys_of(self.alloc, self.table, texts.right.as_slice())?,
        };
        for place in 0..keys.left.len() {
            let found = self.without_one_at(texts, &keys, place)?;
            if found.is_some() {
                return Ok(found);
            }
        }
        Ok(None)
    }

    /// Two texts without the character at a place of the left one, and without none or one of the
    /// right one, if they clash then. The place after the last character means the whole text.
    fn without_one_at(
        &self,
        texts: &Texts,
        keys: &Keys,
        place: usize,
    ) -> Result<Option<Texts>, AllocError>
        requires clash { ClashAt self.now.table.now self.now.rules texts.now.left.items texts.now.right.items }
        requires left { AreKeysOf self.now.table.now texts.now.left.items keys.now.left.items }
        requires right { AreKeysOf self.now.table.now texts.now.right.items keys.now.right.items }
        requires place { place ≤ length texts.now.left.items }
        ensures keeps { IfOk result (λ found. IfSome found (Keeps self.now.table.now self.now.rules texts.now)) }
        ensures smaller { IfOk result (λ found. IfSome found (λ next. size_of next < size_of texts.now)) }
        ensures none { IfOk result (λ found. IfNone found
            ((other : ℕ) → other ≤ length texts.now.right.items → IsNone self.now.table.now self.now.rules texts.now place other)) }
    {
        for other in 0..keys.right.len() {
            if keys.left[place] == keys.right[other] {
                let found = self.without_at(texts, (place, other))?;
                if found.is_some() {
                    return Ok(found);
                }
            }
        }
        Ok(None)
    }

    /// Two texts without the characters at two places, if one of the places is in its text and they
    /// clash then.
    fn without_at(&self, texts: &Texts, places: (usize, usize)) -> Result<Option<Texts>, AllocError>
        requires clash { ClashAt self.now.table.now self.now.rules texts.now.left.items texts.now.right.items }
        requires left { places.0 ≤ length texts.now.left.items }
        requires right { places.1 ≤ length texts.now.right.items }
        ensures keeps { IfOk result (λ found. IfSome found (Keeps self.now.table.now self.now.rules texts.now)) }
        ensures smaller { IfOk result (λ found. IfSome found (λ next. size_of next < size_of texts.now)) }
        ensures none { IfOk result (λ found. IfNone found (IsNone self.now.table.now self.now.rules texts.now places.0 places.1)) }
    {
        let (left, right) = places;
        if left == texts.left.len() && right == texts.right.len() {
            return Ok(None);
        }
        let next = both_without(self.alloc, texts, left..left + 1, right..right + 1)?;
        if clash_at(self.alloc, self.table, &next, self.rules)? {
            Ok(Some(next))
        } else {
            Ok(None)
        }
    }
}

//! What is kept of the sections of a list when they were shown.
ghost use Rattle.std.specs.Prelude.{◌≡◌, ◌&&◌, [], None, Some, OnOk, true};
ghost use Rattle.brl_clashes.specs.ClashesText.{counts_of as counts_in};
ghost use Rattle.brl_clashes.specs.Sections.{is_whole as has_all, listed_after, lists_none as has_none, outcome_by};

use crate::Section;
use crate::accepted::push_section;
use crate::listed_pairs::ListedPairs;
use crate::section::{is_whole, lists_none};
use crate::verdict::{ListOutcome, counts_of};
use std::alloc::{AllocError, Global};

/// What is kept of sections, and of what is left of them beside what a file excuses.
#[derive(Drop)]
pub struct Tally {
    /// Whether each is the whole list of its texts.
    pub whole: bool,
    /// Whether no pair of rules is left.
    pub none: bool,
    /// On how many states and pairs the last one rests.
    pub counts: Option<(u64, u64)>,
    /// The pairs of rules that the sections list, each once.
    pub found: ListedPairs,
    /// The pairs of rules that are left.
    pub left: ListedPairs,
}

impl Tally {
    /// The tally before the first section: no pairs, no counts. No memory is allocated.
    pub fn new(alloc: Global) -> Tally
        ensures whole { result.whole ≡ true }
        ensures none { result.none ≡ true }
        ensures counts { result.counts ≡ None }
        ensures found { result.found ≡ [] }
        ensures left { result.left ≡ [] }
    {
        Tally {
            whole: true,
            none: true,
            counts: None,
            found: ListedPairs::new(alloc),
            left: ListedPairs::new(alloc),
        }
    }

    /// The outcome of the sections: that no pair is left, that some are and no others, or that
    /// there may be others.
    pub fn outcome(&self) -> ListOutcome
        ensures { result ≡ outcome_by self.now.whole self.now.none }
    {
        if !self.whole {
            return ListOutcome::Unfinished;
        }
        if !self.none {
            return ListOutcome::Clashing;
        }
        ListOutcome::Unambiguous
    }

    /// Notes a section.
    pub(crate) fn find(&mut self, alloc: Global, section: &Section) -> Result<(), AllocError>
        ensures whole { OnOk result (self.new.whole ≡ self.old.whole) }
        ensures none { OnOk result (self.new.none ≡ self.old.none) }
        ensures found { OnOk result (self.new.found ≡ listed_after self.old.found section.now) }
        ensures left { OnOk result (self.new.left ≡ self.old.left) }
    {
        push_section(alloc, &mut self.found, section)
    }

    /// Notes what is left of a section, but for its pairs of rules.
    pub(crate) fn keep(&mut self, left: &Section)
        ensures whole { self.new.whole ≡ (self.old.whole && has_all left.now.found) }
        ensures none { self.new.none ≡ (self.old.none && has_none left.now.found) }
        ensures counts { self.new.counts ≡ Some (counts_in left.now.found) }
        ensures found { self.new.found ≡ self.old.found }
        ensures left { self.new.left ≡ self.old.left }
    {
        self.whole = self.whole && is_whole(&left.found);
        self.none = self.none && lists_none(&left.found);
        self.counts = Some(counts_of(&left.found));
    }
}

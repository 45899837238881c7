//! Where a table has each character, by its code point.
ghost use Rattle.std.specs.Prelude.{◌≡◌, ◌==◌, ◌<◌, ◌≤◌, ℕ, IfOk, OnOk, length, nat_eq, if◌then◌else◌};
ghost use Rattle.std.specs.List.{IsDistinct};
ghost use Rattle.std.specs.Map.{keys_of};
ghost use Rattle.brl_rules.specs.Pages.{ArePagesOf, place_in};

use crate::Info;
use indexmap::IndexMap;
use std::alloc::{AllocError, Global};

/// The number of code points of a page.
const PAGE: usize = 256;

/// The place of a character that the table doesn't have. A table has far fewer places.
const NOWHERE: u16 = u16::MAX;

/// The place of each character of a table, in pages of 256 code points.
#[derive(Drop)]
pub struct Pages {
    /// The pages in order. One without a character of the table is empty.
    pages: Vec<Vec<u16>>,
}

impl Pages {
    /// The pages of these characters.
    pub fn of_characters(
        alloc: Global,
        characters: &IndexMap<char, Info>,
    ) -> Result<Pages, AllocError>
        requires few { length characters.now.entries ≤ 1024 }
        requires distinct { IsDistinct nat_eq (keys_of characters.now.entries) }
        ensures { IfOk result (ArePagesOf characters.now.entries) }
    {
        let mut pages = Pages {
            pages: Vec::new(alloc),
        };
        for place in 0..characters.len() {
            let (character, _) = characters.get_index(place).unwrap();
            pages.set(alloc, *character, place as u16)?;
        }
        Ok(pages)
    }

    /// Gives a character its place.
    fn set(&mut self, alloc: Global, character: char, place: u16) -> Result<(), AllocError>
        ensures { OnOk result ((c : ℕ) → place_in self.new c ≡ (if c == character then place else place_in self.old c)) }
    {
        let code = character as usize;
        self.reach(alloc, code / PAGE)?;
        let page = &mut self.pages[code / PAGE];
        page.resize(PAGE, NOWHERE)?;
        page[code % PAGE] = place;
        Ok(())
    }

    /// Adds empty pages until there is one with this number.
    fn reach(&mut self, alloc: Global, number: usize) -> Result<(), AllocError>
        ensures reached { OnOk result (number < length self.new.pages.items) }
        ensures same { OnOk result ((c : ℕ) → place_in self.new c ≡ place_in self.old c) }
    {
        while self.pages.len() <= number {
            self.pages.push(Vec::new(alloc))?;
        }
        Ok(())
    }

    /// The place of a character. One that the table doesn't have gets a greater number than any
    /// place.
    pub fn place(&self, character: char) -> usize
        ensures { result ≡ place_in self.now character }
    {
        let code = character as usize;
        match self.pages.get(code / PAGE) {
            Some(page) => match page.get(code % PAGE) {
                Some(place) => *place as usize,
                None => NOWHERE as usize,
            },
            None => NOWHERE as usize,
        }
    }
}

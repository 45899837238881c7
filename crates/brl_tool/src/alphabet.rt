//! The characters of which texts are made, as an option spells them.
ghost use Rattle.std.specs.Prelude.{◌≡◌, IfErr, IfOk, Some};
ghost use Rattle.brl_lines.specs.Escapes.{characters_of};
ghost use Rattle.brl_tool.specs.Alphabets.{IsMisspelled, only_spelled, spelled_by, without_spelled};
ghost use Rattle.brl_without.specs.Alphabet.{alphabet_view};
ghost use Rattle.brl_cli.specs.declared.command.AlphabetOption.TheVariants as options;

use brl_answers::RunFault;
use brl_cli::AlphabetOption;
use brl_failure::Failure;
use brl_lines::chars_of;
use brl_without::{Alphabet, spans_of};
use std::alloc::Global;

/// The characters of which texts are made, by an option that spells them as operands of a table
/// do. `BadLeftOut` and `BadOnly` where it has a bad escape, and where no character is given by
/// `Only`.
pub fn alphabet_of(alloc: Global, option: AlphabetOption<'_>) -> Result<Alphabet, RunFault>
    ensures spelled { IfOk result (λ alphabet. spelled_by option.entry ≡ Some (alphabet_view alphabet)) }
    ensures bad { IfErr result (IsMisspelled option.entry) }
{
    match option {
        AlphabetOption::All => Ok(Alphabet::Without(Vec::new(alloc))),
        AlphabetOption::Without(word) => without(alloc, word),
        AlphabetOption::Only(word) => only(alloc, word),
    }
}

/// All characters but those that a word spells.
fn without(alloc: Global, word: &str) -> Result<Alphabet, RunFault>
    ensures spelled { IfOk result (λ alphabet. without_spelled (characters_of word.now) ≡ Some (alphabet_view alphabet)) }
    ensures bad { IfErr result (IsMisspelled (options.Without word.entry)) }
{
    match chars_of(alloc, word) {
        Ok(characters) => Ok(Alphabet::Without(characters)),
        Err(Failure::Fault(_)) => Err(RunFault::BadLeftOut(String::from_str(alloc, word)?)),
        Err(Failure::Memory) => Err(RunFault::Memory),
    }
}

/// The characters that a word spells, of which there is one at least: a word that is empty by
/// mistake isn't to make every table unambiguous.
fn only(alloc: Global, word: &str) -> Result<Alphabet, RunFault>
    ensures spelled { IfOk result (λ alphabet. only_spelled (characters_of word.now) ≡ Some (alphabet_view alphabet)) }
    ensures bad { IfErr result (IsMisspelled (options.Only word.entry)) }
{
    match chars_of(alloc, word) {
        Ok(characters) if !characters.is_empty() => {
            Ok(Alphabet::Only(spans_of(alloc, characters.as_slice())?))
        }
        Err(Failure::Memory) => Err(RunFault::Memory),
        _ => Err(RunFault::BadOnly(String::from_str(alloc, word)?)),
    }
}

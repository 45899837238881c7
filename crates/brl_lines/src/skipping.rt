//! Loads a table without the hyphenation dictionaries that it includes.
ghost use Rattle.std.specs.Prelude.{◌≡◌, IfErr, IfOk, map};
ghost use Rattle.brl_failure.specs.Failure.{IfFault};
ghost use Rattle.brl_lines.specs.Gathered.{left_view};
ghost use Rattle.brl_lines.specs.Outcome.{CountsFailure};
ghost use Rattle.brl_lines.specs.Skipping.{AreLinesWithout, IsUnloaded};

use crate::expand::Expansion;
use crate::fault::LoadFault;
use crate::loaded::Loaded;
use crate::source::Source;
use crate::walk::walk;
use crate::way::{LeftInclude, Policy};
use brl_failure::Failure;
use std::alloc::Global;

/// A table that was loaded without the hyphenation dictionaries that it includes.
#[derive(Drop)]
pub struct WithoutDictionaries {
    pub loaded: Loaded,
    /// The include lines of the dictionaries, in the order in which they were reached.
    pub skipped: Vec<LeftInclude>,
}

/// Loads the lines of a table without the hyphenation dictionaries that it includes, and with the
/// include lines that are skipped so; or the first fault. A dictionary's name ends in `.dic`, and
/// its patterns aren't lines of a table.
///
/// A file that can't be read is a fault as in `load`.
pub fn load_without_dictionaries<S: Source>(
    alloc: Global,
    source: &mut S,
    root: &str,
) -> Result<WithoutDictionaries, Failure<LoadFault>>
    ensures lines { IfOk result (λ table.
        AreLinesWithout (S.gives source.old) root.now (map left_view table.skipped.items) table.loaded.paths table.loaded.lines) }
    ensures fault { IfErr result (IfFault (IsUnloaded (S.gives source.old) root.now)) }
    ensures count { CountsFailure (S.faults source.old) (S.faults source.new) result }
    ensures same { S.gives source.new ≡ S.gives source.old }
{
    let Expansion { files, spans, way } = walk(alloc, source, root, Policy::SkipDictionaries)?;
    Ok(WithoutDictionaries {
        loaded: Loaded::new(files, spans),
        skipped: way.left_out,
    })
}

//! Files in memory: no read of them fails.
ghost use Rattle.std.specs.Prelude.{Some};
ghost use Rattle.brl_failure.specs.Failure.{GivesAs};
ghost use Rattle.brl_lines.specs.InMemory.{answer_in, folders_of};
ghost use Rattle.brl_lines.specs.Lines.{lines_over};
ghost use Rattle.brl_lines.specs.Views.{load_fault_view};

use brl_failure::Failure;
use brl_lines::{LoadFault, Loaded, MapSource, files_in_memory_law, load};
use std::alloc::Global;

/// Loads over files in memory, with the outcome that all files of the map give.
pub fn load_in_memory(
    alloc: Global,
    source: &mut MapSource,
    root: &str,
) -> Result<Loaded, Failure<LoadFault>>
    ensures { GivesAs (λ loaded. loaded.lines) load_fault_view (lines_over (folders_of source.old.folders) (λ path. Some (answer_in source.old path)) root.now) result }
{
    files_in_memory_law(source);
    load(alloc, source, root)
}

//! The lines of a table that are shown under the steps of a text.
ghost use Rattle.std.specs.Prelude.{◌≡◌, IfOk, map};
ghost use Rattle.brl_lines.specs.Views.{line_view};
ghost use Rattle.brl_tool.specs.ByLines.{shown_lines};

use brl_lines::{Line, Loaded};
use std::alloc::{AllocError, Global};

/// The lines of loaded files, where they are shown, and else none.
pub fn shown_lines<'l>(
    alloc: Global,
    loaded: &'l Loaded,
    with_lines: bool,
) -> Result<Vec<Line<'l>>, AllocError>
    ensures { IfOk result (λ lines. map line_view lines.items ≡ shown_lines with_lines loaded.now.lines) }
{
    if !with_lines {
        return Ok(Vec::new(alloc));
    }
    loaded.lines(alloc)
}

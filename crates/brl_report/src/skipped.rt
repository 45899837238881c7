//! The include lines that a survey skipped.
ghost use Rattle.std.specs.Prelude.{◌≡◌, ◌++◌, IfOk, OnOk, flat_map, map, string_bytes};
ghost use Rattle.brl_lines.specs.Gathered.{left_view};
ghost use Rattle.brl_report.specs.Survey.{skipped_line};

use brl_lines::LeftInclude;
use std::alloc::{AllocError, Global};

/// The lines of a report for include lines of dictionaries that were skipped: the name in each, its
/// file, and its number there, from 1. Every line ends with LF. `AllocError` if memory runs out.
pub fn skipped_report(alloc: Global, skipped: &[LeftInclude]) -> Result<String, AllocError>
    ensures { IfOk result (λ text. string_bytes text ≡ flat_map skipped_line (map left_view skipped.now)) }
{
    let mut text = String::new(alloc);
    for left in skipped {
        push_skipped(&mut text, left)?;
    }
    Ok(text)
}

/// Appends the line of one of them.
fn push_skipped(text: &mut String, left: &LeftInclude) -> Result<(), AllocError>
    ensures { OnOk result (string_bytes text.new ≡ string_bytes text.old ++ skipped_line (left_view left.now)) }
{
    let name = left.name.as_str();
    let file = left.file.as_str();
    let line = left.line;
    writeln!(text, "skipped: {name} at {file}:{line}")?;
    Ok(())
}

//! Lines that begin with `noback`, where what follows that is a definition.
ghost use Rattle.std.specs.Prelude.{◌≡◌, ◌++◌, IfOk, OnOk, map};
ghost use Rattle.brl_lines.specs.Views.{line_view, token_view};
ghost use Rattle.brl_cut.specs.Files.{edit_view};
ghost use Rattle.brl_cut.specs.Rewriting.{edit_to_words, noback_edit, noback_edits};

use crate::files::Edit;
use crate::putting::push_if_put;
use brl_lines::{Line, Token};
use std::alloc::{AllocError, Global};

/// Adds the edit that puts these words before a line: an opcode and its first two operands.
fn push_words(
    alloc: Global,
    edits: &mut Vec<Edit>,
    line: &Line<'_>,
    words: &[Token<'_>],
) -> Result<(), AllocError>
    ensures { OnOk result (map edit_view edits.new.items ≡ map edit_view edits.old.items ++ edit_to_words (line_view line.now) (map token_view words.now)) }
{
    let [opcode, first, second, ..] = words else {
        return Ok(());
    };
    let mut operands = Vec::with_capacity(alloc, 2)?;
    operands.push(*first)?;
    operands.push(*second)?;
    let new = Line {
        file: line.file,
        line: line.line,
        opcode: *opcode,
        operands,
    };
    push_if_put(alloc, edits, &new)
}

/// Adds the edit of a line that begins with `noback`.
fn push_noback(alloc: Global, edits: &mut Vec<Edit>, line: &Line<'_>) -> Result<(), AllocError>
    ensures { OnOk result (map edit_view edits.new.items ≡ map edit_view edits.old.items ++ noback_edit (line_view line.now)) }
{
    if line.opcode.text == "noback" {
        push_words(alloc, edits, line, line.operands.as_slice())?;
    }
    Ok(())
}

/// The edits of lines that begin with `noback`.
pub(crate) fn noback_of_lines(alloc: Global, lines: &[Line<'_>]) -> Result<Vec<Edit>, AllocError>
    ensures { IfOk result (λ edits. map edit_view edits.items ≡ noback_edits (map line_view lines.now)) }
{
    let mut edits = Vec::new(alloc);
    for line in lines {
        push_noback(alloc, &mut edits, line)?;
    }
    Ok(edits)
}

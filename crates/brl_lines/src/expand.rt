//! The lines of a table in their order, each include line replaced by the lines of its file. A file
//! is read when a line first leads to it.
ghost use Rattle.std.specs.Prelude.{◌≡◌, IfErr, IfOk};
ghost use Rattle.brl_lines.specs.Files.{text_at};
ghost use Rattle.brl_lines.specs.Gathered.{walk_view};
ghost use Rattle.brl_lines.specs.Outcome.{CountsFailure};
ghost use Rattle.brl_lines.specs.Steps.{Expands, Fails, IsReady, walk_in};

use crate::entering::enter;
use crate::fault::LoadFault;
use crate::open_file::OpenFile;
use crate::read::ReadFiles;
use crate::row::{RowKind, row_from};
use crate::source::Source;
use crate::span::LineSpan;
use crate::way::{Policy, Way};
use brl_failure::Failure;
use std::alloc::Global;

/// A walk through the files of a table: the paths that were read, the lines so far, and its way.
#[derive(Drop)]
pub(crate) struct Expansion {
    pub files: ReadFiles,
    pub spans: Vec<LineSpan>,
    pub way: Way,
}

/// Adds the lines of a file, each include line replaced by the lines of its file.
pub(crate) fn expand<S: Source>(
    alloc: Global,
    source: &mut S,
    table: &mut Expansion,
    policy: Policy,
    root: &str,
    file: &OpenFile,
) -> Result<(), Failure<LoadFault>>
    requires { IsReady (S.gives source.old) table.old file.now }
    ensures ok { IfOk result (λ _. Expands (S.gives source.old) table.old table.new
        (walk_in policy (S.gives source.old).folders root.now file.now (text_at table.old.files.entries file.now.index))) }
    ensures err { IfErr result (Fails (S.gives source.old) table.old.files.entries
        (λ answer. walk_in policy (S.gives source.old).folders root.now file.now (text_at table.old.files.entries file.now.index) answer (walk_view table.old))) }
    ensures count { CountsFailure (S.faults source.old) (S.faults source.new) result }
    ensures same { S.gives source.new ≡ S.gives source.old }
{
    let mut number = 1u32;
    let mut at = 0;
    while let Some(row) = row_from(alloc, &table.files, file, number, at)? {
        at = row.next;
        number += 1;
        match row.kind {
            RowKind::Nothing => {}
            RowKind::Line => table.spans.push(row.span)?,
            RowKind::Include(include) => {
                if let Some(inner) = enter(alloc, source, table, policy, root, file, &include)? {
                    expand(alloc, source, table, policy, root, &inner)?;
                }
            }
        }
    }
    Ok(())
}

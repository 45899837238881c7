//! A walk through the files of a table, from its root on.
ghost use Rattle.std.specs.Prelude.{◌≡◌, IfErr, IfOk};
ghost use Rattle.brl_failure.specs.Failure.{IfFault};
ghost use Rattle.brl_lines.specs.Outcome.{CountsFailure};
ghost use Rattle.brl_lines.specs.Steps.{Stops, Walks};

use crate::expand::{Expansion, expand};
use crate::fault::{LoadFault, LoadFaultKind, refusal};
use crate::finding::locate;
use crate::include::last_part;
use crate::open_file::OpenFile;
use crate::read::index_at;
use crate::source::Source;
use crate::way::{Policy, Way};
use brl_failure::Failure;
use indexmap::IndexMap;
use std::alloc::Global;

/// How deep below the root a file may be.
const MOST_DEPTH: u32 = 15;

/// Walks through the files of the table whose root is at a path; or the first fault.
pub(crate) fn walk<S: Source>(
    alloc: Global,
    source: &mut S,
    root: &str,
    policy: Policy,
) -> Result<Expansion, Failure<LoadFault>>
    ensures ok { IfOk result (Walks (S.gives source.old) policy root.now) }
    ensures err { IfErr result (IfFault (Stops (S.gives source.old) policy root.now)) }
    ensures count { CountsFailure (S.faults source.old) (S.faults source.new) result }
    ensures same { S.gives source.new ≡ S.gives source.old }
{
    let mut table = Expansion {
        files: IndexMap::new(alloc),
        spans: Vec::new(alloc),
        way: Way::new(alloc),
    };
    let path = locate(alloc, source, &mut table.files, root, root, None)?;
    let at = path.as_str();
    let Some(index) = index_at(&table.files, at) else {
        return Err(refusal(alloc, LoadFaultKind::NotFound, at, None));
    };
    table.way.add_file(alloc, at, last_part(root))?;
    let file = OpenFile {
        index,
        path,
        includers: Vec::new(alloc),
        depth_left: MOST_DEPTH,
    };
    let top = file.path.as_str();
    expand(alloc, source, &mut table, policy, top, &file)?;
    Ok(table)
}

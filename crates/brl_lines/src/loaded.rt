//! Loading a table: its files are read and checked whole as lines lead to them.
ghost use Rattle.std.specs.Prelude.{◌≡◌, All, IfErr, IfOk, map};
ghost use Rattle.brl_lines.specs.Outcome.{AreLinesOfFiles, CountsFailure, IsLineOfFile, IsLoadFault};
ghost use Rattle.brl_lines.specs.Slices.{IsInOrder};
ghost use Rattle.brl_lines.specs.Views.{line_view};

use crate::cut::line_between;
use crate::fault::LoadFault;
use crate::line::Line;
use crate::read::ReadFiles;
use crate::row::text_of_file;
use crate::source::Source;
use crate::span::LineSpan;
use crate::walk::walk;
use crate::way::Policy;
use brl_failure::Failure;
use std::alloc::{AllocError, Global};
use std::marker::Model;

/// A table whose files were read and found good. A contract sees its lines, and the paths that were
/// read.
#[derive(Drop)]
pub struct Loaded {
    files: ReadFiles,
    spans: Vec<LineSpan>,
}

impl Model for Loaded {
    ghost use Rattle.brl_lines.specs.Files.{loaded_view};
    ghost use Rattle.brl_lines.specs.Loaded.{LoadedView};
    ghost use Rattle.brl_lines.specs.Steps.{AreSpans};

    ghost Value = { LoadedView };

    ghost view = { λ l. loaded_view l.files.entries l.spans.items };

    ghost invariant = { λ l. AreSpans l.files.entries l.spans.items };
}

impl Loaded {
    ghost use Rattle.brl_lines.specs.Files.{loaded_view};
    ghost use Rattle.brl_lines.specs.Steps.{AreSpans};

    /// What was read for spans that are within it.
    pub(crate) fn new(files: ReadFiles, spans: Vec<LineSpan>) -> Loaded
        requires { AreSpans files.entries spans.items }
        ensures { result ≡ loaded_view files.entries spans.items }
    {
        Loaded { files, spans }
    }

    /// The lines that do something, each include line replaced by those of its file; their tokens
    /// are in order and don't overlap. Tokens are slices of the texts that were read. `AllocError`
    /// where an allocation failed.
    pub fn lines(&self, alloc: Global) -> Result<Vec<Line<'_>>, AllocError>
        ensures lines { IfOk result (λ v. map line_view v.items ≡ self.now.lines) }
        ensures in_order { All IsInOrder self.now.lines }
    {
        let mut lines = Vec::new(alloc);
        for span in &self.spans {
            let (path, file) = self.files.get_index(span.file).unwrap();
            let text = text_of_file(file);
            let path = path.as_str();
            if let Some(line) = line_between(alloc, path, span.line, text, span.from, span.to)? {
                lines.push(line)?;
            }
        }
        Ok(lines)
    }

    /// The paths that were read, each once, in that order: those of its files, and those where a
    /// file was looked for in vain that was found in a folder. `AllocError` where an allocation
    /// failed.
    pub fn paths(&self, alloc: Global) -> Result<Vec<&str>, AllocError>
        ensures { IfOk result (λ v. map (λ path. path.now) v.items ≡ self.now.paths) }
    {
        let mut paths = Vec::new(alloc);
        for index in 0..self.files.len() {
            let (path, _) = self.files.get_index(index).unwrap();
            paths.push(path.as_str())?;
        }
        Ok(paths)
    }
}

/// Reads the table whose root is at a path: its lines, each include line replaced, as slices of the
/// files that are found; or the first fault.
///
/// Each path is read once, as lines lead to it. A line `include NAME` is replaced by the lines of
/// the file at NAME where that begins with `/`, else of the file NAME in the root's folder. Where
/// there is no file, it is looked for by its name in the folders of the source, in their order,
/// unless the name begins with `/` or the file would be too deep; so is the root, whose name is its
/// path. A file that is found is named by the path where it is. An include line is refused, in this
/// order, as `TooManyIncludes` where 1,024 were followed before, as `Cycle` where its file leads to
/// itself, and as `TooDeep` where its file would be deeper than 16, the root being 1; the file
/// then, as the root, as `NotFound`, `ReadFailed` or `TooLarge` where the source says so, as
/// `TooLarge` where it gave more than `MOST_FILE_BYTES` all the same, as `NotUtf8`, and as
/// `LineTooLong` at its first line of more than 2,048 bytes. An include line with no name stays
/// among the lines.
pub fn load<S: Source>(
    alloc: Global,
    source: &mut S,
    root: &str,
) -> Result<Loaded, Failure<LoadFault>>
    ensures lines { IfOk result (λ loaded. AreLinesOfFiles (S.gives source.old) root.now loaded.paths loaded.lines) }
    ensures slices { IfOk result (λ loaded. All (IsLineOfFile (S.gives source.old)) loaded.lines) }
    ensures fault { IfErr result (IsLoadFault (S.gives source.old) root.now) }
    ensures count { CountsFailure (S.faults source.old) (S.faults source.new) result }
    ensures same { S.gives source.new ≡ S.gives source.old }
{
    let table = walk(alloc, source, root, Policy::Load)?;
    Ok(Loaded::new(table.files, table.spans))
}

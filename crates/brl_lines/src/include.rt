//! The file that an include line names.
ghost use Rattle.std.specs.Prelude.{◌≡◌, IfOk, codes, nat_eq, option_map, string_bytes};
ghost use Rattle.std.specs.List.{ends_with};
ghost use Rattle.brl_lines.specs.Includes.{folder_of, included as included_of, last_part as last_part_of, name_of, path_in as path_of_name, slash_after as slash_between};
ghost use Rattle.brl_lines.specs.Views.{line_view};

use crate::line::Line;
use std::alloc::{AllocError, Global};

/// A line that includes a file: its number from 1, and the name in it.
#[derive(Drop)]
pub(crate) struct IncludeLine {
    pub line: u32,
    pub name: String,
}

/// The name in an include line.
pub(crate) fn include_name<'a>(line: &Line<'a>) -> Option<&'a str>
    ensures { option_map (λ name. name.now) result ≡ name_of (line_view line.now) }
{
    if line.opcode.text != "include" {
        return None;
    }
    match line.operands.first() {
        Some(name) => Some(name.text),
        None => None,
    }
}

/// A path up to its last slash, and with it.
pub fn folder(path: &str) -> &str
    ensures { result.now ≡ folder_of path.now }
{
    let bytes = path.as_bytes();
    let mut end = bytes.len();
    while end > 0 && bytes[end - 1] != b'/' {
        end -= 1;
    }
    &path[..end]
}

/// What is after the last slash of a path.
pub fn last_part(path: &str) -> &str
    ensures { result.now ≡ last_part_of path.now }
{
    match path.strip_prefix(folder(path)) {
        Some(part) => part,
        None => path,
    }
}

/// Whether a path ends with a slash.
fn ends_with_slash(path: &str) -> bool
    ensures { result ≡ ends_with nat_eq path.now (codes "/") }
{
    path.ends_with("/")
}

/// What is between a folder and a name in it: a slash, unless the folder ends with one or is empty.
fn slash_after(folder: &str) -> &'static str
    ensures { result.now ≡ slash_between folder.now }
{
    if folder.is_empty() || ends_with_slash(folder) {
        ""
    } else {
        "/"
    }
}

/// The path of a name in a folder: with a slash between them, unless the folder ends with one or is
/// empty. `AllocError` where an allocation failed.
pub fn path_in(alloc: Global, folder: &str, name: &str) -> Result<String, AllocError>
    ensures { IfOk result (λ path. string_bytes path ≡ path_of_name folder.now name.now) }
{
    let mut path = String::from_str(alloc, folder)?;
    path.push_str(slash_after(folder))?;
    path.push_str(name)?;
    Ok(path)
}

/// The path of the file that a name includes, in the table whose root is at a path.
pub(crate) fn included(alloc: Global, root: &str, name: &str) -> Result<String, AllocError>
    ensures { IfOk result (λ path. string_bytes path ≡ included_of root.now name.now) }
{
    if name.starts_with('/') {
        return String::from_str(alloc, name);
    }
    let mut path = String::from_str(alloc, folder(root))?;
    path.push_str(name)?;
    Ok(path)
}

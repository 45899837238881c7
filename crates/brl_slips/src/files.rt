//! How the files of a table are named.
use brl_lines::{Line, last_part};
use std::alloc::{AllocError, Global};

/// The paths of the files of lines, each once.
#[derive(Drop)]
pub struct FileNames<'a> {
    paths: Vec<&'a str>,
}

impl<'a> FileNames<'a> {
    /// The files of these lines.
    pub fn of_lines(alloc: Global, lines: &[Line<'a>]) -> Result<FileNames<'a>, AllocError> {
        let mut paths: Vec<&'a str> = Vec::new(alloc);
        let mut last = "";
        for line in lines {
            if line.file != last && !paths.iter().any(|path| *path == line.file) {
                paths.push(line.file)?;
            }
            last = line.file;
        }
        Ok(FileNames { paths })
    }

    /// The name of the file at a path: the last part of the path, and the whole where another file
    /// has that.
    pub fn name<'b>(&self, path: &'b str) -> &'b str {
        let name = last_part(path);
        if self
            .paths
            .iter()
            .any(|other| *other != path && last_part(other) == name)
        {
            return path;
        }
        name
    }
}

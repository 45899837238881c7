//! The files that an answer has.

/// A file to be written.
#[derive(Debug, Drop)]
pub struct NewFile {
    pub path: String,
    pub bytes: Vec<u8>,
}

/// The files that are written before an answer's text.
#[derive(Drop)]
pub enum NewFiles {
    /// None.
    Nothing,
    /// One, in place of what was at its path.
    InPlace(NewFile),
    /// Files at whose paths nothing may be, in the order in which they are made.
    AllNew(Vec<NewFile>),
}

//! Which file a line stands in.

/// The file that a place or a fault speaks of, by the part that it plays. This project's own.
#[derive(Clone, Copy, Debug, PartialEq, Eq)]
pub enum FileTag {
    /// The web.
    Web,
    /// The change file.
    Change,
    /// The string pool.
    Pool,
    /// The Pascal text.
    Pas,
    /// The header of the C files.
    Header,
    /// The C file of this number, from 0.
    Code(u32),
}

/// A line of a file.
#[derive(Clone, Copy, Debug, PartialEq, Eq)]
pub struct Place {
    /// The file.
    pub file: FileTag,
    /// The line's number, from 1; 0 stands for the file as a whole.
    pub line: u32,
}

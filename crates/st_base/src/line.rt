//! Places in source files.

/// A place in a source file: the number of the file and of the line in it, both from 1.
#[derive(Clone, Copy, PartialEq, Eq, Debug)]
pub struct Line {
    pub file: u32,
    pub line: u32,
}

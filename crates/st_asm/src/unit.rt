//! Units: the functions and the read-only data of all files.
use st_base::line::Line;
use st_base::lists::Listed;
use st_base::name::Name;
use st_line::SourceIns;

/// An instruction line, or a line `.st_fork`.
#[derive(Debug, Drop)]
pub struct SourceLine {
    pub line: Line,
    /// Whether a label stands at this place, on this line or on one before it.
    pub labelled: bool,
    pub ins: SourceIns,
}

/// A function: a label that isn't local, up to the next such label in code or the end of its file.
#[derive(Drop)]
pub struct Function {
    pub name: Name,
    /// How many integers it takes: 0 to 6.
    pub ints: u32,
    /// How many handles it takes: 0 to 2.
    pub handles: u32,
    /// How many handle slots its frame has: 0 to 252.
    pub slots: u32,
    /// The line of its label.
    pub line: Line,
    pub items: Listed<SourceLine>,
}

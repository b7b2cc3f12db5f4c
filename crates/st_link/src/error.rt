//! Why a unit gave no image.
use st_base::failure::Failure;
use st_base::line::Line;

/// A branch that doesn't reach, `L1 BranchRange`.
#[derive(Clone, Copy, PartialEq, Eq, Debug)]
pub struct LinkFault {
    /// The line of the branch.
    pub line: Line,
    /// Its distance in the postprocessed layout, in bytes: less than -4096 or more than 4094.
    pub distance: i64,
}

/// Why a unit gave no image: its first branch that doesn't reach, or want of memory.
pub type LinkError = Failure<LinkFault>;

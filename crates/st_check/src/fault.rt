//! Why a unit isn't accepted.
use st_base::form::FormKind;
use st_base::line::Line;
use st_base::lists::Listed;

/// A fault of form, at its line.
#[derive(Drop)]
pub struct FormFault {
    pub line: Line,
    pub kind: FormKind,
    /// Of an undefined read, the first lines of the items of a path to it, the prologue's first and the reading item's
    /// last; empty for every other fault.
    pub path: Listed<Line>,
}

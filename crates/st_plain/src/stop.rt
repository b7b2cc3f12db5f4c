//! Why a run ends.
use st_base::limits::LimitKind;
use st_base::line::Line;
use st_base::thread::TrapKind;

/// Why a run ends. The thread that it is about is the running one.
#[derive(Clone, Copy)]
pub enum Ending {
    /// The root's first call has ended.
    Done,
    /// The thread traps at this line.
    Trap { kind: TrapKind, line: Line },
    /// The thread waits at the join of this line.
    Waits { line: Line },
    /// A byte past 1,048,576 was to be printed.
    OutLimit,
    Limit(LimitKind),
}

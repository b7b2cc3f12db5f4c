//! How a run ends.
use crate::limits::LimitKind;
use crate::line::Line;
use crate::path::{Bytes, Path};
use crate::thread::TrapKind;

/// The answer of a run.
#[derive(Drop)]
pub enum Answer {
    /// Every thread has ended.
    Done,
    /// The trap of least key, its line and its thread.
    Trap {
        kind: TrapKind,
        line: Line,
        path: Path,
    },
    /// No thread has a step left, and one is unfinished: where it waits, and which it is.
    Deadlock {
        line: Line,
        path: Path,
    },
    /// A limit was met.
    Limit(LimitKind),
}

/// The end of a run.
#[derive(Drop)]
pub struct RunEnd {
    pub answer: Answer,
    /// The bytes that count.
    pub out: Bytes,
    /// How many threads were made, the root among them.
    pub threads: u32,
}

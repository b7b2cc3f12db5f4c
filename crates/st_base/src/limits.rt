//! Limits of a run.
ghost use Rattle.std.specs.Prelude.{◌≡◌, ◌≤◌, ◌%◌, ◌^◌};

/// A limit that a run met.
#[derive(Clone, Copy, PartialEq, Eq, Debug)]
pub enum LimitKind {
    /// A worker's stack had no room for a frame of so many bytes.
    Stack { worker: u32, frame: u32 },
    /// A thread or a counter was to be made past this number of cells.
    Cell { cells: u32 },
    /// A worker had begun as many items as it may.
    Step { worker: u32 },
    /// A byte was to be printed past 1,048,576.
    Out,
    /// The input has more than 16,777,216 bytes.
    Input,
    /// As many turns as allowed were made.
    Turn,
}

/// The least stack of a worker, in bytes.
pub const LEAST_STACK: u32 = 1024;
/// The greatest stack of a worker, in bytes.
pub const MOST_STACK: u32 = 1_048_576;
/// The fewest threads and counters that a run may be limited to.
pub const LEAST_CELLS: u32 = 16;
/// The most threads and counters that a run may have.
pub const MOST_CELLS: u32 = 65_536;
/// The most steps that a worker may begin.
pub const MOST_STEPS: u64 = 1 << 40;

/// The limits that a run is given. Its values are always within their ranges.
#[derive(Clone, Copy)]
pub struct Limits {
    /// The bytes of each worker's stack: 1,024 to 1,048,576, a multiple of 16.
    pub stack: u32,
    /// How many threads and counters there may be in all: 16 to 65,536.
    pub cells: u32,
    /// How many steps each worker may begin: 1 to 2^40.
    pub steps: u64,
    ghost stack_least: { 1024 ≤ stack },
    ghost stack_most: { stack ≤ 1048576 },
    ghost stack_multiple: { stack % 16 ≡ 0 },
    ghost cells_least: { 16 ≤ cells },
    ghost cells_most: { cells ≤ 65536 },
    ghost steps_least: { 1 ≤ steps },
    ghost steps_most: { steps ≤ 2 ^ 40 },
}

impl Limits {
    /// The limits of a run that names none: 1,048,576 bytes, 16,384 cells, 2^32 steps.
    pub fn standard() -> Limits
        ensures stack { result.stack ≡ 1048576 }
        ensures cells { result.cells ≡ 16384 }
        ensures steps { result.steps ≡ 2 ^ 32 }
    {
        Limits {
            stack: MOST_STACK,
            cells: 16_384,
            steps: 1 << 32,
        }
    }
}

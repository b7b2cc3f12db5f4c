//! What a run keeps of threads, futures and counters.
use st_base::reg::Reg;

/// What a cell was drawn for.
#[derive(Clone, Copy)]
pub enum Cell {
    /// A thread's future, with its value once the thread has ended.
    Future { value: Option<u64> },
    /// A counter.
    Counter { count: u64 },
}

/// A thread that hasn't ended.
#[derive(Clone, Copy)]
pub struct Note {
    /// Its cell.
    pub cell: u32,
    /// How many children it has made.
    pub forks: u32,
    /// How many counters it has made.
    pub counters: u32,
    /// The register of its parent that gets its future.
    pub handle: Reg,
}

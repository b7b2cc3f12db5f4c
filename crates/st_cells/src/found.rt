//! What the calls on cells find.

/// All numbers of cells are drawn.
#[derive(Clone, Copy, PartialEq, Eq, Debug)]
pub struct Full {
    /// The number of cells.
    pub cells: u32,
}

/// Who a cell belongs to.
#[derive(Clone, Copy, PartialEq, Eq, Debug)]
pub struct Owner {
    /// Whether it is a counter's; else it is a thread's.
    pub counter: bool,
    /// The cell of the thread's parent, or of the counter's maker.
    pub parent: u32,
    /// The number among the parent's children or the maker's counters, from 0.
    pub number: u32,
}

/// What a look at a future finds.
#[derive(Clone, Copy, PartialEq, Eq, Debug)]
pub enum Looked {
    /// It is full.
    Full,
    /// It isn't; `seen` is its State word: 0, or the number of the first waiter and 1.
    Empty { seen: u64 },
}

/// What a counter has.
#[derive(Clone, Copy, PartialEq, Eq, Debug)]
pub struct Counted {
    pub count: u64,
    /// The number of the first waiter and 1, or 0.
    pub head: u64,
    /// Its State word.
    pub seen: u64,
}

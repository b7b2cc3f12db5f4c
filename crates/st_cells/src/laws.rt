//! Laws of cells: each is the contract of a function with an empty body.
ghost use Rattle.st_cells.specs.Laws.{FullStays, ValueStays, AgainKeeps};
ghost use Rattle.st_cells.specs.Waiters.{NoneIsLost, ListsStay};

/// A full future stays full, whatever step a worker makes that doesn't take its cell for a counter's.
pub fn full_stays()
    ensures { FullStays }
{}

/// The value of a future is stored by who holds its thread alone, and by nobody once it is full.
pub fn value_stays()
    ensures { ValueStays }
{}

/// After a compare and exchange that found another word, nothing has changed.
pub fn again_keeps()
    ensures { AgainKeeps }
{}

/// No waiter is lost: whatever step a worker makes that has none of a cell's waiters in hand, they go on waiting, or one more waits before
/// them, or all are handed out by the head that the step found.
pub fn none_is_lost()
    ensures { NoneIsLost }
{}

/// A list of waiters stays, whatever step a worker makes that has none of them in hand.
pub fn lists_stay()
    ensures { ListsStay }
{}

//! Laws without code.
ghost use Rattle.st_wakes.specs.Waiters.{WaitersFit};

/// Each phase of waiters in hand keeps a worker that fits its board's view.
pub fn waiters_fit()
    ensures { WaitersFit }
{}

//! The active count is kept by all that workers do, and what follows from it: laws without code.
ghost use Rattle.st_counts.specs.Laws.{Kept, MoveLaws, ToldLaws, NoneLaws, First};

/// Each of the kinds of step of a worker keeps the active count, whatever is answered.
pub fn steps_keep()
    ensures { Kept }
{}

/// What a worker does between its steps keeps it: items, suspending, giving, restarting, beginning a child, exporting a frame.
pub fn moves_keep()
    ensures { MoveLaws }
{}

/// The count is at least each worker's share and doesn't wrap; a share covers threads and turn.
pub fn told_laws()
    ensures { ToldLaws }
{}

/// Where nothing is active, no worker has anything to do, and nothing becomes active again.
pub fn none_laws()
    ensures { NoneLaws }
{}

/// A board that is opened counts the root's chain as active.
pub fn first_counts()
    ensures { First }
{}

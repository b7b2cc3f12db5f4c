//! The numbers of workers are within the run behind, by careful steps and all that a worker does between them: laws without code.
ghost use Rattle.st_limits.specs.Laws.{Kept, MovesKept, First};

use st_words::run::Program;

/// Each careful step keeps it, with the run after its item.
pub fn kept_by_steps<P: Program>()
    ensures { Kept P.means }
{}

/// So does what a worker does between its steps.
pub fn moves_keep()
    ensures { MovesKept }
{}

/// A board that is opened is at the start of a run.
pub fn first_limits()
    ensures { First }
{}

//! Each thread and counter has one cell that shows it, by careful steps and all that a worker does between them: laws without code.
ghost use Rattle.st_named.specs.Laws.{Kept, MovesKept};

use st_words::run::Program;

/// Each careful step keeps the names and what the cells show, with the heap after its item.
pub fn kept_by_steps<P: Program>()
    ensures { Kept P.means }
{}

/// So does what a worker does between its steps.
pub fn moves_keep()
    ensures { MovesKept }
{}

//! What views have seen of cells stays so, by careful steps and all that a worker does between them: laws without code.
ghost use Rattle.st_knows.specs.Laws.{Kept, MoveLaws, ToldLaws, First};

use st_words::run::Program;

/// Each careful step of a worker keeps it, whatever is answered.
pub fn kept_by_steps<P: Program>()
    ensures { Kept P.means }
{}

/// So does what a worker does between its steps.
pub fn moves_keep()
    ensures { MoveLaws }
{}

/// Loads answer what was seen, and a cell is of the kind that the worker takes it for.
pub fn told_laws()
    ensures { ToldLaws }
{}

/// A board that is opened has it: nothing was seen.
pub fn first_knows()
    ensures { First }
{}

//! Each number is drawn once and names one cell, by careful steps and all that a worker does between them: laws without code.
ghost use Rattle.st_draws.specs.Laws.{Kept, MoveLaws, ToldLaws, First};

use st_words::run::Program;

/// Each careful step of a worker keeps it, whatever is answered.
pub fn kept_by_steps<P: Program>()
    ensures { Kept P.means }
{}

/// So does what a worker does between its steps.
pub fn moves_keep()
    ensures { MoveLaws }
{}

/// A number that is drawn is nobody's, and Drawn doesn't wrap.
pub fn told_laws()
    ensures { ToldLaws }
{}

/// A board that is opened, for at most 31 workers, has it.
pub fn first_draws()
    ensures { First }
{}

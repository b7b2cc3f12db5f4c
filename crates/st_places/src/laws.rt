//! The place of each thread is kept by careful steps: a law without code.
ghost use Rattle.st_places.specs.Laws.{Kept};

use st_words::run::Program;

/// Each careful step of a worker keeps the places, whatever is answered.
pub fn kept_by_steps<P: Program>()
    ensures { Kept P.means }
{}

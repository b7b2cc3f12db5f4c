//! That the chains in slots walk is kept by careful steps: laws without code.
ghost use Rattle.st_walks.specs.Laws.{Kept, First};

use st_words::run::Program;

/// Each careful step of a worker keeps that they walk, whatever is answered.
pub fn kept_by_steps<P: Program>()
    ensures { Kept P.means }
{}

/// On a board that is opened they do, where the root's first chain walks.
pub fn first_walks<P: Program>()
    ensures { First P.means }
{}

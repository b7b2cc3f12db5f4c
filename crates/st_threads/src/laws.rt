//! Each thread that hasn't ended is held once, by careful steps and all that a worker does between them: laws without code.
ghost use Rattle.st_threads.specs.Laws.{StepGoes, MoveGoes, Kept, MovesKept, ToldLaws, First};

use st_words::run::Program;

/// The item that goes with a step takes the heap on by one step of the machine at most.
pub fn steps_go()
    ensures { StepGoes }
{}

/// So does a move that a worker makes by itself.
pub fn moves_go()
    ensures { MoveGoes }
{}

/// Each careful step keeps who holds each thread, with the heap after its item.
pub fn kept_by_steps<P: Program>()
    ensures { Kept P.means }
{}

/// So does what a worker does between its steps.
pub fn moves_keep()
    ensures { MovesKept }
{}

/// A thread that hasn't ended is held once, and what is held is in the heap.
pub fn told_laws()
    ensures { ToldLaws }
{}

/// A board that is opened for the root's thread has the first heap behind it.
pub fn first_threads()
    ensures { First }
{}

//! What the Out words show is kept by steps and by all that a worker does between them: laws without code.
ghost use Rattle.st_output.specs.Laws.{Kept, MovesKept, First};

/// Each step keeps what the output shows, with the heap after its item.
pub fn kept_by_steps()
    ensures { Kept }
{}

/// So does what a worker does between its steps.
pub fn moves_keep()
    ensures { MovesKept }
{}

/// A board that is opened shows nothing.
pub fn first_output()
    ensures { First }
{}

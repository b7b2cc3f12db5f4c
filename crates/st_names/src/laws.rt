//! What follows from the names of cells, and that a board which is opened has them: laws without code.
ghost use Rattle.st_names.specs.Laws.{Told, First};

/// What was seen is so in the heap, a cell has one name and a name one cell, and each cell shows its thread or counter.
pub fn told_laws()
    ensures { Told }
{}

/// A board that is opened for the root's thread has the root's cell named.
pub fn first_names()
    ensures { First }
{}

//! What is read of a worker's threads: a law without code.
ghost use Rattle.st_standing.specs.Laws.{StandingSame};

/// A worker's threads are read from the words of their frames and the names that the worker has, and from nothing else.
pub fn standing_same()
    ensures { StandingSame }
{}

//! What the items of a worker's top thread store, and where they do not: a law without code.
ghost use Rattle.st_sparing.specs.Sparing.{ItemsSpare};

/// All instructions on the way of the next item spare the return words of the frames of the worker's threads: only a mark stores a 0 there.
pub fn items_spare()
    ensures { ItemsSpare }
{}

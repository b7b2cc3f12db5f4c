//! Where the frames of a worker's threads lie: laws without code.
ghost use Rattle.st_framed.specs.Framed.{FramedLaws};

/// Below sp a worker holds all words of its stack, and no frame of its threads lies there; items, shrinking, a thread that leaves and a chain that
/// comes keep its frames where they may lie.
pub fn framed_laws()
    ensures { FramedLaws }
{}

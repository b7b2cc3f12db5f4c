//! What worlds have to do with boards over vectors, and sums of numbers: laws without code.
ghost use Rattle.st_world.specs.Laws.{PlainLaws, TotalLaws};

/// A board over vectors answers what its world answers, and its step leaves the world that its world leaves.
pub fn plain_laws()
    ensures { PlainLaws }
{}

/// A sum over the numbers below a bound, where one of them is changed.
pub fn total_laws()
    ensures { TotalLaws }
{}

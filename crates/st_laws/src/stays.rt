//! What a run leaves as it is.

ghost use Rattle.st_laws.specs.Stays.{CountsGrow, EndedStays, OtherStays, ReachedIsNumbered, Rests, RunIsNumbered, SeenEnables, SeenStays};

/// In a reached heap the children of each thread have the numbers below its forks.
pub fn reached_is_numbered()
    ensures { ReachedIsNumbered }
{}

/// A run keeps a heap numbered.
pub fn run_is_numbered()
    ensures { RunIsNumbered }
{}

/// A thread that has ended stays so, with its value.
pub fn ended_stays()
    ensures { EndedStays }
{}

/// No count falls.
pub fn counts_grow()
    ensures { CountsGrow }
{}

/// What can be done by values and counts that were seen can be done.
pub fn seen_enables()
    ensures { SeenEnables }
{}

/// Values and counts that were seen of a heap are those of each later one.
pub fn seen_stays()
    ensures { SeenStays }
{}

/// A step of another thread leaves a thread as it is.
pub fn other_stays()
    ensures { OtherStays }
{}

/// A thread that makes no step of a run is left as it is.
pub fn rests()
    ensures { Rests }
{}

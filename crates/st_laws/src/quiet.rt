//! Quiet heaps, and the end of the ordinary-call run.

ghost use Rattle.st_laws.specs.QuietEnd.{QuietIsOrdinary, QuietGivesEnd, QuietHasEnd, HasAnswer, QuietRanAll, UnfinishedIsAfter, ThreadsAreCounted};

/// Where the ordinary-call run never waits, a quiet heap's answer and counted bytes are its end.
pub fn quiet_is_ordinary()
    ensures { QuietIsOrdinary }
{}

/// A quiet heap gives the end of an ordinary-call run that does not end by waiting.
pub fn quiet_gives_end()
    ensures { QuietGivesEnd }
{}

/// Where a run of an accepted program reaches a quiet heap, its ordinary-call run has an end; so one without an end has no quiet heap.
pub fn quiet_has_end()
    ensures { QuietHasEnd }
{}

/// Each heap that a run of an accepted program reaches has an answer.
pub fn has_answer()
    ensures { HasAnswer }
{}

/// Where the answer is Done, each path of the ordinary-call run has ended, with its value.
pub fn quiet_ran_all()
    ensures { QuietRanAll }
{}

/// In a quiet heap what has not ended is after the end of an ordinary-call run that does not end by waiting.
pub fn unfinished_is_after()
    ensures { UnfinishedIsAfter }
{}

/// Where the ordinary-call run is Done, a quiet heap has just its threads, each once.
pub fn threads_are_counted()
    ensures { ThreadsAreCounted }
{}

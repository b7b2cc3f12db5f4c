//! Laws of what a worker does by itself.
ghost use Rattle.st_made.specs.Laws.{MadeIsFree, MadeFollows, MadeStays};
ghost use Rattle.st_made.specs.EventLaws.{EventsByKind};
ghost use Rattle.st_made.specs.Runs.{MadeRuns, EventRuns};

/// What is made is within what a plain board leaves free before a step.
pub fn made_is_free()
    ensures { MadeIsFree }
{}

/// Moves after moves are moves.
pub fn made_follows()
    ensures { MadeFollows }
{}

/// No move changes what the worker has seen, named, drawn or been handed.
pub fn made_stays()
    ensures { MadeStays }
{}

/// What is made is a run of the heap-frame machine by the threads of the view, which leaves all other threads as they are.
pub fn made_runs()
    ensures { MadeRuns }
{}

/// The item that goes with a step of a cell, and what the step leaves of the view, are decided by the same tests.
pub fn events_by_kind()
    ensures { EventsByKind }
{}

/// The item that goes with a step is one step of the heap-frame machine by the view's top thread, or none.
pub fn event_runs()
    ensures { EventRuns }
{}

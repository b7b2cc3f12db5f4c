//! Items that are begun, and the limits that runs pass.

ghost use Rattle.st_laws.specs.Begun.{BegunAdd, BegunAreMade, BegunPassStep, BegunPassSums, BegunWithin, DoneIsQuiet, DoneKeepsLimits, DoneWithin, QuietPasses, TotalsWithin};

/// Items that are begun are made in a longer run, or wait at its end.
pub fn begun_are_made()
    ensures { BegunAreMade }
{}

/// Where the steps of a run and the items begun at its end are more than a limit, some run passes the limit.
pub fn begun_pass_step()
    ensures { BegunPassStep }
{}

/// No run begins more items than a run to a quiet heap, with the threads that wait there.
pub fn begun_within()
    ensures { BegunWithin }
{}

/// Where the ordinary-call run is Done in n steps, no run begins more than n items.
pub fn done_within()
    ensures { DoneWithin }
{}

/// A limit of frame bytes or of cells that some run passes is passed by each run to a quiet heap.
pub fn quiet_passes()
    ensures { QuietPasses }
{}

/// No sum over the steps of a run, of items, frame bytes or cells, is greater than that of a run to a quiet heap.
pub fn totals_within()
    ensures { TotalsWithin }
{}

/// Items that were begun by threads that have a step add to each sum of some longer run.
pub fn begun_add()
    ensures { BegunAdd }
{}

/// Where the frame bytes or the cells of a run and of the items begun at its end are more than a limit, some run passes the limit.
pub fn begun_pass_sums()
    ensures { BegunPassSums }
{}

/// An ordinary-call run that is Done is itself a run to a quiet heap.
pub fn done_is_quiet()
    ensures { DoneIsQuiet }
{}

/// Where the ordinary-call run is Done, no run passes a limit of frame bytes or of cells that its own sums keep.
pub fn done_keeps_limits()
    ensures { DoneKeepsLimits }
{}

//! The threads of the heap-frame machine, and the ordinary-call run.

ghost use Rattle.st_laws.specs.Sequential.{StartStands, IsSequential, AllAgree};
ghost use Rattle.st_laws.specs.Agreement.{AgreesWithEnd, AgreesWithoutEnd, EndedAgrees, ValueAgrees};

/// The first heap has the thread of the first ordinary state.
pub fn start_stands()
    ensures { StartStands }
{}

/// Each step of the ordinary-call run is a step of the heap-frame machine by its newest thread.
pub fn sequential()
    ensures { IsSequential }
{}

/// After as many steps of its own, a thread is as it is in the ordinary-call run.
pub fn all_agree()
    ensures { AllAgree }
{}

/// Each thread of each reached heap agrees with the ordinary-call run, where this has an end.
pub fn agrees_with_end()
    ensures { AgreesWithEnd }
{}

/// The same where the ordinary-call run has no end, at each of its states.
pub fn agrees_without_end()
    ensures { AgreesWithoutEnd }
{}

/// A thread that has ended in a reached heap has the value that the ordinary-call run records for it, where it records one.
pub fn ended_agrees()
    ensures { EndedAgrees }
{}

/// A thread that has ended on the ordinary-call run has the value that is recorded there.
pub fn value_agrees()
    ensures { ValueAgrees }
{}

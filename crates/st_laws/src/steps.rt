//! Steps of threads: their order does not matter, so a quiet heap and its answer are one.

ghost use Rattle.st_laws.specs.Steps.{BytesAreInOrder, Diamond, KeepsStep, LaterForks, LedTogether, OneAnswer, OneHistory, OneQuiet, OneStep, SameSteps, StepsWithin};

/// Steps of two threads can be made in either order.
pub fn diamond()
    ensures { Diamond }
{}

/// A thread that has a step keeps it until it makes it.
pub fn keeps_step()
    ensures { KeepsStep }
{}

/// A thread that has made more steps has made no fewer forks.
pub fn later_forks()
    ensures { LaterForks }
{}

/// In each reached heap the root's bytes stand in the order of its forks.
pub fn bytes_are_in_order()
    ensures { BytesAreInOrder }
{}

/// A thread's state is determined by how many steps it has made.
pub fn one_history()
    ensures { OneHistory }
{}

/// All quiet states that are reached from one start are the same.
pub fn one_quiet()
    ensures { OneQuiet }
{}

/// All quiet heaps that are reached from one start have one answer, and one list of counted bytes.
pub fn one_answer()
    ensures { OneAnswer }
{}

/// A thread has one step at most.
pub fn one_step()
    ensures { OneStep }
{}

/// The ends of two runs from one start can be led together, each thread making the steps of the run where it had made more.
pub fn led_together()
    ensures { LedTogether }
{}

/// Two runs from one start in which each thread makes as many steps have one end.
pub fn same_steps()
    ensures { SameSteps }
{}

/// No thread makes more steps in a run than in one to a quiet heap.
pub fn steps_within()
    ensures { StepsWithin }
{}

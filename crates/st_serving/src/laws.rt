//! What the runtime makes of a worker's top thread at an entry: laws without code.
ghost use Rattle.st_serving.specs.Serving.{EntriesServe, ForkedGoes, EndGoesOn};

/// For each entry: the item that the heap-frame machine has there, and that behind it the thread stands on the machine again.
pub fn entries_serve()
    ensures { EntriesServe }
{}

/// From the second jump of a fork the machine comes to the first item of the thread that was forked.
pub fn forked_goes()
    ensures { ForkedGoes }
{}

/// When a child has ended, its parent goes on behind the fork, with the child's name in the fork's register.
pub fn end_goes_on()
    ensures { EndGoesOn }
{}

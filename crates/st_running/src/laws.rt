//! What the next item of a worker's top thread does on its machine: a law without code.
ghost use Rattle.st_running.specs.Running.{ItemsDo};

/// The next item of the top thread leads to the next one, traps, finds no room for its frame, calls an entry of the runtime, or ends the
/// thread; and that is what the heap-frame machine says of it.
pub fn items_do()
    ensures { ItemsDo }
{}

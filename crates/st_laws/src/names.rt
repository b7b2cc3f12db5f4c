//! The names that threads hold.

ghost use Rattle.st_laws.specs.Names.{FuturesAreThere, NamesAreThere};

/// In each state of the ordinary-call run the futures that it names have ended, so a touch finds its value.
pub fn futures_are_there()
    ensures { FuturesAreThere }
{}

/// In each reached heap the names that threads hold are of threads and counters that are there.
pub fn names_are_there()
    ensures { NamesAreThere }
{}

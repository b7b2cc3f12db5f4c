//! The place of each thread: what follows from it, and that it is kept by all that a worker does between steps. Laws without code.
ghost use Rattle.st_seats.specs.Laws.{MoveLaws, SlotLaws, ToldLaws, RestLaws, First};

/// What a worker does between its steps keeps the places.
pub fn moves_keep()
    ensures { MoveLaws }
{}

/// Who may take from a slot finds a chain there, who may put finds none, and what goes with the chain is as its place tells.
pub fn slot_laws()
    ensures { SlotLaws }
{}

/// A thread is in one place, its cell is named and not full; where its wait is over the State words show it.
pub fn told_laws()
    ensures { ToldLaws }
{}

/// Where no worker has anything, each thread is gone, or in its slot, trapped or listed.
pub fn rest_laws()
    ensures { RestLaws }
{}

/// A board that is opened has the root's chain in its slot.
pub fn first_places()
    ensures { First }
{}

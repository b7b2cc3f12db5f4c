//! The leases are kept by all that workers do, and what follows from them: laws without code.
ghost use Rattle.st_leases.specs.Laws.{Kept, MoveLaws, ToldLaws, First};

/// Each of the kinds of step of a worker keeps the leases, whatever is answered.
pub fn steps_keep()
    ensures { Kept }
{}

/// What a worker does between its steps keeps them: items, suspending, giving, restarting, beginning a child, exporting a frame.
pub fn moves_keep()
    ensures { MoveLaws }
{}

/// What loads, looks and takes promise, and what is always so of a view.
pub fn told_laws()
    ensures { ToldLaws }
{}

/// A board that is opened has them.
pub fn first_leases()
    ensures { First }
{}

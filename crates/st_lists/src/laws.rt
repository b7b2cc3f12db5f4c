//! The waiter lists, hands and ready numbers are kept by all that workers do, what follows from them, and how the numbers move: laws without code.
ghost use Rattle.st_lists.specs.Laws.{Kept, MoveLaws, ToldLaws, First};

/// Each of the kinds of step of a worker keeps them, whatever is answered.
pub fn kept_by_steps()
    ensures { Kept }
{}

/// What a worker does between its steps keeps them, and the numbers stay.
pub fn moves_keep()
    ensures { MoveLaws }
{}

/// Root is found 1 once; the heads of lists are cells; the numbers of a view are where it tells.
pub fn told_laws()
    ensures { ToldLaws }
{}

/// A board that is opened has no list and no number in a hand, and its root may be found.
pub fn first_lists()
    ensures { First }
{}

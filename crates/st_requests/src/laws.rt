//! Requests and mail are kept by all that workers do, and what follows from them: laws without code.
ghost use Rattle.st_requests.specs.Laws.{Kept, SlotLaws, ToldLaws, MoveLaws, First};

/// Each of the kinds of step of a worker keeps the requests and the mail, whatever is answered.
pub fn steps_keep()
    ensures { Kept }
{}

/// Who may take from a mail slot finds it filled, and who may put into one finds it empty.
pub fn slot_laws()
    ensures { SlotLaws }
{}

/// What loads of request words and of the own mail word promise.
pub fn told_laws()
    ensures { ToldLaws }
{}

/// What a worker does between its steps keeps them.
pub fn moves_keep()
    ensures { MoveLaws }
{}

/// On a board that is opened no request stands, and each mail slot is empty.
pub fn first_requests()
    ensures { First }
{}

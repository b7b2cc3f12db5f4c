//! What is wrong in one condition of the lease rule, and refuted: laws without code.
ghost use Rattle.st_refused.specs.Refutations.{LeaderLinked, TailUnlinked, TailLost, WaiterForgotten, ListedAtFull, WaiterLeft, ReadiedInTurn, WaitsInMail, UnitLowered, FrameTakenBack, ReturnCleared, GivenUntruly, DrawnTwice, ValueOverwritten};

/// The Next word of an entry that leads a list isn't stored before what is behind it is read.
pub fn leader_linked()
    ensures { LeaderLinked }
{}

/// Nobody is behind an entry whose Next word is 0.
#[tactic(auto, using(crate::proofs::Waiters::tail_unlinked))]
pub fn tail_unlinked()
    ensures { TailUnlinked }
{}

/// Who overwrites that word by 0, and takes the list to end there, loses the thread behind the entry.
pub fn tail_lost()
    ensures { TailLost }
{}

/// A chain that waits in its slot has its number in a list or a hand.
#[tactic(auto, using(crate::proofs::Waiters::waiter_forgotten))]
pub fn waiter_forgotten()
    ensures { WaiterForgotten }
{}

/// No number is listed at a full future.
pub fn listed_at_full()
    ensures { ListedAtFull }
{}

/// Who makes a future full without taking its list loses the threads in it.
#[tactic(auto, using(crate::proofs::Waiters::waiter_left))]
pub fn waiter_left()
    ensures { WaiterLeft }
{}

/// No waiter becomes ready while its chain is in the worker's turn.
#[tactic(auto, using(crate::proofs::Waiters::readied_in_turn))]
pub fn readied_in_turn()
    ensures { ReadiedInTurn }
{}

/// No chain in mail waits for a future that isn't full.
#[tactic(auto, using(crate::proofs::Waiters::waits_in_mail))]
pub fn waits_in_mail()
    ensures { WaitsInMail }
{}

/// The only unit of a worker with a number in hand isn't taken back.
pub fn unit_lowered()
    ensures { UnitLowered }
{}

/// No exported frame that its worker does not hold is taken back while its return word is not 0.
pub fn frame_taken_back()
    ensures { FrameTakenBack }
{}

/// No 0 comes into the return word of a leased frame that its holder still holds.
pub fn return_cleared()
    ensures { ReturnCleared }
{}

/// That a chain was given isn't told where none was put.
pub fn given_untruly()
    ensures { GivenUntruly }
{}

/// No number is drawn twice.
pub fn drawn_twice()
    ensures { DrawnTwice }
{}

/// A value that was seen isn't stored over.
pub fn value_overwritten()
    ensures { ValueOverwritten }
{}

//! How threads leave a worker's machine and come to it: laws without code.
ghost use Rattle.st_moving.specs.Moving.{AllLeave, BelowGoesOn, AllPoll, AllCome};

/// A thread that waits at an entry of the runtime, or has stopped, stands as the chain that it becomes has to.
pub fn all_leave()
    ensures { AllLeave }
{}

/// The thread below one that was suspended goes on, on the machine that the suspension leaves.
pub fn below_goes_on()
    ensures { BelowGoesOn }
{}

/// Where a worker polls all its threads may be walked, and they stay when the bottom one is given away.
pub fn all_poll()
    ensures { AllPoll }
{}

/// The thread of a chain that was taken stands alone on the machine that goes on with it: at its next item, behind the touch or join at which it
/// waited, or at the root's first item.
pub fn all_come()
    ensures { AllCome }
{}

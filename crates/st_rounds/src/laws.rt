//! Laws without code.
ghost use Rattle.st_rounds.specs.Rounds.{RoundsKeep, ChainsTaken, ChainsCome};

/// A worker without a thread fits its board's view behind each step of its round.
pub fn rounds_keep()
    ensures { RoundsKeep }
{}

/// It has a chain that comes to run behind the step that takes it.
pub fn chains_taken()
    ensures { ChainsTaken }
{}

/// Its thread comes to run: it fits the view in which the thread is the only one, and has made the item at which it waited.
pub fn chains_come()
    ensures { ChainsCome }
{}

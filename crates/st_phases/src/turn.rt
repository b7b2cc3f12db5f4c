//! What a turn comes to.

use st_base::limits::LimitKind;

/// What a turn did.
#[derive(Clone, Copy, PartialEq, Eq, Debug)]
pub enum Point {
    /// None of the others.
    Step,
    /// A child was begun.
    Forked,
    /// A request was placed.
    Asked,
    /// A chain was taken to run.
    Took,
    /// A worker with a thread read its request word, or one without a thread found a request in it.
    Polled,
    /// A thread ended.
    Ended,
}

/// What a turn comes to.
#[derive(Clone, Copy, PartialEq, Eq, Debug)]
pub enum Turn {
    /// The worker went on, and did this.
    Ran(Point),
    /// The worker has no thread, and found no work at this place of its round. `word` is the word that it found, or 0 at the Root and the request word.
    Idle { word: u64 },
    /// The run is over: the active count was found 0, or the stop word not 0. `word` is the word that was found.
    Over { word: u64 },
    /// This worker met the limit, and was the first to write a stop code.
    Limit(LimitKind),
}

/// A step that is none of the others.
pub(crate) const RAN: Turn = Turn::Ran(Point::Step);

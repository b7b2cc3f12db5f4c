//! A thread that doesn't run: a chain of frames that stays where it lies, with what is needed to go on.

/// What a thread carries beside its frames.
#[derive(Clone, Copy)]
pub struct Note {
    /// The thread's own cell.
    pub cell: u32,
    /// How many children it has made.
    pub forks: u32,
    /// How many counters it has made.
    pub counters: u32,
    /// How many bytes the root has printed; 0 for others.
    pub bytes: u32,
}

/// Why a thread doesn't run.
#[derive(Clone, Copy)]
pub enum Waiting {
    /// It hasn't begun.
    Start,
    /// It can go on.
    Ready,
    /// It waits for the value of this future.
    Touch { cell: u32 },
    /// It waits until this counter has at least this count.
    Join { cell: u32, least: u64 },
    /// It has trapped and won't go on.
    Trapped,
}

/// A thread that doesn't run.
#[derive(Clone, Copy)]
pub struct Chain {
    /// The thread's cell.
    pub cell: u32,
    /// Where it goes on.
    pub pc: u32,
    /// The base of its newest frame.
    pub fp: u64,
    /// s1 to s11.
    pub saved: [u64; 11],
    pub note: Note,
    pub wait: Waiting,
}

/// A frame by its place: from its low end up to its base.
#[derive(Clone, Copy, PartialEq, Eq, Debug)]
pub struct Frame {
    pub low: u64,
    pub base: u64,
}

/// A compare and exchange met another word than it asked for; this is the word it found.
#[derive(Clone, Copy, PartialEq, Eq, Debug)]
pub struct Again {
    pub now: u64,
}

//! What a worker's view keeps: all that the worker holds of the board and has seen of it. These are types of contracts alone: no value
//! of them is made.

use st_base::chain::{Frame, Note, Waiting};
use st_base::path::Path;
use st_base::thread::{Held, Thread};
use std::collections::LinkedList;

/// A thread, as the heap-frame machine has it.
pub struct Known {
    /// Its cell, and what the worker counts of it.
    pub note: Note,
    pub path: Path,
    pub thread: Thread,
    /// Whether the worker has begun its next item.
    pub begun: bool,
}

/// A chain in a worker's turn.
pub struct Carried {
    /// The thread that it stands for.
    pub known: Known,
    pub wait: Waiting,
    /// The Trap word of its cell, where the worker knows it.
    pub trap: Option<u64>,
    /// The Standing word of its cell; `None` while it is still 1 though the thread was suspended. Where it is 1 or 3 the thread has no wait, or
    /// its wait is over.
    pub standing: Option<u64>,
}

/// What goes with a chain in a slot.
pub struct Cargo {
    pub carried: Carried,
    /// For each stack word what it has, where the chain holds it.
    pub words: LinkedList<Option<u64>>,
    /// Its frames. They are leased.
    pub frames: LinkedList<Frame>,
    /// The names that its thread has, each with the number of its cell.
    pub names: LinkedList<(Held, u64)>,
    /// 1 where it counts as active: it is ready, in mail, or the root's chain that nobody has taken; else 0.
    pub unit: u64,
}

/// A waiter's number in a worker's hand: the worker is to park it or to make it ready.
pub struct Waiter {
    pub cell: u64,
    /// What it waits at, where the worker knows it: it has seen its chain, or has made the future full at which it waits.
    pub wait: Option<Waiting>,
    /// What the worker has stored in its Next word since it has it in hand.
    pub next: Option<u64>,
    /// Whether it leads a list that was handed out: the numbers to which the Next words lead from it are in the hand too.
    pub leads: bool,
}

/// A child whose cell is named, and which isn't there yet.
pub struct Child {
    pub cell: u64,
    /// Whether its Standing word is 1.
    pub stands: bool,
}

/// A request that the worker answers.
pub struct Answering {
    pub asker: u64,
    /// Whether it has put a chain into the asker's mail.
    pub put: bool,
    /// Whether it has told its answer.
    pub told: bool,
}

/// A word of the board that is loaded at the end of a run.
pub enum Loaded {
    Cell(u64, CellWord),
    Active,
    Stop,
    Out(u64),
}

/// The words of a cell.
#[derive(Clone, Copy, PartialEq, Eq, Debug)]
pub enum CellWord {
    /// 0 where it is not named; else 1 + kind + 2 × parent + 2^18 × number, kind 0 for a thread and 1 for a counter.
    Owner,
    /// Of a future 0, a waiter + 1, or 2^32 where it is full; of a counter count × 2^17 + head, head 0 or a waiter + 1.
    State,
    /// The value of a full future.
    Value,
    /// The next waiter + 1, or 0.
    Next,
    /// 0 no thread, 1 on a worker or in mail, 2 waiting, 3 ready, 4 trapped, 5 ended.
    Standing,
    /// pc × 16 + kind: the kind of a trap, 15 for the full output, 0 for the touch or join at which the thread waits.
    Trap,
}

/// A slot, which has room for one chain.
#[derive(Clone, Copy, PartialEq, Eq, Debug)]
pub enum Slot {
    /// That of a cell.
    Cell(u32),
    /// The mail of a worker.
    Mail(u32),
}

/// What a worker holds and has seen.
pub struct View {
    /// The worker's number.
    pub number: u64,
    /// The number of workers of the board.
    pub workers: u64,
    /// The number of cells of the board.
    pub cells: u64,
    /// The number of words of one worker's stack.
    pub each: u64,
    /// For each stack word of the board what it has, where the worker holds it.
    pub held: LinkedList<Option<u64>>,
    /// The exported frames of its stack.
    pub exported: LinkedList<Frame>,
    /// The leased frames that it holds away from their own stack.
    pub away: LinkedList<Frame>,
    /// The threads of its logical stack, the top one first.
    pub threads: LinkedList<Known>,
    /// The chains in its turn.
    pub chains: LinkedList<Carried>,
    /// The names that these have, and those of the cells that it has named, each with the number of its cell.
    pub names: LinkedList<(Held, u64)>,
    /// How many items it has begun.
    pub items: u64,
    /// How many bytes of frames its prologues have made.
    pub frame_bytes: u64,
    /// The numbers that it has drawn and not yet named.
    pub drawn: LinkedList<u64>,
    /// The next child of its top thread, whose cell it has named, and which isn't there yet.
    pub child: Option<Child>,
    /// The Owner words that it has seen or stored, by their cells.
    pub owners: LinkedList<(u64, u64)>,
    /// The futures that it has seen full.
    pub full: LinkedList<u64>,
    /// The futures that it has made full.
    pub filled: LinkedList<u64>,
    /// The values that it has read of futures that it saw full.
    pub values: LinkedList<(u64, u64)>,
    /// The values that it has stored of threads that it holds, one a cell.
    pub valued: LinkedList<(u64, u64)>,
    /// The counts that it has seen.
    pub counts: LinkedList<(u64, u64)>,
    /// The numbers that it has made ready, whose chains it alone may take.
    pub ready: LinkedList<u64>,
    /// The waiters' numbers in its hand.
    pub hand: LinkedList<Waiter>,
    /// Its share of the active count.
    pub share: u64,
    /// The worker at which its request stands.
    pub asked: Option<u64>,
    /// The request that it answers.
    pub answering: Option<Answering>,
    /// Its own mail word, as it last stored or read it.
    pub mail: u64,
    /// Whether it has read that a chain was given, and has not taken that chain.
    pub given: bool,
    /// Whether it has found Root 1, and has not taken the root's chain since.
    pub root: bool,
    /// Whether it has read the active count as 0.
    pub inactive: bool,
    /// The stop code that it has read or written.
    pub stop: Option<u64>,
    /// What it has loaded of the words that are read at the end of a run.
    pub loaded: LinkedList<(Loaded, u64)>,
}

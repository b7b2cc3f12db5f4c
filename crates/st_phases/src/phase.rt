//! Where a worker is between two turns: what its next turn does.

use st_base::chain::{Chain, Waiting};
use st_base::limits::LimitKind;

/// The rest of a list of waiters that was handed out.
#[derive(Clone, Copy)]
pub struct Rest {
    /// The cell at which they waited.
    pub cell: u32,
    /// Whether it is a counter.
    pub counter: bool,
    /// The State word that the cell has got.
    pub word: u64,
    /// The number of the next waiter and 1, or 0.
    pub next: u64,
}

/// A waiter in hand, to be made ready or parked, by the State word of the cell at which it waits.
#[derive(Clone, Copy)]
pub struct Settling {
    /// Its cell.
    pub waiter: u32,
    /// What it waits for.
    pub wait: Waiting,
    /// The State word that was seen last.
    pub seen: u64,
    /// Those behind it, where it is of a list; `None` where it is the thread that was taken out here.
    pub rest: Option<Rest>,
}

/// Why the top thread is taken out.
#[derive(Clone, Copy)]
pub struct Leaving {
    /// What it waits for, or that it has trapped.
    pub wait: Waiting,
    /// The low four bits of its Trap word: 0 where it waits.
    pub kind: u64,
    /// The State word that was seen, where it waits.
    pub seen: u64,
    /// Whether it is at an entry that it has called, one word behind its item's first.
    pub at_call: bool,
}

/// What comes after the own mail word has become nothing.
#[derive(Clone, Copy)]
pub enum Behind {
    /// This chain, which was taken out of the mail.
    Chain(Chain),
    /// Another worker is asked.
    Seventh,
    /// A new round.
    Round,
}

/// What the next turn of a worker does. Where a thread is at an entry of the runtime, the machine's pc tells which.
///
/// A `cell`, and a `waiter`, is the number of a cell, `seen` the State word that was seen last, and `head` the number of the first waiter and 1, or 0
/// where none waits. An `asker` is the number of the worker whose request is in hand. A unit is one of the active count.
#[derive(Clone, Copy)]
pub enum Phase {
    /// A thread runs: the machine is at an instruction or at an entry.
    Running,
    /// A limit is met, whose code is to be written.
    Stopping(LimitKind),

    /// The cell was drawn: its Owner is stored, of a counter or a child.
    Naming { cell: u32 },
    /// The child's cell is named: its Standing becomes 1, and it begins.
    Beginning { cell: u32 },
    /// The cell in a6 is of the kind that the entry wants: its State is loaded.
    Looking { cell: u32 },
    /// The future is full: its value is loaded.
    Valuing { cell: u32 },
    /// The counter's State was seen: it counts one more.
    Adding { cell: u32, seen: u64 },

    /// The thread's value is stored: its cell's State is loaded,
    Finding,
    /// and changed to full.
    Filling { seen: u64 },
    /// The cell is full: its Standing becomes 5.
    Ending { cell: u32, head: u64 },

    /// The next of a list is read.
    Following { rest: Rest },
    /// A unit is added for a waiter.
    Raising { waiter: u32, rest: Rest },
    /// The chain of a counter's waiter is taken for a look,
    Peeking { waiter: u32, rest: Rest },
    /// and put back.
    Returning { chain: Chain, rest: Rest },
    /// The Owner of the cell at which it waits is read,
    Owning(Settling),
    /// and its State.
    Weighing(Settling),
    /// The wait of the waiter is over: its Standing becomes 3.
    Readying(Settling),
    /// It isn't: the waiter is linked,
    Linking(Settling),
    /// and parked.
    Parking(Settling),
    /// The unit of a waiter that is parked, or of a thread that has stopped or ended, is taken away.
    Lowering { rest: Option<Rest> },

    /// A unit is added, since another thread stays.
    Parting(Leaving),
    /// The frames of the thread that leaves are walked.
    Suspending(Leaving),
    /// Its Trap word is stored,
    Marking { chain: Chain, leaving: Leaving },
    /// its Standing word,
    Standing { chain: Chain, leaving: Leaving },
    /// and its chain is put into its slot.
    Slotting { chain: Chain, leaving: Leaving },

    /// The own request word is read,
    Polling,
    /// the stop word,
    Heeding { asker: Option<u32> },
    /// and frames are taken back.
    Shrinking { asker: Option<u32> },

    /// A request is answered.
    Answering { asker: u32 },
    /// A ready chain is fetched for it,
    Picking { asker: u32, cell: u32 },
    /// and its Standing becomes 1.
    Waving { asker: u32, chain: Chain },
    /// A unit is added for the bottom thread,
    Sharing { asker: u32 },
    /// whose frames are walked.
    Giving { asker: u32 },
    /// The chain is put into the mail.
    Mailing { asker: u32, chain: Chain },
    /// The answer is told.
    Telling { asker: u32, given: bool },
    /// The request ends.
    Clearing,

    /// A chain of this worker's own comes to run: its Standing becomes 1.
    Coming { chain: Chain },
    /// The State of what it waited for is seen,
    Seeing { chain: Chain },
    /// and a future's value is loaded.
    Getting { chain: Chain },

    /// A round begins: frames are taken back; where there are none, the stop word is read at once.
    Settled,
    /// The stop word is read.
    Stop,
    /// The active count is read.
    Active,
    /// The chain of the own ready number that came first is taken; where there is none, the Root word.
    Own,
    /// The root's first chain is taken.
    First,
    /// The own request word is read.
    Request,
    /// The own mail word is read.
    Mail,
    /// A chain is taken out of the own mail.
    Opening,
    /// The own mail word becomes waiting, or a request that stands is withdrawn.
    Seventh,
    /// Another worker is asked.
    Placing,
    /// The own mail word becomes nothing.
    Emptying { behind: Behind },
}

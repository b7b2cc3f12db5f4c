//! A worker as plain data, and what several phases do to it.
ghost use Rattle.std.specs.Prelude.{◌≡◌, ◌≢◌, ◌≤◌, [], length};
ghost use Rattle.st_phases.specs.Automaton.{back, goes_back, went_on, top, with_top, popped, leaves, wakes};

use crate::phase::{Leaving, Phase, Rest};
use st_base::chain::Note;
use st_base::reg::Reg;
use st_chain::logical::Logical;
use st_items::code::Code;
use st_stack::stack::PhysStack;
use st_steal::ready::ReadyList;
use st_step::Machine;

/// A worker between two turns. The ranges are those of a worker that was opened. A turn changes neither the first five fields nor `code`.
#[derive(Drop)]
pub struct Automaton {
    /// Its number, less than `workers`.
    pub number: u32,
    /// How many workers there are: 1 to 16.
    pub workers: u32,
    /// How many threads and counters there may be in all: 16 to 65,536.
    pub cells: u32,
    /// How many items it may begin: 1 to 2^40.
    pub steps: u64,
    /// How many bytes the input has.
    pub length: u64,
    /// The instructions of the image, each with whether an item begins with it.
    pub code: Code,
    /// The registers and the pc of the top thread, where it has one.
    pub machine: Machine,
    /// Its stack, with the frames on it that belong to threads which were taken off this worker.
    pub stack: PhysStack,
    /// Its threads, the bottom one first, with room for `cells`.
    pub threads: Logical,
    /// The cells of the ready threads that are this worker's to take up, the oldest first, with room for `cells`.
    pub ready: ReadyList,
    /// What its next turn does.
    pub phase: Phase,
    /// How many items it has begun.
    pub items: u64,
    /// The bytes of all frames that it has made, those included that are gone.
    pub frame_bytes: u64,
    /// How many turns it has made since it read the stop word: 0 to 4,095.
    pub since: u32,
    /// The worker at which its request stands.
    pub asked: Option<u32>,
    /// Whether it has found that the answer to its request has begun.
    pub begun: bool,
    /// The worker that it has asked last; at first its own number.
    pub last: u32,
}

impl Automaton {
    /// The place behind the jump that called an entry: the low 32 bits of ra.
    pub(crate) fn back(&self) -> u32
        ensures { result ≡ back self.now.machine }
    {
        (self.machine.reg(Reg::Ra) % (1 << 32)) as u32
    }

    /// The entry is done: the machine goes on behind the jump that called it, after a poll.
    pub(crate) fn go_back(&mut self)
        ensures { self.new ≡ goes_back self.old }
    {
        let back = self.back();
        self.machine.set_pc(back);
        self.phase = Phase::Polling;
    }

    /// What follows where the thread that called an entry may have left: a poll of the thread that is on top now, or a round where there is none.
    pub(crate) fn go_on(&mut self)
        ensures { self.new ≡ went_on self.old }
    {
        self.phase = if self.threads.threads().is_empty() {
            Phase::Settled
        } else {
            Phase::Polling
        };
    }

    /// The note of the top thread, which is there.
    pub(crate) fn top(&self) -> Note
        requires { self.now.threads.notes ≢ [] }
        ensures { result ≡ top self.now.threads.notes }
    {
        let notes = self.threads.threads();
        notes[notes.len() - 1]
    }

    /// The top thread has another note.
    pub(crate) fn set_top(&mut self, note: Note)
        requires some { self.old.threads.notes ≢ [] }
        requires room { length self.old.threads.notes ≤ self.old.threads.room }
        ensures { self.new ≡ with_top note self.old }
    {
        let _old = self.threads.pop();
        self.threads.push(note);
    }

    /// The top thread goes out.
    pub(crate) fn drop_top(&mut self)
        requires { self.old.threads.notes ≢ [] }
        ensures { self.new ≡ popped self.old }
    {
        let _top = self.threads.pop();
    }

    /// The top thread leaves: a unit is added first where another thread stays.
    pub(crate) fn leave(&mut self, leaving: Leaving)
        ensures { self.new ≡ leaves leaving self.old }
    {
        self.phase = if self.threads.threads().len() == 1 {
            Phase::Suspending(leaving)
        } else {
            Phase::Parting(leaving)
        };
    }

    /// The next waiter of a list comes in hand. Where there is none, the thread on top polls; a worker without a thread takes away the unit of the one that has ended.
    pub(crate) fn wake(&mut self, rest: Rest)
        ensures { self.new ≡ wakes rest self.old }
    {
        self.phase = if rest.next != 0 {
            Phase::Following { rest }
        } else if self.threads.threads().is_empty() {
            Phase::Lowering { rest: None }
        } else {
            Phase::Polling
        };
    }
}

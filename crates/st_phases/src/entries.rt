//! What the runtime does at the entries that a thread calls: forks, counters, touches, and joins.
ghost use Rattle.std.specs.Prelude.{◌≡◌, ◌≢◌, ◌+◌, ◌%◌, ◌^◌, ◌<◌, ◌≤◌, ℕ, [], length};
ghost use Rattle.st_cells.specs.Cells.{owner_word, counted_up};
ghost use Rattle.st_cells.specs.declared.found.Owner.{Owner};
ghost use Rattle.st_words.specs.Made.{Asked, StepMade};
ghost use Rattle.st_words.specs.Encodings.{is_counter, running, trap_number};
ghost use Rattle.st_words.specs.Steps.{CellLoad, CellStore, CellChange, Draw, RequestLoad, Done, Number};
ghost use Rattle.st_words.specs.declared.view.CellWord.TheVariants as words;
ghost use Rattle.st_base.specs.declared.reg.Reg.TheVariants as registers;
ghost use Rattle.st_step.specs.Moves.{register};
ghost use Rattle.st_phases.specs.Automaton.{top};
ghost use Rattle.st_phases.specs.Entries.{drawn, owner_of, named, begins_child, handle_in, kind_seen, looked, got, added, stops_at_call, waits_at};
ghost use Rattle.st_phases.specs.declared.turn.Point.TheVariants as points;
ghost use Rattle.st_phases.specs.declared.turn.Turn.TheVariants.{Ran};

use crate::automaton::Automaton;
use crate::phase::{Leaving, Phase, Rest};
use crate::turn::{Point, RAN, Turn};
use st_base::chain::{Note, Waiting};
use st_base::limits::LimitKind;
use st_base::reg::Reg;
use st_base::thread::TrapKind;
use st_cells::cells;
use st_cells::found::{Looked, Owner};
use st_words::board::{Board, NamesView};
use st_words::view::CellWord;

/// The addresses of entries. Behind a fork's call:
pub(crate) const FORK_OUT: u32 = 0x20;

/// where a thread's first function returns to:
pub(crate) const END: u32 = 0x30;

/// and of calls of the runtime.
const TOUCH: u32 = 0x40;

const COUNTER: u32 = 0x50;

const DONE: u32 = 0x60;

/// The Standing word of a thread that runs.
pub(crate) const RUNNING: u64 = 1;

/// The low four bits of a Trap word, of a trap.
pub(crate) fn trap_number(kind: TrapKind) -> u64
    ensures { result ≡ trap_number kind }
{
    match kind {
        TrapKind::LoadRange => 1,
        TrapKind::Misaligned => 2,
        TrapKind::WrongHandle => 3,
        TrapKind::PutInChild => 4,
        TrapKind::Abort => 5,
    }
}

impl Automaton {
    /// The thread stops at the entry that it has called, by this number of its Trap word.
    pub(crate) fn stop_at_call(&mut self, kind: u64)
        ensures { self.new ≡ stops_at_call kind self.old }
    {
        self.leave(Leaving {
            wait: Waiting::Trapped,
            kind,
            seen: 0,
            at_call: true,
        });
    }

    /// The number of a cell is drawn, for a child or a counter; where all are drawn, that limit is met.
    pub(crate) fn draw<B: Board, N: NamesView>(&mut self, board: &mut B) -> Turn
        requires may { Asked B.view B.serves B.says B.forward B.moves N.after board.old self.old.number Draw }
        ensures made { (found : ℕ) × StepMade B.view B.serves B.says B.did N.after board.old self.old.number Draw (Number found) board.new × (self.new ≡ drawn found self.old) }
        ensures turn { result ≡ Ran points.Step }
    {
        self.phase = match cells::draw::<B, N>(board, self.number, self.cells) {
            Ok(cell) => Phase::Naming { cell },
            Err(full) => Phase::Stopping(LimitKind::Cell { cells: full.cells }),
        };
        RAN
    }

    /// What the Owner word of the cell that was drawn tells.
    fn owner(&self) -> Owner
        requires { self.now.threads.notes ≢ [] }
        ensures { result ≡ owner_of self.now }
    {
        let note = self.top();
        let counter = self.machine.pc() == COUNTER;
        Owner {
            counter,
            parent: note.cell,
            number: if counter { note.counters } else { note.forks },
        }
    }

    /// The Owner of the cell that was drawn is stored. A counter's number comes into a6; a child begins next.
    pub(crate) fn name<B: Board, N: NamesView>(&mut self, cell: u32, board: &mut B) -> Turn
        requires some { self.old.threads.notes ≢ [] }
        requires room { length self.old.threads.notes ≤ self.old.threads.room }
        requires few { (top self.old.threads.notes).counters + 1 < 2 ^ 32 }
        requires may { Asked B.view B.serves B.says B.forward B.moves N.after board.old self.old.number (CellStore cell words.Owner (owner_word (owner_of self.old))) }
        ensures made { StepMade B.view B.serves B.says B.did N.after board.old self.old.number (CellStore cell words.Owner (owner_word (owner_of self.old))) (Done) board.new }
        ensures goes { self.new ≡ named cell self.old }
        ensures turn { result ≡ Ran points.Step }
    {
        let owner = self.owner();
        cells::set_owner::<B, N>(board, self.number, cell, owner);
        if !owner.counter {
            self.phase = Phase::Beginning { cell };
            return RAN;
        }
        let note = self.top();
        self.set_top(Note {
            counters: note.counters + 1,
            ..note
        });
        self.machine.set_reg(Reg::A6, u64::from(cell));
        self.go_back();
        RAN
    }

    /// The child, whose cell is named, begins as the top thread.
    pub(crate) fn begin<B: Board, N: NamesView>(&mut self, cell: u32, board: &mut B) -> Turn
        requires some { self.old.threads.notes ≢ [] }
        requires room { length self.old.threads.notes < self.old.threads.room }
        requires few { (top self.old.threads.notes).forks + 1 < 2 ^ 32 }
        requires may { Asked B.view B.serves B.says B.forward B.moves N.after board.old self.old.number (CellStore cell words.Standing running) }
        ensures made { StepMade B.view B.serves B.says B.did N.after board.old self.old.number (CellStore cell words.Standing running) (Done) board.new }
        ensures goes { self.new ≡ begins_child cell self.old }
        ensures turn { result ≡ Ran points.Forked }
    {
        board.cell_store::<N>(self.number, cell, CellWord::Standing, RUNNING);
        let note = self.top();
        self.set_top(Note {
            forks: note.forks + 1,
            ..note
        });
        self.threads.push(Note {
            cell,
            forks: 0,
            counters: 0,
            bytes: 0,
        });
        self.go_back();
        Turn::Ran(Point::Forked)
    }

    /// The number of the cell in a6.
    fn handle(&self) -> u32
        ensures { result ≡ handle_in self.now.machine }
    {
        (self.machine.reg(Reg::A6) % (1 << 32)) as u32
    }

    /// The Owner of the cell in a6 is loaded. The thread stops where the cell isn't of the kind that the entry wants.
    pub(crate) fn see_kind<B: Board, N: NamesView>(&mut self, board: &mut B) -> Turn
        requires may { Asked B.view B.serves B.says B.forward B.moves N.after board.old self.old.number (CellLoad (handle_in self.old.machine) words.Owner) }
        ensures made { (found : ℕ) × (owner : Owner) × StepMade B.view B.serves B.says B.did N.after board.old self.old.number (CellLoad (handle_in self.old.machine) words.Owner) (Number found) board.new × (owner.counter ≡ is_counter found) × (self.new ≡ kind_seen owner.counter self.old) }
        ensures turn { result ≡ Ran points.Step }
    {
        let cell = self.handle();
        let owner = cells::owner::<B, N>(board, self.number, cell);
        let wants_future = self.machine.pc() == TOUCH;
        if owner.counter == wants_future {
            self.stop_at_call(trap_number(TrapKind::WrongHandle));
        } else {
            self.phase = Phase::Looking { cell };
        }
        RAN
    }

    /// The State of the cell is loaded: at a touch or a join it tells whether the thread waits, and at a done what the count is.
    pub(crate) fn look<B: Board, N: NamesView>(&mut self, cell: u32, board: &mut B) -> Turn
        requires may { Asked B.view B.serves B.says B.forward B.moves N.after board.old self.old.number (CellLoad cell words.State) }
        ensures made { (found : ℕ) × StepMade B.view B.serves B.says B.did N.after board.old self.old.number (CellLoad cell words.State) (Number found) board.new × (self.new ≡ looked cell found self.old) }
        ensures turn { result ≡ Ran points.Step }
    {
        match self.machine.pc() {
            TOUCH => match cells::look::<B, N>(board, self.number, cell) {
                Looked::Full => self.phase = Phase::Valuing { cell },
                Looked::Empty { seen } => self.wait(Waiting::Touch { cell }, seen),
            },
            DONE => {
                let seen = cells::count::<B, N>(board, self.number, cell).seen;
                self.phase = Phase::Adding { cell, seen };
            }
            _ => {
                let found = cells::count::<B, N>(board, self.number, cell);
                let least = self.machine.reg(Reg::A0);
                if found.count < least {
                    self.wait(Waiting::Join { cell, least }, found.seen);
                } else {
                    self.go_back();
                }
            }
        }
        RAN
    }

    /// The thread waits, by a State word that was seen.
    fn wait(&mut self, wait: Waiting, seen: u64)
        ensures { self.new ≡ waits_at wait seen self.old }
    {
        self.leave(Leaving {
            wait,
            kind: 0,
            seen,
            at_call: true,
        });
    }

    /// The value of the future, which is full, comes into a0.
    pub(crate) fn get_value<B: Board, N: NamesView>(&mut self, cell: u32, board: &mut B) -> Turn
        requires may { Asked B.view B.serves B.says B.forward B.moves N.after board.old self.old.number (CellLoad cell words.Value) }
        ensures made { (found : ℕ) × StepMade B.view B.serves B.says B.did N.after board.old self.old.number (CellLoad cell words.Value) (Number found) board.new × (self.new ≡ got found self.old) × (found < 2 ^ 64) }
        ensures turn { result ≡ Ran points.Step }
    {
        let value = cells::value::<B, N>(board, self.number, cell);
        self.machine.set_reg(Reg::A0, value);
        self.go_back();
        RAN
    }

    /// The counter counts one more, and its waiters come in hand. Where its State has become another one, that is tried anew.
    pub(crate) fn add<B: Board, N: NamesView>(
        &mut self,
        cell: u32,
        seen: u64,
        board: &mut B,
    ) -> Turn
        requires may { Asked B.view B.serves B.says B.forward B.moves N.after board.old self.old.number (CellChange cell seen (counted_up seen)) }
        ensures made { (found : ℕ) × StepMade B.view B.serves B.says B.did N.after board.old self.old.number (CellChange cell seen (counted_up seen)) (Number found) board.new × (self.new ≡ added cell seen found self.old) }
        ensures turn { result ≡ Ran points.Step }
    {
        match cells::done::<B, N>(board, self.number, cell, seen) {
            Err(again) => {
                self.phase = Phase::Adding {
                    cell,
                    seen: again.now,
                };
            }
            Ok(head) => {
                self.go_back();
                self.wake(Rest {
                    cell,
                    counter: true,
                    word: cells::counted_up(seen),
                    next: head,
                });
            }
        }
        RAN
    }
}

//! Waiters in hand: those of a list that was handed out, and the thread that was taken out here.
ghost use Rattle.std.specs.Prelude.{◌≡◌, ◌≢◌, ◌⊎◌, ◌+◌, ◌-◌, ◌^◌, ◌<◌, ◌≤◌, ℕ, true, false, length, Some};
ghost use Rattle.st_base.specs.declared.chain.Chain.{Chain};
ghost use Rattle.st_base.specs.declared.chain.Waiting.{Waiting};
ghost use Rattle.st_words.specs.declared.view.Cargo.{Cargo};
ghost use Rattle.st_words.specs.declared.view.CellWord.TheVariants as words;
ghost use Rattle.st_words.specs.declared.view.Slot.TheVariants as slots;
ghost use Rattle.st_words.specs.Encodings.{ready, head_in};
ghost use Rattle.st_words.specs.Made.{Asked, StepMade};
ghost use Rattle.st_words.specs.Steps.{CellLoad, CellStore, CellChange, ActiveAdd, SlotTake, SlotPut, Done, Number, Took};
ghost use Rattle.st_cells.specs.Cells.{IsTried};
ghost use Rattle.st_phases.specs.Automaton.{with_phase};
ghost use Rattle.st_phases.specs.Waking.{is_over, followed, raised, settled, returned, readied, parked_word, parked, MayPark, behind, cell_of, NeverEmpty};
ghost use Rattle.st_phases.specs.declared.phase.Phase.TheVariants as phases;
ghost use Rattle.st_phases.specs.declared.turn.Point.TheVariants as points;
ghost use Rattle.st_phases.specs.declared.turn.Turn.TheVariants.{Ran};

use crate::automaton::Automaton;
use crate::ending::FULL;
use crate::phase::{Phase, Rest, Settling};
use crate::turn::{RAN, Turn};
use st_base::chain::{Again, Chain, Waiting};
use st_cells::cells;
use st_words::board::{Board, NamesView};
use st_words::view::{CellWord, Slot};

/// The Standing word of a ready thread.
const READY: u64 = 3;

/// Whether the wait is over, as a State word shows it.
fn is_over(wait: Waiting, seen: u64) -> bool
    ensures { result ≡ is_over wait seen }
{
    match wait {
        Waiting::Touch { .. } => seen == FULL,
        Waiting::Join { least, .. } => least <= seen / (1 << 17),
        _ => true,
    }
}

/// The cell at which a thread waits; 0 for one that doesn't.
pub(crate) fn cell_of(wait: Waiting) -> u32
    ensures { result ≡ cell_of wait }
{
    match wait {
        Waiting::Touch { cell } => cell,
        Waiting::Join { cell, .. } => cell,
        _ => 0,
    }
}

/// The waiter becomes the first one at the cell of its wait, if that cell's State is still `seen`.
fn park<B: Board, N: NamesView>(
    board: &mut B,
    w: u32,
    wait: Waiting,
    waiter: u32,
    seen: u64,
) -> Result<(), Again>
    requires few { waiter < 65536 }
    requires waits { MayPark wait seen }
    requires may { Asked B.view B.serves B.says B.forward B.moves N.after board.old w (CellChange (cell_of wait) seen (parked_word wait waiter seen)) }
    ensures made { (found : ℕ) × StepMade B.view B.serves B.says B.did N.after board.old w (CellChange (cell_of wait) seen (parked_word wait waiter seen)) (Number found) board.new × IsTried seen found (λ _. Prim.Unit) result }
{
    match wait {
        Waiting::Join { cell, least } => {
            cells::park_join::<B, N>(board, w, cell, waiter, least, seen)
        }
        Waiting::Touch { cell } => cells::park::<B, N>(board, w, cell, waiter, seen),
        _ => unreachable!(),
    }
}

impl Automaton {
    /// The next waiter of a list is read, and what is behind it.
    pub(crate) fn follow<B: Board, N: NamesView>(&mut self, rest: Rest, board: &mut B) -> Turn
        requires some { rest.next ≢ 0 }
        requires few { rest.next ≤ 2 ^ 32 }
        requires may { Asked B.view B.serves B.says B.forward B.moves N.after board.old self.old.number (CellLoad (rest.next - 1) words.Next) }
        ensures made { (found : ℕ) × StepMade B.view B.serves B.says B.did N.after board.old self.old.number (CellLoad (rest.next - 1) words.Next) (Number found) board.new × (self.new ≡ followed rest found self.old) }
        ensures turn { result ≡ Ran points.Step }
    {
        let waiter = (rest.next - 1) as u32;
        let next = cells::next::<B, N>(board, self.number, waiter);
        self.phase = Phase::Raising {
            waiter,
            rest: Rest { next, ..rest },
        };
        RAN
    }

    /// A unit is added for the waiter. One that waited for a future is ready then; the chain of one at a counter is looked at, which tells for which count it waits.
    pub(crate) fn raise<B: Board, N: NamesView>(
        &mut self,
        waiter: u32,
        rest: Rest,
        board: &mut B,
    ) -> Turn
        requires may { Asked B.view B.serves B.says B.forward B.moves N.after board.old self.old.number (ActiveAdd true) }
        ensures made { (found : ℕ) × StepMade B.view B.serves B.says B.did N.after board.old self.old.number (ActiveAdd true) (Number found) board.new }
        ensures goes { self.new ≡ raised waiter rest self.old }
        ensures turn { result ≡ Ran points.Step }
    {
        let _old = board.active_add::<N>(self.number, true);
        self.phase = if rest.counter {
            Phase::Peeking { waiter, rest }
        } else {
            Phase::Readying(Settling {
                waiter,
                wait: Waiting::Touch { cell: rest.cell },
                seen: rest.word,
                rest: Some(rest),
            })
        };
        RAN
    }

    /// The chain of a waiter is taken for a look.
    pub(crate) fn peek<B: Board, N: NamesView>(
        &mut self,
        waiter: u32,
        rest: Rest,
        board: &mut B,
    ) -> Turn
        requires may { Asked B.view B.serves B.says B.forward B.moves N.after board.old self.old.number (SlotTake (slots.Cell waiter)) }
        requires some { NeverEmpty (λ a. B.says board.old self.old.number (SlotTake (slots.Cell waiter)) a) }
        ensures made { (cargo : Cargo) × (chain : Chain) × StepMade B.view B.serves B.says B.did N.after board.old self.old.number (SlotTake (slots.Cell waiter)) (Took (Some chain) cargo) board.new × (self.new ≡ with_phase (phases.Returning chain rest) self.old) }
        ensures turn { result ≡ Ran points.Step }
    {
        let Some(chain) = board.slot_take::<N>(self.number, Slot::Cell(waiter)) else {
            unreachable!()
        };
        self.phase = Phase::Returning { chain, rest };
        RAN
    }

    /// By the State word that was seen last a waiter is made ready or parked.
    pub(crate) fn settle(&mut self, settling: Settling)
        ensures { self.new ≡ settled settling self.old }
    {
        self.phase = if is_over(settling.wait, settling.seen) {
            Phase::Readying(settling)
        } else {
            Phase::Linking(settling)
        };
    }

    /// The chain is put back into its slot. What its waiter waits for is known now.
    pub(crate) fn put_back<B: Board, N: NamesView>(
        &mut self,
        chain: Chain,
        rest: Rest,
        board: &mut B,
    ) -> Turn
        requires may { Asked B.view B.serves B.says B.forward B.moves N.after board.old self.old.number (SlotPut (slots.Cell chain.cell) chain (N.cargo (B.view board.old self.old.number) (slots.Cell chain.cell) chain)) }
        ensures made { StepMade B.view B.serves B.says B.did N.after board.old self.old.number (SlotPut (slots.Cell chain.cell) chain (N.cargo (B.view board.old self.old.number) (slots.Cell chain.cell) chain)) (Done) board.new }
        ensures goes { self.new ≡ returned chain rest self.old }
        ensures turn { result ≡ Ran points.Step }
    {
        board.slot_put::<N>(self.number, Slot::Cell(chain.cell), chain);
        self.phase = Phase::Owning(Settling {
            waiter: chain.cell,
            wait: chain.wait,
            seen: rest.word,
            rest: Some(rest),
        });
        RAN
    }

    /// The Owner of the cell at which the waiter waits is loaded.
    pub(crate) fn see_owner<B: Board, N: NamesView>(
        &mut self,
        settling: Settling,
        board: &mut B,
    ) -> Turn
        requires may { Asked B.view B.serves B.says B.forward B.moves N.after board.old self.old.number (CellLoad (cell_of settling.wait) words.Owner) }
        ensures made { (found : ℕ) × StepMade B.view B.serves B.says B.did N.after board.old self.old.number (CellLoad (cell_of settling.wait) words.Owner) (Number found) board.new }
        ensures goes { self.new ≡ with_phase (phases.Weighing settling) self.old }
        ensures turn { result ≡ Ran points.Step }
    {
        let _owner = board.cell_load::<N>(self.number, cell_of(settling.wait), CellWord::Owner);
        self.phase = Phase::Weighing(settling);
        RAN
    }

    /// Its State is loaded, and by that word the waiter is made ready or parked: the one that the counter got may be another by now.
    pub(crate) fn weigh<B: Board, N: NamesView>(
        &mut self,
        settling: Settling,
        board: &mut B,
    ) -> Turn
        requires may { Asked B.view B.serves B.says B.forward B.moves N.after board.old self.old.number (CellLoad (cell_of settling.wait) words.State) }
        ensures made { (found : ℕ) × StepMade B.view B.serves B.says B.did N.after board.old self.old.number (CellLoad (cell_of settling.wait) words.State) (Number found) board.new × (self.new ≡ settled (record settling { seen = found }) self.old) }
        ensures turn { result ≡ Ran points.Step }
    {
        let seen = board.cell_load::<N>(self.number, cell_of(settling.wait), CellWord::State);
        self.settle(Settling { seen, ..settling });
        RAN
    }

    /// The next one of the list comes in hand; without a list, what follows the call.
    fn go_on_behind(&mut self, rest: Option<Rest>)
        ensures { self.new ≡ behind rest self.old }
    {
        match rest {
            Some(rest) => self.wake(rest),
            None => self.go_on(),
        }
    }

    /// The Standing of the waiter becomes 3, and its cell is the newest of the ready ones.
    pub(crate) fn make_ready<B: Board, N: NamesView>(
        &mut self,
        settling: Settling,
        board: &mut B,
    ) -> Turn
        requires room { length self.old.ready.numbers < self.old.ready.room }
        requires may { Asked B.view B.serves B.says B.forward B.moves N.after board.old self.old.number (CellStore settling.waiter words.Standing ready) }
        ensures made { StepMade B.view B.serves B.says B.did N.after board.old self.old.number (CellStore settling.waiter words.Standing ready) (Done) board.new }
        ensures goes { self.new ≡ readied settling self.old }
        ensures turn { result ≡ Ran points.Step }
    {
        board.cell_store::<N>(self.number, settling.waiter, CellWord::Standing, READY);
        self.ready.push(settling.waiter);
        self.go_on_behind(settling.rest);
        RAN
    }

    /// The waiter's Next word tells who is parked already.
    pub(crate) fn link<B: Board, N: NamesView>(&mut self, settling: Settling, board: &mut B) -> Turn
        requires may { Asked B.view B.serves B.says B.forward B.moves N.after board.old self.old.number (CellStore settling.waiter words.Next (head_in settling.seen)) }
        ensures made { StepMade B.view B.serves B.says B.did N.after board.old self.old.number (CellStore settling.waiter words.Next (head_in settling.seen)) (Done) board.new }
        ensures goes { self.new ≡ with_phase (phases.Parking settling) self.old }
        ensures turn { result ≡ Ran points.Step }
    {
        cells::set_next::<B, N>(board, self.number, settling.waiter, settling.seen);
        self.phase = Phase::Parking(settling);
        RAN
    }

    /// It is parked: it becomes the first waiter. Where the State has become another one, that tells anew whether the wait is over.
    pub(crate) fn park<B: Board, N: NamesView>(&mut self, settling: Settling, board: &mut B) -> Turn
        requires few { settling.waiter < 65536 }
        requires waits { MayPark settling.wait settling.seen }
        requires may { Asked B.view B.serves B.says B.forward B.moves N.after board.old self.old.number (CellChange (cell_of settling.wait) settling.seen (parked_word settling.wait settling.waiter settling.seen)) }
        ensures made { (found : ℕ) × StepMade B.view B.serves B.says B.did N.after board.old self.old.number (CellChange (cell_of settling.wait) settling.seen (parked_word settling.wait settling.waiter settling.seen)) (Number found) board.new × (self.new ≡ parked settling found self.old) }
        ensures turn { result ≡ Ran points.Step }
    {
        let tried = park::<B, N>(
            board,
            self.number,
            settling.wait,
            settling.waiter,
            settling.seen,
        );
        match tried {
            Ok(()) => {
                self.phase = Phase::Lowering {
                    rest: settling.rest,
                };
            }
            Err(again) => self.settle(Settling {
                seen: again.now,
                ..settling
            }),
        }
        RAN
    }

    /// A unit is taken away of the active count.
    pub(crate) fn lower<B: Board, N: NamesView>(
        &mut self,
        rest: Option<Rest>,
        board: &mut B,
    ) -> Turn
        requires may { Asked B.view B.serves B.says B.forward B.moves N.after board.old self.old.number (ActiveAdd false) }
        ensures made { (found : ℕ) × StepMade B.view B.serves B.says B.did N.after board.old self.old.number (ActiveAdd false) (Number found) board.new }
        ensures goes { self.new ≡ behind rest self.old }
        ensures turn { result ≡ Ran points.Step }
    {
        let _old = board.active_add::<N>(self.number, false);
        self.go_on_behind(rest);
        RAN
    }
}

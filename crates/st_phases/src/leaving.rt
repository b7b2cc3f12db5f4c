//! The top thread is taken out.
ghost use Rattle.std.specs.Prelude.{◌≡◌, ◌≢◌, ◌<◌, ℕ, suc, true, []};
ghost use Rattle.st_model.specs.declared.code.Layout.TheVariants.{Postprocessed};
ghost use Rattle.st_model.specs.Layout.{IsCodeOf};
ghost use Rattle.st_model.specs.Memory.{data_of};
ghost use Rattle.st_words.specs.declared.view.CellWord.TheVariants as words;
ghost use Rattle.st_words.specs.declared.view.Slot.TheVariants as slots;
ghost use Rattle.st_words.specs.Encodings.{trap_word};
ghost use Rattle.st_words.specs.Made.{Asked, StepMade};
ghost use Rattle.st_words.specs.Steps.{CellStore, ActiveAdd, SlotPut, Done, Number};
ghost use Rattle.st_chain.specs.declared.logical.Moved.{Moved};
ghost use Rattle.st_chain.specs.Taking.{Taking, Suspends, SuspendStep, MaySuspend};
ghost use Rattle.st_phases.specs.Automaton.{with_phase};
ghost use Rattle.st_phases.specs.Leaving.{IsSuspended, item_place, standing_word, slotted};
ghost use Rattle.st_phases.specs.declared.phase.Phase.TheVariants as phases;
ghost use Rattle.st_phases.specs.declared.turn.Point.TheVariants as points;
ghost use Rattle.st_phases.specs.declared.turn.Turn.TheVariants.{Ran};

use crate::automaton::Automaton;
use crate::phase::{Leaving, Phase, Settling};
use crate::turn::{RAN, Turn};
use st_base::chain::{Chain, Waiting};
use st_base::image::Image;
use st_chain::logical::Moved;
use st_words::board::{Board, NamesView};
use st_words::view::{CellWord, Slot};

/// The Standing word of a thread that waits.
const WAITS: u64 = 2;

/// The Standing word of a thread that has stopped.
const STOPPED: u64 = 4;

/// The place of the item at which a thread leaves: one word before the place at which it goes on, where that item is a call.
fn item_place(pc: u32, at_call: bool) -> u32
    ensures { result ≡ item_place pc at_call }
{
    if at_call { pc.saturating_sub(4) } else { pc }
}

/// The Standing word of a thread that leaves: it waits where the low bits of its Trap word are 0.
fn standing_word(kind: u64) -> u64
    ensures { result ≡ standing_word kind }
{
    if kind == 0 { WAITS } else { STOPPED }
}

impl Automaton {
    /// A unit is added for the thread that leaves, since another one stays.
    pub(crate) fn part<B: Board, N: NamesView>(&mut self, leaving: Leaving, board: &mut B) -> Turn
        requires may { Asked B.view B.serves B.says B.forward B.moves N.after board.old self.old.number (ActiveAdd true) }
        ensures made { (found : ℕ) × StepMade B.view B.serves B.says B.did N.after board.old self.old.number (ActiveAdd true) (Number found) board.new }
        ensures goes { self.new ≡ with_phase (phases.Suspending leaving) self.old }
        ensures turn { result ≡ Ran points.Step }
    {
        let _old = board.active_add::<N>(self.number, true);
        self.phase = Phase::Suspending(leaving);
        RAN
    }

    /// A step of taking it off: its frames are walked, and at the end its chain is known.
    pub(crate) fn suspend<B: Board, N: NamesView>(
        &mut self,
        leaving: Leaving,
        image: &Image,
        board: &mut B,
    ) -> Turn
        requires may { MaySuspend (λ s. Asked B.view B.serves B.says B.forward B.moves N.after board.old self.old.number s) image.now (data_of image.now.rodata []) leaving.wait self.old.threads.notes self.old.threads.open self.old.machine self.old.stack }
        ensures step { (moved : Moved) × IsSuspended leaving moved self.old self.new × ((t : Taking) → (n : ℕ) → IsCodeOf Postprocessed t.p image.now → t.d ≡ data_of image.now.rodata [] → Suspends t leaving.wait self.old.threads.notes self.old.threads.open self.old.machine self.old.stack (suc n) → SuspendStep (λ s a b. StepMade B.view B.serves B.says B.did N.after board.old self.old.number s a b) board.old t n self.old.threads.notes self.new.threads.notes self.new.threads.open self.old.machine self.new.machine self.new.stack moved board.new) }
        ensures turn { result ≡ Ran points.Step }
    {
        let moved = self.threads.suspend_step::<B, N>(
            &mut self.machine,
            &mut self.stack,
            image,
            board,
            self.number,
            leaving.wait,
        );
        if let Moved::Done(chain) = moved {
            self.phase = Phase::Marking { chain, leaving };
        }
        RAN
    }

    /// Its Trap word is stored.
    pub(crate) fn mark<B: Board, N: NamesView>(
        &mut self,
        chain: Chain,
        leaving: Leaving,
        board: &mut B,
    ) -> Turn
        requires small { leaving.kind < 16 }
        requires may { Asked B.view B.serves B.says B.forward B.moves N.after board.old self.old.number (CellStore chain.cell words.Trap (trap_word (item_place chain.pc leaving.at_call) leaving.kind)) }
        ensures made { StepMade B.view B.serves B.says B.did N.after board.old self.old.number (CellStore chain.cell words.Trap (trap_word (item_place chain.pc leaving.at_call) leaving.kind)) (Done) board.new }
        ensures goes { self.new ≡ with_phase (phases.Standing chain leaving) self.old }
        ensures turn { result ≡ Ran points.Step }
    {
        let word = u64::from(item_place(chain.pc, leaving.at_call)) * 16 + leaving.kind;
        board.cell_store::<N>(self.number, chain.cell, CellWord::Trap, word);
        self.phase = Phase::Standing { chain, leaving };
        RAN
    }

    /// Its Standing word is stored.
    pub(crate) fn stand<B: Board, N: NamesView>(
        &mut self,
        chain: Chain,
        leaving: Leaving,
        board: &mut B,
    ) -> Turn
        requires may { Asked B.view B.serves B.says B.forward B.moves N.after board.old self.old.number (CellStore chain.cell words.Standing (standing_word leaving.kind)) }
        ensures made { StepMade B.view B.serves B.says B.did N.after board.old self.old.number (CellStore chain.cell words.Standing (standing_word leaving.kind)) (Done) board.new }
        ensures goes { self.new ≡ with_phase (phases.Slotting chain leaving) self.old }
        ensures turn { result ≡ Ran points.Step }
    {
        let word = standing_word(leaving.kind);
        board.cell_store::<N>(self.number, chain.cell, CellWord::Standing, word);
        self.phase = Phase::Slotting { chain, leaving };
        RAN
    }

    /// Its chain is put into its slot. A thread that waits is a waiter in hand then, and the unit of one that has stopped is taken away.
    pub(crate) fn slot<B: Board, N: NamesView>(
        &mut self,
        chain: Chain,
        leaving: Leaving,
        board: &mut B,
    ) -> Turn
        requires may { Asked B.view B.serves B.says B.forward B.moves N.after board.old self.old.number (SlotPut (slots.Cell chain.cell) chain (N.cargo (B.view board.old self.old.number) (slots.Cell chain.cell) chain)) }
        ensures made { StepMade B.view B.serves B.says B.did N.after board.old self.old.number (SlotPut (slots.Cell chain.cell) chain (N.cargo (B.view board.old self.old.number) (slots.Cell chain.cell) chain)) (Done) board.new }
        ensures goes { self.new ≡ slotted chain leaving self.old }
        ensures turn { result ≡ Ran points.Step }
    {
        board.slot_put::<N>(self.number, Slot::Cell(chain.cell), chain);
        if leaving.kind == 0 {
            self.settle(Settling {
                waiter: chain.cell,
                wait: leaving.wait,
                seen: leaving.seen,
                rest: None,
            });
        } else {
            self.phase = Phase::Lowering { rest: None };
        }
        RAN
    }
}

//! A request is answered: by a ready thread, by the bottom one of two, or by a refusal.
ghost use Rattle.std.specs.Prelude.{◌≡◌, ◌+◌, ◌^◌, ◌<◌, ℕ, Option, Some, suc, true, []};
ghost use Rattle.st_base.specs.declared.chain.Chain.{Chain};
ghost use Rattle.st_model.specs.declared.code.Layout.TheVariants.{Postprocessed};
ghost use Rattle.st_model.specs.Layout.{IsCodeOf};
ghost use Rattle.st_model.specs.Memory.{data_of};
ghost use Rattle.st_words.specs.declared.view.Cargo.{Cargo};
ghost use Rattle.st_words.specs.declared.view.CellWord.TheVariants as words;
ghost use Rattle.st_words.specs.declared.view.Slot.TheVariants as slots;
ghost use Rattle.st_words.specs.Encodings.{asking, answering_word, running};
ghost use Rattle.st_words.specs.Made.{Asked, StepMade};
ghost use Rattle.st_words.specs.Steps.{CellStore, ActiveAdd, RequestChange, MailStore, SlotTake, SlotPut, Done, Number, Took};
ghost use Rattle.st_steal.specs.Ready.{IsPopped};
ghost use Rattle.st_steal.specs.Words.{told_word};
ghost use Rattle.st_chain.specs.declared.logical.Moved.{Moved};
ghost use Rattle.st_chain.specs.Forks.{AreRising};
ghost use Rattle.st_chain.specs.Taking.{Taking, Gives, GiveStep, MayGive};
ghost use Rattle.st_phases.specs.Automaton.{with_phase, with_ready};
ghost use Rattle.st_phases.specs.Waking.{NeverEmpty};
ghost use Rattle.st_phases.specs.Answering.{has_two, GoesOnAnswered, IsAnswered, chosen, IsGiven};
ghost use Rattle.st_phases.specs.declared.phase.Phase.TheVariants as phases;
ghost use Rattle.st_phases.specs.declared.turn.Point.TheVariants as points;
ghost use Rattle.st_phases.specs.declared.turn.Turn.TheVariants.{Ran};

use crate::automaton::Automaton;
use crate::entries::RUNNING;
use crate::phase::Phase;
use crate::turn::{RAN, Turn};
use st_base::chain::Chain;
use st_base::image::{ForkRow, Image};
use st_chain::forks::handle_of;
use st_chain::logical::Moved;
use st_steal::requests;
use st_words::board::{Board, NamesView};
use st_words::view::{CellWord, Slot};

impl Automaton {
    /// After an answer the thread goes on, or the round of a worker without one, at its next place.
    fn go_on_answered(&mut self)
        ensures { GoesOnAnswered self.old.threads.notes self.old self.new }
    {
        if self.threads.threads().is_empty() {
            self.phase = Phase::Mail;
        } else {
            self.run_on();
        }
    }

    /// Whether there are two threads and the second one from the bottom has a frame. A child that was just forked has none.
    fn has_two(&self, forks: &[ForkRow]) -> bool
        requires forks { AreRising 0 forks.now }
        requires place { self.now.machine.pc + 4 < 2 ^ 32 }
        ensures { result ≡ has_two forks.now self.now }
    {
        let count = self.threads.threads().len();
        let is_forked = handle_of(forks, self.machine.pc() + 4).is_some();
        count > 2 || (count == 2 && !is_forked)
    }

    /// What answers a request: a ready number, the bottom thread, or a refusal.
    fn choose(&mut self, asker: u32, forks: &[ForkRow])
        requires forks { AreRising 0 forks.now }
        requires place { self.old.machine.pc + 4 < 2 ^ 32 }
        ensures { (popped : Option ℕ) × IsPopped self.old.ready.numbers popped self.new.ready.numbers × (self.new ≡ chosen asker popped forks.now (with_ready self.new.ready.numbers self.old)) }
    {
        let popped = self.ready.pop();
        self.phase = match popped {
            Some(cell) => Phase::Picking { asker, cell },
            None if self.has_two(forks) => Phase::Sharing { asker },
            None => Phase::Telling {
                asker,
                given: false,
            },
        };
    }

    /// The answer begins, if the request stands.
    pub(crate) fn answer<B: Board, N: NamesView>(
        &mut self,
        asker: u32,
        forks: &[ForkRow],
        board: &mut B,
    ) -> Turn
        requires forks { AreRising 0 forks.now }
        requires place { self.old.machine.pc + 4 < 2 ^ 32 }
        requires may { Asked B.view B.serves B.says B.forward B.moves N.after board.old self.old.number (RequestChange self.old.number (asking asker) answering_word) }
        ensures made { (found : ℕ) × StepMade B.view B.serves B.says B.did N.after board.old self.old.number (RequestChange self.old.number (asking asker) answering_word) (Number found) board.new × IsAnswered asker forks.now found self.old self.new }
        ensures turn { result ≡ Ran points.Step }
    {
        match requests::begin_answer::<B, N>(board, self.number, asker) {
            Ok(()) => self.choose(asker, forks),
            Err(_) => self.go_on_answered(),
        }
        RAN
    }

    /// The chain of a ready thread is taken out of its slot.
    pub(crate) fn pick<B: Board, N: NamesView>(
        &mut self,
        asker: u32,
        cell: u32,
        board: &mut B,
    ) -> Turn
        requires may { Asked B.view B.serves B.says B.forward B.moves N.after board.old self.old.number (SlotTake (slots.Cell cell)) }
        requires some { NeverEmpty (λ a. B.says board.old self.old.number (SlotTake (slots.Cell cell)) a) }
        ensures made { (cargo : Cargo) × (chain : Chain) × StepMade B.view B.serves B.says B.did N.after board.old self.old.number (SlotTake (slots.Cell cell)) (Took (Some chain) cargo) board.new × (self.new ≡ with_phase (phases.Waving asker chain) self.old) }
        ensures turn { result ≡ Ran points.Step }
    {
        let Some(chain) = board.slot_take::<N>(self.number, Slot::Cell(cell)) else {
            unreachable!()
        };
        self.phase = Phase::Waving { asker, chain };
        RAN
    }

    /// The Standing of the ready thread becomes 1, as that of a thread in mail is.
    pub(crate) fn wave<B: Board, N: NamesView>(
        &mut self,
        asker: u32,
        chain: Chain,
        board: &mut B,
    ) -> Turn
        requires may { Asked B.view B.serves B.says B.forward B.moves N.after board.old self.old.number (CellStore chain.cell words.Standing running) }
        ensures made { StepMade B.view B.serves B.says B.did N.after board.old self.old.number (CellStore chain.cell words.Standing running) (Done) board.new }
        ensures goes { self.new ≡ with_phase (phases.Mailing asker chain) self.old }
        ensures turn { result ≡ Ran points.Step }
    {
        board.cell_store::<N>(self.number, chain.cell, CellWord::Standing, RUNNING);
        self.phase = Phase::Mailing { asker, chain };
        RAN
    }

    /// A unit is added for the bottom thread, which is given away.
    pub(crate) fn share<B: Board, N: NamesView>(&mut self, asker: u32, board: &mut B) -> Turn
        requires may { Asked B.view B.serves B.says B.forward B.moves N.after board.old self.old.number (ActiveAdd true) }
        ensures made { (found : ℕ) × StepMade B.view B.serves B.says B.did N.after board.old self.old.number (ActiveAdd true) (Number found) board.new }
        ensures goes { self.new ≡ with_phase (phases.Giving asker) self.old }
        ensures turn { result ≡ Ran points.Step }
    {
        let _old = board.active_add::<N>(self.number, true);
        self.phase = Phase::Giving { asker };
        RAN
    }

    /// A step of taking it off: its frames are walked, and at the end its chain is known.
    pub(crate) fn give<B: Board, N: NamesView>(
        &mut self,
        asker: u32,
        image: &Image,
        board: &mut B,
    ) -> Turn
        requires may { MayGive (λ s. Asked B.view B.serves B.says B.forward B.moves N.after board.old self.old.number s) image.now (data_of image.now.rodata []) self.old.threads.notes self.old.threads.open self.old.machine self.old.stack }
        ensures step { (moved : Moved) × IsGiven asker moved self.old self.new × ((t : Taking) → (n : ℕ) → IsCodeOf Postprocessed t.p image.now → t.d ≡ data_of image.now.rodata [] → Gives t self.old.threads.notes self.old.threads.open self.old.machine self.old.stack (suc n) → GiveStep (λ s a b. StepMade B.view B.serves B.says B.did N.after board.old self.old.number s a b) board.old t n self.old.threads.notes self.new.threads.notes self.new.threads.open self.old.machine self.new.stack moved board.new) }
        ensures turn { result ≡ Ran points.Step }
    {
        let moved = self
            .threads
            .give_step::<B, N>(&self.machine, &mut self.stack, image, board, self.number);
        if let Moved::Done(chain) = moved {
            self.phase = Phase::Mailing { asker, chain };
        }
        RAN
    }

    /// The chain is put into the mail of the worker that asks.
    pub(crate) fn put_mail<B: Board, N: NamesView>(
        &mut self,
        asker: u32,
        chain: Chain,
        board: &mut B,
    ) -> Turn
        requires may { Asked B.view B.serves B.says B.forward B.moves N.after board.old self.old.number (SlotPut (slots.Mail asker) chain (N.cargo (B.view board.old self.old.number) (slots.Mail asker) chain)) }
        ensures made { StepMade B.view B.serves B.says B.did N.after board.old self.old.number (SlotPut (slots.Mail asker) chain (N.cargo (B.view board.old self.old.number) (slots.Mail asker) chain)) (Done) board.new }
        ensures goes { self.new ≡ with_phase (phases.Telling asker true) self.old }
        ensures turn { result ≡ Ran points.Step }
    {
        requests::put_mail::<B, N>(board, self.number, asker, chain);
        self.phase = Phase::Telling { asker, given: true };
        RAN
    }

    /// The answer is told, by the mail word of the worker that asks.
    pub(crate) fn tell<B: Board, N: NamesView>(
        &mut self,
        asker: u32,
        given: bool,
        board: &mut B,
    ) -> Turn
        requires may { Asked B.view B.serves B.says B.forward B.moves N.after board.old self.old.number (MailStore asker (told_word given)) }
        ensures made { StepMade B.view B.serves B.says B.did N.after board.old self.old.number (MailStore asker (told_word given)) (Done) board.new }
        ensures goes { self.new ≡ with_phase phases.Clearing self.old }
        ensures turn { result ≡ Ran points.Step }
    {
        requests::tell_mail::<B, N>(board, self.number, asker, given);
        self.phase = Phase::Clearing;
        RAN
    }

    /// The own request word becomes 0, and the worker goes on.
    pub(crate) fn clear<B: Board, N: NamesView>(&mut self, board: &mut B) -> Turn
        requires may { Asked B.view B.serves B.says B.forward B.moves N.after board.old self.old.number (RequestChange self.old.number answering_word 0) }
        ensures made { (found : ℕ) × StepMade B.view B.serves B.says B.did N.after board.old self.old.number (RequestChange self.old.number answering_word 0) (Number found) board.new × GoesOnAnswered self.old.threads.notes self.old self.new }
        ensures turn { result ≡ Ran points.Step }
    {
        requests::clear::<B, N>(board, self.number);
        self.go_on_answered();
        RAN
    }
}

//! The end of a thread.
ghost use Rattle.std.specs.Prelude.{◌≡◌, ◌≢◌, ◌≤◌, ℕ, []};
ghost use Rattle.st_base.specs.declared.reg.Reg.TheVariants as registers;
ghost use Rattle.st_words.specs.Encodings.{full_word, ended};
ghost use Rattle.st_words.specs.Made.{Asked, StepMade};
ghost use Rattle.st_words.specs.Steps.{CellLoad, CellStore, CellChange, Done, Number};
ghost use Rattle.st_words.specs.declared.view.CellWord.TheVariants as words;
ghost use Rattle.st_step.specs.Moves.{register};
ghost use Rattle.st_chain.specs.Forks.{AreRising};
ghost use Rattle.st_phases.specs.Automaton.{top, with_phase, wakes};
ghost use Rattle.st_phases.specs.Ending.{below_goes_on, filled, ended_or_step, rest_of};
ghost use Rattle.st_phases.specs.declared.phase.Phase.TheVariants as phases;
ghost use Rattle.st_phases.specs.declared.turn.Point.TheVariants as points;
ghost use Rattle.st_phases.specs.declared.turn.Turn.TheVariants.{Ran};

use crate::automaton::Automaton;
use crate::entries::FORK_OUT;
use crate::phase::{Phase, Rest};
use crate::turn::{Point, RAN, Turn};
use st_base::image::{ForkRow, Image};
use st_base::reg::Reg;
use st_cells::cells;
use st_chain::forks::handle_of;
use st_words::board::{Board, NamesView};
use st_words::view::CellWord;

/// The State word of a full future.
pub(crate) const FULL: u64 = 1 << 32;

/// The Standing word of a thread that has ended.
const ENDED: u64 = 5;

impl Automaton {
    /// The value of the top thread, which is in a0, is stored.
    pub(crate) fn set_value<B: Board, N: NamesView>(&mut self, board: &mut B) -> Turn
        requires some { self.old.threads.notes ≢ [] }
        requires may { Asked B.view B.serves B.says B.forward B.moves N.after board.old self.old.number (CellStore (top self.old.threads.notes).cell words.Value (register self.old.machine registers.A0)) }
        ensures made { StepMade B.view B.serves B.says B.did N.after board.old self.old.number (CellStore (top self.old.threads.notes).cell words.Value (register self.old.machine registers.A0)) (Done) board.new }
        ensures goes { self.new ≡ with_phase phases.Finding self.old }
        ensures turn { result ≡ Ran points.Step }
    {
        let cell = self.top().cell;
        cells::set_value::<B, N>(board, self.number, cell, self.machine.reg(Reg::A0));
        self.phase = Phase::Finding;
        RAN
    }

    /// The State of its cell is loaded.
    pub(crate) fn find<B: Board, N: NamesView>(&mut self, board: &mut B) -> Turn
        requires some { self.old.threads.notes ≢ [] }
        requires may { Asked B.view B.serves B.says B.forward B.moves N.after board.old self.old.number (CellLoad (top self.old.threads.notes).cell words.State) }
        ensures made { (found : ℕ) × StepMade B.view B.serves B.says B.did N.after board.old self.old.number (CellLoad (top self.old.threads.notes).cell words.State) (Number found) board.new × (self.new ≡ with_phase (phases.Filling found) self.old) }
        ensures turn { result ≡ Ran points.Step }
    {
        let cell = self.top().cell;
        let seen = board.cell_load::<N>(self.number, cell, CellWord::State);
        self.phase = Phase::Filling { seen };
        RAN
    }

    /// At the end of a child the thread below goes on behind its fork, whose register gets the child's cell.
    fn go_on_below(&mut self, forks: &[ForkRow], cell: u32)
        requires { AreRising 0 forks.now }
        ensures { self.new ≡ below_goes_on forks.now cell self.old }
    {
        if self.machine.pc() != FORK_OUT {
            return;
        }
        let back = self.back();
        if let Some(handle) = handle_of(forks, back.saturating_sub(4)) {
            self.machine.set_reg(handle, u64::from(cell));
        }
        self.machine.set_pc(back);
    }

    /// The cell of the top thread becomes full, and the thread goes out. Where its State has become another one, that is tried anew.
    pub(crate) fn fill<B: Board, N: NamesView>(
        &mut self,
        seen: u64,
        image: &Image,
        board: &mut B,
    ) -> Turn
        requires some { self.old.threads.notes ≢ [] }
        requires forks { AreRising 0 image.now.forks }
        requires may { Asked B.view B.serves B.says B.forward B.moves N.after board.old self.old.number (CellChange (top self.old.threads.notes).cell seen full_word) }
        ensures made { (found : ℕ) × StepMade B.view B.serves B.says B.did N.after board.old self.old.number (CellChange (top self.old.threads.notes).cell seen full_word) (Number found) board.new × (self.new ≡ filled image.now.forks seen found self.old) × (result ≡ ended_or_step seen found) }
    {
        let cell = self.top().cell;
        match cells::fill::<B, N>(board, self.number, cell, seen) {
            Err(again) => {
                self.phase = Phase::Filling { seen: again.now };
                RAN
            }
            Ok(head) => {
                self.drop_top();
                self.go_on_below(image.forks.as_slice(), cell);
                self.phase = Phase::Ending { cell, head };
                Turn::Ran(Point::Ended)
            }
        }
    }

    /// The Standing of the thread that has ended becomes 5, and its waiters come in hand.
    pub(crate) fn end<B: Board, N: NamesView>(
        &mut self,
        cell: u32,
        head: u64,
        board: &mut B,
    ) -> Turn
        requires may { Asked B.view B.serves B.says B.forward B.moves N.after board.old self.old.number (CellStore cell words.Standing ended) }
        ensures made { StepMade B.view B.serves B.says B.did N.after board.old self.old.number (CellStore cell words.Standing ended) (Done) board.new }
        ensures goes { self.new ≡ wakes (rest_of cell head) self.old }
        ensures turn { result ≡ Ran points.Step }
    {
        board.cell_store::<N>(self.number, cell, CellWord::Standing, ENDED);
        self.wake(Rest {
            cell,
            counter: false,
            word: FULL,
            next: head,
        });
        RAN
    }
}

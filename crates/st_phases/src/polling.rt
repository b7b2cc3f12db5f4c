//! Polls of a worker with a thread.
ghost use Rattle.std.specs.Prelude.{◌≡◌, ℕ, Option};
ghost use Rattle.st_base.specs.declared.chain.Frame.{Frame};
ghost use Rattle.st_base.specs.declared.reg.Reg.TheVariants as registers;
ghost use Rattle.st_step.specs.Runs.{AreValues};
ghost use Rattle.st_words.specs.Made.{Asked, StepMade};
ghost use Rattle.st_words.specs.Steps.{RequestLoad, StopLoad, Look, Number, return_place};
ghost use Rattle.st_step.specs.Moves.{register};
ghost use Rattle.st_stack.specs.Exported.{IsFrameOn, IsLowest, IsLimit};
ghost use Rattle.st_stack.specs.Shrinking.{IsStackOf, Shrinks};
ghost use Rattle.st_stack.specs.declared.stack.Shrunk.{Shrunk};
ghost use Rattle.st_steal.specs.Words.{IsAsker};
ghost use Rattle.st_items.specs.Rows.{AreAscending, row_behind};
ghost use Rattle.st_phases.specs.Automaton.{with_phase};
ghost use Rattle.st_phases.specs.Polling.{IsTopFrame, heeded, over_or_step, IsShrunk, RunsOn};
ghost use Rattle.st_phases.specs.declared.phase.Phase.TheVariants as phases;
ghost use Rattle.st_phases.specs.declared.turn.Point.TheVariants as points;
ghost use Rattle.st_phases.specs.declared.turn.Turn.TheVariants.{Ran};

use crate::automaton::Automaton;
use crate::phase::Phase;
use crate::turn::{Point, RAN, Turn};
use st_base::chain::Frame;
use st_base::image::FrameRow;
use st_base::reg::Reg;
use st_items::code::row_of;
use st_stack::stack::Shrunk;
use st_steal::requests;
use st_words::board::{Board, NamesView};

impl Automaton {
    /// The own request word is read, which tells whether a worker asks.
    pub(crate) fn poll<B: Board, N: NamesView>(&mut self, board: &mut B) -> Turn
        requires may { Asked B.view B.serves B.says B.forward B.moves N.after board.old self.old.number (RequestLoad self.old.number) }
        ensures made { (found : ℕ) × (asker : Option ℕ) × StepMade B.view B.serves B.says B.did N.after board.old self.old.number (RequestLoad self.old.number) (Number found) board.new × IsAsker found asker × (self.new ≡ with_phase (phases.Heeding asker) self.old) }
        ensures turn { result ≡ Ran points.Polled }
    {
        let asker = requests::asked::<B, N>(board, self.number);
        self.phase = Phase::Heeding { asker };
        Turn::Ran(Point::Polled)
    }

    /// The stop word is read.
    pub(crate) fn heed<B: Board, N: NamesView>(&mut self, asker: Option<u32>, board: &mut B) -> Turn
        requires may { Asked B.view B.serves B.says B.forward B.moves N.after board.old self.old.number StopLoad }
        ensures made { (found : ℕ) × StepMade B.view B.serves B.says B.did N.after board.old self.old.number StopLoad (Number found) board.new × (self.new ≡ heeded (phases.Shrinking asker) found self.old) × (result ≡ over_or_step found) }
    {
        let word = board.stop_load::<N>(self.number);
        self.since = 0;
        if word != 0 {
            return Turn::Over { word };
        }
        self.phase = Phase::Shrinking { asker };
        RAN
    }

    /// The frame of the newest activation, where it is on this stack and not exported.
    fn top_frame(&self, rows: &[FrameRow]) -> Option<Frame>
        requires { AreAscending 0 rows.now }
        ensures { IsTopFrame (row_behind rows.now self.now.machine.pc) self.now result }
    {
        let row = row_of(rows, self.machine.pc())?;
        let base = self.machine.reg(Reg::S0);
        let frame = Frame {
            low: base.saturating_sub(u64::from(row.frame_bytes)),
            base,
        };
        if self.stack.is_on(frame) && !self.stack.is_exported(frame) {
            return Some(frame);
        }
        None
    }

    /// The thread goes on, with the limit of the stack in gp.
    pub(crate) fn run_on(&mut self)
        ensures runs { RunsOn self.old self.new }
        ensures values { AreValues self.old.machine → AreValues self.new.machine }
    {
        self.machine.set_reg(Reg::Gp, self.stack.limit());
        self.phase = Phase::Running;
    }

    /// One exported frame is taken back. Where none can be, the request is answered, or the thread goes on.
    pub(crate) fn shrink<B: Board, N: NamesView>(
        &mut self,
        asker: Option<u32>,
        rows: &[FrameRow],
        board: &mut B,
    ) -> Turn
        requires rows { AreAscending 0 rows.now }
        requires stack { IsStackOf self.old.number self.old.stack.lo self.old.stack.hi }
        requires may { (f : Frame) → IsLowest self.old.stack.exported f → IsFrameOn self.old.stack.lo self.old.stack.hi f → Asked B.view B.serves B.says B.forward B.moves N.after board.old self.old.number (Look (return_place f)) }
        ensures shrunk { (top : Option Frame) × (shrunk : Shrunk) × IsTopFrame (row_behind rows.now self.old.machine.pc) self.old top × Shrinks B.view B.serves B.says B.did N.after board.old self.old.number self.old.stack.hi self.old.stack.exported self.new.stack.exported top shrunk board.new × IsShrunk asker shrunk self.old self.new }
        ensures turn { result ≡ Ran points.Step }
    {
        let top = self.top_frame(rows);
        let sp = self.machine.reg(Reg::Sp);
        let shrunk = self.stack.shrink_step::<B, N>(board, self.number, sp, top);
        if let Shrunk::Done { sp } = shrunk {
            self.machine.set_reg(Reg::Sp, sp);
            match asker {
                Some(asker) => self.phase = Phase::Answering { asker },
                None => self.run_on(),
            }
        }
        RAN
    }
}

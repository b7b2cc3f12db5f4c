//! A chain comes in, and its thread goes on here.
ghost use Rattle.std.specs.Prelude.{◌≡◌, ℕ, Some, []};
ghost use Rattle.st_words.specs.declared.view.CellWord.TheVariants as words;
ghost use Rattle.st_words.specs.Encodings.{running};
ghost use Rattle.st_step.specs.Runs.{AreValues};
ghost use Rattle.st_words.specs.Made.{Asked, StepMade};
ghost use Rattle.st_words.specs.Steps.{CellLoad, CellStore, Done, Number};
ghost use Rattle.st_phases.specs.Waking.{cell_of};
ghost use Rattle.st_phases.specs.Polling.{RunsOn};
ghost use Rattle.st_phases.specs.Coming.{started, with_value, arrived, TakesOn, Sees};
ghost use Rattle.st_phases.specs.declared.turn.Point.TheVariants as points;
ghost use Rattle.st_phases.specs.declared.turn.Turn.TheVariants.{Ran};

use crate::automaton::Automaton;
use crate::entries::{END, RUNNING};
use crate::phase::Phase;
use crate::turn::{Point, RAN, Turn};
use crate::waking::cell_of;
use st_base::chain::{Chain, Waiting};
use st_base::reg::Reg;
use st_words::board::{Board, NamesView};
use st_words::view::CellWord;

impl Automaton {
    /// Where the chain is the root's first, `main` begins: it returns to st_end, with the length of the input in a0.
    fn start(&mut self, wait: Waiting, main_at: u32)
        ensures goes { self.new ≡ started wait main_at self.old }
        ensures values { AreValues self.old.machine → AreValues self.new.machine }
    {
        if let Waiting::Start = wait {
            self.machine.set_reg(Reg::Ra, u64::from(END));
            self.machine.set_reg(Reg::A0, self.length);
            self.machine.set_reg(Reg::S0, 0);
            self.machine.set_pc(main_at);
        }
    }

    /// The value of a future comes into a0.
    fn put_value(&mut self, value: Option<u64>)
        ensures goes { self.new ≡ with_value value self.old }
        ensures values { AreValues self.old.machine → AreValues self.new.machine }
    {
        if let Some(value) = value {
            self.machine.set_reg(Reg::A0, value);
        }
    }

    /// The thread of a chain goes on as the only one, with the value of the future that it has touched.
    fn arrive(&mut self, chain: Chain, value: Option<u64>, main_at: u32) -> Turn
        requires { self.old.threads.notes ≡ [] }
        ensures goes { RunsOn (arrived chain value main_at self.old) self.new }
        ensures values { AreValues self.old.machine → AreValues self.new.machine }
        ensures turn { result ≡ Ran points.Took }
    {
        self.threads.restart(&mut self.machine, chain);
        self.start(chain.wait, main_at);
        self.put_value(value);
        self.run_on();
        Turn::Ran(Point::Took)
    }

    /// A chain whose Standing is 1 goes on. Where it waited at a cell, that cell is looked at first.
    pub(crate) fn take_on(&mut self, chain: Chain, main_at: u32) -> Turn
        requires { self.old.threads.notes ≡ [] }
        ensures { TakesOn chain.wait chain main_at self.old result self.new }
    {
        match chain.wait {
            Waiting::Touch { .. } | Waiting::Join { .. } => {
                self.phase = Phase::Seeing { chain };
                RAN
            }
            _ => self.arrive(chain, None, main_at),
        }
    }

    /// The Standing of the chain's thread becomes 1.
    pub(crate) fn come<B: Board, N: NamesView>(
        &mut self,
        chain: Chain,
        main_at: u32,
        board: &mut B,
    ) -> Turn
        requires none { self.old.threads.notes ≡ [] }
        requires may { Asked B.view B.serves B.says B.forward B.moves N.after board.old self.old.number (CellStore chain.cell words.Standing running) }
        ensures made { StepMade B.view B.serves B.says B.did N.after board.old self.old.number (CellStore chain.cell words.Standing running) (Done) board.new }
        ensures goes { TakesOn chain.wait chain main_at self.old result self.new }
    {
        board.cell_store::<N>(self.number, chain.cell, CellWord::Standing, RUNNING);
        self.take_on(chain, main_at)
    }

    /// The State of the cell at which it waited is loaded.
    pub(crate) fn see_state<B: Board, N: NamesView>(
        &mut self,
        chain: Chain,
        main_at: u32,
        board: &mut B,
    ) -> Turn
        requires none { self.old.threads.notes ≡ [] }
        requires may { Asked B.view B.serves B.says B.forward B.moves N.after board.old self.old.number (CellLoad (cell_of chain.wait) words.State) }
        ensures made { (found : ℕ) × StepMade B.view B.serves B.says B.did N.after board.old self.old.number (CellLoad (cell_of chain.wait) words.State) (Number found) board.new }
        ensures goes { Sees chain.wait chain main_at self.old result self.new }
    {
        let _state = board.cell_load::<N>(self.number, cell_of(chain.wait), CellWord::State);
        if let Waiting::Touch { .. } = chain.wait {
            self.phase = Phase::Getting { chain };
            return RAN;
        }
        self.arrive(chain, None, main_at)
    }

    /// The value of the future that it has touched is loaded, and comes into a0.
    pub(crate) fn see_value<B: Board, N: NamesView>(
        &mut self,
        chain: Chain,
        main_at: u32,
        board: &mut B,
    ) -> Turn
        requires none { self.old.threads.notes ≡ [] }
        requires may { Asked B.view B.serves B.says B.forward B.moves N.after board.old self.old.number (CellLoad (cell_of chain.wait) words.Value) }
        ensures made { (found : ℕ) × StepMade B.view B.serves B.says B.did N.after board.old self.old.number (CellLoad (cell_of chain.wait) words.Value) (Number found) board.new × RunsOn (arrived chain (Some found) main_at self.old) self.new × (AreValues self.old.machine → AreValues self.new.machine) }
        ensures turn { result ≡ Ran points.Took }
    {
        let value = board.cell_load::<N>(self.number, cell_of(chain.wait), CellWord::Value);
        self.arrive(chain, Some(value), main_at)
    }
}

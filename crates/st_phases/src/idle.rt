//! The round of a worker without a thread.
ghost use Rattle.std.specs.Prelude.{◌≡◌, ◌==◌, ◌<◌, ◌≤◌, ℕ, Bool, Option, Some, None, []};
ghost use Rattle.std.specs.Int.{from_bool};
ghost use Rattle.st_base.specs.declared.chain.Chain.{Chain};
ghost use Rattle.st_base.specs.declared.chain.Frame.{Frame};
ghost use Rattle.st_words.specs.declared.view.Cargo.{Cargo};
ghost use Rattle.st_words.specs.declared.view.Slot.TheVariants as slots;
ghost use Rattle.st_words.specs.Encodings.{asking, nothing, waiting};
ghost use Rattle.st_words.specs.Made.{Asked, StepMade};
ghost use Rattle.st_words.specs.Steps.{StopLoad, ActiveLoad, RootTake, RequestLoad, RequestChange, MailLoad, MailStore, Look, SlotTake, Done, Number, Took, return_place};
ghost use Rattle.st_stack.specs.Exported.{IsFrameOn, IsLowest, IsLimit};
ghost use Rattle.st_stack.specs.Shrinking.{IsStackOf, Shrinks};
ghost use Rattle.st_stack.specs.declared.stack.Shrunk.{Shrunk};
ghost use Rattle.st_steal.specs.Words.{IsAsker};
ghost use Rattle.st_phases.specs.Automaton.{with_phase};
ghost use Rattle.st_phases.specs.Waking.{NeverEmpty};
ghost use Rattle.st_phases.specs.Polling.{heeded};
ghost use Rattle.st_phases.specs.Idle.{IsShrunkIdle, over_or_idle, active_read, active_turn, MayTakeOwn, TakesOwn, root_taken, root_turn, request_read, request_turn, mail_read, mail_turn, TakesBehind, withdrawn, withdraw_turn, MaySeventh, Sevenths, RoundBegins, next_other, asked_at, ask_turn};
ghost use Rattle.st_phases.specs.declared.phase.Behind.TheVariants as behinds;
ghost use Rattle.st_phases.specs.declared.phase.Behind.{Behind};
ghost use Rattle.st_phases.specs.declared.phase.Phase.TheVariants as phases;
ghost use Rattle.st_phases.specs.declared.turn.Point.TheVariants as points;
ghost use Rattle.st_phases.specs.declared.turn.Turn.TheVariants.{Ran, Idle};

use crate::automaton::Automaton;
use crate::phase::{Behind, Phase};
use crate::turn::{Point, RAN, Turn};
use st_base::chain::Chain;
use st_base::reg::Reg;
use st_stack::stack::Shrunk;
use st_steal::requests;
use st_words::board::{Board, NamesView};
use st_words::view::Slot;

/// The own mail word where a chain was given.
const GIVEN: u64 = 2;

/// The own mail word where the request was refused.
const REFUSED: u64 = 3;

impl Automaton {
    /// One exported frame is taken back. Where none can be, the stop word is read next.
    fn shrink_idle<B: Board, N: NamesView>(&mut self, board: &mut B) -> Turn
        requires stack { IsStackOf self.old.number self.old.stack.lo self.old.stack.hi }
        requires may { (f : Frame) → IsLowest self.old.stack.exported f → IsFrameOn self.old.stack.lo self.old.stack.hi f → Asked B.view B.serves B.says B.forward B.moves N.after board.old self.old.number (Look (return_place f)) }
        ensures shrunk { (shrunk : Shrunk) × Shrinks B.view B.serves B.says B.did N.after board.old self.old.number self.old.stack.hi self.old.stack.exported self.new.stack.exported None shrunk board.new × IsShrunkIdle shrunk self.old self.new }
        ensures turn { result ≡ Ran points.Step }
    {
        let sp = self.machine.reg(Reg::Sp);
        let shrunk = self.stack.shrink_step::<B, N>(board, self.number, sp, None);
        if let Shrunk::Done { sp } = shrunk {
            self.machine.set_reg(Reg::Sp, sp);
            self.phase = Phase::Stop;
        }
        RAN
    }

    /// The stop word is read.
    pub(crate) fn read_stop<B: Board, N: NamesView>(&mut self, board: &mut B) -> Turn
        requires may { Asked B.view B.serves B.says B.forward B.moves N.after board.old self.old.number StopLoad }
        ensures made { (found : ℕ) × StepMade B.view B.serves B.says B.did N.after board.old self.old.number StopLoad (Number found) board.new × (self.new ≡ heeded phases.Active found self.old) × (result ≡ over_or_idle found) }
    {
        let word = board.stop_load::<N>(self.number);
        self.since = 0;
        if word != 0 {
            return Turn::Over { word };
        }
        self.phase = Phase::Active;
        Turn::Idle { word }
    }

    /// The active count is read.
    pub(crate) fn read_active<B: Board, N: NamesView>(&mut self, board: &mut B) -> Turn
        requires may { Asked B.view B.serves B.says B.forward B.moves N.after board.old self.old.number ActiveLoad }
        ensures made { (found : ℕ) × StepMade B.view B.serves B.says B.did N.after board.old self.old.number ActiveLoad (Number found) board.new × (self.new ≡ active_read found self.old) × (result ≡ active_turn found) }
    {
        let word = board.active_load::<N>(self.number);
        if word == 0 {
            return Turn::Over { word };
        }
        self.phase = Phase::Own;
        Turn::Idle { word }
    }

    /// The chain is taken out of the slot of a cell, and comes to run.
    fn fetch<B: Board, N: NamesView>(&mut self, cell: u32, board: &mut B)
        requires may { Asked B.view B.serves B.says B.forward B.moves N.after board.old self.old.number (SlotTake (slots.Cell cell)) }
        requires some { NeverEmpty (λ a. B.says board.old self.old.number (SlotTake (slots.Cell cell)) a) }
        ensures made { (cargo : Cargo) × (chain : Chain) × StepMade B.view B.serves B.says B.did N.after board.old self.old.number (SlotTake (slots.Cell cell)) (Took (Some chain) cargo) board.new × (self.new ≡ with_phase (phases.Coming chain) self.old) }
    {
        let Some(chain) = board.slot_take::<N>(self.number, Slot::Cell(cell)) else {
            unreachable!()
        };
        self.phase = Phase::Coming { chain };
    }

    /// The chain of the own ready number that came first is taken; where there is none, the Root word.
    pub(crate) fn take_own<B: Board, N: NamesView>(&mut self, board: &mut B) -> Turn
        requires may { MayTakeOwn (λ s. Asked B.view B.serves B.says B.forward B.moves N.after board.old self.old.number s) (λ s a. B.says board.old self.old.number s a) self.old.ready.numbers }
        ensures { TakesOwn (λ s a b. StepMade B.view B.serves B.says B.did N.after board.old self.old.number s a b) self.old.ready.numbers self.old result self.new board.new }
    {
        match self.ready.pop() {
            Some(cell) => {
                self.fetch::<B, N>(cell, board);
                RAN
            }
            None => self.take_root::<B, N>(board),
        }
    }

    /// The Root word is taken.
    fn take_root<B: Board, N: NamesView>(&mut self, board: &mut B) -> Turn
        requires may { Asked B.view B.serves B.says B.forward B.moves N.after board.old self.old.number RootTake }
        ensures made { (found : Bool) × StepMade B.view B.serves B.says B.did N.after board.old self.old.number RootTake (Number (from_bool found)) board.new × (self.new ≡ root_taken found self.old) × (result ≡ root_turn found) }
    {
        if board.root_take::<N>(self.number) {
            self.phase = Phase::First;
            return RAN;
        }
        self.phase = Phase::Request;
        Turn::Idle { word: 0 }
    }

    /// The root's first chain is taken.
    pub(crate) fn take_first<B: Board, N: NamesView>(&mut self, board: &mut B) -> Turn
        requires may { Asked B.view B.serves B.says B.forward B.moves N.after board.old self.old.number (SlotTake (slots.Cell 0)) }
        requires some { NeverEmpty (λ a. B.says board.old self.old.number (SlotTake (slots.Cell 0)) a) }
        ensures made { (cargo : Cargo) × (chain : Chain) × StepMade B.view B.serves B.says B.did N.after board.old self.old.number (SlotTake (slots.Cell 0)) (Took (Some chain) cargo) board.new × (self.new ≡ with_phase (phases.Coming chain) self.old) }
        ensures turn { result ≡ Ran points.Step }
    {
        self.fetch::<B, N>(0, board);
        RAN
    }

    /// The own request word is read, which tells whether a worker asks.
    pub(crate) fn read_request<B: Board, N: NamesView>(&mut self, board: &mut B) -> Turn
        requires may { Asked B.view B.serves B.says B.forward B.moves N.after board.old self.old.number (RequestLoad self.old.number) }
        ensures made { (found : ℕ) × (asker : Option ℕ) × StepMade B.view B.serves B.says B.did N.after board.old self.old.number (RequestLoad self.old.number) (Number found) board.new × IsAsker found asker × (self.new ≡ request_read asker self.old) × (result ≡ request_turn asker) }
    {
        match requests::asked::<B, N>(board, self.number) {
            Some(asker) => {
                self.phase = Phase::Answering { asker };
                Turn::Ran(Point::Polled)
            }
            None => {
                self.phase = Phase::Mail;
                Turn::Idle { word: 0 }
            }
        }
    }

    /// The own mail word is read, which tells whether the own request is answered.
    pub(crate) fn read_mail<B: Board, N: NamesView>(&mut self, board: &mut B) -> Turn
        requires may { Asked B.view B.serves B.says B.forward B.moves N.after board.old self.old.number MailLoad }
        ensures made { (found : ℕ) × StepMade B.view B.serves B.says B.did N.after board.old self.old.number MailLoad (Number found) board.new × (self.new ≡ mail_read found self.old) × (result ≡ mail_turn found self.old) }
    {
        let word = board.mail_load::<N>(self.number);
        if self.asked.is_some() && word == GIVEN {
            self.asked = None;
            self.begun = false;
            self.phase = Phase::Opening;
            return RAN;
        }
        if self.asked.is_some() && word == REFUSED {
            self.asked = None;
            self.begun = false;
            self.phase = Phase::Emptying {
                behind: Behind::Seventh,
            };
            return Turn::Idle { word };
        }
        self.phase = if self.workers == 1 || self.begun {
            Phase::Settled
        } else {
            Phase::Seventh
        };
        Turn::Idle { word }
    }

    /// The chain that was given is taken out of the mail.
    pub(crate) fn open_mail<B: Board, N: NamesView>(&mut self, board: &mut B) -> Turn
        requires may { Asked B.view B.serves B.says B.forward B.moves N.after board.old self.old.number (SlotTake (slots.Mail self.old.number)) }
        requires some { NeverEmpty (λ a. B.says board.old self.old.number (SlotTake (slots.Mail self.old.number)) a) }
        ensures made { (cargo : Cargo) × (chain : Chain) × StepMade B.view B.serves B.says B.did N.after board.old self.old.number (SlotTake (slots.Mail self.old.number)) (Took (Some chain) cargo) board.new × (self.new ≡ with_phase (phases.Emptying (behinds.Chain chain)) self.old) }
        ensures turn { result ≡ Ran points.Step }
    {
        let Some(chain) = board.slot_take::<N>(self.number, Slot::Mail(self.number)) else {
            unreachable!()
        };
        self.phase = Phase::Emptying {
            behind: Behind::Chain(chain),
        };
        RAN
    }

    /// The own mail word becomes nothing, and what is behind that begins.
    pub(crate) fn empty_mail<B: Board, N: NamesView>(
        &mut self,
        behind: Behind,
        main_at: u32,
        board: &mut B,
    ) -> Turn
        requires none { self.old.threads.notes ≡ [] }
        requires may { Asked B.view B.serves B.says B.forward B.moves N.after board.old self.old.number (MailStore self.old.number nothing) }
        ensures made { StepMade B.view B.serves B.says B.did N.after board.old self.old.number (MailStore self.old.number nothing) (Done) board.new }
        ensures goes { TakesBehind behind main_at self.old result self.new }
    {
        requests::set_mail::<B, N>(board, self.number, false);
        match behind {
            Behind::Chain(chain) => self.take_on(chain, main_at),
            Behind::Seventh => {
                self.phase = Phase::Seventh;
                RAN
            }
            Behind::Round => {
                self.phase = Phase::Settled;
                RAN
            }
        }
    }

    /// The request that stands at a worker is withdrawn, if its answer hasn't begun.
    fn withdraw<B: Board, N: NamesView>(&mut self, v: u32, board: &mut B) -> Turn
        requires may { Asked B.view B.serves B.says B.forward B.moves N.after board.old self.old.number (RequestChange v (asking self.old.number) 0) }
        ensures made { (found : ℕ) × StepMade B.view B.serves B.says B.did N.after board.old self.old.number (RequestChange v (asking self.old.number) 0) (Number found) board.new × (self.new ≡ withdrawn found self.old) × (result ≡ withdraw_turn found self.old) }
    {
        match requests::withdraw::<B, N>(board, self.number, v) {
            Ok(()) => {
                self.asked = None;
                self.phase = Phase::Emptying {
                    behind: Behind::Round,
                };
                RAN
            }
            Err(again) => {
                self.begun = true;
                self.phase = Phase::Settled;
                Turn::Idle { word: again.now }
            }
        }
    }

    /// A request that stands is withdrawn. Where none stands, the own mail word becomes waiting, so that another worker may be asked.
    pub(crate) fn seventh<B: Board, N: NamesView>(&mut self, board: &mut B) -> Turn
        requires { MaySeventh (λ s. Asked B.view B.serves B.says B.forward B.moves N.after board.old self.old.number s) self.old self.old.asked }
        ensures { Sevenths (λ s a b. StepMade B.view B.serves B.says B.did N.after board.old self.old.number s a b) self.old self.old.asked result self.new board.new }
    {
        match self.asked {
            Some(v) => self.withdraw::<B, N>(v, board),
            None => self.wait_for_mail::<B, N>(board),
        }
    }

    /// A round begins: a frame is taken back. Where none is exported, the stop word is read in this turn.
    pub(crate) fn begin_round<B: Board, N: NamesView>(&mut self, board: &mut B) -> Turn
        requires stack { IsStackOf self.old.number self.old.stack.lo self.old.stack.hi }
        requires looks { (f : Frame) → IsLowest self.old.stack.exported f → IsFrameOn self.old.stack.lo self.old.stack.hi f → Asked B.view B.serves B.says B.forward B.moves N.after board.old self.old.number (Look (return_place f)) }
        requires stop { Asked B.view B.serves B.says B.forward B.moves N.after board.old self.old.number StopLoad }
        ensures { (limit : ℕ) × IsLimit self.old.stack.hi self.old.stack.exported limit × RoundBegins (λ before after top shrunk new. Shrinks B.view B.serves B.says B.did N.after board.old self.old.number self.old.stack.hi before after top shrunk new) (λ s a b. StepMade B.view B.serves B.says B.did N.after board.old self.old.number s a b) (limit == self.old.machine.hi) self.old result self.new board.new }
    {
        let high = self.machine.high_end();
        if self.stack.limit() == high {
            self.machine.set_reg(Reg::Sp, high);
            return self.read_stop::<B, N>(board);
        }
        self.shrink_idle::<B, N>(board)
    }

    /// The own mail word becomes waiting.
    fn wait_for_mail<B: Board, N: NamesView>(&mut self, board: &mut B) -> Turn
        requires may { Asked B.view B.serves B.says B.forward B.moves N.after board.old self.old.number (MailStore self.old.number waiting) }
        ensures made { StepMade B.view B.serves B.says B.did N.after board.old self.old.number (MailStore self.old.number waiting) (Done) board.new }
        ensures goes { self.new ≡ with_phase phases.Placing self.old }
        ensures turn { result ≡ Ran points.Step }
    {
        requests::set_mail::<B, N>(board, self.number, true);
        self.phase = Phase::Placing;
        RAN
    }

    /// The worker that is asked next: the others are asked in turn.
    fn next_other(&self) -> u32
        requires last { self.now.last < self.now.workers }
        requires few { self.now.workers ≤ 16 }
        ensures { result ≡ next_other self.now }
    {
        let v = (self.last + 1) % self.workers;
        if v == self.number {
            (v + 1) % self.workers
        } else {
            v
        }
    }

    /// Another worker is asked, if no request stands there.
    pub(crate) fn place<B: Board, N: NamesView>(&mut self, board: &mut B) -> Turn
        requires last { self.old.last < self.old.workers }
        requires few { self.old.workers ≤ 16 }
        requires may { Asked B.view B.serves B.says B.forward B.moves N.after board.old self.old.number (RequestChange (next_other self.old) 0 (asking self.old.number)) }
        ensures made { (found : ℕ) × StepMade B.view B.serves B.says B.did N.after board.old self.old.number (RequestChange (next_other self.old) 0 (asking self.old.number)) (Number found) board.new × (self.new ≡ asked_at found self.old) × (result ≡ ask_turn found) }
    {
        let v = self.next_other();
        self.last = v;
        self.phase = Phase::Settled;
        match requests::ask::<B, N>(board, self.number, v) {
            Ok(()) => {
                self.asked = Some(v);
                Turn::Ran(Point::Asked)
            }
            Err(again) => Turn::Idle { word: again.now },
        }
    }
}

//! A turn: one phase.
ghost use Rattle.std.specs.Prelude.{◌≡◌, ℕ};
ghost use Rattle.st_words.specs.Made.{Asked, StepMade};
ghost use Rattle.st_words.specs.Steps.{StopLoad, Number};
ghost use Rattle.st_stack.specs.Shrinking.{Shrinks};
ghost use Rattle.st_phases.specs.Polling.{heeded, over_or_step};
ghost use Rattle.st_phases.specs.Turning.{MayPhase, PhaseDoes, MayTurn, Turned};

use crate::automaton::Automaton;
use crate::phase::Phase;
use crate::turn::{RAN, Turn};
use st_base::image::Image;
use st_words::board::{Board, NamesView};

/// So many turns after it has read the stop word a worker reads it before all else.
const LATE: u32 = 4095;

impl Automaton {
    /// What a turn in this phase does.
    fn go_through<B: Board, N: NamesView>(
        &mut self,
        phase: Phase,
        image: &Image,
        input: &[u8],
        board: &mut B,
    ) -> Turn
        requires { MayPhase (λ s. Asked B.view B.serves B.says B.forward B.moves N.after board.old self.old.number s) (λ s a. B.says board.old self.old.number s a) (λ slot chain. N.cargo (B.view board.old self.old.number) slot chain) image.now input.now self.old phase }
        ensures { PhaseDoes (λ s a b. StepMade B.view B.serves B.says B.did N.after board.old self.old.number s a b) (λ before after top shrunk new. Shrinks B.view B.serves B.says B.did N.after board.old self.old.number self.old.stack.hi before after top shrunk new) board.old (λ slot chain. N.cargo (B.view board.old self.old.number) slot chain) image.now input.now self.old result self.new board.new phase }
    {
        match phase {
            Phase::Running => self.run::<B, N>(image, input, board),
            Phase::Stopping(kind) => self.stop::<B, N>(kind, board),
            Phase::Naming { cell } => self.name::<B, N>(cell, board),
            Phase::Beginning { cell } => self.begin::<B, N>(cell, board),
            Phase::Looking { cell } => self.look::<B, N>(cell, board),
            Phase::Valuing { cell } => self.get_value::<B, N>(cell, board),
            Phase::Adding { cell, seen } => self.add::<B, N>(cell, seen, board),
            Phase::Finding => self.find::<B, N>(board),
            Phase::Filling { seen } => self.fill::<B, N>(seen, image, board),
            Phase::Ending { cell, head } => self.end::<B, N>(cell, head, board),
            Phase::Following { rest } => self.follow::<B, N>(rest, board),
            Phase::Raising { waiter, rest } => self.raise::<B, N>(waiter, rest, board),
            Phase::Peeking { waiter, rest } => self.peek::<B, N>(waiter, rest, board),
            Phase::Returning { chain, rest } => self.put_back::<B, N>(chain, rest, board),
            Phase::Owning(settling) => self.see_owner::<B, N>(settling, board),
            Phase::Weighing(settling) => self.weigh::<B, N>(settling, board),
            Phase::Readying(settling) => self.make_ready::<B, N>(settling, board),
            Phase::Linking(settling) => self.link::<B, N>(settling, board),
            Phase::Parking(settling) => self.park::<B, N>(settling, board),
            Phase::Lowering { rest } => self.lower::<B, N>(rest, board),
            Phase::Parting(leaving) => self.part::<B, N>(leaving, board),
            Phase::Suspending(leaving) => self.suspend::<B, N>(leaving, image, board),
            Phase::Marking { chain, leaving } => self.mark::<B, N>(chain, leaving, board),
            Phase::Standing { chain, leaving } => self.stand::<B, N>(chain, leaving, board),
            Phase::Slotting { chain, leaving } => self.slot::<B, N>(chain, leaving, board),
            Phase::Polling => self.poll::<B, N>(board),
            Phase::Heeding { asker } => self.heed::<B, N>(asker, board),
            Phase::Shrinking { asker } => {
                self.shrink::<B, N>(asker, image.rows.as_slice(), board)
            }
            Phase::Answering { asker } => {
                self.answer::<B, N>(asker, image.forks.as_slice(), board)
            }
            Phase::Picking { asker, cell } => self.pick::<B, N>(asker, cell, board),
            Phase::Waving { asker, chain } => self.wave::<B, N>(asker, chain, board),
            Phase::Sharing { asker } => self.share::<B, N>(asker, board),
            Phase::Giving { asker } => self.give::<B, N>(asker, image, board),
            Phase::Mailing { asker, chain } => self.put_mail::<B, N>(asker, chain, board),
            Phase::Telling { asker, given } => self.tell::<B, N>(asker, given, board),
            Phase::Clearing => self.clear::<B, N>(board),
            Phase::Coming { chain } => self.come::<B, N>(chain, image.main_at, board),
            Phase::Seeing { chain } => self.see_state::<B, N>(chain, image.main_at, board),
            Phase::Getting { chain } => self.see_value::<B, N>(chain, image.main_at, board),
            Phase::Settled => self.begin_round::<B, N>(board),
            Phase::Stop => self.read_stop::<B, N>(board),
            Phase::Active => self.read_active::<B, N>(board),
            Phase::Own => self.take_own::<B, N>(board),
            Phase::First => self.take_first::<B, N>(board),
            Phase::Request => self.read_request::<B, N>(board),
            Phase::Mail => self.read_mail::<B, N>(board),
            Phase::Opening => self.open_mail::<B, N>(board),
            Phase::Seventh => self.seventh::<B, N>(board),
            Phase::Placing => self.place::<B, N>(board),
            Phase::Emptying { behind } => self.empty_mail::<B, N>(behind, image.main_at, board),
        }
    }

    /// The stop word is read before all else.
    fn read_stop_first<B: Board, N: NamesView>(&mut self, board: &mut B) -> Turn
        requires may { Asked B.view B.serves B.says B.forward B.moves N.after board.old self.old.number StopLoad }
        ensures made { (found : ℕ) × StepMade B.view B.serves B.says B.did N.after board.old self.old.number StopLoad (Number found) board.new × (self.new ≡ heeded self.old.phase found self.old) × (result ≡ over_or_step found) }
    {
        let word = board.stop_load::<N>(self.number);
        self.since = 0;
        if word != 0 {
            return Turn::Over { word };
        }
        RAN
    }

    /// One turn of the worker: at most one step of the board, by its phase, and no memory. See `Turned` in `specs/Turning`.
    ///
    /// It asks that each step of the board which its phase may need may be asked (`MayTurn`). `Over` comes exactly where it has found the stop word
    /// not 0, or the active count 0, and carries the word; `Limit` exactly where it has written the code of a limit that the worker met;
    /// `Idle` only to a worker without a thread, with the word that held no work for it.
    pub fn turn<B: Board, N: NamesView>(
        &mut self,
        image: &Image,
        input: &[u8],
        board: &mut B,
    ) -> Turn
        requires may { MayTurn (λ s. Asked B.view B.serves B.says B.forward B.moves N.after board.old self.old.number s) (λ s a. B.says board.old self.old.number s a) (λ slot chain. N.cargo (B.view board.old self.old.number) slot chain) image.now input.now self.old }
        ensures turned { Turned (λ s a b. StepMade B.view B.serves B.says B.did N.after board.old self.old.number s a b) (λ before after top shrunk new. Shrinks B.view B.serves B.says B.did N.after board.old self.old.number self.old.stack.hi before after top shrunk new) board.old (λ slot chain. N.cargo (B.view board.old self.old.number) slot chain) image.now input.now self.old result self.new board.new }
    {
        if LATE <= self.since {
            return self.read_stop_first::<B, N>(board);
        }
        self.since += 1;
        self.go_through::<B, N>(self.phase, image, input, board)
    }
}

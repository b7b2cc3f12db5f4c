//! Carries out what an instruction does, on the machine in place and on the board.
ghost use Rattle.std.specs.Prelude.{◌≡◌, ◌≢◌, ◌+◌, ◌<◌, ℕ};
ghost use Rattle.st_rv.specs.Results.{access_size, extended};
ghost use Rattle.st_step.specs.Moves.{written, at_place, bytes_of, goes_on, results, MayMove, Moves, Reads, Writes};
ghost use Rattle.st_step.specs.Roles.{word_at};
ghost use Rattle.st_step.specs.declared.machine.StepEnd.TheVariants.{Ran};
ghost use Rattle.st_step.specs.Acts.{move_by};
ghost use Rattle.st_words.specs.Made.{Asked, StepMade};

use crate::access::word_place;
use crate::act::Act;
use crate::bytes::bytes_of;
use crate::machine::StepEnd;
use crate::state::State;
use st_base::reg::Reg;
use st_rv::ins::Op;
use st_rv::results::{access_size, extended};
use st_words::board::{Board, NamesView};

/// All bytes of a word.
fn whole(word: u64) -> u64
    ensures { result ≡ bytes_of word 0 8 }
{
    word
}

/// What a load gives of a word, from its byte `at` on.
fn loaded(op: Op, word: u64, at: u64) -> u64
    requires { at < 8 }
    ensures { result ≡ extended op (bytes_of word at (access_size op)) }
{
    extended(op, bytes_of(word, at, access_size(op)))
}

impl State {
    /// Writes a register; a write to `zero` changes nothing.
    pub(crate) fn write(&mut self, r: Reg, v: u64)
        ensures { self.new ≡ written self.old r v }
    {
        let at = r.number();
        if at != 0 {
            self.registers[at] = v;
        }
    }

    /// Goes on at another address. A store that is half done is forgotten.
    pub(crate) fn go(&mut self, pc: u32)
        ensures { self.new ≡ at_place pc self.old }
    {
        self.pc = pc;
        if self.half.is_some() {
            self.half = None;
        }
    }

    /// Goes on at the next instruction.
    fn go_on(&mut self)
        ensures { self.new ≡ goes_on self.old }
    {
        self.go(self.pc.wrapping_add(4));
    }

    /// Goes on with a result in a register.
    #[tactic(auto, using(crate::proofs::Order::written_going))]
    pub(crate) fn put(&mut self, r: Reg, v: u64)
        ensures { self.new ≡ results self.old r v }
    {
        self.go_on();
        self.write(r, v);
    }

    /// Goes on at another address, with the address behind the jump in a register.
    #[tactic(auto, using(crate::proofs::Order::written_placed))]
    pub(crate) fn link(&mut self, r: Reg, pc: u32)
        ensures { self.new ≡ at_place pc (written self.old r (self.old.pc + 4)) }
    {
        let back = u64::from(self.pc) + 4;
        self.go(pc);
        self.write(r, back);
    }

    /// Loads the stack word at an address into a register, and goes on.
    fn load_word<B: Board, N: NamesView>(&mut self, rd: Reg, address: u64, board: &mut B, w: u32)
        requires may { MayMove (λ s. Asked B.view B.serves B.says B.forward B.moves N.after board.old w s) (word_at address (λ place. Reads place (λ n. results self.old rd (bytes_of n 0 8)))) }
        ensures moved { Moves (λ s a b. StepMade B.view B.serves B.says B.did N.after board.old w s a b) board.old self.old (word_at address (λ place. Reads place (λ n. results self.old rd (bytes_of n 0 8)))) Ran self.new board.new }
    {
        let word = board.stack_load::<N>(w, word_place(address));
        self.put(rd, whole(word));
    }

    /// Stores the stack word at an address, and goes on.
    fn store_word<B: Board, N: NamesView>(
        &mut self,
        address: u64,
        value: u64,
        board: &mut B,
        w: u32,
    )
        requires may { MayMove (λ s. Asked B.view B.serves B.says B.forward B.moves N.after board.old w s) (word_at address (λ place. Writes place value (goes_on self.old))) }
        ensures moved { Moves (λ s a b. StepMade B.view B.serves B.says B.did N.after board.old w s a b) board.old self.old (word_at address (λ place. Writes place value (goes_on self.old))) Ran self.new board.new }
    {
        let next = self.pc.wrapping_add(4);
        board.stack_store::<N>(w, word_place(address), value);
        self.go(next);
    }

    /// Carries out an act, with at most one step of the board.
    pub(crate) fn carry_out<B: Board, N: NamesView>(
        &mut self,
        act: Act,
        board: &mut B,
        w: u32,
    ) -> StepEnd
        requires may { MayMove (λ s. Asked B.view B.serves B.says B.forward B.moves N.after board.old w s) (move_by self.old act) }
        ensures moved { Moves (λ s a b. StepMade B.view B.serves B.says B.did N.after board.old w s a b) board.old self.old (move_by self.old act) result self.new board.new }
    {
        match act {
            Act::Result { rd, value } => self.put(rd, value),
            Act::Go { pc } => self.go(pc),
            Act::Link { rd, pc } => self.link(rd, pc),
            Act::LoadWord { rd, address } => self.load_word::<B, N>(rd, address, board, w),
            Act::StoreWord { address, value } => self.store_word::<B, N>(address, value, board, w),
            Act::Load {
                op,
                rd,
                place,
                address,
            } => {
                let word = board.stack_load::<N>(w, place);
                self.put(rd, loaded(op, word, address % 8));
            }
            Act::Fetch { place } => {
                let word = board.stack_load::<N>(w, place);
                self.half = Some(word);
            }
            Act::Store { place, value } => {
                board.stack_store::<N>(w, place, value);
                self.go_on();
            }
            Act::Mark { place } => {
                board.mark::<N>(w, place);
                self.go_on();
            }
            Act::Trap(kind) => return StepEnd::Trap(kind),
            Act::StackFull { frame } => return StepEnd::StackFull { frame },
            Act::Outside => unreachable!(),
        }
        StepEnd::Ran
    }
}

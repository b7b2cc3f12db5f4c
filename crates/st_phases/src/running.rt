//! The running thread at an instruction, what it prints, and limits that it meets.
ghost use Rattle.std.specs.Prelude.{◌≡◌, ◌≢◌, ◌≤◌, ◌<◌, ◌^◌, ◌+◌, ℕ, [], length, Some, slice_get};
ghost use Rattle.st_model.specs.Memory.{data_of};
ghost use Rattle.st_words.specs.Made.{Asked, StepMade};
ghost use Rattle.st_words.specs.Steps.{StopSet, Number};
ghost use Rattle.st_base.specs.declared.reg.Reg.TheVariants as registers;
ghost use Rattle.st_step.specs.Acts.{IsBounded};
ghost use Rattle.st_step.specs.Moves.{register, move_of, MayMove};
ghost use Rattle.st_step.specs.declared.decoded.Decoded.{Decoded};
ghost use Rattle.st_items.specs.Code.{word_index};
ghost use Rattle.st_phases.specs.Automaton.{top};
ghost use Rattle.st_phases.specs.Running.{MayRun, Runs, Carries, begins_with, counted, went, MayPrint, Prints, stop_code, stop_turn};
ghost use Rattle.st_phases.specs.declared.turn.Point.TheVariants as points;
ghost use Rattle.st_phases.specs.declared.turn.Turn.TheVariants.{Ran};

use crate::automaton::Automaton;
use crate::entries::trap_number;
use crate::phase::{Leaving, Phase};
use crate::turn::{RAN, Turn};
use st_base::chain::{Note, Waiting};
use st_base::image::Image;
use st_base::limits::LimitKind;
use st_base::reg::Reg;
use st_base::thread::TrapKind;
use st_items::code::word_index;
use st_step::{Decoded, StepEnd};
use st_words::board::{Board, NamesView};

/// How many bytes may be printed.
const MOST_PRINTED: u32 = 1_048_576;

/// The low four bits of the Trap word of a root that has printed as many.
const FULL_OUTPUT: u64 = 15;

impl Automaton {
    /// What comes after an instruction: `before` is what sp was before it.
    fn go(&mut self, begins: bool, before: u64, end: StepEnd)
        requires { self.old.frame_bytes + before < 2 ^ 64 }
        ensures { self.new ≡ went begins before end self.old }
    {
        match end {
            StepEnd::Trap(kind) => self.leave(Leaving {
                wait: Waiting::Trapped,
                kind: trap_number(kind),
                seen: 0,
                at_call: false,
            }),
            StepEnd::StackFull { frame } => {
                self.phase = Phase::Stopping(LimitKind::Stack {
                    worker: self.number,
                    frame,
                });
            }
            StepEnd::Ran | StepEnd::Entry(_) => {
                if begins {
                    self.frame_bytes += before.saturating_sub(self.machine.reg(Reg::Sp));
                }
            }
        }
    }

    /// The row of the instruction at the pc.
    fn row(&self) -> Decoded
        requires code { 0x10000 ≤ self.now.machine.pc }
        requires inside { word_index self.now.machine.pc < length self.now.code.instructions.items }
        ensures { slice_get self.now.code.instructions.items (word_index self.now.machine.pc) ≡ Some result }
    {
        self.code.instructions[word_index(self.machine.pc())]
    }

    /// Whether an item begins with an instruction; not in the middle of a short store.
    fn begins_with(&self, row: &Decoded) -> bool
        ensures { result ≡ begins_with row.now self.now }
    {
        if self.machine.is_half_done() {
            return false;
        }
        row.begins
    }

    /// An item that begins is counted.
    fn count(&mut self, begins: bool)
        requires { self.old.items + 1 < 2 ^ 64 }
        ensures { self.new ≡ counted begins self.old }
    {
        if begins {
            self.items += 1;
        }
    }

    /// An instruction of this row is carried out.
    fn carry<B: Board, N: NamesView>(
        &mut self,
        row: &Decoded,
        begins: bool,
        rodata: &[u8],
        input: &[u8],
        board: &mut B,
    )
        requires bounded { IsBounded row.now.ins }
        requires may { MayMove (λ s. Asked B.view B.serves B.says B.forward B.moves N.after board.old self.old.number s) (move_of (data_of rodata.now input.now) self.old.machine row.now.ins) }
        requires few { self.old.frame_bytes + register self.old.machine registers.Sp < 2 ^ 64 }
        ensures { Carries (λ s a b. StepMade B.view B.serves B.says B.did N.after board.old self.old.number s a b) board.old (data_of rodata.now input.now) self.old row.now begins self.new board.new }
    {
        let before = self.machine.reg(Reg::Sp);
        let end = self
            .machine
            .execute::<B, N>(row, rodata, input, board, self.number);
        self.go(begins, before, end);
    }

    /// One instruction, or half of a store of less than eight bytes. An item that begins is counted first.
    pub(crate) fn instruction<B: Board, N: NamesView>(
        &mut self,
        image: &Image,
        input: &[u8],
        board: &mut B,
    ) -> Turn
        requires { MayRun (λ s. Asked B.view B.serves B.says B.forward B.moves N.after board.old self.old.number s) (data_of image.now.rodata input.now) self.old }
        ensures runs { (row : Decoded) → slice_get self.old.code.instructions.items (word_index self.old.machine.pc) ≡ Some row → Runs (λ s a b. StepMade B.view B.serves B.says B.did N.after board.old self.old.number s a b) board.old (data_of image.now.rodata input.now) self.old row self.new board.new }
        ensures turn { result ≡ Ran points.Step }
    {
        let row = self.row();
        let begins = self.begins_with(&row);
        self.count(begins);
        if begins && self.steps < self.items {
            self.phase = Phase::Stopping(LimitKind::Step {
                worker: self.number,
            });
            return RAN;
        }
        self.carry::<B, N>(&row, begins, image.rodata.as_slice(), input, board);
        RAN
    }

    /// The root prints the low byte of a0. A child stops here, and so does the root where as many bytes are printed as may be.
    pub(crate) fn print<B: Board, N: NamesView>(&mut self, board: &mut B) -> Turn
        requires some { self.old.threads.notes ≢ [] }
        requires room { length self.old.threads.notes ≤ self.old.threads.room }
        requires few { (top self.old.threads.notes).bytes ≤ 1048576 }
        requires may { MayPrint (λ s. Asked B.view B.serves B.says B.forward B.moves N.after board.old self.old.number s) self.old }
        ensures goes { Prints (λ s a b. StepMade B.view B.serves B.says B.did N.after board.old self.old.number s a b) board.old self.old self.new board.new }
        ensures turn { result ≡ Ran points.Step }
    {
        let note = self.top();
        if note.cell != 0 {
            self.stop_at_call(trap_number(TrapKind::PutInChild));
            return RAN;
        }
        if note.bytes == MOST_PRINTED {
            self.stop_at_call(FULL_OUTPUT);
            return RAN;
        }
        let byte = self.machine.reg(Reg::A0) % 256;
        let word = u64::from(note.forks) * (1 << 9) + 256 + byte;
        board.out_store::<N>(self.number, note.bytes, word);
        self.set_top(Note {
            bytes: note.bytes + 1,
            ..note
        });
        self.go_back();
        RAN
    }

    /// The code of a limit is written, if none has been.
    pub(crate) fn stop<B: Board, N: NamesView>(&mut self, kind: LimitKind, board: &mut B) -> Turn
        requires may { Asked B.view B.serves B.says B.forward B.moves N.after board.old self.old.number (StopSet (stop_code self.old.number kind)) }
        ensures made { (found : ℕ) × StepMade B.view B.serves B.says B.did N.after board.old self.old.number (StopSet (stop_code self.old.number kind)) (Number found) board.new × (result ≡ stop_turn kind found) }
        ensures same { self.new ≡ self.old }
    {
        match board.stop_set::<N>(self.number, stop_code(self.number, kind)) {
            Ok(()) => Turn::Limit(kind),
            Err(word) => Turn::Over { word },
        }
    }
}

/// The stop code of a limit that a worker has met.
fn stop_code(worker: u32, kind: LimitKind) -> u64
    ensures { result ≡ stop_code worker kind }
{
    match kind {
        LimitKind::Stack { worker, frame } => {
            1 + 256 * u64::from(worker) + (1 << 16) * u64::from(frame)
        }
        LimitKind::Step { worker } => 3 + 256 * u64::from(worker),
        _ => 2 + 256 * u64::from(worker),
    }
}

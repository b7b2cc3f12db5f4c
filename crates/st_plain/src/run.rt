//! A run of unchanged code, item by item.
ghost use Rattle.std.specs.Prelude.{◌≡◌, ◌<◌, ◌≤◌, ℕ, false, length, nat_lt, true, IfOk, IfSome, None, Some, reverse};
ghost use Rattle.st_base.specs.declared.limits.LimitKind.{LimitKind};
ghost use Rattle.st_base.specs.declared.limits.Limits.{Limits};
ghost use Rattle.st_model.specs.declared.ordinary.OrdEnd.{OrdEnd};
ghost use Rattle.st_model.specs.declared.program.Program.{Program};
ghost use Rattle.st_model.specs.declared.ordinary.State.{State};
ghost use Rattle.st_model.specs.Memory.{Data, data_of};
ghost use Rattle.st_model.specs.Ordinary.{start};
ghost use Rattle.st_words.specs.Laws.{named, progress_of};
ghost use Rattle.st_words.specs.Views.{no_cargo};
ghost use Rattle.st_plain.specs.Answer.{HasProgram, IsPlainImage};
ghost use Rattle.st_plain.specs.Endings.{end_by};
ghost use Rattle.st_plain.specs.Running.{EndsBy, HasBoard, IsDefinedFrom, IsReady, IsUnderWay, TurnLeads};
ghost use Rattle.st_items.specs.Code.{word_index};

use crate::stop::Ending;
use crate::threads::Threads;
use crate::whole::PlainEnd;
use st_base::entry::Entry;
use st_base::image::Image;
use st_base::limits::{LimitKind, Limits};
use st_base::map::{CODE_START, STACKS_START};
use st_base::reg::Reg;
use st_items::code::{Code, word_index};
use st_step::{Machine, StepEnd};
use st_words::board::NamesView;
use st_words::plain::PlainBoard;
use std::alloc::{AllocError, Global};
use std::marker::Brand;

/// The fewest cells that a board may have.
const LEAST_CELLS: u32 = 16;

/// The view after a step, where the worker's threads do nothing by it.
struct Plainly;

impl NamesView for Plainly {
    ghost after = { λ v s a. named (progress_of v) v s a };

    ghost cargo = { λ _ _ _. no_cargo };
}

/// The limits of a board of which the words of the stack alone are used: it has as few cells as a board may have.
fn stack_alone(limits: &Limits) -> Limits
    ensures { result.stack ≡ limits.now.stack }
{
    Limits {
        stack: limits.stack,
        cells: LEAST_CELLS,
        steps: limits.steps,
    }
}

/// A run of unchanged code: the machine, the words of its stack, the image's tables and the threads.
#[derive(Drop)]
pub struct PlainRun {
    pub(crate) machine: Machine,
    pub(crate) board: PlainBoard,
    pub(crate) code: Code,
    pub(crate) threads: Threads,
}

impl PlainRun {
    /// A run at the first instruction of `main`, whose input has so many bytes. All memory of the run is taken here.
    pub fn open(
        alloc: Global,
        image: &Image,
        input: &[u8],
        limits: &Limits,
    ) -> Result<PlainRun, AllocError>
        requires image { ∥ HasProgram image.now ∥₁ }
        requires input { length input.now ≤ 16777216 }
        ensures ready { IfOk result (λ run. (p : Program) → (s : State) → IsPlainImage p image.now → start p (data_of image.now.rodata input.now) ≡ Some s → IsDefinedFrom p (data_of image.now.rodata input.now) s → IsReady p image.now (data_of image.now.rodata input.now) limits.now run s) }
        ensures board { IfOk result (λ run. HasBoard run.board) }
        ensures cells { IfOk result (λ run. length run.threads.cells.items.items ≡ 1) }
    {
        let code = Code::of(alloc, image)?;
        let threads = Threads::open(alloc, limits.cells)?;
        let sizes = stack_alone(limits);
        let board = PlainBoard::open::<Brand>(alloc, &sizes, 1)?;
        let high = STACKS_START + u64::from(limits.stack);
        let mut machine = Machine::new(STACKS_START, high);
        machine.set_reg(Reg::Sp, high);
        machine.set_reg(Reg::Ra, u64::from(Entry::End.address()));
        machine.set_reg(Reg::A0, input.len() as u64);
        machine.set_pc(image.main_at);
        Ok(PlainRun {
            machine,
            board,
            code,
            threads,
        })
    }

    /// Whether the run is at an entry of the runtime.
    pub fn is_at_entry(&self) -> bool
        ensures { result ≡ nat_lt self.now.machine.pc 0x10000 }
    {
        self.machine.pc() < CODE_START
    }

    /// Whether an item begins with the next instruction.
    pub fn begins_item(&self) -> bool
        requires code { 0x10000 ≤ self.now.machine.pc }
        requires inside { word_index self.now.machine.pc < length self.now.code.instructions.items }
        ensures ready { (p : Program) → (image : Image) → (d : Data) → (limits : Limits) → (s : State) → IsReady p image d limits self.now s → result ≡ true }
        ensures amid { (p : Program) → (image : Image) → (d : Data) → (limits : Limits) → (drawn : ℕ) → (s : State) → (left : ℕ) → IsUnderWay p image d limits drawn self.now s left → left < 42 → result ≡ false }
    {
        let begins = self.code.instructions[word_index(self.machine.pc())].begins;
        if self.machine.is_half_done() {
            return false;
        }
        begins
    }

    /// Does what the runtime does at the entry at which the run is.
    ///
    /// Amid an item the run is amid it still, with fewer turns left, or it stands for the next state of the ordinary-call run; it says why
    /// the run ends where the item ends it or meets a limit.
    pub fn serve(&mut self, image: &Image) -> Option<Ending>
        requires entry { self.old.machine.pc < 0x10000 }
        requires board { HasBoard self.old.board }
        requires amid { ∥ ((p : Program) × (d : Data) × (limits : Limits) × (drawn : ℕ) × (s : State) × (left : ℕ) × IsUnderWay p image.now d limits drawn self.old s left) ∥₁ }
        ensures board { HasBoard self.new.board }
        ensures going { result ≡ None → (p : Program) → (d : Data) → (limits : Limits) → (drawn : ℕ) → (s : State) → (left : ℕ) → IsUnderWay p image.now d limits drawn self.old s left → TurnLeads p image.now d limits drawn self.new s left }
        ensures over { IfSome result (λ ending. (p : Program) → (d : Data) → (limits : Limits) → (drawn : ℕ) → (s : State) → (left : ℕ) → IsUnderWay p image.now d limits drawn self.old s left → EndsBy p d limits drawn self.new.threads.notes.items.items self.new.threads.out.items.items s ending) }
    {
        self.enter(image)
    }

    /// Runs one instruction, or half of a store of less than eight bytes.
    ///
    /// Amid an item the run is amid it still, with fewer turns left, or it stands for the next state of the ordinary-call run; it says why
    /// the run ends where the item ends it or meets a limit.
    pub fn instruction(&mut self, image: &Image, input: &[u8]) -> Option<Ending>
        requires code { 0x10000 ≤ self.old.machine.pc }
        requires board { HasBoard self.old.board }
        requires amid { ∥ ((p : Program) × (limits : Limits) × (drawn : ℕ) × (s : State) × (left : ℕ) × IsUnderWay p image.now (data_of image.now.rodata input.now) limits drawn self.old s left) ∥₁ }
        ensures board { HasBoard self.new.board }
        ensures going { result ≡ None → (p : Program) → (limits : Limits) → (drawn : ℕ) → (s : State) → (left : ℕ) → IsUnderWay p image.now (data_of image.now.rodata input.now) limits drawn self.old s left → TurnLeads p image.now (data_of image.now.rodata input.now) limits drawn self.new s left }
        ensures over { IfSome result (λ ending. (p : Program) → (limits : Limits) → (drawn : ℕ) → (s : State) → (left : ℕ) → IsUnderWay p image.now (data_of image.now.rodata input.now) limits drawn self.old s left → EndsBy p (data_of image.now.rodata input.now) limits drawn self.new.threads.notes.items.items self.new.threads.out.items.items s ending) }
    {
        let at = word_index(self.machine.pc());
        let instruction = &self.code.instructions[at];
        let end = self.machine.execute::<PlainBoard, Plainly>(
            instruction,
            image.rodata.as_slice(),
            input,
            &mut self.board,
            0,
        );
        match end {
            StepEnd::Ran => None,
            StepEnd::Trap(kind) => Some(Ending::Trap {
                kind,
                line: image.lines.as_slice()[at],
            }),
            StepEnd::StackFull { frame } => {
                Some(Ending::Limit(LimitKind::Stack { worker: 0, frame }))
            }
            StepEnd::Entry(_) => unreachable!(),
        }
    }

    /// The end of the run, which the running thread ends so. Takes no memory.
    pub(crate) fn into_end(self, ending: Ending) -> PlainEnd
        ensures end { (e : OrdEnd) → end_by (reverse self.threads.notes.items.items) self.threads.out.items.items ending ≡ Some e → result ≡ PlainEnd.Ended e }
        ensures limit { (kind : LimitKind) → ending ≡ Ending.Limit kind → result ≡ PlainEnd.Limit kind }
    {
        self.threads.into_end(ending)
    }
}

//! A walk over the frames of threads by pure copies, from a newer frame to the older ones.
ghost use Rattle.std.specs.Prelude.{◌≡◌, ◌+◌, ◌<◌, ◌^◌, [], true, is_some, Some};
ghost use Rattle.st_base.specs.declared.reg.Reg.TheVariants.{S0};
ghost use Rattle.st_model.specs.Memory.{data_of};
ghost use Rattle.st_words.specs.Made.{Asked, StepMade};
ghost use Rattle.st_words.specs.Steps.{StackStore, Done};
ghost use Rattle.st_stack.specs.Exported.{IsFrameOn, MayExport};
ghost use Rattle.st_step.specs.Moves.{register, written, at_place};
ghost use Rattle.st_step.specs.Runs.{return_word};
ghost use Rattle.st_items.specs.Rows.{AreAscending, row_behind};
ghost use Rattle.st_chain.specs.Copying.{MayCopy, Copied};
ghost use Rattle.st_chain.specs.Forks.{AreRising};
ghost use Rattle.st_chain.specs.Places.{place_at, place_of, counted, begun, frame_of, Joins, chain_at, saved_in};

use crate::forks::handle_of;
use st_base::chain::{Chain, Frame, Note, Waiting};
use st_base::image::{ForkRow, FrameRow, Image};
use st_base::map::STACKS_START;
use st_base::reg::Reg;
use st_items::code::row_of;
use st_stack::stack::PhysStack;
use st_step::Machine;
use st_words::board::{Board, NamesView};

/// The entry of the runtime to which the oldest frame of a lone thread returns.
const END: u32 = 0x30;

/// Where a walk is.
#[derive(Clone, Copy)]
pub enum Stage {
    /// At a place of a thread, or at what lies below it.
    Frame,
    /// Amid a pure copy, of which so many instructions are left.
    Copy { left: u32 },
}

/// What a walk comes to next.
#[derive(Clone, Copy)]
pub enum Place {
    /// An instruction of a copy.
    Copy,
    /// A frame.
    Frame,
    /// The thread has no more frames, and this fork of the thread below made it.
    Fork { handle: Reg },
    /// The thread has no more frames, and nothing lies below it.
    End,
}

/// A walk over the frames of threads. Its machine runs the copies alone.
#[derive(Drop)]
pub struct Walk {
    pub machine: Machine,
    pub stage: Stage,
    /// The base of the frame that was read last.
    pub base: u64,
    /// The thread whose frames are read, by its place in the notes.
    pub thread: usize,
    /// The chain that is made, once the walk has come to its thread.
    pub chain: Option<Chain>,
}

/// One instruction of a pure copy, with at most one step of the board: a load of a stack word. Wherever the machine led by a copy over the
/// words that are held, it still does, if the load told the word that is held there.
pub fn copy_on<B: Board, N: NamesView>(m: &mut Machine, image: &Image, board: &mut B, w: u32)
    requires copying { MayCopy (λ s. Asked B.view B.serves B.says B.forward B.moves N.after board.old w s) image.now (data_of image.now.rodata []) m.old }
    ensures copied { Copied (λ s a b. StepMade B.view B.serves B.says B.did N.after board.old w s a b) board.old image.now (data_of image.now.rodata []) m.old m.new board.new }
{
    let _end = m.step::<B, N>(image, &[], board, w);
}

/// What a place is where no copy is run.
fn place_at(forks: &[ForkRow], pc: u32) -> Place
    requires { AreRising 0 forks.now }
    ensures { result ≡ place_at forks.now pc }
{
    if pc == END {
        return Place::End;
    }
    match handle_of(forks, pc) {
        Some(handle) => Place::Fork { handle },
        None => Place::Frame,
    }
}

/// The stage behind one more instruction of a copy.
fn counted(stage: Stage) -> Stage
    ensures { result ≡ counted stage }
{
    match stage {
        Stage::Copy { left } if left > 1 => Stage::Copy { left: left - 1 },
        _ => Stage::Frame,
    }
}

/// The row of the function whose code has an address.
fn row_at(image: &Image, pc: u32) -> FrameRow
    requires ascending { AreAscending 0 image.now.rows }
    requires found { is_some (row_behind image.now.rows pc) ≡ true }
    ensures { row_behind image.now.rows pc ≡ Some result }
{
    let Some(row) = row_of(image.rows.as_slice(), pc) else {
        unreachable!()
    };
    row
}

/// Exports a frame of a thread that is taken, if it lies on this stack.
fn join(is_taken: bool, s: &mut PhysStack, f: Frame)
    requires { is_taken ≡ true → IsFrameOn s.old.lo s.old.hi f → MayExport s.old.exported f }
    ensures { Joins is_taken s.old f s.new }
{
    if is_taken && s.is_on(f) {
        let _new = s.export(f);
    }
}

/// The registers of a machine that chains carry, s1 to s11.
fn saved_of(m: &Machine) -> [u64; 11]
    ensures { result ≡ saved_in m.now }
{
    [
        m.reg(Reg::S1),
        m.reg(Reg::S2),
        m.reg(Reg::S3),
        m.reg(Reg::S4),
        m.reg(Reg::S5),
        m.reg(Reg::S6),
        m.reg(Reg::S7),
        m.reg(Reg::S8),
        m.reg(Reg::S9),
        m.reg(Reg::S10),
        m.reg(Reg::S11),
    ]
}

/// The chain of a thread that goes on at a place, with the frame pointer and the registers of a machine.
pub fn chain_at(m: &Machine, pc: u32, note: Note, wait: Waiting) -> Chain
    ensures { result ≡ chain_at m.now pc note wait }
{
    Chain {
        cell: note.cell,
        pc,
        fp: m.reg(Reg::S0),
        saved: saved_of(m),
        note,
        wait,
    }
}

impl Walk {
    /// The chain of the thread that is taken, which the walk has come to.
    pub fn taken(&self) -> Chain
        requires { is_some self.now.chain ≡ true }
        ensures { self.now.chain ≡ Some result }
    {
        let Some(chain) = self.chain else {
            unreachable!()
        };
        chain
    }

    /// What it comes to next.
    pub fn place(&self, image: &Image) -> Place
        requires { AreRising 0 image.now.forks }
        ensures { result ≡ place_of image.now.forks self.now.stage self.now.machine.pc }
    {
        match self.stage {
            Stage::Copy { left: _ } => Place::Copy,
            Stage::Frame => place_at(image.forks.as_slice(), self.machine.pc()),
        }
    }

    /// One instruction of the copy that it runs.
    pub fn go_on<B: Board, N: NamesView>(&mut self, image: &Image, board: &mut B, w: u32)
        requires copying { MayCopy (λ s. Asked B.view B.serves B.says B.forward B.moves N.after board.old w s) image.now (data_of image.now.rodata []) self.old.machine }
        ensures copied { Copied (λ s a b. StepMade B.view B.serves B.says B.did N.after board.old w s a b) board.old image.now (data_of image.now.rodata []) self.old.machine self.new.machine board.new }
        ensures rest { self.new ≡ record self.old { machine = self.new.machine; stage = counted self.old.stage } }
    {
        copy_on::<B, N>(&mut self.machine, image, board, w);
        self.stage = counted(self.stage);
    }

    /// The copy of the function begins at whose item it is. The frame is exported if its thread is taken and it lies on this stack.
    pub fn begin(&mut self, s: &mut PhysStack, image: &Image)
        requires ascending { AreAscending 0 image.now.rows }
        requires found { is_some (row_behind image.now.rows self.old.machine.pc) ≡ true }
        requires may { (row : FrameRow) → row_behind image.now.rows self.old.machine.pc ≡ Some row → is_some self.old.chain ≡ true → IsFrameOn s.old.lo s.old.hi (frame_of row self.old.machine) → MayExport s.old.exported (frame_of row self.old.machine) }
        ensures walk { (row : FrameRow) → row_behind image.now.rows self.old.machine.pc ≡ Some row → self.new ≡ begun row self.old }
        ensures exports { (row : FrameRow) → row_behind image.now.rows self.old.machine.pc ≡ Some row → Joins (is_some self.old.chain) s.old (frame_of row self.old.machine) s.new }
    {
        let row = row_at(image, self.machine.pc());
        let base = self.machine.reg(Reg::S0);
        let low = base.saturating_sub(u64::from(row.frame_bytes));
        join(self.chain.is_some(), s, Frame { low, base });
        self.base = base;
        self.machine.set_pc(row.pure_at);
        self.stage = Stage::Copy {
            left: row.code_to.saturating_sub(row.pure_at) / 4,
        };
    }

    /// Cuts the thread whose oldest frame was read last from what lies below it.
    pub fn cut<B: Board, N: NamesView>(&self, board: &mut B, w: u32)
        requires few { return_word self.now.base < 2 ^ 32 }
        requires may { Asked B.view B.serves B.says B.forward B.moves N.after board.old w (StackStore (return_word self.now.base) 0x30) }
        ensures made { StepMade B.view B.serves B.says B.did N.after board.old w (StackStore (return_word self.now.base) 0x30) Done board.new }
    {
        let place = self.base.saturating_sub(8).saturating_sub(STACKS_START) / 8;
        board.stack_store::<N>(w, place as u32, u64::from(END));
    }

    /// Goes on in the thread below, behind the fork at whose third jump it is, with the cell of the thread above in the fork's register.
    pub fn go_down(&mut self, handle: Reg, cell: u32)
        requires { self.old.machine.pc + 4 < 2 ^ 32 }
        ensures { self.new ≡ record self.old { machine = at_place (self.old.machine.pc + 4) (written self.old.machine handle cell) } }
    {
        let next = self.machine.pc() + 4;
        self.machine.set_reg(handle, u64::from(cell));
        self.machine.set_pc(next);
    }
}

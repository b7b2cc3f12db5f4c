//! Two frames of one stack, with values worked out by hand.
ghost use Rattle.std.specs.Prelude.{◌≡◌, ℕ, ◌<◌, ◌+◌, ◌*◌, ◌∷◌, [], length, is_some, true, IfOk};
ghost use Rattle.std.specs.List.{Contains};
ghost use Rattle.st_words.specs.Laws.{named, progress_of};
ghost use Rattle.st_words.specs.Plain.{view_at};
ghost use Rattle.st_words.specs.Steps.{kept};
ghost use Rattle.st_words.specs.Views.{no_cargo};
ghost use Rattle.st_stack.specs.Trying.{exporting};

use crate::stack::{PhysStack, Shrunk};
use st_base::chain::Frame;
use st_base::limits::Limits;
use st_words::board::{Board, NamesView};
use st_words::plain::PlainBoard;
use std::alloc::{AllocError, Global};
use std::marker::Brand;
use std::test::Fail;

const LOW: u64 = 0x8000_0000;

const HIGH: u64 = 0x8001_0000;

/// The places of the two frames' return words.
const LOWER_RETURN: u32 = 8183;

const UPPER_RETURN: u32 = 8191;

/// Names the view after a step of a worker that has exported a frame where it looks at one.
struct Exporting;

impl NamesView for Exporting {
    ghost after = { λ v s a. named (progress_of v) (exporting v s) s a };

    ghost cargo = { λ _ _ _. no_cargo };
}

fn upper() -> Frame
    ensures { result ≡ record { low = 0x8000_ffc0; base = 0x8001_0000 } }
{
    Frame {
        low: 0x8000_ffc0,
        base: 0x8001_0000,
    }
}

fn lower() -> Frame
    ensures { result ≡ record { low = 0x8000_ffa0; base = 0x8000_ffc0 } }
{
    Frame {
        low: 0x8000_ffa0,
        base: 0x8000_ffc0,
    }
}

/// Limits of 16 cells, and a stack of 65,536 bytes.
fn limits() -> Limits
    ensures { result.stack ≡ 65536 }
{
    Limits {
        stack: 65_536,
        cells: 16,
        steps: 1,
    }
}

/// A board of one worker, who holds all words of its stack.
#[derive(Drop)]
struct Lone {
    board: PlainBoard,
    ghost serves: { 0 < length board.kept.views },
    ghost words: { length board.words.stack ≡ 8192 },
    ghost holds: { (p : ℕ) → p < 8192 → is_some (kept (view_at board.kept.views 0).held p) ≡ true },
}

impl Lone {
    fn open(alloc: Global) -> Result<Lone, AllocError> {
        let limits = limits();
        let board = PlainBoard::open::<Brand>(alloc, &limits, 1)?;
        Ok(Lone { board })
    }

    fn store(&mut self, place: u32, value: u64)
        requires { place < 8192 }
    {
        self.board.stack_store::<Exporting>(0, place, value);
    }

    fn shrink(&mut self, stack: &mut PhysStack, sp: u64, top: Option<Frame>) -> Shrunk
        requires { (stack.old.lo ≡ 0x8000_0000) × (stack.old.hi ≡ 0x8001_0000) }
        ensures { (stack.new.lo ≡ 0x8000_0000) × (stack.new.hi ≡ 0x8001_0000) }
    {
        stack.shrink_step::<PlainBoard, Exporting>(&mut self.board, 0, sp, top)
    }
}

/// Both frames are exported, each once.
fn exports_both(stack: &mut PhysStack) -> bool
    requires none { stack.old.exported ≡ [] }
    requires ends { (stack.old.lo ≡ 0x8000_0000) × (stack.old.hi ≡ 0x8001_0000) }
    ensures ends { (stack.new.lo ≡ 0x8000_0000) × (stack.new.hi ≡ 0x8001_0000) }
{
    let is_open = stack.limit() == HIGH;
    let is_first = stack.export(upper());
    let is_again = stack.export(upper());
    let is_second = stack.export(lower());
    let is_there = stack.is_exported(lower());
    let is_on = stack.is_on(lower());
    let is_limited = stack.limit() == 0x8000_ffa0;
    is_open & is_first & !is_again & is_second & is_there & is_on & is_limited
}

/// The lower frame is taken back once its return word is 0, and sp rises then.
fn takes_lower_back(lone: &mut Lone, stack: &mut PhysStack) -> bool
    requires { (stack.old.lo ≡ 0x8000_0000) × (stack.old.hi ≡ 0x8001_0000) }
    ensures { (stack.new.lo ≡ 0x8000_0000) × (stack.new.hi ≡ 0x8001_0000) }
{
    let sp = 0x8000_ffa0;
    let is_held = lone.shrink(stack, sp, None) == Shrunk::Done { sp };
    lone.store(LOWER_RETURN, 0);
    let is_back = lone.shrink(stack, sp, None) == Shrunk::More;
    let is_raised = lone.shrink(stack, sp, None) == Shrunk::Done { sp: 0x8000_ffc0 };
    is_held & is_back & is_raised & stack.is_exported(upper())
}

/// So is the upper one; then sp rises to the stack's end, or to the worker's lowest frame.
fn takes_upper_back(lone: &mut Lone, stack: &mut PhysStack) -> bool
    requires { (stack.old.lo ≡ 0x8000_0000) × (stack.old.hi ≡ 0x8001_0000) }
{
    let sp = 0x8000_ffa0;
    lone.store(UPPER_RETURN, 0);
    let is_back = lone.shrink(stack, sp, None) == Shrunk::More;
    let is_raised = lone.shrink(stack, sp, None) == Shrunk::Done { sp: HIGH };
    let is_lowered = lone.shrink(stack, sp, Some(lower())) == Shrunk::Done { sp };
    is_back & is_raised & is_lowered
}

/// Both frames are exported and taken back.
fn come_and_go(alloc: Global) -> Result<bool, AllocError> {
    let mut stack = PhysStack::open(alloc, LOW, HIGH)?;
    let mut lone = Lone::open(alloc)?;
    lone.store(LOWER_RETURN, 0x30);
    lone.store(UPPER_RETURN, 0x30);
    let exports = exports_both(&mut stack);
    let lower = takes_lower_back(&mut lone, &mut stack);
    let upper = takes_upper_back(&mut lone, &mut stack);
    Ok(exports & lower & upper)
}

#[test]
fn frames_are_exported_once_and_taken_back_in_their_order(rt: HostRuntime) -> Result<(), Fail> {
    assert!(rt; come_and_go(rt.alloc())?);
    Ok(())
}

//! The exported frames of a stack.
ghost use Rattle.std.specs.Prelude.{◌≡◌, ◌≢◌, ◌<◌, ◌^◌, ◌*◌, ℕ, Bool, List, [], IfOk, IfSome, IfNone, ◌+◌, ◌≤◌};
ghost use Rattle.std.specs.List.{Contains};
ghost use Rattle.std.specs.Bool.{Decides};
ghost use Rattle.st_base.specs.declared.chain.Frame.{Frame};
ghost use Rattle.st_stack.specs.Exported.{IsRange, IsFrameOn, Apart, MayExport, IsAdded, IsWithout, IsLimit, IsLowest, IsFound, IsPlaceOf};
ghost use Rattle.st_stack.specs.Shrinking.{IsStackOf, Shrinks, lesser};
ghost use Rattle.st_stack.specs.FrameLaw.{FrameLaw, IsTop, MayJoin, KeepsLaw};
ghost use Rattle.st_words.specs.Made.{Asked};
ghost use Rattle.st_words.specs.Steps.{Look, return_place};

use crate::list::FrameList;
use st_base::chain::Frame;
use st_base::map::STACKS_START;
use st_words::board::{Board, NamesView};
use std::alloc::{AllocError, Global};
use std::marker::Model;

/// The exported frames of the stack from `lo` up to `hi`. Contracts see them as a list, in any order, beside the stack's ends.
#[derive(Drop)]
pub struct PhysStack {
    /// From the highest to the lowest.
    frames: FrameList,
    lo: u64,
    hi: u64,
}

impl Model for PhysStack {
    ghost use Rattle.st_stack.specs.Exported.{Exports, IsKept};

    ghost Value = { Exports };

    ghost view = { λ s. record { exported = s.frames.frames; lo = s.lo; hi = s.hi } };

    ghost invariant = { λ s. IsKept s.lo s.hi s.frames.room s.frames.frames };
}

/// What a step of shrinking comes to.
#[derive(Clone, Copy, PartialEq, Eq, Debug)]
pub enum Shrunk {
    /// A frame was taken back; there may be more.
    More,
    /// Nothing more is taken back now, and sp may lie here.
    Done { sp: u64 },
}

impl PhysStack {
    /// A stack from `lo` up to `hi`, multiples of 16 that are at most 1,048,576 bytes apart, with no exported frame. It takes the memory for
    /// as many frames as fit; no other call takes any.
    pub fn open(alloc: Global, lo: u64, hi: u64) -> Result<PhysStack, AllocError>
        requires range { IsRange lo hi }
        ensures none { IfOk result (λ s. s.exported ≡ []) }
        ensures ends { IfOk result (λ s. (s.lo ≡ lo) × (s.hi ≡ hi)) }
    {
        let frames = FrameList::with_capacity(alloc, ((hi - lo) / 16) as usize)?;
        Ok(PhysStack { frames, lo, hi })
    }

    /// The exported frame of least low end. Each exported frame lies on this stack, whose ends fit.
    fn lowest(&self) -> Option<Frame>
        ensures some { IfSome result (λ f. IsLowest self.now.exported f) }
        ensures none { IfNone result (self.now.exported ≡ []) }
        ensures on { (f : Frame) → Contains self.now.exported f → IsFrameOn self.now.lo self.now.hi f }
        ensures range { IsRange self.now.lo self.now.hi }
    {
        self.frames.last()
    }

    /// The least low end of an exported frame, or the stack's high end.
    pub fn limit(&self) -> u64
        ensures { IsLimit self.now.hi self.now.exported result }
    {
        match self.lowest() {
            Some(f) => f.low,
            None => self.hi,
        }
    }

    /// Takes back the exported frame of least low end.
    fn take_back(&mut self, f: Frame)
        requires { IsLowest self.old.exported f }
        ensures without { IsWithout self.old.exported f self.new.exported }
        ensures ends { (self.new.lo ≡ self.old.lo) × (self.new.hi ≡ self.old.hi) }
    {
        self.frames.pop();
    }

    /// How many exported frames lie above a frame's low end.
    fn frames_above(&self, f: Frame) -> usize
        ensures { IsPlaceOf f self.now.exported result }
    {
        self.frames.place(f)
    }

    /// Where a frame stands among the exported ones; else where it would.
    fn find(&self, f: Frame) -> Result<usize, usize>
        ensures { IsFound f self.now.exported result }
    {
        let at = self.frames_above(f);
        match self.frames.get(at) {
            Some(g) if g == f => Ok(at),
            _ => Err(at),
        }
    }

    /// Whether a frame lies on this stack: its ends are multiples of 16, the low one is below the base, and both lie between the stack's ends.
    pub fn is_on(&self, f: Frame) -> bool
        ensures { Decides result (IsFrameOn self.now.lo self.now.hi f) }
    {
        let lies_between = self.lo <= f.low && f.base <= self.hi;
        let is_aligned = f.low % 16 == 0 && f.base % 16 == 0;
        lies_between && f.low < f.base && is_aligned
    }

    /// What is always so of a stack: its ends fit, each exported frame lies on it, and no two of them overlap.
    pub fn frames_lie_apart(&self)
        ensures range { IsRange self.now.lo self.now.hi }
        ensures on { (f : Frame) → Contains self.now.exported f → IsFrameOn self.now.lo self.now.hi f }
        ensures apart { (f g : Frame) → Contains self.now.exported f → Contains self.now.exported g → f ≢ g → Apart f g }
    {
        let _frames = &self.frames;
    }

    /// Whether a frame is exported.
    pub fn is_exported(&self, f: Frame) -> bool
        ensures { Decides result (Contains self.now.exported f) }
    {
        self.find(f).is_ok()
    }

    /// Exports a frame of this stack that overlaps no other exported frame; false, and nothing changes, where it is exported already.
    pub fn export(&mut self, f: Frame) -> bool
        requires on { IsFrameOn self.old.lo self.old.hi f }
        requires apart { MayExport self.old.exported f }
        ensures added { IsAdded self.old.exported f result self.new.exported }
        ensures ends { (self.new.lo ≡ self.old.lo) × (self.new.hi ≡ self.old.hi) }
        ensures law { (is_zero : ℕ → Bool) (sp : ℕ) (live own : List Frame) → FrameLaw is_zero self.old.hi sp self.old.exported live own → MayJoin is_zero sp live f → FrameLaw is_zero self.new.hi sp self.new.exported live own }
    {
        let Err(at) = self.find(f) else {
            return false;
        };
        self.frames.insert(at, f);
        true
    }

    /// One step of shrinking for the worker `w`, whose stack this is, where sp lies at `sp` and `top` is the lowest frame of its threads that
    /// is on this stack and not exported.
    ///
    /// It looks at the return word of the exported frame of least low end. Where that is 0, the frame is taken back. Otherwise, and where no
    /// frame is exported, it is done: sp may lie at the limit, or at the low end of `top` where that is less. Where the law of frames holds,
    /// that isn't below `sp`, which is named for this alone. It makes at most one step of the board, and takes no memory.
    pub fn shrink_step<B: Board, N: NamesView>(
        &mut self,
        board: &mut B,
        w: u32,
        sp: u64,
        top: Option<Frame>,
    ) -> Shrunk
        requires stack { IsStackOf w self.old.lo self.old.hi }
        requires may { (f : Frame) → IsLowest self.old.exported f → IsFrameOn self.old.lo self.old.hi f → Asked B.view B.serves B.says B.forward B.moves N.after board.old w (Look (return_place f)) }
        ensures shrunk { Shrinks B.view B.serves B.says B.did N.after board.old w self.old.hi self.old.exported self.new.exported top result board.new }
        ensures law { (is_zero : ℕ → Bool) (live own : List Frame) → FrameLaw is_zero self.old.hi sp self.old.exported live own → IsTop self.old.exported own top → KeepsLaw is_zero self.old.hi sp self.old.exported self.new.exported live own result }
        ensures ends { (self.new.lo ≡ self.old.lo) × (self.new.hi ≡ self.old.hi) }
    {
        if let Some(f) = self.lowest() {
            if board.look::<N>(w, return_place(f)) == 0 {
                self.take_back(f);
                return Shrunk::More;
            }
        }
        Shrunk::Done {
            sp: lesser(self.limit(), top),
        }
    }
}

/// The place of a frame's return word, which is the one below its base.
fn return_place(f: Frame) -> u32
    requires { (0x8000_0008 ≤ f.base) × (f.base ≤ 0x8000_0000 + 2 ^ 24) }
    ensures { result ≡ return_place f }
{
    ((f.base - STACKS_START) / 8 - 1) as u32
}

/// The lesser of the limit and a frame's low end.
fn lesser(limit: u64, top: Option<Frame>) -> u64
    ensures { result ≡ lesser limit top }
{
    match top {
        Some(f) => limit.min(f.low),
        None => limit,
    }
}

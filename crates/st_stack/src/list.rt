//! A list of frames that takes one more quickly before the one that it took last.
ghost use Rattle.std.specs.Prelude.{◌≡◌, ◌≤◌, ◌<◌, ◌-◌, [], length, take, IfOk, IfSome, IfNone, vec_capacity};
ghost use Rattle.std.specs.List.{insert};
ghost use Rattle.st_stack.specs.Exported.{frame_at, IsPlaceOf};
ghost use Rattle.st_stack.specs.Listing.{FallsLow, turned};

use st_base::chain::Frame;
use std::alloc::{AllocError, Global};
use std::marker::Model;

/// A list of frames, which contracts see from the first to the last, with how many it has memory for.
///
/// The frames from `turn` on are kept the other way round, from the last to the first. So one that comes before all of these goes to the end of
/// the vector, and no other is moved: frames each of which comes right before the one that came last take constant time each. Taking the last
/// frame out takes constant time on average, since each frame is turned round at most once.
#[derive(Drop)]
pub(crate) struct FrameList {
    frames: Vec<Frame>,
    turn: usize,
}

impl Model for FrameList {
    ghost use Rattle.std.specs.Prelude.{◌≤◌, ◌-◌, length, vec_capacity};
    ghost use Rattle.st_stack.specs.Listing.{Listing, turned};

    ghost Value = { Listing };

    ghost view = { λ l. record { frames = turned l.turn l.frames.items; room = vec_capacity l.frames } };

    ghost invariant = { λ l. l.turn ≤ length l.frames.items - 1 };
}

impl FrameList {
    /// An empty list with memory for this many frames.
    pub(crate) fn with_capacity(alloc: Global, room: usize) -> Result<FrameList, AllocError>
        ensures none { IfOk result (λ l. l.frames ≡ []) }
        ensures room { IfOk result (λ l. room ≤ l.room) }
    {
        let frames = Vec::with_capacity(alloc, room)?;
        Ok(FrameList { frames, turn: 0 })
    }

    /// The last frame.
    pub(crate) fn last(&self) -> Option<Frame>
        ensures some { IfSome result (λ f. (0 < length self.now.frames) × (frame_at self.now.frames (length self.now.frames - 1) ≡ f)) }
        ensures none { IfNone result (self.now.frames ≡ []) }
    {
        self.frames.get(self.turn).copied()
    }

    /// The frame at a place.
    pub(crate) fn get(&self, at: usize) -> Option<Frame>
        ensures some { IfSome result (λ f. (at < length self.now.frames) × (frame_at self.now.frames at ≡ f)) }
        ensures none { IfNone result (length self.now.frames ≤ at) }
    {
        if at < self.turn {
            return self.frames.get(at).copied();
        }
        let behind = self.frames.len().checked_sub(1)?.checked_sub(at)?;
        self.frames.get(self.turn + behind).copied()
    }

    /// How many frames have their low ends above this frame's, where the low ends fall from frame to frame.
    pub(crate) fn place(&self, f: Frame) -> usize
        requires { FallsLow self.now.frames }
        ensures { IsPlaceOf f self.now.frames result }
    {
        let (falling, rising) = self.frames.as_slice().split_at(self.turn);
        let above = falling.partition_point(|g| g.low > f.low);
        if above < self.turn {
            return above;
        }
        let below = rising.partition_point(|g| g.low <= f.low);
        self.frames.len() - below
    }

    /// Takes the last frame out, if there is one.
    pub(crate) fn pop(&mut self)
        ensures frames { self.new.frames ≡ take (length self.old.frames - 1) self.old.frames }
        ensures room { self.new.room ≡ self.old.room }
    {
        straighten(&mut self.frames, self.turn);
        self.frames.pop();
        self.turn = self.frames.len().saturating_sub(1);
    }

    /// Puts a frame at a place, where there is memory for it.
    pub(crate) fn insert(&mut self, at: usize, f: Frame)
        requires place { at ≤ length self.old.frames }
        requires room { length self.old.frames < self.old.room }
        ensures frames { self.new.frames ≡ insert self.old.frames at f }
        ensures room { self.new.room ≡ self.old.room }
    {
        if at == self.turn {
            self.frames.push_reserved(f);
            return;
        }
        straighten(&mut self.frames, self.turn);
        let Ok(()) = self.frames.insert(at, f) else {
            unreachable!()
        };
        self.turn = self.frames.len() - 1;
    }
}

/// Turns the frames from `turn` on round.
fn straighten(frames: &mut Vec<Frame>, turn: usize)
    requires { turn ≤ length frames.old.items }
    ensures frames { frames.new.items ≡ turned turn frames.old.items }
    ensures capacity { vec_capacity frames.new ≡ vec_capacity frames.old }
{
    let (_, rising) = frames.as_mut_slice().split_at_mut(turn);
    rising.reverse();
}

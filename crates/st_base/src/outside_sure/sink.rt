//! Bytes that are put into memory, at the end, without a fault.
ghost use Rattle.std.specs.Prelude.{◌≡◌, ◌≤◌, ◌+◌, ◌++◌, [], ◌↔◌, length, Some, None, Option, IsOk, IfOk, IfSome, MatchOption, IsSomeAnd};
ghost use Rattle.st_base.specs.OutsideMemory.{taken_whole};

use crate::outside::{Failed, Sink};
use std::alloc::{AllocError, Global};
use std::marker::Model;

/// A sink over memory that never fails and takes each piece whole. Once a piece didn't fit in its room, it tells its
/// bytes no more.
#[derive(Drop)]
pub struct SureSink {
    bytes: Vec<u8>,
    room: u32,
    is_whole: bool,
}

impl Model for SureSink {
    ghost use Rattle.std.specs.Prelude.{◌≤◌, length, vec_capacity, cond, Some, None};
    ghost use Rattle.st_base.specs.OutsideMemory.{RoomSink};

    ghost Value = { RoomSink };

    ghost view = { λ s. record { taken = cond s.is_whole (Some s.bytes.items) None; room = s.room } };

    ghost invariant = { λ s. (length s.bytes.items ≤ s.room) × (s.room ≤ vec_capacity s.bytes) };
}

impl SureSink {
    /// Nothing is taken yet, and `room` bytes can be told.
    pub fn open(alloc: Global, room: u32) -> Result<SureSink, AllocError>
        ensures taken { IfOk result (λ sink. sink.taken ≡ Some []) }
        ensures room { IfOk result (λ sink. sink.room ≡ room) }
    {
        Ok(SureSink {
            bytes: Vec::with_capacity(alloc, room as usize)?,
            room,
            is_whole: true,
        })
    }

    /// The bytes taken so far; `None` once a piece didn't fit.
    pub fn taken(&self) -> Option<&[u8]>
        ensures { MatchOption result (self.now.taken ≡ None) (λ bytes. self.now.taken ≡ Some bytes.now) }
    {
        if self.is_whole {
            Some(self.bytes.as_slice())
        } else {
            None
        }
    }
}

impl Sink for SureSink {
    ghost taken = { λ s. s.taken };

    // no call raises it, so no call fails
    ghost faults = { λ _. 0 };

    /// Takes the whole piece.
    fn put(&mut self, piece: &[u8]) -> Result<usize, Failed>
        ensures good { IsOk result }
        ensures whole { IfOk result (λ n. n ≡ length piece.now) }
        ensures taken { self.new.taken ≡ taken_whole self.old.taken piece.now self.old.room }
        ensures room { self.new.room ≡ self.old.room }
    {
        if piece.len() > self.room as usize - self.bytes.len() {
            self.is_whole = false;
        } else if self.is_whole {
            self.bytes.extend_from_slice(piece).unwrap();
        }
        Ok(piece.len())
    }
}

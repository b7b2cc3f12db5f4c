//! Bytes that are put into memory, at the end.
ghost use Rattle.std.specs.Prelude.{◌≡◌, ◌≤◌, ◌<◌, ◌-◌, ◌↔◌, ◌⊎◌, ◌++◌, [], length, take, min, Some, IsErr, IfOk, OnErr, is_ok};
ghost use Rattle.st_base.specs.Outside.{HasRisen};
ghost use Rattle.st_base.specs.OutsideMemory.{FailsNext, after_call, planned};

use crate::outside::{Failed, Sink};
use crate::outside_memory::calls::Calls;
use std::alloc::{AllocError, Global};
use std::marker::Model;

/// A sink over memory with a limited room, with calls that are to fail.
#[derive(Drop)]
pub struct MemSink {
    bytes: Vec<u8>,
    room: u32,
    calls: Calls,
}

impl Model for MemSink {
    ghost use Rattle.std.specs.Prelude.{◌≤◌, length, vec_capacity};
    ghost use Rattle.st_base.specs.OutsideMemory.{MemorySink};

    ghost Value = { MemorySink };

    ghost view = { λ s. record { taken = s.bytes.items; room = s.room; calls = s.calls } };

    ghost invariant = { λ s. (length s.bytes.items ≤ s.room) × (s.room ≤ vec_capacity s.bytes) };
}

impl MemSink {
    /// Nothing is taken yet, and `room` bytes may be. The calls of the numbers in `fail`, from 1, are to fail.
    pub fn open(alloc: Global, room: u32, fail: Vec<u64>) -> Result<MemSink, AllocError>
        ensures taken { IfOk result (λ sink. sink.taken ≡ []) }
        ensures room { IfOk result (λ sink. sink.room ≡ room) }
        ensures calls { IfOk result (λ sink. sink.calls ≡ planned fail.items) }
    {
        Ok(MemSink {
            bytes: Vec::with_capacity(alloc, room as usize)?,
            room,
            calls: Calls::new(fail),
        })
    }

    /// The bytes taken so far.
    pub fn taken(&self) -> &[u8]
        ensures { result.now ≡ self.now.taken }
    {
        self.bytes.as_slice()
    }

    /// How many calls have failed.
    pub fn faults(&self) -> u64
        ensures { result ≡ self.now.calls.faults }
    {
        self.calls.faults()
    }
}

impl Sink for MemSink {
    ghost taken = { λ s. Some s.taken };

    ghost faults = { λ s. s.calls.faults };

    /// Takes what still fits; fails where the call is to fail, and where nothing of a piece that isn't empty fits.
    fn put(&mut self, piece: &[u8]) -> Result<usize, Failed>
        ensures fails { IsErr result ↔ (FailsNext self.old.calls ⊎ (0 < length piece.now × self.old.room ≤ length self.old.taken)) }
        ensures counted { self.new.calls ≡ after_call (is_ok result) self.old.calls }
        ensures count { IfOk result (λ n. n ≡ min (length piece.now) (self.old.room - length self.old.taken)) }
        ensures room { self.new.room ≡ self.old.room }

        ensures faults { self.old.calls.faults ≤ self.new.calls.faults }
        ensures failed { OnErr result (HasRisen self.old.calls.faults self.new.calls.faults) }
        ensures kept { OnErr result (self.new.taken ≡ self.old.taken) }
        ensures within { IfOk result (λ n. n ≤ length piece.now) }
        ensures put { IfOk result (λ n. self.new.taken ≡ self.old.taken ++ take n piece.now) }
        ensures some { IfOk result (λ n. 0 < length piece.now → 0 < n) }
    {
        if self.calls.next_fails() {
            return Err(self.calls.raise());
        }
        let n = piece.len().min(self.room as usize - self.bytes.len());
        if n == 0 && !piece.is_empty() {
            return Err(self.calls.raise());
        }
        self.bytes.extend_from_slice(&piece[..n]).unwrap();
        Ok(n)
    }
}

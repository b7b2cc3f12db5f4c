//! Bytes held in memory, to be taken from the front.
ghost use Rattle.std.specs.Prelude.{◌≡◌, ◌≤◌, ◌↔◌, ◌++◌, length, take, drop, min, Some, IsErr, IfOk, OnErr, is_ok};
ghost use Rattle.st_base.specs.Outside.{HasRisen, IsTaken};
ghost use Rattle.st_base.specs.OutsideMemory.{FailsNext, after_call, planned};

use crate::outside::{Failed, Source};
use crate::outside_memory::calls::Calls;
use std::marker::Model;

/// A source over memory, with calls that are to fail.
#[derive(Drop)]
pub struct MemSource {
    bytes: Vec<u8>,
    at: usize,
    calls: Calls,
}

impl Model for MemSource {
    ghost use Rattle.std.specs.Prelude.{◌≤◌, length, drop};
    ghost use Rattle.st_base.specs.OutsideMemory.{MemorySource};

    ghost Value = { MemorySource };

    ghost view = { λ s. record { left = drop s.at s.bytes.items; calls = s.calls } };

    ghost invariant = { λ s. s.at ≤ length s.bytes.items };
}

impl MemSource {
    /// All these bytes are left. The calls of the numbers in `fail`, from 1, are to fail.
    pub fn open(bytes: Vec<u8>, fail: Vec<u64>) -> MemSource
        ensures left { result.left ≡ bytes.items }
        ensures calls { result.calls ≡ planned fail.items }
    {
        MemSource {
            bytes,
            at: 0,
            calls: Calls::new(fail),
        }
    }

    /// The bytes that are left.
    pub fn left(&self) -> &[u8]
        ensures { result.now ≡ self.now.left }
    {
        &self.bytes[self.at..]
    }

    /// How many calls have failed.
    pub fn faults(&self) -> u64
        ensures { result ≡ self.now.calls.faults }
    {
        self.calls.faults()
    }
}

impl Source for MemSource {
    ghost left = { λ s. Some s.left };

    ghost faults = { λ s. s.calls.faults };

    /// Takes as many bytes as `buf` has room for.
    fn take(&mut self, buf: &mut [u8]) -> Result<usize, Failed>
        ensures fails { IsErr result ↔ FailsNext self.old.calls }
        ensures counted { self.new.calls ≡ after_call (is_ok result) self.old.calls }
        ensures count { IfOk result (λ n. n ≡ min (length buf.old) (length self.old.left)) }

        ensures faults { self.old.calls.faults ≤ self.new.calls.faults }
        ensures failed { OnErr result (HasRisen self.old.calls.faults self.new.calls.faults) }
        ensures kept { OnErr result (self.new.left ≡ self.old.left) }
        ensures untouched { OnErr result (buf.new ≡ buf.old) }
        ensures within { IfOk result (λ n. n ≤ length buf.old) }
        ensures taken { IfOk result (λ n. IsTaken self.old.left (Some self.new.left) n buf.old buf.new) }
    {
        if self.calls.next_fails() {
            return Err(self.calls.raise());
        }
        let n = fill_front(buf, &self.bytes[self.at..]);
        self.at += n;
        Ok(n)
    }
}

/// Fills the front of `buf` with as many bytes of `from` as fit, and tells how many.
pub(crate) fn fill_front(buf: &mut [u8], from: &[u8]) -> usize
    ensures count { result ≡ min (length buf.old) (length from.now) }
    ensures front { buf.new ≡ take result from.now ++ drop result buf.old }
{
    let n = buf.len().min(from.len());
    buf[..n].copy_from_slice(&from[..n]);
    n
}

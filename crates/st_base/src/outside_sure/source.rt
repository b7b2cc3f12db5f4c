//! Bytes held in memory, to be taken from the front without a fault.
ghost use Rattle.std.specs.Prelude.{◌≡◌, ◌≤◌, length, min, Some, IsOk, IfOk};
ghost use Rattle.st_base.specs.Outside.{IsTaken};

use crate::outside::{Failed, Source};
use crate::outside_memory::source::fill_front;
use std::marker::Model;

/// A source over memory that never fails. Contracts see it as the list of the bytes that are left.
#[derive(Drop)]
pub struct SureSource {
    bytes: Vec<u8>,
    at: usize,
}

impl Model for SureSource {
    ghost use Rattle.std.specs.Prelude.{ℕ, List, ◌≤◌, length, drop};

    ghost Value = { List ℕ };

    ghost view = { λ s. drop s.at s.bytes.items };

    ghost invariant = { λ s. s.at ≤ length s.bytes.items };
}

impl SureSource {
    /// All these bytes are left.
    pub fn open(bytes: Vec<u8>) -> SureSource
        ensures { result ≡ bytes.items }
    {
        SureSource { bytes, at: 0 }
    }

    /// The bytes that are left.
    pub fn left(&self) -> &[u8]
        ensures { result.now ≡ self.now }
    {
        &self.bytes[self.at..]
    }
}

impl Source for SureSource {
    ghost left = { λ s. Some s };

    // no call raises it, so no call fails
    ghost faults = { λ _. 0 };

    /// Takes as many bytes as `buf` has room for.
    fn take(&mut self, buf: &mut [u8]) -> Result<usize, Failed>
        ensures good { IsOk result }
        ensures count { IfOk result (λ n. n ≡ min (length buf.old) (length self.old)) }
        ensures within { IfOk result (λ n. n ≤ length buf.old) }
        ensures taken { IfOk result (λ n. IsTaken self.old (Some self.new) n buf.old buf.new) }
    {
        let n = fill_front(buf, &self.bytes[self.at..]);
        self.at += n;
        Ok(n)
    }
}

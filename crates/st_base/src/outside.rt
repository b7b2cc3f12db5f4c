//! The world outside: files that are read at a place, a source of bytes, a sink of bytes, and a gate that can hold a
//! worker. Each of the first three counts its faults; the count never falls, and a call fails only where it rose (a
//! count that stands at its last value, 2^64 - 1, can't rise, and says nothing). What they hold is told in contracts
//! alone, and only where they tell it: real files, for one, don't.
ghost use Rattle.std.specs.Prelude.{◌≡◌, ℕ, ◌<◌, ◌≤◌, List, length, take, Option, IsSome, IfSome, IsSomeAnd, IfOk, OnErr, ◌↔◌};
ghost use Rattle.st_base.specs.Outside.{HasRisen, IsReadAt, IsTaken, Appends};

/// A call on the outside failed; its object's count of faults rose.
#[derive(Clone, Copy, PartialEq, Eq, Debug)]
pub struct Failed;

/// Files by name.
pub trait Files {
    // the bytes of each file, by the bytes of its name, where they are told
    ghost contents: { Self → Option (List ℕ → Option (List ℕ)) };

    ghost faults: { Self → ℕ };

    /// Fills the front of `buf` with bytes of the file from `place` on and answers how many; 0 on a `buf` that isn't
    /// empty means that the file ends at `place` or before it. Fails for a missing file. Leaves the files as they were.
    fn read_at(&mut self, name: &str, place: u64, buf: &mut [u8]) -> Result<usize, Failed>
        ensures contents { contents self.new ≡ contents self.old }
        ensures faults { faults self.old ≤ faults self.new }
        ensures failed { OnErr result (HasRisen (faults self.old) (faults self.new)) }
        ensures within { IfOk result (λ n. n ≤ length buf.old) }
        ensures read { IfOk result (λ n. IfSome (contents self.old) (λ files. IsSomeAnd (files name.now) (λ file. IsReadAt file place n buf.old buf.new))) };
}

/// Bytes that are taken from the front.
pub trait Source {
    // the bytes that are left, where they are told
    ghost left: { Self → Option (List ℕ) };

    ghost faults: { Self → ℕ };

    /// Moves a prefix of the bytes that are left to the front of `buf` and answers its length; 0 on a `buf` that isn't
    /// empty means that nothing was left. Where it fails no byte has moved.
    fn take(&mut self, buf: &mut [u8]) -> Result<usize, Failed>
        ensures tells { IsSome (left self.new) ↔ IsSome (left self.old) }
        ensures faults { faults self.old ≤ faults self.new }
        ensures failed { OnErr result (HasRisen (faults self.old) (faults self.new)) }
        ensures kept { OnErr result (left self.new ≡ left self.old) }
        ensures within { IfOk result (λ n. n ≤ length buf.old) }
        ensures taken { IfOk result (λ n. IfSome (left self.old) (λ bytes. IsTaken bytes (left self.new) n buf.old buf.new)) };
}

/// Bytes that are put at the end.
pub trait Sink {
    // the bytes taken so far, where they are told
    ghost taken: { Self → Option (List ℕ) };

    ghost faults: { Self → ℕ };

    /// Appends a prefix of `piece` and answers its length, or fails, having appended a prefix that may be empty. An
    /// answer of 0 on a `piece` that isn't empty has raised the count of faults too.
    fn put(&mut self, piece: &[u8]) -> Result<usize, Failed>
        ensures faults { faults self.old ≤ faults self.new }
        ensures failed { OnErr result (HasRisen (faults self.old) (faults self.new)) }
        ensures within { IfOk result (λ n. n ≤ length piece.now) }
        ensures put { IfOk result (λ n. Appends (taken self.old) (taken self.new) (take n piece.now)) }
        ensures prefix { OnErr result ((n : ℕ) × Appends (taken self.old) (taken self.new) (take n piece.now)) }
        ensures none { IfOk result (λ n. n ≡ 0 → 0 < length piece.now → HasRisen (faults self.old) (faults self.new)) };
}

/// What a worker has just done, as a gate is told.
#[derive(Clone, Copy, PartialEq, Eq, Debug)]
pub enum Point {
    Step,
    /// A child was begun.
    Forked,
    /// A request was placed.
    Asked,
    /// A chain was taken to run.
    Took,
    /// A request word was read by a worker with a thread, or a request was found by one without.
    Polled,
    /// A thread ended.
    Ended,
    /// There was no work.
    Idle,
}

/// Something that can hold a worker at a point; it gives nothing back.
pub trait Gate {
    /// Called by a worker after each turn with what the turn did.
    fn at(&self, worker: u32, point: Point);
}

/// The gate that holds nobody.
#[derive(Clone, Copy, Debug)]
pub struct NoGate;

impl Gate for NoGate {
    fn at(&self, _worker: u32, _point: Point) {}
}

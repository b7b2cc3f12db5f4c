//! The plain data of threads: what registers and slots hold, calls that have not ended, and how a thread stands.
ghost use Rattle.std.specs.Prelude.{◌≡◌, IfOk};

use crate::line::Line;
use crate::lists::{Cells, Stack};
use crate::path::Path;
use crate::registers::Registers;
use std::alloc::{AllocError, Global};

/// Why a thread traps.
#[derive(Clone, Copy, PartialEq, Eq, Debug)]
pub enum TrapKind {
    /// An aligned load of which a byte is in neither the read-only data nor the input.
    LoadRange,
    /// A load at an address that is no multiple of its size; this is tried before `LoadRange`.
    Misaligned,
    /// `st_touch` of a counter, or `st_done` or `st_join` of a future.
    WrongHandle,
    /// `st_putc` in a thread other than the root.
    PutInChild,
    /// `ebreak`.
    Abort,
}

/// What a register or a slot holds: a 64-bit number, or the name of a future or a counter.
#[derive(Drop)]
pub enum Held {
    Number(u64),
    /// The future that the thread of this path computes.
    Future(Path),
    /// A counter, by the path of its maker and its number there, from 0.
    Counter { maker: Path, number: u32 },
}

impl Held {
    pub fn copy(&self, alloc: Global) -> Result<Held, AllocError>
        ensures { IfOk result (λ held. held ≡ self.now) }
    {
        match self {
            Held::Number(number) => Ok(Held::Number(*number)),
            Held::Future(path) => Ok(Held::Future(path.copy(alloc)?)),
            Held::Counter { maker, number } => Ok(Held::Counter {
                maker: maker.copy(alloc)?,
                number: *number,
            }),
        }
    }
}

/// How a call was made.
#[derive(Clone, Copy, PartialEq, Eq, Debug)]
pub enum ActivationKind {
    /// By `call`.
    Called,
    /// By a fork.
    Forked,
    /// The first call of `main`.
    Root,
}

/// One call of a function that has not ended.
#[derive(Drop)]
pub struct Activation {
    /// The function, by its place in the program.
    pub function: usize,
    /// The next item, by its place in the function.
    pub next: usize,
    /// The bytes of the frame's slots that were written, from the frame's low end.
    pub bytes: Cells<u8>,
    /// The handle slots that were written, from the frame's low end.
    pub handles: Cells<Held>,
    /// The values of s1 to s11 that were defined at its entry.
    pub kept: Registers,
    pub kind: ActivationKind,
}

/// How a thread stands.
#[derive(Drop)]
pub enum Standing {
    Going,
    /// It has ended with this value.
    Ended(u64),
    /// It has trapped, at this line.
    Trapped { kind: TrapKind, line: Line },
    /// The root alone: it would print a byte past the limit.
    Full,
}

/// A thread of the heap-frame machine.
#[derive(Drop)]
pub struct Thread {
    /// The newest first.
    pub activations: Stack<Activation>,
    pub registers: Registers,
    /// How many children it has made.
    pub forks: u32,
    /// How many counters it has made.
    pub counters: u32,
    /// How many bytes the root has printed; 0 for others.
    pub bytes: u32,
    pub standing: Standing,
}

//! Programs as data: what the definitions of both machines speak of.

use st_base::line::Line;
use st_base::lists::Listed;
use st_base::reg::Reg;
use st_rv::ins::{Ins, Op};

/// A call of the runtime, by the name of its entry.
#[derive(Clone, Copy, PartialEq, Eq, Debug)]
pub enum RuntimeCall {
    /// `st_touch`, entry 0x40: a0 becomes the value of future a6, when its thread has ended.
    Touch,
    /// `st_counter`, entry 0x50: a6 becomes a new counter with count 0.
    Counter,
    /// `st_done`, entry 0x60: adds 1 to counter a6.
    Done,
    /// `st_join`, entry 0x70: passes when the count of a6 is at least a0, unsigned.
    Join,
    /// `st_poll`, entry 0x80: nothing.
    Poll,
    /// `st_putc`, entry 0x90: the root prints the low byte of a0.
    Putc,
}

/// What an item is.
#[derive(Clone, Copy, PartialEq, Eq, Debug)]
pub enum ItemKind {
    /// The whole prologue of a function.
    Prologue,
    /// A whole epilogue.
    Epilogue,
    /// An instruction that is no branch and no jump.
    Plain(Ins),
    /// `li`, and `la` with its absolute address.
    Li { rd: Reg, value: i64 },
    /// A branch to the item of this place in the function.
    Branch { op: Op, rs1: Reg, rs2: Reg, to: u32 },
    /// `j` to the item of this place in the function.
    Jump { to: u32 },
    /// A call of the function of this place in the program.
    Call { function: u32 },
    /// A call of the runtime, by the address of its entry.
    Entry { at: u32 },
    /// A call as a new thread, whose future comes into the handle register.
    Fork { function: u32, handle: Reg },
}

/// An item with its first line.
#[derive(Clone, Copy, PartialEq, Eq, Debug)]
pub struct Item {
    pub line: Line,
    pub kind: ItemKind,
}

/// A function of a program. Items are counted from 0.
#[derive(Drop)]
pub struct ProgramFunction {
    /// How many integers it takes, in a0 on: 0 to 6.
    pub ints: u32,
    /// How many handles it takes, in a6 on: 0 to 2.
    pub handles: u32,
    /// The bytes of its frame.
    pub frame_bytes: u32,
    /// The saved registers that its prologue stores: bit i - 1 stands for s_i.
    pub saved: u16,
    /// How many handle slots its frame has.
    pub slots: u32,
    pub items: Listed<Item>,
}

/// A program. Functions are counted from 0.
#[derive(Drop)]
pub struct Program {
    pub functions: Listed<ProgramFunction>,
    /// The place of `main`.
    pub main: u32,
}

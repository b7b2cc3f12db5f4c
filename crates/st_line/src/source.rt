//! What a line of source says, as data.
use st_base::name::Name;
use st_base::path::Bytes;
use st_base::reg::Reg;
use st_rv::ins::{Ins, Op};

/// What an operand that names something stands for. Functions, and the items of each, are counted from 0.
#[derive(Debug, Drop)]
pub enum Target {
    /// A label in a function's code, by the item that follows it; the number of items where none does.
    Place { function: u32, item: u32 },
    /// A label in the read-only data, by its offset.
    Data { offset: u32 },
    /// Any other name.
    Name(Name),
}

/// An instruction line. Pseudo instructions that stand for one instruction are that instruction.
#[derive(Debug, Drop)]
pub enum SourceIns {
    /// An instruction that is no branch and no jump.
    Plain(Ins),
    /// `li`; the value is from -2^31 to 2^31 - 1.
    Li {
        rd: Reg,
        value: i64,
    },
    /// `la`.
    La {
        rd: Reg,
        to: Target,
    },
    /// A branch by its row's operation.
    Branch {
        op: Op,
        rs1: Reg,
        rs2: Reg,
        to: Target,
    },
    /// `j`, or `jal` with zero.
    Jump {
        to: Target,
    },
    /// `call`, or `jal` with ra: its operand's name.
    Call {
        name: Name,
    },
    /// `ret`, `jr ra` or `jalr zero,0(ra)`.
    Ret,
    /// `.st_fork`: the call behind it is a fork, whose handle comes into this register.
    Fork {
        handle: Reg,
    },
}

/// A statement of a line. The names in it stand as they are written.
#[derive(Debug, Drop)]
pub enum Statement {
    /// A directive that says nothing here, such as `.globl`.
    Ignored,
    /// `.text`: later lines are code.
    Code,
    /// `.section .rodata`: later lines are read-only data.
    Rodata,
    /// `.align`: zeros up to a multiple of 2^power, which is 0 to 12.
    Align { power: u32 },
    /// Bytes of data, written as numbers or as a string.
    Data(Bytes),
    /// `.zero`: so many zero bytes, 0 to 1,048,576.
    Zeros { count: u32 },
    /// `.st_args`: so many integers, 0 to 6, and so many handles, 0 to 2.
    Arguments { ints: u32, handles: u32 },
    /// `.st_handles`: so many handle slots, 0 to 252.
    Handles { slots: u32 },
    Instruction(SourceIns),
}

/// The part of a function in which a line of code stands.
#[derive(Clone, Copy, Debug, PartialEq, Eq)]
pub enum Part {
    /// In no function.
    Outside,
    /// Behind a function's label and before its first instruction; whether `.st_args` and `.st_handles` were given.
    Head { arguments: bool, handles: bool },
    /// Behind a function's first instruction.
    Body,
}

/// Where a line's statement stands: in which section, and in which part of a function, which goes on behind data.
#[derive(Clone, Copy, Debug, PartialEq, Eq)]
pub struct Standing {
    pub in_data: bool,
    pub part: Part,
}

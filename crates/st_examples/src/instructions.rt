//! Instructions (st_rv): their words and their results. An instruction is written as its mnemonic, its three registers and its
//! immediate between blanks, whether it has them or not.
ghost use Rattle.std.specs.Prelude.{◌≡◌};
ghost use Rattle.st_rv.specs.Results.{computes};

use st_base::reg::Reg;
use st_line::register_name;
use st_rv::code::{check_table, decode, encode};
use st_rv::ins::{Ins, Op};
use st_rv::results::{access_size, alu, extended, is_taken};
use st_rv::rows::{NAMES, ROWS, check_rows};
use std::alloc::{AllocError, Global};

const REGISTERS: [Reg; 32] = [
    Reg::Zero,
    Reg::Ra,
    Reg::Sp,
    Reg::Gp,
    Reg::Tp,
    Reg::T0,
    Reg::T1,
    Reg::T2,
    Reg::S0,
    Reg::S1,
    Reg::A0,
    Reg::A1,
    Reg::A2,
    Reg::A3,
    Reg::A4,
    Reg::A5,
    Reg::A6,
    Reg::A7,
    Reg::S2,
    Reg::S3,
    Reg::S4,
    Reg::S5,
    Reg::S6,
    Reg::S7,
    Reg::S8,
    Reg::S9,
    Reg::S10,
    Reg::S11,
    Reg::T3,
    Reg::T4,
    Reg::T5,
    Reg::T6,
];

fn register(name: &str) -> Option<Reg> {
    for register in REGISTERS {
        if register_name(register) == name {
            return Some(register);
        }
    }
    None
}

/// The operation of a mnemonic.
pub fn operation(name: &str) -> Option<Op> {
    for (op, known) in NAMES {
        if known == name {
            return Some(op);
        }
    }
    None
}

/// A number in hexadecimal digits.
pub fn hexadecimal(digits: &str) -> Option<u64> {
    u64::from_str_radix(digits, 16).ok()
}

fn instruction(text: &str) -> Option<Ins> {
    let mut parts = text.split(' ');
    Some(Ins {
        op: operation(parts.next()?)?,
        rd: register(parts.next()?)?,
        rs1: register(parts.next()?)?,
        rs2: register(parts.next()?)?,
        imm: parts.next()?.parse().ok()?,
    })
}

/// The word of an instruction, which it is the instruction of.
pub fn encoded(alloc: Global, text: &str) -> Result<String, AllocError> {
    let Some(ins) = instruction(text) else {
        return String::from_str(alloc, "no instruction");
    };
    match encode(ins) {
        None => String::from_str(alloc, "none"),
        Some(word) if decode(word) == Some(ins) => format!(in alloc; "{word:08x}"),
        Some(word) => format!(in alloc; "{word:08x} is not decoded"),
    }
}

/// The instruction of a word.
pub fn decoded(alloc: Global, digits: &str) -> Result<String, AllocError> {
    match u32::from_str_radix(digits, 16) {
        Ok(word) => format!(in alloc; "{:?}", decode(word)),
        Err(_) => String::from_str(alloc, "no number"),
    }
}

/// Whether the table is apart, and whether two rows of which the first stands twice are.
pub fn table(alloc: Global) -> Result<String, AllocError> {
    let twice = check_rows(&[ROWS[0], ROWS[1], ROWS[0]]);
    format!(in alloc; "{} {twice}", check_table())
}

/// Whether an operation computes a result.
fn is_computed(op: Op) -> bool
    ensures { result ≡ computes op }
{
    match op {
        Op::Lb | Op::Lh | Op::Lw | Op::Ld | Op::Lbu | Op::Lhu | Op::Lwu => false,
        Op::Sb | Op::Sh | Op::Sw | Op::Sd => false,
        Op::Beq | Op::Bne | Op::Blt | Op::Bge | Op::Bltu | Op::Bgeu => false,
        Op::Jal | Op::Jalr | Op::Ebreak => false,
        _ => true,
    }
}

/// The result of an operation.
fn result(op: Op, a: u64, b: u64) -> Option<u64> {
    if is_computed(op) {
        Some(alu(op, a, b))
    } else {
        None
    }
}

/// An operation and two numbers in hexadecimal digits; a number that is left out is 0.
fn operands(text: &str) -> Option<(Op, u64, u64)> {
    let mut parts = text.split(' ');
    let op = operation(parts.next()?)?;
    let a = hexadecimal(parts.next()?)?;
    let b = hexadecimal(parts.next().unwrap_or("0"))?;
    Some((op, a, b))
}

/// The result of an operation on two numbers.
pub fn computes_to(alloc: Global, text: &str) -> Result<String, AllocError> {
    match operands(text).and_then(|(op, a, b)| result(op, a, b)) {
        Some(n) => format!(in alloc; "{n:x}"),
        None => String::from_str(alloc, "none"),
    }
}

/// Whether a branch on two numbers is taken.
pub fn compares(alloc: Global, text: &str) -> Result<String, AllocError> {
    match operands(text) {
        Some((op, a, b)) => format!(in alloc; "{}", is_taken(op, a, b)),
        None => String::from_str(alloc, "no operation"),
    }
}

/// How many bytes a load reads, and what it puts into its register where it read this number.
pub fn reads(alloc: Global, text: &str) -> Result<String, AllocError> {
    match operands(text) {
        Some((op, n, _)) => format!(in alloc; "{} bytes {:x}", access_size(op), extended(op, n)),
        None => String::from_str(alloc, "no operation"),
    }
}

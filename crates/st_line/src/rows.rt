//! Statements of the instruction table's mnemonics, by what their operations do.
ghost use Rattle.std.specs.Prelude.{◌≡◌, ℤ, pos, IfOk};
ghost use Rattle.st_line.specs.Operands.{operands_of};
ghost use Rattle.st_line.specs.Statement.{plain, branch, is_in, is_register, immediate_range, linked, returned, jump_row, row_of_kind, row_statement};
ghost use Rattle.st_line.specs.Views.{capped, lexes, memory_with, Gives};

use crate::fault::{AsmKind, LineError};
use crate::forms::{
    nothing, register_and_integer, register_and_memory, register_and_name, three_registers,
    two_registers_and_integer, two_registers_and_name,
};
use crate::integer::in_range;
use crate::lexeme::Lexeme;
use crate::operand::Place;
use crate::source::{SourceIns, Target};
use st_base::name::Name;
use st_base::reg::Reg;
use st_rv::ins::{Ins, Op, OpKind};
use std::alloc::{AllocError, Global};

/// An instruction that is no branch and no jump.
pub(crate) fn plain(op: Op, rd: Reg, rs1: Reg, rs2: Reg, imm: i64) -> SourceIns
    ensures { result ≡ plain op rd rs1 rs2 imm }
{
    SourceIns::Plain(Ins {
        op,
        rd,
        rs1,
        rs2,
        imm,
    })
}

/// A branch to a name.
pub(crate) fn branch(
    alloc: Global,
    op: Op,
    rs1: Reg,
    rs2: Reg,
    name: &[u8],
) -> Result<SourceIns, AllocError>
    ensures { IfOk result (λ ins. ins ≡ branch op rs1 rs2 name.now) }
{
    let to = Target::Name(Name::from_slice(alloc, name)?);
    Ok(SourceIns::Branch { op, rs1, rs2, to })
}

/// Whether two registers are the same.
pub(crate) fn is_register(a: Reg, b: Reg) -> bool
    ensures { result ≡ is_register a b }
{
    a.number() == b.number()
}

/// The range of an operation's immediate: signed 12-bit numbers, or shift amounts of 6 or 5 bits.
fn immediate_range(op: Op) -> (i64, i64)
    ensures { result ≡ immediate_range op }
{
    match op {
        Op::Slli | Op::Srli | Op::Srai => (0, 63),
        Op::Slliw | Op::Srliw | Op::Sraiw => (0, 31),
        _ => (-2048, 2047),
    }
}

#[tactic(auto, unfolding(crate::specs::Statement::row_of_kind))]
fn register_row<'a>(op: Op, lexemes: &'a [Lexeme<'a>]) -> Result<SourceIns, AsmKind>
    ensures { result ≡ row_of_kind OpKind.Register op (operands_of (lexes lexemes.now)) }
{
    let (rd, rs1, rs2) = three_registers(lexemes)?;
    Ok(plain(op, rd, rs1, rs2, 0))
}

#[tactic(auto, unfolding(crate::specs::Statement::row_of_kind))]
fn immediate_row<'a>(op: Op, lexemes: &'a [Lexeme<'a>]) -> Result<SourceIns, AsmKind>
    ensures { result ≡ row_of_kind OpKind.Immediate op (operands_of (lexes lexemes.now)) }
{
    let (rd, rs1, n) = two_registers_and_integer(lexemes)?;
    let (low, high) = immediate_range(op);
    let imm = in_range(low, high, n)?;
    Ok(plain(op, rd, rs1, Reg::Zero, imm))
}

#[tactic(auto, unfolding(crate::specs::Statement::row_of_kind))]
fn upper_row<'a>(op: Op, lexemes: &'a [Lexeme<'a>]) -> Result<SourceIns, AsmKind>
    ensures { result ≡ row_of_kind OpKind.Upper op (operands_of (lexes lexemes.now)) }
{
    let (rd, n) = register_and_integer(lexemes)?;
    let imm = in_range(0, 0xfffff, n)?;
    Ok(plain(op, rd, Reg::Zero, Reg::Zero, imm))
}

#[tactic(auto, unfolding(crate::specs::Statement::row_of_kind))]
fn load_row<'a>(op: Op, lexemes: &'a [Lexeme<'a>]) -> Result<SourceIns, AsmKind>
    ensures { result ≡ row_of_kind OpKind.Load op (operands_of (lexes lexemes.now)) }
{
    let (rd, place) = register_and_memory(lexemes)?;
    let imm = in_range(-2048, 2047, place.offset)?;
    Ok(plain(op, rd, place.base, Reg::Zero, imm))
}

#[tactic(auto, unfolding(crate::specs::Statement::row_of_kind))]
fn store_row<'a>(op: Op, lexemes: &'a [Lexeme<'a>]) -> Result<SourceIns, AsmKind>
    ensures { result ≡ row_of_kind OpKind.Store op (operands_of (lexes lexemes.now)) }
{
    let (rs2, place) = register_and_memory(lexemes)?;
    let imm = in_range(-2048, 2047, place.offset)?;
    Ok(plain(op, Reg::Zero, place.base, rs2, imm))
}

#[tactic(auto, unfolding(crate::specs::Statement::row_of_kind))]
fn branch_row<'a>(alloc: Global, op: Op, lexemes: &'a [Lexeme<'a>]) -> Result<SourceIns, LineError>
    ensures { Gives result (row_of_kind OpKind.Branch op (operands_of (lexes lexemes.now))) }
{
    let (rs1, rs2, to) = two_registers_and_name(lexemes)?;
    Ok(branch(alloc, op, rs1, rs2, to)?)
}

#[tactic(auto, unfolding(crate::specs::Statement::row_of_kind))]
fn break_row(op: Op, lexemes: &[Lexeme<'_>]) -> Result<SourceIns, AsmKind>
    ensures { result ≡ row_of_kind OpKind.Break op (operands_of (lexes lexemes.now)) }
{
    nothing(lexemes)?;
    Ok(plain(op, Reg::Zero, Reg::Zero, Reg::Zero, 0))
}

/// `jal ra,name` is a call and `jal zero,name` a jump; there is no other `jal`.
fn linked(alloc: Global, rd: Reg, name: &[u8]) -> Result<SourceIns, LineError>
    ensures { Gives result (linked rd name.now) }
{
    if is_register(rd, Reg::Ra) {
        let name = Name::from_slice(alloc, name)?;
        return Ok(SourceIns::Call { name });
    }
    if is_register(rd, Reg::Zero) {
        let to = Target::Name(Name::from_slice(alloc, name)?);
        return Ok(SourceIns::Jump { to });
    }
    Err(LineError::Fault(AsmKind::BadOperand))
}

/// Whether an integer that was read is 0.
fn is_zero(n: i128) -> bool
    ensures { (z : ℤ) → n ≡ capped z → result ≡ is_in (pos 0, pos 0) z }
{
    match in_range(0, 0, n) {
        Ok(_) => true,
        Err(_) => false,
    }
}

/// The only `jalr` is `jalr zero,0(ra)`.
fn returned(rd: Reg, to: Place) -> Result<SourceIns, AsmKind>
    ensures { (z : ℤ) → to.offset ≡ capped z → result ≡ returned rd (memory_with to.base z) }
{
    if is_register(rd, Reg::Zero) && is_register(to.base, Reg::Ra) && is_zero(to.offset) {
        Ok(SourceIns::Ret)
    } else {
        Err(AsmKind::BadOperand)
    }
}

#[tactic(auto, unfolding(crate::specs::Statement::jump_row))]
fn jump_row<'a>(alloc: Global, op: Op, lexemes: &'a [Lexeme<'a>]) -> Result<SourceIns, LineError>
    ensures { Gives result (jump_row op (operands_of (lexes lexemes.now))) }
{
    match op {
        Op::Jal => {
            let (rd, name) = register_and_name(lexemes)?;
            linked(alloc, rd, name)
        }
        _ => {
            let (rd, to) = register_and_memory(lexemes)?;
            Ok(returned(rd, to)?)
        }
    }
}

/// The statement of a mnemonic with these operands.
#[tactic(auto, unfolding(crate::specs::Statement::row_of_kind))]
pub(crate) fn read_row<'a>(
    alloc: Global,
    op: Op,
    lexemes: &'a [Lexeme<'a>],
) -> Result<SourceIns, LineError>
    ensures { Gives result (row_statement op (operands_of (lexes lexemes.now))) }
{
    match op.kind() {
        OpKind::Register => Ok(register_row(op, lexemes)?),
        OpKind::Immediate => Ok(immediate_row(op, lexemes)?),
        OpKind::Upper => Ok(upper_row(op, lexemes)?),
        OpKind::Load => Ok(load_row(op, lexemes)?),
        OpKind::Store => Ok(store_row(op, lexemes)?),
        OpKind::Branch => branch_row(alloc, op, lexemes),
        OpKind::Jump => jump_row(alloc, op, lexemes),
        OpKind::Break => Ok(break_row(op, lexemes)?),
    }
}

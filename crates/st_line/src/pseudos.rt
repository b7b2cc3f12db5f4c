//! Statements of the pseudo instructions. All but `li` and `la` stand for one instruction.
ghost use Rattle.std.specs.Prelude.{◌≡◌, pos};
ghost use Rattle.st_line.specs.Operands.{operands_of, register_of, name_of};
ghost use Rattle.st_line.specs.Statement.{plain, branch, of_two, branch_of_one, branch_of_two, one_operand, pseudo_statement};
ghost use Rattle.st_line.specs.Views.{lexes, Gives};

use crate::fault::{AsmKind, LineError};
use crate::forms::{
    name, nothing, register, register_and_integer, register_and_name, two_registers,
    two_registers_and_name,
};
use crate::integer::in_range;
use crate::lexeme::Lexeme;
use crate::rows::{branch, is_register, plain};
use crate::source::{SourceIns, Target};
use crate::words::Pseudo;
use st_base::name::Name;
use st_base::reg::Reg;
use st_rv::ins::Op;
use std::alloc::Global;

/// `name d,s` for `op d,s` with this immediate.
#[tactic(auto, unfolding(crate::specs::Statement::of_two))]
fn of_first<'a>(op: Op, imm: i64, lexemes: &'a [Lexeme<'a>]) -> Result<SourceIns, AsmKind>
    ensures { result ≡ of_two (λ d s. plain op d s Reg.Zero imm) (operands_of (lexes lexemes.now)) }
{
    let (rd, rs) = two_registers(lexemes)?;
    Ok(plain(op, rd, rs, Reg::Zero, imm))
}

/// `name d,s` for `op d,zero,s`.
#[tactic(auto, unfolding(crate::specs::Statement::of_two))]
fn of_second<'a>(op: Op, lexemes: &'a [Lexeme<'a>]) -> Result<SourceIns, AsmKind>
    ensures { result ≡ of_two (λ d s. plain op d Reg.Zero s (pos 0)) (operands_of (lexes lexemes.now)) }
{
    let (rd, rs) = two_registers(lexemes)?;
    Ok(plain(op, rd, Reg::Zero, rs, 0))
}

/// `name s,label` for `op s,zero,label`.
#[tactic(auto, unfolding(crate::specs::Statement::branch_of_one))]
fn branch_from<'a>(alloc: Global, op: Op, lexemes: &'a [Lexeme<'a>]) -> Result<SourceIns, LineError>
    ensures { Gives result (branch_of_one (λ s to. branch op s Reg.Zero to) (operands_of (lexes lexemes.now))) }
{
    let (rs, to) = register_and_name(lexemes)?;
    Ok(branch(alloc, op, rs, Reg::Zero, to)?)
}

/// `name s,label` for `op zero,s,label`.
#[tactic(auto, unfolding(crate::specs::Statement::branch_of_one))]
fn branch_against<'a>(
    alloc: Global,
    op: Op,
    lexemes: &'a [Lexeme<'a>],
) -> Result<SourceIns, LineError>
    ensures { Gives result (branch_of_one (λ s to. branch op Reg.Zero s to) (operands_of (lexes lexemes.now))) }
{
    let (rs, to) = register_and_name(lexemes)?;
    Ok(branch(alloc, op, Reg::Zero, rs, to)?)
}

/// `name a,b,label` for `op b,a,label`.
#[tactic(auto, unfolding(crate::specs::Statement::branch_of_two))]
fn branch_swapped<'a>(
    alloc: Global,
    op: Op,
    lexemes: &'a [Lexeme<'a>],
) -> Result<SourceIns, LineError>
    ensures { Gives result (branch_of_two (λ a b to. branch op b a to) (operands_of (lexes lexemes.now))) }
{
    let (a, b, to) = two_registers_and_name(lexemes)?;
    Ok(branch(alloc, op, b, a, to)?)
}

#[tactic(auto, unfolding(crate::specs::Statement::pseudo_statement))]
fn no_operation(lexemes: &[Lexeme<'_>]) -> Result<SourceIns, AsmKind>
    ensures { result ≡ pseudo_statement Pseudo.Nop (operands_of (lexes lexemes.now)) }
{
    nothing(lexemes)?;
    Ok(plain(Op::Addi, Reg::Zero, Reg::Zero, Reg::Zero, 0))
}

#[tactic(auto, unfolding(crate::specs::Statement::pseudo_statement))]
fn jump<'a>(alloc: Global, lexemes: &'a [Lexeme<'a>]) -> Result<SourceIns, LineError>
    ensures { Gives result (pseudo_statement Pseudo.J (operands_of (lexes lexemes.now))) }
{
    let to = name(lexemes)?;
    let to = Target::Name(Name::from_slice(alloc, to)?);
    Ok(SourceIns::Jump { to })
}

#[tactic(auto, unfolding(crate::specs::Statement::pseudo_statement))]
fn call<'a>(alloc: Global, lexemes: &'a [Lexeme<'a>]) -> Result<SourceIns, LineError>
    ensures { Gives result (pseudo_statement Pseudo.Call (operands_of (lexes lexemes.now))) }
{
    let to = name(lexemes)?;
    let name = Name::from_slice(alloc, to)?;
    Ok(SourceIns::Call { name })
}

#[tactic(auto, unfolding(crate::specs::Statement::pseudo_statement))]
fn jump_register<'a>(lexemes: &'a [Lexeme<'a>]) -> Result<SourceIns, AsmKind>
    ensures { result ≡ pseudo_statement Pseudo.Jr (operands_of (lexes lexemes.now)) }
{
    let to = register(lexemes)?;
    if is_register(to, Reg::Ra) {
        Ok(SourceIns::Ret)
    } else {
        Err(AsmKind::BadOperand)
    }
}

#[tactic(auto, unfolding(crate::specs::Statement::pseudo_statement))]
fn return_to_caller(lexemes: &[Lexeme<'_>]) -> Result<SourceIns, AsmKind>
    ensures { result ≡ pseudo_statement Pseudo.Ret (operands_of (lexes lexemes.now)) }
{
    nothing(lexemes)?;
    Ok(SourceIns::Ret)
}

#[tactic(auto, unfolding(crate::specs::Statement::pseudo_statement))]
fn load_immediate<'a>(lexemes: &'a [Lexeme<'a>]) -> Result<SourceIns, AsmKind>
    ensures { result ≡ pseudo_statement Pseudo.Li (operands_of (lexes lexemes.now)) }
{
    let (rd, n) = register_and_integer(lexemes)?;
    let value = in_range(-0x8000_0000, 0x7fff_ffff, n)?;
    Ok(SourceIns::Li { rd, value })
}

#[tactic(auto, unfolding(crate::specs::Statement::pseudo_statement))]
fn load_address<'a>(alloc: Global, lexemes: &'a [Lexeme<'a>]) -> Result<SourceIns, LineError>
    ensures { Gives result (pseudo_statement Pseudo.La (operands_of (lexes lexemes.now))) }
{
    let (rd, to) = register_and_name(lexemes)?;
    let to = Target::Name(Name::from_slice(alloc, to)?);
    Ok(SourceIns::La { rd, to })
}

/// The statement of a pseudo instruction with these operands.
#[tactic(auto, unfolding(crate::specs::Statement::pseudo_statement))]
pub(crate) fn read_pseudo<'a>(
    alloc: Global,
    pseudo: Pseudo,
    lexemes: &'a [Lexeme<'a>],
) -> Result<SourceIns, LineError>
    ensures { Gives result (pseudo_statement pseudo (operands_of (lexes lexemes.now))) }
{
    match pseudo {
        Pseudo::Nop => Ok(no_operation(lexemes)?),
        Pseudo::Mv => Ok(of_first(Op::Addi, 0, lexemes)?),
        Pseudo::Not => Ok(of_first(Op::Xori, -1, lexemes)?),
        Pseudo::Neg => Ok(of_second(Op::Sub, lexemes)?),
        Pseudo::Negw => Ok(of_second(Op::Subw, lexemes)?),
        Pseudo::SextW => Ok(of_first(Op::Addiw, 0, lexemes)?),
        Pseudo::Seqz => Ok(of_first(Op::Sltiu, 1, lexemes)?),
        Pseudo::Snez => Ok(of_second(Op::Sltu, lexemes)?),
        Pseudo::Sltz => Ok(of_first(Op::Slt, 0, lexemes)?),
        Pseudo::Sgtz => Ok(of_second(Op::Slt, lexemes)?),
        Pseudo::Beqz => branch_from(alloc, Op::Beq, lexemes),
        Pseudo::Bnez => branch_from(alloc, Op::Bne, lexemes),
        Pseudo::Blez => branch_against(alloc, Op::Bge, lexemes),
        Pseudo::Bgez => branch_from(alloc, Op::Bge, lexemes),
        Pseudo::Bltz => branch_from(alloc, Op::Blt, lexemes),
        Pseudo::Bgtz => branch_against(alloc, Op::Blt, lexemes),
        Pseudo::Bgt => branch_swapped(alloc, Op::Blt, lexemes),
        Pseudo::Ble => branch_swapped(alloc, Op::Bge, lexemes),
        Pseudo::Bgtu => branch_swapped(alloc, Op::Bltu, lexemes),
        Pseudo::Bleu => branch_swapped(alloc, Op::Bgeu, lexemes),
        Pseudo::J => jump(alloc, lexemes),
        Pseudo::Jr => Ok(jump_register(lexemes)?),
        Pseudo::Call => call(alloc, lexemes),
        Pseudo::Ret => Ok(return_to_caller(lexemes)?),
        Pseudo::Li => Ok(load_immediate(lexemes)?),
        Pseudo::La => load_address(alloc, lexemes),
    }
}

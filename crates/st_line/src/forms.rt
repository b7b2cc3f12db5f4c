//! Forms of operands: so many operands, each of its form. Any other number or form of operands is E4.
ghost use Rattle.std.specs.Prelude.{◌≡◌};
ghost use Rattle.st_line.specs.Operands.{operands_of, register_of, integer_of, memory_of, name_of};
ghost use Rattle.st_line.specs.Statement.{no_operands, one_operand, two_operands, three_operands};
ghost use Rattle.st_line.specs.Views.{lexes, memory_with, HasFrom, ReadsCapped, ReadsTwoCapped};

use crate::fault::AsmKind;
use crate::lexeme::Lexeme;
use crate::operand::{Place, integer_in, memory_in, name_in, one, register_in, three, two};
use st_base::reg::Reg;

/// No operand.
pub(crate) fn nothing(lexemes: &[Lexeme<'_>]) -> Result<(), AsmKind>
    ensures { result ≡ no_operands (operands_of (lexes lexemes.now)) }
{
    if lexemes.is_empty() {
        Ok(())
    } else {
        Err(AsmKind::BadOperand)
    }
}

#[tactic(auto, using(crate::proofs::OperandLaws::one_wrong))]
pub(crate) fn register<'a>(lexemes: &'a [Lexeme<'a>]) -> Result<Reg, AsmKind>
    ensures { result ≡ one_operand register_of (operands_of (lexes lexemes.now)) }
{
    let a = one(lexemes)?;
    register_in(a).ok_or(AsmKind::BadOperand)
}

#[tactic(auto, using(crate::proofs::OperandLaws::one_wrong))]
pub(crate) fn name<'a>(lexemes: &'a [Lexeme<'a>]) -> Result<&'a [u8], AsmKind>
    ensures { HasFrom (λ n. n.now) result (one_operand name_of (operands_of (lexes lexemes.now))) }
{
    let a = one(lexemes)?;
    name_in(a).ok_or(AsmKind::BadOperand)
}

/// An integer; beyond 2^64 and -2^64 it is these.
#[tactic(auto, using(crate::proofs::OperandLaws::one_wrong))]
pub(crate) fn integer<'a>(lexemes: &'a [Lexeme<'a>]) -> Result<i128, AsmKind>
    ensures { ReadsCapped (λ n z. z) (λ n. n) result (one_operand integer_of (operands_of (lexes lexemes.now))) }
{
    let a = one(lexemes)?;
    integer_in(a).ok_or(AsmKind::BadOperand)
}

#[tactic(auto, unfolding(crate::specs::Statement::two_operands), using(crate::proofs::OperandLaws::two_wrong))]
pub(crate) fn two_registers<'a>(lexemes: &'a [Lexeme<'a>]) -> Result<(Reg, Reg), AsmKind>
    ensures { result ≡ two_operands register_of register_of (operands_of (lexes lexemes.now)) }
{
    let (a, b) = two(lexemes)?;
    let x = register_in(a).ok_or(AsmKind::BadOperand)?;
    let y = register_in(b).ok_or(AsmKind::BadOperand)?;
    Ok((x, y))
}

#[tactic(auto, unfolding(crate::specs::Statement::two_operands), using(crate::proofs::OperandLaws::two_wrong))]
pub(crate) fn register_and_name<'a>(lexemes: &'a [Lexeme<'a>]) -> Result<(Reg, &'a [u8]), AsmKind>
    ensures { HasFrom (λ r. (r.0, r.1.now)) result (two_operands register_of name_of (operands_of (lexes lexemes.now))) }
{
    let (a, b) = two(lexemes)?;
    let x = register_in(a).ok_or(AsmKind::BadOperand)?;
    let y = name_in(b).ok_or(AsmKind::BadOperand)?;
    Ok((x, y))
}

/// A register and an integer, which beyond 2^64 and -2^64 is these.
#[tactic(auto, unfolding(crate::specs::Statement::two_operands), using(crate::proofs::OperandLaws::two_wrong))]
pub(crate) fn register_and_integer<'a>(lexemes: &'a [Lexeme<'a>]) -> Result<(Reg, i128), AsmKind>
    ensures { ReadsCapped (λ r z. (r.0, z)) (λ r. r.1) result (two_operands register_of integer_of (operands_of (lexes lexemes.now))) }
{
    let (a, b) = two(lexemes)?;
    let x = register_in(a).ok_or(AsmKind::BadOperand)?;
    let y = integer_in(b).ok_or(AsmKind::BadOperand)?;
    Ok((x, y))
}

/// A register and a place in memory.
#[tactic(auto, unfolding(crate::specs::Statement::two_operands), using(crate::proofs::OperandLaws::two_wrong))]
pub(crate) fn register_and_memory<'a>(lexemes: &'a [Lexeme<'a>]) -> Result<(Reg, Place), AsmKind>
    ensures { ReadsCapped (λ r z. (r.0, memory_with r.1.base z)) (λ r. r.1.offset) result (two_operands register_of memory_of (operands_of (lexes lexemes.now))) }
{
    let (a, b) = two(lexemes)?;
    let x = register_in(a).ok_or(AsmKind::BadOperand)?;
    let y = memory_in(b).ok_or(AsmKind::BadOperand)?;
    Ok((x, y))
}

#[tactic(auto, unfolding(crate::specs::Statement::three_operands), using(crate::proofs::OperandLaws::three_wrong))]
pub(crate) fn three_registers<'a>(lexemes: &'a [Lexeme<'a>]) -> Result<(Reg, Reg, Reg), AsmKind>
    ensures { result ≡ three_operands register_of register_of register_of (operands_of (lexes lexemes.now)) }
{
    let (a, b, c) = three(lexemes)?;
    let x = register_in(a).ok_or(AsmKind::BadOperand)?;
    let y = register_in(b).ok_or(AsmKind::BadOperand)?;
    let z = register_in(c).ok_or(AsmKind::BadOperand)?;
    Ok((x, y, z))
}

/// Two registers and an integer, which beyond 2^64 and -2^64 is these.
#[tactic(auto, unfolding(crate::specs::Statement::three_operands), using(crate::proofs::OperandLaws::three_wrong))]
pub(crate) fn two_registers_and_integer<'a>(
    lexemes: &'a [Lexeme<'a>],
) -> Result<(Reg, Reg, i128), AsmKind>
    ensures { ReadsCapped (λ r z. (r.0, r.1, z)) (λ r. r.2) result (three_operands register_of register_of integer_of (operands_of (lexes lexemes.now))) }
{
    let (a, b, c) = three(lexemes)?;
    let x = register_in(a).ok_or(AsmKind::BadOperand)?;
    let y = register_in(b).ok_or(AsmKind::BadOperand)?;
    let z = integer_in(c).ok_or(AsmKind::BadOperand)?;
    Ok((x, y, z))
}

#[tactic(auto, unfolding(crate::specs::Statement::three_operands), using(crate::proofs::OperandLaws::three_wrong))]
pub(crate) fn two_registers_and_name<'a>(
    lexemes: &'a [Lexeme<'a>],
) -> Result<(Reg, Reg, &'a [u8]), AsmKind>
    ensures { HasFrom (λ r. (r.0, r.1, r.2.now)) result (three_operands register_of register_of name_of (operands_of (lexes lexemes.now))) }
{
    let (a, b, c) = three(lexemes)?;
    let x = register_in(a).ok_or(AsmKind::BadOperand)?;
    let y = register_in(b).ok_or(AsmKind::BadOperand)?;
    let z = name_in(c).ok_or(AsmKind::BadOperand)?;
    Ok((x, y, z))
}

/// Two integers, which beyond 2^64 and -2^64 are these.
#[tactic(auto, unfolding(crate::specs::Statement::two_operands), using(crate::proofs::OperandLaws::two_wrong))]
pub(crate) fn two_integers<'a>(lexemes: &'a [Lexeme<'a>]) -> Result<(i128, i128), AsmKind>
    ensures { ReadsTwoCapped result (two_operands integer_of integer_of (operands_of (lexes lexemes.now))) }
{
    let (a, b) = two(lexemes)?;
    let x = integer_in(a).ok_or(AsmKind::BadOperand)?;
    let y = integer_in(b).ok_or(AsmKind::BadOperand)?;
    Ok((x, y))
}

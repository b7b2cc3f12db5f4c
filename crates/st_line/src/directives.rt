//! Statements of the directives.
ghost use Rattle.std.specs.Prelude.{◌≡◌, ◌++◌, true, pos, ℤ, [], is_some, IfOk, OnOk};
ghost use Rattle.st_line.specs.Operands.{operands_of, parts_of, string_of};
ghost use Rattle.st_line.specs.Statement.{one_operand, data_range, data_bytes, little_endian, numbers_statement, is_rodata, directive_statement};
ghost use Rattle.st_line.specs.Views.{capped, lexes, Gives, GivesBy, word_in, with_number, numbers_after};

use crate::fault::{AsmKind, LineError};
use crate::forms::{integer, name, nothing, register, two_integers};
use crate::integer::{count_up_to, word_in};
use crate::lexeme::Lexeme;
use crate::operand::{integer_in, one, split_operand};
use crate::source::{SourceIns, Statement};
use crate::text::string_in;
use crate::words::{Directive, NumberSize};
use st_base::path::Bytes;
use std::alloc::{AllocError, Global};

/// The range of a number of data of k bits: from -2^(k-1) to 2^k - 1.
fn data_range(size: NumberSize) -> (i64, u64)
    ensures { (result.0, pos result.1) ≡ data_range size }
{
    match size {
        NumberSize::Byte => (-0x80, 0xff),
        NumberSize::Half => (-0x8000, 0xffff),
        NumberSize::Word => (-0x8000_0000, 0xffff_ffff),
        NumberSize::Double => (i64::MIN, u64::MAX),
    }
}

/// How many bytes a number has.
fn data_bytes(size: NumberSize) -> usize
    ensures { result ≡ data_bytes size }
{
    match size {
        NumberSize::Byte => 1,
        NumberSize::Half => 2,
        NumberSize::Word => 4,
        NumberSize::Double => 8,
    }
}

/// Adds so many low bytes of a word, the lowest first.
#[tactic(auto, using(crate::proofs::Numbers::little_endian_more))]
fn push_word(bytes: &mut Vec<u8>, count: usize, word: u64) -> Result<(), AllocError>
    ensures { OnOk result (bytes.new.items ≡ bytes.old.items ++ little_endian count word) }
{
    let mut left = count;
    let mut rest = word;
    while left > 0 {
        bytes.push((rest % 256) as u8)?;
        rest /= 256;
        left -= 1;
    }
    Ok(())
}

/// Adds the bytes of a number that was read, where it lies in its range; whether it does.
fn push_number(bytes: &mut Vec<u8>, size: NumberSize, n: i128) -> Result<bool, AllocError>
    ensures fits { (z : ℤ) → n ≡ capped z → IfOk result (λ fits. fits ≡ is_some (word_in (data_range size) z)) }
    ensures bytes { (z : ℤ) → n ≡ capped z → OnOk result (bytes.new.items ≡ with_number size bytes.old.items (word_in (data_range size) z)) }
{
    let (low, high) = data_range(size);
    match word_in(low, high, n) {
        Some(word) => {
            push_word(bytes, data_bytes(size), word)?;
            Ok(true)
        }
        None => Ok(false),
    }
}

/// The bytes of all operands, each a number; a wrong form counts before a number out of its range.
fn numbers_in<'a>(
    alloc: Global,
    size: NumberSize,
    lexemes: &'a [Lexeme<'a>],
) -> Result<Statement, LineError>
    ensures { Gives result (numbers_after size true [] (parts_of (lexes lexemes.now))) }
{
    let mut bytes = Vec::new(alloc);
    let mut fits = true;
    let mut left = Some(lexemes);
    while let Some(rest) = left {
        let (operand, after) = split_operand(rest);
        let n = integer_in(operand).ok_or(AsmKind::BadOperand)?;
        fits &= push_number(&mut bytes, size, n)?;
        left = after;
    }
    if fits {
        Ok(Statement::Data(Bytes::from_vec(bytes)))
    } else {
        Err(LineError::Fault(AsmKind::ImmRange))
    }
}

/// `.byte` and its kin: at least one number.
fn numbers<'a>(
    alloc: Global,
    size: NumberSize,
    lexemes: &'a [Lexeme<'a>],
) -> Result<Statement, LineError>
    ensures { Gives result (numbers_statement size (operands_of (lexes lexemes.now))) }
{
    if lexemes.is_empty() {
        return Err(LineError::Fault(AsmKind::BadOperand));
    }
    numbers_in(alloc, size, lexemes)
}

/// The bytes of the only operand, a string.
#[tactic(auto, using(crate::proofs::OperandLaws::one_wrong))]
fn string<'a>(alloc: Global, lexemes: &'a [Lexeme<'a>]) -> Result<Vec<u8>, LineError>
    ensures { GivesBy (λ bytes. bytes.items) result (one_operand string_of (operands_of (lexes lexemes.now))) }
{
    let operand = one(lexemes)?;
    Ok(string_in(alloc, operand)?.ok_or(AsmKind::BadOperand)?)
}

#[tactic(auto, unfolding(crate::specs::Statement::directive_statement))]
fn text(lexemes: &[Lexeme<'_>]) -> Result<Statement, AsmKind>
    ensures { result ≡ directive_statement Directive.Text (operands_of (lexes lexemes.now)) }
{
    nothing(lexemes)?;
    Ok(Statement::Code)
}

#[tactic(auto, unfolding(crate::specs::Statement::directive_statement))]
fn section<'a>(lexemes: &'a [Lexeme<'a>]) -> Result<Statement, AsmKind>
    ensures { result ≡ directive_statement Directive.Section (operands_of (lexes lexemes.now)) }
{
    let section = name(lexemes)?;
    if section == b".rodata".as_slice() {
        Ok(Statement::Rodata)
    } else {
        Err(AsmKind::BadOperand)
    }
}

#[tactic(auto, unfolding(crate::specs::Statement::directive_statement))]
fn align<'a>(lexemes: &'a [Lexeme<'a>]) -> Result<Statement, AsmKind>
    ensures { result ≡ directive_statement Directive.Align (operands_of (lexes lexemes.now)) }
{
    let n = integer(lexemes)?;
    let power = count_up_to(12, n)?;
    Ok(Statement::Align { power })
}

#[tactic(auto, unfolding(crate::specs::Statement::directive_statement))]
fn ascii<'a>(alloc: Global, lexemes: &'a [Lexeme<'a>]) -> Result<Statement, LineError>
    ensures { Gives result (directive_statement Directive.Ascii (operands_of (lexes lexemes.now))) }
{
    let bytes = string(alloc, lexemes)?;
    Ok(Statement::Data(Bytes::from_vec(bytes)))
}

#[tactic(auto, unfolding(crate::specs::Statement::directive_statement))]
fn asciz<'a>(alloc: Global, lexemes: &'a [Lexeme<'a>]) -> Result<Statement, LineError>
    ensures { Gives result (directive_statement Directive.Asciz (operands_of (lexes lexemes.now))) }
{
    let mut bytes = string(alloc, lexemes)?;
    bytes.push(0)?;
    Ok(Statement::Data(Bytes::from_vec(bytes)))
}

#[tactic(auto, unfolding(crate::specs::Statement::directive_statement))]
fn zeros<'a>(lexemes: &'a [Lexeme<'a>]) -> Result<Statement, AsmKind>
    ensures { result ≡ directive_statement Directive.Zero (operands_of (lexes lexemes.now)) }
{
    let n = integer(lexemes)?;
    let count = count_up_to(1_048_576, n)?;
    Ok(Statement::Zeros { count })
}

#[tactic(auto, unfolding(crate::specs::Statement::directive_statement))]
fn arguments<'a>(lexemes: &'a [Lexeme<'a>]) -> Result<Statement, AsmKind>
    ensures { result ≡ directive_statement Directive.Arguments (operands_of (lexes lexemes.now)) }
{
    let (k, m) = two_integers(lexemes)?;
    let ints = count_up_to(6, k)?;
    let handles = count_up_to(2, m)?;
    Ok(Statement::Arguments { ints, handles })
}

#[tactic(auto, unfolding(crate::specs::Statement::directive_statement))]
fn handles<'a>(lexemes: &'a [Lexeme<'a>]) -> Result<Statement, AsmKind>
    ensures { result ≡ directive_statement Directive.Handles (operands_of (lexes lexemes.now)) }
{
    let n = integer(lexemes)?;
    let slots = count_up_to(252, n)?;
    Ok(Statement::Handles { slots })
}

#[tactic(auto, unfolding(crate::specs::Statement::directive_statement))]
fn fork<'a>(lexemes: &'a [Lexeme<'a>]) -> Result<Statement, AsmKind>
    ensures { result ≡ directive_statement Directive.Fork (operands_of (lexes lexemes.now)) }
{
    let handle = register(lexemes)?;
    Ok(Statement::Instruction(SourceIns::Fork { handle }))
}

/// The statement of a directive with these operands.
#[tactic(auto, unfolding(crate::specs::Statement::directive_statement))]
pub(crate) fn read_directive<'a>(
    alloc: Global,
    directive: Directive,
    lexemes: &'a [Lexeme<'a>],
) -> Result<Statement, LineError>
    ensures { Gives result (directive_statement directive (operands_of (lexes lexemes.now))) }
{
    match directive {
        Directive::Text => Ok(text(lexemes)?),
        Directive::Section => Ok(section(lexemes)?),
        Directive::Ignored => Ok(Statement::Ignored),
        Directive::Align => Ok(align(lexemes)?),
        Directive::Numbers(size) => numbers(alloc, size, lexemes),
        Directive::Ascii => ascii(alloc, lexemes),
        Directive::Asciz => asciz(alloc, lexemes),
        Directive::Zero => Ok(zeros(lexemes)?),
        Directive::Arguments => Ok(arguments(lexemes)?),
        Directive::Handles => Ok(handles(lexemes)?),
        Directive::Fork => Ok(fork(lexemes)?),
    }
}

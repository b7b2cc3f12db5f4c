//! Operands of a statement: the parts between commas, and what one may be: a register, an integer, a place in memory, a
//! name. What isn't of its form is none.
ghost use Rattle.std.specs.Prelude.{◌≡◌, ◌<◌, ◌∷◌, [], IfOk, IfErr, IfSome, Option, ℤ, length, option_map};
ghost use Rattle.st_line.specs.Operands.{operands_of, parts_of, register_of, integer_of, memory_of, memory_at, name_of, bracketed};
ghost use Rattle.st_line.specs.Views.{lex_of, lexes, operand_list, before_comma, after_comma, parts_left, ReadsInteger, ReadsPlace, IsOne, AreTwo, AreThree};

use crate::fault::AsmKind;
use crate::integer::integer;
use crate::lexeme::{Lexeme, is_name};
use crate::words::register_named;
use arrayvec::ArrayVec;
use st_base::reg::Reg;

/// The lexemes of an operand.
#[derive(Clone, Copy, Debug, Default)]
struct Operand<'a> {
    lexemes: &'a [Lexeme<'a>],
}

/// A place in memory, so many bytes from a register's value; an offset beyond 2^64 or -2^64 is that.
#[derive(Clone, Copy, Debug)]
pub(crate) struct Place {
    pub offset: i128,
    pub base: Reg,
}

/// The lexemes before the first comma, and those behind it.
fn cut_at_comma<'a>(lexemes: &'a [Lexeme<'a>]) -> (&'a [Lexeme<'a>], Option<&'a [Lexeme<'a>]>)
    ensures before { lexes result.0.now ≡ before_comma (lexes lexemes.now) }
    ensures after { option_map (λ ls. lexes ls.now) result.1 ≡ after_comma (lexes lexemes.now) }
    ensures shorter { IfSome result.1 (λ ls. length ls.now < length lexemes.now) }
{
    for (i, lexeme) in lexemes.iter().enumerate() {
        if lexeme.is_mark(b',') {
            let (before, rest) = lexemes.split_at(i);
            return (before, Some(&rest[1..]));
        }
    }
    (lexemes, None)
}

/// The first operand of these, and what follows its comma.
#[tactic(auto, using(crate::proofs::OperandLaws::parts_cut))]
pub(crate) fn split_operand<'a>(
    lexemes: &'a [Lexeme<'a>],
) -> (&'a [Lexeme<'a>], Option<&'a [Lexeme<'a>]>)
    ensures parts { parts_of (lexes lexemes.now) ≡ lexes result.0.now ∷ parts_left (option_map (λ ls. lexes ls.now) result.1) }
    ensures shorter { IfSome result.1 (λ ls. length ls.now < length lexemes.now) }
{
    cut_at_comma(lexemes)
}

/// The operands of a statement that takes at most three; a fourth is one too many.
fn operands_in<'a>(lexemes: &'a [Lexeme<'a>]) -> Result<ArrayVec<Operand<'a>, 3>, AsmKind>
    ensures found { IfOk result (λ found. operand_list found.items ≡ operands_of (lexes lexemes.now)) }
    ensures kind { IfErr result (λ kind. kind ≡ AsmKind.BadOperand) }
    ensures too_many { IfErr result (λ kind. 3 < length (operands_of (lexes lexemes.now))) }
{
    let mut found = ArrayVec::new();
    if lexemes.is_empty() {
        return Ok(found);
    }
    let mut left = Some(lexemes);
    while let Some(rest) = left {
        if found.is_full() {
            return Err(AsmKind::BadOperand);
        }
        let (operand, after) = split_operand(rest);
        found.push(Operand { lexemes: operand });
        left = after;
    }
    Ok(found)
}

/// The only operand.
pub(crate) fn one<'a>(lexemes: &'a [Lexeme<'a>]) -> Result<&'a [Lexeme<'a>], AsmKind>
    ensures { IsOne result (operands_of (lexes lexemes.now)) }
{
    let operands = operands_in(lexemes)?;
    match operands.as_slice() {
        [a] => Ok(a.lexemes),
        _ => Err(AsmKind::BadOperand),
    }
}

/// Both operands, where there are two.
pub(crate) fn two<'a>(
    lexemes: &'a [Lexeme<'a>],
) -> Result<(&'a [Lexeme<'a>], &'a [Lexeme<'a>]), AsmKind>
    ensures { AreTwo result (operands_of (lexes lexemes.now)) }
{
    let operands = operands_in(lexemes)?;
    match operands.as_slice() {
        [a, b] => Ok((a.lexemes, b.lexemes)),
        _ => Err(AsmKind::BadOperand),
    }
}

/// The operands, where there are three.
pub(crate) fn three<'a>(
    lexemes: &'a [Lexeme<'a>],
) -> Result<(&'a [Lexeme<'a>], &'a [Lexeme<'a>], &'a [Lexeme<'a>]), AsmKind>
    ensures { AreThree result (operands_of (lexes lexemes.now)) }
{
    let operands = operands_in(lexemes)?;
    match operands.as_slice() {
        [a, b, c] => Ok((a.lexemes, b.lexemes, c.lexemes)),
        _ => Err(AsmKind::BadOperand),
    }
}

/// The register that an operand names.
pub(crate) fn register_in(operand: &[Lexeme<'_>]) -> Option<Reg>
    ensures { result ≡ register_of (lexes operand.now) }
{
    match operand {
        [only] => register_named(only.text),
        _ => None,
    }
}

/// The name that an operand is.
pub(crate) fn name_in<'a>(operand: &[Lexeme<'a>]) -> Option<&'a [u8]>
    ensures { option_map (λ n. n.now) result ≡ name_of (lexes operand.now) }
{
    match operand {
        [only] if is_name(only.text) => Some(only.text),
        _ => None,
    }
}

/// The integer that an operand is; beyond 2^64 and -2^64 it is these.
pub(crate) fn integer_in(operand: &[Lexeme<'_>]) -> Option<i128>
    ensures { ReadsInteger result (integer_of (lexes operand.now)) }
{
    match operand {
        [only] => integer(only.text),
        _ => None,
    }
}

/// A register in parentheses, without blanks.
fn bracketed(left: &Lexeme<'_>, base: &Lexeme<'_>, right: &Lexeme<'_>) -> Option<Reg>
    ensures { result ≡ bracketed (lex_of left.now) (lex_of base.now) (lex_of right.now) }
{
    if left.is_mark(b'(') && right.is_mark(b')') && base.glued && right.glued {
        register_named(base.text)
    } else {
        None
    }
}

/// The place of this offset from this register, where both are there.
fn place_at(offset: Option<i128>, base: Option<Reg>) -> Option<Place>
    ensures { (read : Option ℤ) → ReadsInteger offset read → ReadsPlace result (memory_at read base) }
{
    let offset = offset?;
    let base = base?;
    Some(Place { offset, base })
}

/// The place in memory that an operand is: `n(reg)`, or `(reg)`, which is `0(reg)`.
pub(crate) fn memory_in(operand: &[Lexeme<'_>]) -> Option<Place>
    ensures { ReadsPlace result (memory_of (lexes operand.now)) }
{
    match operand {
        [left, base, right] => place_at(Some(0), bracketed(left, base, right)),
        [number, left, base, right] if left.glued => place_at(
            integer(number.text),
            bracketed(left, base, right),
        ),
        _ => None,
    }
}

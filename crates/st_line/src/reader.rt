//! A line as a whole: the label that it defines, and its statement or the least fault in it.
ghost use Rattle.std.specs.Prelude.{◌≡◌, IfOk, option_map};
ghost use Rattle.st_line.specs.Operands.{operands_of};
ghost use Rattle.st_line.specs.Statement.{line_label, line_statement, statement_of, word_statement};
ghost use Rattle.st_line.specs.Views.{lexes, Gives};

use crate::directives::read_directive;
use crate::fault::{AsmKind, LineError};
use crate::lexeme::{Lexeme, is_allowed, lexemes, split_label, split_word};
use crate::pseudos::read_pseudo;
use crate::rows::read_row;
use crate::source::{Standing, Statement};
use crate::words::{Word, may_stand, word_named};
use std::alloc::{AllocError, Global};

/// The label that a line defines, whatever else stands on it; a line with a byte that isn't allowed defines none.
pub fn line_label<'a>(alloc: Global, text: &'a [u8]) -> Result<Option<&'a [u8]>, AllocError>
    ensures { IfOk result (λ label. option_map (λ n. n.now) label ≡ line_label text.now) }
{
    if !is_allowed(text) {
        return Ok(None);
    }
    // Without a colon there is no label, and no need to look for lexemes.
    if !text.contains(&b':') {
        return Ok(None);
    }
    let lexemes = lexemes(alloc, text)?;
    let (label, _) = split_label(&lexemes);
    Ok(label)
}

/// The statement of a word with these operands.
fn read_word<'a>(
    alloc: Global,
    word: Word,
    lexemes: &'a [Lexeme<'a>],
) -> Result<Statement, LineError>
    ensures { Gives result (word_statement word (operands_of (lexes lexemes.now))) }
{
    match word {
        Word::Row(op) => Ok(Statement::Instruction(read_row(alloc, op, lexemes)?)),
        Word::Pseudo(pseudo) => Ok(Statement::Instruction(read_pseudo(alloc, pseudo, lexemes)?)),
        Word::Directive(directive) => read_directive(alloc, directive, lexemes),
    }
}

/// The statement of these lexemes, where it stands so; none where there are none.
#[tactic(auto, unfolding(crate::specs::Statement::statement_of))]
fn read_statement<'a>(
    alloc: Global,
    standing: Standing,
    lexemes: &'a [Lexeme<'a>],
) -> Result<Option<Statement>, LineError>
    ensures { Gives result (statement_of standing (lexes lexemes.now)) }
{
    if lexemes.is_empty() {
        return Ok(None);
    }
    let (name, rest) = split_word(lexemes)?;
    let word = word_named(name).ok_or(AsmKind::UnknownName)?;
    if !may_stand(standing, word) {
        return Err(LineError::Fault(AsmKind::BadLine));
    }
    let statement = read_word(alloc, word, rest)?;
    Ok(Some(statement))
}

/// The statement behind a line's label, where it stands so; none on a line without one. `Fault` comes with the least kind
/// of E1 to E5 that the line has.
#[tactic(auto, unfolding(crate::specs::Statement::line_statement))]
pub fn read_line(
    alloc: Global,
    standing: Standing,
    text: &[u8],
) -> Result<Option<Statement>, LineError>
    ensures { Gives result (line_statement standing text.now) }
{
    if !is_allowed(text) {
        return Err(LineError::Fault(AsmKind::NotAscii));
    }
    let lexemes = lexemes(alloc, text)?;
    let (_, rest) = split_label(&lexemes);
    read_statement(alloc, standing, rest)
}

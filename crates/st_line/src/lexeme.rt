//! Lexemes of a line: its tokens by their texts. A lexeme knows whether it follows the one before it directly, by which
//! the grammar tells `name:` from `name :`, and `n(reg)` from `n (reg)`.
ghost use Rattle.std.specs.Prelude.{◌≡◌, IfOk, option_map};
ghost use Rattle.std.specs.List.{list_all};
ghost use Rattle.st_line.specs.Operands.{is_mark, is_name, begins_name, in_name, lexemes_of};
ghost use Rattle.st_line.specs.Statement.{is_allowed, label_and_rest, word_and_rest};
ghost use Rattle.st_line.specs.Views.{HasFrom, lex_of, lexes};

use crate::fault::AsmKind;
use crate::lexer::tokens;
use std::alloc::{AllocError, Global};

/// A token's text, and whether it follows the token before it directly.
#[derive(Clone, Copy, Debug)]
pub(crate) struct Lexeme<'a> {
    pub text: &'a [u8],
    pub glued: bool,
}

impl Lexeme<'_> {
    /// Whether it is this byte alone.
    pub(crate) fn is_mark(&self, byte: u8) -> bool
        ensures { result ≡ is_mark byte (lex_of self.now) }
    {
        self.text == [byte].as_slice()
    }
}

/// The lexemes of a line.
pub(crate) fn lexemes<'a>(alloc: Global, line: &'a [u8]) -> Result<Vec<Lexeme<'a>>, AllocError>
    ensures { IfOk result (λ found. lexes found.items ≡ lexemes_of line.now) }
{
    let tokens = tokens(alloc, line)?;
    let mut found = Vec::with_capacity(alloc, tokens.len())?;
    let mut before = 0;
    for token in &tokens {
        found.push(Lexeme {
            text: &line[token.from..token.to],
            glued: token.from == before,
        })?;
        before = token.to;
    }
    Ok(found)
}

fn begins_name(byte: u8) -> bool
    ensures { result ≡ begins_name byte }
{
    byte.is_ascii_alphabetic() || matches!(byte, b'_' | b'.' | b'$')
}

fn in_name(byte: u8) -> bool
    ensures { result ≡ in_name byte }
{
    begins_name(byte) || byte.is_ascii_digit()
}

fn all_in_name(text: &[u8]) -> bool
    ensures { result ≡ list_all in_name text.now }
{
    text.iter().all(|byte| in_name(*byte))
}

/// Whether this is a name: a letter, `_`, `.` or `$`, and then these and digits.
pub fn is_name(text: &[u8]) -> bool
    ensures { result ≡ is_name text.now }
{
    match text {
        [] => false,
        [first, rest @ ..] => begins_name(*first) && all_in_name(rest),
    }
}

/// Whether a text has only tabs, line feeds, carriage returns and printable characters.
pub(crate) fn is_allowed(text: &[u8]) -> bool
    ensures { result ≡ list_all is_allowed text.now }
{
    text.iter()
        .all(|byte| matches!(byte, b'\t' | b'\n' | b'\r' | b' '..=b'~'))
}

/// The label at a line's beginning, and what follows it.
pub(crate) fn split_label<'t, 'a>(lexemes: &'t [Lexeme<'a>]) -> (Option<&'a [u8]>, &'t [Lexeme<'a>])
    ensures { (option_map (λ n. n.now) result.0, lexes result.1.now) ≡ label_and_rest (lexes lexemes.now) }
{
    match lexemes {
        [name, colon, rest @ ..] if is_name(name.text) && colon.glued && colon.is_mark(b':') => {
            (Some(name.text), rest)
        }
        _ => (None, lexemes),
    }
}

/// A statement's first word, behind which a blank stands where anything follows, and the rest.
pub(crate) fn split_word<'t, 'a>(
    lexemes: &'t [Lexeme<'a>],
) -> Result<(&'a [u8], &'t [Lexeme<'a>]), AsmKind>
    ensures { HasFrom (λ w. (w.0.now, lexes w.1.now)) result (word_and_rest (lexes lexemes.now)) }
{
    match lexemes {
        [name] if is_name(name.text) => Ok((name.text, &[])),
        [name, next, ..] if is_name(name.text) && !next.glued => Ok((name.text, &lexemes[1..])),
        _ => Err(AsmKind::BadLine),
    }
}

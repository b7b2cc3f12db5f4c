//! Strings: in double quotes, with the escapes `\n`, `\t`, `\0`, `\\` and `\"`.
ghost use Rattle.std.specs.Prelude.{◌≡◌, ◌<◌, ◌==◌, if◌then◌else◌, Some, None, IfOk, MatchOption, length, [], option_map};
ghost use Rattle.st_line.specs.Operands.{escape, string_rest, string, string_of, with_byte};
ghost use Rattle.st_line.specs.Views.{lexes, closes, StringStep};

use crate::lexeme::Lexeme;
use std::alloc::{AllocError, Global};

/// The byte for which a backslash and this byte stand.
fn escape(byte: u8) -> Option<u8>
    ensures { result ≡ escape byte }
{
    match byte {
        b'n' => Some(b'\n'),
        b't' => Some(b'\t'),
        b'0' => Some(0),
        b'\\' => Some(b'\\'),
        b'"' => Some(b'"'),
        _ => None,
    }
}

/// The next byte of a string, and what follows it; none where the string ends or is wrong.
fn next_byte(text: &[u8]) -> Option<(u8, &[u8])>
    ensures { StringStep result text.now }
{
    match text {
        [] | [_] | [b'"', ..] => None,
        [b'\\', escaped, rest @ ..] => Some((escape(*escaped)?, rest)),
        [byte, ..] => Some((*byte, &text[1..])),
    }
}

/// The bytes of a string behind its first quote; none where it isn't closed or has another escape.
#[tactic(auto, using(crate::proofs::Strings::with_front_more))]
fn string_rest(alloc: Global, text: &[u8]) -> Result<Option<Vec<u8>>, AllocError>
    ensures { IfOk result (λ found. option_map (λ v. v.items) found ≡ string_rest text.now) }
{
    let mut found = Vec::new(alloc);
    let mut left = text;
    while let Some((byte, rest)) = next_byte(left) {
        found.push(byte)?;
        left = rest;
    }
    if left == b"\"".as_slice() {
        Ok(Some(found))
    } else {
        Ok(None)
    }
}

/// The bytes of the string that an operand is.
pub(crate) fn string_in(
    alloc: Global,
    operand: &[Lexeme<'_>],
) -> Result<Option<Vec<u8>>, AllocError>
    ensures { IfOk result (λ found. option_map (λ v. v.items) found ≡ string_of (lexes operand.now)) }
{
    match operand {
        [only] => string_text(alloc, only.text),
        _ => Ok(None),
    }
}

fn string_text(alloc: Global, text: &[u8]) -> Result<Option<Vec<u8>>, AllocError>
    ensures { IfOk result (λ found. option_map (λ v. v.items) found ≡ string text.now) }
{
    match text {
        [b'"', rest @ ..] => string_rest(alloc, rest),
        _ => Ok(None),
    }
}

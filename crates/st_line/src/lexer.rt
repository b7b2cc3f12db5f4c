//! Tokens of a text: what stands between blanks, marks and comments.
ghost use Rattle.std.specs.Prelude.{◌≡◌, ◌≤◌, length, IfOk, All};
ghost use Rattle.st_line.specs.Tokens.{AreTokens, class_of, begin, step, continues, is_in_token, tokens_of};

use std::alloc::{AllocError, Global};

/// A token is the bytes of its text from `from` up to `to`, both counted from 0.
#[derive(Clone, Copy, Debug, PartialEq, Eq)]
pub struct Token {
    pub from: usize,
    pub to: usize,
}

/// What a byte is to a lexer.
#[derive(Clone, Copy, Debug, PartialEq, Eq)]
pub(crate) enum Class {
    /// A space, a tab or a carriage return.
    Blank,
    LineEnd,
    /// `#`, which begins a comment.
    Hash,
    Quote,
    Backslash,
    /// `,`, `:`, `(` or `)`: a token by itself.
    Mark,
    Other,
}

/// Where a byte stands.
#[derive(Clone, Copy, Debug, PartialEq, Eq)]
pub(crate) enum Mode {
    /// In no token.
    Gap,
    Comment,
    /// It is a mark.
    Single,
    /// In a run of other bytes.
    Run,
    /// In a string, or its first quote.
    Text,
    /// The backslash of an escape in a string.
    Escape,
    /// The last quote of a string.
    Closed,
}

impl Class {
    /// What this byte is.
    fn of_byte(byte: u8) -> Class
        ensures { result ≡ class_of byte }
    {
        match byte {
            b'\n' => Class::LineEnd,
            b' ' | b'\t' | b'\r' => Class::Blank,
            b'#' => Class::Hash,
            b'"' => Class::Quote,
            b'\\' => Class::Backslash,
            b',' | b':' | b'(' | b')' => Class::Mark,
            _ => Class::Other,
        }
    }

    /// Where a byte of this class stands that begins something.
    fn first_mode(self) -> Mode
        ensures { result ≡ begin self }
    {
        match self {
            Class::LineEnd | Class::Blank => Mode::Gap,
            Class::Hash => Mode::Comment,
            Class::Quote => Mode::Text,
            Class::Mark => Mode::Single,
            Class::Backslash | Class::Other => Mode::Run,
        }
    }
}

impl Mode {
    /// Where a byte stands behind one that stands so.
    fn step(self, class: Class) -> Mode
        ensures { result ≡ step self class }
    {
        match (self, class) {
            (Mode::Comment | Mode::Text | Mode::Escape, Class::LineEnd) => Mode::Gap,
            (Mode::Comment, _) => Mode::Comment,
            (Mode::Text, Class::Quote) => Mode::Closed,
            (Mode::Text, Class::Backslash) => Mode::Escape,
            (Mode::Text | Mode::Escape, _) => Mode::Text,
            _ => class.first_mode(),
        }
    }

    /// Whether a byte belongs to the token of the byte before it, which stands so.
    fn continues(self, class: Class) -> bool
        ensures { result ≡ continues self class }
    {
        match self {
            Mode::Text | Mode::Escape => class != Class::LineEnd,
            Mode::Run => matches!(class, Class::Backslash | Class::Other),
            _ => false,
        }
    }

    /// Whether a byte that stands so is a token's.
    fn is_in_token(self) -> bool
        ensures { result ≡ is_in_token self }
    {
        !matches!(self, Mode::Gap | Mode::Comment)
    }
}

/// The tokens of a text, byte by byte.
fn cut_tokens(alloc: Global, text: &[u8]) -> Result<Vec<Token>, AllocError>
    ensures exact { IfOk result (λ found. found.items ≡ tokens_of text.now) }
    ensures spans { IfOk result (λ found. All (λ t. (t.from ≤ t.to) × (t.to ≤ length text.now)) found.items) }
{
    let mut found = Vec::new(alloc);
    let mut mode = Mode::Gap;
    let mut from = 0;
    for (i, byte) in text.iter().enumerate() {
        let class = Class::of_byte(*byte);
        if !mode.continues(class) {
            if mode.is_in_token() {
                found.push(Token { from, to: i })?;
            }
            from = i;
        }
        mode = mode.step(class);
    }
    if mode.is_in_token() {
        found.push(Token {
            from,
            to: text.len(),
        })?;
    }
    Ok(found)
}

/// The tokens of a text, in order: each is one of the bytes `,`, `:`, `(` and `)`, a string with its quotes, or a longest
/// run of other bytes without a quote, blank or line end, outside comments; what stands between tokens is blank, a line
/// end or in a comment.
pub fn tokens(alloc: Global, text: &[u8]) -> Result<Vec<Token>, AllocError>
    ensures exact { IfOk result (λ found. found.items ≡ tokens_of text.now) }
    ensures spans { IfOk result (λ found. All (λ t. (t.from ≤ t.to) × (t.to ≤ length text.now)) found.items) }
    ensures meaning { IfOk result (λ found. AreTokens text.now found.items) }
{
    let found = cut_tokens(alloc, text)?;
    Ok(found)
}

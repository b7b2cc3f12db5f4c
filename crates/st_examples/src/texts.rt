//! Texts with names, and the inputs that are written with them.
use std::alloc::{AllocError, Global};

/// Texts by their names.
#[derive(Drop)]
pub struct Texts {
    alloc: Global,
    named: Vec<(String, Vec<u8>)>,
}

impl Texts {
    pub fn new(alloc: Global) -> Texts {
        Texts {
            alloc,
            named: Vec::new(alloc),
        }
    }

    pub fn add(&mut self, name: &str, text: &[u8]) -> Result<(), AllocError> {
        let text = Vec::from_slice(self.alloc, text)?;
        self.named
            .push((String::from_str(self.alloc, name)?, text))?;
        Ok(())
    }

    /// The text that was given this name last; `?` where there is none.
    fn find(&self, name: &str) -> &[u8] {
        for (known, text) in self.named.iter().rev() {
            if known.as_str() == name {
                return text.as_slice();
            }
        }
        b"?"
    }
}

/// Adds a number in six digits.
fn push_digits(out: &mut Vec<u8>, number: u32) -> Result<(), AllocError> {
    for place in [100_000, 10_000, 1_000, 100, 10, 1u32] {
        out.push((number / place % 10) as u8 + b'0')?;
    }
    Ok(())
}

/// The byte that stands behind a backslash.
fn escape(byte: u8) -> u8 {
    match byte {
        b'n' => b'\n',
        b't' => b'\t',
        b'r' => b'\r',
        _ => byte,
    }
}

/// Adds a piece: a byte behind a backslash is an escape, and `%` is the number.
fn push_piece(out: &mut Vec<u8>, piece: &str, number: u32) -> Result<(), AllocError> {
    let mut is_escaped = false;
    for byte in piece.as_bytes() {
        if is_escaped {
            out.push(escape(*byte))?;
            is_escaped = false;
        } else if *byte == b'\\' {
            is_escaped = true;
        } else if *byte == b'%' {
            push_digits(out, number)?;
        } else {
            out.push(*byte)?;
        }
    }
    Ok(())
}

/// Adds a piece in which `<NAME>` is the text of that name.
fn push_named(out: &mut Vec<u8>, texts: &Texts, piece: &str) -> Result<(), AllocError> {
    for part in piece.split('<') {
        match part.split_once('>') {
            Some((name, rest)) => {
                out.extend_from_slice(texts.find(name))?;
                push_piece(out, rest, 0)?;
            }
            None => push_piece(out, part, 0)?,
        }
    }
    Ok(())
}

/// Adds the piece of `COUNT*PIECE` so often.
fn push_repeated(out: &mut Vec<u8>, repeated: &str) -> Result<(), AllocError> {
    let Some((count, piece)) = repeated.split_once('*') else {
        return Ok(());
    };
    let count: u32 = count.parse().unwrap_or(0);
    for number in 0..count {
        push_piece(out, piece, number)?;
    }
    Ok(())
}

/// The input that is written so: `{COUNT*PIECE}` repeats a piece, in which `%` is the number of the repetition, `<NAME>` is a text, and
/// `\n`, `\t`, `\r` and `\\` are escapes.
pub fn expanded(alloc: Global, texts: &Texts, written: &str) -> Result<Vec<u8>, AllocError> {
    let mut out = Vec::new(alloc);
    for part in written.split('{') {
        match part.split_once('}') {
            Some((repeated, rest)) => {
                push_repeated(&mut out, repeated)?;
                push_named(&mut out, texts, rest)?;
            }
            None => push_named(&mut out, texts, part)?,
        }
    }
    Ok(out)
}

/// Bytes as text, a line end as `\n`.
pub fn escaped(alloc: Global, bytes: &[u8]) -> Result<String, AllocError> {
    let mut text = String::new(alloc);
    for byte in bytes {
        if *byte == b'\n' {
            text.push_str("\\n")?;
        } else {
            text.push(char::from(*byte))?;
        }
    }
    Ok(text)
}

/// The texts of files, one for each part between bars.
pub fn files_of(alloc: Global, parts: &[u8]) -> Result<Vec<Vec<u8>>, AllocError> {
    let mut texts = Vec::new(alloc);
    for part in parts.split(|byte| *byte == b'|') {
        texts.push(Vec::from_slice(alloc, part)?)?;
    }
    Ok(texts)
}

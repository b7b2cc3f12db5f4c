//! The listing of postprocessed code.
ghost use Rattle.std.specs.Prelude.{◌≡◌, ◌≤◌, ◌<◌, ◌+◌, ◌*◌, ◌^◌, ◌++◌, ◌∷◌, length, OnOk, IfOk};
ghost use Rattle.st_model.specs.Layout.{code_start};
ghost use Rattle.st_main.specs.Listing.{hex_digit, hex_word, word_line, word_lines, listing_by, words_count};

use st_base::map::CODE_START;
use st_post::PostedFunction;
use std::alloc::{AllocError, Global};

/// The hexadecimal digit of a number below 16.
fn hex_digit(digit: u32) -> u8
    requires { digit < 16 }
    ensures { result ≡ hex_digit digit }
{
    if digit < 10 {
        b'0' + digit as u8
    } else {
        b'a' - 10 + digit as u8
    }
}

/// Adds a number as eight hexadecimal digits.
fn push_hex(text: &mut Vec<u8>, n: u32) -> Result<(), AllocError>
    ensures { OnOk result (text.new.items ≡ text.old.items ++ hex_word n) }
{
    let digits = [
        hex_digit(n / 0x1000_0000 % 16),
        hex_digit(n / 0x100_0000 % 16),
        hex_digit(n / 0x10_0000 % 16),
        hex_digit(n / 0x1_0000 % 16),
        hex_digit(n / 0x1000 % 16),
        hex_digit(n / 0x100 % 16),
        hex_digit(n / 0x10 % 16),
        hex_digit(n % 16),
    ];
    text.extend_from_slice(&digits)?;
    Ok(())
}

/// Adds the line of a word.
fn push_line(text: &mut Vec<u8>, address: u32, word: u32) -> Result<(), AllocError>
    ensures { OnOk result (text.new.items ≡ text.old.items ++ word_line address word) }
{
    push_hex(text, address)?;
    text.push(b' ')?;
    push_hex(text, word)?;
    text.push(b'\n')?;
    Ok(())
}

/// Adds the lines of words from an address on.
fn push_lines(text: &mut Vec<u8>, from: u32, words: &[u32]) -> Result<(), AllocError>
    requires { from + 4 * length words.now < 2 ^ 32 }
    ensures { OnOk result (text.new.items ≡ text.old.items ++ word_lines from words.now) }
{
    let mut address = from;
    for word in words {
        push_line(text, address, *word)?;
        address += 4;
    }
    Ok(())
}

/// Adds a function's name, and the lines of its words from an address on.
fn push_function(
    text: &mut Vec<u8>,
    from: u32,
    name: &[u8],
    words: &[u32],
) -> Result<(), AllocError>
    requires { from + 4 * length words.now < 2 ^ 32 }
    ensures { OnOk result (text.new.items ≡ text.old.items ++ name.now ++ 58 ∷ 10 ∷ word_lines from words.now) }
{
    text.extend_from_slice(name)?;
    text.extend_from_slice(b":\n")?;
    push_lines(text, from, words)
}

/// The listing of functions, which have these words one behind the other.
pub fn listing(
    alloc: Global,
    functions: &[PostedFunction],
    words: &[u32],
) -> Result<Vec<u8>, AllocError>
    requires { words_count functions.now ≤ 196608 }
    ensures { IfOk result (λ text. text.items ≡ listing_by code_start functions.now words.now) }
{
    let mut text = Vec::new(alloc);
    let mut address = CODE_START;
    let mut rest = words;
    for function in functions {
        let count = function.words.len().min(rest.len());
        let (mine, behind) = rest.split_at(count);
        push_function(&mut text, address, function.name.as_bytes(), mine)?;
        address += 4 * function.words.len() as u32;
        rest = behind;
    }
    Ok(text)
}

//! Integers of any length, and the ranges that they must lie in. A magnitude from 2^64 on is read as 2^64, which lies
//! beyond every range.
ghost use Rattle.std.specs.Prelude.{◌≡◌, ◌≤◌, ◌<◌, ◌^◌, IfSome, ℤ, pos, neg_ℤ, option_map};
ghost use Rattle.st_line.specs.Operands.{decimal_digit, hex_digit, digits_of, magnitude, integer};
ghost use Rattle.st_line.specs.Statement.{in_range, count_up_to};
ghost use Rattle.st_line.specs.Views.{capped, capped_magnitude, capped_after, radix, base_digit, ReadsInteger, word_in};

use crate::fault::AsmKind;

/// The base in which digits are read.
#[derive(Clone, Copy, Debug, PartialEq, Eq)]
pub(crate) enum Base {
    Ten,
    Sixteen,
}

impl Base {
    /// How many digits there are.
    fn radix(self) -> u128
        ensures { result ≡ radix self }
    {
        match self {
            Base::Ten => 10,
            Base::Sixteen => 16,
        }
    }

    /// The value of a digit.
    fn digit(self, byte: u8) -> Option<u8>
        ensures value { result ≡ base_digit self byte }
        ensures small { IfSome result (λ d. d < 16) }
    {
        match self {
            Base::Ten => decimal_digit(byte),
            Base::Sixteen => hex_digit(byte),
        }
    }
}

fn decimal_digit(byte: u8) -> Option<u8>
    ensures value { result ≡ decimal_digit byte }
    ensures small { IfSome result (λ d. d < 16) }
{
    match byte {
        b'0'..=b'9' => Some(byte - b'0'),
        _ => None,
    }
}

fn hex_digit(byte: u8) -> Option<u8>
    ensures value { result ≡ hex_digit byte }
    ensures small { IfSome result (λ d. d < 16) }
{
    match byte {
        b'0'..=b'9' => Some(byte - b'0'),
        b'a'..=b'f' => Some(byte - b'a' + 10),
        b'A'..=b'F' => Some(byte - b'A' + 10),
        _ => None,
    }
}

/// The number that digits write, 0 where there are none.
fn digits_or_none(base: Base, text: &[u8]) -> Option<u128>
    ensures value { result ≡ capped_after base (Some 0) text.now }
    ensures small { IfSome result (λ n. n ≤ 2 ^ 64) }
{
    let mut n: u128 = 0;
    for byte in text {
        let digit = base.digit(*byte)?;
        n = (n * base.radix() + digit as u128).min(1 << 64);
    }
    Some(n)
}

/// The number that digits write, at least one.
#[tactic(auto, using(crate::proofs::Capped::capped_digits))]
fn digits(base: Base, text: &[u8]) -> Option<u128>
    ensures value { result ≡ option_map capped_magnitude (digits_of (radix base) (base_digit base) text.now) }
    ensures small { IfSome result (λ n. n ≤ 2 ^ 64) }
{
    if text.is_empty() {
        return None;
    }
    digits_or_none(base, text)
}

/// The magnitude of an integer: decimal digits, or `0x` and hexadecimal digits.
fn magnitude(text: &[u8]) -> Option<u128>
    ensures value { result ≡ option_map capped_magnitude (magnitude text.now) }
    ensures small { IfSome result (λ n. n ≤ 2 ^ 64) }
{
    match text {
        [b'0', b'x', rest @ ..] => digits(Base::Sixteen, rest),
        _ => digits(Base::Ten, text),
    }
}

/// The integer whose magnitude this text is.
fn positive(text: &[u8]) -> Option<i128>
    ensures { ReadsInteger result (option_map pos (magnitude text.now)) }
{
    let size = magnitude(text)?;
    Some(size as i128)
}

/// The integer below 0 whose magnitude this text is.
fn negative(text: &[u8]) -> Option<i128>
    ensures { ReadsInteger result (option_map (λ n. neg_ℤ (pos n)) (magnitude text.now)) }
{
    let size = magnitude(text)?;
    Some(-(size as i128))
}

/// The integer of this text; beyond 2^64 and -2^64 it is these.
pub(crate) fn integer(text: &[u8]) -> Option<i128>
    ensures { ReadsInteger result (integer text.now) }
{
    match text {
        [] => None,
        [b'-', rest @ ..] => negative(rest),
        _ => positive(text),
    }
}

/// The integer as it is, where it lies between both ends.
fn between(low: i64, high: i64, n: i128) -> Result<i64, AsmKind>
    ensures { result ≡ in_range (low, high) n }
{
    if n < low as i128 || (high as i128) < n {
        Err(AsmKind::ImmRange)
    } else {
        Ok(n as i64)
    }
}

/// An integer that was read, where it lies between both ends; else it is out of its range.
#[tactic(auto, using(crate::proofs::Ranges::in_range_capped))]
pub(crate) fn in_range(low: i64, high: i64, n: i128) -> Result<i64, AsmKind>
    ensures { (z : ℤ) → n ≡ capped z → result ≡ in_range (low, high) z }
{
    between(low, high, n)
}

/// The integer as it is, where it lies between 0 and this.
fn count(most: u32, n: i128) -> Result<u32, AsmKind>
    ensures { result ≡ count_up_to most n }
{
    if n < 0 || (most as i128) < n {
        Err(AsmKind::ImmRange)
    } else {
        Ok(n as u32)
    }
}

/// An integer that was read, where it lies between 0 and this; else it is out of its range.
#[tactic(auto, using(crate::proofs::Ranges::count_up_to_capped))]
pub(crate) fn count_up_to(most: u32, n: i128) -> Result<u32, AsmKind>
    ensures { (z : ℤ) → n ≡ capped z → result ≡ count_up_to most z }
{
    count(most, n)
}

/// The word of an integer, where it lies between both ends.
fn word_between(low: i64, high: u64, n: i128) -> Option<u64>
    ensures { result ≡ word_in (low, pos high) n }
{
    if n < low as i128 || (high as i128) < n {
        None
    } else if n < 0 {
        Some((n + (1 << 64)) as u64)
    } else {
        Some(n as u64)
    }
}

/// The word of an integer that was read, where it lies between both ends.
#[tactic(auto, using(crate::proofs::Ranges::word_in_capped))]
pub(crate) fn word_in(low: i64, high: u64, n: i128) -> Option<u64>
    ensures { (z : ℤ) → n ≡ capped z → result ≡ word_in (low, pos high) z }
{
    word_between(low, high, n)
}

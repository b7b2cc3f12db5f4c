//! Numbers as values of options.
ghost use Rattle.std.specs.Prelude.{◌≡◌, ◌<◌, IfSome, map};
ghost use Rattle.std.specs.List.{list_all};
ghost use Rattle.std.specs.Char.{is_ascii_digit};
ghost use Rattle.st_jobs.specs.Values.{IsWithin, is_numeral, number_in, number_of};
ghost use Rattle.st_jobs.specs.ByClap.{found_values};

use clap::ArgMatches;
use st_base::limits::{LEAST_CELLS, LEAST_STACK, MOST_CELLS, MOST_STACK, MOST_STEPS};

/// The numbers that an option takes: those from `least` to `most` that are multiples of `multiple_of`.
#[derive(Clone, Copy)]
pub struct NumberRange {
    pub least: u64,
    pub most: u64,
    pub multiple_of: u64,
}

/// `--workers`.
pub const WORKERS: NumberRange = NumberRange {
    least: 1,
    most: 16,
    multiple_of: 1,
};

/// `--stack`, in bytes.
pub const STACK: NumberRange = NumberRange {
    least: LEAST_STACK as u64,
    most: MOST_STACK as u64,
    multiple_of: 16,
};

/// `--cells`.
pub const CELLS: NumberRange = NumberRange {
    least: LEAST_CELLS as u64,
    most: MOST_CELLS as u64,
    multiple_of: 1,
};

/// `--steps`.
pub const STEPS: NumberRange = NumberRange {
    least: 1,
    most: MOST_STEPS,
    multiple_of: 1,
};

/// `--turns`.
pub const TURNS: NumberRange = NumberRange {
    least: 1,
    most: 1 << 40,
    multiple_of: 1,
};

/// `--number`.
pub const PROGRAM: NumberRange = NumberRange {
    least: 0,
    most: u64::MAX,
    multiple_of: 1,
};

fn has_digits(text: &[u8]) -> bool
    ensures { result ≡ list_all is_ascii_digit text.now }
{
    text.iter().all(|byte| byte.is_ascii_digit())
}

/// Whether the text is one to twenty decimal digits.
fn is_numeral(text: &str) -> bool
    ensures { result ≡ is_numeral text.now }
{
    !text.is_empty() && text.len() <= 20 && has_digits(text.as_bytes())
}

/// The number that a text writes, where it is in the range.
fn number_in(text: &str, range: NumberRange) -> Option<u64>
    requires { 0 < range.multiple_of }
    ensures value { result ≡ number_in range text.now }
    ensures within { IfSome result (IsWithin range) }
{
    if !is_numeral(text) {
        return None;
    }
    let Ok(number) = text.parse::<u64>() else {
        return None;
    };
    if range.least <= number && number <= range.most && number % range.multiple_of == 0 {
        Some(number)
    } else {
        None
    }
}

/// The number that the values of an option give: its default where there are none, and `None` where there are two.
fn number_of(values: &[&str], range: NumberRange, default: Option<u64>) -> Option<u64>
    requires multiple { 0 < range.multiple_of }
    requires default { IfSome default (IsWithin range) }
    ensures value { result ≡ number_of range default (map (λ s. s.now) values.now) }
    ensures within { IfSome result (IsWithin range) }
{
    let Some((value, again)) = values.split_first() else {
        return default;
    };
    if again.is_empty() {
        number_in(value, range)
    } else {
        None
    }
}

/// The number that an option gives; without a default the option is needed.
pub fn number(
    matches: &ArgMatches,
    name: &str,
    range: NumberRange,
    default: Option<u64>,
) -> Option<u64>
    requires multiple { 0 < range.multiple_of }
    requires default { IfSome default (IsWithin range) }
    ensures value { result ≡ number_of range default (found_values matches.now name.now) }
    ensures within { IfSome result (IsWithin range) }
{
    match matches.get_strs(name) {
        Some(values) => number_of(values, range, default),
        None => default,
    }
}

//! Bytes of a word, little-endian.
ghost use Rattle.std.specs.Prelude.{◌≡◌, ◌+◌, ◌*◌, ◌%◌, ◌^◌, ◌≤◌, ◌<◌};
ghost use Rattle.st_step.specs.Moves.{bytes_of, with_bytes};

/// The number in so many low bits.
pub(crate) fn low_bits(word: u64, count: u64) -> u64
    requires { count ≤ 64 }
    ensures { result ≡ word % 2 ^ count }
{
    if count == 64 {
        return word;
    }
    word & ((1u64 << count) - 1)
}

/// The number in `size` bytes of a word, from the byte `at` on.
pub(crate) fn bytes_of(word: u64, at: u64, size: usize) -> u64
    requires at { at < 8 }
    requires size { size ≤ 8 }
    ensures { result ≡ bytes_of word at size }
{
    low_bits(word >> (8 * at), 8 * size as u64)
}

/// The word with `size` bytes of a number in place of its own, from the byte `at` on.
pub(crate) fn with_bytes(word: u64, at: u64, size: usize, n: u64) -> u64
    requires at { at < 8 }
    requires within { at + size ≤ 8 }
    ensures { result ≡ with_bytes word at size n }
{
    let below = low_bits(word, 8 * at);
    let middle = low_bits(n, 8 * size as u64) << (8 * at);
    let above = word - low_bits(word, 8 * (at + size as u64));
    below + middle + above
}

//! The words of cells as numbers.
ghost use Rattle.std.specs.Prelude.{◌≡◌, ◌<◌, ◌^◌};
ghost use Rattle.st_words.specs.Encodings.{is_counter, count_in, head_in, counter_word, count_after};
ghost use Rattle.st_cells.specs.Cells.{owner_word, FitsWord};
ghost use Rattle.st_cells.specs.declared.found.Owner.{Owner};

use crate::found::Owner;

/// The State word of a full future.
pub(crate) const FULL: u64 = 1 << 32;

/// The Owner word of a cell.
pub(crate) fn owner_word(owner: Owner) -> u64
    ensures { result ≡ owner_word owner }
{
    let kind = if owner.counter { 2 } else { 1 };
    kind + 2 * u64::from(owner.parent) + (1 << 18) * u64::from(owner.number)
}

/// The owner of a cell by its Owner word.
pub(crate) fn owner_in(word: u64) -> Owner
    ensures { ((owner : Owner) → FitsWord owner → word ≡ owner_word owner → result ≡ owner) × (result.counter ≡ is_counter word) }
{
    let rest = word.saturating_sub(1);
    Owner {
        counter: rest % 2 == 1,
        parent: (rest / 2 % (1 << 17)) as u32,
        number: ((rest >> 18) % (1 << 32)) as u32,
    }
}

/// The count in the State word of a counter.
pub(crate) fn count_in(state: u64) -> u64
    ensures { result ≡ count_in state }
{
    state / (1 << 17)
}

/// The head of the waiters in the State word of a counter: a waiter's number and 1, or 0.
pub(crate) fn head_in(state: u64) -> u64
    ensures { result ≡ head_in state }
{
    state % (1 << 17)
}

/// The State word of a counter.
pub(crate) fn counter_word(count: u64, head: u64) -> u64
    requires { (count < 2 ^ 47) × (head < 2 ^ 17) }
    ensures { result ≡ counter_word count head }
{
    count * (1 << 17) + head
}

/// A count that is one greater, or stands still at its end.
pub(crate) fn count_after(count: u64) -> u64
    ensures { result ≡ count_after count }
{
    if count < (1 << 47) - 1 {
        count + 1
    } else {
        count
    }
}

//! The root's bytes at the end of a run: which of them count.
ghost use Rattle.std.specs.Prelude.{◌≡◌, ℕ, length, take};
ghost use Rattle.st_base.specs.EventKey.{event_key};
ghost use Rattle.st_model.specs.Quiet.{AreInOrder, bytes_of, counts, counted_bytes};

use st_base::path::Path;

/// A byte that the root has printed.
#[derive(Clone, Copy, PartialEq, Eq, Debug)]
pub struct Printed {
    pub byte: u8,
    /// How many forks the root had made by then.
    pub forks: u32,
}

/// Whether a byte counts where the thread of this path has the event: each byte where that is the root, else those that
/// were printed before the event. How many forks the thread itself has made changes nothing.
pub fn counts(printed: Printed, path: &Path) -> bool
    ensures { (forks : ℕ) → result ≡ counts path.now (event_key path.now forks) printed }
{
    match path.numbers().first() {
        None => true,
        Some(child) => printed.forks <= *child,
    }
}

/// How many of the root's bytes count where the thread of this path has the event. As the root's forks don't fall from
/// one byte to the next, they are the first so many.
pub fn bytes_that_count(out: &[Printed], path: &Path) -> usize
    ensures many { (forks : ℕ) → result ≡ length (counted_bytes path.now (event_key path.now forks) out.now) }
    ensures first { AreInOrder out.now → (forks : ℕ) → counted_bytes path.now (event_key path.now forks) out.now ≡ take result (bytes_of out.now) }
{
    let mut count = 0;
    for printed in out {
        if counts(*printed, path) {
            count += 1;
        }
    }
    count
}

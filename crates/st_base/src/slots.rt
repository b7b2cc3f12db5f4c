//! Storing numbers in the slot bytes of a frame, little-endian.
ghost use Rattle.std.specs.Prelude.{◌≡◌, ◌≤◌, ◌<◌, ◌+◌, ◌^◌, length};
ghost use Rattle.st_base.specs.Slots.{store_bytes};

use crate::lists::Cells;

/// Puts the low `size` bytes of a number, from the place `at` on.
#[tactic(auto, using(crate::proofs::SlotBytes::bytes_more))]
pub fn store(cells: &mut Cells<u8>, at: usize, size: usize, value: u64)
    requires room { at + size ≤ length cells.old }
    requires place { at + size < 2 ^ 64 }
    requires size { size ≤ 8 }
    ensures { cells.new ≡ store_bytes cells.old at size value }
{
    let mut left = size;
    let mut place = at;
    let mut value = value;
    while left > 0 {
        cells.set(place, (value % 256) as u8);
        place += 1;
        value /= 256;
        left -= 1;
    }
}

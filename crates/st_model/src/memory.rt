//! Loads: from the slot bytes of an activation, and from the read-only data and the input.
ghost use Rattle.std.specs.Prelude.{◌≡◌, ◌<◌, ◌≤◌, ◌+◌, ◌^◌};
ghost use Rattle.st_model.specs.Memory.{region, data_of, data_byte, slot_byte, load_from};

use st_base::lists::Cells;
use st_base::map::{DATA_START, INPUT_START};

/// The byte at an address of a stretch of memory that begins at the base.
fn region(bytes: &[u8], base: u128, at: u128) -> Option<u8>
    requires base { 16 ≤ base }
    requires at { at < 2 ^ 64 + 16 }
    ensures { result ≡ region bytes.now base at }
{
    if at < base {
        return None;
    }
    let byte = bytes.get((at - base) as usize)?;
    Some(*byte)
}

/// The byte at an address, if the read-only data or the input has it.
fn data_byte(rodata: &[u8], input: &[u8], at: u128) -> Option<u8>
    requires { at < 2 ^ 64 + 16 }
    ensures { result ≡ data_byte (data_of rodata.now input.now) at }
{
    match region(rodata, u128::from(DATA_START), at) {
        Some(byte) => Some(byte),
        None => region(input, u128::from(INPUT_START), at),
    }
}

/// The little-endian number in `size` bytes at an address; `None` where one of them is not there.
#[tactic(auto, using(crate::proofs::Loading::load_more))]
pub fn load_data(rodata: &[u8], input: &[u8], at: u64, size: usize) -> Option<u64>
    requires { size ≤ 8 }
    ensures { result ≡ load_from (data_byte (data_of rodata.now input.now)) at size }
{
    let mut value: u64 = 0;
    let mut left = size;
    while left > 0 {
        left -= 1;
        let Some(byte) = data_byte(rodata, input, at as u128 + left as u128) else {
            return None;
        };
        value = value.wrapping_mul(256).wrapping_add(byte as u64);
    }
    Some(value)
}

/// The byte at a place of the slots, if it was written.
fn slot_byte(cells: &Cells<u8>, at: usize) -> Option<u8>
    ensures { result ≡ slot_byte cells.now at }
{
    match cells.get(at) {
        Some(byte) => Some(*byte),
        None => None,
    }
}

/// The little-endian number in `size` bytes of the slots; `None` where one of them was not written.
#[tactic(auto, using(crate::proofs::Loading::load_more))]
pub fn load_slots(cells: &Cells<u8>, at: usize, size: usize) -> Option<u64>
    requires size { size ≤ 8 }
    requires room { at + size < 2 ^ 64 }
    ensures { result ≡ load_from (slot_byte cells.now) at size }
{
    let mut value: u64 = 0;
    let mut left = size;
    while left > 0 {
        left -= 1;
        let Some(byte) = slot_byte(cells, at + left) else {
            return None;
        };
        value = value.wrapping_mul(256).wrapping_add(byte as u64);
    }
    Some(value)
}

//! The saved registers of a function, which its bits name.
ghost use Rattle.std.specs.Prelude.{◌≡◌, ◌≤◌, ◌<◌, ◌==◌, IfOk, length};
ghost use Rattle.std.specs.Int.{bit_at};
ghost use Rattle.st_model.specs.Layout.{saved_among, saved_of};

use st_base::reg::Reg;
use st_model::code::SAVEABLE;
use st_model::program::ProgramFunction;
use std::alloc::{AllocError, Global};

/// Whether the bit of a place is set.
fn is_set(bits: u16, place: usize) -> bool
    requires { place < 11 }
    ensures { result ≡ bit_at bits place == 1 }
{
    (bits >> place) & 1 == 1
}

/// Of registers in the order of their bits, those whose bit is set.
fn saved_among(alloc: Global, bits: u16, registers: &[Reg]) -> Result<Vec<Reg>, AllocError>
    requires { length registers.now ≤ 11 }
    ensures value { IfOk result (λ saved. saved.items ≡ saved_among bits 0 registers.now) }
    ensures few { IfOk result (λ saved. length saved.items ≤ 11) }
{
    let mut saved = Vec::new(alloc);
    for (place, register) in registers.iter().enumerate() {
        if is_set(bits, place) {
            saved.push(*register)?;
        }
    }
    Ok(saved)
}

/// How many registers have their bit set.
fn count_among(bits: u16, registers: &[Reg]) -> u32
    requires { length registers.now ≤ 11 }
    ensures value { result ≡ length (saved_among bits 0 registers.now) }
    ensures few { result ≤ 11 }
{
    let mut count = 0;
    for place in 0..registers.len() {
        if is_set(bits, place) {
            count += 1;
        }
    }
    count
}

/// The saved registers of a function, ascending.
pub(crate) fn saved_of(alloc: Global, function: &ProgramFunction) -> Result<Vec<Reg>, AllocError>
    ensures value { IfOk result (λ saved. saved.items ≡ saved_of function.now) }
    ensures few { IfOk result (λ saved. length saved.items ≤ 11) }
{
    let saved = saved_among(alloc, function.saved, SAVEABLE.as_slice())?;
    Ok(saved)
}

/// How many registers a function saves.
pub(crate) fn saved_count(function: &ProgramFunction) -> u32
    ensures value { result ≡ length (saved_of function.now) }
    ensures few { result ≤ 11 }
{
    count_among(function.saved, SAVEABLE.as_slice())
}

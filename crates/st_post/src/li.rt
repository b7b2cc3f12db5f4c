//! `li` as one or two instructions.
ghost use Rattle.std.specs.Prelude.{◌≡◌, ◌≤◌, ◌++◌, ◌<◌, ◌^◌, ℕ, pos, length, OnOk};
ghost use Rattle.st_base.specs.declared.reg.Reg.{Reg as Reg'};
ghost use Rattle.st_model.specs.Layout.{is_short, low_part, high_part, li_ins, with_low_part};

use crate::instructions::{addi, addiw, lui};
use st_base::reg::Reg;
use st_model::code::PostedIns;
use st_rv::results::word_of;
use std::alloc::AllocError;

/// Whether a value is the immediate of one instruction.
fn is_short(value: i64) -> bool
    ensures { result ≡ is_short value }
{
    value >= -2048 && value < 2048
}

/// The low 12 bits of a value, as a signed number.
fn low_part(value: i64) -> i64
    ensures { result ≡ low_part value }
{
    let low = (word_of(value) % 4096) as i64;
    if low < 2048 { low } else { low - 4096 }
}

/// The 20 bits that make a value together with its low part.
fn high_part(value: i64) -> i64
    ensures { result ≡ pos (high_part value) }
{
    let low = (word_of(value) % 0x1_0000_0000) as i64;
    (low + 0x800) % 0x1_0000_0000 / 4096
}

/// Adds a value's low part, where it isn't 0, to the high one.
fn push_low_part(out: &mut Vec<PostedIns>, rd: Reg, low: i64) -> Result<(), AllocError>
    ensures { OnOk result (out.new.items ≡ out.old.items ++ with_low_part rd low) }
{
    if low != 0 {
        out.push(addiw(rd, rd, low))?;
    }
    Ok(())
}

/// Puts a value of 32 bits into a register.
pub(crate) fn push_li(out: &mut Vec<PostedIns>, rd: Reg, value: i64) -> Result<(), AllocError>
    ensures { OnOk result (out.new.items ≡ out.old.items ++ li_ins rd value) }
{
    if is_short(value) {
        out.push(addi(rd, Reg::Zero, value))?;
    } else {
        out.push(lui(rd, high_part(value)))?;
        push_low_part(out, rd, low_part(value))?;
    }
    Ok(())
}

/// How many instructions put a value into a register.
pub(crate) fn li_size(value: i64) -> u32
    ensures value { (rd : Reg') → result ≡ length (li_ins rd value) }
    ensures few { result ≤ 2 }
{
    if is_short(value) || low_part(value) == 0 {
        1
    } else {
        2
    }
}

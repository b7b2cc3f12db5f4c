//! Slots: the accesses through s0.
ghost use Rattle.std.specs.Prelude.{◌≡◌, ◌≤◌, length};
ghost use Rattle.st_model.specs.Memory.{slot_place};
ghost use Rattle.st_check.specs.Faults.{slots_end, is_aligned, is_in_slots, is_slot, slot_fault, line_slot_fault};
ghost use Rattle.st_check.specs.Views.{formed_view};

use crate::registers::is_integer;
use crate::shape::Formed;
use st_asm::SourceIns;
use st_base::reg::Reg;
use st_model::plain::{is_frame, is_handle};
use st_rv::ins::{Ins, OpKind};
use st_rv::results::{access_size, word_of};

/// The place of a slot access, counted from the frame's low end.
fn slot_place(frame: u32, offset: i64) -> u64
    ensures { result ≡ slot_place frame offset }
{
    u64::from(frame).wrapping_add(word_of(offset))
}

/// Where the integer slots end.
fn slots_end(shape: &Formed<'_>) -> u128
    ensures { result ≡ slots_end (formed_view shape.now) }
{
    u128::from(shape.frame).saturating_sub(16 + 8 * shape.saved.len() as u128)
}

fn is_aligned(shape: &Formed<'_>, i: Ins) -> bool
    ensures { result ≡ is_aligned (formed_view shape.now) i }
{
    slot_place(shape.frame, i.imm) % access_size(i.op) as u64 == 0
}

/// Whether an access lies wholly in the slots of its register's class.
fn is_in_slots(slots: u32, shape: &Formed<'_>, i: Ins, reg: Reg) -> bool
    ensures { result ≡ is_in_slots slots (formed_view shape.now) i reg }
{
    let place = u128::from(slot_place(shape.frame, i.imm));
    let size = access_size(i.op) as u128;
    let low = 8 * u128::from(slots);
    if is_handle(reg) {
        size == 8 && place + 8 <= low
    } else {
        !is_integer(reg) || (low <= place && place + size <= slots_end(shape))
    }
}

fn is_slot(slots: u32, shape: &Formed<'_>, i: Ins, reg: Reg) -> bool
    ensures { result ≡ is_slot slots (formed_view shape.now) i reg }
{
    is_aligned(shape, i) && is_in_slots(slots, shape, i, reg)
}

fn slot_fault(kind: OpKind, slots: u32, shape: &Formed<'_>, i: Ins) -> bool
    ensures { result ≡ slot_fault kind slots (formed_view shape.now) i }
{
    match kind {
        OpKind::Load => is_frame(i.rs1) && !is_slot(slots, shape, i, i.rd),
        OpKind::Store => !is_frame(i.rs1) || !is_slot(slots, shape, i, i.rs2),
        _ => false,
    }
}

/// Whether a line is a store through another register than s0, or an access out of its slots.
pub fn line_slot_fault(slots: u32, shape: &Formed<'_>, ins: &SourceIns) -> bool
    ensures { result ≡ line_slot_fault slots (formed_view shape.now) ins.now }
{
    match ins {
        SourceIns::Plain(i) => slot_fault(i.op.kind(), slots, shape, *i),
        _ => false,
    }
}

//! Classes of registers, and which of them the instructions of a body may have.
ghost use Rattle.std.specs.Prelude.{◌≡◌, not};
ghost use Rattle.st_check.specs.Faults.{is_integer, is_slot_register, is_in, is_saved, are_integers, is_handle_move, load_keeps, store_keeps, plain_keeps, keeps_classes, plain_writes, written, may_write, is_fork_register};
ghost use Rattle.st_check.specs.Shape.{Formed as Formed'};

use crate::instruction::is_same;
use st_asm::SourceIns;
use st_base::reg::Reg;
use st_model::plain::{is_frame, is_handle, is_move};
use st_rv::ins::{Ins, OpKind};

/// Whether a register is `zero` or holds integers.
pub fn is_integer(reg: Reg) -> bool
    ensures { result ≡ is_integer reg }
{
    let x = reg.number();
    x == 0
        || x == 9
        || (5 <= x && x < 8)
        || (10 <= x && x < 16)
        || (18 <= x && x < 24)
        || (28 <= x && x < 31)
}

fn is_slot_register(reg: Reg) -> bool
    ensures { result ≡ is_slot_register reg }
{
    is_integer(reg) || is_handle(reg)
}

fn are_integers(r: Reg, s: Reg) -> bool
    ensures { result ≡ are_integers r s }
{
    is_integer(r) && is_integer(s)
}

fn is_handle_move(i: Ins) -> bool
    ensures { result ≡ is_handle_move i }
{
    is_move(i.op, i.imm) && is_handle(i.rd) && is_handle(i.rs1)
}

fn load_keeps(is_slot: bool, i: Ins) -> bool
    ensures { result ≡ load_keeps is_slot i }
{
    if is_slot {
        is_slot_register(i.rd)
    } else {
        are_integers(i.rd, i.rs1)
    }
}

fn store_keeps(is_slot: bool, i: Ins) -> bool
    ensures { result ≡ store_keeps is_slot i }
{
    if is_slot {
        is_slot_register(i.rs2)
    } else {
        are_integers(i.rs1, i.rs2)
    }
}

fn plain_keeps(kind: OpKind, i: Ins) -> bool
    ensures { result ≡ plain_keeps kind i }
{
    match kind {
        OpKind::Register => is_integer(i.rd) && are_integers(i.rs1, i.rs2),
        OpKind::Immediate => are_integers(i.rd, i.rs1) || is_handle_move(i),
        OpKind::Upper => is_integer(i.rd),
        OpKind::Load => load_keeps(is_frame(i.rs1), i),
        OpKind::Store => store_keeps(is_frame(i.rs1), i),
        _ => true,
    }
}

/// Whether the registers of an instruction are of their classes.
pub fn keeps_classes(ins: &SourceIns) -> bool
    ensures { result ≡ keeps_classes ins.now }
{
    match ins {
        SourceIns::Plain(i) => plain_keeps(i.op.kind(), *i),
        SourceIns::Li { rd, .. } => is_integer(*rd),
        SourceIns::La { rd, .. } => is_integer(*rd),
        SourceIns::Branch { rs1, rs2, .. } => are_integers(*rs1, *rs2),
        _ => true,
    }
}

/// Whether a register is one of s1 to s11.
fn is_saved(reg: Reg) -> bool
    ensures { result ≡ is_saved reg }
{
    let x = reg.number();
    x == 9 || (18 <= x && x <= 27)
}

/// Whether a register is one of s8 to s11.
pub fn is_fork_register(reg: Reg) -> bool
    ensures { result ≡ is_fork_register reg }
{
    let x = reg.number();
    24 <= x && x <= 27
}

/// Whether a register is one of these.
fn is_in(reg: Reg, saved: &[Reg]) -> bool
    ensures { result ≡ is_in reg saved.now }
{
    for other in saved {
        if is_same(reg, *other) {
            return true;
        }
    }
    false
}

fn plain_writes(kind: OpKind, i: Ins) -> Option<Reg>
    ensures { result ≡ plain_writes kind i }
{
    match kind {
        OpKind::Store => None,
        OpKind::Break => None,
        _ => Some(i.rd),
    }
}

/// The register that a line writes; calls write none that is saved.
fn written(ins: &SourceIns) -> Option<Reg>
    ensures { result ≡ written ins.now }
{
    match ins {
        SourceIns::Plain(i) => plain_writes(i.op.kind(), *i),
        SourceIns::Li { rd, .. } => Some(*rd),
        SourceIns::La { rd, .. } => Some(*rd),
        SourceIns::Fork { handle } => Some(*handle),
        _ => None,
    }
}

/// Whether the function may write what a line writes: of s1 to s11, what its prologue saves.
pub fn may_write(saved: &[Reg], ins: &SourceIns) -> bool
    ensures { (shape : Formed') → shape.saved ≡ saved.now → result ≡ may_write shape (written ins.now) }
{
    match written(ins) {
        None => true,
        Some(reg) => !is_saved(reg) || is_in(reg, saved),
    }
}

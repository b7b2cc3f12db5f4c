//! Instructions that are no branch and no jump, and what they do to their thread.
ghost use Rattle.std.specs.Prelude.{◌≡◌, ◌<◌, ◌+◌, ◌-◌, ◌^◌, IfOk, IsTrue};
ghost use Rattle.st_rv.specs.Results.{word_of, computes, alu};
ghost use Rattle.st_base.specs.Registers.{write_register};
ghost use Rattle.st_model.specs.Memory.{data_of, slot_place};
ghost use Rattle.st_model.specs.Effect.{is_move, is_handle, is_frame, compute_effect, immediate_effect, goes, loaded, slot_load, data_load, load_effect, slot_store, store_effect, plain_effect};

use crate::effect::{Effect, goes, int, name};
use crate::memory::{load_data, load_slots};
use st_base::reg::Reg;
use st_base::registers::Registers;
use st_base::slots::store;
use st_base::thread::{Activation, Held, TrapKind};
use st_rv::ins::{Ins, Op, OpKind};
use st_rv::results::{access_size, alu, extended, word_of};
use std::alloc::{AllocError, Global};

/// A result of two registers.
fn compute(i: Ins, top: Activation, registers: Registers) -> Effect
    requires top { top.next < 2 ^ 64 - 1 }
    requires op { IsTrue (computes i.op) }
    ensures { result ≡ compute_effect i top registers }
{
    let Some(a) = int(&registers, i.rs1) else {
        return Effect::Undefined;
    };
    let Some(b) = int(&registers, i.rs2) else {
        return Effect::Undefined;
    };
    let mut registers = registers;
    registers.set(i.rd, Held::Number(alu(i.op, a, b)));
    goes(top, registers)
}

/// Whether the instruction is `mv`, which alone moves a name.
pub fn is_move(op: Op, offset: i64) -> bool
    ensures { result ≡ is_move op offset }
{
    op == Op::Addi && word_of(offset) == 0
}

/// A result of a register and an immediate, or `mv` of a name.
fn immediate(
    alloc: Global,
    i: Ins,
    top: Activation,
    registers: Registers,
) -> Result<Effect, AllocError>
    requires top { top.next < 2 ^ 64 - 1 }
    requires op { IsTrue (computes i.op) }
    ensures { IfOk result (λ effect. effect ≡ immediate_effect i top registers) }
{
    let held = match registers.get(i.rs1) {
        None => return Ok(Effect::Undefined),
        Some(Held::Number(a)) => Held::Number(alu(i.op, *a, word_of(i.imm))),
        Some(name) => {
            if !is_move(i.op, i.imm) {
                return Ok(Effect::Undefined);
            }
            name.copy(alloc)?
        }
    };
    let mut registers = registers;
    registers.set(i.rd, held);
    Ok(goes(top, registers))
}

/// A result of the immediate alone.
fn upper(i: Ins, top: Activation, registers: Registers) -> Effect
    requires top { top.next < 2 ^ 64 - 1 }
    requires op { IsTrue (computes i.op) }
    ensures { result ≡ goes top (write_register registers i.rd (Held.Number (alu i.op 0 (word_of i.imm)))) }
{
    let mut registers = registers;
    registers.set(i.rd, Held::Number(alu(i.op, 0, word_of(i.imm))));
    goes(top, registers)
}

/// Whether the register holds handles.
pub fn is_handle(reg: Reg) -> bool
    ensures { result ≡ is_handle reg }
{
    matches!(
        reg,
        Reg::A6 | Reg::A7 | Reg::S8 | Reg::S9 | Reg::S10 | Reg::S11
    )
}

/// Whether an access with this base is one of the activation's slots.
pub fn is_frame(reg: Reg) -> bool
    ensures { result ≡ is_frame reg }
{
    reg == Reg::S0
}

/// The place of a slot access, counted from the frame's low end.
pub fn slot_place(frame_bytes: usize, offset: i64) -> u64
    ensures { result ≡ slot_place frame_bytes offset }
{
    (frame_bytes as u64).wrapping_add(word_of(offset))
}

/// The loaded number comes into its register.
fn loaded(i: Ins, top: Activation, registers: Registers, value: u64) -> Effect
    requires { top.next < 2 ^ 64 - 1 }
    ensures { result ≡ loaded i top registers value }
{
    let mut registers = registers;
    registers.set(i.rd, Held::Number(extended(i.op, value)));
    goes(top, registers)
}

/// A load from the slots.
fn slot_load(
    alloc: Global,
    i: Ins,
    at: u64,
    top: Activation,
    registers: Registers,
) -> Result<Effect, AllocError>
    requires { top.next < 2 ^ 64 - 1 }
    ensures { IfOk result (λ effect. effect ≡ slot_load (is_handle i.rd) i at top registers) }
{
    if is_handle(i.rd) {
        let name = match top.handles.get((at / 8) as usize) {
            None => return Ok(Effect::Undefined),
            Some(Held::Number(_)) => return Ok(Effect::Undefined),
            Some(name) => name.copy(alloc)?,
        };
        let mut registers = registers;
        registers.set(i.rd, name);
        Ok(goes(top, registers))
    } else {
        let size = access_size(i.op);
        let length = top.bytes.len();
        if at as u128 + size as u128 > length as u128 {
            return Ok(Effect::Undefined);
        }
        match load_slots(&top.bytes, at as usize, size) {
            None => Ok(Effect::Undefined),
            Some(value) => Ok(loaded(i, top, registers, value)),
        }
    }
}

/// A load from the read-only data or the input.
fn data_load(
    rodata: &[u8],
    input: &[u8],
    i: Ins,
    address: u64,
    top: Activation,
    registers: Registers,
) -> Effect
    requires { top.next < 2 ^ 64 - 1 }
    ensures { result ≡ data_load (data_of rodata.now input.now) i address top registers }
{
    let size = access_size(i.op);
    if address % (size as u64) != 0 {
        return Effect::Traps {
            kind: TrapKind::Misaligned,
        };
    }
    match load_data(rodata, input, address, size) {
        None => Effect::Traps {
            kind: TrapKind::LoadRange,
        },
        Some(value) => loaded(i, top, registers, value),
    }
}

fn load(
    alloc: Global,
    rodata: &[u8],
    input: &[u8],
    i: Ins,
    top: Activation,
    registers: Registers,
) -> Result<Effect, AllocError>
    requires { top.next < 2 ^ 64 - 1 }
    ensures { IfOk result (λ effect. effect ≡ load_effect (data_of rodata.now input.now) i top registers) }
{
    if is_frame(i.rs1) {
        let at = slot_place(top.bytes.len(), i.imm);
        slot_load(alloc, i, at, top, registers)
    } else {
        let Some(base) = int(&registers, i.rs1) else {
            return Ok(Effect::Undefined);
        };
        let address = base.wrapping_add(word_of(i.imm));
        Ok(data_load(rodata, input, i, address, top, registers))
    }
}

/// A store into the slots.
fn slot_store(
    alloc: Global,
    i: Ins,
    at: u64,
    top: Activation,
    registers: Registers,
) -> Result<Effect, AllocError>
    requires { top.next < 2 ^ 64 - 1 }
    ensures { IfOk result (λ effect. effect ≡ slot_store (is_handle i.rs2) i at top registers) }
{
    let mut top = top;
    if is_handle(i.rs2) {
        let Some(name) = name(alloc, &registers, i.rs2)? else {
            return Ok(Effect::Undefined);
        };
        let place = (at / 8) as usize;
        if place >= top.handles.len() {
            return Ok(Effect::Undefined);
        }
        top.handles.set(place, name);
        Ok(goes(top, registers))
    } else {
        let Some(value) = int(&registers, i.rs2) else {
            return Ok(Effect::Undefined);
        };
        let size = access_size(i.op);
        let length = top.bytes.len();
        if at as u128 + size as u128 > length as u128 {
            return Ok(Effect::Undefined);
        }
        store(&mut top.bytes, at as usize, size, value);
        Ok(goes(top, registers))
    }
}

fn store_item(
    alloc: Global,
    i: Ins,
    top: Activation,
    registers: Registers,
) -> Result<Effect, AllocError>
    requires { top.next < 2 ^ 64 - 1 }
    ensures { IfOk result (λ effect. effect ≡ store_effect i top registers) }
{
    if !is_frame(i.rs1) {
        return Ok(Effect::Undefined);
    }
    let at = slot_place(top.bytes.len(), i.imm);
    slot_store(alloc, i, at, top, registers)
}

/// What an instruction that is no branch and no jump does to its thread.
pub(crate) fn plain(
    alloc: Global,
    rodata: &[u8],
    input: &[u8],
    i: Ins,
    top: Activation,
    registers: Registers,
) -> Result<Effect, AllocError>
    requires { top.next < 2 ^ 64 - 1 }
    ensures { IfOk result (λ effect. effect ≡ plain_effect (data_of rodata.now input.now) i top registers) }
{
    match i.op.kind() {
        OpKind::Register => Ok(compute(i, top, registers)),
        OpKind::Immediate => immediate(alloc, i, top, registers),
        OpKind::Upper => Ok(upper(i, top, registers)),
        OpKind::Load => load(alloc, rodata, input, i, top, registers),
        OpKind::Store => store_item(alloc, i, top, registers),
        OpKind::Branch => Ok(Effect::Undefined),
        OpKind::Jump => Ok(Effect::Undefined),
        OpKind::Break => Ok(Effect::Traps {
            kind: TrapKind::Abort,
        }),
    }
}

//! What one item does to its thread.
ghost use Rattle.std.specs.Prelude.{◌≡◌, ◌<◌, ◌+◌, ◌-◌, ◌^◌, IfOk};
ghost use Rattle.std.specs.Option.{option_copied};
ghost use Rattle.st_base.specs.Registers.{read_register, picked};
ghost use Rattle.st_model.specs.Memory.{data_of};
ghost use Rattle.st_model.specs.Effect.{runtime_call, advanced, at_item, int, name_of, goes, li_effect, branch_effect, entered, call_effect, fork_effect, epilogue_effect, putc_effect, entry_effect, runtime_effect, item_effect};

use crate::plain::plain;
use crate::program::{ItemKind, Program, ProgramFunction, RuntimeCall};
use st_base::lists::Cells;
use st_base::reg::Reg;
use st_base::registers::{Pick, Registers};
use st_base::thread::{Activation, ActivationKind, Held, TrapKind};
use st_rv::ins::Op;
use st_rv::results::{is_taken, word_of};
use std::alloc::{AllocError, Global};

/// What an item does, as its thread alone sees it; `top` is the newest activation after the item.
#[derive(Drop)]
pub enum Effect {
    /// A read of something that is not defined.
    Undefined,
    /// The thread goes on.
    Goes {
        top: Activation,
        registers: Registers,
    },
    /// A call of a function.
    Calls {
        top: Activation,
        callee: Activation,
        registers: Registers,
    },
    /// The return of a call.
    Returns {
        registers: Registers,
    },
    /// The end of the thread, with its value and the registers that its first activation keeps.
    Ends {
        value: u64,
        kept: Registers,
    },
    Traps {
        kind: TrapKind,
    },
    /// A byte is printed.
    Prints {
        byte: u8,
        top: Activation,
        registers: Registers,
    },
    /// A child begins at its first activation with the registers that are passed.
    Forks {
        top: Activation,
        child: Activation,
        handle: Reg,
        passed: Registers,
        registers: Registers,
    },
    /// `st_touch`: a0 becomes the value of the future of this name.
    Touches {
        name: Held,
        top: Activation,
        registers: Registers,
    },
    /// `st_counter`: a6 becomes a new counter.
    Counts {
        top: Activation,
        registers: Registers,
    },
    /// `st_done`: the counter of this name grows.
    Adds {
        name: Held,
        top: Activation,
        registers: Registers,
    },
    /// `st_join`: passes when the counter of this name is at least `least`.
    Joins {
        name: Held,
        least: u64,
        top: Activation,
        registers: Registers,
    },
}

/// The activation at its next item.
pub(crate) fn advanced(top: Activation) -> Activation
    requires { top.next < 2 ^ 64 - 1 }
    ensures { result ≡ advanced top }
{
    let mut top = top;
    top.next += 1;
    top
}

/// Goes on at the next item.
pub(crate) fn goes(top: Activation, registers: Registers) -> Effect
    requires { top.next < 2 ^ 64 - 1 }
    ensures { result ≡ goes top registers }
{
    Effect::Goes {
        top: advanced(top),
        registers,
    }
}

/// The number in a register, if one is defined there.
pub(crate) fn int(registers: &Registers, reg: Reg) -> Option<u64>
    ensures { result ≡ int registers.now reg }
{
    match registers.get(reg) {
        Some(Held::Number(n)) => Some(*n),
        _ => None,
    }
}

/// The name in a register, if one is defined there.
pub(crate) fn name(
    alloc: Global,
    registers: &Registers,
    reg: Reg,
) -> Result<Option<Held>, AllocError>
    ensures { IfOk result (λ held. held ≡ name_of (read_register registers.now reg)) }
{
    match registers.get(reg) {
        None => Ok(None),
        Some(Held::Number(_)) => Ok(None),
        Some(name) => Ok(Some(name.copy(alloc)?)),
    }
}

fn li(rd: Reg, value: i64, top: Activation, registers: Registers) -> Effect
    requires { top.next < 2 ^ 64 - 1 }
    ensures { result ≡ li_effect rd value top registers }
{
    let mut registers = registers;
    registers.set(rd, Held::Number(word_of(value)));
    goes(top, registers)
}

fn branch(op: Op, rs1: Reg, rs2: Reg, to: u32, top: Activation, registers: Registers) -> Effect
    requires { top.next < 2 ^ 64 - 1 }
    ensures { result ≡ branch_effect op rs1 rs2 to top registers }
{
    let Some(a) = int(&registers, rs1) else {
        return Effect::Undefined;
    };
    let Some(b) = int(&registers, rs2) else {
        return Effect::Undefined;
    };
    let mut top = top;
    if is_taken(op, a, b) {
        top.next = to as usize;
    } else {
        top.next += 1;
    }
    Effect::Goes { top, registers }
}

/// A new activation of a function, of which nothing is written yet.
pub(crate) fn entered(
    alloc: Global,
    number: u32,
    function: &ProgramFunction,
    kept: Registers,
    kind: ActivationKind,
) -> Result<Activation, AllocError>
    ensures { IfOk result (λ activation. activation ≡ entered number function.now kept kind) }
{
    Ok(Activation {
        function: number as usize,
        next: 0,
        bytes: Cells::undefined(alloc, function.frame_bytes as usize)?,
        handles: Cells::undefined(alloc, function.slots as usize)?,
        kept,
        kind,
    })
}

fn call(
    alloc: Global,
    program: &Program,
    function: u32,
    top: Activation,
    registers: Registers,
) -> Result<Effect, AllocError>
    requires { top.next < 2 ^ 64 - 1 }
    ensures { IfOk result (λ effect. effect ≡ call_effect program.now function top registers) }
{
    let Some(callee) = program.functions.as_slice().get(function as usize) else {
        return Ok(Effect::Undefined);
    };
    let pick = Pick::Arguments {
        ints: callee.ints,
        handles: callee.handles,
    };
    let kept = registers.picked(alloc, Pick::Saved)?;
    Ok(Effect::Calls {
        top: advanced(top),
        callee: entered(alloc, function, callee, kept, ActivationKind::Called)?,
        registers: registers.picked(alloc, pick)?,
    })
}

fn fork(
    alloc: Global,
    program: &Program,
    function: u32,
    handle: Reg,
    top: Activation,
    registers: Registers,
) -> Result<Effect, AllocError>
    requires { top.next < 2 ^ 64 - 1 }
    ensures { IfOk result (λ effect. effect ≡ fork_effect program.now function handle top registers) }
{
    let Some(callee) = program.functions.as_slice().get(function as usize) else {
        return Ok(Effect::Undefined);
    };
    let pick = Pick::Arguments {
        ints: callee.ints,
        handles: callee.handles,
    };
    let kept = registers.picked(alloc, Pick::Saved)?;
    let child = entered(alloc, function, callee, kept, ActivationKind::Forked)?;
    Ok(Effect::Forks {
        top: advanced(top),
        child,
        handle,
        passed: registers.picked(alloc, pick)?,
        registers: registers.picked(alloc, Pick::Saved)?,
    })
}

fn epilogue(top: Activation, registers: Registers) -> Effect
    ensures { result ≡ epilogue_effect top registers }
{
    let Some(value) = int(&registers, Reg::A0) else {
        return Effect::Undefined;
    };
    match top.kind {
        ActivationKind::Called => {
            let mut kept = top.kept;
            kept.set(Reg::A0, Held::Number(value));
            Effect::Returns { registers: kept }
        }
        ActivationKind::Forked => Effect::Ends {
            value,
            kept: top.kept,
        },
        ActivationKind::Root => Effect::Ends {
            value,
            kept: top.kept,
        },
    }
}

/// The runtime call whose entry has this address.
pub fn runtime_call(at: u32) -> Option<RuntimeCall>
    ensures { result ≡ runtime_call at }
{
    match at {
        0x40 => Some(RuntimeCall::Touch),
        0x50 => Some(RuntimeCall::Counter),
        0x60 => Some(RuntimeCall::Done),
        0x70 => Some(RuntimeCall::Join),
        0x80 => Some(RuntimeCall::Poll),
        0x90 => Some(RuntimeCall::Putc),
        _ => None,
    }
}

fn putc(registers: Registers, saved: Registers, top: Activation) -> Effect
    requires top { top.next < 2 ^ 64 - 1 }
    requires saved { saved ≡ picked Pick.Saved registers }
    ensures { result ≡ putc_effect top registers }
{
    let Some(value) = int(&registers, Reg::A0) else {
        return Effect::Undefined;
    };
    Effect::Prints {
        byte: (value % 256) as u8,
        top: advanced(top),
        registers: saved,
    }
}

fn entry(
    alloc: Global,
    call: RuntimeCall,
    top: Activation,
    registers: Registers,
) -> Result<Effect, AllocError>
    requires { top.next < 2 ^ 64 - 1 }
    ensures { IfOk result (λ effect. effect ≡ entry_effect call top registers) }
{
    let saved = registers.picked(alloc, Pick::Saved)?;
    match call {
        RuntimeCall::Putc => Ok(putc(registers, saved, top)),
        RuntimeCall::Poll => Ok(Effect::Goes {
            top: advanced(top),
            registers: saved,
        }),
        RuntimeCall::Counter => Ok(Effect::Counts {
            top: advanced(top),
            registers: saved,
        }),
        RuntimeCall::Touch => {
            let Some(name) = name(alloc, &registers, Reg::A6)? else {
                return Ok(Effect::Undefined);
            };
            Ok(Effect::Touches {
                name,
                top: advanced(top),
                registers: saved,
            })
        }
        RuntimeCall::Done => {
            let Some(name) = name(alloc, &registers, Reg::A6)? else {
                return Ok(Effect::Undefined);
            };
            Ok(Effect::Adds {
                name,
                top: advanced(top),
                registers: saved,
            })
        }
        RuntimeCall::Join => join(alloc, top, &registers, saved),
    }
}

fn join(
    alloc: Global,
    top: Activation,
    registers: &Registers,
    saved: Registers,
) -> Result<Effect, AllocError>
    requires top { top.next < 2 ^ 64 - 1 }
    requires saved { saved ≡ picked Pick.Saved registers.now }
    ensures { IfOk result (λ effect. effect ≡ entry_effect RuntimeCall.Join top registers.now) }
{
    let Some(name) = name(alloc, registers, Reg::A6)? else {
        return Ok(Effect::Undefined);
    };
    let Some(least) = int(registers, Reg::A0) else {
        return Ok(Effect::Undefined);
    };
    Ok(Effect::Joins {
        name,
        least,
        top: advanced(top),
        registers: saved,
    })
}

/// A call of the runtime, by the address of its entry.
fn runtime(
    alloc: Global,
    at: u32,
    top: Activation,
    registers: Registers,
) -> Result<Effect, AllocError>
    requires { top.next < 2 ^ 64 - 1 }
    ensures { IfOk result (λ effect. effect ≡ runtime_effect (runtime_call at) top registers) }
{
    match runtime_call(at) {
        None => Ok(Effect::Undefined),
        Some(call) => entry(alloc, call, top, registers),
    }
}

/// What an item does to its thread, from the newest activation and the registers. Loads read the read-only data and the input.
pub fn item_effect(
    alloc: Global,
    program: &Program,
    rodata: &[u8],
    input: &[u8],
    kind: ItemKind,
    top: Activation,
    registers: Registers,
) -> Result<Effect, AllocError>
    requires { top.next < 2 ^ 64 - 1 }
    ensures { IfOk result (λ effect. effect ≡ item_effect program.now (data_of rodata.now input.now) kind top registers) }
{
    match kind {
        ItemKind::Prologue => Ok(goes(top, registers)),
        ItemKind::Epilogue => Ok(epilogue(top, registers)),
        ItemKind::Plain(i) => plain(alloc, rodata, input, i, top, registers),
        ItemKind::Li { rd, value } => Ok(li(rd, value, top, registers)),
        ItemKind::Branch { op, rs1, rs2, to } => Ok(branch(op, rs1, rs2, to, top, registers)),
        ItemKind::Jump { to } => {
            let mut top = top;
            top.next = to as usize;
            Ok(Effect::Goes { top, registers })
        }
        ItemKind::Call { function } => call(alloc, program, function, top, registers),
        ItemKind::Entry { at } => runtime(alloc, at, top, registers),
        ItemKind::Fork { function, handle } => {
            fork(alloc, program, function, handle, top, registers)
        }
    }
}

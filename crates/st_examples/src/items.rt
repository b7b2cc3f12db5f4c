//! Single items of a program (st_model): loads and constants.
use crate::instructions::hexadecimal;
use crate::lines::BODY;
use st_base::lists::{Cells, Listed};
use st_base::reg::Reg;
use st_base::registers::Registers;
use st_base::slots;
use st_base::thread::{Activation, ActivationKind, Held};
use st_line::{SourceIns, Statement, read_line};
use st_model::effect::{Effect, item_effect};
use st_model::program::{ItemKind, Program};
use std::alloc::{AllocError, Global};

const RODATA: [u8; 16] = [
    0x80, 0x81, 0x82, 0x83, 0x84, 0x85, 0x86, 0x87, 0x88, 0x89, 0x8a, 0x8b, 0x8c, 0x8d, 0x8e, 0x8f,
];

const INPUT: [u8; 11] = [
    0x70, 0x71, 0x72, 0x73, 0x74, 0x75, 0x76, 0x77, 0x78, 0x79, 0x7a,
];

/// The item of a line.
fn item_of(alloc: Global, line: &str) -> Option<ItemKind> {
    match read_line(alloc, BODY, line.as_bytes()).ok()? {
        Some(Statement::Instruction(SourceIns::Plain(ins))) => Some(ItemKind::Plain(ins)),
        Some(Statement::Instruction(SourceIns::Li { rd, value })) => {
            Some(ItemKind::Li { rd, value })
        }
        _ => None,
    }
}

/// A frame with 32 bytes of slots, of which the first two hold -2.
fn frame(alloc: Global) -> Result<Activation, AllocError> {
    let mut bytes = Cells::undefined(alloc, 32)?;
    slots::store(&mut bytes, 0, 2, 0xfffe);
    Ok(Activation {
        function: 0,
        next: 1,
        bytes,
        handles: Cells::undefined(alloc, 0)?,
        kept: Registers::zeroed(alloc)?,
        kind: ActivationKind::Root,
    })
}

/// What an item does in that frame, with so much in a1.
fn effect_of(alloc: Global, kind: ItemKind, a1: u64) -> Result<Effect, AllocError> {
    let program = Program {
        functions: Listed::new(alloc),
        main: 0,
    };
    let mut registers = Registers::zeroed(alloc)?;
    registers.set(Reg::A1, Held::Number(a1));
    let top = Activation {
        next: 1,
        ..frame(alloc)?
    };
    item_effect(alloc, &program, &RODATA, &INPUT, kind, top, registers)
}

/// The number that an effect leaves in a0, or what it is else.
fn told(alloc: Global, effect: &Effect) -> Result<String, AllocError> {
    match effect {
        Effect::Goes { top: _, registers } => match registers.get(Reg::A0) {
            Some(Held::Number(n)) => format!(in alloc; "{n:x}"),
            _ => String::from_str(alloc, "no number"),
        },
        Effect::Traps { kind } => format!(in alloc; "{kind:?}"),
        Effect::Undefined => String::from_str(alloc, "undefined"),
        _ => String::from_str(alloc, "another effect"),
    }
}

/// What comes into a0 by `A1: ITEM`.
pub fn item(alloc: Global, text: &str) -> Result<String, AllocError> {
    let (a1, line) = text.split_once(": ").unwrap_or(("0", text));
    match (hexadecimal(a1), item_of(alloc, line)) {
        (Some(a1), Some(kind)) => {
            let effect = effect_of(alloc, kind, a1)?;
            told(alloc, &effect)
        }
        _ => String::from_str(alloc, "no item"),
    }
}

//! Lists, registers and names (st_base), keys and bytes that count (st_model), and the least function of the flow check (st_flow):
//! each call that takes memory, once, with enough of it.
ghost use Rattle.std.specs.Prelude.{◌≡◌, ◌≤◌, IfOk};
ghost use Rattle.st_model.specs.declared.program.Program.{Program};
ghost use Rattle.st_model.specs.Accepted.{IsFormed};

use st_base::key::key_cmp;
use st_base::line::Line;
use st_base::lists::{Cells, Listed, Stack};
use st_base::name::Name;
use st_base::path::{Bytes, Path};
use st_base::reg::Reg;
use st_base::registers::{Pick, Registers};
use st_base::slots;
use st_base::thread::Held;
use st_flow::first_undefined;
use st_model::output::{Printed, bytes_that_count, counts};
use st_model::program::{Item, ItemKind, Program, ProgramFunction};
use std::alloc::{AllocError, Global};

fn cells(alloc: Global) -> Result<String, AllocError> {
    let mut cells: Cells<u8> = Cells::undefined(alloc, 4)?;
    slots::store(&mut cells, 1, 2, 0x1234);
    let [a, b, c, d] = [cells.get(0), cells.get(1), cells.get(2), cells.get(3)];
    format!(in alloc; "{a:?} {b:?} {c:?} {d:?}")
}

fn stack(alloc: Global) -> Result<String, AllocError> {
    let mut stack = Stack::new(alloc);
    stack.push(1u8)?;
    stack.push(2u8)?;
    format!(in alloc; "{:?}", stack.pop())
}

fn listed(alloc: Global) -> Result<String, AllocError> {
    let mut listed = Listed::new(alloc);
    listed.push(5u8)?;
    format!(in alloc; "{:?}", listed.as_slice())
}

fn bytes(alloc: Global) -> Result<String, AllocError> {
    let mut bytes = Bytes::new(alloc);
    bytes.push(b'x')?;
    format!(in alloc; "{:?}", bytes.as_slice())
}

fn name(alloc: Global) -> Result<String, AllocError> {
    let name = Name::from_slice(alloc, b"main")?;
    format!(in alloc; "{}", name.copy(alloc)?.is(&name))
}

fn path(alloc: Global) -> Result<String, AllocError> {
    let child = Path::root(alloc).child(alloc, 3)?;
    format!(in alloc; "{} {child:?}", child.copy(alloc)?.is(&child))
}

fn registers(alloc: Global) -> Result<String, AllocError> {
    let mut registers = Registers::zeroed(alloc)?;
    registers.set(Reg::S1, Held::Future(Path::root(alloc).child(alloc, 3)?));
    registers.set(Reg::T0, Held::Number(7));
    let saved = registers.picked(alloc, Pick::Saved)?;
    let is_kept = matches!(saved.get(Reg::S1), Some(Held::Future(_)));
    format!(in alloc; "{is_kept} {}", saved.get(Reg::T0).is_none())
}

/// What calls on a kind of list leave.
pub fn list(alloc: Global, kind: &str) -> Result<String, AllocError> {
    match kind {
        "cells" => cells(alloc),
        "stack" => stack(alloc),
        "listed" => listed(alloc),
        "bytes" => bytes(alloc),
        "name" => name(alloc),
        "path" => path(alloc),
        "registers" => registers(alloc),
        _ => String::from_str(alloc, "no such list"),
    }
}

/// One byte before the first fork, one behind it, one behind the second.
const OUT: [Printed; 3] = [
    Printed { byte: 65, forks: 0 },
    Printed { byte: 66, forks: 1 },
    Printed { byte: 67, forks: 2 },
];

/// How many bytes count at a path, and whether the second does.
fn counted(alloc: Global, path: &Path) -> Result<String, AllocError> {
    format!(in alloc; "{} {}", bytes_that_count(&OUT, path), counts(OUT[1], path))
}

/// How keys of the root and of its first child compare, and which bytes count at the root, its two children and one of theirs.
pub fn keys(alloc: Global) -> Result<String, AllocError> {
    let root = Path::root(alloc);
    let first = root.child(alloc, 0)?;
    let second = root.child(alloc, 1)?;
    let inner = second.child(alloc, 7)?;
    format!(in alloc;
        "{:?} {:?}; {}; {}; {}; {}",
        key_cmp(&root, 1, &first, 0),
        key_cmp(&root, 0, &first, 0),
        counted(alloc, &root)?,
        counted(alloc, &first)?,
        counted(alloc, &second)?,
        counted(alloc, &inner)?
    )
}

/// A function of so many integers that returns at once.
fn returning(alloc: Global, ints: u32) -> Result<ProgramFunction, AllocError>
    requires { ints ≤ 6 }
    ensures { IfOk result (λ function. (p : Program) → IsFormed p function) }
{
    let line = Line { file: 1, line: 1 };
    let mut items = Listed::new(alloc);
    items.push(Item {
        line,
        kind: ItemKind::Prologue,
    })?;
    items.push(Item {
        line,
        kind: ItemKind::Epilogue,
    })?;
    Ok(ProgramFunction {
        ints,
        handles: 0,
        frame_bytes: 16,
        saved: 0,
        slots: 0,
        items,
    })
}

/// The first undefined read of a function of one integer, or of none, that returns at once.
pub fn flow(alloc: Global, ints: &str) -> Result<String, AllocError> {
    let program = Program {
        functions: Listed::new(alloc),
        main: 0,
    };
    let function = returning(alloc, if ints == "0" { 0 } else { 1 })?;
    match first_undefined(alloc, &program, &function)? {
        None => String::from_str(alloc, "none"),
        Some(bad) => {
            let path = bad.path.as_slice();
            format!(in alloc; "item {} place {} path {path:?}", bad.item, bad.place)
        }
    }
}

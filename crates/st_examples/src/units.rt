//! Units (st_asm) and their canonical texts (st_print).
use crate::texts::{escaped, files_of};
use st_asm::{AsmError, Unit, entry_at, is_entry, is_local, read_unit};
use st_print::unit_text;
use std::alloc::{AllocError, Global};

/// The functions of a unit, their items and its data, as text.
fn written(alloc: Global, unit: &Unit) -> Result<String, AllocError> {
    let mut text = String::new(alloc);
    for function in unit.functions() {
        let name = str::from_utf8(function.name.as_bytes()).unwrap_or("?");
        let head = format!(in alloc;
            "{name} {},{} {} {:?}; ",
            function.ints, function.handles, function.slots, function.line
        )?;
        text.push_str(head.as_str())?;
        for item in function.items.as_slice() {
            let line = format!(in alloc; "{} {} {:?}; ", item.line.line, item.labelled, item.ins)?;
            text.push_str(line.as_str())?;
        }
    }
    let data = format!(in alloc; "{:?}", unit.rodata())?;
    text.push_str(data.as_str())?;
    Ok(text)
}

/// The canonical text of a unit, its line ends as `\n`.
fn canonical(alloc: Global, unit: &Unit) -> Result<String, AllocError> {
    let text = unit_text(alloc, unit)?;
    escaped(alloc, text.as_slice())
}

fn size(alloc: Global, unit: &Unit) -> Result<String, AllocError> {
    format!(in alloc;
        "{} functions, {} bytes",
        unit.functions().len(),
        unit.rodata().len()
    )
}

/// What is to be told of a unit.
#[derive(Clone, Copy)]
enum Told {
    All,
    Size,
    Canonical,
}

/// What is told of the unit of these files, or its fault.
fn read(alloc: Global, told: Told, files: &[u8]) -> Result<String, AllocError> {
    let texts = files_of(alloc, files)?;
    if texts.is_empty() || texts.len() > 64 {
        return String::from_str(alloc, "no such number of files");
    }
    match read_unit(alloc, texts.as_slice()) {
        Ok(unit) => match told {
            Told::All => written(alloc, &unit),
            Told::Size => size(alloc, &unit),
            Told::Canonical => canonical(alloc, &unit),
        },
        Err(AsmError::Fault(fault)) => {
            let kind = fault.kind.text();
            format!(in alloc; "{}:{}: {kind}", fault.line.file, fault.line.line)
        }
        Err(AsmError::OutOfMemory) => Err(AllocError),
    }
}

/// The unit of these files.
pub fn unit(alloc: Global, files: &[u8]) -> Result<String, AllocError> {
    read(alloc, Told::All, files)
}

/// The fault of these files, or how large their unit is.
pub fn fault(alloc: Global, files: &[u8]) -> Result<String, AllocError> {
    read(alloc, Told::Size, files)
}

/// The canonical text of the unit of these files.
pub fn printed(alloc: Global, files: &[u8]) -> Result<String, AllocError> {
    read(alloc, Told::Canonical, files)
}

/// A text with its line ends in place of `\n`.
fn unescaped(alloc: Global, text: &str) -> Result<Vec<u8>, AllocError> {
    let mut bytes = Vec::new(alloc);
    for part in text.split("\\n") {
        bytes.extend_from_slice(part.as_bytes())?;
        bytes.push(b'\n')?;
    }
    Ok(bytes)
}

/// Whether the canonical text of these files is its own canonical text.
pub fn again(alloc: Global, files: &[u8]) -> Result<String, AllocError> {
    let first = printed(alloc, files)?;
    let text = unescaped(alloc, first.as_str())?;
    let second = printed(alloc, text.as_slice())?;
    if first == second && first.as_str().starts_with("main:\\n    .st_args ") {
        String::from_str(alloc, "the same")
    } else {
        format!(in alloc; "{first} and {second}")
    }
}

/// The address of an entry, and whether a name is an entry's and a local label's.
pub fn entry(alloc: Global, name: &[u8]) -> Result<String, AllocError> {
    format!(in alloc;
        "{:?} {} {}",
        entry_at(name),
        is_entry(name),
        is_local(name)
    )
}

//! Acceptance (st_check): the first fault of files.
use crate::texts::files_of;
use st_asm::{Unit, read_unit};
use st_check::{FormError, FormFault, check, first_form_fault};
use std::alloc::{AllocError, Global};

/// The first fault of form as its line and kind.
fn form_text(alloc: Global, unit: &Unit) -> Result<String, AllocError> {
    match first_form_fault(alloc, unit.functions())? {
        Some((line, kind)) => format!(in alloc; "{} {kind:?}", line.line),
        None => String::from_str(alloc, "none"),
    }
}

/// The first fault of form of these files.
pub fn form(alloc: Global, files: &[u8]) -> Result<String, AllocError> {
    let texts = files_of(alloc, files)?;
    if texts.is_empty() || texts.len() > 64 {
        return String::from_str(alloc, "no such number of files");
    }
    match read_unit(alloc, texts.as_slice()) {
        Ok(unit) => form_text(alloc, &unit),
        Err(_) => String::from_str(alloc, "no unit"),
    }
}

/// A fault as its line, its kind and the lines of its path.
fn fault_text(alloc: Global, fault: &FormFault) -> Result<String, AllocError> {
    let mut text = format!(in alloc; "{} {:?}", fault.line.line, fault.kind)?;
    for line in fault.path.as_slice() {
        let step = format!(in alloc; " {}", line.line)?;
        text.push_str(step.as_str())?;
    }
    Ok(text)
}

/// What the check of a unit says.
fn check_text(alloc: Global, unit: &Unit) -> Result<String, AllocError> {
    match check(alloc, unit) {
        Ok(checked) => {
            let functions = checked.unit().functions().len();
            format!(in alloc;
                "{} of {functions} functions",
                checked.program().functions.len()
            )
        }
        Err(FormError::Fault(fault)) => fault_text(alloc, &fault),
        Err(FormError::OutOfMemory) => Err(AllocError),
    }
}

/// What the check of these files says.
pub fn checked(alloc: Global, files: &[u8]) -> Result<String, AllocError> {
    let texts = files_of(alloc, files)?;
    if texts.is_empty() || texts.len() > 64 {
        return String::from_str(alloc, "no such number of files");
    }
    match read_unit(alloc, texts.as_slice()) {
        Ok(unit) => check_text(alloc, &unit),
        Err(_) => String::from_str(alloc, "no unit"),
    }
}

//! The ordinary-call run of accepted programs (st_model).
use crate::texts::files_of;
use st_asm::read_unit;
use st_base::map::{MOST_DATA, MOST_INPUT};
use st_check::{Checked, check};
use st_model::ordinary::ordinary;
use std::alloc::{AllocError, Global};

/// How a program ends on an input, within so many steps.
fn checked_end(
    alloc: Global,
    checked: &Checked<'_>,
    input: &[u8],
    steps: u32,
) -> Result<String, AllocError> {
    let rodata = checked.unit().rodata();
    if input.len() > MOST_INPUT || rodata.len() > MOST_DATA {
        return String::from_str(alloc, "too much");
    }
    let end = ordinary(alloc, checked.program(), rodata, input, u64::from(steps))?;
    format!(in alloc; "{end:?}")
}

fn files_end(alloc: Global, files: &str, input: &str, steps: u32) -> Result<String, AllocError> {
    let texts = files_of(alloc, files.as_bytes())?;
    if texts.is_empty() || texts.len() > 64 {
        return String::from_str(alloc, "no such number of files");
    }
    let Ok(unit) = read_unit(alloc, texts.as_slice()) else {
        return String::from_str(alloc, "not read");
    };
    match check(alloc, &unit) {
        Ok(checked) => checked_end(alloc, &checked, input.as_bytes(), steps),
        Err(_) => String::from_str(alloc, "not accepted"),
    }
}

/// How a program ends: `STEPS;INPUT;FILES`.
pub fn end(alloc: Global, text: &str) -> Result<String, AllocError> {
    let (steps, rest) = text.split_once(';').unwrap_or(("0", text));
    let (input, files) = rest.split_once(';').unwrap_or(("", rest));
    files_end(alloc, files, input, steps.parse().unwrap_or(0))
}

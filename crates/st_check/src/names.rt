//! The functions of a unit by their names.
ghost use Rattle.std.specs.Prelude.{◌≡◌, IfOk, map};
ghost use Rattle.st_asm.specs.Labels.{is_named};
ghost use Rattle.st_check.specs.Faults.{is_runtime_call};
ghost use Rattle.st_check.specs.Views.{place_in, TellsNames};

use st_asm::Function;
use std::alloc::{AllocError, Global};
use std::collections::BTreeMap;

/// The place of the first function of each name.
pub type Names<'u> = BTreeMap<&'u [u8], usize>;

/// The functions by their names.
pub fn names_of<'u>(alloc: Global, functions: &'u [Function]) -> Result<Names<'u>, AllocError>
    ensures { IfOk result (λ names. TellsNames names functions.now) }
{
    let mut names = BTreeMap::new(alloc);
    let mut left = functions.len();
    while left > 0 {
        left -= 1;
        names.insert(functions[left].name.as_bytes(), left)?;
    }
    Ok(names)
}

/// The place of the first function of a name.
pub fn place_of(names: &Names<'_>, name: &[u8]) -> Option<usize>
    ensures { result ≡ place_in name.now names.now }
{
    names.get(name).copied()
}

/// The names of the runtime calls; the other entries are none.
const RUNTIME_CALLS: [&str; 6] = [
    "st_touch",
    "st_counter",
    "st_done",
    "st_join",
    "st_poll",
    "st_putc",
];

/// Whether a name is among these.
fn is_named(name: &[u8], names: &[&str]) -> bool
    ensures { result ≡ is_named name.now (map (λ n. n.now) names.now) }
{
    for other in names {
        if other.as_bytes() == name {
            return true;
        }
    }
    false
}

/// Whether a name is one of the six runtime calls.
pub fn is_runtime_call(name: &[u8]) -> bool
    ensures { result ≡ is_runtime_call name.now }
{
    is_named(name, &RUNTIME_CALLS)
}

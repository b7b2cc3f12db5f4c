//! The faults of a unit's form.
ghost use Rattle.std.specs.Prelude.{◌≡◌, None, IfOk};
ghost use Rattle.st_check.specs.Faults.{is_main_right, main_faults, functions_faults, unit_faults, least_fault};
ghost use Rattle.st_check.specs.Views.{TellsNames, least_onto};

use crate::faults::function_fault;
use crate::least::{Fault, with_fault};
use crate::names::{Names, names_of};
use st_asm::Function;
use st_base::form::FormKind;
use st_base::line::Line;
use std::alloc::{AllocError, Global};

/// Whether `main` takes nothing, or one integer.
fn is_main_right(function: &Function) -> bool
    ensures { result ≡ is_main_right function.now }
{
    function.ints <= 1 && function.handles == 0
}

/// The least of the fault of `main`, if it has one or isn't there, and of what is given.
fn main_fault(functions: &[Function], best: Option<Fault>) -> Option<Fault>
    ensures { result ≡ least_onto (main_faults functions.now) best }
{
    for function in functions {
        if function.name.as_bytes() == b"main".as_slice() {
            return with_fault(
                !is_main_right(function),
                function.line,
                FormKind::NoMain,
                best,
            );
        }
    }
    with_fault(true, Line { file: 1, line: 1 }, FormKind::NoMain, best)
}

/// The least fault of all functions.
fn functions_fault(
    alloc: Global,
    names: &Names<'_>,
    functions: &[Function],
) -> Result<Option<Fault>, AllocError>
    ensures { TellsNames names.now functions.now → IfOk result (λ least. least ≡ least_onto (functions_faults functions.now 0 functions.now) None) }
{
    let mut best = None;
    let mut left = functions.len();
    while left > 0 {
        left -= 1;
        best = function_fault(alloc, names, left, &functions[left], best)?;
    }
    Ok(best)
}

/// The least fault of a unit's form but undefined reads; `None` where it has none.
#[tactic(auto, unfolding(crate::specs::Faults::unit_faults))]
pub fn first_form_fault(alloc: Global, functions: &[Function]) -> Result<Option<Fault>, AllocError>
    ensures { IfOk result (λ least. least ≡ least_fault (unit_faults functions.now)) }
{
    let names = names_of(alloc, functions)?;
    let best = functions_fault(alloc, &names, functions)?;
    Ok(main_fault(functions, best))
}

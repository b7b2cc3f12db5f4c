//! From texts to an accepted unit: the steps that `check`, `post`, `run` and `plain` begin with. Each gives the fault at which its
//! command is refused.
ghost use Rattle.std.specs.Prelude.{◌≡◌, ◌≤◌, ℕ, List, length, map, Ok, IfOk, IfErr};
ghost use Rattle.st_asm.specs.Assembly.{unit_of};
ghost use Rattle.st_asm.specs.Reading.{parts_of};
ghost use Rattle.st_print.specs.declared.fault.Fault.TheVariants.{Checking, Linking};
ghost use Rattle.st_main.specs.Answer.{IsUnaccepted};
ghost use Rattle.st_main.specs.Making.{IsNamed, MemoryOr};

use st_asm::{AsmError, Unit, read_unit};
use st_check::{Checked, FormError, FormFault, check};
use st_link::LinkFault;
use st_print::Fault;
use std::alloc::Global;

/// The unit of 1 to 64 texts, or their first fault of reading.
pub fn make_unit(alloc: Global, texts: &[Vec<u8>]) -> Result<Unit, Fault>
    requires some { 1 ≤ length texts.now }
    requires few { length texts.now ≤ 64 }
    ensures unit { IfOk result (λ unit. unit_of (map (λ t. t.items) texts.now) ≡ Ok (parts_of unit)) }
    ensures fault { IfErr result (MemoryOr (IsUnaccepted (unit_of (map (λ t. t.items) texts.now)))) }
    ensures names { IfErr result (IsNamed (length texts.now)) }
{
    match read_unit(alloc, texts) {
        Ok(unit) => Ok(unit),
        Err(AsmError::Fault(fault)) => Err(Fault::Reading(fault)),
        Err(AsmError::OutOfMemory) => Err(Fault::OutOfMemory),
    }
}

/// The unit with its program where it is accepted, or its first fault.
pub fn accept_unit<'u>(alloc: Global, unit: &'u Unit) -> Result<Checked<'u>, Fault>
    ensures unit { IfOk result (λ checked. checked.unit.now ≡ unit.now) }
    ensures fault { IfErr result (MemoryOr (IsUnaccepted (Ok (parts_of unit.now)))) }
    ensures names { IfErr result (λ fault. (texts : List (List ℕ)) → 1 ≤ length texts → unit_of texts ≡ Ok (parts_of unit.now) → IsNamed (length texts) fault) }
{
    match check(alloc, unit) {
        Ok(checked) => Ok(checked),
        Err(FormError::Fault(fault)) => Err(form_fault(&fault)),
        Err(FormError::OutOfMemory) => Err(Fault::OutOfMemory),
    }
}

/// The fault of a unit that isn't accepted.
fn form_fault(fault: &FormFault) -> Fault
    ensures { result ≡ Checking fault.now.line fault.now.kind }
{
    Fault::Checking {
        line: fault.line,
        kind: fault.kind,
    }
}

/// The fault of a branch that doesn't reach.
pub fn far_fault(fault: &LinkFault) -> Fault
    ensures { result ≡ Linking fault.now.line fault.now.distance }
{
    Fault::Linking {
        line: fault.line,
        distance: fault.distance,
    }
}

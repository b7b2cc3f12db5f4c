//! Whether a unit is accepted.
ghost use Rattle.std.specs.Prelude.{◌≡◌, IfOk, IfErr};
ghost use Rattle.st_model.specs.Accepted.{IsAccepted};
ghost use Rattle.st_model.specs.Layout.{HasSize};
ghost use Rattle.st_check.specs.Acceptance.{HasOrder, HasUnitLines, IsAcceptedUnit, IsErrorLine, IsRefusal};
ghost use Rattle.st_check.specs.Programs.{program_of as program_of'};

use crate::error::FormError;
use crate::fault::FormFault;
use crate::program::program_of;
use crate::reads::first_read_fault;
use crate::unit::first_form_fault;
use st_asm::Unit;
use st_base::lists::Listed;
use st_model::program::Program;
use std::alloc::Global;

/// An accepted unit and its program.
#[derive(Drop)]
pub struct Checked<'u> {
    unit: &'u Unit,
    program: Program,
    ghost is_accepted_unit: { ∥ IsAcceptedUnit unit.now.functions ∥₁ },
    ghost is_program: { ∥ program ≡ program_of' unit.now.functions ∥₁ },
    ghost is_accepted: { ∥ IsAccepted program ∥₁ },
    ghost has_size: { ∥ HasSize program ∥₁ },
    ghost has_lines: { ∥ HasUnitLines unit.now.functions program ∥₁ },
    ghost has_order: { ∥ HasOrder program ∥₁ },
}

impl Checked<'_> {
    /// The accepted unit.
    pub fn unit(&self) -> &Unit
        ensures { result.now ≡ self.now.unit.now }
    {
        self.unit
    }

    /// Its program.
    pub fn program(&self) -> &Program
        ensures program { result.now ≡ self.now.program }
        ensures accepted { ∥ IsAccepted result.now ∥₁ }
    {
        &self.program
    }
}

/// The unit with its program, where it is accepted.
///
/// Errors: the unit's first fault, where it has one, by its line and there by the least kind, undefined reads only where it has
/// no other, and the first of them by its line; or too little memory.
pub fn check(alloc: Global, unit: &Unit) -> Result<Checked<'_>, FormError>
    ensures unit { IfOk result (λ checked. checked.unit.now ≡ unit.now) }
    ensures fault { IfErr result (IsRefusal unit.now.functions) }
    ensures line { IfErr result (λ error. ∥ IsErrorLine unit.now.functions error ∥₁) }
{
    let functions = unit.functions();
    if let Some((line, kind)) = first_form_fault(alloc, functions)? {
        let path = Listed::new(alloc);
        return Err(FormError::Fault(FormFault { line, kind, path }));
    }
    let program = program_of(alloc, functions)?;
    if let Some(fault) = first_read_fault(alloc, &program)? {
        return Err(FormError::Fault(fault));
    }
    Ok(Checked { unit, program })
}

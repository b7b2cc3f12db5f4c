//! The places of a unit that operands name.
ghost use Rattle.std.specs.Prelude.{◌≡◌, ◌||◌, false, IfOk, OnOk};
ghost use Rattle.std.specs.Option.{option_copied};
ghost use Rattle.st_line.specs.declared.source.Target.{Target};
ghost use Rattle.st_line.specs.declared.source.Target.TheVariants.{Place, Data};
ghost use Rattle.st_print.specs.Spots.{is_spot, is_target, target_named, is_named_in, is_named};
ghost use Rattle.st_print.specs.Numbering.{is_held};

use st_asm::{Function, SourceLine};
use st_line::{SourceIns, Target};
use std::alloc::{AllocError, Global};
use std::collections::BTreeSet;

/// What an instruction's operand names.
fn target_named(ins: &SourceIns) -> Option<&Target>
    ensures { option_copied result ≡ target_named ins.now }
{
    match ins {
        SourceIns::La { to, .. } => Some(to),
        SourceIns::Branch { to, .. } => Some(to),
        SourceIns::Jump { to } => Some(to),
        _ => None,
    }
}

/// The places that operands name: items by the numbers of function and item, and offsets of the data.
#[derive(Drop)]
pub(crate) struct Named {
    pub(crate) places: BTreeSet<(usize, usize)>,
    pub(crate) offsets: BTreeSet<usize>,
}

impl Named {
    /// The places that the operands of these functions name.
    pub(crate) fn of(alloc: Global, functions: &[Function]) -> Result<Named, AllocError>
        ensures { IfOk result (λ named. (spot : Target) → is_held named spot ≡ is_named functions.now spot) }
    {
        let mut named = Named::new(alloc);
        for function in functions {
            named.add_items(function.items.as_slice())?;
        }
        Ok(named)
    }

    fn new(alloc: Global) -> Named
        ensures { (spot : Target) → is_held result spot ≡ false }
    {
        Named {
            places: BTreeSet::new(alloc),
            offsets: BTreeSet::new(alloc),
        }
    }

    fn add_items(&mut self, items: &[SourceLine]) -> Result<(), AllocError>
        ensures { OnOk result ((spot : Target) → is_held self.new spot ≡ (is_held self.old spot || is_named_in items.now spot)) }
    {
        for item in items {
            self.add_named(&item.ins)?;
        }
        Ok(())
    }

    fn add_named(&mut self, ins: &SourceIns) -> Result<(), AllocError>
        ensures { OnOk result ((spot : Target) → is_held self.new spot ≡ (is_held self.old spot || is_target spot (target_named ins.now))) }
    {
        match target_named(ins) {
            Some(to) => self.add(to),
            None => Ok(()),
        }
    }

    fn add(&mut self, to: &Target) -> Result<(), AllocError>
        ensures { OnOk result ((spot : Target) → is_held self.new spot ≡ (is_held self.old spot || is_spot spot to.now)) }
    {
        match to {
            Target::Place { function, item } => {
                self.places.insert((*function as usize, *item as usize))?;
                Ok(())
            }
            Target::Data { offset } => {
                self.offsets.insert(*offset as usize)?;
                Ok(())
            }
            Target::Name(_) => Ok(()),
        }
    }

    /// Whether an operand names the place.
    pub(crate) fn has_place(&self, function: usize, item: usize) -> bool
        ensures { result ≡ is_held self.now (Place function item) }
    {
        self.places.contains(&(function, item))
    }

    /// Whether an operand names the offset.
    pub(crate) fn has_offset(&self, offset: usize) -> bool
        ensures { result ≡ is_held self.now (Data offset) }
    {
        self.offsets.contains(&offset)
    }
}

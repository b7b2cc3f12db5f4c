//! Names in operands become places.
ghost use Rattle.std.specs.Prelude.{◌≡◌, ◌++◌, ◌∷◌, [], List, IfOk, OnOk, map};
ghost use Rattle.st_asm.specs.Assembly.{Label, target_in, ins_in, item_in, function_in};
ghost use Rattle.st_asm.specs.Reading.{TellsSpots, label_view, label_views};

use crate::assembly::{Marked, Spot};
use crate::entries::scope_of;
use crate::labels::{Labels, put, value_at};
use crate::unit::{Function, SourceLine};
use st_base::lists::Listed;
use st_line::{SourceIns, Target};
use std::alloc::{AllocError, Global};
use std::collections::BTreeMap;

/// Puts what stands at a label.
fn add_place<'a>(
    alloc: Global,
    places: &mut Labels<'a, Spot>,
    label: &Marked<'a>,
) -> Result<(), AllocError>
    ensures { (ls : List Label) → TellsSpots places.old ls → OnOk result (TellsSpots places.new (ls ++ label_view label.now ∷ [])) }
{
    put(alloc, places, label.scope, label.name, label.spot)?;
    Ok(())
}

/// What stands at each label.
pub(crate) fn places_of<'a>(
    alloc: Global,
    labels: &[Marked<'a>],
) -> Result<Labels<'a, Spot>, AllocError>
    ensures { IfOk result (λ places. TellsSpots places (label_views labels.now)) }
{
    let mut places = BTreeMap::new(alloc);
    for label in labels {
        add_place(alloc, &mut places, label)?;
    }
    Ok(places)
}

/// What an operand of a line of this file stands for.
fn target_in(places: &Labels<'_, Spot>, file: u32, to: Target) -> Target
    ensures { (ls : List Label) → TellsSpots places.now ls → result ≡ target_in ls file to }
{
    match to {
        Target::Name(name) => match value_at(
            places,
            scope_of(file, name.as_bytes()),
            name.as_bytes(),
        ) {
            Some(Spot::Place { function, item }) => Target::Place { function, item },
            Some(Spot::Data { offset }) => Target::Data { offset },
            None => Target::Name(name),
        },
        _ => to,
    }
}

fn ins_in(places: &Labels<'_, Spot>, file: u32, ins: SourceIns) -> SourceIns
    ensures { (ls : List Label) → TellsSpots places.now ls → result ≡ ins_in ls file ins }
{
    match ins {
        SourceIns::La { rd, to } => SourceIns::La {
            rd,
            to: target_in(places, file, to),
        },
        SourceIns::Branch { op, rs1, rs2, to } => SourceIns::Branch {
            op,
            rs1,
            rs2,
            to: target_in(places, file, to),
        },
        SourceIns::Jump { to } => SourceIns::Jump {
            to: target_in(places, file, to),
        },
        _ => ins,
    }
}

fn items_in(
    alloc: Global,
    places: &Labels<'_, Spot>,
    items: Vec<SourceLine>,
) -> Result<Listed<SourceLine>, AllocError>
    ensures { (ls : List Label) → TellsSpots places.now ls → IfOk result (λ found. found ≡ map (item_in ls) items.items) }
{
    let mut found = Listed::new(alloc);
    for item in items {
        let ins = ins_in(places, item.line.file, item.ins);
        found.push(SourceLine {
            line: item.line,
            labelled: item.labelled,
            ins,
        })?;
    }
    Ok(found)
}

fn function_in(
    alloc: Global,
    places: &Labels<'_, Spot>,
    function: Function,
) -> Result<Function, AllocError>
    ensures { (ls : List Label) → TellsSpots places.now ls → IfOk result (λ found. found ≡ function_in ls function) }
{
    let items = items_in(alloc, places, function.items.into_vec())?;
    Ok(Function {
        name: function.name,
        ints: function.ints,
        handles: function.handles,
        slots: function.slots,
        line: function.line,
        items,
    })
}

/// The functions with places in their operands.
pub(crate) fn functions_in(
    alloc: Global,
    places: &Labels<'_, Spot>,
    functions: Vec<Function>,
) -> Result<Listed<Function>, AllocError>
    ensures { (ls : List Label) → TellsSpots places.now ls → IfOk result (λ found. found ≡ map (function_in ls) functions.items) }
{
    let mut found = Listed::new(alloc);
    for function in functions {
        found.push(function_in(alloc, places, function)?)?;
    }
    Ok(found)
}

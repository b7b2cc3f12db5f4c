//! The program of a unit.
ghost use Rattle.std.specs.Prelude.{◌≡◌, ◌<◌, ◌≤◌, ◌^◌, ◌∷◌, ◌==◌, ℕ, false, List, Some, None, if◌then◌else◌, IfOk, OnOk, drop, length, map};
ghost use Rattle.std.specs.BTreeMap as tree;
ghost use Rattle.std.specs.Ordering.{nat_cmp};
ghost use Rattle.std.specs.Option.{option_or};
ghost use Rattle.st_asm.specs.declared.unit.Function.{Function as Function'};
ghost use Rattle.st_check.specs.Shape.{Group as Group', formed};
ghost use Rattle.st_check.specs.Programs.{is_fork_group, item_of_target, data_address, call_kind, function_place, called, call_behind, line_kind, items_of, saved_bit, saved_bits, function_by, program_function, program_of};
ghost use Rattle.st_check.specs.Views.{TellsNames, TellsNumbers, number_in, item_of, prologue_item, formed_view, group_view, groups_view};

use crate::body::{Group, Placed};
use crate::faults::is_fork;
use crate::names::{Names, names_of, place_of};
use crate::shape::{Formed, Shape, first_line, shape_of};
use st_asm::{Function, SourceIns, Target, entry_at};
use st_base::line::Line;
use st_base::lists::Listed;
use st_base::map::DATA_START;
use st_base::reg::Reg;
use st_model::program::{Item, ItemKind, Program, ProgramFunction};
use std::alloc::{AllocError, Global};
use std::collections::BTreeMap;

/// A number as 32 bits; there is no room for what 2^32 stands for.
fn small(n: usize) -> Result<u32, AllocError>
    ensures { IfOk result (λ m. m ≡ n) }
{
    if n < 0x1_0000_0000 {
        Ok(n as u32)
    } else {
        Err(AllocError)
    }
}

/// The numbers of the items that begin at places of a function's lines.
#[derive(Drop)]
pub struct Numbers {
    pub items: BTreeMap<usize, usize>,
    /// The number behind the last item.
    pub end: usize,
}

/// Whether a group is a line `.st_fork`.
fn is_fork_group(group: Group<'_>) -> bool
    ensures { result ≡ is_fork_group (group_view group.entry) }
{
    match group {
        Group::Single(line) => is_fork(&line.ins),
        Group::Epilogue(_) => false,
    }
}

/// The number of the item that begins at a place.
fn number_at(numbers: &Numbers, at: usize) -> usize
    ensures { result ≡ number_in numbers.now at }
{
    match numbers.items.get(&at) {
        Some(number) => *number,
        None => numbers.end,
    }
}

/// The item to which a branch goes.
fn item_of_target(numbers: &Numbers, to: &Target) -> Result<u32, AllocError>
    ensures { (gs : List (ℕ × Group')) → TellsNumbers numbers.now gs → IfOk result (λ n. n ≡ item_of_target gs to.now) }
{
    match to {
        Target::Place { item, .. } => small(number_at(numbers, *item as usize)),
        _ => Ok(0),
    }
}

fn data_address(to: &Target) -> i64
    ensures { result ≡ data_address to.now }
{
    match to {
        Target::Data { offset } => i64::from(DATA_START) + i64::from(*offset),
        _ => 0,
    }
}

/// A call of a function, or of the runtime.
fn call_kind(names: &Names<'_>, name: &[u8]) -> Result<ItemKind, AllocError>
    ensures { (functions : List Function') → TellsNames names.now functions → IfOk result (λ kind. kind ≡ call_kind functions name.now (function_place functions name.now)) }
{
    match place_of(names, name) {
        Some(place) => {
            let function = small(place)?;
            Ok(ItemKind::Call { function })
        }
        None => Ok(ItemKind::Entry {
            at: entry_at(name).unwrap_or(0),
        }),
    }
}

/// The function that a line calls.
fn called(names: &Names<'_>, ins: &SourceIns) -> Result<u32, AllocError>
    ensures { (functions : List Function') → TellsNames names.now functions → IfOk result (λ f. f ≡ called functions ins.now) }
{
    match ins {
        SourceIns::Call { name } => small(place_of(names, name.as_bytes()).unwrap_or(0)),
        _ => Ok(0),
    }
}

fn called_in(names: &Names<'_>, group: Group<'_>) -> Result<u32, AllocError>
    ensures { (functions : List Function') (at : ℕ) (gs : List (ℕ × Group')) → TellsNames names.now functions → IfOk result (λ f. f ≡ call_behind functions ((at, group_view group.entry) ∷ gs)) }
{
    match group {
        Group::Single(line) => called(names, &line.ins),
        Group::Epilogue(_) => Ok(0),
    }
}

/// The function that the line behind a fork calls.
fn call_behind(names: &Names<'_>, groups: &[Placed<'_>], at: usize) -> Result<u32, AllocError>
    ensures { (functions : List Function') → TellsNames names.now functions → IfOk result (λ f. f ≡ call_behind functions (groups_view (drop at groups.now))) }
{
    if at >= groups.len() {
        return Ok(0);
    }
    let function = called_in(names, groups[at].group)?;
    Ok(function)
}

/// What a line of a body is; the groups behind it begin at `behind`.
fn line_kind(
    names: &Names<'_>,
    numbers: &Numbers,
    ins: &SourceIns,
    groups: &[Placed<'_>],
    behind: usize,
) -> Result<ItemKind, AllocError>
    ensures { (functions : List Function') (gs : List (ℕ × Group')) → TellsNames names.now functions → TellsNumbers numbers.now gs → IfOk result (λ kind. kind ≡ line_kind functions gs ins.now (groups_view (drop behind groups.now))) }
{
    match ins {
        SourceIns::Plain(i) => Ok(ItemKind::Plain(*i)),
        SourceIns::Li { rd, value } => Ok(ItemKind::Li {
            rd: *rd,
            value: *value,
        }),
        SourceIns::La { rd, to } => Ok(ItemKind::Li {
            rd: *rd,
            value: data_address(to),
        }),
        SourceIns::Branch { op, rs1, rs2, to } => {
            let to = item_of_target(numbers, to)?;
            Ok(ItemKind::Branch {
                op: *op,
                rs1: *rs1,
                rs2: *rs2,
                to,
            })
        }
        SourceIns::Jump { to } => {
            let to = item_of_target(numbers, to)?;
            Ok(ItemKind::Jump { to })
        }
        SourceIns::Call { name } => call_kind(names, name.as_bytes()),
        SourceIns::Ret => Ok(ItemKind::Epilogue),
        SourceIns::Fork { handle } => {
            let function = call_behind(names, groups, behind)?;
            Ok(ItemKind::Fork {
                function,
                handle: *handle,
            })
        }
    }
}

/// The item that a group begins.
fn item_of(
    names: &Names<'_>,
    numbers: &Numbers,
    group: Group<'_>,
    groups: &[Placed<'_>],
    behind: usize,
) -> Result<Item, AllocError>
    ensures { (functions : List Function') (gs : List (ℕ × Group')) → TellsNames names.now functions → TellsNumbers numbers.now gs → IfOk result (λ item. item ≡ item_of functions gs (group_view group.entry) (groups_view (drop behind groups.now))) }
{
    match group {
        Group::Epilogue(line) => Ok(Item {
            line,
            kind: ItemKind::Epilogue,
        }),
        Group::Single(line) => {
            let kind = line_kind(names, numbers, &line.ins, groups, behind)?;
            Ok(Item {
                line: line.line,
                kind,
            })
        }
    }
}

/// The items of a function: its prologue at this line, and what its groups begin; behind a `.st_fork` its call is no item.
fn items_of(
    alloc: Global,
    names: &Names<'_>,
    numbers: &Numbers,
    line: Line,
    groups: &[Placed<'_>],
) -> Result<Listed<Item>, AllocError>
    ensures { (functions : List Function') → TellsNames names.now functions → TellsNumbers numbers.now (groups_view groups.now) → IfOk result (λ items. items ≡ prologue_item line ∷ items_of functions (groups_view groups.now) false (groups_view groups.now)) }
{
    let mut items = Listed::new(alloc);
    items.push(Item {
        line,
        kind: ItemKind::Prologue,
    })?;
    let mut forked = false;
    for at in 0..groups.len() {
        let group = groups[at].group;
        if forked {
            forked = false;
        } else {
            let item = item_of(names, numbers, group, groups, at + 1)?;
            items.push(item)?;
            forked = is_fork_group(group);
        }
    }
    Ok(items)
}

/// Puts a number at a place, unless one stands there.
fn put(items: &mut BTreeMap<usize, usize>, at: usize, number: usize) -> Result<(), AllocError>
    ensures { OnOk result ((q : ℕ) → tree.get_by (nat_cmp q) items.new ≡ option_or (tree.get_by (nat_cmp q) items.old) (if at == q then Some number else None)) }
{
    if !items.contains_key(&at) {
        items.insert(at, number)?;
    }
    Ok(())
}

/// The numbers of the items that begin at the places of groups.
fn numbers_of(alloc: Global, groups: &[Placed<'_>]) -> Result<Numbers, AllocError>
    ensures { IfOk result (λ numbers. TellsNumbers numbers (groups_view groups.now)) }
{
    let mut items = BTreeMap::new(alloc);
    let mut next = 1;
    let mut forked = false;
    for at in 0..groups.len() {
        let placed = groups[at];
        if forked {
            forked = false;
        } else {
            put(&mut items, placed.at, next)?;
            next += 1;
            forked = is_fork_group(placed.group);
        }
    }
    Ok(Numbers { items, end: next })
}

/// The bit of a saved register.
fn bit_of(reg: Reg) -> u32
    ensures value { result ≡ 2 ^ saved_bit reg }
    ensures few { result ≤ 16384 }
{
    1 << reg.number().saturating_sub(17)
}

/// The saved registers as bits: bit i - 1 stands for s_i.
fn saved_bits(saved: &[Reg]) -> u32
    requires { length saved.now ≤ 11 }
    ensures { result ≡ saved_bits saved.now }
{
    let mut bits = 0;
    let mut left = saved.len();
    while left > 0 {
        left -= 1;
        bits += bit_of(saved[left]);
    }
    bits
}

/// The function of a shape that has no fault.
fn formed_function(
    alloc: Global,
    names: &Names<'_>,
    function: &Function,
    shape: &Formed<'_>,
) -> Result<ProgramFunction, AllocError>
    requires few { length shape.now.saved.items ≤ 11 }
    requires bits { saved_bits shape.now.saved.items < 2048 }
    ensures { (functions : List Function') → TellsNames names.now functions → IfOk result (λ f. f ≡ function_by functions function.now (formed (formed_view shape.now))) }
{
    let numbers = numbers_of(alloc, &shape.groups)?;
    let first = first_line(function.line, function.items.as_slice());
    let items = items_of(alloc, names, &numbers, first, &shape.groups)?;
    Ok(ProgramFunction {
        ints: function.ints,
        handles: function.handles,
        frame_bytes: shape.frame,
        saved: saved_bits(&shape.saved) as u16,
        slots: function.slots,
        items,
    })
}

/// A function of the program; it has no items where its shape has a fault.
fn program_function(
    alloc: Global,
    names: &Names<'_>,
    function: &Function,
) -> Result<ProgramFunction, AllocError>
    ensures { (functions : List Function') → TellsNames names.now functions → IfOk result (λ f. f ≡ program_function functions function.now) }
{
    match shape_of(alloc, function)? {
        Shape::Faulty { line: _, kind: _ } => Ok(ProgramFunction {
            ints: function.ints,
            handles: function.handles,
            frame_bytes: 0,
            saved: 0,
            slots: function.slots,
            items: Listed::new(alloc),
        }),
        Shape::Formed(shape) => formed_function(alloc, names, function, &shape),
    }
}

/// The functions of the program.
fn program_functions(
    alloc: Global,
    names: &Names<'_>,
    functions: &[Function],
) -> Result<Listed<ProgramFunction>, AllocError>
    ensures { TellsNames names.now functions.now → IfOk result (λ found. found ≡ map (program_function functions.now) functions.now) }
{
    let mut found = Listed::new(alloc);
    for function in functions {
        let made = program_function(alloc, names, function)?;
        found.push(made)?;
    }
    Ok(found)
}

/// The program of a unit's functions.
#[tactic(auto, unfolding(crate::specs::Programs::program_of))]
pub fn program_of(alloc: Global, functions: &[Function]) -> Result<Program, AllocError>
    ensures { IfOk result (λ program. program ≡ program_of functions.now) }
{
    let names = names_of(alloc, functions)?;
    let found = program_functions(alloc, &names, functions)?;
    let main = small(place_of(&names, b"main".as_slice()).unwrap_or(0))?;
    Ok(Program {
        functions: found,
        main,
    })
}

//! The faults of a function.
ghost use Rattle.std.specs.Prelude.{◌≡◌, ◌+◌, ◌≤◌, ◌∷◌, ℕ, List, IfOk, map, length};
ghost use Rattle.st_asm.specs.declared.unit.Function.{Function as Function'};
ghost use Rattle.st_asm.specs.Labels.{is_named};
ghost use Rattle.st_check.specs.Shape.{Formed as Formed', formed, Group as Group'};
ghost use Rattle.st_check.specs.Faults.{stays, is_data, names_of, only_forks, forks_before, target_stays, calls_right, calls_function, forks_right, plain_ends, ends, is_fork, falls_out, line_faults, group_faults, line_before, shape_faults, function_faults};
ghost use Rattle.st_check.specs.Views.{TellsNames, TellsBegins, IsBehind, IsContext, first_faults, formed_view, shape_view, groups_view, group_view, least_onto};

use crate::body::{Group, Placed};
use crate::least::{Fault, with_fault};
use crate::names::{Names, is_runtime_call, place_of};
use crate::registers::{is_fork_register, keeps_classes, may_write};
use crate::shape::{Formed, Shape, shape_of};
use crate::slots::line_slot_fault;
use st_asm::{Function, SourceIns, SourceLine, Target};
use st_base::form::FormKind;
use st_base::line::Line;
use st_rv::ins::OpKind;
use std::alloc::{AllocError, Global};
use std::collections::BTreeMap;

/// What stands behind a line of a body.
#[derive(Clone, Copy)]
pub struct Behind {
    /// Whether these are lines `.st_fork` alone.
    pub only_forks: bool,
    /// Whether the first is a call of a function without a label.
    pub is_forked: bool,
}

/// The places at which groups begin.
type Begins = BTreeMap<usize, usize>;

/// Whether an operand stands for the beginning of a group of the function.
fn stays(function: usize, begins: &Begins, to: &Target) -> bool
    ensures { (shape : Formed') → TellsBegins begins.now shape.groups → result ≡ stays function shape to.now }
{
    match to {
        Target::Place {
            function: other,
            item,
        } => function == *other as usize && begins.get(&(*item as usize)).is_some(),
        _ => false,
    }
}

/// Whether a branch or a jump goes to the beginning of a group of the function.
fn target_stays(function: usize, begins: &Begins, ins: &SourceIns) -> bool
    ensures { (shape : Formed') → TellsBegins begins.now shape.groups → result ≡ target_stays function shape ins.now }
{
    match ins {
        SourceIns::Branch { to, .. } => stays(function, begins, to),
        SourceIns::Jump { to } => stays(function, begins, to),
        _ => true,
    }
}

fn is_data(to: &Target) -> bool
    ensures { result ≡ is_data to.now }
{
    match to {
        Target::Data { .. } => true,
        _ => false,
    }
}

/// Whether a name is a function's.
#[tactic(auto, using(crate::proofs::NamePlaces::place_from_is_named))]
fn is_function(names: &Names<'_>, name: &[u8]) -> bool
    ensures { (functions : List Function') → TellsNames names.now functions → result ≡ is_named name.now (names_of functions) }
{
    place_of(names, name).is_some()
}

/// Whether a line calls a function.
fn calls_function(names: &Names<'_>, ins: &SourceIns) -> bool
    ensures { (functions : List Function') → TellsNames names.now functions → result ≡ calls_function functions ins.now }
{
    match ins {
        SourceIns::Call { name } => is_function(names, name.as_bytes()),
        _ => false,
    }
}

/// Whether what a line calls, or whose address it takes, is there.
fn calls_right(names: &Names<'_>, ins: &SourceIns) -> bool
    ensures { (functions : List Function') → TellsNames names.now functions → result ≡ calls_right functions ins.now }
{
    match ins {
        SourceIns::Call { name } => is_function(names, name.as_bytes())
            || is_runtime_call(name.as_bytes()),
        SourceIns::La { to, .. } => is_data(to),
        _ => true,
    }
}

/// Whether a line isn't a `.st_fork`, or names a register that may hold a handle and has its call behind it.
fn forks_right(ins: &SourceIns, is_forked: bool) -> bool
    ensures { (functions : List Function') (behind : List (ℕ × Group')) → is_forked ≡ forks_before functions behind → result ≡ forks_right functions ins.now behind }
{
    match ins {
        SourceIns::Fork { handle } => is_fork_register(*handle) && is_forked,
        _ => true,
    }
}

pub fn is_fork(ins: &SourceIns) -> bool
    ensures { result ≡ is_fork ins.now }
{
    match ins {
        SourceIns::Fork { .. } => true,
        _ => false,
    }
}

fn plain_ends(kind: OpKind) -> bool
    ensures { result ≡ plain_ends kind }
{
    match kind {
        OpKind::Break => true,
        _ => false,
    }
}

/// Whether a line is `ret`, `j` or `ebreak`.
fn ends(ins: &SourceIns) -> bool
    ensures { result ≡ ends ins.now }
{
    match ins {
        SourceIns::Ret => true,
        SourceIns::Jump { .. } => true,
        SourceIns::Plain(i) => plain_ends(i.op.kind()),
        _ => false,
    }
}

/// Whether a line is the function's last instruction and goes on.
fn falls_out(ins: &SourceIns, is_last: bool) -> bool
    ensures { (behind : List (ℕ × Group')) → is_last ≡ only_forks behind → result ≡ falls_out ins.now behind }
{
    !is_fork(ins) && is_last && !ends(ins)
}

/// What the tests of a line need beside it: the function's place, its handle slots, its shape and the places of its groups, and
/// the names of all functions.
#[derive(Clone, Copy)]
pub struct Context<'c, 'u, 'n> {
    pub function: usize,
    pub slots: u32,
    pub shape: &'c Formed<'u>,
    pub begins: &'c Begins,
    pub names: &'c Names<'n>,
}

/// The least fault of a line and of what stands behind it, of which the least is given.
fn line_fault(
    context: &Context<'_, '_, '_>,
    line: &SourceLine,
    behind: Behind,
    best: Option<Fault>,
) -> Option<Fault>
    ensures { (functions : List Function') (gs : List (ℕ × Group')) → IsContext functions context.now → IsBehind functions behind gs → result ≡ least_onto (line_faults functions context.now.function context.now.slots (formed_view context.now.shape.now) line.now gs) best }
{
    let (at, ins) = (line.line, &line.ins);
    let best = with_fault(
        !calls_right(context.names, ins),
        at,
        FormKind::BadCall,
        best,
    );
    let best = with_fault(
        !forks_right(ins, behind.is_forked),
        at,
        FormKind::ForkPlace,
        best,
    );
    let best = with_fault(
        falls_out(ins, behind.only_forks),
        at,
        FormKind::FallsOut,
        best,
    );
    let best = with_fault(
        !target_stays(context.function, context.begins, ins),
        at,
        FormKind::BranchOut,
        best,
    );
    let best = with_fault(
        !may_write(&context.shape.saved, ins),
        at,
        FormKind::NotSaved,
        best,
    );
    let best = with_fault(!keeps_classes(ins), at, FormKind::Partition, best);
    with_fault(
        line_slot_fault(context.slots, context.shape, ins),
        at,
        FormKind::SlotRange,
        best,
    )
}

/// The least fault of a group and of what stands behind it.
fn group_fault(
    context: &Context<'_, '_, '_>,
    group: Group<'_>,
    behind: Behind,
    best: Option<Fault>,
) -> Option<Fault>
    ensures { (functions : List Function') (at : ℕ) (gs : List (ℕ × Group')) → IsContext functions context.now → IsBehind functions behind gs → result ≡ least_onto (first_faults functions context.now.function context.now.slots (formed_view context.now.shape.now) (group_view group.entry) gs) best }
{
    match group {
        Group::Epilogue(_) => best,
        Group::Single(line) => line_fault(context, line, behind, best),
    }
}

/// What stands behind the line before a group.
fn before(names: &Names<'_>, group: Group<'_>, behind: Behind) -> Behind
    ensures { (functions : List Function') (at : ℕ) (gs : List (ℕ × Group')) → TellsNames names.now functions → IsBehind functions behind gs → IsBehind functions result ((at, group_view group.entry) ∷ gs) }
{
    match group {
        Group::Epilogue(_) => Behind {
            only_forks: false,
            is_forked: false,
        },
        Group::Single(line) => Behind {
            only_forks: is_fork(&line.ins) && behind.only_forks,
            is_forked: calls_function(names, &line.ins) && !line.labelled,
        },
    }
}

/// The least fault of a body and of what is given, and what stands behind its prologue.
fn body_fault(
    context: &Context<'_, '_, '_>,
    groups: &[Placed<'_>],
    best: Option<Fault>,
) -> (Option<Fault>, Behind)
    ensures { (functions : List Function') → IsContext functions context.now → (result.0 ≡ least_onto (group_faults functions context.now.function context.now.slots (formed_view context.now.shape.now) (groups_view groups.now)) best) × IsBehind functions result.1 (groups_view groups.now) }
{
    let mut best = best;
    let mut behind = Behind {
        only_forks: true,
        is_forked: false,
    };
    let mut left = groups.len();
    while left > 0 {
        left -= 1;
        let group = groups[left].group;
        best = group_fault(context, group, behind, best);
        behind = before(context.names, group, behind);
    }
    (best, behind)
}

/// The line of the last of so many first lines; the label's where there is none.
fn line_before(label: Line, count: usize, items: &[SourceLine]) -> Line
    ensures { result ≡ line_before label count items.now }
{
    let mut last = label;
    for at in 0..count {
        if at >= items.len() {
            return last;
        }
        last = items[at].line;
    }
    last
}

/// The places at which groups begin.
fn begins_of(alloc: Global, groups: &[Placed<'_>]) -> Result<Begins, AllocError>
    ensures { IfOk result (λ begins. TellsBegins begins (groups_view groups.now)) }
{
    let mut begins = BTreeMap::new(alloc);
    let mut left = groups.len();
    while left > 0 {
        left -= 1;
        begins.insert(groups[left].at, left)?;
    }
    Ok(begins)
}

/// The least fault of a function whose prologue, frame and epilogues have none, and of what is given.
fn formed_fault(
    alloc: Global,
    names: &Names<'_>,
    f: usize,
    function: &Function,
    shape: &Formed<'_>,
    best: Option<Fault>,
) -> Result<Option<Fault>, AllocError>
    requires { length shape.now.saved.items ≤ 11 }
    ensures { (functions : List Function') → TellsNames names.now functions → IfOk result (λ least. least ≡ least_onto (shape_faults functions f function.now (formed (formed_view shape.now))) best) }
{
    let begins = begins_of(alloc, &shape.groups)?;
    let context = Context {
        function: f,
        slots: function.slots,
        shape,
        begins: &begins,
        names,
    };
    let (best, behind) = body_fault(&context, &shape.groups, best);
    let last = line_before(
        function.line,
        4 + shape.saved.len(),
        function.items.as_slice(),
    );
    Ok(with_fault(behind.only_forks, last, FormKind::FallsOut, best))
}

/// The least fault of a function and of what is given.
pub fn function_fault(
    alloc: Global,
    names: &Names<'_>,
    f: usize,
    function: &Function,
    best: Option<Fault>,
) -> Result<Option<Fault>, AllocError>
    ensures { (functions : List Function') → TellsNames names.now functions → IfOk result (λ least. least ≡ least_onto (function_faults functions f function.now) best) }
{
    match shape_of(alloc, function)? {
        Shape::Faulty { line, kind } => Ok(with_fault(true, line, kind, best)),
        Shape::Formed(shape) => formed_fault(alloc, names, f, function, &shape, best),
    }
}

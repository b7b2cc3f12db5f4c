//! The instructions of items.
ghost use Rattle.std.specs.Prelude.{◌≡◌, ◌≤◌, ◌<◌, ◌++◌, ◌∷◌, [], length, OnOk, IfOk};
ghost use Rattle.st_model.specs.declared.code.PostedIns.TheVariants as posted;
ghost use Rattle.st_model.specs.Layout.{items_size, epilogue_by, copy_by, fork_in, fork_out, item_ins, item_place};
ghost use Rattle.st_post.specs.Places.{IsPlan};
ghost use Rattle.st_post.specs.Size.{most_words};

use crate::frames::{push_augmented, push_epilogue, push_prologue, push_pure_copy};
use crate::li::push_li;
use crate::saved::saved_of;
use crate::sizes::{place_of, places};
use st_base::entry::Entry;
use st_base::reg::Reg;
use st_model::code::{Layout, PostedIns};
use st_model::program::{ItemKind, ProgramFunction};
use std::alloc::{AllocError, Global};

/// A function with what is settled before its words are pushed.
#[derive(Drop)]
pub(crate) struct Plan<'f> {
    pub(crate) layout: Layout,
    pub(crate) function: &'f ProgramFunction,
    /// The registers that it saves, ascending.
    pub(crate) saved: Vec<Reg>,
    /// The words at which its items begin, and the word past them.
    pub(crate) places: Vec<u32>,
}

/// The plan of a function.
pub(crate) fn plan_of<'f>(
    alloc: Global,
    layout: Layout,
    function: &'f ProgramFunction,
) -> Result<Plan<'f>, AllocError>
    requires { items_size layout function.now function.now.items ≤ most_words }
    ensures plan { IfOk result IsPlan }
    ensures layout { IfOk result (λ plan. plan.layout ≡ layout) }
    ensures function { IfOk result (λ plan. plan.function.now ≡ function.now) }
{
    let saved = saved_of(alloc, function)?;
    let places = places(alloc, layout, function)?;
    Ok(Plan {
        layout,
        function,
        saved,
        places,
    })
}

/// The word at which an item of a function begins.
pub(crate) fn item_place(plan: &Plan<'_>, number: usize) -> u32
    requires plan { IsPlan plan.now }
    requires inside { number < length plan.now.function.now.items }
    ensures value { result ≡ item_place plan.now.layout plan.now.function.now number }
    ensures low { result ≤ most_words }
{
    plan.places[number]
}

/// An epilogue at the word `at` of its function.
fn push_epilogue_by(out: &mut Vec<PostedIns>, plan: &Plan<'_>, at: u32) -> Result<(), AllocError>
    requires plan { IsPlan plan.now }
    requires low { at ≤ most_words }
    ensures { OnOk result (out.new.items ≡ out.old.items ++ epilogue_by plan.now.layout at plan.now.function.now) }
{
    match plan.layout {
        Layout::Postprocessed => push_augmented(out, at, &plan.saved),
        Layout::Unchanged => push_epilogue(out, plan.function.frame_bytes, &plan.saved),
    }
}

/// The pure copy of a function's epilogue, where the layout has one.
pub(crate) fn push_copy(out: &mut Vec<PostedIns>, plan: &Plan<'_>) -> Result<(), AllocError>
    requires { IsPlan plan.now }
    ensures { OnOk result (out.new.items ≡ out.old.items ++ copy_by plan.now.layout plan.now.function.now) }
{
    match plan.layout {
        Layout::Postprocessed => push_pure_copy(out, &plan.saved),
        Layout::Unchanged => Ok(()),
    }
}

/// The three jumps of a fork.
fn push_fork(out: &mut Vec<PostedIns>, function: u32) -> Result<(), AllocError>
    ensures { OnOk result (out.new.items ≡ out.old.items ++ posted.Entry fork_in ∷ posted.Call function ∷ posted.Entry fork_out ∷ []) }
{
    out.push(PostedIns::Entry {
        at: Entry::ForkIn.address(),
    })?;
    out.push(PostedIns::Call { function })?;
    out.push(PostedIns::Entry {
        at: Entry::ForkOut.address(),
    })?;
    Ok(())
}

/// One instruction.
fn push_one(out: &mut Vec<PostedIns>, ins: PostedIns) -> Result<(), AllocError>
    ensures { OnOk result (out.new.items ≡ out.old.items ++ ins ∷ []) }
{
    out.push(ins)?;
    Ok(())
}

/// The instructions of an item that begins at the word `at` of its function.
pub(crate) fn push_item(
    out: &mut Vec<PostedIns>,
    plan: &Plan<'_>,
    at: u32,
    kind: ItemKind,
) -> Result<(), AllocError>
    requires plan { IsPlan plan.now }
    requires low { at ≤ most_words }
    ensures { OnOk result (out.new.items ≡ out.old.items ++ item_ins plan.now.layout plan.now.function.now at kind) }
{
    match kind {
        ItemKind::Prologue => push_prologue(out, plan.function.frame_bytes, &plan.saved),
        ItemKind::Epilogue => push_epilogue_by(out, plan, at),
        ItemKind::Plain(ins) => push_one(out, PostedIns::Plain(ins)),
        ItemKind::Li { rd, value } => push_li(out, rd, value),
        ItemKind::Branch { op, rs1, rs2, to } => push_one(
            out,
            PostedIns::Branch {
                op,
                rs1,
                rs2,
                to: place_of(&plan.places, to),
            },
        ),
        ItemKind::Jump { to } => push_one(
            out,
            PostedIns::Jump {
                to: place_of(&plan.places, to),
            },
        ),
        ItemKind::Call { function } => push_one(out, PostedIns::Call { function }),
        ItemKind::Entry { at } => push_one(out, PostedIns::Entry { at }),
        ItemKind::Fork {
            function,
            handle: _,
        } => push_fork(out, function),
    }
}

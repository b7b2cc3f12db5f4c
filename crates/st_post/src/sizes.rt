//! How many words items and functions have, and where items stand.
ghost use Rattle.std.specs.Prelude.{◌≡◌, ◌≤◌, ◌+◌, ℕ, length, IfOk};
ghost use Rattle.st_model.specs.Layout.{epilogue_size, copy_by, item_size, items_size, item_place, function_size};
ghost use Rattle.st_model.specs.declared.code.Layout.{Layout as Layout'};
ghost use Rattle.st_model.specs.declared.program.ProgramFunction.{ProgramFunction as ProgramFunction'};
ghost use Rattle.st_post.specs.Places.{places_from};
ghost use Rattle.st_post.specs.Size.{most_words};

use crate::li::li_size;
use crate::saved::saved_count;
use st_model::code::Layout;
use st_model::program::{ItemKind, ProgramFunction};
use std::alloc::{AllocError, Global};

fn epilogue_size(layout: Layout, function: &ProgramFunction) -> u32
    ensures value { result ≡ epilogue_size layout function.now }
    ensures few { result ≤ 20 }
{
    match layout {
        Layout::Postprocessed => 9 + saved_count(function),
        Layout::Unchanged => 4 + saved_count(function),
    }
}

/// How many words an item has.
pub(crate) fn item_size(layout: Layout, function: &ProgramFunction, kind: ItemKind) -> u32
    ensures value { result ≡ item_size layout function.now kind }
    ensures few { result ≤ 20 }
{
    match kind {
        ItemKind::Prologue => 4 + saved_count(function),
        ItemKind::Epilogue => epilogue_size(layout, function),
        ItemKind::Li { rd: _, value } => li_size(value),
        ItemKind::Fork { .. } => 3,
        ItemKind::Plain(_)
        | ItemKind::Branch { .. }
        | ItemKind::Jump { .. }
        | ItemKind::Call { .. }
        | ItemKind::Entry { .. } => 1,
    }
}

/// How many words the items of a function have.
pub(crate) fn items_size(layout: Layout, function: &ProgramFunction) -> u32
    requires { items_size layout function.now function.now.items ≤ most_words }
    ensures { result ≡ items_size layout function.now function.now.items }
{
    let mut size = 0;
    for item in function.items.as_slice() {
        size += item_size(layout, function, item.kind);
    }
    size
}

/// How many words the pure copy of a function's epilogue has.
#[tactic(auto, using(st_model::proofs::CodeSize::copy_length))]
fn copy_size(layout: Layout, function: &ProgramFunction) -> u32
    ensures value { result ≡ length (copy_by layout function.now) }
    ensures few { result ≤ 15 }
{
    match layout {
        Layout::Postprocessed => 4 + saved_count(function),
        Layout::Unchanged => 0,
    }
}

/// How many words a function has.
pub(crate) fn function_size(layout: Layout, function: &ProgramFunction) -> u32
    requires { function_size layout function.now ≤ most_words }
    ensures { result ≡ function_size layout function.now }
{
    items_size(layout, function) + copy_size(layout, function)
}

/// The words at which the items of a function begin, and the word past them.
pub(crate) fn places(
    alloc: Global,
    layout: Layout,
    function: &ProgramFunction,
) -> Result<Vec<u32>, AllocError>
    requires { items_size layout function.now function.now.items ≤ most_words }
    ensures { IfOk result (λ places. places.items ≡ places_from layout function.now 0 function.now.items) }
{
    let mut places = Vec::new(alloc);
    let mut at = 0;
    for item in function.items.as_slice() {
        places.push(at)?;
        at += item_size(layout, function, item.kind);
    }
    places.push(at)?;
    Ok(places)
}

/// The word at which the item of a number begins.
pub(crate) fn place_of(places: &[u32], number: u32) -> u32
    ensures { (layout : Layout') (function : ProgramFunction') → places.now ≡ places_from layout function 0 function.items → result ≡ item_place layout function number }
{
    match places.get(number as usize) {
        Some(place) => *place,
        None => places.last().copied().unwrap_or(0),
    }
}

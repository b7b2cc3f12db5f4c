//! What the runtime knows of the code: the rows of functions and the forks.
ghost use Rattle.std.specs.Prelude.{◌≡◌, ◌≤◌, ◌<◌, ◌+◌, ◌*◌, ◌++◌, IfOk, OnOk};
ghost use Rattle.st_model.specs.Layout.{code_start, fork_row, forks_from, function_size, functions_size, item_forks, items_size, pure_place, row_at, rows_from};
ghost use Rattle.st_post.specs.Size.{code_end, most_words};

use crate::sizes::{function_size, item_size, items_size};
use crate::words::function_line;
use st_base::image::{ForkRow, FrameRow};
use st_base::lists::Listed;
use st_base::map::CODE_START;
use st_model::code::Layout;
use st_model::program::{ItemKind, ProgramFunction};
use std::alloc::{AllocError, Global};

/// Where the pure copy of a function stands whose first word is at an address; 0 where there is none.
fn pure_place(layout: Layout, from: u32, function: &ProgramFunction) -> u32
    requires size { function_size layout function.now ≤ most_words }
    requires low { from ≤ code_end }
    ensures { result ≡ pure_place layout from function.now }
{
    match layout {
        Layout::Postprocessed => from + 4 * items_size(layout, function),
        Layout::Unchanged => 0,
    }
}

/// What the runtime knows of a function whose first word is at an address.
fn row_at(layout: Layout, from: u32, function: &ProgramFunction) -> FrameRow
    requires size { function_size layout function.now ≤ most_words }
    requires low { from ≤ code_end }
    ensures { result ≡ row_at layout from function.now }
{
    FrameRow {
        code_from: from,
        code_to: from + 4 * function_size(layout, function),
        frame_bytes: function.frame_bytes,
        saved: function.saved,
        pure_at: pure_place(layout, from, function),
        line: function_line(function),
    }
}

/// The rows of functions.
pub(crate) fn rows_of(
    alloc: Global,
    layout: Layout,
    functions: &[ProgramFunction],
) -> Result<Listed<FrameRow>, AllocError>
    requires { functions_size layout functions.now ≤ most_words }
    ensures { IfOk result (λ rows. rows ≡ rows_from layout code_start functions.now) }
{
    let mut rows = Listed::new(alloc);
    let mut from = CODE_START;
    for function in functions {
        let row = row_at(layout, from, function);
        rows.push(row)?;
        from = row.code_to;
    }
    Ok(rows)
}

/// The row of an item at an address, if it is a fork.
fn push_fork_row(
    forks: &mut Listed<ForkRow>,
    address: u32,
    kind: ItemKind,
) -> Result<(), AllocError>
    ensures { OnOk result (forks.new ≡ forks.old ++ fork_row address kind) }
{
    if let ItemKind::Fork {
        function: _,
        handle,
    } = kind
    {
        forks.push(ForkRow {
            at: address,
            handle,
        })?;
    }
    Ok(())
}

/// The forks of a function whose first word is at an address.
fn push_forks(
    forks: &mut Listed<ForkRow>,
    layout: Layout,
    from: u32,
    function: &ProgramFunction,
) -> Result<(), AllocError>
    requires size { items_size layout function.now function.now.items ≤ most_words }
    requires low { from ≤ code_end }
    ensures { OnOk result (forks.new ≡ forks.old ++ item_forks layout function.now from function.now.items) }
{
    let mut address = from;
    for item in function.items.as_slice() {
        push_fork_row(forks, address, item.kind)?;
        address += 4 * item_size(layout, function, item.kind);
    }
    Ok(())
}

/// The forks of functions.
pub(crate) fn forks_of(
    alloc: Global,
    layout: Layout,
    functions: &[ProgramFunction],
) -> Result<Listed<ForkRow>, AllocError>
    requires { functions_size layout functions.now ≤ most_words }
    ensures { IfOk result (λ forks. forks ≡ forks_from layout code_start functions.now) }
{
    let mut forks = Listed::new(alloc);
    let mut from = CODE_START;
    for function in functions {
        push_forks(&mut forks, layout, from, function)?;
        from += 4 * function_size(layout, function);
    }
    Ok(forks)
}

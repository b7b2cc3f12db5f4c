//! The words of functions.
ghost use Rattle.std.specs.Prelude.{◌≡◌, ◌≤◌, ◌++◌, IfOk, OnOk};
ghost use Rattle.st_model.specs.Layout.{copy_by, first_line, function_line, function_size, function_words, items_words, words_at};
ghost use Rattle.st_post.specs.Places.{IsPlan};
ghost use Rattle.st_post.specs.Size.{most_words};

use crate::items::{Plan, item_place, plan_of, push_copy, push_item};
use st_base::line::Line;
use st_base::lists::Listed;
use st_model::code::{Layout, PostedIns, PostedWord};
use st_model::program::{Item, ProgramFunction};
use std::alloc::{AllocError, Global};

/// The words of instructions of one line, of which the first begins an item or not.
fn push_words(
    words: &mut Vec<PostedWord>,
    line: Line,
    begins: bool,
    instructions: &[PostedIns],
) -> Result<(), AllocError>
    ensures { OnOk result (words.new.items ≡ words.old.items ++ words_at line begins instructions.now) }
{
    let mut is_first = begins;
    for ins in instructions {
        words.push(PostedWord {
            line,
            begins: is_first,
            ins: *ins,
        })?;
        is_first = false;
    }
    Ok(())
}

/// The words of a function's items.
fn items_words(alloc: Global, plan: &Plan<'_>) -> Result<Vec<PostedWord>, AllocError>
    requires { IsPlan plan.now }
    ensures { IfOk result (λ words. words.items ≡ items_words plan.now.layout plan.now.function.now 0 plan.now.function.now.items) }
{
    let items = plan.function.items.as_slice();
    let mut words = Vec::new(alloc);
    let mut instructions = Vec::new(alloc);
    for (number, item) in items.iter().enumerate() {
        instructions.clear();
        push_item(&mut instructions, plan, item_place(plan, number), item.kind)?;
        push_words(&mut words, item.line, true, &instructions)?;
    }
    Ok(words)
}

/// The line of the first item.
fn first_line(items: &[Item]) -> Line
    ensures { result ≡ first_line items.now }
{
    match items.first() {
        Some(item) => item.line,
        None => Line { file: 0, line: 0 },
    }
}

/// The line of a function.
pub(crate) fn function_line(function: &ProgramFunction) -> Line
    ensures { result ≡ function_line function.now }
{
    first_line(function.items.as_slice())
}

/// The words of a function.
#[tactic(auto, unfolding(st_model::specs::Layout::function_words))]
pub(crate) fn function_words(
    alloc: Global,
    layout: Layout,
    function: &ProgramFunction,
) -> Result<Listed<PostedWord>, AllocError>
    requires { function_size layout function.now ≤ most_words }
    ensures { IfOk result (λ words. words ≡ function_words layout function.now) }
{
    let plan = plan_of(alloc, layout, function)?;
    let mut words = items_words(alloc, &plan)?;
    let mut copy = Vec::new(alloc);
    push_copy(&mut copy, &plan)?;
    push_words(&mut words, function_line(function), false, &copy)?;
    Ok(Listed::from_vec(words))
}

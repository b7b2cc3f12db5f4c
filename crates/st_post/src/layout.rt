//! Code in a layout.
ghost use Rattle.std.specs.Prelude.{◌≡◌, ◌≤◌, IfOk, length, map};
ghost use Rattle.st_model.specs.Layout.{function_words, functions_size};
ghost use Rattle.st_post.specs.Code.{IsCode, names_of};
ghost use Rattle.st_post.specs.Size.{most_words};

use crate::posted::PostedFunction;
use crate::rows::{forks_of, rows_of};
use crate::words::function_words;
use st_asm::Function;
use st_base::image::{ForkRow, FrameRow};
use st_base::lists::Listed;
use st_check::Checked;
use st_model::code::Layout;
use st_model::program::ProgramFunction;
use std::alloc::{AllocError, Global};

/// The code of an accepted unit in a layout, with what the runtime knows of it. Addresses are those of that layout.
#[derive(Drop)]
pub struct Code {
    /// The functions, in their order.
    pub functions: Listed<PostedFunction>,
    /// What the runtime knows of each function's frames.
    pub rows: Listed<FrameRow>,
    /// The forks, in the order of their addresses.
    pub forks: Listed<ForkRow>,
}

/// The code of functions, with their names.
fn functions_of(
    alloc: Global,
    layout: Layout,
    sources: &[Function],
    functions: &[ProgramFunction],
) -> Result<Listed<PostedFunction>, AllocError>
    requires size { functions_size layout functions.now ≤ most_words }
    requires same { length sources.now ≡ length functions.now }
    ensures names { IfOk result (λ posted. map (λ f. f.name) posted ≡ names_of sources.now) }
    ensures words { IfOk result (λ posted. map (λ f. f.words) posted ≡ map (function_words layout) functions.now) }
{
    let mut posted = Listed::new(alloc);
    for (number, function) in functions.iter().enumerate() {
        let name = sources[number].name.copy(alloc)?;
        let words = function_words(alloc, layout, function)?;
        posted.push(PostedFunction { name, words })?;
    }
    Ok(posted)
}

/// The code of an accepted unit in a layout.
#[tactic(auto, unfolding(st_model::specs::Layout::rows_of, st_model::specs::Layout::forks_of))]
pub fn lay_out(alloc: Global, checked: &Checked<'_>, layout: Layout) -> Result<Code, AllocError>
    ensures { IfOk result (IsCode layout checked.now) }
{
    let functions = checked.program().functions.as_slice();
    let posted = functions_of(alloc, layout, checked.unit().functions(), functions)?;
    let rows = rows_of(alloc, layout, functions)?;
    let forks = forks_of(alloc, layout, functions)?;
    Ok(Code {
        functions: posted,
        rows,
        forks,
    })
}

//! Images of accepted units.
ghost use Rattle.std.specs.Prelude.{IfOk, IfErr};
ghost use Rattle.st_model.specs.declared.code.Layout.TheVariants.{Postprocessed, Unchanged};
ghost use Rattle.st_model.specs.Layout.{IsImageOf, IsCodeOf};
ghost use Rattle.st_link.specs.Refusal.{IsRefusal};
ghost use Rattle.st_link.specs.Encoding.{IsEncodable, IsAssembled};

use crate::encoded::{Encoded, encode_all};
use crate::error::LinkError;
use crate::far::first_far;
use st_base::image::{ForkRow, FrameRow, Image};
use st_base::lists::Listed;
use st_base::path::Bytes;
use st_check::Checked;
use st_post::{Layout, Posted, PostedFunction, lay_out};
use std::alloc::{AllocError, Global};

/// The image of code that is laid out.
fn assemble(
    alloc: Global,
    checked: &Checked<'_>,
    functions: &[PostedFunction],
    rows: &[FrameRow],
    forks: &[ForkRow],
) -> Result<Image, AllocError>
    requires { IsEncodable functions.now rows.now checked.now.program.main }
    ensures { IfOk result (IsAssembled functions.now rows.now forks.now checked.now.unit.now.rodata checked.now.program.main) }
{
    let Encoded {
        words,
        lines,
        begins,
    } = encode_all(alloc, rows, functions)?;
    let main = checked.program().main;
    Ok(Image {
        words: Listed::from_vec(words),
        rows: Listed::from_vec(Vec::from_slice(alloc, rows)?),
        forks: Listed::from_vec(Vec::from_slice(alloc, forks)?),
        rodata: Bytes::from_vec(Vec::from_slice(alloc, checked.unit().rodata())?),
        lines: Listed::from_vec(lines),
        begins: Listed::from_vec(begins),
        main_at: rows[main as usize].code_from,
    })
}

/// The image of postprocessed code.
///
/// Errors: the first branch that doesn't reach, by its line, where there is one; or too little memory.
pub fn link(alloc: Global, posted: &Posted<'_>) -> Result<Image, LinkError>
    ensures image { IfOk result (IsImageOf Postprocessed posted.now.checked.now.program posted.now.checked.now.unit.now.rodata) }
    ensures code { IfOk result (λ image. ∥ IsCodeOf Postprocessed posted.now.checked.now.program image ∥₁) }
    ensures fault { IfErr result (IsRefusal posted.now.checked.now.program) }
{
    if let Some(fault) = first_far(posted.functions()) {
        return Err(LinkError::Fault(fault));
    }
    let image = assemble(
        alloc,
        posted.checked(),
        posted.functions(),
        posted.rows(),
        posted.forks(),
    )?;
    Ok(image)
}

/// The image of the unchanged code of an accepted unit.
///
/// Errors: the first branch that doesn't reach in the postprocessed code, by its line, where there is one; or too little memory.
pub fn link_plain(alloc: Global, checked: &Checked<'_>) -> Result<Image, LinkError>
    ensures image { IfOk result (IsImageOf Unchanged checked.now.program checked.now.unit.now.rodata) }
    ensures code { IfOk result (λ image. ∥ IsCodeOf Unchanged checked.now.program image ∥₁) }
    ensures fault { IfErr result (IsRefusal checked.now.program) }
{
    let processed = lay_out(alloc, checked, Layout::Postprocessed)?;
    if let Some(fault) = first_far(processed.functions.as_slice()) {
        return Err(LinkError::Fault(fault));
    }
    let code = lay_out(alloc, checked, Layout::Unchanged)?;
    let image = assemble(
        alloc,
        checked,
        code.functions.as_slice(),
        code.rows.as_slice(),
        code.forks.as_slice(),
    )?;
    Ok(image)
}

//! The postprocessor.
ghost use Rattle.std.specs.Prelude.{◌≡◌, IfOk};

use crate::layout::lay_out;
use crate::posted::Posted;
use st_check::Checked;
use st_model::code::Layout;
use std::alloc::{AllocError, Global};

/// The postprocessed code of an accepted unit.
///
/// Errors: too little memory.
pub fn postprocess<'c>(alloc: Global, checked: &'c Checked<'c>) -> Result<Posted<'c>, AllocError>
    ensures { IfOk result (λ posted. posted.checked.now ≡ checked.now) }
{
    let code = lay_out(alloc, checked, Layout::Postprocessed)?;
    Ok(Posted { checked, code })
}

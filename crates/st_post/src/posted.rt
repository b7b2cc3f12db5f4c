//! Postprocessed code.
ghost use Rattle.std.specs.Prelude.{◌≡◌};
ghost use Rattle.st_model.specs.declared.code.Layout.TheVariants.{Postprocessed};
ghost use Rattle.st_post.specs.Code.{IsCode};

use crate::layout::Code;
use st_base::image::{ForkRow, FrameRow};
use st_base::lists::Listed;
use st_base::name::Name;
use st_check::Checked;
use st_model::code::PostedWord;

/// The code of a function, with its name.
#[derive(Drop)]
pub struct PostedFunction {
    pub name: Name,
    pub words: Listed<PostedWord>,
}

/// The postprocessed code of an accepted unit.
#[derive(Drop)]
pub struct Posted<'c> {
    pub(crate) checked: &'c Checked<'c>,
    pub(crate) code: Code,
    ghost is_code: { IsCode Postprocessed checked.now code },
}

impl Posted<'_> {
    /// The accepted unit.
    pub fn checked(&self) -> &Checked<'_>
        ensures { result.now ≡ self.now.checked.now }
    {
        self.checked
    }

    /// The functions, in their order.
    pub fn functions(&self) -> &[PostedFunction]
        ensures { result.now ≡ self.now.code.functions }
    {
        self.code.functions.as_slice()
    }

    /// What the runtime knows of each function's frames.
    pub fn rows(&self) -> &[FrameRow]
        ensures { result.now ≡ self.now.code.rows }
    {
        self.code.rows.as_slice()
    }

    /// The forks, in the order of their addresses.
    pub fn forks(&self) -> &[ForkRow]
        ensures { result.now ≡ self.now.code.forks }
    {
        self.code.forks.as_slice()
    }
}

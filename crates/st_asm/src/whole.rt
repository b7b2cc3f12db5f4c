//! A unit, which keeps what every unit has.
ghost use Rattle.st_asm.specs.Unit.{IsUnit};

use crate::unit::Function;
use st_base::lists::Listed;
use st_base::path::Bytes;

/// The functions and the read-only data of all files.
#[derive(Drop)]
pub struct Unit {
    pub functions: Listed<Function>,
    pub rodata: Bytes,
    ghost is_unit: { ∥ IsUnit functions rodata ∥₁ },
}

impl Unit {
    ghost use Rattle.std.specs.Prelude.{◌≡◌};

    /// The functions, in the order of files and lines.
    pub fn functions(&self) -> &[Function]
        ensures { result.now ≡ self.now.functions }
    {
        self.functions.as_slice()
    }

    /// The bytes of read-only data.
    pub fn rodata(&self) -> &[u8]
        ensures { result.now ≡ self.now.rodata }
    {
        self.rodata.as_slice()
    }
}

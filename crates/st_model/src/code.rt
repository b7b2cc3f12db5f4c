//! Code that is laid out but not yet encoded: what the postprocessor makes of a program.
ghost use Rattle.std.specs.Prelude.{◌≡◌};
ghost use Rattle.st_model.specs.Layout.{saveable};

use st_base::line::Line;
use st_base::reg::Reg;
use st_rv::ins::{Ins, Op};

/// The registers that a function may save, in the order of their bits: s1 to s11.
pub const SAVEABLE: [Reg; 11] = [
    Reg::S1,
    Reg::S2,
    Reg::S3,
    Reg::S4,
    Reg::S5,
    Reg::S6,
    Reg::S7,
    Reg::S8,
    Reg::S9,
    Reg::S10,
    Reg::S11,
];

/// The list has the registers of the layout.
pub fn saveable_in_order()
    ensures { SAVEABLE ≡ saveable }
{}

/// How a program's code is laid out.
#[derive(Clone, Copy, PartialEq, Eq, Debug)]
pub enum Layout {
    /// Each epilogue is augmented, and a pure copy of it stands at the end of each function.
    Postprocessed,
    /// Each epilogue is as written, and there are no copies.
    Unchanged,
}

/// An instruction whose jumps and branches still name what they go to. Words are counted from the function's first, functions
/// from the program's first, both from 0.
#[derive(Clone, Copy, PartialEq, Eq, Debug)]
pub enum PostedIns {
    /// An instruction that is no branch and no `jal`.
    Plain(Ins),
    /// A branch to the word of this place in the function.
    Branch { op: Op, rs1: Reg, rs2: Reg, to: u32 },
    /// `jal zero` to the word of this place in the function.
    Jump { to: u32 },
    /// `jal ra` to the function of this place in the program.
    Call { function: u32 },
    /// `jal ra` to the runtime's entry at this address.
    Entry { at: u32 },
}

/// A word of the code.
#[derive(Clone, Copy, PartialEq, Eq, Debug)]
pub struct PostedWord {
    /// The first line of its item; of a pure copy, that of the function's prologue.
    pub line: Line,
    /// Whether it is the first word of an item.
    pub begins: bool,
    pub ins: PostedIns,
}

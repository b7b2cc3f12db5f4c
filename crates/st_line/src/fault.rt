//! Kinds of faults, with the number and the name by which they are printed.
ghost use Rattle.std.specs.Prelude.{◌≡◌, ◌<◌};

use st_base::failure::Failure;
use st_base::line::Line;

/// What is wrong with a line of assembly text. Where a line has several faults, the least kind counts.
#[derive(Clone, Copy, PartialEq, Eq, Debug)]
pub enum AsmKind {
    /// E1: a byte that is no printable ASCII character, blank or line end.
    NotAscii,
    /// E2: the line has no form of a line, or stands in a wrong place.
    BadLine,
    /// E3: no such mnemonic or directive.
    UnknownName,
    /// E4: a wrong number or form of operands.
    BadOperand,
    /// E5: an integer outside its range.
    ImmRange,
    /// E6: the label is defined on an earlier line, or names an entry of the runtime.
    DoubleLabel,
    /// E7: an operand names no label and no entry.
    NoLabel,
    /// E8: too many instructions, too much data or too long a text.
    TooLarge,
}

/// A fault of a text, at its line.
#[derive(Clone, Copy, PartialEq, Eq, Debug)]
pub struct AsmFault {
    pub line: Line,
    pub kind: AsmKind,
}

/// Why a line has no statement: the line's least fault of those that it has by itself, or want of memory.
pub type LineError = Failure<AsmKind>;

impl From<AsmKind> for LineError {
    ghost use Rattle.std.specs.Prelude.{◌≡◌};
    ghost use Rattle.st_base.specs.declared.failure.Failure.TheVariants.{Fault};

    ghost from_gives = { λ kind error. error ≡ Fault kind };

    fn from(kind: AsmKind) -> LineError {
        Failure::Fault(kind)
    }
}

impl AsmKind {
    ghost use Rattle.st_line.specs.Fault.{kind_text};

    /// The kind as it is printed, such as `E3 UnknownName`.
    pub fn text(self) -> &'static str
        ensures { result.now ≡ kind_text self }
    {
        match self {
            AsmKind::NotAscii => "E1 NotAscii",
            AsmKind::BadLine => "E2 BadLine",
            AsmKind::UnknownName => "E3 UnknownName",
            AsmKind::BadOperand => "E4 BadOperand",
            AsmKind::ImmRange => "E5 ImmRange",
            AsmKind::DoubleLabel => "E6 DoubleLabel",
            AsmKind::NoLabel => "E7 NoLabel",
            AsmKind::TooLarge => "E8 TooLarge",
        }
    }
}

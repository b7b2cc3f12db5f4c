//! Laws of the canonical text.

ghost use Rattle.st_print.specs.Rereading.{UnitsReadBack};

/// The canonical text of a unit, where it has at most 1,048,576 bytes and the unit's operands name what is there, reads
/// back as the unit, line numbers and the labels that no operand names aside. A longer text is too large to read.
pub fn reread()
    ensures { UnitsReadBack }
{}

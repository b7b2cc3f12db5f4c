//! Words and instructions, both ways. `decode` tries the rows in their order, and `encode` goes to its row at once.
ghost use Rattle.std.specs.Prelude.{◌≡◌, ◌↔◌, Some, IfSome, IsSome, IsTrue, ℕ};
ghost use Rattle.st_rv.specs.declared.ins.Ins.{Ins};
ghost use Rattle.st_rv.specs.Op.{op_number};
ghost use Rattle.st_rv.specs.Rows.{IsRow, FitsTable, IsGiven, AreApart, Encoded, Decoded, row_at, first_in};

use crate::decoding::fields_of;
use crate::encoding::encode_form;
use crate::ins::{Ins, Op};
use crate::rows::{Form, ROWS, check_rows, each_row, first_row};

fn encoded(i: Ins) -> Option<u32>
    ensures { Encoded (row_at ROWS (op_number i.op)) i result }
{
    macro_rules! arms {
        ($(($op:ident, $kind:ident, $name:literal, $form:ident, $mask:literal, $bits:literal))*) => {
            match i.op {
                $(Op::$op => encode_form(Form::$form, $bits, i),)*
            }
        };
    }
    each_row!(arms)
}

/// The one word of an instruction; `None` exactly where the immediate is out of its row's range or a field that the
/// row doesn't use isn't 0.
pub fn encode(i: Ins) -> Option<u32>
    ensures some { IfSome result (λ w. IsRow i w) }
    ensures only { (w : ℕ) → IsRow i w → result ≡ Some w }
    ensures fits { IsSome result ↔ FitsTable i }
{
    encoded(i)
}

fn decoded(w: u32) -> Option<Ins>
    ensures { Decoded (first_in ROWS w) result w }
{
    let row = first_row(&ROWS, w)?;
    Some(fields_of(row.op, row.form, w))
}

/// The one instruction of a word; `None` exactly where no row gives the word.
pub fn decode(w: u32) -> Option<Ins>
    ensures some { IfSome result (λ i. IsRow i w) }
    ensures only { (i : Ins) → IsRow i w → result ≡ Some i }
    ensures given { IsSome result ↔ IsGiven w }
{
    decoded(w)
}

/// No two rows of the table give a common word.
pub fn check_table() -> bool
    ensures answer { IsTrue result }
    ensures apart { AreApart ROWS }
{
    check_rows(&ROWS)
}

/// A word is that of one instruction at most: no two rows of the table give a common word.
pub fn one_instruction()
    ensures { (i j : Ins) (w : ℕ) → IsRow i w → IsRow j w → i ≡ j }
{}

/// An instruction has one word at most.
pub fn one_word(i: Ins)
    ensures { (v w : ℕ) → IsRow i v → IsRow i w → v ≡ w }
{
    let _word = encode(i);
}

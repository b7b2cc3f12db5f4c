//! The instruction table of RV64I and M: one row for each operation, from one list.
ghost use Rattle.std.specs.Prelude.{◌≡◌, ◌↔◌, IsTrue, map};
ghost use Rattle.st_rv.specs.Rows.{Clash, IsApartFrom, AreApart, first_in, mnemonic_of, mnemonics, ops};

use crate::ins::Op;

/// Where the fields of a row's instructions stand in their words (manual, "Base Instruction Formats"). `Shift6` and
/// `Shift5` are I with a shift amount of 6 or 5 bits in place of the immediate; a `Fixed` row has one word alone.
#[derive(Clone, Copy, PartialEq, Eq, Debug)]
pub enum Form {
    R,
    I,
    Shift6,
    Shift5,
    S,
    B,
    U,
    J,
    Fixed,
}

/// A row of the table. It gives a word `w` exactly where `w & mask == bits`.
#[derive(Clone, Copy)]
pub struct Row {
    pub op: Op,
    pub form: Form,
    pub mask: u32,
    pub bits: u32,
}

/// Calls a macro with the whole list: operation, kind, mnemonic, form, mask and bits of each row, in the order of the
/// operations. Everything that goes row by row is expanded from it: the table, the names, kinds and encoding.
macro_rules! each_row {
    ($then:ident) => {
        $then! {
            (Add, Register, "add", R, 0xfe00707f, 0x00000033)
            (Sub, Register, "sub", R, 0xfe00707f, 0x40000033)
            (Sll, Register, "sll", R, 0xfe00707f, 0x00001033)
            (Slt, Register, "slt", R, 0xfe00707f, 0x00002033)
            (Sltu, Register, "sltu", R, 0xfe00707f, 0x00003033)
            (Xor, Register, "xor", R, 0xfe00707f, 0x00004033)
            (Srl, Register, "srl", R, 0xfe00707f, 0x00005033)
            (Sra, Register, "sra", R, 0xfe00707f, 0x40005033)
            (Or, Register, "or", R, 0xfe00707f, 0x00006033)
            (And, Register, "and", R, 0xfe00707f, 0x00007033)
            (Mul, Register, "mul", R, 0xfe00707f, 0x02000033)
            (Mulh, Register, "mulh", R, 0xfe00707f, 0x02001033)
            (Mulhsu, Register, "mulhsu", R, 0xfe00707f, 0x02002033)
            (Mulhu, Register, "mulhu", R, 0xfe00707f, 0x02003033)
            (Div, Register, "div", R, 0xfe00707f, 0x02004033)
            (Divu, Register, "divu", R, 0xfe00707f, 0x02005033)
            (Rem, Register, "rem", R, 0xfe00707f, 0x02006033)
            (Remu, Register, "remu", R, 0xfe00707f, 0x02007033)
            (Addw, Register, "addw", R, 0xfe00707f, 0x0000003b)
            (Subw, Register, "subw", R, 0xfe00707f, 0x4000003b)
            (Sllw, Register, "sllw", R, 0xfe00707f, 0x0000103b)
            (Srlw, Register, "srlw", R, 0xfe00707f, 0x0000503b)
            (Sraw, Register, "sraw", R, 0xfe00707f, 0x4000503b)
            (Mulw, Register, "mulw", R, 0xfe00707f, 0x0200003b)
            (Divw, Register, "divw", R, 0xfe00707f, 0x0200403b)
            (Divuw, Register, "divuw", R, 0xfe00707f, 0x0200503b)
            (Remw, Register, "remw", R, 0xfe00707f, 0x0200603b)
            (Remuw, Register, "remuw", R, 0xfe00707f, 0x0200703b)
            (Addi, Immediate, "addi", I, 0x0000707f, 0x00000013)
            (Slti, Immediate, "slti", I, 0x0000707f, 0x00002013)
            (Sltiu, Immediate, "sltiu", I, 0x0000707f, 0x00003013)
            (Xori, Immediate, "xori", I, 0x0000707f, 0x00004013)
            (Ori, Immediate, "ori", I, 0x0000707f, 0x00006013)
            (Andi, Immediate, "andi", I, 0x0000707f, 0x00007013)
            (Slli, Immediate, "slli", Shift6, 0xfc00707f, 0x00001013)
            (Srli, Immediate, "srli", Shift6, 0xfc00707f, 0x00005013)
            (Srai, Immediate, "srai", Shift6, 0xfc00707f, 0x40005013)
            (Addiw, Immediate, "addiw", I, 0x0000707f, 0x0000001b)
            (Slliw, Immediate, "slliw", Shift5, 0xfe00707f, 0x0000101b)
            (Srliw, Immediate, "srliw", Shift5, 0xfe00707f, 0x0000501b)
            (Sraiw, Immediate, "sraiw", Shift5, 0xfe00707f, 0x4000501b)
            (Lb, Load, "lb", I, 0x0000707f, 0x00000003)
            (Lh, Load, "lh", I, 0x0000707f, 0x00001003)
            (Lw, Load, "lw", I, 0x0000707f, 0x00002003)
            (Ld, Load, "ld", I, 0x0000707f, 0x00003003)
            (Lbu, Load, "lbu", I, 0x0000707f, 0x00004003)
            (Lhu, Load, "lhu", I, 0x0000707f, 0x00005003)
            (Lwu, Load, "lwu", I, 0x0000707f, 0x00006003)
            (Sb, Store, "sb", S, 0x0000707f, 0x00000023)
            (Sh, Store, "sh", S, 0x0000707f, 0x00001023)
            (Sw, Store, "sw", S, 0x0000707f, 0x00002023)
            (Sd, Store, "sd", S, 0x0000707f, 0x00003023)
            (Beq, Branch, "beq", B, 0x0000707f, 0x00000063)
            (Bne, Branch, "bne", B, 0x0000707f, 0x00001063)
            (Blt, Branch, "blt", B, 0x0000707f, 0x00004063)
            (Bge, Branch, "bge", B, 0x0000707f, 0x00005063)
            (Bltu, Branch, "bltu", B, 0x0000707f, 0x00006063)
            (Bgeu, Branch, "bgeu", B, 0x0000707f, 0x00007063)
            (Jal, Jump, "jal", J, 0x0000007f, 0x0000006f)
            (Jalr, Jump, "jalr", I, 0x0000707f, 0x00000067)
            (Lui, Upper, "lui", U, 0x0000007f, 0x00000037)
            (Ebreak, Break, "ebreak", Fixed, 0xffffffff, 0x00100073)
        }
    };
}

pub(crate) use each_row;

macro_rules! table {
    ($(($op:ident, $kind:ident, $name:literal, $form:ident, $mask:literal, $bits:literal))*) => {
        [$(Row { op: Op::$op, form: Form::$form, mask: $mask, bits: $bits }),*]
    };
}

macro_rules! names {
    ($(($op:ident, $kind:ident, $name:literal, $form:ident, $mask:literal, $bits:literal))*) => {
        [$((Op::$op, $name)),*]
    };
}

/// The one table.
pub const ROWS: [Row; 62] = each_row!(table);

/// The mnemonic of each row, in the order of `ROWS`. It stands beside the table, since a constant that contracts name
/// holds no text in a struct; both come from the same list.
pub const NAMES: [(Op, &str); 62] = each_row!(names);

/// The mnemonic of an operation.
pub fn mnemonic(op: Op) -> &'static str
    ensures { result.now ≡ mnemonic_of op }
{
    macro_rules! arms {
        ($(($op:ident, $kind:ident, $name:literal, $form:ident, $mask:literal, $bits:literal))*) => {
            match op {
                $(Op::$op => $name,)*
            }
        };
    }
    each_row!(arms)
}

/// The rows stand in the order of the operations, and so do the names, each beside its operation.
pub fn names_in_order()
    ensures rows { map (λ r. r.op) ROWS ≡ ops }
    ensures names { map (λ p. (p.0, p.1.now)) NAMES ≡ mnemonics }
{}

/// The first row that gives the word.
pub(crate) fn first_row(rows: &[Row], w: u32) -> Option<Row>
    ensures { result ≡ first_in rows.now w }
{
    for row in rows {
        if w & row.mask == row.bits {
            return Some(*row);
        }
    }
    None
}

/// Whether two rows give a common word: then the bits of both together are one.
fn clash(a: &Row, b: &Row) -> bool
    ensures { IsTrue result ↔ Clash a.now b.now }
{
    let both = a.bits | b.bits;
    both & a.mask == a.bits && both & b.mask == b.bits
}

/// Whether a row gives no common word with one of the others.
fn is_apart_from(row: &Row, others: &[Row]) -> bool
    ensures { IsTrue result ↔ IsApartFrom row.now others.now }
{
    for other in others {
        if clash(row, other) {
            return false;
        }
    }
    true
}

fn are_apart(rows: &[Row]) -> bool
    ensures { IsTrue result ↔ AreApart rows.now }
{
    let mut left = rows;
    while let Some((row, rest)) = left.split_first() {
        if !is_apart_from(row, rest) {
            return false;
        }
        left = rest;
    }
    true
}

/// Whether no two rows at different places give a common word.
pub fn check_rows<const N: usize>(rows: &[Row; N]) -> bool
    ensures { IsTrue result ↔ AreApart rows.now }
{
    are_apart(rows)
}

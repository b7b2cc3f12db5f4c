//! Instructions of RV64I and M as data.
ghost use Rattle.std.specs.Prelude.{◌≡◌};

use crate::rows::each_row;
use st_base::reg::Reg;

/// An operation, one for each row of the instruction table; its name is the mnemonic.
#[derive(Clone, Copy, PartialEq, Eq, Debug)]
pub enum Op {
    Add,
    Sub,
    Sll,
    Slt,
    Sltu,
    Xor,
    Srl,
    Sra,
    Or,
    And,
    Mul,
    Mulh,
    Mulhsu,
    Mulhu,
    Div,
    Divu,
    Rem,
    Remu,
    Addw,
    Subw,
    Sllw,
    Srlw,
    Sraw,
    Mulw,
    Divw,
    Divuw,
    Remw,
    Remuw,
    Addi,
    Slti,
    Sltiu,
    Xori,
    Ori,
    Andi,
    Slli,
    Srli,
    Srai,
    Addiw,
    Slliw,
    Srliw,
    Sraiw,
    Lb,
    Lh,
    Lw,
    Ld,
    Lbu,
    Lhu,
    Lwu,
    Sb,
    Sh,
    Sw,
    Sd,
    Beq,
    Bne,
    Blt,
    Bge,
    Bltu,
    Bgeu,
    Jal,
    Jalr,
    Lui,
    Ebreak,
}

/// What an operation does.
#[derive(Clone, Copy, PartialEq, Eq, Debug)]
pub enum OpKind {
    /// A result of two registers (manual, "Integer Register-Register Operations", and chapter "M").
    Register,
    /// A result of a register and an immediate or a shift amount ("Integer Register-Immediate Instructions").
    Immediate,
    /// `lui`: a result of the immediate alone.
    Upper,
    /// A load ("Load and Store Instructions").
    Load,
    /// A store ("Load and Store Instructions").
    Store,
    /// A conditional branch ("Conditional Branches").
    Branch,
    /// `jal` and `jalr` ("Unconditional Jumps").
    Jump,
    /// `ebreak` ("Environment Call and Breakpoints").
    Break,
}

impl Op {
    ghost use Rattle.st_rv.specs.Op.{kind_of};

    /// What the operation does.
    #[inline(always)]
    pub fn kind(self) -> OpKind
        ensures { result ≡ kind_of self }
    {
        macro_rules! arms {
            ($(($op:ident, $kind:ident, $name:literal, $form:ident, $mask:literal, $bits:literal))*) => {
                match self {
                    $(Op::$op => OpKind::$kind,)*
                }
            };
        }
        each_row!(arms)
    }
}

/// An instruction. A field that its row doesn't use is x0 or 0; `imm` is the signed immediate or the shift amount,
/// and for `lui` the 20-bit number.
#[derive(Clone, Copy, PartialEq, Eq, Debug)]
pub struct Ins {
    pub op: Op,
    pub rd: Reg,
    pub rs1: Reg,
    pub rs2: Reg,
    pub imm: i64,
}

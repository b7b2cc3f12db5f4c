//! Single instructions of the layout.
ghost use Rattle.std.specs.Prelude.{◌≡◌, pos};
ghost use Rattle.st_base.specs.declared.reg.Reg.TheVariants as registers;
ghost use Rattle.st_rv.specs.declared.ins.Op.TheVariants as ops;
ghost use Rattle.st_model.specs.declared.code.PostedIns.TheVariants as posted;
ghost use Rattle.st_model.specs.Layout.{immediate_ins, store_ins, upper_ins, addi, ld, sd};

use st_base::reg::Reg;
use st_model::code::PostedIns;
use st_rv::ins::{Ins, Op};

/// An instruction of a register, a register and an immediate.
fn immediate(op: Op, rd: Reg, rs1: Reg, imm: i64) -> PostedIns
    ensures { result ≡ posted.Plain (immediate_ins op rd rs1 imm) }
{
    PostedIns::Plain(Ins {
        op,
        rd,
        rs1,
        rs2: Reg::Zero,
        imm,
    })
}

/// `addi`: rd becomes rs1 plus the immediate.
pub(crate) fn addi(rd: Reg, rs1: Reg, imm: i64) -> PostedIns
    ensures { result ≡ addi rd rs1 imm }
{
    immediate(Op::Addi, rd, rs1, imm)
}

/// `addiw`: likewise in 32 bits.
pub(crate) fn addiw(rd: Reg, rs1: Reg, imm: i64) -> PostedIns
    ensures { result ≡ posted.Plain (immediate_ins ops.Addiw rd rs1 imm) }
{
    immediate(Op::Addiw, rd, rs1, imm)
}

/// A load of rd from imm(rs1).
pub(crate) fn ld(rd: Reg, imm: i64, rs1: Reg) -> PostedIns
    ensures { result ≡ ld rd imm rs1 }
{
    immediate(Op::Ld, rd, rs1, imm)
}

/// `jalr zero,0(ra)`.
pub(crate) fn leave() -> PostedIns
    ensures { result ≡ posted.Plain (immediate_ins ops.Jalr registers.Zero registers.Ra (pos 0)) }
{
    immediate(Op::Jalr, Reg::Zero, Reg::Ra, 0)
}

/// A store of rs2 at imm(rs1).
pub(crate) fn sd(rs2: Reg, imm: i64, rs1: Reg) -> PostedIns
    ensures { result ≡ sd rs2 imm rs1 }
{
    PostedIns::Plain(Ins {
        op: Op::Sd,
        rd: Reg::Zero,
        rs1,
        rs2,
        imm,
    })
}

/// `lui`: the immediate becomes the bits from 12 on.
pub(crate) fn lui(rd: Reg, imm: i64) -> PostedIns
    ensures { result ≡ posted.Plain (upper_ins ops.Lui rd imm) }
{
    PostedIns::Plain(Ins {
        op: Op::Lui,
        rd,
        rs1: Reg::Zero,
        rs2: Reg::Zero,
        imm,
    })
}

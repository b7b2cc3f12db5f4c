//! Tests of single instructions of prologues and epilogues.
ghost use Rattle.std.specs.Prelude.{◌≡◌, ◌==◌, ◌-ℤ◌, neg_ℤ, pos, option_map};
ghost use Rattle.st_rv.specs.Op.{op_number};
ghost use Rattle.st_base.specs.Reg.{reg_number};
ghost use Rattle.st_check.specs.Shape.{is_equal, is_addi, is_push, is_pop, is_return, opens_epilogue, frame_of};
ghost use Rattle.st_line.specs.declared.source.SourceIns.TheVariants.{Plain};
ghost use Rattle.st_check.specs.Views.{test_of};

use st_asm::SourceIns;
use st_base::reg::Reg;
use st_rv::ins::{Ins, Op};

/// What a line of a prologue or an epilogue of a frame of F bytes has to be.
#[derive(Clone, Copy)]
pub enum Test {
    /// `addi rd,rs1,F`.
    Addi { rd: Reg, rs1: Reg },
    /// `sd reg,F-below(sp)`.
    Push { reg: Reg, below: u32 },
    /// `ld reg,F-below(sp)`.
    Pop { reg: Reg, below: u32 },
    /// `ret`.
    Return,
}

fn is_op(i: Ins, op: Op) -> bool
    ensures { result ≡ (op_number i.op == op_number op) }
{
    i.op as usize == op as usize
}

/// Whether two registers are the same.
pub fn is_same(r: Reg, s: Reg) -> bool
    ensures { result ≡ (reg_number r == reg_number s) }
{
    r.number() == s.number()
}

/// The amount of `first` with its sign turned, less `below`.
fn amount_below(first: &Ins, below: u32) -> i128
    ensures { result ≡ neg_ℤ first.now.imm -ℤ pos below }
{
    -i128::from(first.imm) - i128::from(below)
}

/// Whether an amount is that of `first` with its sign turned, less `below`.
fn is_amount(imm: i64, first: &Ins, below: u32) -> bool
    ensures { result ≡ is_equal imm (neg_ℤ first.now.imm -ℤ pos below) }
{
    let imm = i128::from(imm);
    let amount = amount_below(first, below);
    !(imm < amount) && !(amount < imm)
}

/// Whether an amount is that of `first` with its sign turned.
fn is_frame(imm: i64, first: &Ins) -> bool
    ensures { result ≡ is_equal imm (neg_ℤ first.now.imm) }
{
    let imm = i128::from(imm);
    let amount = -i128::from(first.imm);
    !(imm < amount) && !(amount < imm)
}

fn is_addi(first: &Ins, rd: Reg, rs1: Reg, ins: &SourceIns) -> bool
    ensures { result ≡ is_addi rd rs1 (neg_ℤ first.now.imm) ins.now }
{
    match ins {
        SourceIns::Plain(i) => is_op(*i, Op::Addi)
            && is_same(i.rd, rd)
            && is_same(i.rs1, rs1)
            && is_frame(i.imm, first),
        _ => false,
    }
}

fn is_push(first: &Ins, reg: Reg, below: u32, ins: &SourceIns) -> bool
    ensures { result ≡ is_push reg (neg_ℤ first.now.imm -ℤ pos below) ins.now }
{
    match ins {
        SourceIns::Plain(i) => is_op(*i, Op::Sd)
            && is_same(i.rs2, reg)
            && is_same(i.rs1, Reg::Sp)
            && is_amount(i.imm, first, below),
        _ => false,
    }
}

fn is_pop(first: &Ins, reg: Reg, below: u32, ins: &SourceIns) -> bool
    ensures { result ≡ is_pop reg (neg_ℤ first.now.imm -ℤ pos below) ins.now }
{
    match ins {
        SourceIns::Plain(i) => is_op(*i, Op::Ld)
            && is_same(i.rd, reg)
            && is_same(i.rs1, Reg::Sp)
            && is_amount(i.imm, first, below),
        _ => false,
    }
}

/// Whether a line is `ret`.
pub fn is_return(ins: &SourceIns) -> bool
    ensures { result ≡ is_return ins.now }
{
    match ins {
        SourceIns::Ret => true,
        _ => false,
    }
}

/// Whether a line is what a test asks, in a frame that `first` opens.
pub fn passes(first: &Ins, test: Test, ins: &SourceIns) -> bool
    ensures { result ≡ test_of (neg_ℤ first.now.imm) test ins.now }
{
    match test {
        Test::Addi { rd, rs1 } => is_addi(first, rd, rs1, ins),
        Test::Push { reg, below } => is_push(first, reg, below, ins),
        Test::Pop { reg, below } => is_pop(first, reg, below, ins),
        Test::Return => is_return(ins),
    }
}

/// Whether a line is `ld ra` from sp.
pub fn opens_epilogue(ins: &SourceIns) -> bool
    ensures { result ≡ opens_epilogue ins.now }
{
    match ins {
        SourceIns::Plain(i) => is_op(*i, Op::Ld)
            && is_same(i.rd, Reg::Ra)
            && is_same(i.rs1, Reg::Sp),
        _ => false,
    }
}

/// The instruction `addi sp,sp,-F` of a line.
pub fn first_of<'u>(ins: &'u SourceIns) -> Option<&'u Ins>
    ensures { frame_of ins.now ≡ option_map (λ i. neg_ℤ i.now.imm) result }
{
    match ins {
        SourceIns::Plain(i) => first_in(i),
        _ => None,
    }
}

fn first_in<'u>(i: &'u Ins) -> Option<&'u Ins>
    ensures { frame_of (Plain i.now) ≡ option_map (λ i. neg_ℤ i.now.imm) result }
{
    if is_op(*i, Op::Addi) && is_same(i.rd, Reg::Sp) && is_same(i.rs1, Reg::Sp) {
        Some(i)
    } else {
        None
    }
}

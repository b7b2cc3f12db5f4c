//! The instruction of a word, by the form of a row that gives it.
ghost use Rattle.std.specs.Prelude.{◌≡◌, ◌<◌, ◌*◌, ◌^◌};
ghost use Rattle.st_base.specs.Reg.{reg_number};
ghost use Rattle.st_rv.specs.Fields.{sign_extended, immediate, HasFields};

use crate::ins::{Ins, Op};
use crate::rows::Form;
use st_base::reg::Reg;

/// The register of a number.
fn register_of(number: u32) -> Reg
    requires { number < 32 }
    ensures { reg_number result ≡ number }
{
    match number {
        0 => Reg::Zero,
        1 => Reg::Ra,
        2 => Reg::Sp,
        3 => Reg::Gp,
        4 => Reg::Tp,
        5 => Reg::T0,
        6 => Reg::T1,
        7 => Reg::T2,
        8 => Reg::S0,
        9 => Reg::S1,
        10 => Reg::A0,
        11 => Reg::A1,
        12 => Reg::A2,
        13 => Reg::A3,
        14 => Reg::A4,
        15 => Reg::A5,
        16 => Reg::A6,
        17 => Reg::A7,
        18 => Reg::S2,
        19 => Reg::S3,
        20 => Reg::S4,
        21 => Reg::S5,
        22 => Reg::S6,
        23 => Reg::S7,
        24 => Reg::S8,
        25 => Reg::S9,
        26 => Reg::S10,
        27 => Reg::S11,
        28 => Reg::T3,
        29 => Reg::T4,
        30 => Reg::T5,
        31 => Reg::T6,
        _ => unreachable!(),
    }
}

/// A number below twice `half`, read in two's complement.
fn sign_extended(n: u32, half: u32) -> i64
    requires below { n < 2 * half }
    requires small { half < 2 ^ 22 }
    ensures { result ≡ sign_extended half n }
{
    if n < half {
        i64::from(n)
    } else {
        i64::from(n) - 2 * i64::from(half)
    }
}

fn branch_immediate(w: u32) -> i64
    ensures { result ≡ immediate Form.B w }
{
    sign_extended(
        (w >> 31) * 4096 + (w >> 7 & 1) * 2048 + (w >> 25 & 63) * 32 + (w >> 8 & 15) * 2,
        4096,
    )
}

fn jump_immediate(w: u32) -> i64
    ensures { result ≡ immediate Form.J w }
{
    sign_extended(
        (w >> 31) * 1048576 + (w >> 12 & 255) * 4096 + (w >> 20 & 1) * 2048 + (w >> 21 & 1023) * 2,
        1048576,
    )
}

/// The instruction of this operation whose fields stand in the word.
pub(crate) fn fields_of(op: Op, form: Form, w: u32) -> Ins
    ensures op { result.op ≡ op }
    ensures fields { HasFields form result w }
{
    let rd = register_of(w >> 7 & 31);
    let rs1 = register_of(w >> 15 & 31);
    let rs2 = register_of(w >> 20 & 31);
    let none = Reg::Zero;
    match form {
        Form::R => Ins {
            op,
            rd,
            rs1,
            rs2,
            imm: 0,
        },
        Form::I => Ins {
            op,
            rd,
            rs1,
            rs2: none,
            imm: sign_extended(w >> 20, 2048),
        },
        Form::Shift6 => Ins {
            op,
            rd,
            rs1,
            rs2: none,
            imm: i64::from(w >> 20 & 63),
        },
        Form::Shift5 => Ins {
            op,
            rd,
            rs1,
            rs2: none,
            imm: i64::from(w >> 20 & 31),
        },
        Form::S => Ins {
            op,
            rd: none,
            rs1,
            rs2,
            imm: sign_extended((w >> 25) * 32 + (w >> 7 & 31), 2048),
        },
        Form::B => Ins {
            op,
            rd: none,
            rs1,
            rs2,
            imm: branch_immediate(w),
        },
        Form::U => Ins {
            op,
            rd,
            rs1: none,
            rs2: none,
            imm: i64::from(w >> 12),
        },
        Form::J => Ins {
            op,
            rd,
            rs1: none,
            rs2: none,
            imm: jump_immediate(w),
        },
        Form::Fixed => Ins {
            op,
            rd: none,
            rs1: none,
            rs2: none,
            imm: 0,
        },
    }
}

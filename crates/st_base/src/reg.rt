//! The 32 integer registers (RISC-V calling convention, "Integer Register Convention").
ghost use Rattle.std.specs.Prelude.{◌≡◌, ◌<◌};

/// A register by its name in the calling convention, in the order of the numbers x0 to x31.
#[derive(Clone, Copy, PartialEq, Eq, Debug)]
pub enum Reg {
    Zero,
    Ra,
    Sp,
    Gp,
    Tp,
    T0,
    T1,
    T2,
    S0,
    S1,
    A0,
    A1,
    A2,
    A3,
    A4,
    A5,
    A6,
    A7,
    S2,
    S3,
    S4,
    S5,
    S6,
    S7,
    S8,
    S9,
    S10,
    S11,
    T3,
    T4,
    T5,
    T6,
}

impl Reg {
    ghost use Rattle.st_base.specs.Reg.{reg_number};

    /// The number of the register, 0 to 31.
    pub fn number(self) -> usize
        ensures number { result ≡ reg_number self }
        ensures below { result < 32 }
    {
        self as usize
    }
}

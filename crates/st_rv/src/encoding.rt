//! The word of an instruction, by the form of its row. Each function here takes the bits that the row gives.
ghost use Rattle.std.specs.Prelude.{◌≡◌, ◌<◌, ◌*◌, ◌^◌, ◌↔◌, Some, IfSome, IsSome, ℕ, bit_and, pos};
ghost use Rattle.st_base.specs.Reg.{reg_number};
ghost use Rattle.st_rv.specs.Fields.{sign_extended, IsSigned, IsUnsigned, FitsForm};
ghost use Rattle.st_rv.specs.Rows.{IsWord, mask_of};

use crate::ins::Ins;
use crate::rows::Form;
use st_base::reg::Reg;

fn bits_of(register: Reg) -> u32
    ensures number { result ≡ reg_number register }
    ensures below { result < 32 }
{
    register.number() as u32
}

/// The number whose two's complement is the immediate, in so many bits that half of their numbers are `half`.
fn signed_bits(imm: i64, half: u32) -> Option<u32>
    requires { half < 2 ^ 22 }
    ensures some { IfSome result (λ n. (n < 2 * half) × (sign_extended half n ≡ imm)) }
    ensures only { (n : ℕ) → n < 2 * half → sign_extended half n ≡ imm → result ≡ Some n }
    ensures fits { IsSome result ↔ IsSigned half imm }
{
    let end = i64::from(half);
    if imm < -end || imm >= end {
        return None;
    }
    let low = if imm < 0 { imm + 2 * end } else { imm };
    Some(low as u32)
}

/// An immediate that is no negative number.
fn unsigned_bits(imm: i64, end: u32) -> Option<u32>
    ensures some { IfSome result (λ n. (n < end) × (pos n ≡ imm)) }
    ensures only { (n : ℕ) → n < end → pos n ≡ imm → result ≡ Some n }
    ensures fits { IsSome result ↔ IsUnsigned end imm }
{
    if imm < 0 || imm >= i64::from(end) {
        return None;
    }
    Some(imm as u32)
}

#[tactic(auto, using(crate::proofs::Masks::mask_r))]
fn encode_r(bits: u32, i: Ins) -> Option<u32>
    requires { bit_and bits 0xfe00707f ≡ bits }
    ensures some { IfSome result (λ w. IsWord 0xfe00707f bits Form.R i w) }
    ensures only { (w : ℕ) → IsWord 0xfe00707f bits Form.R i w → result ≡ Some w }
    ensures fits { IsSome result ↔ FitsForm Form.R i }
{
    if i.imm != 0 {
        return None;
    }
    let rd = bits_of(i.rd);
    let rs1 = bits_of(i.rs1);
    let rs2 = bits_of(i.rs2);
    Some(bits + rd * 128 + rs1 * 32768 + rs2 * 1048576)
}

#[tactic(auto, using(crate::proofs::Masks::mask_i))]
fn encode_i(bits: u32, i: Ins) -> Option<u32>
    requires { bit_and bits 0x707f ≡ bits }
    ensures some { IfSome result (λ w. IsWord 0x707f bits Form.I i w) }
    ensures only { (w : ℕ) → IsWord 0x707f bits Form.I i w → result ≡ Some w }
    ensures fits { IsSome result ↔ FitsForm Form.I i }
{
    if bits_of(i.rs2) != 0 {
        return None;
    }
    let n = signed_bits(i.imm, 2048)?;
    let rd = bits_of(i.rd);
    let rs1 = bits_of(i.rs1);
    Some(bits + rd * 128 + rs1 * 32768 + n * 1048576)
}

#[tactic(auto, using(crate::proofs::Masks::mask_six))]
fn encode_shift6(bits: u32, i: Ins) -> Option<u32>
    requires { bit_and bits 0xfc00707f ≡ bits }
    ensures some { IfSome result (λ w. IsWord 0xfc00707f bits Form.Shift6 i w) }
    ensures only { (w : ℕ) → IsWord 0xfc00707f bits Form.Shift6 i w → result ≡ Some w }
    ensures fits { IsSome result ↔ FitsForm Form.Shift6 i }
{
    if bits_of(i.rs2) != 0 {
        return None;
    }
    let n = unsigned_bits(i.imm, 64)?;
    let rd = bits_of(i.rd);
    let rs1 = bits_of(i.rs1);
    Some(bits + rd * 128 + rs1 * 32768 + n * 1048576)
}

#[tactic(auto, using(crate::proofs::Masks::mask_r))]
fn encode_shift5(bits: u32, i: Ins) -> Option<u32>
    requires { bit_and bits 0xfe00707f ≡ bits }
    ensures some { IfSome result (λ w. IsWord 0xfe00707f bits Form.Shift5 i w) }
    ensures only { (w : ℕ) → IsWord 0xfe00707f bits Form.Shift5 i w → result ≡ Some w }
    ensures fits { IsSome result ↔ FitsForm Form.Shift5 i }
{
    if bits_of(i.rs2) != 0 {
        return None;
    }
    let n = unsigned_bits(i.imm, 32)?;
    let rd = bits_of(i.rd);
    let rs1 = bits_of(i.rs1);
    Some(bits + rd * 128 + rs1 * 32768 + n * 1048576)
}

#[tactic(auto, using(crate::proofs::Masks::mask_i))]
fn encode_s(bits: u32, i: Ins) -> Option<u32>
    requires { bit_and bits 0x707f ≡ bits }
    ensures some { IfSome result (λ w. IsWord 0x707f bits Form.S i w) }
    ensures only { (w : ℕ) → IsWord 0x707f bits Form.S i w → result ≡ Some w }
    ensures fits { IsSome result ↔ FitsForm Form.S i }
{
    if bits_of(i.rd) != 0 {
        return None;
    }
    let n = signed_bits(i.imm, 2048)?;
    let rs1 = bits_of(i.rs1);
    let rs2 = bits_of(i.rs2);
    Some(bits + n % 32 * 128 + rs1 * 32768 + rs2 * 1048576 + n / 32 * 33554432)
}

#[tactic(auto, using(crate::proofs::Masks::mask_i))]
fn encode_b(bits: u32, i: Ins) -> Option<u32>
    requires { bit_and bits 0x707f ≡ bits }
    ensures some { IfSome result (λ w. IsWord 0x707f bits Form.B i w) }
    ensures only { (w : ℕ) → IsWord 0x707f bits Form.B i w → result ≡ Some w }
    ensures fits { IsSome result ↔ FitsForm Form.B i }
{
    if bits_of(i.rd) != 0 {
        return None;
    }
    let n = signed_bits(i.imm, 4096)?;
    if n % 2 != 0 {
        return None;
    }
    let rs1 = bits_of(i.rs1);
    let rs2 = bits_of(i.rs2);
    Some(
        bits + n / 2048 % 2 * 128
            + n / 2 % 16 * 256
            + rs1 * 32768
            + rs2 * 1048576
            + n / 32 % 64 * 33554432
            + n / 4096 * 2147483648,
    )
}

#[tactic(auto, using(crate::proofs::Masks::mask_u))]
fn encode_u(bits: u32, i: Ins) -> Option<u32>
    requires { bit_and bits 0x7f ≡ bits }
    ensures some { IfSome result (λ w. IsWord 0x7f bits Form.U i w) }
    ensures only { (w : ℕ) → IsWord 0x7f bits Form.U i w → result ≡ Some w }
    ensures fits { IsSome result ↔ FitsForm Form.U i }
{
    if bits_of(i.rs1) != 0 || bits_of(i.rs2) != 0 {
        return None;
    }
    let n = unsigned_bits(i.imm, 1048576)?;
    let rd = bits_of(i.rd);
    Some(bits + rd * 128 + n * 4096)
}

#[tactic(auto, using(crate::proofs::Masks::mask_u))]
fn encode_j(bits: u32, i: Ins) -> Option<u32>
    requires { bit_and bits 0x7f ≡ bits }
    ensures some { IfSome result (λ w. IsWord 0x7f bits Form.J i w) }
    ensures only { (w : ℕ) → IsWord 0x7f bits Form.J i w → result ≡ Some w }
    ensures fits { IsSome result ↔ FitsForm Form.J i }
{
    if bits_of(i.rs1) != 0 || bits_of(i.rs2) != 0 {
        return None;
    }
    let n = signed_bits(i.imm, 1048576)?;
    if n % 2 != 0 {
        return None;
    }
    let rd = bits_of(i.rd);
    Some(
        bits + rd * 128
            + n / 4096 % 256 * 4096
            + n / 2048 % 2 * 1048576
            + n / 2 % 1024 * 2097152
            + n / 1048576 * 2147483648,
    )
}

#[tactic(auto, using(crate::proofs::Masks::mask_all))]
fn encode_fixed(bits: u32, i: Ins) -> Option<u32>
    requires { bit_and bits 0xffffffff ≡ bits }
    ensures some { IfSome result (λ w. IsWord 0xffffffff bits Form.Fixed i w) }
    ensures only { (w : ℕ) → IsWord 0xffffffff bits Form.Fixed i w → result ≡ Some w }
    ensures fits { IsSome result ↔ FitsForm Form.Fixed i }
{
    if bits_of(i.rd) != 0 || bits_of(i.rs1) != 0 || bits_of(i.rs2) != 0 || i.imm != 0 {
        return None;
    }
    Some(bits)
}

/// The word of an instruction by a row of this form that gives these bits.
pub(crate) fn encode_form(form: Form, bits: u32, i: Ins) -> Option<u32>
    requires { bit_and bits (mask_of form) ≡ bits }
    ensures some { IfSome result (λ w. IsWord (mask_of form) bits form i w) }
    ensures only { (w : ℕ) → IsWord (mask_of form) bits form i w → result ≡ Some w }
    ensures fits { IsSome result ↔ FitsForm form i }
{
    match form {
        Form::R => encode_r(bits, i),
        Form::I => encode_i(bits, i),
        Form::Shift6 => encode_shift6(bits, i),
        Form::Shift5 => encode_shift5(bits, i),
        Form::S => encode_s(bits, i),
        Form::B => encode_b(bits, i),
        Form::U => encode_u(bits, i),
        Form::J => encode_j(bits, i),
        Form::Fixed => encode_fixed(bits, i),
    }
}

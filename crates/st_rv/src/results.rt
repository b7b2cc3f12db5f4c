//! Results of instructions: what the computational ones compute, whether a branch is taken, and what loads and stores
//! access. The contracts name the manual's whole-number formulas.
ghost use Rattle.std.specs.Prelude.{◌≡◌, ◌≤◌, IsTrue};
ghost use Rattle.st_rv.specs.Results.{word_of, computes, alu, is_taken, access_size, extended, sum, difference, is_less, is_less_unsigned, shifted_left, shifted_right, shifted_right_signed, upper, sum_low, difference_low, shifted_left_low, shifted_right_low, shifted_right_signed_low, product, high_product, high_product_mixed, high_product_unsigned, product_low, quotient, quotient_unsigned, remainder, remainder_unsigned, quotient_low, quotient_unsigned_low, remainder_low, remainder_unsigned_low, low_word, low_signed, extended_low};

use crate::ins::Op;

/// The 64 bits of a signed number, in two's complement; of a sign-extended immediate they are its word.
pub fn word_of(value: i64) -> u64
    ensures { result ≡ word_of value }
{
    value.cast_unsigned()
}

fn is_less(a: u64, b: u64) -> u64
    ensures { result ≡ is_less a b }
{
    u64::from(a.cast_signed() < b.cast_signed())
}

fn is_less_unsigned(a: u64, b: u64) -> u64
    ensures { result ≡ is_less_unsigned a b }
{
    u64::from(a < b)
}

fn shifted_left(a: u64, b: u64) -> u64
    ensures { result ≡ shifted_left a b }
{
    a << (b % 64)
}

fn shifted_right(a: u64, b: u64) -> u64
    ensures { result ≡ shifted_right a b }
{
    a >> (b % 64)
}

fn shifted_right_signed(a: u64, b: u64) -> u64
    ensures { result ≡ shifted_right_signed a b }
{
    (a.cast_signed() >> (b % 64)).cast_unsigned()
}

/// The low 32 bits.
fn low_word(a: u64) -> u32
    ensures { result ≡ low_word a }
{
    (a % 0x1_0000_0000) as u32
}

/// The word of a 32-bit number, sign-extended.
fn extended_low(n: u32) -> u64
    ensures { result ≡ extended_low n }
{
    i64::from(n.cast_signed()).cast_unsigned()
}

fn upper(b: u64) -> u64
    ensures { result ≡ upper b }
{
    extended_low(low_word(b.wrapping_mul(4096)))
}

fn sum_low(a: u64, b: u64) -> u64
    ensures { result ≡ sum_low a b }
{
    extended_low(low_word(a).wrapping_add(low_word(b)))
}

fn difference_low(a: u64, b: u64) -> u64
    ensures { result ≡ difference_low a b }
{
    extended_low(low_word(a).wrapping_sub(low_word(b)))
}

fn shifted_left_low(a: u64, b: u64) -> u64
    ensures { result ≡ shifted_left_low a b }
{
    extended_low(low_word(a) << (b % 32))
}

fn shifted_right_low(a: u64, b: u64) -> u64
    ensures { result ≡ shifted_right_low a b }
{
    extended_low(low_word(a) >> (b % 32))
}

fn shifted_right_signed_low(a: u64, b: u64) -> u64
    ensures { result ≡ shifted_right_signed_low a b }
{
    extended_low((low_word(a).cast_signed() >> (b % 32)).cast_unsigned())
}

fn high_product(a: u64, b: u64) -> u64
    ensures { result ≡ high_product a b }
{
    let wide = i128::from(a.cast_signed()) * i128::from(b.cast_signed());
    ((wide >> 64) as i64).cast_unsigned()
}

fn high_product_mixed(a: u64, b: u64) -> u64
    ensures { result ≡ high_product_mixed a b }
{
    let wide = i128::from(a.cast_signed()) * i128::from(b);
    ((wide >> 64) as i64).cast_unsigned()
}

fn high_product_unsigned(a: u64, b: u64) -> u64
    ensures { result ≡ high_product_unsigned a b }
{
    ((u128::from(a) * u128::from(b)) >> 64) as u64
}

fn product_low(a: u64, b: u64) -> u64
    ensures { result ≡ product_low a b }
{
    extended_low(low_word(a).wrapping_mul(low_word(b)))
}

fn quotient(a: u64, b: u64) -> u64
    ensures { result ≡ quotient a b }
{
    if b == 0 {
        return u64::MAX;
    }
    a.cast_signed()
        .wrapping_div(b.cast_signed())
        .cast_unsigned()
}

fn quotient_unsigned(a: u64, b: u64) -> u64
    ensures { result ≡ quotient_unsigned a b }
{
    if b == 0 {
        return u64::MAX;
    }
    a / b
}

fn remainder(a: u64, b: u64) -> u64
    ensures { result ≡ remainder a b }
{
    if b == 0 {
        return a;
    }
    a.cast_signed()
        .wrapping_rem(b.cast_signed())
        .cast_unsigned()
}

fn remainder_unsigned(a: u64, b: u64) -> u64
    ensures { result ≡ remainder_unsigned a b }
{
    if b == 0 {
        return a;
    }
    a % b
}

fn quotient_low(a: u64, b: u64) -> u64
    ensures { result ≡ quotient_low a b }
{
    let by = low_word(b);
    if by == 0 {
        return u64::MAX;
    }
    extended_low(
        low_word(a)
            .cast_signed()
            .wrapping_div(by.cast_signed())
            .cast_unsigned(),
    )
}

fn quotient_unsigned_low(a: u64, b: u64) -> u64
    ensures { result ≡ quotient_unsigned_low a b }
{
    let by = low_word(b);
    if by == 0 {
        return u64::MAX;
    }
    extended_low(low_word(a) / by)
}

fn remainder_low(a: u64, b: u64) -> u64
    ensures { result ≡ remainder_low a b }
{
    let by = low_word(b);
    if by == 0 {
        return extended_low(low_word(a));
    }
    extended_low(
        low_word(a)
            .cast_signed()
            .wrapping_rem(by.cast_signed())
            .cast_unsigned(),
    )
}

fn remainder_unsigned_low(a: u64, b: u64) -> u64
    ensures { result ≡ remainder_unsigned_low a b }
{
    let by = low_word(b);
    if by == 0 {
        return extended_low(low_word(a));
    }
    extended_low(low_word(a) % by)
}

/// The result of an operation that computes, from the words of its operands: for an immediate row `b` is the word of
/// the sign-extended immediate or the shift amount, and for `lui` the 20-bit number.
#[tactic(auto, unfolding(crate::specs::Results::alu))]
pub fn alu(op: Op, a: u64, b: u64) -> u64
    requires { IsTrue (computes op) }
    ensures { result ≡ alu op a b }
{
    match op {
        Op::Add | Op::Addi => a.wrapping_add(b),
        Op::Sub => a.wrapping_sub(b),
        Op::Sll | Op::Slli => shifted_left(a, b),
        Op::Slt | Op::Slti => is_less(a, b),
        Op::Sltu | Op::Sltiu => is_less_unsigned(a, b),
        Op::Xor | Op::Xori => a ^ b,
        Op::Srl | Op::Srli => shifted_right(a, b),
        Op::Sra | Op::Srai => shifted_right_signed(a, b),
        Op::Or | Op::Ori => a | b,
        Op::And | Op::Andi => a & b,
        Op::Mul => a.wrapping_mul(b),
        Op::Mulh => high_product(a, b),
        Op::Mulhsu => high_product_mixed(a, b),
        Op::Mulhu => high_product_unsigned(a, b),
        Op::Div => quotient(a, b),
        Op::Divu => quotient_unsigned(a, b),
        Op::Rem => remainder(a, b),
        Op::Remu => remainder_unsigned(a, b),
        Op::Addw | Op::Addiw => sum_low(a, b),
        Op::Subw => difference_low(a, b),
        Op::Sllw | Op::Slliw => shifted_left_low(a, b),
        Op::Srlw | Op::Srliw => shifted_right_low(a, b),
        Op::Sraw | Op::Sraiw => shifted_right_signed_low(a, b),
        Op::Mulw => product_low(a, b),
        Op::Divw => quotient_low(a, b),
        Op::Divuw => quotient_unsigned_low(a, b),
        Op::Remw => remainder_low(a, b),
        Op::Remuw => remainder_unsigned_low(a, b),
        Op::Lui => upper(b),
        _ => 0,
    }
}

/// Whether a branch on two words goes to its target; false for the operations that are no branch.
#[tactic(auto, unfolding(crate::specs::Results::is_taken))]
pub fn is_taken(op: Op, a: u64, b: u64) -> bool
    ensures { result ≡ is_taken op a b }
{
    match op {
        Op::Beq => a == b,
        Op::Bne => a != b,
        Op::Blt => a.cast_signed() < b.cast_signed(),
        Op::Bge => a.cast_signed() >= b.cast_signed(),
        Op::Bltu => a < b,
        Op::Bgeu => a >= b,
        _ => false,
    }
}

/// How many bytes a load or a store accesses; 8 for the operations that access none.
#[tactic(auto, unfolding(crate::specs::Results::access_size))]
pub fn access_size(op: Op) -> usize
    ensures size { result ≡ access_size op }
    ensures some { 1 ≤ result }
    ensures most { result ≤ 8 }
{
    match op {
        Op::Lb | Op::Lbu | Op::Sb => 1,
        Op::Lh | Op::Lhu | Op::Sh => 2,
        Op::Lw | Op::Lwu | Op::Sw => 4,
        _ => 8,
    }
}

/// What a load puts into its register, from the little-endian number that it read.
#[tactic(auto, unfolding(crate::specs::Results::extended))]
pub fn extended(op: Op, value: u64) -> u64
    ensures { result ≡ extended op value }
{
    match op {
        Op::Lb => i64::from(((value % 0x100) as u8).cast_signed()).cast_unsigned(),
        Op::Lh => i64::from(((value % 0x1_0000) as u16).cast_signed()).cast_unsigned(),
        Op::Lw => extended_low(low_word(value)),
        _ => value,
    }
}

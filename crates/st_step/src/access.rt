//! Accesses: which are to the stacks, in which word, and whether they are aligned; which make a frame or mark one.
ghost use Rattle.std.specs.Prelude.{◌≡◌, true, ◌==◌, ◌+◌, ◌%◌, ◌^◌, ◌<◌, ◌≤◌};
ghost use Rattle.st_rv.specs.Results.{access_size};
ghost use Rattle.st_rv.specs.Op.{op_number};
ghost use Rattle.st_step.specs.Moves.{register, address_of, is_stack, is_mark, in_one_word, makes_frame};
ghost use Rattle.st_words.specs.Steps.{place_of};

use crate::state::State;
use st_base::map::{STACKS_BYTES, STACKS_START};
use st_base::reg::Reg;
use st_rv::ins::{Ins, Op};
use st_rv::results::word_of;

impl State {
    /// What a register holds.
    pub(crate) fn read(&self, r: Reg) -> u64
        ensures { result ≡ register self.now r }
    {
        self.registers[r.number()]
    }

    /// The address that a load, a store or a jump through a register speaks of.
    pub(crate) fn address_of(&self, i: &Ins) -> u64
        ensures { result ≡ address_of self.now i.now }
    {
        self.read(i.rs1).wrapping_add(word_of(i.imm))
    }
}

/// Whether accesses through a register are to the stack.
pub(crate) fn is_stack(r: Reg) -> bool
    ensures { result ≡ is_stack r }
{
    matches!(r, Reg::S0 | Reg::Sp | Reg::Tp)
}

pub(crate) fn op_number(op: Op) -> usize
    ensures { result ≡ op_number op }
{
    op as usize
}

/// Whether it is `addi sp,sp,-F` with F above 0.
pub(crate) fn makes_frame(i: &Ins) -> bool
    ensures { result ≡ makes_frame i.now }
{
    op_number(i.op) == op_number(Op::Addi)
        && i.rd.number() == Reg::Sp.number()
        && i.rs1.number() == Reg::Sp.number()
        && i.imm < 0
}

/// Whether a store of a word is `sd zero,-8(tp)`.
pub(crate) fn is_mark(i: &Ins) -> bool
    ensures { result ≡ is_mark i.now }
{
    i.rs1.number() == Reg::Tp.number() && i.rs2.number() == 0 && word_of(i.imm) == word_of(-8)
}

/// Whether an access of so many bytes lies in one word of the stacks.
pub(crate) fn in_one_word(address: u64, size: usize) -> bool
    requires { size ≤ 8 }
    ensures { result ≡ in_one_word address size }
{
    address >= STACKS_START
        && address < STACKS_START + STACKS_BYTES
        && address % 8 + size as u64 <= 8
}

/// The place of the stack word of an address.
pub(crate) fn place_of(address: u64) -> u32
    requires from { 0x8000_0000 ≤ address }
    requires to { address < 0x8000_0000 + 2 ^ 32 }
    ensures { result ≡ place_of address }
{
    ((address - STACKS_START) / 8) as u32
}

/// The place of the stack word that begins at an address.
pub(crate) fn word_place(address: u64) -> u32
    requires { in_one_word address 8 ≡ true }
    ensures { result ≡ place_of address }
{
    place_of(address)
}

/// Whether the address of an access is a multiple of its size.
#[tactic(auto, unfolding(st_rv::specs::Results::access_size))]
pub(crate) fn is_aligned(op: Op, address: u64) -> bool
    ensures { result ≡ (address % access_size op == 0) }
{
    match op {
        Op::Lb | Op::Lbu | Op::Sb => true,
        Op::Lh | Op::Lhu | Op::Sh => address % 2 == 0,
        Op::Lw | Op::Lwu | Op::Sw => address % 4 == 0,
        _ => address % 8 == 0,
    }
}

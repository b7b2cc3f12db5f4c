//! What an instruction is to the machine, found once, before it runs: the commonest ones are told from the others of their kind.
ghost use Rattle.std.specs.Prelude.{◌≡◌};
ghost use Rattle.st_rv.specs.Op.{kind_of};
ghost use Rattle.st_rv.specs.declared.ins.Op.TheVariants.{Addi, Ld, Sd};
ghost use Rattle.st_rv.specs.declared.ins.OpKind.TheVariants.{Jump, Load};
ghost use Rattle.st_step.specs.Roles.{Suits};

use crate::access::{is_mark, is_stack, makes_frame, op_number};
use st_rv::ins::{Ins, Op, OpKind};

/// What an instruction is to the machine.
#[derive(Clone, Copy)]
pub enum Role {
    /// `add`.
    Sum,
    /// `sub`.
    Difference,
    /// `mul`.
    Product,
    /// `and`.
    And,
    /// `or`.
    Or,
    /// `xor`.
    Xor,
    /// `addi`, where it makes no frame.
    SumImmediate,
    /// `addi sp,sp,-F` with F above 0.
    Frame,
    /// `andi`.
    AndImmediate,
    /// `xori`.
    XorImmediate,
    /// `slli`.
    LeftShift,
    /// `srli`.
    RightShift,
    /// `sltiu`.
    LessImmediate,
    /// Another result of two registers.
    Register,
    /// Another result of a register and an immediate or a shift amount.
    Immediate,
    /// A result of an immediate alone.
    Upper,
    /// `ld` through s0, sp or tp.
    WordLoad,
    /// Another load through these.
    StackLoad,
    /// A load through another register.
    DataLoad,
    /// `sd` through s0, sp or tp, but for the mark.
    WordStore,
    /// `sd zero,-8(tp)`.
    Mark,
    /// Another store.
    Store,
    /// `beq`.
    Equal,
    /// `bne`.
    Unequal,
    /// `blt`.
    Less,
    /// `bge`.
    NotLess,
    /// `bltu`.
    LessUnsigned,
    /// `bgeu`.
    NotLessUnsigned,
    /// Another conditional branch.
    Branch,
    /// `jal`.
    Jump,
    /// `jalr`.
    IndirectJump,
    /// `ebreak`.
    Break,
}

#[tactic(auto, using(crate::proofs::RolesSuit::frame_suits, crate::proofs::RolesSuit::sum_immediate_suits))]
fn sum_role(i: Ins) -> Role
    requires { i.op ≡ Addi }
    ensures { Suits result i }
{
    if makes_frame(&i) {
        return Role::Frame;
    }
    Role::SumImmediate
}

#[tactic(auto, using(crate::proofs::RolesSuit::stack_load_suits, crate::proofs::RolesSuit::data_load_suits))]
fn load_role(i: Ins) -> Role
    requires { kind_of i.op ≡ Load }
    ensures { Suits result i }
{
    if is_stack(i.rs1) {
        return Role::StackLoad;
    }
    Role::DataLoad
}

#[tactic(auto, using(crate::proofs::RolesSuit::word_load_suits, crate::proofs::RolesSuit::data_word_suits))]
fn word_load_role(i: Ins) -> Role
    requires { i.op ≡ Ld }
    ensures { Suits result i }
{
    if is_stack(i.rs1) {
        return Role::WordLoad;
    }
    Role::DataLoad
}

#[tactic(auto, using(crate::proofs::RolesSuit::mark_suits, crate::proofs::RolesSuit::word_store_suits, crate::proofs::RolesSuit::outer_store_suits))]
fn word_store_role(i: Ins) -> Role
    requires { i.op ≡ Sd }
    ensures { Suits result i }
{
    if !is_stack(i.rs1) {
        return Role::Store;
    }
    if is_mark(&i) {
        return Role::Mark;
    }
    Role::WordStore
}

#[tactic(auto, using(crate::proofs::RolesSuit::jump_suits, crate::proofs::RolesSuit::indirect_jump_suits))]
fn jump_role(i: Ins) -> Role
    requires { kind_of i.op ≡ Jump }
    ensures { Suits result i }
{
    if op_number(i.op) == op_number(Op::Jalr) {
        return Role::IndirectJump;
    }
    Role::Jump
}

/// What an instruction is by its kind.
#[tactic(auto, using(crate::proofs::RolesSuit::register_suits, crate::proofs::RolesSuit::immediate_suits, crate::proofs::RolesSuit::upper_suits, crate::proofs::RolesSuit::store_suits, crate::proofs::RolesSuit::branch_suits, crate::proofs::RolesSuit::break_suits))]
fn role_by_kind(i: Ins) -> Role
    ensures { Suits result i }
{
    match i.op.kind() {
        OpKind::Register => Role::Register,
        OpKind::Immediate => Role::Immediate,
        OpKind::Upper => Role::Upper,
        OpKind::Load => load_role(i),
        OpKind::Store => Role::Store,
        OpKind::Branch => Role::Branch,
        OpKind::Jump => jump_role(i),
        OpKind::Break => Role::Break,
    }
}

/// What an instruction is to the machine.
pub(crate) fn role_of(i: Ins) -> Role
    ensures { Suits result i }
{
    match i.op {
        Op::Add => Role::Sum,
        Op::Sub => Role::Difference,
        Op::Mul => Role::Product,
        Op::And => Role::And,
        Op::Or => Role::Or,
        Op::Xor => Role::Xor,
        Op::Andi => Role::AndImmediate,
        Op::Xori => Role::XorImmediate,
        Op::Slli => Role::LeftShift,
        Op::Srli => Role::RightShift,
        Op::Sltiu => Role::LessImmediate,
        Op::Blt => Role::Less,
        Op::Bge => Role::NotLess,
        Op::Bltu => Role::LessUnsigned,
        Op::Bgeu => Role::NotLessUnsigned,
        Op::Addi => sum_role(i),
        Op::Ld => word_load_role(i),
        Op::Sd => word_store_role(i),
        Op::Beq => Role::Equal,
        Op::Bne => Role::Unequal,
        _ => role_by_kind(i),
    }
}

/// An instruction with what it is to the machine, and with a mark of whoever decodes it: whether an item begins with it.
#[derive(Clone, Copy)]
pub struct Decoded {
    pub ins: Ins,
    pub role: Role,
    pub begins: bool,
    ghost suits: { Suits role ins },
}

impl Decoded {
    /// The instruction, with what it is to the machine.
    pub fn of(ins: Ins, begins: bool) -> Decoded
        ensures ins { result.ins ≡ ins }
        ensures begins { result.begins ≡ begins }
    {
        Decoded {
            ins,
            role: role_of(ins),
            begins,
        }
    }
}

//! What an instruction does on the machine as it stands: one function for each kind, by the definition of that kind.
ghost use Rattle.std.specs.Prelude.{◌≡◌, ◌==◌, ◌+◌, IsTrue, true, false, nat_lt};
ghost use Rattle.st_base.specs.declared.reg.Reg.TheVariants.{Sp};
ghost use Rattle.st_rv.specs.Results.{alu, computes, access_size, is_taken};
ghost use Rattle.st_model.specs.Memory.{data_of};
ghost use Rattle.st_step.specs.declared.state.State.{State};
ghost use Rattle.st_step.specs.Moves.{Marks, Writes, address_of, from_pc, goes_on, register, results, makes_frame, frame_of, lacks_room, immediate_move, upper_move, stack_load, data_load, is_mark, word_store, short_store, stack_store, store_move, indirect_move, jump_move, move_of, in_one_word};
ghost use Rattle.st_step.specs.Acts.{move_by, IsBounded};
ghost use Rattle.st_step.specs.Roles.{branch_by, branched, frame_move, has_result, immediate_by, register_by, role_move, word_at, word_load};

use crate::access::{in_one_word, is_aligned, is_mark, is_stack, makes_frame, place_of};
use crate::act::Act;
use crate::bytes::with_bytes;
use crate::decoded::{Decoded, Role};
use crate::state::State;
use st_base::reg::Reg;
use st_base::thread::TrapKind;
use st_model::memory::load_data;
use st_rv::ins::{Ins, Op};
use st_rv::results::{access_size, alu, extended, is_taken, word_of};

/// An address so far from another, in the 32 bits of the pc.
fn from_pc(pc: u32, offset: i64) -> u32
    ensures { result ≡ from_pc pc offset }
{
    (u64::from(pc).wrapping_add(word_of(offset)) % 0x1_0000_0000) as u32
}

// ---- results

/// The result of an operation on two registers.
fn register_by(m: &State, i: &Ins, op: Op) -> Act
    requires { IsTrue (computes op) }
    ensures { move_by m.now result ≡ register_by op m.now i.now }
{
    Act::Result {
        rd: i.rd,
        value: alu(op, m.read(i.rs1), m.read(i.rs2)),
    }
}

/// The result of an operation on a register and an immediate.
fn immediate_by(m: &State, i: &Ins, op: Op) -> Act
    requires { IsTrue (computes op) }
    ensures { move_by m.now result ≡ immediate_by op m.now i.now }
{
    Act::Result {
        rd: i.rd,
        value: alu(op, m.read(i.rs1), word_of(i.imm)),
    }
}

/// The bytes of the frame that it makes.
fn frame_of(i: &Ins) -> u32
    requires { IsBounded i.now }
    ensures { result ≡ frame_of i.now }
{
    if i.imm < 0 {
        i.imm.unsigned_abs() as u32
    } else {
        0
    }
}

/// Whether sp would come so far below the stack's low end.
fn lacks_room(m: &State, frame: u32) -> bool
    ensures { result ≡ nat_lt (register m.now Sp) (m.now.lo + frame) }
{
    u128::from(m.read(Reg::Sp)) < u128::from(m.lo) + u128::from(frame)
}

fn frame_act(m: &State, i: &Ins) -> Act
    requires { IsBounded i.now }
    ensures { move_by m.now result ≡ frame_move m.now i.now }
{
    let frame = frame_of(i);
    if lacks_room(m, frame) {
        return Act::StackFull { frame };
    }
    immediate_by(m, i, Op::Addi)
}

fn immediate_act(m: &State, i: &Ins) -> Act
    requires computes { IsTrue (computes i.now.op) }
    requires bounded { IsBounded i.now }
    ensures { move_by m.now result ≡ immediate_move m.now i.now }
{
    if makes_frame(i) && lacks_room(m, frame_of(i)) {
        return Act::StackFull { frame: frame_of(i) };
    }
    Act::Result {
        rd: i.rd,
        value: alu(i.op, m.read(i.rs1), word_of(i.imm)),
    }
}

fn upper_act(i: &Ins) -> Act
    requires { IsTrue (computes i.now.op) }
    ensures { (m : State) → move_by m result ≡ upper_move m i.now }
{
    Act::Result {
        rd: i.rd,
        value: alu(i.op, 0, word_of(i.imm)),
    }
}

// ---- loads

fn word_load(m: &State, i: &Ins) -> Act
    ensures { move_by m.now result ≡ word_at (address_of m.now i.now) (word_load m.now i.now) }
{
    Act::LoadWord {
        rd: i.rd,
        address: m.address_of(i),
    }
}

fn stack_load(i: &Ins, address: u64) -> Act
    ensures { (m : State) → move_by m result ≡ stack_load m i.now address }
{
    if !in_one_word(address, access_size(i.op)) {
        return Act::Outside;
    }
    Act::Load {
        op: i.op,
        rd: i.rd,
        place: place_of(address),
        address,
    }
}

fn data_load(i: &Ins, rodata: &[u8], input: &[u8], address: u64) -> Act
    ensures { (m : State) → move_by m result ≡ data_load (data_of rodata.now input.now) m i.now address }
{
    if !is_aligned(i.op, address) {
        return Act::Trap(TrapKind::Misaligned);
    }
    match load_data(rodata, input, address, access_size(i.op)) {
        None => Act::Trap(TrapKind::LoadRange),
        Some(value) => Act::Result {
            rd: i.rd,
            value: extended(i.op, value),
        },
    }
}

// ---- stores

/// A store of a word that isn't the mark.
fn plain_store(m: &State, i: &Ins) -> Act
    ensures { move_by m.now result ≡ word_at (address_of m.now i.now) (λ place. Writes place (register m.now i.now.rs2) (goes_on m.now)) }
{
    Act::StoreWord {
        address: m.address_of(i),
        value: m.read(i.rs2),
    }
}

fn mark(m: &State, i: &Ins) -> Act
    ensures { move_by m.now result ≡ word_at (address_of m.now i.now) (λ place. Marks place (goes_on m.now)) }
{
    let address = m.address_of(i);
    if !in_one_word(address, 8) {
        return Act::Outside;
    }
    Act::Mark {
        place: place_of(address),
    }
}

fn word_store(m: &State, i: &Ins, place: u32) -> Act
    ensures { move_by m.now result ≡ word_store m.now i.now place }
{
    if is_mark(i) {
        return Act::Mark { place };
    }
    Act::Store {
        place,
        value: m.read(i.rs2),
    }
}

/// The two steps of a store of less than eight bytes: its word is loaded, and then stored with the new bytes.
fn short_store(m: &State, i: &Ins, address: u64) -> Act
    requires { in_one_word address (access_size i.now.op) ≡ true }
    ensures { move_by m.now result ≡ short_store m.now i.now address m.now.half }
{
    let size = access_size(i.op);
    let place = place_of(address);
    match m.half {
        None => Act::Fetch { place },
        Some(word) => Act::Store {
            place,
            value: with_bytes(word, address % 8, size, m.read(i.rs2)),
        },
    }
}

fn stack_store(m: &State, i: &Ins, address: u64) -> Act
    ensures { move_by m.now result ≡ stack_store m.now i.now address }
{
    let size = access_size(i.op);
    if !in_one_word(address, size) {
        return Act::Outside;
    }
    if size == 8 {
        return word_store(m, i, place_of(address));
    }
    short_store(m, i, address)
}

fn store_act(m: &State, i: &Ins) -> Act
    ensures { move_by m.now result ≡ store_move m.now i.now }
{
    if !is_stack(i.rs1) {
        return Act::Outside;
    }
    stack_store(m, i, m.address_of(i))
}

// ---- jumps

fn branched(m: &State, i: &Ins, taken: bool) -> Act
    ensures { move_by m.now result ≡ branched m.now i.now taken }
{
    if taken {
        return Act::Go {
            pc: from_pc(m.pc, i.imm),
        };
    }
    Act::Go {
        pc: m.pc.wrapping_add(4),
    }
}

/// A branch by the test of an operation.
fn branch_by(m: &State, i: &Ins, op: Op) -> Act
    ensures { move_by m.now result ≡ branch_by op m.now i.now }
{
    branched(m, i, is_taken(op, m.read(i.rs1), m.read(i.rs2)))
}

/// A jump through a register: its target has an even address, of 32 bits here.
fn indirect_act(i: &Ins, target: u64) -> Act
    ensures { (m : State) → move_by m result ≡ indirect_move m i.now target }
{
    if target > u64::from(u32::MAX) {
        return Act::Outside;
    }
    Act::Link {
        rd: i.rd,
        pc: (target / 2 * 2) as u32,
    }
}

fn jump_act(m: &State, i: &Ins) -> Act
    ensures { move_by m.now result ≡ jump_move false m.now i.now }
{
    Act::Link {
        rd: i.rd,
        pc: from_pc(m.pc, i.imm),
    }
}

// ---- all of them

/// What an instruction of a role does.
#[tactic(auto, unfolding(crate::specs::Roles::role_move))]
fn role_act(m: &State, role: Role, i: &Ins, rodata: &[u8], input: &[u8]) -> Act
    requires bounded { IsBounded i.now }
    requires computed { has_result role i.now ≡ true }
    ensures { move_by m.now result ≡ role_move role (data_of rodata.now input.now) m.now i.now }
{
    match role {
        Role::Sum => register_by(m, i, Op::Add),
        Role::Difference => register_by(m, i, Op::Sub),
        Role::Product => register_by(m, i, Op::Mul),
        Role::And => register_by(m, i, Op::And),
        Role::Or => register_by(m, i, Op::Or),
        Role::Xor => register_by(m, i, Op::Xor),
        Role::SumImmediate => immediate_by(m, i, Op::Addi),
        Role::AndImmediate => immediate_by(m, i, Op::Andi),
        Role::XorImmediate => immediate_by(m, i, Op::Xori),
        Role::LeftShift => immediate_by(m, i, Op::Slli),
        Role::RightShift => immediate_by(m, i, Op::Srli),
        Role::LessImmediate => immediate_by(m, i, Op::Sltiu),
        Role::Frame => frame_act(m, i),
        Role::Register => register_by(m, i, i.op),
        Role::Immediate => immediate_act(m, i),
        Role::Upper => upper_act(i),
        Role::WordLoad => word_load(m, i),
        Role::StackLoad => stack_load(i, m.address_of(i)),
        Role::DataLoad => data_load(i, rodata, input, m.address_of(i)),
        Role::WordStore => plain_store(m, i),
        Role::Mark => mark(m, i),
        Role::Store => store_act(m, i),
        Role::Equal => branch_by(m, i, Op::Beq),
        Role::Unequal => branch_by(m, i, Op::Bne),
        Role::Less => branch_by(m, i, Op::Blt),
        Role::NotLess => branch_by(m, i, Op::Bge),
        Role::LessUnsigned => branch_by(m, i, Op::Bltu),
        Role::NotLessUnsigned => branch_by(m, i, Op::Bgeu),
        Role::Branch => branch_by(m, i, i.op),
        Role::Jump => jump_act(m, i),
        Role::IndirectJump => indirect_act(i, m.address_of(i)),
        Role::Break => Act::Trap(TrapKind::Abort),
    }
}

/// What an instruction does on the machine as it stands, with these read-only data and this input.
pub(crate) fn act_of(m: &State, i: &Decoded, rodata: &[u8], input: &[u8]) -> Act
    requires { IsBounded i.now.ins }
    ensures { move_by m.now result ≡ move_of (data_of rodata.now input.now) m.now i.now.ins }
{
    role_act(m, i.role, &i.ins, rodata, input)
}

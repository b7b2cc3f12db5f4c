//! What an item gives, takes and reads among 64 places, as a word: each is a union of at most four ranges.
ghost use Rattle.std.specs.Prelude.{◌≡◌, ◌<◌, ◌≤◌, ◌^◌, ◌+◌, ◌*◌, ℕ, nat_lt, ◌==◌, ◌||◌, slice_get, not};
ghost use Rattle.st_base.specs.Reg.{reg_number};
ghost use Rattle.st_model.specs.Effect.{runtime_call};
ghost use Rattle.st_model.specs.Flow.{between, taken_by_call, takes, slot_bytes, gives_as, entry_gives, call_gives, gives, is_argument, argument_of, load_reads, reads_as, entry_reads, call_reads, reads, defined_at_entry};
ghost use Rattle.st_flow.specs.Places.{IsWord, is_spared, is_taken_away, is_changed};

use st_base::reg::Reg;
use st_model::effect::runtime_call;
use st_model::plain::{is_frame, slot_place};
use st_model::program::{ItemKind, Program, ProgramFunction, RuntimeCall};
use st_rv::ins::{Ins, OpKind};
use st_rv::results::access_size;

/// What an item does to a place that is not defined and stays so.
#[derive(Clone, Copy)]
pub enum Change {
    /// It neither gives nor takes it.
    Spared,
    /// It takes its definition away.
    TakenAway,
}

/// The places below `high`.
fn below(high: usize, g: usize) -> u64
    requires { g < 2 ^ 32 }
    ensures { IsWord result g (λ x. nat_lt x high) }
{
    let first = 64 * g;
    if high <= first {
        0
    } else if high - first >= 64 {
        u64::MAX
    } else {
        (1u64 << (high - first)) - 1
    }
}

/// The places from `low` up to below `high`.
fn span(low: usize, high: usize, g: usize) -> u64
    requires { g < 2 ^ 32 }
    ensures { IsWord result g (between low high) }
{
    below(high, g) & !below(low, g)
}

/// One place.
fn place(n: usize, g: usize) -> u64
    requires number { n < 64 }
    requires group { g < 2 ^ 32 }
    ensures { IsWord result g (λ x. x == n) }
{
    span(n, n + 1, g)
}

/// Two places.
fn either(m: usize, n: usize, g: usize) -> u64
    requires first { m < 64 }
    requires second { n < 64 }
    requires group { g < 2 ^ 32 }
    ensures { IsWord result g (λ x. x == m || x == n) }
{
    place(m, g) | place(n, g)
}

/// One register.
fn register(r: Reg, g: usize) -> u64
    requires { g < 2 ^ 32 }
    ensures { IsWord result g (λ x. x == reg_number r) }
{
    place(r.number(), g)
}

/// Two registers.
fn registers(r: Reg, s: Reg, g: usize) -> u64
    requires { g < 2 ^ 32 }
    ensures { IsWord result g (λ x. x == reg_number r || x == reg_number s) }
{
    either(r.number(), s.number(), g)
}

/// The bytes of a slot access.
fn slot(frame: usize, bytes: usize, i: Ins, g: usize) -> u64
    requires { g < 2 ^ 32 }
    ensures { IsWord result g (slot_bytes frame bytes i) }
{
    let low = (slot_place(frame, i.imm) as usize).saturating_add(32);
    span(low, low.saturating_add(bytes), g)
}

/// What a call takes: ra, a0 to a7 and t0 to t5.
fn taken_by_call(g: usize) -> u64
    requires { g < 2 ^ 32 }
    ensures { IsWord result g taken_by_call }
{
    place(1, g) | span(5, 8, g) | span(10, 18, g) | span(28, 31, g)
}

fn takes(kind: ItemKind, g: usize) -> u64
    requires { g < 2 ^ 32 }
    ensures { IsWord result g (takes kind) }
{
    match kind {
        ItemKind::Call { .. } | ItemKind::Entry { .. } | ItemKind::Fork { .. } => taken_by_call(g),
        _ => 0,
    }
}

fn gives_as(kind: OpKind, frame: usize, i: Ins, g: usize) -> u64
    requires { g < 2 ^ 32 }
    ensures { IsWord result g (gives_as kind frame i) }
{
    match kind {
        OpKind::Register | OpKind::Immediate | OpKind::Upper | OpKind::Load => register(i.rd, g),
        OpKind::Store => slot(frame, access_size(i.op), i, g),
        OpKind::Branch | OpKind::Jump | OpKind::Break => 0,
    }
}

fn call_gives(call: Option<RuntimeCall>, g: usize) -> u64
    requires { g < 2 ^ 32 }
    ensures { IsWord result g (call_gives call) }
{
    match call {
        Some(RuntimeCall::Touch) => place(10, g),
        Some(RuntimeCall::Counter) => place(16, g),
        _ => 0,
    }
}

fn gives(frame: usize, kind: ItemKind, g: usize) -> u64
    requires { g < 2 ^ 32 }
    ensures { IsWord result g (gives frame kind) }
{
    match kind {
        ItemKind::Plain(i) => gives_as(i.op.kind(), frame, i, g),
        ItemKind::Li { rd, value: _ } => register(rd, g),
        ItemKind::Call { function: _ } => place(10, g),
        ItemKind::Entry { at } => call_gives(runtime_call(at), g),
        ItemKind::Fork {
            function: _,
            handle,
        } => register(handle, g),
        _ => 0,
    }
}

/// The arguments of a function: integers in a0 on, handles in a6 on.
fn arguments(ints: u32, handles: u32, g: usize) -> u64
    requires { g < 2 ^ 32 }
    ensures { IsWord result g (is_argument ints handles) }
{
    span(10, 10 + ints as usize, g) | span(16, 16 + handles as usize, g)
}

fn arguments_of(program: &Program, function: u32, g: usize) -> u64
    requires { g < 2 ^ 32 }
    ensures { IsWord result g (argument_of (slice_get program.now.functions function)) }
{
    match program.functions.as_slice().get(function as usize) {
        None => 0,
        Some(callee) => arguments(callee.ints, callee.handles, g),
    }
}

fn load_reads(in_frame: bool, frame: usize, i: Ins, g: usize) -> u64
    requires { g < 2 ^ 32 }
    ensures { IsWord result g (load_reads in_frame frame i) }
{
    if in_frame {
        slot(frame, access_size(i.op), i, g)
    } else {
        register(i.rs1, g)
    }
}

fn reads_as(kind: OpKind, frame: usize, i: Ins, g: usize) -> u64
    requires { g < 2 ^ 32 }
    ensures { IsWord result g (reads_as kind frame i) }
{
    match kind {
        OpKind::Register => registers(i.rs1, i.rs2, g),
        OpKind::Immediate => register(i.rs1, g),
        OpKind::Load => load_reads(is_frame(i.rs1), frame, i, g),
        OpKind::Store => register(i.rs2, g),
        OpKind::Upper | OpKind::Branch | OpKind::Jump | OpKind::Break => 0,
    }
}

fn call_reads(call: Option<RuntimeCall>, g: usize) -> u64
    requires { g < 2 ^ 32 }
    ensures { IsWord result g (call_reads call) }
{
    match call {
        Some(RuntimeCall::Touch) | Some(RuntimeCall::Done) => place(16, g),
        Some(RuntimeCall::Join) => either(16, 10, g),
        Some(RuntimeCall::Putc) => place(10, g),
        _ => 0,
    }
}

/// What an item reads.
pub fn reads(program: &Program, frame: usize, kind: ItemKind, g: usize) -> u64
    requires { g < 2 ^ 32 }
    ensures { IsWord result g (reads program.now frame kind) }
{
    match kind {
        ItemKind::Epilogue => place(10, g),
        ItemKind::Plain(i) => reads_as(i.op.kind(), frame, i, g),
        ItemKind::Branch {
            op: _,
            rs1,
            rs2,
            to: _,
        } => registers(rs1, rs2, g),
        ItemKind::Call { function } => arguments_of(program, function, g),
        ItemKind::Entry { at } => call_reads(runtime_call(at), g),
        ItemKind::Fork {
            function,
            handle: _,
        } => arguments_of(program, function, g),
        _ => 0,
    }
}

fn spared(frame: usize, kind: ItemKind, g: usize) -> u64
    requires { g < 2 ^ 32 }
    ensures { IsWord result g (is_spared frame kind) }
{
    !(gives(frame, kind, g) | takes(kind, g))
}

fn taken_away(frame: usize, kind: ItemKind, g: usize) -> u64
    requires { g < 2 ^ 32 }
    ensures { IsWord result g (is_taken_away frame kind) }
{
    takes(kind, g) & !gives(frame, kind, g)
}

/// The places to which an item does this.
pub fn changed(change: Change, frame: usize, kind: ItemKind, g: usize) -> u64
    requires { g < 2 ^ 32 }
    ensures { IsWord result g (is_changed change frame kind) }
{
    match change {
        Change::Spared => spared(frame, kind, g),
        Change::TakenAway => taken_away(frame, kind, g),
    }
}

/// The places that are not defined at entry.
pub fn absent(function: &ProgramFunction, g: usize) -> u64
    requires { g < 2 ^ 32 }
    ensures { IsWord result g (λ x. not (defined_at_entry function.now x)) }
{
    !(place(0, g) | arguments(function.ints, function.handles, g))
}

//! The ordinary-call run: one list of activations, in which a fork is a call that runs at once.
ghost use Rattle.std.specs.Prelude.{◌≡◌, ◌≢◌, ◌<◌, ◌≤◌, ◌-◌, ◌^◌, ◌↔◌, ℕ, length, slice_get, IfOk, IfSome, OnOk, Some};
ghost use Rattle.std.specs.Option.{option_copied};
ghost use Rattle.st_model.specs.Memory.{data_of};
ghost use Rattle.st_model.specs.Accepted.{IsAccepted};
ghost use Rattle.st_model.specs.Ends.{Distinct, IsOrdered};
ghost use Rattle.st_model.specs.Ordinary.{goes_on, returned, called, trapped, printed, finished, forked, value_of, touched, counted, is_counter, count_of, counted_up, made_counter, added, joined, item_at, apply, step, run, TalliesWithin, started, ordinary_run, EndsWith};

use crate::effect::{Effect, entered, item_effect};
use crate::program::{Item, Program};
use st_base::line::Line;
use st_base::lists::{Listed, Stack};
use st_base::map::MOST_PRINTED;
use st_base::path::{Bytes, Path};
use st_base::reg::Reg;
use st_base::registers::{Pick, Registers};
use st_base::thread::{Activation, ActivationKind, Held, TrapKind};
use std::alloc::{AllocError, Global};

/// How an ordinary-call run ends, with the bytes that were printed.
#[derive(Debug, Drop)]
pub enum OrdEnd {
    /// It has not ended.
    Going,
    Done {
        out: Bytes,
    },
    Trap {
        kind: TrapKind,
        line: Line,
        path: Path,
        out: Bytes,
    },
    /// It waits at a join whose count is not reached.
    Waits {
        line: Line,
        path: Path,
        out: Bytes,
    },
    /// It would print a byte past 1,048,576.
    OutLimit {
        out: Bytes,
    },
}

/// What a thread of the list has done so far, and the register that gets its future.
#[derive(Drop)]
pub struct Tally {
    pub path: Path,
    pub forks: u64,
    pub counters: u64,
    pub handle: Reg,
}

/// The value of a thread that has ended.
#[derive(Drop)]
pub struct Ended {
    pub path: Path,
    pub value: u64,
}

/// The count of a counter, by its maker and its number there.
#[derive(Drop)]
pub struct Tallied {
    pub maker: Path,
    pub number: u32,
    pub count: u64,
}

/// All of the ordinary machine but the newest activation and the registers: what an item alone does not see.
#[derive(Drop)]
pub struct Rest {
    pub older: Stack<Activation>,
    /// The running thread.
    pub thread: Tally,
    /// The threads whose forks have not ended, the newest first.
    pub parents: Stack<Tally>,
    pub ended: Listed<Ended>,
    pub counts: Listed<Tallied>,
    pub out: Bytes,
}

/// A state of the ordinary machine.
#[derive(Drop)]
pub struct State {
    pub top: Activation,
    pub registers: Registers,
    pub rest: Rest,
}

/// What a step leads to.
#[derive(Drop)]
pub enum Turn {
    /// Something undefined was read.
    Undefined,
    Goes(State),
    Over(OrdEnd),
}

fn goes(top: Activation, registers: Registers, rest: Rest) -> Turn
    ensures { result ≡ goes_on top registers rest }
{
    Turn::Goes(State {
        top,
        registers,
        rest,
    })
}

fn returned(rest: Rest, registers: Registers) -> Turn
    ensures { result ≡ returned rest registers }
{
    let mut rest = rest;
    match rest.older.pop() {
        None => Turn::Undefined,
        Some(top) => goes(top, registers, rest),
    }
}

fn called(
    rest: Rest,
    caller: Activation,
    top: Activation,
    registers: Registers,
) -> Result<Turn, AllocError>
    ensures { IfOk result (λ turn. turn ≡ called rest caller top registers) }
{
    let mut rest = rest;
    rest.older.push(caller)?;
    Ok(goes(top, registers, rest))
}

fn trapped(rest: Rest, kind: TrapKind, line: Line) -> Turn
    ensures { result ≡ trapped rest kind line }
{
    Turn::Over(OrdEnd::Trap {
        kind,
        line,
        path: rest.thread.path,
        out: rest.out,
    })
}

fn printed(
    rest: Rest,
    line: Line,
    byte: u8,
    top: Activation,
    registers: Registers,
) -> Result<Turn, AllocError>
    ensures { IfOk result (λ turn. turn ≡ printed rest line byte top registers) }
{
    if !rest.thread.path.is_root() {
        return Ok(trapped(rest, TrapKind::PutInChild, line));
    }
    if rest.out.len() >= MOST_PRINTED {
        return Ok(Turn::Over(OrdEnd::OutLimit { out: rest.out }));
    }
    let mut rest = rest;
    rest.out.push(byte)?;
    Ok(goes(top, registers, rest))
}

/// The end of the running thread, and with the root's that of the run.
fn finished(alloc: Global, rest: Rest, value: u64, kept: Registers) -> Result<Turn, AllocError>
    ensures { IfOk result (λ turn. turn ≡ finished rest value kept) }
{
    let mut rest = rest;
    let Some(parent) = rest.parents.pop() else {
        return Ok(Turn::Over(OrdEnd::Done { out: rest.out }));
    };
    let Some(top) = rest.older.pop() else {
        return Ok(Turn::Undefined);
    };
    let child = rest.thread;
    let mut registers = kept;
    registers.set(child.handle, Held::Future(child.path.copy(alloc)?));
    let mut ended = rest.ended;
    ended.push(Ended {
        path: child.path,
        value,
    })?;
    Ok(goes(
        top,
        registers,
        Rest {
            older: rest.older,
            thread: parent,
            parents: rest.parents,
            ended,
            counts: rest.counts,
            out: rest.out,
        },
    ))
}

fn forked(
    alloc: Global,
    rest: Rest,
    parent: Activation,
    child: Activation,
    handle: Reg,
    passed: Registers,
) -> Result<Turn, AllocError>
    requires { rest.thread.forks < 2 ^ 32 }
    ensures { IfOk result (λ turn. turn ≡ forked rest parent child handle passed) }
{
    let mut rest = rest;
    let path = rest.thread.path.child(alloc, rest.thread.forks as u32)?;
    rest.older.push(parent)?;
    let mut thread = rest.thread;
    thread.forks += 1;
    rest.parents.push(thread)?;
    rest.thread = Tally {
        path,
        forks: 0,
        counters: 0,
        handle,
    };
    Ok(goes(child, passed, rest))
}

/// The value of the thread of a path, if it has ended. Those that ended last are looked at first: a thread is mostly touched
/// soon after its end.
fn value_of(ended: &[Ended], path: &Path) -> Option<u64>
    requires { Distinct ended.now }
    ensures { result ≡ value_of ended.now path.now }
{
    let mut left = ended.len();
    while left > 0 {
        left -= 1;
        let found = &ended[left];
        if found.path.is(path) {
            return Some(found.value);
        }
    }
    None
}

fn touched(rest: Rest, line: Line, name: Held, top: Activation, registers: Registers) -> Turn
    requires { Distinct rest.ended }
    ensures { result ≡ touched rest line name top registers }
{
    match name {
        Held::Future(path) => match value_of(rest.ended.as_slice(), &path) {
            None => Turn::Undefined,
            Some(value) => {
                let mut registers = registers;
                registers.set(Reg::A0, Held::Number(value));
                goes(top, registers, rest)
            }
        },
        _ => trapped(rest, TrapKind::WrongHandle, line),
    }
}

/// One more; a count stands still at its end.
fn counted(count: u64) -> u64
    ensures { result ≡ counted count }
{
    if count < 0x7fff_ffff_ffff {
        count + 1
    } else {
        count
    }
}

fn is_counter(counter: &Tallied, maker: &Path, number: u32) -> bool
    ensures { result ≡ is_counter counter.now maker.now number }
{
    counter.maker.is(maker) && counter.number == number
}

/// The count of a counter: 0 where nobody has added.
#[tactic(auto, using(crate::proofs::Lookup::count_of_next))]
fn count_of(counts: &[Tallied], maker: &Path, number: u32) -> u64
    ensures { result ≡ count_of counts.now maker.now number }
{
    for counter in counts {
        if is_counter(counter, maker, number) {
            return counter.count;
        }
    }
    0
}

/// A new counter of the thread, with count 0.
fn made_counter(
    alloc: Global,
    rest: Rest,
    top: Activation,
    registers: Registers,
) -> Result<Turn, AllocError>
    requires { rest.thread.counters < 2 ^ 32 }
    ensures { IfOk result (λ turn. turn ≡ made_counter rest top registers) }
{
    let mut rest = rest;
    let mut registers = registers;
    let number = rest.thread.counters as u32;
    rest.counts.push(Tallied {
        maker: rest.thread.path.copy(alloc)?,
        number,
        count: 0,
    })?;
    registers.set(
        Reg::A6,
        Held::Counter {
            maker: rest.thread.path.copy(alloc)?,
            number,
        },
    );
    rest.thread.counters += 1;
    Ok(goes(top, registers, rest))
}

/// Adds 1 to the count of a counter.
fn count_up(counts: &mut Listed<Tallied>, maker: Path, number: u32) -> Result<(), AllocError>
    ensures { OnOk result (counts.new ≡ counted_up counts.old maker number) }
{
    for i in 0..counts.len() {
        let counter = &counts.as_slice()[i];
        if is_counter(counter, &maker, number) {
            let count = counted(counter.count);
            counts.set(
                i,
                Tallied {
                    maker,
                    number,
                    count,
                },
            );
            return Ok(());
        }
    }
    counts.push(Tallied {
        maker,
        number,
        count: 1,
    })
}

fn added(
    rest: Rest,
    line: Line,
    name: Held,
    top: Activation,
    registers: Registers,
) -> Result<Turn, AllocError>
    ensures { IfOk result (λ turn. turn ≡ added rest line name top registers) }
{
    match name {
        Held::Counter { maker, number } => {
            let mut rest = rest;
            count_up(&mut rest.counts, maker, number)?;
            Ok(goes(top, registers, rest))
        }
        _ => Ok(trapped(rest, TrapKind::WrongHandle, line)),
    }
}

fn joined(
    rest: Rest,
    line: Line,
    name: Held,
    least: u64,
    top: Activation,
    registers: Registers,
) -> Turn
    ensures { result ≡ joined rest line name least top registers }
{
    match name {
        Held::Counter { maker, number } => {
            if count_of(rest.counts.as_slice(), &maker, number) < least {
                Turn::Over(OrdEnd::Waits {
                    line,
                    path: rest.thread.path,
                    out: rest.out,
                })
            } else {
                goes(top, registers, rest)
            }
        }
        _ => trapped(rest, TrapKind::WrongHandle, line),
    }
}

/// The item that an activation is at.
fn item_at(program: &Program, top: &Activation) -> Option<Item>
    ensures item { result ≡ item_at program.now top.now }
    ensures room { IfSome result (λ _. top.now.next < 2 ^ 64 - 1) }
{
    let function = program.functions.as_slice().get(top.function)?;
    let item = function.items.as_slice().get(top.next)?;
    Some(*item)
}

/// What an effect makes of a state.
fn apply(alloc: Global, rest: Rest, line: Line, effect: Effect) -> Result<Turn, AllocError>
    requires forks { rest.thread.forks < 2 ^ 32 }
    requires counters { rest.thread.counters < 2 ^ 32 }
    requires ends { Distinct rest.ended }
    ensures { IfOk result (λ turn. turn ≡ apply rest line effect) }
{
    match effect {
        Effect::Undefined => Ok(Turn::Undefined),
        Effect::Goes { top, registers } => Ok(goes(top, registers, rest)),
        Effect::Calls {
            top,
            callee,
            registers,
        } => called(rest, top, callee, registers),
        Effect::Returns { registers } => Ok(returned(rest, registers)),
        Effect::Ends { value, kept } => finished(alloc, rest, value, kept),
        Effect::Traps { kind } => Ok(trapped(rest, kind, line)),
        Effect::Prints {
            byte,
            top,
            registers,
        } => printed(rest, line, byte, top, registers),
        Effect::Forks {
            top,
            child,
            handle,
            passed,
            registers: _,
        } => forked(alloc, rest, top, child, handle, passed),
        Effect::Touches {
            name,
            top,
            registers,
        } => Ok(touched(rest, line, name, top, registers)),
        Effect::Counts { top, registers } => made_counter(alloc, rest, top, registers),
        Effect::Adds {
            name,
            top,
            registers,
        } => added(rest, line, name, top, registers),
        Effect::Joins {
            name,
            least,
            top,
            registers,
        } => Ok(joined(rest, line, name, least, top, registers)),
    }
}

/// One step.
#[tactic(auto, unfolding(crate::specs::Ordinary::step))]
fn step(
    alloc: Global,
    program: &Program,
    rodata: &[u8],
    input: &[u8],
    state: State,
) -> Result<Turn, AllocError>
    requires forks { state.rest.thread.forks < 2 ^ 32 }
    requires counters { state.rest.thread.counters < 2 ^ 32 }
    requires ends { Distinct state.rest.ended }
    ensures { IfOk result (λ turn. turn ≡ step program.now (data_of rodata.now input.now) state) }
{
    let Some(item) = item_at(program, &state.top) else {
        return Ok(Turn::Undefined);
    };
    let effect = item_effect(
        alloc,
        program,
        rodata,
        input,
        item.kind,
        state.top,
        state.registers,
    )?;
    apply(alloc, state.rest, item.line, effect)
}

/// At most so many steps.
#[tactic(auto, using(crate::proofs::Steps::steps))]
fn run(
    alloc: Global,
    program: &Program,
    rodata: &[u8],
    input: &[u8],
    state: State,
    steps: u64,
) -> Result<OrdEnd, AllocError>
    requires steps { steps ≤ 2 ^ 32 }
    requires tallies { TalliesWithin 0 state.rest }
    requires order { IsOrdered state.rest }
    requires defined { run program.now (data_of rodata.now input.now) steps state ≢ None }
    ensures { IfOk result (λ end. Some end ≡ run program.now (data_of rodata.now input.now) steps state) }
{
    let mut state = state;
    let mut left = steps;
    while left > 0 {
        left -= 1;
        match step(alloc, program, rodata, input, state)? {
            Turn::Undefined => unreachable!(),
            Turn::Goes(next) => state = next,
            Turn::Over(end) => return Ok(end),
        }
    }
    Ok(OrdEnd::Going)
}

/// The first state; `main` is given the length of the input.
fn start(alloc: Global, program: &Program, input: &[u8]) -> Result<Option<State>, AllocError>
    ensures state { IfOk result (λ state. state ≡ started program.now (length input.now) (slice_get program.now.functions program.now.main)) }
    ensures tallies { IfOk result (λ state. IfSome state (λ s. TalliesWithin 0 s.rest)) }
    ensures order { IfOk result (λ state. IfSome state (λ s. IsOrdered s.rest)) }
{
    let Some(function) = program.functions.as_slice().get(program.main as usize) else {
        return Ok(None);
    };
    let mut registers = Registers::zeroed(alloc)?;
    registers.set(Reg::A0, Held::Number(input.len() as u64));
    let pick = Pick::Arguments {
        ints: function.ints,
        handles: 0,
    };
    let kept = Registers::zeroed(alloc)?;
    Ok(Some(State {
        top: entered(alloc, program.main, function, kept, ActivationKind::Root)?,
        registers: registers.picked(alloc, pick)?,
        rest: Rest {
            older: Stack::new(alloc),
            thread: Tally {
                path: Path::root(alloc),
                forks: 0,
                counters: 0,
                handle: Reg::Zero,
            },
            parents: Stack::new(alloc),
            ended: Listed::new(alloc),
            counts: Listed::new(alloc),
            out: Bytes::new(alloc),
        },
    }))
}

/// The ordinary-call run of an accepted program over its read-only data and its input, of at most so many steps. `Going` says
/// that no number of steps up to this one ends it; any other answer is the end of the run, however many steps are allowed.
#[tactic(auto, using(crate::proofs::Steps::run_is_from))]
pub fn ordinary(
    alloc: Global,
    program: &Program,
    rodata: &[u8],
    input: &[u8],
    steps: u64,
) -> Result<OrdEnd, AllocError>
    requires accepted { ∥ IsAccepted program.now ∥₁ }
    requires steps { steps ≤ 2 ^ 32 }
    requires rodata { length rodata.now ≤ 1048576 }
    requires input { length input.now ≤ 16777216 }
    ensures run { IfOk result (λ end. Some end ≡ ordinary_run program.now (data_of rodata.now input.now) steps) }
    ensures ends { IfOk result (λ end. end ≢ OrdEnd.Going → EndsWith program.now (data_of rodata.now input.now) end) }
    ensures going { IfOk result (λ end. (end ≡ OrdEnd.Going) ↔ ((n : ℕ) → n ≤ steps → ordinary_run program.now (data_of rodata.now input.now) n ≡ Some OrdEnd.Going)) }
{
    match start(alloc, program, input)? {
        None => unreachable!(),
        Some(state) => run(alloc, program, rodata, input, state, steps),
    }
}

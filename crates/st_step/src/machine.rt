//! The state of the machine.
ghost use Rattle.std.specs.Prelude.{◌≡◌, slice_index};
ghost use Rattle.st_step.specs.declared.state.State.{State};

use crate::state::State;
use st_base::reg::Reg;
use st_base::thread::TrapKind;
use std::marker::Model;

/// How a step of the machine ends.
#[derive(Clone, Copy, PartialEq, Eq, Debug)]
pub enum StepEnd {
    /// An instruction was run, or the first half of a store of less than eight bytes.
    Ran,
    /// The pc is the address of this entry of the runtime.
    Entry(u32),
    /// The instruction traps; the registers and the pc are as before.
    Trap(TrapKind),
    /// The stack has no room for a frame of so many bytes; the registers and the pc are as before.
    StackFull { frame: u32 },
}

/// A machine, which contracts see as its state. `zero` is always 0.
#[derive(Drop)]
pub struct Machine {
    pub(crate) state: State,
}

impl Model for Machine {
    ghost Value = { State };

    ghost view = { λ m. m.state };

    ghost invariant = { λ m. slice_index m.state.registers 0 ≡ 0 };
}

impl Machine {
    ghost use Rattle.st_step.specs.Moves.{register, written, at_place, first_state};

    /// A machine on the stack from `lo` up to `hi`, with all registers and the pc 0.
    pub fn new(lo: u64, hi: u64) -> Machine
        ensures { result ≡ first_state lo hi }
    {
        Machine {
            state: State {
                registers: [0; 32],
                pc: 0,
                lo,
                hi,
                half: None,
            },
        }
    }

    /// What a register holds.
    pub fn reg(&self, r: Reg) -> u64
        ensures { result ≡ register self.now r }
    {
        self.state.read(r)
    }

    /// Writes a register; a write to `zero` changes nothing.
    pub fn set_reg(&mut self, r: Reg, v: u64)
        ensures { self.new ≡ written self.old r v }
    {
        self.state.write(r, v);
    }

    /// The address of the next instruction.
    pub fn pc(&self) -> u32
        ensures { result ≡ self.now.pc }
    {
        self.state.pc
    }

    /// Goes on at another address. A store that is half done is forgotten.
    pub fn set_pc(&mut self, pc: u32)
        ensures { self.new ≡ at_place pc self.old }
    {
        self.state.go(pc);
    }

    /// The low end of its stack.
    pub fn low_end(&self) -> u64
        ensures { result ≡ self.now.lo }
    {
        self.state.lo
    }

    /// The high end of its stack.
    pub fn high_end(&self) -> u64
        ensures { result ≡ self.now.hi }
    {
        self.state.hi
    }

    /// Another machine like it. Takes no memory.
    pub fn copy(&self) -> Machine
        ensures { result ≡ self.now }
    {
        Machine { state: self.state }
    }
}

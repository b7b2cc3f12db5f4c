//! Opening a worker.
ghost use Rattle.std.specs.Prelude.{◌≡◌, ◌<◌, ◌≤◌, IfOk};
ghost use Rattle.st_items.specs.Tables.{HasCodeOf};
ghost use Rattle.st_phases.specs.Opening.{IsOpened, empty_machine};

use crate::automaton::Automaton;
use crate::phase::Phase;
use st_base::image::Image;
use st_base::limits::Limits;
use st_base::map::STACKS_START;
use st_base::reg::Reg;
use st_chain::logical::Logical;
use st_items::code::Code;
use st_stack::stack::PhysStack;
use st_steal::ready::ReadyList;
use st_step::Machine;
use std::alloc::{AllocError, Global};

/// A machine on an empty stack, whose sp and gp are at its high end.
fn machine_on(lo: u64, hi: u64) -> Machine
    ensures { result ≡ empty_machine lo hi }
{
    let mut machine = Machine::new(lo, hi);
    machine.set_reg(Reg::Sp, hi);
    machine.set_reg(Reg::Gp, hi);
    machine
}

impl Automaton {
    /// The worker `number` of `workers`, 1 to 16, without a thread, for an image and an input of `length` bytes. A round is to begin.
    ///
    /// All its memory is taken here; an error tells that there was not enough.
    pub fn open(
        alloc: Global,
        image: &Image,
        limits: &Limits,
        number: u32,
        workers: u32,
        length: u64,
    ) -> Result<Automaton, AllocError>
        requires image { ∥ HasCodeOf image.now ∥₁ }
        requires among { number < workers }
        requires few { workers ≤ 16 }
        ensures opened { IfOk result (λ x. IsOpened image.now limits.now number workers length x) }
    {
        let bytes = u64::from(limits.stack);
        let lo = STACKS_START + u64::from(number) * bytes;
        let hi = lo + bytes;
        let code = Code::of(alloc, image)?;
        let stack = PhysStack::open(alloc, lo, hi)?;
        let threads = Logical::open(alloc, limits.cells)?;
        let ready = ReadyList::open(alloc, limits.cells)?;
        Ok(Automaton {
            number,
            workers,
            cells: limits.cells,
            steps: limits.steps,
            length,
            code,
            machine: machine_on(lo, hi),
            stack,
            threads,
            ready,
            phase: Phase::Settled,
            items: 0,
            frame_bytes: 0,
            since: 0,
            asked: None,
            begun: false,
            last: number,
        })
    }
}

//! Register files: what each of the 32 registers holds, where it is defined.
ghost use Rattle.std.specs.Prelude.{◌≡◌, slice_index_or, None, IfOk};
ghost use Rattle.std.specs.Option.{option_copied};
ghost use Rattle.st_base.specs.Registers.{write_register, picked, zeroed, is_picked, picked_at};
ghost use Rattle.st_base.specs.Reg.{reg_number};

use crate::reg::Reg;
use crate::thread::Held;
use std::alloc::{AllocError, Global};
use std::marker::Model;

/// What the 32 registers hold, where they are defined. `zero` always holds 0.
#[derive(Drop)]
pub struct Registers {
    values: Vec<Option<Held>>,
}

impl Model for Registers {
    ghost use Rattle.std.specs.Prelude.{List, Option, ◌≡◌, length};
    ghost use Rattle.st_base.specs.declared.thread.Held.{Held};

    ghost Value = { List (Option Held) };

    ghost view = { λ r. r.values.items };

    ghost invariant = { λ r. length r.values.items ≡ 32 };
}

/// Which registers are kept.
#[derive(Clone, Copy)]
pub enum Pick {
    /// zero and s1 to s11: what stays defined over a call.
    Saved,
    /// zero, and the integers in a0 on and the handles in a6 on that a call passes.
    Arguments { ints: u32, handles: u32 },
}

impl Pick {
    fn picks(self, at: usize) -> bool
        ensures { result ≡ is_picked self at }
    {
        match self {
            Pick::Saved => at == 0 || at == 9 || (18 <= at && at < 28),
            Pick::Arguments { ints, handles } => {
                at == 0
                    || (10 <= at && at < 10 + ints as usize)
                    || (16 <= at && at < 16 + handles as usize)
            }
        }
    }
}

impl Registers {
    /// What a register holds; `None` where it is not defined.
    pub fn get(&self, reg: Reg) -> Option<&Held>
        ensures { option_copied result ≡ slice_index_or self.now (reg_number reg) None }
    {
        match self.values.get(reg.number()) {
            Some(item) => item.as_ref(),
            None => None,
        }
    }

    /// Writes a register; a write to `zero` changes nothing.
    pub fn set(&mut self, reg: Reg, held: Held)
        ensures { self.new ≡ write_register self.old reg held }
    {
        let at = reg.number();
        if at != 0 {
            self.values[at] = Some(held);
        }
    }

    /// A file in which `zero` alone is defined.
    #[tactic(auto, using(crate::proofs::Picking::picking), unfolding(crate::specs::Registers::zeroed))]
    pub fn zeroed(alloc: Global) -> Result<Registers, AllocError>
        ensures { IfOk result (λ registers. registers ≡ zeroed) }
    {
        let mut values = Vec::new(alloc);
        for _ in 0..32u32 {
            values.push(None)?;
        }
        values[0] = Some(Held::Number(0));
        Ok(Registers { values })
    }

    /// A file that has the picked registers alone.
    #[tactic(auto, using(crate::proofs::Picking::picking), unfolding(crate::specs::Registers::picked))]
    pub fn picked(&self, alloc: Global, pick: Pick) -> Result<Registers, AllocError>
        ensures { IfOk result (λ registers. registers ≡ picked pick self.now) }
    {
        let mut values = Vec::new(alloc);
        for at in 0..32usize {
            values.push(self.picked_at(alloc, pick, at)?)?;
        }
        Ok(Registers { values })
    }

    fn picked_at(&self, alloc: Global, pick: Pick, at: usize) -> Result<Option<Held>, AllocError>
        ensures { IfOk result (λ value. value ≡ picked_at pick self.now at) }
    {
        if pick.picks(at) {
            self.copied(alloc, at)
        } else {
            Ok(None)
        }
    }

    fn copied(&self, alloc: Global, at: usize) -> Result<Option<Held>, AllocError>
        ensures { IfOk result (λ value. value ≡ slice_index_or self.now at None) }
    {
        match self.values.get(at) {
            Some(Some(held)) => Ok(Some(held.copy(alloc)?)),
            _ => Ok(None),
        }
    }
}

//! The calls made on an object of the outside, and which of them are to fail.
ghost use Rattle.std.specs.Prelude.{◌≡◌, ◌≤◌, ◌↔◌, IsTrue};
ghost use Rattle.st_base.specs.Outside.{HasRisen, next_count};
ghost use Rattle.st_base.specs.OutsideMemory.{FailsNext, with_call, with_fault};

use crate::fault_count::FaultCount;
use crate::outside::Failed;
use std::marker::Model;

/// How many calls were made, which are to fail, and how many faults there were. Both counts stand still at 2^64 - 1.
#[derive(Drop)]
pub(crate) struct Calls {
    fail: Vec<u64>,
    made: u64,
    faults: FaultCount,
}

impl Model for Calls {
    ghost use Rattle.st_base.specs.OutsideMemory.{CallPlan};

    ghost Value = { CallPlan };

    ghost view = { λ c. record { fail = c.fail.items; made = c.made; faults = c.faults } };
}

impl Calls {
    ghost use Rattle.st_base.specs.OutsideMemory.{planned};

    /// No call so far; those of these numbers, from 1, are to fail.
    pub(crate) fn new(fail: Vec<u64>) -> Calls
        ensures { result ≡ planned fail.items }
    {
        Calls {
            fail,
            made: 0,
            faults: FaultCount::new(),
        }
    }

    pub(crate) fn faults(&self) -> u64
        ensures { result ≡ self.now.faults }
    {
        self.faults.get()
    }

    /// Counts a call and tells whether it is to fail.
    pub(crate) fn next_fails(&mut self) -> bool
        ensures told { IsTrue result ↔ FailsNext self.old }
        ensures counted { self.new ≡ with_call self.old }
    {
        self.made = self.made.saturating_add(1);
        self.fail.contains(&self.made)
    }

    /// Counts a fault, and gives the error to answer.
    pub(crate) fn raise(&mut self) -> Failed
        ensures count { self.new ≡ with_fault self.old }
        ensures risen { HasRisen self.old.faults self.new.faults }
        ensures kept { self.old.faults ≤ self.new.faults }
    {
        self.faults.raise()
    }
}

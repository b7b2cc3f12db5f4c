//! A count of faults that stands still at its last value.
ghost use Rattle.std.specs.Prelude.{◌≡◌, ◌≤◌};
ghost use Rattle.st_base.specs.Outside.{HasRisen, next_count};

use crate::outside::Failed;
use std::marker::Model;

/// A count of faults. It never falls, and stands still at 2^64 - 1.
#[derive(Drop)]
pub(crate) struct FaultCount {
    count: u64,
}

impl Model for FaultCount {
    ghost use Rattle.std.specs.Prelude.{ℕ};

    ghost Value = { ℕ };

    ghost view = { λ f. f.count };
}

impl FaultCount {
    /// No fault so far.
    pub(crate) fn new() -> FaultCount
        ensures { result ≡ 0 }
    {
        FaultCount { count: 0 }
    }

    pub(crate) fn get(&self) -> u64
        ensures { result ≡ self.now }
    {
        self.count
    }

    /// Counts a fault, and gives the error to answer.
    #[tactic(auto, using(crate::proofs::Counting::risen_next))]
    pub(crate) fn raise(&mut self) -> Failed
        ensures count { self.new ≡ next_count self.old }
        ensures risen { HasRisen self.old self.new }
        ensures kept { self.old ≤ self.new }
    {
        self.count = self.count.saturating_add(1);
        Failed
    }
}

//! Calls of which some are to fail.
ghost use Rattle.std.specs.Prelude.{◌≡◌, ◌↔◌, IsTrue};
ghost use Rattle.rz_ports.specs.Memory.{Calls, FailsNext, after_call};

use std::marker::Model;

/// The numbers of the calls that are to fail, counted from 0, with the calls so far.
#[derive(Drop)]
pub(crate) struct FaultPlan {
    made: u64,
    fails: Vec<u64>,
    failed: u64,
}

impl Model for FaultPlan {
    ghost Value = { Calls };

    ghost view = { λ p. record { made = p.made; fails = p.fails.items; failed = p.failed } };
}

impl FaultPlan {
    pub(crate) fn new(fails: Vec<u64>) -> Self
        ensures { result ≡ record { made = 0; fails = fails.items; failed = 0 } }
    {
        FaultPlan {
            made: 0,
            fails,
            failed: 0,
        }
    }

    /// Counts a call, and says whether it is to fail.
    pub(crate) fn next_fails(&mut self) -> bool
        ensures fails { IsTrue result ↔ FailsNext self.old }
        ensures after { self.new ≡ after_call result self.old }
    {
        let fails = self.fails.contains(&self.made);
        self.made = self.made.saturating_add(1);
        if fails {
            self.failed = self.failed.saturating_add(1);
        }
        fails
    }
}

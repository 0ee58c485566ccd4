//! Calls of a memory shelf or a memory device that are to fail.

ghost use Rattle.std.specs.Prelude.{◌≡◌, ◌+◌, ◌<◌, ◌^◌, [], ◌∷◌, ◌++◌, OnOk, OnErr};
ghost use Rattle.f2c_outside.specs.Plan.{next_fails, after_call};

use crate::texts::NoMemory;
use std::alloc::Global;
use std::marker::Model;

/// The numbers of the calls that are to fail, counted from 1, and the calls that there have been.
#[derive(Drop)]
pub(crate) struct Plan {
    fails: Vec<u64>,
    calls: u64,
    planned: u64,
}

impl Model for Plan {
    ghost use Rattle.std.specs.Prelude.{◌≤◌};
    ghost use Rattle.f2c_outside.specs.Plan as plan;

    ghost Value = { plan.Plan };

    ghost view = { λ p. record { fails = p.fails.items; calls = p.calls; planned = p.planned } };

    ghost invariant = { λ p. p.planned ≤ p.calls };
}

impl Plan {
    /// No call has been made, and none is to fail.
    pub(crate) fn new(alloc: Global) -> Plan
        ensures { result ≡ record { fails = []; calls = 0; planned = 0 } }
    {
        Plan {
            fails: Vec::new(alloc),
            calls: 0,
            planned: 0,
        }
    }

    /// The call of this number is to fail, too.
    pub(crate) fn fail_at(&mut self, call: u64) -> Result<(), NoMemory>
        ensures ok { OnOk result (self.new ≡ record self.old { fails = self.old.fails ++ call ∷ [] }) }
        ensures err { OnErr result (self.new ≡ self.old) }
    {
        self.fails.push(call)?;
        Ok(())
    }

    /// Counts a call, and says whether it is to fail.
    pub(crate) fn next_fails(&mut self) -> bool
        ensures answer { result ≡ next_fails self.old }
        ensures counted { self.new ≡ after_call self.old }
    {
        if self.calls == u64::MAX {
            return false;
        }
        self.calls += 1;
        let call = self.calls;
        let fails = self.fails.contains(&call);
        if fails {
            self.planned += 1;
        }
        fails
    }
}

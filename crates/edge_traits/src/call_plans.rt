// Which calls of a fake fail: those whose numbers are listed.
ghost use Rattle.std.specs.Prelude.{◌≡◌, ◌↔◌, ◌⊎◌, IsErr, IsTrue};
ghost use Rattle.edge_traits.specs.Faults.{HasFaultCause};
ghost use Rattle.edge_traits.specs.Fakes.{CountsCall, IsListed, no_calls};

use crate::Failed;
use std::marker::Model;

/// The calls of a fake, numbered from 1, and the list of those that are to fail. Each call goes through that list.
#[derive(Drop)]
pub struct CallPlan {
    made: u64,
    fail_at: Vec<u64>,
    faults: u64,
}

impl Model for CallPlan {
    ghost use Rattle.edge_traits.specs.Fakes.{Calls};

    ghost Value = { Calls };

    ghost view = { λ p. record { made = p.made; fail_at = p.fail_at.items; faults = p.faults } };
}

impl CallPlan {
    /// No call was made yet; those with these numbers are to fail.
    pub fn new(fail_at: Vec<u64>) -> Self
        ensures { result ≡ no_calls fail_at.items }
    {
        CallPlan {
            made: 0,
            fail_at,
            faults: 0,
        }
    }

    /// How many calls were made. A count of 64 bits stands still at its end.
    pub fn made(&self) -> u64
        ensures { result ≡ self.now.made }
    {
        self.made
    }

    /// How many calls failed. A count of 64 bits stands still at its end.
    pub fn faults(&self) -> u64
        ensures { result ≡ self.now.faults }
    {
        self.faults
    }

    /// Counts a call, which fails where its number is listed, or where the caller says that it must.
    pub fn count(&mut self, must_fail: bool) -> Result<(), Failed>
        ensures failed { IsErr result ↔ (IsListed self.old ⊎ IsTrue must_fail) }
        ensures counted { CountsCall self.old self.new result }
        ensures fault { HasFaultCause self.old.faults self.new.faults result }
    {
        self.made = self.made.saturating_add(1);
        if must_fail || self.fail_at.contains(&self.made) {
            self.faults = self.faults.saturating_add(1);
            return Err(Failed);
        }
        Ok(())
    }
}

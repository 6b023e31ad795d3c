//! Counts the calls of a device in memory.

ghost use Rattle.std.specs.Prelude.{◌≡◌, ◌≤◌, ◌↔◌, IfOk, IsErr, is_err};
ghost use Rattle.bd_dev.specs.Faults.{HasCause, Rose, one_more};
ghost use Rattle.bd_dev.specs.Calls.{IsListed, after_call, no_calls};

use crate::bytes::Memory;
use crate::faults::Failed;
use std::alloc::Global;
use std::marker::Model;

/// The calls of a device in memory: how many were made, the numbers of those that are to fail, and how many
/// failed.
#[derive(Drop)]
pub struct CallCounter {
    made: u64,
    fails: Vec<u64>,
    faults: u64,
}

impl Model for CallCounter {
    ghost use Rattle.bd_dev.specs.Calls.{Calls};

    ghost Value = { Calls };

    ghost view = { λ c. record { made = c.made; fails = c.fails.items; faults = c.faults } };
}

impl CallCounter {
    /// No call yet, and the numbers from 1 of the calls that are to fail.
    pub fn new(alloc: Global, fails: &[u64]) -> Result<CallCounter, Memory>
        ensures { IfOk result (λ calls. calls ≡ no_calls fails.now) }
    {
        Ok(CallCounter {
            made: 0,
            fails: Vec::from_slice(alloc, fails)?,
            faults: 0,
        })
    }

    /// How many calls were made.
    pub fn made(&self) -> u64
        ensures { result ≡ self.now.made }
    {
        self.made
    }

    /// Counts a fault.
    pub fn count_fault(&mut self)
        ensures counted { self.new ≡ record self.old { faults = one_more self.old.faults } }
        ensures rose { Rose self.old.faults self.new.faults }
        ensures later { self.old.faults ≤ self.new.faults }
    {
        self.faults = self.faults.saturating_add(1);
    }

    /// Counts the next call, which fails where its number is listed.
    pub fn next(&mut self) -> Result<(), Failed>
        ensures listed { IsErr result ↔ IsListed self.old }
        ensures counted { self.new ≡ after_call self.old (is_err result) }
        ensures cause { HasCause self.old.faults self.new.faults result }
    {
        self.made = self.made.saturating_add(1);
        if self.fails.contains(&self.made) {
            self.faults = self.faults.saturating_add(1);
            return Err(Failed);
        }
        Ok(())
    }
}

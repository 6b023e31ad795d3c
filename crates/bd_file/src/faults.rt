//! Counts the faults of a device.

ghost use Rattle.std.specs.Prelude.{◌≡◌, ◌≤◌, Ok, IsErr, MatchResult};
ghost use Rattle.bd_dev.specs.Faults.{HasCause, Rose};

use bd_dev::Failed;
use std::io;
use std::marker::Model;

/// How many faults a device had. The count stays at its greatest value.
#[derive(Drop)]
pub(crate) struct FaultCount {
    faults: u64,
}

impl Model for FaultCount {
    ghost use Rattle.std.specs.Prelude.{ℕ};

    ghost Value = { ℕ };

    ghost view = { λ c. c.faults };
}

impl FaultCount {
    /// No fault yet.
    pub(crate) fn new() -> FaultCount
        ensures { result ≡ 0 }
    {
        FaultCount { faults: 0 }
    }

    /// Counts a fault.
    pub(crate) fn count(&mut self) -> Failed
        ensures later { self.old ≤ self.new }
        ensures rose { Rose self.old self.new }
    {
        self.faults = self.faults.saturating_add(1);
        Failed
    }

    /// The answer of a system's call, whose error is counted.
    pub(crate) fn counted<T>(&mut self, answer: io::Result<T>) -> Result<T, Failed>
        ensures same { MatchResult answer (λ value. result ≡ Ok value) (λ _. IsErr result) }
        ensures cause { HasCause self.old self.new result }
    {
        match answer {
            Ok(value) => Ok(value),
            Err(_) => Err(self.count()),
        }
    }
}

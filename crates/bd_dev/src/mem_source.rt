//! A source in memory.

ghost use Rattle.std.specs.Prelude.{◌≡◌, ◌↔◌, Some, length, min, IfOk, OnErr, IsErr, is_err};
ghost use Rattle.bd_dev.specs.Calls.{IsListed, after_call, no_calls};
ghost use Rattle.bd_dev.specs.Faults.{HasCause};
ghost use Rattle.bd_dev.specs.Source.{Gives};

use crate::bytes::Memory;
use crate::calls::CallCounter;
use crate::faults::Failed;
use crate::source::Source;
use std::alloc::Global;
use std::marker::Model;

/// A source that gives bytes in memory.
#[derive(Drop)]
pub struct MemSource {
    bytes: Vec<u8>,
    // The first `given` of the bytes were given.
    given: usize,
    calls: CallCounter,
}

impl Model for MemSource {
    ghost use Rattle.std.specs.Prelude.{◌≤◌, drop, length};
    ghost use Rattle.bd_dev.specs.Source.{SourceInMemory};

    ghost Value = { SourceInMemory };

    ghost view = { λ s. record { left = drop s.given s.bytes.items; calls = s.calls } };

    ghost invariant = { λ s. s.given ≤ length s.bytes.items };
}

impl MemSource {
    /// A source of these bytes, whose calls with the numbers in `fails`, from 1, are to fail. Or
    /// `Memory`.
    pub fn new(alloc: Global, bytes: &[u8], fails: &[u64]) -> Result<MemSource, Memory>
        ensures { IfOk result (λ s. s ≡ record { left = bytes.now; calls = no_calls fails.now }) }
    {
        Ok(MemSource {
            bytes: Vec::from_slice(alloc, bytes)?,
            given: 0,
            calls: CallCounter::new(alloc, fails)?,
        })
    }
}

impl Source for MemSource {
    ghost left = { λ s. Some s.left };

    ghost faults = { λ s. s.calls.faults };

    /// Gives as many bytes as are left and have room in `out`.
    fn read(&mut self, out: &mut [u8]) -> Result<usize, Failed>
        ensures given { IfOk result (λ n. Gives (Some self.old.left) (Some self.new.left) n out.new) }
        ensures whole { IfOk result (λ n. n ≡ min (length self.old.left) (length out.new)) }
        ensures unchanged { OnErr result (Some self.new.left ≡ Some self.old.left) }
        ensures cause { HasCause self.old.calls.faults self.new.calls.faults result }
        ensures listed { IsErr result ↔ IsListed self.old.calls }
        ensures counted { self.new.calls ≡ after_call self.old.calls (is_err result) }
    {
        self.calls.next()?;
        let count = (self.bytes.len() - self.given).min(out.len());
        out[..count].copy_from_slice(&self.bytes[self.given..self.given + count]);
        self.given += count;
        Ok(count)
    }
}

//! A sink in memory.

ghost use Rattle.std.specs.Prelude.{◌≡◌, [], Some, length, IfOk, IsErr, OnErr, is_err};
ghost use Rattle.bd_dev.specs.Calls.{IsListed, after_call, no_calls};
ghost use Rattle.bd_dev.specs.Faults.{HasCause};
ghost use Rattle.bd_dev.specs.Sink.{Takes};

use crate::bytes::Memory;
use crate::calls::CallCounter;
use crate::faults::Failed;
use crate::sink::Sink;
use std::alloc::Global;
use std::marker::Model;

/// A sink that keeps in memory what it takes.
#[derive(Drop)]
pub struct MemSink {
    taken: Vec<u8>,
    calls: CallCounter,
}

impl Model for MemSink {
    ghost use Rattle.bd_dev.specs.Sink.{SinkInMemory};

    ghost Value = { SinkInMemory };

    ghost view = { λ s. record { taken = s.taken.items; calls = s.calls } };
}

impl MemSink {
    /// A sink that took nothing yet, whose calls with the numbers in `fails`, from 1, are to fail.
    /// Or `Memory`.
    pub fn new(alloc: Global, fails: &[u64]) -> Result<MemSink, Memory>
        ensures { IfOk result (λ s. s ≡ record { taken = []; calls = no_calls fails.now }) }
    {
        Ok(MemSink {
            taken: Vec::new(alloc),
            calls: CallCounter::new(alloc, fails)?,
        })
    }

    /// The bytes that it took.
    pub fn as_slice(&self) -> &[u8]
        ensures { result.now ≡ self.now.taken }
    {
        &self.taken
    }
}

impl Sink for MemSink {
    ghost taken = { λ s. Some s.taken };

    ghost faults = { λ s. s.calls.faults };

    /// Takes all of the bytes. Fails also for want of memory.
    fn write(&mut self, bytes: &[u8]) -> Result<usize, Failed>
        ensures taken { IfOk result
            (λ n. Takes (Some self.old.taken) (Some self.new.taken) n bytes.now) }
        ensures whole { IfOk result (λ n. n ≡ length bytes.now) }
        ensures unchanged { OnErr result (Some self.new.taken ≡ Some self.old.taken) }
        ensures cause { HasCause self.old.calls.faults self.new.calls.faults result }
        ensures listed { IsListed self.old.calls → IsErr result }
        ensures counted { self.new.calls ≡ after_call self.old.calls (is_err result) }
    {
        self.calls.next()?;
        if self.taken.extend_from_slice(bytes).is_err() {
            self.calls.count_fault();
            return Err(Failed);
        }
        Ok(bytes.len())
    }
}

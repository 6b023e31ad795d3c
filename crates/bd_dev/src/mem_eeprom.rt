//! An EEPROM in memory.

ghost use Rattle.std.specs.Prelude.{◌≡◌, ◌≤◌, ◌↔◌, Some, length, IfOk, OnOk, OnErr, IsErr, is_err, is_some};
ghost use Rattle.bd_dev.specs.Calls.{IsListed, after_call, no_calls};
ghost use Rattle.bd_dev.specs.Eeprom.{Loads, Stores};
ghost use Rattle.bd_dev.specs.Faults.{HasCause};

use crate::bytes::Memory;
use crate::calls::CallCounter;
use crate::eeprom::Eeprom;
use crate::faults::Failed;
use std::alloc::Global;
use std::marker::Model;

/// An EEPROM in memory. It has room for all that it may hold, so a store takes no memory.
#[derive(Drop)]
pub struct MemEeprom {
    // The content is the first `len` of these bytes.
    room: [u8; 2048],
    len: usize,
    calls: CallCounter,
}

impl Model for MemEeprom {
    ghost use Rattle.std.specs.Prelude.{◌≤◌, take};
    ghost use Rattle.bd_dev.specs.Eeprom.{EepromInMemory};

    ghost Value = { EepromInMemory };

    ghost view = { λ e. record { bytes = take e.len e.room; calls = e.calls } };

    ghost invariant = { λ e. e.len ≤ 2048 };
}

impl MemEeprom {
    /// An EEPROM that holds these bytes, whose calls with the numbers in `fails`, from 1, are to
    /// fail. Or `Memory`.
    pub fn new(alloc: Global, bytes: &[u8], fails: &[u64]) -> Result<MemEeprom, Memory>
        requires { length bytes.now ≤ 2048 }
        ensures { IfOk result (λ e. e ≡ record { bytes = bytes.now; calls = no_calls fails.now }) }
    {
        let mut room = [0; 2048];
        room[..bytes.len()].copy_from_slice(bytes);
        Ok(MemEeprom {
            room,
            len: bytes.len(),
            calls: CallCounter::new(alloc, fails)?,
        })
    }
}

impl Eeprom for MemEeprom {
    ghost content = { λ e. Some e.bytes };

    ghost faults = { λ e. e.calls.faults };

    fn load(&mut self, out: &mut [u8; 2048]) -> Result<usize, Failed>
        ensures loaded { IfOk result (λ n. Loads (Some self.old.bytes) n out.new) }
        ensures kept { Some self.new.bytes ≡ Some self.old.bytes }
        ensures cause { HasCause self.old.calls.faults self.new.calls.faults result }
        ensures listed { IsErr result ↔ IsListed self.old.calls }
        ensures counted { self.new.calls ≡ after_call self.old.calls (is_err result) }
    {
        self.calls.next()?;
        out[..self.len].copy_from_slice(&self.room[..self.len]);
        Ok(self.len)
    }

    /// A store that fails leaves the content as it was.
    #[tactic(auto, using(crate::proofs::Storing::take_overwritten))]
    fn store(&mut self, bytes: &[u8]) -> Result<(), Failed>
        requires { length bytes.now ≤ 2048 }
        ensures stored { OnOk result
            (Stores (Some self.old.bytes) (Some self.new.bytes) bytes.now) }
        ensures told { is_some (Some self.new.bytes) ≡ is_some (Some self.old.bytes) }
        ensures unchanged { OnErr result (self.new.bytes ≡ self.old.bytes) }
        ensures cause { HasCause self.old.calls.faults self.new.calls.faults result }
        ensures listed { IsErr result ↔ IsListed self.old.calls }
        ensures counted { self.new.calls ≡ after_call self.old.calls (is_err result) }
    {
        self.calls.next()?;
        self.room[..bytes.len()].copy_from_slice(bytes);
        self.len = self.len.max(bytes.len());
        Ok(())
    }
}

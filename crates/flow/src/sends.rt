//! All that was sent, in the order of the trace.

ghost use Rattle.std.specs.Prelude.{◌≡◌, ◌++◌, [], ◌∷◌, OnOk, OnErr};

use bd_dev::{Bytes, Memory};
use std::alloc::Global;
use std::marker::Model;

/// Bytes that were sent.
#[derive(Drop)]
pub struct Sent {
    /// The network's time, in milliseconds.
    pub at: u64,
    /// The round of the flow.
    pub round: u32,
    /// The flow's number.
    pub flow: u32,
    /// The flow's label.
    pub label: Bytes,
    /// The port they went to; 0 for a stream or an echo message.
    pub port: u16,
    /// The bytes.
    pub bytes: Bytes,
}

/// A list of what was sent.
#[derive(Drop)]
pub struct Sends {
    items: Vec<Sent>,
}

impl Model for Sends {
    ghost use Rattle.std.specs.Prelude.{List};
    ghost use Rattle.flow.specs.declared.sends.Sent.{Sent};

    ghost Value = { List Sent };

    ghost view = { λ s. s.items.items };
}

impl Sends {
    /// Nothing sent. Takes no memory.
    pub fn new(alloc: Global) -> Sends
        ensures { result ≡ [] }
    {
        Sends {
            items: Vec::new(alloc),
        }
    }

    /// Puts one at the end, or answers `Memory` and changes nothing.
    pub fn push(&mut self, sent: Sent) -> Result<(), Memory>
        ensures pushed { OnOk result (self.new ≡ self.old ++ sent ∷ []) }
        ensures unchanged { OnErr result (self.new ≡ self.old) }
    {
        self.items.push(sent)?;
        Ok(())
    }

    /// Puts more at the end, or answers `Memory` and changes nothing.
    pub(crate) fn append(&mut self, mut more: Vec<Sent>) -> Result<(), Memory>
        ensures appended { OnOk result (self.new ≡ self.old ++ more.items) }
        ensures unchanged { OnErr result (self.new ≡ self.old) }
    {
        self.items.append(&mut more)?;
        Ok(())
    }

    /// All of them as a slice.
    pub fn as_slice(&self) -> &[Sent]
        ensures { result.now ≡ self.now }
    {
        &self.items
    }
}

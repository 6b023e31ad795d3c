//! What a core hands over to be sent.

ghost use Rattle.std.specs.Prelude.{◌≡◌, ◌++◌, [], ◌∷◌, OnOk, OnErr};

use bd_dev::{Bytes, Memory};
use std::alloc::Global;
use std::marker::Model;

/// Bytes that are to be sent.
#[derive(Drop)]
pub struct Letter {
    /// The port they go to; 0 for a stream or an echo message.
    pub port: u16,
    /// The bytes.
    pub bytes: Bytes,
}

/// Letters in order of sending.
#[derive(Drop)]
pub struct Outbox {
    alloc: Global,
    letters: Vec<Letter>,
}

impl Model for Outbox {
    ghost use Rattle.std.specs.Prelude.{List};
    ghost use Rattle.flow.specs.declared.letters.Letter.{Letter};

    ghost Value = { List Letter };

    ghost view = { λ o. o.letters.items };
}

impl Outbox {
    /// No letters. Takes no memory.
    pub fn new(alloc: Global) -> Outbox
        ensures { result ≡ [] }
    {
        Outbox {
            alloc,
            letters: Vec::new(alloc),
        }
    }

    /// Puts a letter at the end, or answers `Memory` and changes nothing.
    pub fn push(&mut self, port: u16, bytes: &[u8]) -> Result<(), Memory>
        ensures pushed { OnOk result
            (self.new ≡ self.old ++ record { port = port; bytes = bytes.now } ∷ []) }
        ensures unchanged { OnErr result (self.new ≡ self.old) }
    {
        let bytes = Bytes::from_slice(self.alloc, bytes)?;
        self.letters.push(Letter { port, bytes })?;
        Ok(())
    }

    /// The letters as a slice.
    pub fn as_slice(&self) -> &[Letter]
        ensures { result.now ≡ self.now }
    {
        &self.letters
    }

    /// Takes out all letters.
    pub fn clear(&mut self)
        ensures { self.new ≡ [] }
    {
        self.letters.clear();
    }
}

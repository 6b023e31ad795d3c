//! Lists of bytes, each quoted or not.

ghost use Rattle.std.specs.Prelude.{◌≡◌, ◌++◌, ◌∷◌, [], OnOk, OnErr};

use bd_dev::Memory;
use std::alloc::Global;
use std::marker::Model;

/// A pattern of `case`, `%` or `#` after its expansion: its bytes, and whether each is quoted and so stands for itself.
#[derive(Drop)]
pub struct Pattern {
    items: Vec<(u8, bool)>,
}

impl Model for Pattern {
    ghost use Rattle.std.specs.Prelude.{List, ℕ, Bool};

    ghost Value = { List (ℕ × Bool) };

    ghost view = { λ p. p.items.items };
}

impl Pattern {
    /// The empty pattern. Takes no memory.
    pub fn new(alloc: Global) -> Pattern
        ensures { result ≡ [] }
    {
        Pattern {
            items: Vec::new(alloc),
        }
    }

    /// Puts a byte at the end, or answers `Memory` and changes nothing.
    pub fn push(&mut self, byte: u8, quoted: bool) -> Result<(), Memory>
        ensures pushed { OnOk result (self.new ≡ self.old ++ (byte, quoted) ∷ []) }
        ensures unchanged { OnErr result (self.new ≡ self.old) }
    {
        self.items.push((byte, quoted))?;
        Ok(())
    }

    /// The bytes, each with whether it is quoted.
    pub fn as_slice(&self) -> &[(u8, bool)]
        ensures { result.now ≡ self.now }
    {
        &self.items
    }
}

/// A word after the expansion of its parameters: its bytes, and whether each is quoted and so never parts two fields.
#[derive(Drop)]
pub struct Pieces {
    items: Vec<(u8, bool)>,
}

impl Model for Pieces {
    ghost use Rattle.std.specs.Prelude.{List, ℕ, Bool};

    ghost Value = { List (ℕ × Bool) };

    ghost view = { λ p. p.items.items };
}

impl Pieces {
    /// No bytes. Takes no memory.
    pub fn new(alloc: Global) -> Pieces
        ensures { result ≡ [] }
    {
        Pieces {
            items: Vec::new(alloc),
        }
    }

    /// Puts a byte at the end, or answers `Memory` and changes nothing.
    pub fn push(&mut self, byte: u8, quoted: bool) -> Result<(), Memory>
        ensures pushed { OnOk result (self.new ≡ self.old ++ (byte, quoted) ∷ []) }
        ensures unchanged { OnErr result (self.new ≡ self.old) }
    {
        self.items.push((byte, quoted))?;
        Ok(())
    }

    /// The bytes, each with whether it is quoted.
    pub fn as_slice(&self) -> &[(u8, bool)]
        ensures { result.now ≡ self.now }
    {
        &self.items
    }
}

//! Bytes, and lists of them, in memory.

ghost use Rattle.std.specs.Prelude.{◌≡◌, ◌≤◌, ◌++◌, ◌∷◌, [], length, IfOk, OnOk, OnErr};

use std::alloc::{AllocError, AllocFailed, Global};
use std::marker::Model;
use thiserror::Error;

/// Want of memory.
#[derive(Clone, Copy, Debug, PartialEq, Eq, Error)]
#[error("out of memory")]
pub struct Memory;

impl From<AllocError> for Memory {
    fn from(_error: AllocError) -> Memory {
        Memory
    }
}

impl<T: Drop> From<AllocFailed<T>> for Memory {
    fn from(_error: AllocFailed<T>) -> Memory {
        Memory
    }
}

/// A list of bytes.
#[derive(Drop)]
pub struct Bytes {
    items: Vec<u8>,
}

impl Model for Bytes {
    ghost use Rattle.std.specs.Prelude.{List, ℕ};

    ghost Value = { List ℕ };

    ghost view = { λ b. b.items.items };
}

impl Bytes {
    /// A copy of the bytes, or `Memory`.
    pub fn from_slice(alloc: Global, bytes: &[u8]) -> Result<Bytes, Memory>
        ensures { IfOk result (λ copy. copy ≡ bytes.now) }
    {
        Ok(Bytes {
            items: Vec::from_slice(alloc, bytes)?,
        })
    }

    /// The bytes as a slice.
    pub fn as_slice(&self) -> &[u8]
        ensures { result.now ≡ self.now }
    {
        &self.items
    }

    /// Puts the bytes at the end, or answers `Memory` and changes nothing.
    pub fn push_slice(&mut self, bytes: &[u8]) -> Result<(), Memory>
        ensures pushed { OnOk result (self.new ≡ self.old ++ bytes.now) }
        ensures unchanged { OnErr result (self.new ≡ self.old) }
    {
        self.items.extend_from_slice(bytes)?;
        Ok(())
    }

    /// Has these bytes in the place of all that stood here. They are not more than stood here, so it takes no memory.
    pub fn refill(&mut self, bytes: &[u8])
        requires { length bytes.now ≤ length self.old }
        ensures { self.new ≡ bytes.now }
    {
        self.items.truncate(bytes.len());
        self.items.copy_from_slice(bytes);
    }
}

/// A list of names, each of which is a list of bytes.
#[derive(Drop)]
pub struct Names {
    items: Vec<Bytes>,
}

impl Model for Names {
    ghost use Rattle.std.specs.Prelude.{List, ℕ};

    ghost Value = { List (List ℕ) };

    ghost view = { λ n. n.items.items };
}

impl Names {
    /// No names. Takes no memory.
    pub fn new(alloc: Global) -> Names
        ensures { result ≡ [] }
    {
        Names {
            items: Vec::new(alloc),
        }
    }

    /// Puts a name at the end, or answers `Memory` and changes nothing.
    pub fn push(&mut self, name: Bytes) -> Result<(), Memory>
        ensures pushed { OnOk result (self.new ≡ self.old ++ name ∷ []) }
        ensures unchanged { OnErr result (self.new ≡ self.old) }
    {
        self.items.push(name)?;
        Ok(())
    }

    /// The names as a slice.
    pub fn as_slice(&self) -> &[Bytes]
        ensures { result.now ≡ self.now }
    {
        &self.items
    }
}

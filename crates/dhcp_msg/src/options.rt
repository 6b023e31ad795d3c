//! The options of a message.

ghost use Rattle.std.specs.Prelude.{◌≡◌, ◌==◌, ◌++◌, ◌∷◌, [], None, IfOk, OnOk, OnErr, position};
ghost use Rattle.std.specs.Option.{option_copied};
ghost use Rattle.dhcp_msg.specs.Options.{value_of, AreDistinct};
ghost use Rattle.dhcp_msg.specs.Adding.{added};

use crate::dhcp_option::DhcpOption;
use bd_dev::{Bytes, Memory};
use std::alloc::Global;
use std::marker::Model;

/// The options of a message in their order, one of each code: a list of codes with their values.
#[derive(Drop)]
pub struct Options {
    entries: Vec<DhcpOption>,
}

impl Model for Options {
    ghost use Rattle.std.specs.Prelude.{List};
    ghost use Rattle.dhcp_msg.specs.declared.dhcp_option.DhcpOption.{DhcpOption};
    ghost use Rattle.dhcp_msg.specs.Options.{AreDistinct};

    ghost Value = { List DhcpOption };

    ghost view = { λ o. o.entries.items };

    ghost invariant = { λ o. AreDistinct o.entries.items };
}

/// The value of the first option with the code.
fn first_value(entries: &[DhcpOption], code: u8) -> Option<&[u8]>
    ensures { option_copied result ≡ value_of code entries.now }
{
    for entry in entries {
        if entry.code == code {
            return Some(entry.value.as_slice());
        }
    }
    None
}

fn place_of(entries: &[DhcpOption], code: u8) -> Option<usize>
    ensures { result ≡ position (λ e. e.code == code) entries.now }
{
    entries.iter().position(|entry| entry.code == code)
}

/// A copy of some options, or `Memory`.
fn copied(alloc: Global, entries: &[DhcpOption]) -> Result<Vec<DhcpOption>, Memory>
    ensures { IfOk result (λ copy. copy.items ≡ entries.now) }
{
    let mut copy = Vec::new(alloc);
    for entry in entries {
        let value = Bytes::from_slice(alloc, entry.value.as_slice())?;
        let code = entry.code;
        copy.push(DhcpOption { code, value })?;
    }
    Ok(copy)
}

impl Options {
    /// No options. Takes no memory.
    pub fn new(alloc: Global) -> Options
        ensures { result ≡ [] }
    {
        Options {
            entries: Vec::new(alloc),
        }
    }

    /// Puts an option of a code that isn't there yet in the last place, or answers `Memory` and changes nothing.
    pub fn push(&mut self, code: u8, value: Bytes) -> Result<(), Memory>
        requires { value_of code self.old ≡ None }
        ensures pushed { OnOk result (self.new ≡ self.old ++ record { code = code; value = value } ∷ []) }
        ensures unchanged { OnErr result (self.new ≡ self.old) }
    {
        self.entries.push(DhcpOption { code, value })?;
        Ok(())
    }

    /// The value of the option with the code. `None` exactly where there is no such option.
    pub fn get(&self, code: u8) -> Option<&[u8]>
        ensures { option_copied result ≡ value_of code self.now }
    {
        first_value(&self.entries, code)
    }

    /// The options as a slice.
    pub(crate) fn as_slice(&self) -> &[DhcpOption]
        ensures options { result.now ≡ self.now }
        ensures distinct { AreDistinct self.now }
    {
        &self.entries
    }

    /// A copy of the options, or `Memory`.
    pub fn copy(&self, alloc: Global) -> Result<Options, Memory>
        ensures { IfOk result (λ copy. copy ≡ self.now) }
    {
        Ok(Options {
            entries: copied(alloc, &self.entries)?,
        })
    }

    /// Puts a value behind that of its code, or as one more option in the last place where its code is new. Or answers
    /// `Memory` and changes nothing.
    pub fn add(&mut self, code: u8, value: &[u8]) -> Result<(), Memory>
        ensures added { OnOk result (self.new ≡ added (record { code = code; value = value.now }) self.old) }
        ensures unchanged { OnErr result (self.new ≡ self.old) }
    {
        match place_of(&self.entries, code) {
            Some(place) => {
                let entry = &mut self.entries[place];
                entry.value.push_slice(value)?;
            }
            None => {
                let value = Bytes::from_slice(*self.entries.allocator(), value)?;
                self.entries.push(DhcpOption { code, value })?;
            }
        }
        Ok(())
    }
}

//! The fields of TlvInfo data.

ghost use Rattle.std.specs.Prelude.{◌≡◌, ◌==◌, ◌≤◌, ◌↔◌, IsTrue, IfSome, IsNone, option_map, slice_get, length};
ghost use Rattle.std.specs.List.{list_any};
ghost use Rattle.std.specs.Option.{option_copied};
ghost use Rattle.bd_codes.specs.TlvTable.{allows};
ghost use Rattle.tlvinfo.specs.Identity.{value_of};
ghost use Rattle.tlvinfo.specs.Reading.{is_again};
ghost use Rattle.tlvinfo.specs.TlvInfo.{AreFields};
ghost use Rattle.tlvinfo.specs.View.{fields_of};
ghost use Rattle.tlvinfo.specs.ShownView.{shown_field};

use crate::codes::stands_once;
use arrayvec::ArrayVec;
use std::marker::Model;

/// One field: a code and its value, of at most 255 bytes.
#[derive(Drop)]
pub(crate) struct Entry {
    pub(crate) code: u8,
    pub(crate) value: ArrayVec<u8, 255>,
}

/// The fields of TlvInfo data in their order, without the checksum's: a list of codes with their values.
///
/// Each value has a length that its code allows, and each known code other than that of vendor extensions stands
/// once at most.
#[derive(Drop)]
pub struct Info {
    pub(crate) entries: Vec<Entry>,
}

impl Model for Info {
    ghost use Rattle.std.specs.Prelude.{List};
    ghost use Rattle.tlvinfo.specs.TlvInfo.{Field, AreFields};
    ghost use Rattle.tlvinfo.specs.View.{fields_of};

    ghost Value = { List Field };

    ghost view = { λ i. fields_of i.entries.items };

    ghost invariant = { λ i. AreFields (fields_of i.entries.items) };
}

/// Whether the code may stand once at most, and stands already.
pub(crate) fn is_repeated(entries: &[Entry], code: u8) -> bool
    ensures { result ≡ is_again code (fields_of entries.now) }
{
    stands_once(code) && has_code(entries, code)
}

fn has_code(entries: &[Entry], code: u8) -> bool
    ensures { result ≡ list_any (λ f. f.code == code) (fields_of entries.now) }
{
    any_has(entries, code)
}

fn any_has(entries: &[Entry], code: u8) -> bool
    ensures { result ≡ list_any (λ e. e.code == code) entries.now }
{
    entries.iter().any(|entry| entry.code == code)
}

fn first_value(entries: &[Entry], code: u8) -> Option<&[u8]>
    ensures { option_copied result ≡ value_of code (fields_of entries.now) }
{
    for entry in entries {
        if entry.code == code {
            return Some(entry.value.as_slice());
        }
    }
    None
}

fn entry_at(entries: &[Entry], place: usize) -> Option<(u8, &[u8])>
    ensures field { option_map shown_field result ≡ slice_get (fields_of entries.now) place }
    ensures short { IfSome result (λ field. length field.1.now ≤ 255) }
{
    let entry = entries.get(place)?;
    Some((entry.code, entry.value.as_slice()))
}

impl Info {
    pub(crate) fn new(entries: Vec<Entry>) -> Info
        requires { AreFields (fields_of entries.items) }
        ensures { result ≡ fields_of entries.items }
    {
        Info { entries }
    }

    /// The value of the first field with the code.
    pub fn get(&self, code: u8) -> Option<&[u8]>
        ensures value { option_copied result ≡ value_of code self.now }
        ensures allowed { IfSome result (λ value. IsTrue (allows code (length value.now))) }
    {
        first_value(&self.entries, code)
    }
    /// The code and the value of the field at a place of the list, from 0. `None` exactly at the end of the list or
    /// after it.
    pub fn field(&self, place: usize) -> Option<(u8, &[u8])>
        ensures field { option_map shown_field result ≡ slice_get self.now place }
        ensures end { IsNone result ↔ (length self.now ≤ place) }
        ensures allowed { IfSome result (λ field. IsTrue (allows field.0 (length field.1.now))) }
        ensures short { IfSome result (λ field. length field.1.now ≤ 255) }
    {
        entry_at(&self.entries, place)
    }
}

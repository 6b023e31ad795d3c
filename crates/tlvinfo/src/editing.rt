//! Changes of fields.

ghost use Rattle.std.specs.Prelude.{◌≡◌, ◌<◌, ◌≤◌, ◌+◌, ◌==◌, ◌↔◌, IsTrue, not, filter, position, length, OnOk, OnErr, IsErrOf, IfSome};
ghost use Rattle.tlvinfo.specs.TlvInfo.{total_of};
ghost use Rattle.tlvinfo.specs.Editing.{with_value, HasBadValue, HasNoRoom, replaced_place, others};
ghost use Rattle.tlvinfo.specs.View.{fields_of};

use crate::codes::{CHECKSUM, VENDOR_EXTENSION, can_hold};
use crate::decoding::RawField;
use crate::fault::SetFault;
use crate::info::{Entry, Info};
use crate::lengths::{CHECKSUM_FIELD, FIELD_HEAD, total_with};

/// The place of the field that a new one of the code replaces. `None` where it replaces none.
fn replaced(entries: &[Entry], code: u8) -> Option<usize>
    ensures { result ≡ replaced_place code (fields_of entries.now) }
{
    if code == VENDOR_EXTENSION {
        return None;
    }
    place_of(entries, code)
}

fn place_of(entries: &[Entry], code: u8) -> Option<usize>
    ensures { result ≡ position (λ e. e.code == code) entries.now }
{
    entries.iter().position(|entry| entry.code == code)
}

/// Whether a value of this length, in bytes, has room in place of the field at the place, or as one more.
fn has_room(entries: &[Entry], place: Option<usize>, size: usize) -> bool
    requires inside { IfSome place (λ k. k < length entries.now) }
    requires short { size ≤ 255 }
    ensures { IsTrue result ↔ (2 + size + total_of (others place (fields_of entries.now)) ≤ 2037) }
{
    let total = CHECKSUM_FIELD + FIELD_HEAD + size;
    let Some(place) = place else {
        return total_with(total, entries).is_some();
    };
    match total_with(total, &entries[..place]) {
        Some(total) => total_with(total, &entries[place + 1..]).is_some(),
        None => false,
    }
}

/// Takes out the entries of the code.
fn retain_others(entries: &mut Vec<Entry>, code: u8)
    ensures { entries.new.items ≡ filter (λ e. not (e.code == code)) entries.old.items }
{
    entries.retain(|entry| entry.code != code);
}

impl Info {
    /// Sets the value of a code: in place of the first field that has the code, or as one more field at the end where
    /// none has it. A vendor extension (code FD) is always one more.
    ///
    /// The refusals come in the order of [`SetFault`], and the fields are then unchanged. Memory is taken for one field
    /// more alone.
    pub fn set(&mut self, code: u8, value: &[u8]) -> Result<(), SetFault>
        ensures set { OnOk result (self.new ≡ with_value code value.now self.old) }
        ensures unchanged { OnErr result (self.new ≡ self.old) }
        ensures bad_code { IsErrOf result SetFault.BadCode ↔ (code ≡ 0xfe) }
        ensures bad_value { IsErrOf result SetFault.BadValue ↔ HasBadValue code value.now }
        ensures too_long { IsErrOf result SetFault.TooLong ↔ HasNoRoom code value.now self.old }
        ensures memory { IsErrOf result SetFault.Memory → replaced_place code self.old ≡ None }
    {
        if code == CHECKSUM {
            return Err(SetFault::BadCode);
        }
        if !can_hold(code, value.len()) {
            return Err(SetFault::BadValue);
        }
        let place = replaced(&self.entries, code);
        if !has_room(&self.entries, place, value.len()) {
            return Err(SetFault::TooLong);
        }
        let entry = RawField { code, value }.entry();
        match place {
            Some(place) => self.entries[place] = entry,
            None => self.entries.push(entry)?,
        }
        Ok(())
    }

    /// Takes out all fields of the code. Takes no memory.
    pub fn remove(&mut self, code: u8)
        ensures { self.new ≡ filter (λ f. not (f.code == code)) self.old }
    {
        retain_others(&mut self.entries, code);
    }
}

#[cfg(test)]
mod tests;

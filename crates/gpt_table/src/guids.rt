//! A GUID that nothing has yet.

ghost use Rattle.std.specs.Prelude.{◌≡◌, ◌↔◌, IsTrue, length, Some};
ghost use Rattle.gpt_table.specs.NewGuid.{IsNew, IsTaken, numbered};

use crate::edits::{count, has_guid};
use bd_text::Guid;
use byteorder::{BigEndian, ByteOrder};
use gpt_copy::Table;

/// The GUID with a number in place of its last four bytes, the highest first.
#[tactic(auto, unfolding(crate::specs::NewGuid::numbered))]
fn with_number(guid: Guid, number: u32) -> Guid
    ensures is { result ≡ numbered guid number }
    ensures long { length guid.bytes ≡ 16 }
{
    let mut bytes = guid.bytes;
    BigEndian::write_u32(&mut bytes[12..], number);
    Guid { bytes }
}

/// Whether the GUID is the named one.
fn is_named(named: Option<Guid>, guid: Guid) -> bool
    ensures { IsTrue result ↔ (named ≡ Some guid) }
{
    named == Some(guid)
}

/// Whether a used entry has the GUID, or it is the named one.
fn is_taken(table: &Table, named: Option<Guid>, guid: Guid) -> bool
    ensures taken { IsTrue result ↔ IsTaken table.now named guid }
    ensures all { length table.now.entries ≡ 128 }
{
    let end = count(&table.entries);
    is_named(named, guid) || has_guid(table, guid, end)
}

/// The disk's GUID with the least positive number in place of its last four bytes, the highest first, that makes it one
/// that no used entry has and that is not the named one.
pub fn new_guid(table: &Table, named: Option<Guid>) -> Guid
    ensures { IsNew table.now named result }
{
    // More numbers than there are GUIDs that may be taken: one an entry, and the named one.
    let enough = count(&table.entries) as u32 + 2;
    for number in 1..enough {
        let guid = with_number(table.disk, number);
        if !is_taken(table, named, guid) {
            return guid;
        }
    }
    with_number(table.disk, enough)
}

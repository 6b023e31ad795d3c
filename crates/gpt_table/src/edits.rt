//! Changes of a table.

ghost use Rattle.std.specs.Prelude.{◌≡◌, ◌≢◌, ◌+◌, ◌<◌, ◌↔◌, ℕ, IsTrue, Err, None, IfErr, IfOk, IfSome, OnErr, OnOk, length};
ghost use Rattle.gpt_copy.specs.declared.table.Entry.{Entry};
ghost use Rattle.storage_model.specs.Entries.{HasEntry, IsSane, unused_type};
ghost use Rattle.gpt_table.specs.Edits.{Adds, Changes, FitsAt, HasGuid, HasGuidAt, IsNumber, IsUnused, IsUsed, KeepsAlone, Overlaps, RefusesAddition, RefusesChange, RefusesEntry, RefusesGuid, RefusesPlace, TakesPlace, unused_entry};
ghost use Rattle.gpt_table.specs.declared.edits.EditFault.{EditFault};

use crate::sanity::{is_used, is_within};
use bd_text::Guid;
use gpt_copy::{Entry, Table};
use thiserror::Error;

/// Why a table is not changed. An edit tests in the order of these.
#[derive(Clone, Copy, Debug, PartialEq, Eq, Error)]
pub enum EditFault {
    /// All entries are used.
    #[error("table full")]
    TableFull,
    /// The number is that of a used entry, or above 128.
    #[error("number used")]
    NumberUsed,
    /// No used entry has the number.
    #[error("no entry")]
    NoEntry,
    /// The entry's first sector is behind its last, or one of them is not usable.
    #[error("range")]
    Range,
    /// A used entry has one of the sectors.
    #[error("overlap")]
    Overlap,
    /// Another used entry has the GUID.
    #[error("guid used")]
    GuidUsed,
}

/// An entry whose bytes are all zero.
const UNUSED: Entry = Entry {
    kind: Guid { bytes: [0; 16] },
    guid: Guid { bytes: [0; 16] },
    first: 0,
    last: 0,
    attributes: 0,
    name: [0; 36],
};

/// How many entries a table has.
pub(crate) fn count(entries: &[Entry; 128]) -> usize
    ensures is { result ≡ 128 }
    ensures all { length entries.now ≡ 128 }
{
    entries.len()
}

/// Whether the entry at a place is used.
fn is_used_at(table: &Table, place: usize) -> bool
    requires { place < 128 }
    ensures { IsTrue result ↔ IsUsed table.now place }
{
    is_used(&table.entries[place])
}

/// The least place whose entry is unused.
fn least_unused(table: &Table) -> Option<usize>
    ensures unused { IfSome result (IsUnused table.now) }
    ensures least { IfSome result (λ i. (j : ℕ) → j < i → ¬ IsUnused table.now j) }
    ensures none { result ≡ None → (i : ℕ) → ¬ IsUnused table.now i }
    ensures room { IfSome result (λ i. i < 128) }
{
    for place in 0..count(&table.entries) {
        if !is_used_at(table, place) {
            return Some(place);
        }
    }
    None
}

/// The place, from 0, that an addition under a number takes.
fn free_place(table: &Table, number: usize) -> Result<usize, EditFault>
    ensures takes { IfOk result (TakesPlace table.now number) }
    ensures room { IfOk result (λ i. i < 128) }
    ensures refused { IfErr result (RefusesPlace table.now number) }
{
    if number == 0 {
        return match least_unused(table) {
            Some(place) => Ok(place),
            None => Err(EditFault::TableFull),
        };
    }
    if number > count(&table.entries) || is_used_at(table, number - 1) {
        return Err(EditFault::NumberUsed);
    }
    Ok(number - 1)
}

/// The place, from 0, of the used entry of a number.
fn used_place(table: &Table, number: usize) -> Result<usize, EditFault>
    ensures is { IfOk result (λ i. number ≡ i + 1) }
    ensures used { OnOk result (IsNumber table.now number) }
    ensures room { IfOk result (λ i. i < 128) }
    ensures refused { IfErr result (RefusesChange table.now number) }
{
    if number == 0 || number > count(&table.entries) || !is_used_at(table, number - 1) {
        return Err(EditFault::NoEntry);
    }
    Ok(number - 1)
}

/// Whether a used entry has a sector of the entry.
fn overlaps(table: &Table, entry: &Entry) -> bool
    ensures { IsTrue result ↔ Overlaps table.now entry.now }
{
    for place in 0..count(&table.entries) {
        let other = &table.entries[place];
        if is_used(other) && entry.first <= other.last && other.first <= entry.last {
            return true;
        }
    }
    false
}

/// Whether the entry is used and has the GUID.
fn has_that_guid(entry: &Entry, guid: Guid) -> bool
    ensures { IsTrue result ↔ ((entry.now.kind ≢ unused_type) × (entry.now.guid ≡ guid)) }
{
    is_used(entry) && entry.guid == guid
}

/// Whether the entry at a place is another than this, used, and has the GUID.
fn has_guid_at(table: &Table, guid: Guid, own: usize, place: usize) -> bool
    requires { place < 128 }
    ensures { IsTrue result ↔ ((place ≢ own) × HasGuidAt table.now guid place) }
{
    place != own && has_that_guid(&table.entries[place], guid)
}

/// Whether a used entry at another place has the GUID.
pub(crate) fn has_guid(table: &Table, guid: Guid, own: usize) -> bool
    ensures { IsTrue result ↔ HasGuid table.now guid own }
{
    for place in 0..count(&table.entries) {
        if has_guid_at(table, guid, own, place) {
            return true;
        }
    }
    false
}

/// Whether the entry can be added at a place.
fn test_entry(table: &Table, place: usize, entry: &Entry) -> Result<(), EditFault>
    ensures fits { OnOk result (FitsAt table.now place entry.now) }
    ensures refused { IfErr result (RefusesEntry table.now place entry.now) }
{
    if !is_within(table, entry) {
        return Err(EditFault::Range);
    }
    if overlaps(table, entry) {
        return Err(EditFault::Overlap);
    }
    if has_guid(table, entry.guid, place) {
        return Err(EditFault::GuidUsed);
    }
    Ok(())
}

/// Adds an entry and answers its number: the one that is given, from 1, or for 0 the least unused one. The table stays
/// sane.
///
/// Answers `TableFull` where the number 0 finds no unused entry, `NumberUsed` where the entry of the number is used or
/// there is none, `Range` where the entry's first sector is behind its last or one of them is not usable, `Overlap` where
/// a used entry shares a sector with it, and `GuidUsed` where one has its GUID; the first of these that applies. The
/// table is then unchanged.
pub fn add(table: &mut Table, number: usize, entry: Entry) -> Result<usize, EditFault>
    requires sane { IsSane table.old }
    requires kind { entry.kind ≢ unused_type }
    ensures added { IfOk result (λ answer. Adds table.old number entry answer table.new) }
    ensures refused { IfErr result (RefusesAddition table.old number entry) }
    ensures only { (fault : EditFault) → RefusesAddition table.old number entry fault → result ≡ Err fault }
    ensures unchanged { OnErr result (table.new ≡ table.old) }
    ensures sane { IsSane table.new }
{
    let place = free_place(table, number)?;
    test_entry(table, place, &entry)?;
    table.entries[place] = entry;
    Ok(place + 1)
}

/// Deletes the entry of a number: all its bytes are zero then.
///
/// Answers `NoEntry` where no used entry has the number; the table is then unchanged.
pub fn delete(table: &mut Table, number: usize) -> Result<(), EditFault>
    requires sane { IsSane table.old }
    ensures deleted { OnOk result (Changes table.old number (λ e. unused_entry) table.new) }
    ensures refused { IfErr result (RefusesChange table.old number) }
    ensures only { (fault : EditFault) → RefusesChange table.old number fault → result ≡ Err fault }
    ensures unchanged { OnErr result (table.new ≡ table.old) }
    ensures sane { IsSane table.new }
{
    let place = used_place(table, number)?;
    table.entries[place] = UNUSED;
    Ok(())
}

/// Keeps the entry of a number alone, under its number: all bytes of all others are zero then.
///
/// Answers `NoEntry` where no used entry has the number; the table is then unchanged.
pub fn keep_alone(table: &mut Table, number: usize) -> Result<(), EditFault>
    requires sane { IsSane table.old }
    ensures alone { OnOk result (KeepsAlone table.old number table.new) }
    ensures refused { IfErr result (RefusesChange table.old number) }
    ensures only { (fault : EditFault) → RefusesChange table.old number fault → result ≡ Err fault }
    ensures unchanged { OnErr result (table.new ≡ table.old) }
    ensures sane { IsSane table.new }
{
    let place = used_place(table, number)?;
    let entry = table.entries[place];
    table.entries = [UNUSED; 128];
    table.entries[place] = entry;
    Ok(())
}

/// Gives the entry of a number another type.
///
/// Answers `NoEntry` where no used entry has the number; the table is then unchanged.
pub fn retype(table: &mut Table, number: usize, kind: Guid) -> Result<(), EditFault>
    requires sane { IsSane table.old }
    requires kind { kind ≢ unused_type }
    ensures retyped { OnOk result (Changes table.old number (λ e. record e { kind = kind }) table.new) }
    ensures refused { IfErr result (RefusesChange table.old number) }
    ensures only { (fault : EditFault) → RefusesChange table.old number fault → result ≡ Err fault }
    ensures unchanged { OnErr result (table.new ≡ table.old) }
    ensures sane { IsSane table.new }
{
    let place = used_place(table, number)?;
    table.entries[place].kind = kind;
    Ok(())
}

/// Gives the entry of a number another GUID, which may be its own.
///
/// Answers `NoEntry` where no used entry has the number, and `GuidUsed` where another used entry has the GUID; the table
/// is then unchanged.
pub fn renumber(table: &mut Table, number: usize, guid: Guid) -> Result<(), EditFault>
    requires sane { IsSane table.old }
    ensures renumbered { OnOk result (Changes table.old number (λ e. record e { guid = guid }) table.new) }
    ensures refused { IfErr result (RefusesGuid table.old number guid) }
    ensures only { (fault : EditFault) → RefusesGuid table.old number guid fault → result ≡ Err fault }
    ensures unchanged { OnErr result (table.new ≡ table.old) }
    ensures sane { IsSane table.new }
{
    let place = used_place(table, number)?;
    if has_guid(table, guid, place) {
        return Err(EditFault::GuidUsed);
    }
    table.entries[place].guid = guid;
    Ok(())
}

/// Gives the entry of a number another name.
///
/// Answers `NoEntry` where no used entry has the number; the table is then unchanged.
pub fn rename(table: &mut Table, number: usize, name: [u16; 36]) -> Result<(), EditFault>
    requires sane { IsSane table.old }
    ensures renamed { OnOk result (Changes table.old number (λ e. record e { name = name }) table.new) }
    ensures refused { IfErr result (RefusesChange table.old number) }
    ensures only { (fault : EditFault) → RefusesChange table.old number fault → result ≡ Err fault }
    ensures unchanged { OnErr result (table.new ≡ table.old) }
    ensures sane { IsSane table.new }
{
    let place = used_place(table, number)?;
    table.entries[place].name = name;
    Ok(())
}

//! Runs of sectors that no partition has.

ghost use Rattle.std.specs.Prelude.{◌≡◌, ◌≢◌, ◌⊎◌, ◌+◌, ◌<◌, ◌≤◌, ◌↔◌, ℕ, suc, IsTrue, IfSome, length, slice_get, Some, None};
ghost use Rattle.gpt_copy.specs.declared.table.Entry.{Entry};
ghost use Rattle.storage_model.specs.Entries.{HasEntry, InEntry, unused_type};
ghost use Rattle.gpt_table.specs.Runs.{HasSectors, IsCovered, IsFree, IsFreeRun, IsLargest, IsRunAt};

use crate::edits::count;
use crate::sanity::is_used;
use gpt_copy::{Entry, Table};

/// Whether the entry does not have the sector.
fn misses(entry: &Entry, sector: u64) -> bool
    ensures { IsTrue result ↔ (¬ InEntry entry.now sector) }
{
    sector < entry.first || entry.last < sector
}

/// Whether no used entry has the sector.
fn is_outside(entries: &[Entry], sector: u64) -> bool
    ensures { IsTrue result ↔ ((i : ℕ) (e : Entry) → slice_get entries.now i ≡ Some e → e.kind ≢ unused_type → ¬ InEntry e sector) }
{
    entries
        .iter()
        .all(|entry| !is_used(entry) || misses(entry, sector))
}

/// Whether a sector is usable, and in no used entry.
fn is_free(table: &Table, sector: u64) -> bool
    ensures { IsTrue result ↔ IsFree table.now sector }
{
    table.first_usable <= sector
        && sector <= table.last_usable
        && is_outside(&table.entries, sector)
}

/// Whether the entry is used and has a sector at least.
fn has_sectors(entry: &Entry) -> bool
    ensures { IsTrue result ↔ HasSectors entry.now }
{
    is_used(entry) && entry.first <= entry.last
}

/// The sector behind the entry where it ends behind the first one and before the other, else the first.
fn raised(entry: &Entry, first: u64, at: u64) -> u64
    requires { first ≤ at }
    ensures until { result ≤ at }
    ensures from { first ≤ result }
    ensures edge { (result ≡ first) ⊎ (HasSectors entry.now × (suc entry.now.last ≡ result)) }
    ensures clear { HasSectors entry.now → entry.now.last < at → entry.now.last < result }
{
    if has_sectors(entry) && first <= entry.last && entry.last < at {
        entry.last + 1
    } else {
        first
    }
}

/// The sector before the entry where it begins behind the one and before the last, else the last.
fn lowered(entry: &Entry, at: u64, last: u64) -> u64
    requires { at ≤ last }
    ensures from { at ≤ result }
    ensures until { result ≤ last }
    ensures edge { (result ≡ last) ⊎ (HasSectors entry.now × (suc result ≡ entry.now.first)) }
    ensures clear { HasSectors entry.now → at < entry.now.first → result < entry.now.first }
{
    if has_sectors(entry) && at < entry.first && entry.first <= last {
        entry.first - 1
    } else {
        last
    }
}

/// The first sector of the run of free ones that goes to a free one.
fn first_free(table: &Table, at: u64) -> u64
    requires { IsFree table.now at }
    ensures until { result ≤ at }
    ensures free { (s : ℕ) → result ≤ s → s ≤ at → IsFree table.now s }
    ensures below { (s : ℕ) → suc s ≡ result → ¬ IsFree table.now s }
{
    let mut first = table.first_usable;
    for place in 0..count(&table.entries) {
        first = raised(&table.entries[place], first, at);
    }
    first
}

/// The last sector of the run of free ones that goes on from a free one.
fn last_free(table: &Table, at: u64) -> u64
    requires { IsFree table.now at }
    ensures from { at ≤ result }
    ensures free { (s : ℕ) → at ≤ s → s ≤ result → IsFree table.now s }
    ensures above { ¬ IsFree table.now (suc result) }
{
    let mut last = table.last_usable;
    for place in 0..count(&table.entries) {
        last = lowered(&table.entries[place], at, last);
    }
    last
}

/// The widest run of usable sectors in no used entry that holds the sector: its first and its last one. `None` exactly
/// where the sector is not usable or a used entry has it.
pub fn free_run(table: &Table, at: u64) -> Option<(u64, u64)>
    ensures found { IfSome result (λ r. IsRunAt table.now at r.0 r.1) }
    ensures only { (first last : ℕ) → IsRunAt table.now at first last → result ≡ Some (first, last) }
    ensures none { result ≡ None → ¬ IsFree table.now at }
{
    if !is_free(table, at) {
        return None;
    }
    Some((first_free(table, at), last_free(table, at)))
}

/// The longer of two runs, the lower of those of one length.
fn longer(one: (u64, u64), other: (u64, u64)) -> (u64, u64)
    requires one { one.0 ≤ one.1 }
    requires other { other.0 ≤ other.1 }
    ensures either { (result ≡ one) ⊎ (result ≡ other) }
    ensures first { IsCovered (Some one) (Some result) }
    ensures second { IsCovered (Some other) (Some result) }
{
    let length = one.1 - one.0;
    let other_length = other.1 - other.0;
    if other_length > length || (other_length == length && other.0 < one.0) {
        other
    } else {
        one
    }
}

/// The longer of what there is of two runs, the lower of those of one length.
fn larger(one: Option<(u64, u64)>, other: Option<(u64, u64)>) -> Option<(u64, u64)>
    requires one { IfSome one (λ r. r.0 ≤ r.1) }
    requires other { IfSome other (λ r. r.0 ≤ r.1) }
    ensures either { (result ≡ one) ⊎ (result ≡ other) }
    ensures first { IsCovered one result }
    ensures second { IsCovered other result }
{
    let Some(one) = one else {
        return other;
    };
    let Some(other) = other else {
        return Some(one);
    };
    Some(longer(one, other))
}

/// The run of free sectors that holds the one behind the entry at a place, where that is used.
fn run_behind(table: &Table, place: usize) -> Option<(u64, u64)>
    requires { place < 128 }
    ensures run { IfSome result (λ r. IsFreeRun table.now r.0 r.1) }
    ensures only { (e : Entry) (first last : ℕ) → HasEntry table.now place e → IsFreeRun table.now first last → first ≡ suc e.last → result ≡ Some (first, last) }
{
    let entry = &table.entries[place];
    if !is_used(entry) || table.last_usable <= entry.last {
        return None;
    }
    free_run(table, entry.last + 1)
}

/// The longest run of usable sectors in no used entry, the lowest of those of one length: its first and its last one.
/// `None` exactly where there is no run, since no sector is usable and in no used entry.
pub fn largest_run(table: &Table) -> Option<(u64, u64)>
    ensures found { IfSome result (λ r. IsLargest table.now r.0 r.1) }
    ensures only { (first last : ℕ) → IsLargest table.now first last → result ≡ Some (first, last) }
    ensures none { result ≡ None → (first last : ℕ) → ¬ IsFreeRun table.now first last }
{
    let mut largest = free_run(table, table.first_usable);
    for place in 0..count(&table.entries) {
        largest = larger(largest, run_behind(table, place));
    }
    largest
}

//! The calls that changed a plant in memory, in order, and what an area reads after them.

ghost use Rattle.std.specs.Prelude.{◌≡◌, ◌+◌, ◌-◌, ◌*◌, ◌<◌, ◌≤◌, ◌^◌, ◌++◌, ◌∷◌, ◌&&◌, [], IfOk, IsTrue, List, OnErr, OnOk, if◌then◌else◌, length, nat_le, position, slice_index, take, ℕ};
ghost use Rattle.bd_sim.specs.Journal.{State, IsRead, after_each, before_call, in_range, is_sync, of_area, same_area, start, step, with_call};
ghost use Rattle.bd_sim.specs.Image.{unsynced_after};

use bd_dev::{Area, Bytes, Memory};
use std::alloc::Global;

/// What a call did to a plant.
#[derive(Drop)]
pub(crate) enum Step {
    /// It put these bytes from this sector on.
    Write { area: Area, lba: u64, bytes: Bytes },
    /// It was to write so many sectors from this one on, and failed.
    FailedWrite { area: Area, lba: u64, sectors: u64 },
    /// It made durable what was written to the area.
    Sync { area: Area },
}

/// A call that changed a plant, with its number among all calls.
#[derive(Drop)]
pub(crate) struct Noted {
    pub(crate) number: u64,
    pub(crate) step: Step,
}

impl Noted {
    /// A write of these bytes, or `Memory`.
    pub(crate) fn write(
        alloc: Global,
        number: u64,
        area: Area,
        lba: u64,
        bytes: &[u8],
    ) -> Result<Noted, Memory>
        ensures { IfOk result (λ noted. noted
            ≡ record { number = number; step = Step.Write area lba bytes.now }) }
    {
        let bytes = Bytes::from_slice(alloc, bytes)?;
        Ok(Noted {
            number,
            step: Step::Write { area, lba, bytes },
        })
    }
}

/// Puts a call at the end, or answers `Memory` and changes nothing.
pub(crate) fn note(journal: &mut Vec<Noted>, noted: Noted) -> Result<(), Memory>
    ensures noted { OnOk result (journal.new.items ≡ journal.old.items ++ noted ∷ []) }
    ensures unchanged { OnErr result (journal.new.items ≡ journal.old.items) }
{
    journal.push(noted)?;
    Ok(())
}

/// Whether the two are one area.
pub(crate) fn is_same(a: Area, b: Area) -> bool
    ensures { result ≡ same_area a b }
{
    match (a, b) {
        (Area::Disk, Area::Disk) => true,
        (Area::Flash, Area::Flash) => true,
        _ => false,
    }
}

/// How many of the noted calls come before this call.
pub(crate) fn noted_before(journal: &[Noted], number: u64) -> usize
    ensures { result ≡ before_call journal.now number }
{
    first_from(journal, number).unwrap_or(journal.len())
}

fn first_from(journal: &[Noted], number: u64) -> Option<usize>
    ensures { result ≡ position (λ noted. nat_le number noted.number) journal.now }
{
    journal.iter().position(|noted| noted.number >= number)
}

/// The same, with the call itself where it was noted.
pub(crate) fn noted_with(journal: &[Noted], number: u64) -> usize
    ensures { result ≡ with_call journal.now number }
{
    let before = noted_before(journal, number);
    if before < journal.len() && journal[before].number == number {
        before + 1
    } else {
        before
    }
}

/// How many of the noted calls there are up to the last sync of the area.
pub(crate) fn synced_until(journal: &[Noted], area: Area) -> usize
    ensures within { result ≤ length journal.now }
    ensures durable { (disk flash : List ℕ)
        → (after_each (start disk flash) journal.now).durable area
        ≡ (after_each (start disk flash) (take result journal.now)).reads area }
{
    let mut synced = 0;
    for (index, noted) in journal.iter().enumerate() {
        if is_sync_of(noted, area) {
            synced = index + 1;
        }
    }
    synced
}

fn is_sync_of(noted: &Noted, area: Area) -> bool
    ensures { result ≡ is_sync noted.now.step area }
{
    match &noted.step {
        Step::Sync { area: synced } => is_same(area, *synced),
        _ => false,
    }
}

/// Whether the sector was written since its area's last sync.
pub(crate) fn is_unsynced(journal: &[Noted], area: Area, lba: u64) -> bool
    ensures { result ≡ unsynced_after journal.now area lba }
{
    let mut unsynced = false;
    for noted in journal {
        unsynced = is_unsynced_then(noted, area, lba, unsynced);
    }
    unsynced
}

// The same after one call more.
fn is_unsynced_then(noted: &Noted, area: Area, lba: u64, unsynced: bool) -> bool
    ensures { (s : State) → s.unsynced area lba ≡ unsynced
        → result ≡ (step s noted.now.step).unsynced area lba }
{
    match &noted.step {
        Step::Write {
            area: to,
            lba: from,
            bytes,
        } => is_in_range(
            area,
            *to,
            *from,
            bytes.as_slice().len().div_ceil(512) as u64,
            lba,
        ) || unsynced,
        Step::FailedWrite {
            area: to,
            lba: from,
            sectors,
        } => is_in_range(area, *to, *from, *sectors, lba) || unsynced,
        Step::Sync { area: synced } => !is_same(area, *synced) && unsynced,
    }
}

fn is_in_range(area: Area, to: Area, from: u64, sectors: u64, lba: u64) -> bool
    ensures { result ≡ (same_area area to && in_range from sectors lba) }
{
    is_same(area, to) && from <= lba && lba - from < sectors
}

/// Fills `out` with what an area that held `first` reads from the offset `at` on after the calls.
pub(crate) fn read_back(first: &[u8], journal: &[Noted], area: Area, at: usize, out: &mut [u8])
    requires { at + length out.old ≤ length first.now }
    ensures { (disk flash : List ℕ) → first.now ≡ of_area disk flash area
        → IsRead ((after_each (start disk flash) journal.now).reads area) at out.new }
{
    out.copy_from_slice(&first[at..at + out.len()]);
    replay(journal, area, at, out);
}

fn replay(journal: &[Noted], area: Area, at: usize, out: &mut [u8])
    requires { at + length out.old < 2 ^ 64 }
    ensures { (s : State) → IsRead (s.reads area) at out.old
        → IsRead ((after_each s journal.now).reads area) at out.new }
{
    for noted in journal {
        apply(noted, area, at, out);
    }
}

fn apply(noted: &Noted, area: Area, at: usize, out: &mut [u8])
    requires { at + length out.old < 2 ^ 64 }
    ensures { (s : State) → IsRead (s.reads area) at out.old
        → IsRead ((step s noted.now.step).reads area) at out.new }
{
    match &noted.step {
        Step::Write {
            area: to,
            lba,
            bytes,
        } => {
            if is_same(area, *to) {
                overlay(out, at, *lba, bytes.as_slice());
            }
        }
        Step::FailedWrite { .. } => {}
        Step::Sync { .. } => {}
    }
}

// Puts those of the bytes, which stand from the sector `lba` on, that lie in `out`, which stands at `at`.
fn overlay(out: &mut [u8], at: usize, lba: u64, bytes: &[u8])
    requires { at + length out.old < 2 ^ 64 }
    ensures { (k : ℕ) → k < length out.old → slice_index out.new k
        ≡ (if in_range (512 * lba) (length bytes.now) (at + k)
        then slice_index bytes.now (at + k - 512 * lba) else slice_index out.old k) }
{
    if lba >= 1 << 55 {
        return;
    }
    let from = 512 * lba as usize;
    let skipped = at.saturating_sub(from);
    let start = from.saturating_sub(at);
    if skipped >= bytes.len() || start >= out.len() {
        return;
    }
    let count = (bytes.len() - skipped).min(out.len() - start);
    for index in 0..count {
        out[start + index] = bytes[skipped + index];
    }
}

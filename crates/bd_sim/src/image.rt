//! What a power cut within a call may leave of a plant in memory.

ghost use Rattle.std.specs.Prelude.{◌≡◌, ◌+◌, ◌*◌, ◌<◌, ◌≤◌, ◌++◌, ◌∷◌, [], IfOk, List, length, slice_index, take, ℕ};
ghost use Rattle.std.specs.List.{list_all};
ghost use Rattle.bd_sim.specs.Journal.{after_each, before_call, of_area, start, with_call};
ghost use Rattle.bd_sim.specs.Image.{IsPicked, Picked, byte_of, may_tear, unsynced_after};

use crate::journal::{
    Noted, is_same, is_unsynced, noted_before, noted_with, read_back, synced_until,
};
use bd_dev::{Area, Memory};
use std::alloc::Global;

/// What a power cut leaves of a sector that was written and is not synced.
#[derive(Clone, Copy, Debug, PartialEq, Eq)]
pub enum Pick {
    /// The sector as it was at the area's last successful sync.
    Old,
    /// The sector as the call would leave it.
    New,
    /// The first 256 bytes of the new sector, and this byte in the other 256.
    Torn(u8),
}

/// Whether a power cut within call number `moment` may leave each of these sectors torn.
pub(crate) fn may_tear_all(journal: &[Noted], moment: u64, picks: &[(Area, u64, Pick)]) -> bool
    ensures { result ≡ list_all (may_tear journal.now moment) picks.now }
{
    picks.iter().all(|picked| may_tear(journal, moment, picked))
}

fn may_tear(journal: &[Noted], moment: u64, picked: &(Area, u64, Pick)) -> bool
    ensures { result ≡ may_tear journal.now moment picked.now }
{
    let (area, lba, _) = *picked;
    is_unsynced(&journal[..noted_before(journal, moment)], area, lba)
        || is_unsynced(&journal[..noted_with(journal, moment)], area, lba)
}

/// What a power cut within call number `moment` leaves of an area, or `Memory`.
pub(crate) fn area_image(
    alloc: Global,
    first: &[u8],
    journal: &[Noted],
    area: Area,
    moment: u64,
    picks: &[(Area, u64, Pick)],
) -> Result<Vec<u8>, Memory>
    ensures { IfOk result (λ bytes. (disk flash : List ℕ) → first.now ≡ of_area disk flash area → IsPicked
        ((after_each (start disk flash) (take (before_call journal.now moment) journal.now)).durable area)
        ((after_each (start disk flash) (take (with_call journal.now moment) journal.now)).reads area)
        picks.now area (length first.now) bytes.items) }
{
    let mut bytes = Vec::from_slice(alloc, first)?;
    fill_image(first, journal, area, moment, picks, &mut bytes);
    Ok(bytes)
}

fn fill_image(
    first: &[u8],
    journal: &[Noted],
    area: Area,
    moment: u64,
    picks: &[(Area, u64, Pick)],
    out: &mut [u8],
)
    requires { length out.old ≡ length first.now }
    ensures { (disk flash : List ℕ) → first.now ≡ of_area disk flash area → IsPicked
        ((after_each (start disk flash) (take (before_call journal.now moment) journal.now)).durable area)
        ((after_each (start disk flash) (take (with_call journal.now moment) journal.now)).reads area)
        picks.now area (length first.now) out.new }
{
    let before = &journal[..noted_before(journal, moment)];
    let old = &before[..synced_until(before, area)];
    let new = &journal[..noted_with(journal, moment)];
    read_back(first, old, area, 0, out);
    put_picks(first, old, new, area, picks, out);
}

// Puts the sectors of an area that are picked.
fn put_picks(
    first: &[u8],
    old: &[Noted],
    new: &[Noted],
    area: Area,
    picks: &[(Area, u64, Pick)],
    out: &mut [u8],
)
    requires { length out.old ≡ length first.now }
    ensures { (disk flash : List ℕ) → first.now ≡ of_area disk flash area
        → IsPicked ((after_each (start disk flash) old.now).reads area)
        ((after_each (start disk flash) new.now).reads area) [] area (length first.now) out.old
        → IsPicked ((after_each (start disk flash) old.now).reads area)
        ((after_each (start disk flash) new.now).reads area) picks.now area (length first.now) out.new }
{
    for &(to, lba, pick) in picks {
        put_pick(first, old, new, area, (to, lba, pick), out);
    }
}

fn put_pick(
    first: &[u8],
    old: &[Noted],
    new: &[Noted],
    area: Area,
    picked: (Area, u64, Pick),
    out: &mut [u8],
)
    requires { length out.old ≡ length first.now }
    ensures { (disk flash : List ℕ) (picks : List Picked) → first.now ≡ of_area disk flash area
        → IsPicked ((after_each (start disk flash) old.now).reads area)
        ((after_each (start disk flash) new.now).reads area) picks area (length first.now) out.old
        → IsPicked ((after_each (start disk flash) old.now).reads area)
        ((after_each (start disk flash) new.now).reads area) (picks ++ picked ∷ []) area (length first.now) out.new }
{
    let (to, lba, pick) = picked;
    if is_same(to, area) {
        if lba < out.len() as u64 / 512 {
            let sector = picked_sector(first, old, new, area, lba, pick);
            put_sector(out, 512 * lba as usize, &sector);
        }
    }
}

fn put_sector(out: &mut [u8], at: usize, sector: &[u8; 512])
    requires { at + 512 ≤ length out.old }
    ensures put { (k : ℕ) → k < 512 → slice_index out.new (at + k) ≡ slice_index sector.now k }
    ensures below { (k : ℕ) → k < at → slice_index out.new k ≡ slice_index out.old k }
    ensures above { (k : ℕ) → at + 512 ≤ k → slice_index out.new k ≡ slice_index out.old k }
{
    for index in 0..512_usize {
        out[at + index] = sector[index];
    }
}

// A sector of an area that is picked so.
fn picked_sector(
    first: &[u8],
    old: &[Noted],
    new: &[Noted],
    area: Area,
    lba: u64,
    pick: Pick,
) -> [u8; 512]
    requires { 512 * lba + 512 ≤ length first.now }
    ensures size { length result ≡ 512 }
    ensures bytes { (disk flash : List ℕ) → first.now ≡ of_area disk flash area
        → (k : ℕ) → k < 512 → slice_index result k ≡ byte_of pick k
        ((after_each (start disk flash) old.now).reads area (512 * lba + k))
        ((after_each (start disk flash) new.now).reads area (512 * lba + k)) }
{
    match pick {
        Pick::Old => sector(first, old, area, lba),
        Pick::New => sector(first, new, area, lba),
        Pick::Torn(byte) => torn(sector(first, new, area, lba), byte),
    }
}

fn torn(sector: [u8; 512], byte: u8) -> [u8; 512]
    ensures size { length result ≡ 512 }
    ensures kept { (k : ℕ) → k < 256 → slice_index result k ≡ slice_index sector k }
    ensures lost { (k : ℕ) → 256 ≤ k → k < 512 → slice_index result k ≡ byte }
{
    let mut out = sector;
    for index in 256..512_usize {
        out[index] = byte;
    }
    out
}

fn sector(first: &[u8], journal: &[Noted], area: Area, lba: u64) -> [u8; 512]
    requires { 512 * lba + 512 ≤ length first.now }
    ensures size { length result ≡ 512 }
    ensures bytes { (disk flash : List ℕ) → first.now ≡ of_area disk flash area
        → (k : ℕ) → k < 512
        → slice_index result k ≡ (after_each (start disk flash) journal.now).reads area (512 * lba + k) }
{
    let mut out = [0; 512];
    read_back(first, journal, area, 512 * lba as usize, &mut out);
    out
}

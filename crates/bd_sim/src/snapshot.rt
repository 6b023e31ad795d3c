//! A plant at one moment, from which images are made without going over its calls for each.

ghost use Rattle.std.specs.Prelude.{◌≡◌, ◌≤◌, IfOk, List, OnOk, length, take, true, ℕ};
ghost use Rattle.std.specs.List.{list_all};
ghost use Rattle.bd_sim.specs.Image.{IsLeft, Picked, crash_image};
ghost use Rattle.bd_sim.specs.Journal.{IsRead, after_each, before_call, of_area, start, with_call};
ghost use Rattle.bd_sim.specs.Open.{IsTaken, is_among};
ghost use Rattle.bd_sim.specs.View.{PlantInMemory, view_of};

use crate::image::Pick;
use crate::journal::{Noted, is_same, noted_before, noted_with, read_back, synced_until};
use crate::plant::SimPlant;
use bd_dev::{Area, Memory};
use std::alloc::Global;
use std::marker::Model;

/// What a power cut within one call may leave of a plant: [`SimPlant::snapshot`] takes it.
#[derive(Drop)]
pub struct Snapshot {
    /// What the areas held at their last syncs, with two writes of what the call would leave.
    pub(crate) short: SimPlant,
    pub(crate) sectors: Vec<(Area, u64)>,
}

impl Model for Snapshot {
    ghost use Rattle.bd_sim.specs.Open.{Kept};

    ghost Value = { Kept };

    ghost view = { λ s. record { short = s.short; sectors = s.sectors.items } };
}

impl Snapshot {
    /// The sectors that may be picked, the disk's first, each area's in order.
    pub fn open_sectors(&self) -> &[(Area, u64)]
        ensures { result.now ≡ self.now.sectors }
    {
        &self.sectors
    }

    /// Whether these picks may be asked of `image`: the sector of each is open.
    pub fn allows(&self, picks: &[(Area, u64, Pick)]) -> bool
        ensures { result ≡ list_all (is_among self.now.sectors) picks.now }
    {
        picks.iter().all(|picked| is_among(&self.sectors, picked))
    }

    /// What [`SimPlant::image`] gives by these picks at the snapshot's moment. Or `Memory`.
    pub fn image(&self, picks: &[(Area, u64, Pick)]) -> Result<SimPlant, Memory>
        requires { list_all (is_among self.now.sectors) picks.now ≡ true }
        ensures left { (p : PlantInMemory) (moment : ℕ) → IsTaken p moment self.now
            → IfOk result (IsLeft p moment picks.now) }
        ensures crash { (p : PlantInMemory) (moment : ℕ) → IsTaken p moment self.now
            → OnOk result ((t : ℕ) → t ≤ before_call p.journal moment
            → (view_of p).left_since t (crash_image p moment picks.now)) }
    {
        self.short.left_by(2, picks)
    }
}

fn is_among(sectors: &[(Area, u64)], picked: &(Area, u64, Pick)) -> bool
    ensures { result ≡ is_among sectors.now picked.now }
{
    let (area, lba, _) = *picked;
    sectors
        .iter()
        .any(|sector| is_same(sector.0, area) && sector.1 == lba)
}

/// What an area held at its last successful sync before a call, or `Memory`.
pub(crate) fn old_content(
    alloc: Global,
    first: &[u8],
    journal: &[Noted],
    area: Area,
    moment: u64,
) -> Result<Vec<u8>, Memory>
    ensures size { IfOk result (λ bytes. length bytes.items ≡ length first.now) }
    ensures bytes { IfOk result (λ bytes. (disk flash : List ℕ) → first.now ≡ of_area disk flash area → IsRead
        ((after_each (start disk flash) (take (before_call journal.now moment) journal.now)).durable area)
        0 bytes.items) }
{
    let before = &journal[..noted_before(journal, moment)];
    content(alloc, first, &before[..synced_until(before, area)], area)
}

/// What an area would read after a call, or `Memory`.
pub(crate) fn new_content(
    alloc: Global,
    first: &[u8],
    journal: &[Noted],
    area: Area,
    moment: u64,
) -> Result<Vec<u8>, Memory>
    ensures size { IfOk result (λ bytes. length bytes.items ≡ length first.now) }
    ensures bytes { IfOk result (λ bytes. (disk flash : List ℕ) → first.now ≡ of_area disk flash area → IsRead
        ((after_each (start disk flash) (take (with_call journal.now moment) journal.now)).reads area)
        0 bytes.items) }
{
    content(alloc, first, &journal[..noted_with(journal, moment)], area)
}

fn content(alloc: Global, first: &[u8], journal: &[Noted], area: Area) -> Result<Vec<u8>, Memory>
    ensures size { IfOk result (λ bytes. length bytes.items ≡ length first.now) }
    ensures bytes { IfOk result (λ bytes. (disk flash : List ℕ) → first.now ≡ of_area disk flash area
        → IsRead ((after_each (start disk flash) journal.now).reads area) 0 bytes.items) }
{
    let mut bytes = Vec::from_slice(alloc, first)?;
    read_back(first, journal, area, 0, &mut bytes);
    Ok(bytes)
}

//! The sectors that a power cut within a call may leave torn.

ghost use Rattle.std.specs.Prelude.{◌≡◌, ◌/◌, ◌<◌, ◌++◌, ◌∷◌, ◌||◌, [], IfOk, OnOk, false, get_or, if◌then◌else◌, length, ℕ};
ghost use Rattle.bd_sim.specs.Image.{may_tear, unsynced_after};
ghost use Rattle.bd_sim.specs.Journal.{State, after_each, in_range, step};
ghost use Rattle.bd_sim.specs.Open.{open_below};
ghost use Rattle.bd_sim.specs.declared.image.Pick.TheVariants.{Old};

use crate::journal::{Noted, Step, is_same, noted_before, noted_with};
use bd_dev::{Area, Memory};
use std::alloc::Global;

/// Puts behind `found` the sectors of an area, which holds as many bytes as `first`, that may be torn within call number
/// `moment`, in order. Or `Memory`.
pub(crate) fn push_open(
    alloc: Global,
    first: &[u8],
    journal: &[Noted],
    area: Area,
    moment: u64,
    found: &mut Vec<(Area, u64)>,
) -> Result<(), Memory>
    ensures { OnOk result (found.new.items ≡ found.old.items
        ++ open_below (λ s. may_tear journal.now moment (area, s, Old)) area (length first.now / 512)) }
{
    let sectors = first.len() / 512;
    let before = marks(
        alloc,
        &journal[..noted_before(journal, moment)],
        area,
        sectors,
    )?;
    let with = marks(
        alloc,
        &journal[..noted_with(journal, moment)],
        area,
        sectors,
    )?;
    for lba in 0..sectors {
        push_if(is_either(before[lba], with[lba]), area, lba as u64, found)?;
    }
    Ok(())
}

fn push_if(is_open: bool, area: Area, lba: u64, found: &mut Vec<(Area, u64)>) -> Result<(), Memory>
    ensures { OnOk result (found.new.items
        ≡ found.old.items ++ (if is_open then (area, lba) ∷ [] else [])) }
{
    if is_open {
        found.push((area, lba))?;
    }
    Ok(())
}

fn is_either(before: bool, with: bool) -> bool
    ensures { result ≡ (before || with) }
{
    before || with
}

/// Of each of an area's first sectors, whether it is unsynced after these calls. Or `Memory`.
fn marks(alloc: Global, journal: &[Noted], area: Area, sectors: usize) -> Result<Vec<bool>, Memory>
    ensures size { IfOk result (λ marks. length marks.items ≡ sectors) }
    ensures marked { IfOk result (λ marks. (k : ℕ) → k < sectors
        → get_or marks.items k false ≡ unsynced_after journal.now area k) }
{
    let mut marks = vec![in alloc; false; sectors]?;
    mark_all(journal, area, &mut marks);
    Ok(marks)
}

fn mark_all(journal: &[Noted], area: Area, marks: &mut [bool])
    ensures { (s : State) (k : ℕ) → k < length marks.old → get_or marks.old k false ≡ s.unsynced area k
        → get_or marks.new k false ≡ (after_each s journal.now).unsynced area k }
{
    for noted in journal {
        mark(noted, area, marks);
    }
}

fn mark(noted: &Noted, area: Area, marks: &mut [bool])
    ensures { (s : State) (k : ℕ) → k < length marks.old → get_or marks.old k false ≡ s.unsynced area k
        → get_or marks.new k false ≡ (step s noted.now.step).unsynced area k }
{
    match &noted.step {
        Step::Write {
            area: to,
            lba,
            bytes,
        } => {
            if is_same(area, *to) {
                mark_range(marks, *lba, bytes.as_slice().len().div_ceil(512) as u64);
            }
        }
        Step::FailedWrite {
            area: to,
            lba,
            sectors,
        } => {
            if is_same(area, *to) {
                mark_range(marks, *lba, *sectors);
            }
        }
        Step::Sync { area: synced } => {
            if is_same(area, *synced) {
                clear(marks);
            }
        }
    }
}

fn mark_range(marks: &mut [bool], from: u64, count: u64)
    ensures { (k : ℕ) → k < length marks.old
        → get_or marks.new k false ≡ (in_range from count k || get_or marks.old k false) }
{
    if from >= marks.len() as u64 {
        return;
    }
    let start = from as usize;
    let most = count.min((marks.len() - start) as u64) as usize;
    for index in 0..most {
        marks[start + index] = true;
    }
}

fn clear(marks: &mut [bool])
    ensures { (k : ℕ) → get_or marks.new k false ≡ false }
{
    for index in 0..marks.len() {
        marks[index] = false;
    }
}

//! Writes and syncs of a plant.

ghost use Rattle.std.specs.Prelude.{◌≡◌, ◌⊎◌, ◌*◌, ◌/◌, length, OnOk};
ghost use Rattle.bd_dev.specs.Content.{window};
ghost use Rattle.bd_dev.specs.Faults.{HasCause};
ghost use Rattle.bd_dev.specs.Plant.{IsRange, IsSynced};
ghost use Rattle.bd_dev.specs.Runs.{ReadsOnly, WritesAtMost};
ghost use Rattle.bd_dev.specs.Touching.{IsWritten, Touches};

use crate::faults::Failed;
use crate::plant::{Area, Plant};

/// Writes whole sectors of an area from the address `lba` on, which are unsynced then. Answers `Failed` where the plant
/// fails: then each of these sectors reads as any bytes.
pub fn write_sectors<P: Plant>(
    plant: &mut P,
    area: Area,
    lba: u64,
    bytes: &[u8],
) -> Result<(), Failed>
    requires { IsRange (P.view plant.old) area lba (length bytes.now) }
    ensures bytes { (P.view plant.old).tells → OnOk result
        (window ((P.view plant.new).reads area) (512 * lba) (length bytes.now) ≡ bytes.now) }
    ensures touches { Touches area lba (length bytes.now / 512) (P.view plant.old) (P.view plant.new) }
    ensures between { (P.view plant.old).tells → ReadsOnly (P.view plant.old) (P.view plant.new)
        (λ c. (c ≡ (P.view plant.old).reads) ⊎ IsWritten area lba bytes.now (P.view plant.old).reads c) }
    ensures wears { (P.view plant.old).tells
        → WritesAtMost area (length bytes.now / 512) (P.view plant.old) (P.view plant.new) }
    ensures cause { HasCause (P.view plant.old).faults (P.view plant.new).faults result }
{
    plant.write(area, lba, bytes)
}

/// Waits until all that was written to an area is durable. Answers `Failed` where the plant fails. What the plant reads
/// is left as it was.
pub fn sync_area<P: Plant>(plant: &mut P, area: Area) -> Result<(), Failed>
    ensures synced { (P.view plant.old).tells → OnOk result (IsSynced (P.view plant.new) area) }
    ensures reads { (P.view plant.old).tells → (P.view plant.new).reads ≡ (P.view plant.old).reads }
    ensures touches { Touches area 0 0 (P.view plant.old) (P.view plant.new) }
    ensures between { (P.view plant.old).tells → ReadsOnly (P.view plant.old) (P.view plant.new)
        (λ c. c ≡ (P.view plant.old).reads) }
    ensures wears { (P.view plant.old).tells → (P.view plant.new).writes ≡ (P.view plant.old).writes }
    ensures cause { HasCause (P.view plant.old).faults (P.view plant.new).faults result }
{
    plant.sync(area)
}

/// Writes whole sectors of an area from the address `lba` on, and syncs the area. Answers `Failed` where the plant
/// fails: then each of these sectors reads as any bytes, and may be unsynced.
pub fn write_through<P: Plant>(
    plant: &mut P,
    area: Area,
    lba: u64,
    bytes: &[u8],
) -> Result<(), Failed>
    requires { IsRange (P.view plant.old) area lba (length bytes.now) }
    ensures bytes { (P.view plant.old).tells → OnOk result
        (window ((P.view plant.new).reads area) (512 * lba) (length bytes.now) ≡ bytes.now) }
    ensures synced { (P.view plant.old).tells → OnOk result (IsSynced (P.view plant.new) area) }
    ensures touches { Touches area lba (length bytes.now / 512) (P.view plant.old) (P.view plant.new) }
    ensures between { (P.view plant.old).tells → ReadsOnly (P.view plant.old) (P.view plant.new)
        (λ c. (c ≡ (P.view plant.old).reads) ⊎ IsWritten area lba bytes.now (P.view plant.old).reads c) }
    ensures wears { (P.view plant.old).tells
        → WritesAtMost area (length bytes.now / 512) (P.view plant.old) (P.view plant.new) }
    ensures cause { HasCause (P.view plant.old).faults (P.view plant.new).faults result }
{
    write_sectors(plant, area, lba, bytes)?;
    sync_area(plant, area)?;
    Ok(())
}

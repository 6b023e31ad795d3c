//! Gates: their closing and their opening.

ghost use Rattle.std.specs.Prelude.{◌≡◌, ◌*◌, ◌++◌, ◌<◌, ◌≤◌, OnOk, false, true, length, replicate, take};
ghost use Rattle.std.specs.Str.{bytes_eq};
ghost use Rattle.bd_dev.specs.Content.{window};
ghost use Rattle.bd_dev.specs.Faults.{HasCause};
ghost use Rattle.bd_dev.specs.Plant.{IsSynced};
ghost use Rattle.bd_dev.specs.Runs.{Looks, WritesAtMost};
ghost use Rattle.bd_dev.specs.Touching.{Touches};
ghost use Rattle.slot_model.specs.Slots.{is_open_gate, open_word};

use bd_dev::{Area, Failed, Plant, read_sectors, write_through};

/// What an open gate begins with.
const OPEN: &[u8; 8] = b"ONIEOPEN";

/// Whether a gate is open whose sector begins so.
pub(crate) fn says_open(sector: &[u8]) -> bool
    requires { 8 ≤ length sector.now }
    ensures { result ≡ bytes_eq (take 8 sector.now) open_word }
{
    &sector[..8] == OPEN.as_slice()
}

/// Closes a gate that reads open, by zeros, and syncs. A gate that reads closed is not written: a power cut within such
/// a write could leave it open, before a body that nobody put.
pub(crate) fn close_gate<P: Plant>(plant: &mut P, area: Area, gate: u64) -> Result<(), Failed>
    requires room { gate < (P.view plant.old).size area }
    ensures closed { (P.view plant.old).tells → OnOk result
        (is_open_gate ((P.view plant.new).reads area) gate ≡ false) }
    ensures zeros { (P.view plant.old).tells → is_open_gate ((P.view plant.old).reads area) gate ≡ true
        → OnOk result (window ((P.view plant.new).reads area) (512 * gate) 512 ≡ replicate 512 0) }
    ensures synced { (P.view plant.old).tells → IsSynced (P.view plant.old) area
        → OnOk result (IsSynced (P.view plant.new) area) }
    ensures unwritten { (P.view plant.old).tells → is_open_gate ((P.view plant.old).reads area) gate ≡ false
        → Looks (P.view plant.old) (P.view plant.new) }
    ensures touches { Touches area gate 1 (P.view plant.old) (P.view plant.new) }
    ensures wears { (P.view plant.old).tells → WritesAtMost area 1 (P.view plant.old) (P.view plant.new) }
    ensures cause { HasCause (P.view plant.old).faults (P.view plant.new).faults result }
{
    let mut sector = [0; 512];
    read_sectors(plant, area, gate, &mut sector)?;
    if says_open(&sector) {
        write_through(plant, area, gate, &[0; 512])?;
    }
    Ok(())
}

/// The sector of an open gate.
fn open_sector() -> [u8; 512]
    ensures { result ≡ open_word ++ replicate 504 0 }
{
    let mut sector = [0; 512];
    sector[..8].copy_from_slice(OPEN);
    sector
}

/// Opens a gate, and syncs.
pub(crate) fn open_gate<P: Plant>(plant: &mut P, area: Area, gate: u64) -> Result<(), Failed>
    requires room { gate < (P.view plant.old).size area }
    ensures opened { (P.view plant.old).tells → OnOk result
        (is_open_gate ((P.view plant.new).reads area) gate ≡ true) }
    ensures bytes { (P.view plant.old).tells → OnOk result
        (window ((P.view plant.new).reads area) (512 * gate) 512 ≡ open_word ++ replicate 504 0) }
    ensures synced { (P.view plant.old).tells → OnOk result (IsSynced (P.view plant.new) area) }
    ensures touches { Touches area gate 1 (P.view plant.old) (P.view plant.new) }
    ensures wears { (P.view plant.old).tells → WritesAtMost area 1 (P.view plant.old) (P.view plant.new) }
    ensures cause { HasCause (P.view plant.old).faults (P.view plant.new).faults result }
{
    let sector = open_sector();
    write_through(plant, area, gate, &sector)?;
    Ok(())
}

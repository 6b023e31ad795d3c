//! Reads of a plant.

ghost use Rattle.std.specs.Prelude.{◌≡◌, ◌*◌, length, OnOk};
ghost use Rattle.bd_dev.specs.Content.{window};
ghost use Rattle.bd_dev.specs.Faults.{HasCause};
ghost use Rattle.bd_dev.specs.Plant.{IsRange};
ghost use Rattle.bd_dev.specs.Runs.{Looks};

use crate::faults::Failed;
use crate::plant::{Area, Plant};

/// Fills `out` with whole sectors of an area from the address `lba` on. Answers `Failed` where the plant fails.
pub fn read_sectors<P: Plant>(
    plant: &mut P,
    area: Area,
    lba: u64,
    out: &mut [u8],
) -> Result<(), Failed>
    requires { IsRange (P.view plant.old) area lba (length out.old) }
    ensures bytes { (P.view plant.old).tells → OnOk result
        (out.new ≡ window ((P.view plant.old).reads area) (512 * lba) (length out.old)) }
    ensures looks { Looks (P.view plant.old) (P.view plant.new) }
    ensures cause { HasCause (P.view plant.old).faults (P.view plant.new).faults result }
{
    plant.read(area, lba, out)
}

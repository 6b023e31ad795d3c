//! Replacing the table.

ghost use Rattle.std.specs.Prelude.{◌-◌, OnOk};
ghost use Rattle.bd_dev.specs.declared.plant.Area.TheVariants.{Disk};
ghost use Rattle.bd_dev.specs.Faults.{HasCause};
ghost use Rattle.bd_dev.specs.Plant.{IsSynced};
ghost use Rattle.storage_model.specs.Copies.{AreCopiesSynced, IsCleanBetween, IsEitherTable, ReadsBoth, TouchesCopies};
ghost use Rattle.gpt_copy.specs.declared.table.Table.{Table};
ghost use Rattle.gpt_copy.specs.Copy.{FitsDisk};
ghost use Rattle.bd_dev.specs.Runs.{LeavesOnly, ReadsOnly, WritesAtMost};
ghost use Rattle.gpt_table.specs.Copies.{IsPrimaryFirst};

use crate::copies::write_table;
use bd_dev::{Area, Failed, Plant};
use gpt_copy::{Table, Which};

/// Puts a table in place of the one that both copies read as: it writes the primary, syncs, writes the backup and
/// syncs, so that at every moment one copy stands. No sector of a copy may be unsynced before; other sectors may.
///
/// A power cut at any moment leaves the table before or this one, unless it leaves a torn copy that passes for a third
/// table. It leaves all sectors off the copies as they were. After Ok both copies read as this table, and nothing on
/// the disk is unsynced. At most 66 sectors are written.
///
/// Answers `Failed` where the plant fails: then [`open`](crate::open) finds the table before or this one.
///
/// Source: UEFI 2.10, section 5.3.2.
pub fn replace<P: Plant>(plant: &mut P, table: &Table) -> Result<(), Failed>
    requires fits { FitsDisk ((P.view plant.old).size Disk - 1) table.now }
    requires synced { (P.view plant.old).tells → AreCopiesSynced (P.view plant.old) }
    ensures crash { (P.view plant.old).tells → (before : Table) → ReadsBoth ((P.view plant.old).size Disk) ((P.view plant.old).reads Disk) before
        → LeavesOnly (P.view plant.old) (P.view plant.new) (λ c. IsCleanBetween ((P.view plant.old).size Disk) before table.now c
        → IsEitherTable ((P.view plant.old).size Disk) before table.now c) }
    ensures between { (P.view plant.old).tells → (before : Table) → ReadsBoth ((P.view plant.old).size Disk) ((P.view plant.old).reads Disk) before
        → ReadsOnly (P.view plant.old) (P.view plant.new) (λ c. IsCleanBetween ((P.view plant.old).size Disk) before table.now c
        × IsEitherTable ((P.view plant.old).size Disk) before table.now c) }
    ensures ordered { (P.view plant.old).tells → (before : Table) → ReadsBoth ((P.view plant.old).size Disk) ((P.view plant.old).reads Disk) before
        → LeavesOnly (P.view plant.old) (P.view plant.new) (IsPrimaryFirst ((P.view plant.old).size Disk) before table.now) }
    ensures touches { TouchesCopies (P.view plant.old) (P.view plant.new) }
    ensures wears { (P.view plant.old).tells → WritesAtMost Disk 66 (P.view plant.old) (P.view plant.new) }
    ensures synced { (P.view plant.old).tells → OnOk result (IsSynced (P.view plant.new) Disk) }
    ensures both { (P.view plant.old).tells → OnOk result
        (ReadsBoth ((P.view plant.old).size Disk) ((P.view plant.new).reads Disk) table.now) }
    ensures cause { HasCause (P.view plant.old).faults (P.view plant.new).faults result }
{
    let sectors = plant.sectors(Area::Disk);
    write_table(plant, Which::Primary, sectors, table)?;
    write_table(plant, Which::Backup, sectors, table)?;
    Ok(())
}

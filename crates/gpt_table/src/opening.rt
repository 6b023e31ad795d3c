//! Opening the table.

ghost use Rattle.std.specs.Prelude.{◌≡◌, ◌-◌, Some, None, Err, IfOk, OnOk};
ghost use Rattle.bd_dev.specs.declared.plant.Area.TheVariants.{Disk};
ghost use Rattle.bd_dev.specs.Faults.{HasCause, HasCauseOr};
ghost use Rattle.bd_dev.specs.Plant.{IsSynced, OnlyReads};
ghost use Rattle.storage_model.specs.Copies.{HasSameTable, IsCleanOpening, ReadsBoth, TouchesCopies, TouchesLesser, other_copy};
ghost use Rattle.gpt_copy.specs.declared.table.Table.{Table};
ghost use Rattle.gpt_copy.specs.Copy.{FitsDisk};
ghost use Rattle.bd_dev.specs.Runs.{LeavesOnly, ReadsOnly, WritesAtMost};
ghost use Rattle.bd_dev.specs.Touching.{Touches};
ghost use Rattle.storage_model.specs.Disk.{copy_lba, found, table_of};

use crate::copies::{is_table, other_of, read_table, write_table};
use crate::looking::{GptFault, look};
use bd_dev::{Area, Failed, Plant};
use gpt_copy::{Table, Which};

/// Writes the copy that the table was not read from, where that does not read as the same table.
fn repair<P: Plant>(plant: &mut P, table: &Table, read_from: Which) -> Result<(), Failed>
    requires found { (P.view plant.old).tells
        → found ((P.view plant.old).size Disk) ((P.view plant.old).reads Disk) ≡ Some (record { table = table.now; copy = read_from }) }
    requires fits { FitsDisk ((P.view plant.old).size Disk - 1) table.now }
    requires synced { (P.view plant.old).tells → IsSynced (P.view plant.old) Disk }
    ensures crash { (P.view plant.old).tells → LeavesOnly (P.view plant.old) (P.view plant.new)
        (λ c. IsCleanOpening ((P.view plant.old).size Disk) (P.view plant.old).reads c
        → HasSameTable ((P.view plant.old).size Disk) (P.view plant.old).reads c) }
    ensures between { (P.view plant.old).tells → ReadsOnly (P.view plant.old) (P.view plant.new)
        (λ c. IsCleanOpening ((P.view plant.old).size Disk) (P.view plant.old).reads c
        × HasSameTable ((P.view plant.old).size Disk) (P.view plant.old).reads c) }
    ensures touches { TouchesCopies (P.view plant.old) (P.view plant.new) }
    ensures lesser { Touches Disk (copy_lba (other_copy read_from) ((P.view plant.old).size Disk)) 33 (P.view plant.old) (P.view plant.new) }
    ensures wears { (P.view plant.old).tells → WritesAtMost Disk 33 (P.view plant.old) (P.view plant.new) }
    ensures synced { (P.view plant.old).tells → OnOk result (IsSynced (P.view plant.new) Disk) }
    ensures both { (P.view plant.old).tells → OnOk result
        (ReadsBoth ((P.view plant.old).size Disk) ((P.view plant.new).reads Disk) table.now) }
    ensures agreeing { (P.view plant.old).tells → (t : Table)
        → ReadsBoth ((P.view plant.old).size Disk) ((P.view plant.old).reads Disk) t → OnlyReads (P.view plant.old) (P.view plant.new) }
    ensures cause { HasCause (P.view plant.old).faults (P.view plant.new).faults result }
{
    let sectors = plant.sectors(Area::Disk);
    let lesser = other_of(read_from);
    if is_table(read_table(plant, lesser, sectors)?, table) {
        return Ok(());
    }
    write_table(plant, lesser, sectors, table)?;
    Ok(())
}

/// The disk's table, as [`look`] gives it. Where the other copy is not readable or is another table, that copy is
/// written from the table and the disk synced; bytes that are part of no table are not compared. Where both copies are
/// one table nothing is written. Nothing on the disk may be unsynced before.
///
/// A power cut at any moment leaves the disk's table as it was, unless it leaves a torn copy that passes for another
/// table. It leaves all else as it was, the copy that the table is read from too. After Ok both copies read as the
/// table, and nothing on the disk is unsynced. At most 33 sectors are written.
///
/// Answers `NoTable` exactly where neither copy is readable or the disk has fewer than 68 sectors: nothing is written
/// then. Answers `Fault` where the plant fails.
///
/// Source: UEFI 2.10, section 5.3.2.
pub fn open<P: Plant>(plant: &mut P) -> Result<Table, GptFault>
    requires synced { (P.view plant.old).tells → IsSynced (P.view plant.old) Disk }
    ensures found { (P.view plant.old).tells → IfOk result
        (λ r. table_of ((P.view plant.old).size Disk) ((P.view plant.old).reads Disk) ≡ Some r) }
    ensures none { (P.view plant.old).tells → result ≡ Err GptFault.NoTable
        → table_of ((P.view plant.old).size Disk) ((P.view plant.old).reads Disk) ≡ None }
    ensures fits { IfOk result (FitsDisk ((P.view plant.old).size Disk - 1)) }
    ensures crash { (P.view plant.old).tells → LeavesOnly (P.view plant.old) (P.view plant.new)
        (λ c. IsCleanOpening ((P.view plant.old).size Disk) (P.view plant.old).reads c
        → HasSameTable ((P.view plant.old).size Disk) (P.view plant.old).reads c) }
    ensures between { (P.view plant.old).tells → ReadsOnly (P.view plant.old) (P.view plant.new)
        (λ c. IsCleanOpening ((P.view plant.old).size Disk) (P.view plant.old).reads c
        × HasSameTable ((P.view plant.old).size Disk) (P.view plant.old).reads c) }
    ensures touches { TouchesCopies (P.view plant.old) (P.view plant.new) }
    ensures lesser { (P.view plant.old).tells → TouchesLesser (P.view plant.old) (P.view plant.new) }
    ensures wears { (P.view plant.old).tells → WritesAtMost Disk 33 (P.view plant.old) (P.view plant.new) }
    ensures synced { (P.view plant.old).tells → OnOk result (IsSynced (P.view plant.new) Disk) }
    ensures both { (P.view plant.old).tells → IfOk result
        (ReadsBoth ((P.view plant.old).size Disk) ((P.view plant.new).reads Disk)) }
    ensures unwritten { (P.view plant.old).tells → table_of ((P.view plant.old).size Disk) ((P.view plant.old).reads Disk) ≡ None
        → OnlyReads (P.view plant.old) (P.view plant.new) }
    ensures agreeing { (P.view plant.old).tells → (t : Table)
        → ReadsBoth ((P.view plant.old).size Disk) ((P.view plant.old).reads Disk) t → OnlyReads (P.view plant.old) (P.view plant.new) }
    ensures cause { HasCauseOr GptFault.Fault (P.view plant.old).faults (P.view plant.new).faults result }
{
    let (table, read_from) = look(plant)?;
    repair(plant, &table, read_from)?;
    Ok(table)
}

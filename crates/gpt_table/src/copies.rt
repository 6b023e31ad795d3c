//! The two copies, each read and written.

ghost use Rattle.std.specs.Prelude.{◌≡◌, ◌⊎◌, ◌≤◌, ◌<◌, ◌+◌, ◌-◌, ◌↔◌, ℕ, false, IsTrue, Some, IfOk, IfSome, OnOk};
ghost use Rattle.bd_dev.specs.declared.plant.Area.TheVariants.{Disk};
ghost use Rattle.bd_dev.specs.Faults.{HasCause};
ghost use Rattle.bd_dev.specs.Plant.{IsSynced};
ghost use Rattle.gpt_copy.specs.Copy.{FitsDisk};
ghost use Rattle.bd_dev.specs.Runs.{Looks, ReadsOnly, WritesAtMost};
ghost use Rattle.bd_dev.specs.Touching.{Touches};
ghost use Rattle.storage_model.specs.Disk.{copy_lba, copy_of};
ghost use Rattle.storage_model.specs.Copies.{OffCopies, other_copy, touches_copies};
ghost use Rattle.gpt_table.specs.Copies.{IsCopyWritten};

use bd_dev::{Area, Failed, Plant, read_sectors, write_through};
use gpt_copy::{Table, Which, read_copy, write_copy};

/// The address of a copy's first sector.
fn first_sector(which: Which, sectors: u64) -> u64
    requires { 68 ≤ sectors }
    ensures is { result ≡ copy_lba which sectors }
    ensures room { result + 33 ≤ sectors }
{
    match which {
        Which::Primary => 1,
        Which::Backup => sectors - 33,
    }
}

/// Whether so many sectors from an address on, which lie within a disk, touch a copy of the table: sectors 1 to 33, or
/// the last 33.
pub fn touches_copy(sectors: u64, lba: u64, count: u64) -> bool
    requires within { lba + count ≤ sectors }
    requires room { 68 ≤ sectors }
    ensures is { result ≡ touches_copies sectors lba count }
    ensures off { result ≡ false → (q : ℕ) → lba ≤ q → q < lba + count → OffCopies sectors q }
    ensures part { result ≡ false → (first n : ℕ) → lba ≤ first → first + n ≤ lba + count → touches_copies sectors first n ≡ false }
{
    lba < 34 && 1 < lba + count || sectors - 33 < lba + count
}

/// The other of the two copies.
pub(crate) fn other_of(which: Which) -> Which
    ensures { result ≡ other_copy which }
{
    match which {
        Which::Primary => Which::Backup,
        Which::Backup => Which::Primary,
    }
}

/// The table of one copy, or None where that is not readable.
pub(crate) fn read_table<P: Plant>(
    plant: &mut P,
    which: Which,
    sectors: u64,
) -> Result<Option<Table>, Failed>
    requires size { sectors ≡ (P.view plant.old).size Disk }
    requires room { 68 ≤ sectors }
    ensures read { (P.view plant.old).tells → IfOk result (λ r. r ≡ copy_of which sectors ((P.view plant.old).reads Disk)) }
    ensures fits { IfOk result (λ r. IfSome r (FitsDisk (sectors - 1))) }
    ensures looks { Looks (P.view plant.old) (P.view plant.new) }
    ensures cause { HasCause (P.view plant.old).faults (P.view plant.new).faults result }
{
    let mut bytes = [0; 16896];
    read_sectors(plant, Area::Disk, first_sector(which, sectors), &mut bytes)?;
    Ok(read_copy(&bytes, which, sectors - 1))
}

/// Whether this was read, and is the table.
pub(crate) fn is_table(read: Option<Table>, table: &Table) -> bool
    ensures { IsTrue result ↔ (read ≡ Some table.now) }
{
    read == Some(*table)
}

/// Writes one copy of a table, and syncs the disk.
pub(crate) fn write_table<P: Plant>(
    plant: &mut P,
    which: Which,
    sectors: u64,
    table: &Table,
) -> Result<(), Failed>
    requires size { sectors ≡ (P.view plant.old).size Disk }
    requires fits { FitsDisk (sectors - 1) table.now }
    ensures reads { (P.view plant.old).tells → OnOk result
        (copy_of which sectors ((P.view plant.new).reads Disk) ≡ Some table.now) }
    ensures synced { (P.view plant.old).tells → OnOk result (IsSynced (P.view plant.new) Disk) }
    ensures touches { Touches Disk (copy_lba which sectors) 33 (P.view plant.old) (P.view plant.new) }
    ensures between { (P.view plant.old).tells → ReadsOnly (P.view plant.old) (P.view plant.new)
        (λ c. (c ≡ (P.view plant.old).reads) ⊎ IsCopyWritten which sectors table.now (P.view plant.old).reads c) }
    ensures wears { (P.view plant.old).tells → WritesAtMost Disk 33 (P.view plant.old) (P.view plant.new) }
    ensures cause { HasCause (P.view plant.old).faults (P.view plant.new).faults result }
{
    let mut bytes = [0; 16896];
    write_copy(table, which, sectors - 1, &mut bytes);
    write_through(plant, Area::Disk, first_sector(which, sectors), &bytes)?;
    Ok(())
}

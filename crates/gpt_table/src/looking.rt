//! Reading the table.

ghost use Rattle.std.specs.Prelude.{◌≡◌, ◌-◌, Some, None, Err, IfOk};
ghost use Rattle.bd_dev.specs.declared.plant.Area.TheVariants.{Disk};
ghost use Rattle.bd_dev.specs.Faults.{HasCauseOr};
ghost use Rattle.gpt_copy.specs.Copy.{FitsDisk};
ghost use Rattle.bd_dev.specs.Runs.{Looks};
ghost use Rattle.storage_model.specs.Disk.{found};

use crate::copies::read_table;
use bd_dev::{Area, Failed, Plant};
use gpt_copy::{Table, Which};
use thiserror::Error;

/// Why a disk's table was not read.
#[derive(Clone, Copy, Debug, PartialEq, Eq, Error)]
pub enum GptFault {
    /// The disk has none: neither copy is readable, or it has fewer than 68 sectors.
    #[error("no table")]
    NoTable,
    /// The plant failed.
    #[error("plant fault")]
    Fault,
}

impl From<Failed> for GptFault {
    ghost use Rattle.std.specs.Prelude.{◌≡◌};
    ghost use Rattle.gpt_table.specs.declared.looking.GptFault.TheVariants as faults;

    ghost from_gives = { λ _ fault. fault ≡ faults.Fault };

    fn from(_: Failed) -> GptFault {
        GptFault::Fault
    }
}

/// The disk's table, and the copy that it was read from: the primary where that is readable, else the backup. It only
/// reads.
///
/// The usable range lies between the two copies, whatever the plant reads.
///
/// Answers `NoTable` exactly where neither copy is readable or the disk has fewer than 68 sectors, and `Fault` where
/// the plant fails.
///
/// Source: UEFI 2.10, section 5.3.2.
pub fn look<P: Plant>(plant: &mut P) -> Result<(Table, Which), GptFault>
    ensures found { (P.view plant.old).tells → IfOk result
        (λ r. found ((P.view plant.old).size Disk) ((P.view plant.old).reads Disk) ≡ Some (record { table = r.0; copy = r.1 })) }
    ensures none { (P.view plant.old).tells → result ≡ Err GptFault.NoTable
        → found ((P.view plant.old).size Disk) ((P.view plant.old).reads Disk) ≡ None }
    ensures fits { IfOk result (λ r. FitsDisk ((P.view plant.old).size Disk - 1) r.0) }
    ensures looks { Looks (P.view plant.old) (P.view plant.new) }
    ensures cause { HasCauseOr GptFault.Fault (P.view plant.old).faults (P.view plant.new).faults result }
{
    let sectors = plant.sectors(Area::Disk);
    if sectors < 68 {
        return Err(GptFault::NoTable);
    }
    if let Some(table) = read_table(plant, Which::Primary, sectors)? {
        return Ok((table, Which::Primary));
    }
    match read_table(plant, Which::Backup, sectors)? {
        Some(table) => Ok((table, Which::Backup)),
        None => Err(GptFault::NoTable),
    }
}

//! The opening of a board.

ghost use Rattle.std.specs.Prelude.{◌≡◌, ◌≢◌, ◌⊎◌, ◌-◌, ℕ, Err, Some, None, IfOk, OnOk};
ghost use Rattle.bd_dev.specs.declared.plant.Area.{Area};
ghost use Rattle.bd_dev.specs.declared.plant.Area.TheVariants.{Disk, Flash};
ghost use Rattle.bd_dev.specs.Faults.{HasCause, HasCauseOr};
ghost use Rattle.bd_dev.specs.Plant.{IsImage, IsSynced};
ghost use Rattle.storage_model.specs.Copies.{AgreesOffTable, ReadsBoth, TouchesLesser, WritesNothing};
ghost use Rattle.cuts.specs.Spans.{EndsSettled, Opens};
ghost use Rattle.gpt_copy.specs.Copy.{FitsDisk};
ghost use Rattle.gpt_copy.specs.declared.table.Table.{Table};
ghost use Rattle.bd_dev.specs.Runs.{Continues, LeavesOnly, Looks, ReadsOnly, WritesAtMost};
ghost use Rattle.soundness.specs.declared.judging.SoundKind.{SoundKind};
ghost use Rattle.soundness.specs.Judgement.{IsTableFault, IsUnsound, MayHold};
ghost use Rattle.storage_model.specs.Disk.{table_of};
ghost use Rattle.storage_model.specs.Entries.{IsSane};
ghost use Rattle.storage_model.specs.Soundness.{IsSoundTable};
ghost use Rattle.board.specs.Opening.{IsReadOf, IsReady};

use bd_dev::{Area, Failed, Plant, sync_area};
use boot_vars::BootVars;
use gpt_copy::Table;
use gpt_table::{GptFault, open};
use soundness::{JudgeFault, SoundKind, judge_table, open_vars};
use std::alloc::Global;
use thiserror::Error;

/// Why a board was not opened.
#[derive(Clone, Copy, Debug, PartialEq, Eq, Error)]
pub enum OpenFault {
    /// It is not sound: the first test that failed.
    #[error("not sound: {0}")]
    NotSound(SoundKind),
    /// The plant failed.
    #[error("plant fault")]
    Fault,
    /// Want of memory.
    #[error("out of memory")]
    Memory,
}

/// What a readied plant holds: its table, and its variables.
#[derive(Drop)]
pub struct Opened {
    pub table: Table,
    pub vars: BootVars,
}

/// Makes all durable that was written. Whatever it answers, a power cut leaves what it could have left before.
fn settle<P: Plant>(plant: &mut P) -> Result<(), Failed>
    ensures continues { Continues (P.view plant.old) (P.view plant.new) }
    ensures reads { (P.view plant.old).tells → (P.view plant.new).reads ≡ (P.view plant.old).reads }
    ensures unsynced { (P.view plant.old).tells → (a : Area) (s : ℕ) → (P.view plant.new).unsynced a s → (P.view plant.old).unsynced a s }
    ensures crash { (P.view plant.old).tells → LeavesOnly (P.view plant.old) (P.view plant.new) (IsImage (P.view plant.old)) }
    ensures between { (P.view plant.old).tells → ReadsOnly (P.view plant.old) (P.view plant.new) (λ c. c ≡ (P.view plant.old).reads) }
    ensures writes { (P.view plant.old).tells → (P.view plant.new).writes ≡ (P.view plant.old).writes }
    ensures disk { (P.view plant.old).tells → OnOk result (IsSynced (P.view plant.new) Disk) }
    ensures flash { (P.view plant.old).tells → OnOk result (IsSynced (P.view plant.new) Flash) }
    ensures cause { HasCause (P.view plant.old).faults (P.view plant.new).faults result }
{
    if let Err(failed) = sync_area(plant, Area::Disk) {
        return Err(failed);
    }
    if let Err(failed) = sync_area(plant, Area::Flash) {
        return Err(failed);
    }
    Ok(())
}

/// Tests whether a board with this table, and with these variables or none, is sound. It only reads.
fn test_opened<P: Plant>(
    plant: &mut P,
    table: Table,
    vars: Option<BootVars>,
) -> Result<Opened, OpenFault>
    requires fits { FitsDisk ((P.view plant.old).size Disk - 1) table }
    requires held { (P.view plant.old).tells → MayHold ((P.view plant.old).size Flash) ((P.view plant.old).reads Flash) vars }
    ensures table { IfOk result (λ opened. opened.table ≡ table) }
    ensures vars { IfOk result (λ opened. vars ≡ Some opened.vars) }
    ensures sane { IfOk result (λ _. IsSane table) }
    ensures sound { (P.view plant.old).tells → IfOk result (λ _. IsSoundTable ((P.view plant.old).reads Disk) table) }
    ensures unsound { (kind : SoundKind) → (P.view plant.old).tells → result ≡ Err (OpenFault.NotSound kind)
        → IsTableFault (P.view plant.old).size (P.view plant.old).reads table kind }
    ensures looks { Looks (P.view plant.old) (P.view plant.new) }
    ensures no_memory { result ≢ Err OpenFault.Memory }
    ensures cause { HasCauseOr OpenFault.Fault (P.view plant.old).faults (P.view plant.new).faults result }
{
    match judge_table(plant, &table) {
        Ok(()) => {}
        Err(JudgeFault::NotSound(kind)) => return Err(OpenFault::NotSound(kind)),
        Err(JudgeFault::Fault) => return Err(OpenFault::Fault),
    }
    match vars {
        Some(vars) => Ok(Opened { table, vars }),
        None => Err(OpenFault::NotSound(SoundKind::NoVars)),
    }
}

/// Readies a plant for a board: makes all durable that was written, opens the variables and the table, and tests
/// whether the board is sound. Of the table's copies the lesser one, which the table is not read from, is written where
/// it is not readable or is another table, at most 33 sectors. Nothing else is written: where both copies are one table,
/// or neither is readable, nothing at all.
///
/// A power cut at any moment leaves what it could have left before or, from some moment on, the table, the variables
/// and all sectors as they read at the start.
///
/// `NotSound` with the first test that fails, in the order of [`SoundKind`]: then nothing is unsynced and, but for
/// `NoTable`, both copies read as the table. `Fault` where the plant fails. `Memory` where that is wanting for what is
/// kept of the disk beside the plant, which is nothing yet.
pub fn prepare<P: Plant>(_alloc: Global, plant: &mut P) -> Result<Opened, OpenFault>
    ensures continues { Continues (P.view plant.old) (P.view plant.new) }
    ensures opens { (P.view plant.old).tells → Opens (P.view plant.old) (P.view plant.new) }
    ensures settled { (P.view plant.old).tells → result ≢ Err OpenFault.Fault → EndsSettled (P.view plant.old) (P.view plant.new) }
    ensures ready { IfOk result (IsReady (P.view plant.new)) }
    ensures read { (P.view plant.old).tells → IfOk result (IsReadOf (P.view plant.old)) }
    ensures kept { (P.view plant.old).tells
        → AgreesOffTable ((P.view plant.old).size Disk) (P.view plant.old).reads (P.view plant.new).reads }
    ensures lesser { (P.view plant.old).tells → TouchesLesser (P.view plant.old) (P.view plant.new) }
    ensures unwritten { (P.view plant.old).tells
        → table_of ((P.view plant.old).size Disk) ((P.view plant.old).reads Disk) ≡ None → WritesNothing (P.view plant.old) (P.view plant.new) }
    ensures agreeing { (P.view plant.old).tells → (t : Table)
        → ReadsBoth ((P.view plant.old).size Disk) ((P.view plant.old).reads Disk) t → WritesNothing (P.view plant.old) (P.view plant.new) }
    ensures wears { (P.view plant.old).tells → WritesAtMost Disk 33 (P.view plant.old) (P.view plant.new) }
    ensures unsound { (kind : SoundKind) → (P.view plant.old).tells → result ≡ Err (OpenFault.NotSound kind)
        → IsUnsound (P.view plant.old).size (P.view plant.old).reads kind }
    ensures exact { (kind : SoundKind) → (P.view plant.old).tells → IsUnsound (P.view plant.old).size (P.view plant.old).reads kind
        → (result ≡ Err (OpenFault.NotSound kind)) ⊎ ((result ≡ Err OpenFault.Fault) ⊎ (result ≡ Err OpenFault.Memory)) }
    ensures repaired { (kind : SoundKind) (t : Table) → (P.view plant.old).tells → result ≡ Err (OpenFault.NotSound kind)
        → table_of ((P.view plant.old).size Disk) ((P.view plant.old).reads Disk) ≡ Some t
        → ReadsBoth ((P.view plant.old).size Disk) ((P.view plant.new).reads Disk) t }
    ensures cause { HasCauseOr OpenFault.Fault (P.view plant.old).faults (P.view plant.new).faults result }
{
    if let Err(_failed) = settle(plant) {
        return Err(OpenFault::Fault);
    }
    let Ok(vars) = open_vars(plant) else {
        return Err(OpenFault::Fault);
    };
    match open(plant) {
        Ok(table) => test_opened(plant, table, vars),
        Err(GptFault::NoTable) => Err(OpenFault::NotSound(SoundKind::NoTable)),
        Err(GptFault::Fault) => Err(OpenFault::Fault),
    }
}

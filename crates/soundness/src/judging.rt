//! The tests of a board, in their order.

ghost use Rattle.std.specs.Prelude.{◌≡◌, ◌≢◌, ◌⊎◌, ◌↔◌, ◌-◌, None, Some, Err, IfOk, IfSome, IsTrue};
ghost use Rattle.bd_dev.specs.declared.plant.Area.TheVariants.{Disk, Flash};
ghost use Rattle.bd_dev.specs.Faults.{HasCause, HasCauseOr};
ghost use Rattle.boot_vars.specs.Vars.{FitsVars};
ghost use Rattle.gpt_copy.specs.Copy.{FitsDisk};
ghost use Rattle.bd_dev.specs.Runs.{Looks};
ghost use Rattle.storage_model.specs.Disk.{found};
ghost use Rattle.storage_model.specs.Soundness.{IsSoundTable};
ghost use Rattle.storage_model.specs.Entries.{IsSane};
ghost use Rattle.soundness.specs.Judgement.{HoldsOnie, IsJudged, IsTableFault, IsUnsound, MayHold};

use crate::image::holds_image;
use crate::onie::onie_entry;
use bd_dev::{Failed, Plant};
use boot_vars::{BootVars, VarsFault};
use gpt_copy::{Table, Which};
use gpt_table::{GptFault, look, sane};
use thiserror::Error;

/// Why a board is not sound, in the order of the tests.
#[derive(Clone, Copy, Debug, PartialEq, Eq, Error)]
pub enum SoundKind {
    /// The disk has no readable table.
    #[error("no table")]
    NoTable,
    /// Used entries lie outside the usable range, share a sector or have one GUID.
    #[error("entries")]
    Entries,
    /// No entry is of ONIE's type.
    #[error("no onie")]
    NoOnie,
    /// More than one entry is.
    #[error("two onie")]
    TwoOnie,
    /// ONIE's partition holds no image.
    #[error("no image")]
    NoImage,
    /// The flash holds no readable variables.
    #[error("no variables")]
    NoVars,
}

/// Why a board was not judged sound.
#[derive(Clone, Copy, Debug, PartialEq, Eq, Error)]
pub enum JudgeFault {
    /// It is not.
    #[error("not sound: {0}")]
    NotSound(SoundKind),
    /// The plant failed.
    #[error("plant fault")]
    Fault,
}

impl From<Failed> for JudgeFault {
    ghost use Rattle.std.specs.Prelude.{◌≡◌};
    ghost use Rattle.soundness.specs.declared.judging.JudgeFault.TheVariants as faults;

    ghost from_gives = { λ _ fault. fault ≡ faults.Fault };

    fn from(_: Failed) -> JudgeFault {
        JudgeFault::Fault
    }
}

impl From<SoundKind> for JudgeFault {
    ghost use Rattle.std.specs.Prelude.{◌≡◌};
    ghost use Rattle.soundness.specs.declared.judging.JudgeFault.TheVariants as faults;

    ghost from_gives = { λ kind fault. fault ≡ faults.NotSound kind };

    fn from(kind: SoundKind) -> JudgeFault {
        JudgeFault::NotSound(kind)
    }
}

/// A sound board: its table, the copy that it was read from, and its variables.
#[derive(Drop)]
pub struct Sound {
    pub table: Table,
    pub copy: Which,
    pub vars: BootVars,
}

/// Tests the entries of a disk's table, and ONIE's image. It only reads.
///
/// `NotSound` with the first test that fails of `Entries`, `NoOnie`, `TwoOnie` and `NoImage`. `Fault` where the plant
/// fails.
pub fn judge_table<P: Plant>(plant: &mut P, table: &Table) -> Result<(), JudgeFault>
    requires { FitsDisk ((P.view plant.old).size Disk - 1) table.now }
    ensures sound { (P.view plant.old).tells → IfOk result (λ _. IsSoundTable ((P.view plant.old).reads Disk) table.now) }
    ensures sane { IfOk result (λ _. IsSane table.now) }
    ensures unsound { (P.view plant.old).tells → (kind : SoundKind) → result ≡ Err (JudgeFault.NotSound kind) → IsTableFault (P.view plant.old).size (P.view plant.old).reads table.now kind }
    ensures no_variables { result ≢ Err (JudgeFault.NotSound SoundKind.NoVars) }
    ensures looks { Looks (P.view plant.old) (P.view plant.new) }
    ensures cause { HasCauseOr JudgeFault.Fault (P.view plant.old).faults (P.view plant.new).faults result }
{
    if !sane(table) {
        return Err(JudgeFault::NotSound(SoundKind::Entries));
    }
    let onie = onie_entry(table)?;
    if !holds_image(plant, onie)? {
        return Err(JudgeFault::NotSound(SoundKind::NoImage));
    }
    Ok(())
}

/// Whether a table has exactly one entry of ONIE's type, and that one holds an image. It only reads. `Failed` where the
/// plant fails.
pub fn has_onie_image<P: Plant>(plant: &mut P, table: &Table) -> Result<bool, Failed>
    requires fits { FitsDisk ((P.view plant.old).size Disk - 1) table.now }
    requires sane { IsSane table.now }
    ensures judged { (P.view plant.old).tells → IfOk result (λ r. IsTrue r ↔ HoldsOnie ((P.view plant.old).reads Disk) table.now) }
    ensures looks { Looks (P.view plant.old) (P.view plant.new) }
    ensures cause { HasCause (P.view plant.old).faults (P.view plant.new).faults result }
{
    match onie_entry(table) {
        Ok(onie) => Ok(holds_image(plant, onie)?),
        Err(_) => Ok(false),
    }
}

/// The variables, or None where there are none that can be read. It only reads. `Failed` where the plant fails.
pub fn open_vars<P: Plant>(plant: &mut P) -> Result<Option<BootVars>, Failed>
    ensures held { (P.view plant.old).tells → IfOk result (MayHold ((P.view plant.old).size Flash) ((P.view plant.old).reads Flash)) }
    ensures fits { IfOk result (λ vars. IfSome vars (FitsVars (P.view plant.new))) }
    ensures looks { Looks (P.view plant.old) (P.view plant.new) }
    ensures cause { HasCause (P.view plant.old).faults (P.view plant.new).faults result }
{
    match BootVars::open(plant) {
        Ok(vars) => Ok(Some(vars)),
        Err(VarsFault::NoSlot) => Ok(None),
        Err(VarsFault::BadLine { .. }) => Ok(None),
        Err(VarsFault::Fault) => Err(Failed),
    }
}

/// The disk's table, and the copy that it was read from.
fn find_table<P: Plant>(plant: &mut P) -> Result<(Table, Which), JudgeFault>
    ensures found { (P.view plant.old).tells → IfOk result
        (λ r. found ((P.view plant.old).size Disk) ((P.view plant.old).reads Disk) ≡ Some (record { table = r.0; copy = r.1 })) }
    ensures none { (kind : SoundKind) → (P.view plant.old).tells → result ≡ Err (JudgeFault.NotSound kind)
        → (kind ≡ SoundKind.NoTable) × (found ((P.view plant.old).size Disk) ((P.view plant.old).reads Disk) ≡ None) }
    ensures fits { IfOk result (λ r. FitsDisk ((P.view plant.old).size Disk - 1) r.0) }
    ensures looks { Looks (P.view plant.old) (P.view plant.new) }
    ensures cause { HasCauseOr JudgeFault.Fault (P.view plant.old).faults (P.view plant.new).faults result }
{
    match look(plant) {
        Ok(found) => Ok(found),
        Err(GptFault::NoTable) => Err(JudgeFault::NotSound(SoundKind::NoTable)),
        Err(GptFault::Fault) => Err(JudgeFault::Fault),
    }
}

/// Reads the variables and the table of a board, and tests whether it is sound. It only reads.
///
/// `NotSound` with the first test that fails, in the order of [`SoundKind`]: a readable table, its entries, one of ONIE's
/// type and no more, an image in it, readable variables. `Fault` where the plant fails.
pub fn judge<P: Plant>(plant: &mut P) -> Result<Sound, JudgeFault>
    ensures sound { (P.view plant.old).tells → IfOk result (IsJudged (P.view plant.old).size (P.view plant.old).reads) }
    ensures unsound { (kind : SoundKind) → (P.view plant.old).tells → result ≡ Err (JudgeFault.NotSound kind)
        → IsUnsound (P.view plant.old).size (P.view plant.old).reads kind }
    ensures exact { (kind : SoundKind) → (P.view plant.old).tells → IsUnsound (P.view plant.old).size (P.view plant.old).reads kind
        → (result ≡ Err (JudgeFault.NotSound kind)) ⊎ (result ≡ Err JudgeFault.Fault) }
    ensures looks { Looks (P.view plant.old) (P.view plant.new) }
    ensures cause { HasCauseOr JudgeFault.Fault (P.view plant.old).faults (P.view plant.new).faults result }
{
    let vars = open_vars(plant)?;
    let (table, copy) = find_table(plant)?;
    if let Err(fault) = judge_table(plant, &table) {
        return Err(fault);
    }
    match vars {
        Some(vars) => Ok(Sound { table, copy, vars }),
        None => Err(JudgeFault::NotSound(SoundKind::NoVars)),
    }
}

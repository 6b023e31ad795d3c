//! `set` and `unset`: changes of the boot variables.

ghost use Rattle.std.specs.Prelude.{◌≡◌, ◌≢◌, Err, IfOk};
ghost use Rattle.bd_dev.specs.declared.plant.Area.TheVariants.{Flash};
ghost use Rattle.bd_dev.specs.Faults.{HasCauseOr};
ghost use Rattle.boot_vars.specs.Setting.{IsDurable};
ghost use Rattle.onie_modes.specs.Devices.{Devices, with_plant};
ghost use Rattle.onie_modes.specs.Running.{Runs};
ghost use Rattle.onie_cli.specs.Set.{IsSettled, changes_flash, set_change, unchanged_of, unopened_of, unset_change};
ghost use Rattle.slot_model.specs.Slots.{Stored};
ghost use Rattle.storage_model.specs.Variables.{HoldsVariables, IsText};

use bd_dev::{Area, Plant};
use boot_vars::{BootVars, VarFault, VarsFault};
use onie_modes::{Outcome, RefusedKind, Status};
use soundness::SoundKind;

/// Why a flash holds no variables, as the status that says so.
fn unopened(fault: VarsFault) -> Status
    ensures { result ≡ unopened_of fault }
{
    match fault {
        VarsFault::NoSlot | VarsFault::BadLine { .. } => Status::NotSound(SoundKind::NoVars),
        VarsFault::Fault => Status::PlantFault,
    }
}

/// Syncs the flash and opens its variables.
fn open_synced<P: Plant>(plant: &mut P) -> Result<BootVars, VarsFault>
    ensures settled { IsSettled (P.view plant.old) (P.view plant.new) }
    ensures durable { IfOk result (λ vars. IsDurable (P.view plant.new) vars) }
    ensures lines { IfOk result (λ vars. IsText vars.text) }
    ensures held { (P.view plant.old).tells → IfOk result (λ vars. HoldsVariables ((P.view plant.old).size Flash)
        ((P.view plant.old).reads Flash) (record { number = vars.pair.number; content = vars.text })) }
    ensures none { (kept : Stored) (fault : VarsFault) → (P.view plant.old).tells → result ≡ Err fault
        → fault ≢ VarsFault.Fault → ¬ HoldsVariables ((P.view plant.old).size Flash) ((P.view plant.old).reads Flash) kept }
    ensures cause { HasCauseOr VarsFault.Fault (P.view plant.old).faults (P.view plant.new).faults result }
{
    match plant.sync(Area::Flash) {
        Ok(()) => {}
        Err(_) => return Err(VarsFault::Fault),
    }
    BootVars::open(plant)
}

/// The status of a change that a fault ended.
fn unchanged(fault: VarFault) -> Status
    ensures { result ≡ unchanged_of fault }
{
    match fault {
        VarFault::BadName => Status::Refused(RefusedKind::BadName),
        VarFault::BadText => Status::Refused(RefusedKind::BadText),
        VarFault::VarsFull => Status::Refused(RefusedKind::VarsFull),
        VarFault::SeqEnd => Status::Refused(RefusedKind::SeqEnd),
        VarFault::Fault => Status::PlantFault,
    }
}

/// Gives a boot variable a value. It syncs the flash first, and takes no memory.
pub(crate) fn set_variable<P: Plant>(plant: &mut P, name: &[u8], value: &[u8]) -> Status
    ensures runs { (d : Devices) → Runs (changes_flash (set_change (record { name = name.now; value = value.now })) (P.view plant.old) (P.view plant.new))
        (with_plant d (P.view plant.old).faults) (with_plant d (P.view plant.new).faults) result }
{
    let mut vars = match open_synced(plant) {
        Ok(vars) => vars,
        Err(fault) => return unopened(fault),
    };
    match vars.set(plant, name, value) {
        Ok(()) => Status::Done(Outcome::Stored),
        Err(fault) => unchanged(fault),
    }
}

/// Takes out a boot variable, if there is one of this name. It syncs the flash first, and takes no memory.
pub(crate) fn unset_variable<P: Plant>(plant: &mut P, name: &[u8]) -> Status
    ensures runs { (d : Devices) → Runs (changes_flash (unset_change name.now) (P.view plant.old) (P.view plant.new))
        (with_plant d (P.view plant.old).faults) (with_plant d (P.view plant.new).faults) result }
{
    let mut vars = match open_synced(plant) {
        Ok(vars) => vars,
        Err(fault) => return unopened(fault),
    };
    match vars.unset(plant, name) {
        Ok(()) => Status::Done(Outcome::Stored),
        Err(fault) => unchanged(fault),
    }
}

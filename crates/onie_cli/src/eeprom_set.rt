//! `eeprom set`: one field of the EEPROM changed, and the fields stored.

ghost use Rattle.std.specs.Prelude.{◌≡◌, List, Err, IfErr, OnOk};
ghost use Rattle.tlvinfo.specs.TlvInfo.{Field};
ghost use Rattle.onie_modes.specs.Devices.{Devices, seen, with_eeprom};
ghost use Rattle.onie_modes.specs.Running.{Runs};
ghost use Rattle.onie_cli.specs.EepromSet.{Changes, IsRefusedChange, IsStorable, sets_field};

use bd_dev::Eeprom;
use onie_modes::{Outcome, RefusedKind, Status, load_info};
use std::alloc::Global;
use tlv_text::parse_value;
use tlvinfo::{Info, SetFault, encode};

/// The code of the checksum's field.
const CHECKSUM: u8 = 0xfe;

/// Why a field is not set.
enum NoChange {
    /// It can't be.
    Refused(RefusedKind),
    /// There is no memory.
    Memory,
}

/// Sets the field of the code to the value that the text spells.
fn set_text(info: &mut Info, code: u8, text: &[u8]) -> Result<(), NoChange>
    ensures changed { OnOk result (IsStorable code text.now info.old info.new) }
    ensures only { OnOk result ((changed : List Field) → Changes code text.now info.old changed → changed ≡ info.new) }
    ensures refused { (kind : RefusedKind) → result ≡ Err (NoChange.Refused kind) → IsRefusedChange code text.now info.old kind }
    ensures exact { IfErr result (λ fault. (changed : List Field) → IsStorable code text.now info.old changed → fault ≡ NoChange.Memory) }
{
    if code == CHECKSUM {
        return Err(NoChange::Refused(RefusedKind::BadCode));
    }
    let Some(value) = parse_value(code, text) else {
        return Err(NoChange::Refused(RefusedKind::BadValue));
    };
    match info.set(code, &value) {
        Ok(()) => Ok(()),
        Err(SetFault::BadCode) => Err(NoChange::Refused(RefusedKind::BadCode)),
        Err(SetFault::BadValue) => Err(NoChange::Refused(RefusedKind::BadValue)),
        Err(SetFault::TooLong) => Err(NoChange::Refused(RefusedKind::TooLong)),
        Err(SetFault::Memory) => Err(NoChange::Memory),
    }
}

/// Changes one field of the EEPROM, and stores the fields; the line of its end is not written yet.
pub(crate) fn set_field<E: Eeprom>(alloc: Global, eeprom: &mut E, code: u8, text: &[u8]) -> Status
    ensures runs { (d : Devices) → Runs (sets_field code text.now)
        (with_eeprom d (seen (E.content eeprom.old) (E.faults eeprom.old)))
        (with_eeprom d (seen (E.content eeprom.new) (E.faults eeprom.new))) result }
{
    let mut info = match load_info(alloc, eeprom) {
        Ok(info) => info,
        Err(fault) => return fault.status(),
    };
    match set_text(&mut info, code, text) {
        Ok(()) => {}
        Err(NoChange::Refused(kind)) => return Status::Refused(kind),
        Err(NoChange::Memory) => return Status::Memory,
    }
    let mut bytes = [0u8; 2048];
    let Ok(size) = encode(&info, &mut bytes) else {
        return Status::Refused(RefusedKind::TooLong);
    };
    match eeprom.store(&bytes[..size]) {
        Ok(()) => Status::Done(Outcome::Stored),
        Err(_) => Status::EepromFault,
    }
}

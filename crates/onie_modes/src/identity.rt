//! What an EEPROM holds: its fields, and the board that they identify.

ghost use Rattle.std.specs.Prelude.{◌≡◌, ◌≤◌, ℕ, List, length, Err, IfOk};
ghost use Rattle.std.specs.Option.{ForSome};
ghost use Rattle.bd_dev.specs.Faults.{HasCauseOr};
ghost use Rattle.tlvinfo.specs.Identity.{Board};
ghost use Rattle.tlvinfo.specs.TlvInfo.{Tlv};
ghost use Rattle.tlvinfo.specs.IdentityView.{board_of};
ghost use Rattle.onie_modes.specs.Identity.{HoldsBoard, IsRefused, IsTlv, IsUnreadable, load_status};

use crate::exit::{EepromKind, Status};
use bd_dev::Eeprom;
use std::alloc::Global;
use tlvinfo::{Identity, Info, TlvFault, decode, identity};

/// Why an EEPROM gives no fields, or no identity.
#[derive(Clone, Copy, Debug, PartialEq, Eq)]
pub enum LoadFault {
    /// It failed, and counted it.
    Failed,
    /// There is no memory.
    Memory,
    /// Its bytes hold none.
    Bad(EepromKind),
}

impl LoadFault {
    /// The status of a call that ends for it.
    pub fn status(self) -> Status
        ensures { result ≡ load_status self }
    {
        match self {
            LoadFault::Failed => Status::EepromFault,
            LoadFault::Memory => Status::Memory,
            LoadFault::Bad(kind) => Status::BadEeprom(kind),
        }
    }
}

/// The fields that the EEPROM holds. It only reads, and answers `Bad` by the first fault in the bytes.
pub fn load_info<E: Eeprom>(alloc: Global, eeprom: &mut E) -> Result<Info, LoadFault>
    ensures found { IfOk result (λ fields. ForSome (E.content eeprom.old) (λ bytes. Tlv bytes fields)) }
    ensures small { IfOk result (λ fields. length fields ≤ 2048) }
    ensures refused { (kind : EepromKind) → result ≡ Err (LoadFault.Bad kind) → ForSome (E.content eeprom.old) (λ bytes. IsUnreadable bytes kind) }
    ensures tlv { (kind : EepromKind) → result ≡ Err (LoadFault.Bad kind) → IsTlv kind }
    ensures kept { E.content eeprom.new ≡ E.content eeprom.old }
    ensures cause { HasCauseOr LoadFault.Failed (E.faults eeprom.old) (E.faults eeprom.new) result }
{
    let mut bytes = [0u8; 2048];
    let length = match eeprom.load(&mut bytes) {
        Ok(length) => length,
        Err(_) => return Err(LoadFault::Failed),
    };
    match decode(alloc, &bytes[..length]) {
        Ok(info) => Ok(info),
        Err(TlvFault::Memory) => Err(LoadFault::Memory),
        Err(TlvFault::Bad(kind)) => Err(LoadFault::Bad(EepromKind::Tlv(kind))),
    }
}

/// The identity that the EEPROM holds. It only reads, and answers `Bad` by the first fault in the bytes.
pub fn load_identity<E: Eeprom>(alloc: Global, eeprom: &mut E) -> Result<Identity, LoadFault>
    ensures found { IfOk result (λ i. ForSome (E.content eeprom.old) (λ bytes. HoldsBoard bytes (board_of i))) }
    ensures only { IfOk result (λ i. ForSome (E.content eeprom.old) (λ bytes. (board : Board) → HoldsBoard bytes board → board_of i ≡ board)) }
    ensures refused { (kind : EepromKind) → result ≡ Err (LoadFault.Bad kind) → ForSome (E.content eeprom.old) (λ bytes. IsRefused bytes kind) }
    ensures kept { E.content eeprom.new ≡ E.content eeprom.old }
    ensures cause { HasCauseOr LoadFault.Failed (E.faults eeprom.old) (E.faults eeprom.new) result }
{
    let info = load_info(alloc, eeprom)?;
    match identity(&info) {
        Ok(identity) => Ok(identity),
        Err(fault) => Err(LoadFault::Bad(EepromKind::Ident(fault))),
    }
}

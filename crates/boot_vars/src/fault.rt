//! How the opening of the variables and their changes fail.

ghost use Rattle.std.specs.Prelude.{◌≡◌};
ghost use Rattle.boot_vars.specs.Opening.{of_slot_fault};
ghost use Rattle.boot_vars.specs.Setting.{of_put_fault};
ghost use Rattle.boot_vars.specs.declared.fault.VarsFault.TheVariants.{Fault};

use bd_dev::Failed;
use slot_pair::{PutFault, SlotFault};
use thiserror::Error;

/// Why there are no variables.
#[derive(Clone, Copy, Debug, PartialEq, Eq, Error)]
pub enum VarsFault {
    /// Neither slot is open, or the flash is too small for them.
    #[error("no open slot")]
    NoSlot,
    /// The first line that is none of a variable, or of one whose name came before, begins at this byte of the content.
    #[error("bad line at {at}")]
    BadLine { at: u32 },
    /// The device failed, and counted it.
    #[error("the device failed")]
    Fault,
}

impl From<SlotFault> for VarsFault {
    ghost from_gives = { λ fault e. e ≡ of_slot_fault fault };

    fn from(fault: SlotFault) -> VarsFault {
        match fault {
            SlotFault::NoSlot => VarsFault::NoSlot,
            SlotFault::Fault => VarsFault::Fault,
        }
    }
}

impl From<Failed> for VarsFault {
    ghost from_gives = { λ _ e. e ≡ Fault };

    fn from(_failed: Failed) -> VarsFault {
        VarsFault::Fault
    }
}

/// Why a variable is not changed.
#[derive(Clone, Copy, Debug, PartialEq, Eq, Error)]
pub enum VarFault {
    /// The name is not 1 to 64 letters, digits or `_`.
    #[error("bad name")]
    BadName,
    /// The value has a byte that is not printable ASCII.
    #[error("bad text")]
    BadText,
    /// The text of the variables would pass 8,180 bytes.
    #[error("variables full")]
    VarsFull,
    /// The number of the current slot is the greatest one.
    #[error("sequence end")]
    SeqEnd,
    /// The device failed, and counted it.
    #[error("the device failed")]
    Fault,
}

impl From<PutFault> for VarFault {
    ghost from_gives = { λ fault e. e ≡ of_put_fault fault };

    fn from(fault: PutFault) -> VarFault {
        match fault {
            PutFault::TooLong => VarFault::VarsFull,
            PutFault::SeqEnd => VarFault::SeqEnd,
            PutFault::Fault => VarFault::Fault,
        }
    }
}

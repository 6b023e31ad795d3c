//! How the calls on a pair fail.

use bd_dev::Failed;
use thiserror::Error;

/// Why no pair is opened.
#[derive(Clone, Copy, Debug, PartialEq, Eq, Error)]
pub enum SlotFault {
    /// Neither slot is open, or the area is too small for the pair.
    #[error("no open slot")]
    NoSlot,
    /// The device failed, and counted it.
    #[error("the device failed")]
    Fault,
}

/// Why a content is not put into a pair.
#[derive(Clone, Copy, Debug, PartialEq, Eq, Error)]
pub enum PutFault {
    /// The content has more bytes than a slot has room for, which are 512 N - 12.
    #[error("the content is too long for a slot")]
    TooLong,
    /// The current slot has the greatest number that there is, so none is left for the next.
    #[error("no number is left")]
    SeqEnd,
    /// The device failed, and counted it.
    #[error("the device failed")]
    Fault,
}

impl From<Failed> for SlotFault {
    ghost use Rattle.std.specs.Prelude.{◌≡◌};
    ghost use Rattle.slot_pair.specs.declared.fault.SlotFault.TheVariants as faults;

    ghost from_gives = { λ _ fault. fault ≡ faults.Fault };

    fn from(_failed: Failed) -> SlotFault {
        SlotFault::Fault
    }
}

impl From<Failed> for PutFault {
    ghost use Rattle.std.specs.Prelude.{◌≡◌};
    ghost use Rattle.slot_pair.specs.declared.fault.PutFault.TheVariants as faults;

    ghost from_gives = { λ _ fault. fault ≡ faults.Fault };

    fn from(_failed: Failed) -> PutFault {
        PutFault::Fault
    }
}

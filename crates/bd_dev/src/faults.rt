//! How a device's call fails.

use crate::bytes::Memory;
use thiserror::Error;

/// The device failed, and counted it.
#[derive(Clone, Copy, Debug, PartialEq, Eq, Error)]
#[error("the device failed")]
pub struct Failed;

/// How a device's call fails that also takes memory.
#[derive(Clone, Copy, Debug, PartialEq, Eq, Error)]
pub enum DevFault {
    /// The device failed, and counted it.
    #[error("the device failed")]
    Failed,
    /// Want of memory, which no device counts.
    #[error("out of memory")]
    Memory,
}

impl From<Failed> for DevFault {
    ghost use Rattle.std.specs.Prelude.{◌≡◌};
    ghost use Rattle.bd_dev.specs.declared.faults.DevFault.TheVariants as faults;

    ghost from_gives = { λ _ e. e ≡ faults.Failed };

    fn from(_failed: Failed) -> DevFault {
        DevFault::Failed
    }
}

impl From<Memory> for DevFault {
    ghost use Rattle.std.specs.Prelude.{◌≡◌};
    ghost use Rattle.bd_dev.specs.declared.faults.DevFault.TheVariants as faults;

    ghost from_gives = { λ _ e. e ≡ faults.Memory };

    fn from(_memory: Memory) -> DevFault {
        DevFault::Memory
    }
}

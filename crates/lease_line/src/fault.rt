//! What is wrong with a word of a line.

ghost use Rattle.std.specs.Prelude.{◌≡◌};
ghost use Rattle.lease_line.specs.declared.fault.KeyFault.TheVariants as faults;

use bd_dev::Memory;
use thiserror::Error;

/// What is wrong with a word.
#[derive(Clone, Copy, Debug, PartialEq, Eq, Error)]
pub enum KeyFault {
    /// It has no `=`, or its key is none that a line has.
    #[error("unknown")]
    Unknown,
    /// An address is none.
    #[error("address")]
    Address,
    /// The values of one option come to more than 255 bytes.
    #[error("text long")]
    TextLong,
    /// Memory ran out.
    #[error("out of memory")]
    Memory,
}

impl From<Memory> for KeyFault {
    ghost from_gives = { λ _ fault. fault ≡ faults.Memory };

    fn from(_memory: Memory) -> KeyFault {
        KeyFault::Memory
    }
}

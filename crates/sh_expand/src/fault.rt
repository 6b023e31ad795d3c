//! What an expansion ends in.

use bd_dev::Memory;

/// Why there is no expansion.
#[derive(Clone, Copy, Debug, PartialEq, Eq)]
pub enum ExpandFault {
    /// An expansion error (POSIX.1-2017, Shell Command Language, 2.8.1).
    Bad,
    /// A text would pass its limit.
    TextLong,
    Memory,
}

impl From<Memory> for ExpandFault {
    ghost use Rattle.std.specs.Prelude.{◌≡◌};
    ghost use Rattle.sh_expand.specs.declared.fault.ExpandFault.TheVariants as faults;

    ghost from_gives = { λ _ fault. fault ≡ faults.Memory };

    fn from(_memory: Memory) -> ExpandFault {
        ExpandFault::Memory
    }
}

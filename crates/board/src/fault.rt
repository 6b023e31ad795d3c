//! Why a board was not changed.

ghost use Rattle.std.specs.Prelude.{◌≡◌};
ghost use Rattle.board.specs.Changes.{of_var_fault};

use boot_vars::VarFault;
use thiserror::Error;

/// Why a board was not changed. But for `Fault` nothing was done.
#[derive(Clone, Copy, Debug, PartialEq, Eq, Error)]
pub enum BoardFault {
    /// The sectors pass the disk's end.
    #[error("range")]
    Range,
    /// The sectors touch a copy of the table.
    #[error("on the table")]
    OnTable,
    /// The name is not 1 to 64 letters, digits or `_`.
    #[error("bad name")]
    BadName,
    /// The value has a byte that is not printable ASCII.
    #[error("bad text")]
    BadText,
    /// The text of the variables would pass 8,180 bytes.
    #[error("variables full")]
    VarsFull,
    /// The number of the variables is the greatest one.
    #[error("sequence end")]
    SeqEnd,
    /// The plant failed: the board has failed.
    #[error("plant fault")]
    Fault,
    /// Want of memory.
    #[error("out of memory")]
    Memory,
}

impl From<VarFault> for BoardFault {
    ghost from_gives = { λ fault e. e ≡ of_var_fault fault };

    fn from(fault: VarFault) -> BoardFault {
        match fault {
            VarFault::BadName => BoardFault::BadName,
            VarFault::BadText => BoardFault::BadText,
            VarFault::VarsFull => BoardFault::VarsFull,
            VarFault::SeqEnd => BoardFault::SeqEnd,
            VarFault::Fault => BoardFault::Fault,
        }
    }
}

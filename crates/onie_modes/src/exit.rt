//! How a call ends: the statuses, and the program's exit status for each.

ghost use Rattle.std.specs.Prelude.{◌≡◌};
ghost use Rattle.onie_modes.specs.Exit.{number_of};

use net_script::ScriptKind;
use soundness::SoundKind;
use thiserror::Error;
use tlvinfo::{IdentFault, TlvKind};

/// What a call did that succeeded.
#[derive(Clone, Copy, Debug, PartialEq, Eq)]
pub enum Outcome {
    /// It printed what was asked for.
    Printed,
    /// It stored what was asked for.
    Stored,
}

/// Why an EEPROM holds no identity.
#[derive(Clone, Copy, Debug, PartialEq, Eq, Error)]
pub enum EepromKind {
    /// Its bytes are no TlvInfo data.
    #[error("{0}")]
    Tlv(TlvKind),
    /// Its fields identify no board.
    #[error("{0}")]
    Ident(IdentFault),
}

/// Why a change was refused.
#[derive(Clone, Copy, Debug, PartialEq, Eq)]
pub enum RefusedKind {
    /// The name is not 1 to 64 letters, digits or `_`.
    BadName,
    /// The value is not printable ASCII.
    BadText,
    /// The text of the variables would pass 8,180 bytes.
    VarsFull,
    /// No number is left for a put of the variables.
    SeqEnd,
    /// The code is that of the checksum, which is computed.
    BadCode,
    /// The text spells no value of the code.
    BadValue,
    /// The whole would pass 2,048 bytes.
    TooLong,
}

/// How a call ended.
#[derive(Clone, Copy, Debug, PartialEq, Eq)]
pub enum Status {
    /// It did what the words say.
    Done(Outcome),
    /// The words are no command.
    Usage,
    /// The board is not sound.
    NotSound(SoundKind),
    /// The EEPROM holds no identity.
    BadEeprom(EepromKind),
    /// The script of the network is none: its first wrong line, counted from 1, or 0 for a script that is too long, and
    /// what is wrong with it.
    BadScript { line: u32, kind: ScriptKind },
    /// The plant, the disk and the flash, counted a fault.
    PlantFault,
    /// The EEPROM counted a fault.
    EepromFault,
    /// The media counted a fault.
    MediaFault,
    /// The source of the script counted a fault.
    SourceFault,
    /// The console or the trace counted a fault.
    SinkFault,
    /// The change that the words ask for was refused.
    Refused(RefusedKind),
    /// Memory ran out.
    Memory,
}

impl Status {
    /// The exit status of a program that ends with this status.
    pub fn number(&self) -> u8
        ensures { result ≡ number_of self.now }
    {
        match self {
            Status::Done(_) => 0,
            Status::Usage => 2,
            Status::NotSound(_) => 3,
            Status::BadEeprom(_) => 4,
            Status::BadScript { .. } => 5,
            Status::PlantFault => 6,
            Status::EepromFault => 7,
            Status::MediaFault => 8,
            Status::SourceFault => 9,
            Status::SinkFault => 10,
            Status::Refused(_) => 12,
            Status::Memory => 13,
        }
    }
}

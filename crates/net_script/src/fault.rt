//! How the reading of a script, and of what it serves, fails.

ghost use Rattle.std.specs.Prelude.{◌≡◌};
ghost use Rattle.net_script.specs.declared.fault.LineFault.TheVariants.{Bad, Memory as LineMemory};
ghost use Rattle.net_script.specs.declared.fault.ScriptFault.TheVariants.{Media, Memory as ScriptMemory};

use bd_dev::{DevFault, Failed, Memory};
use std::alloc::{AllocError, AllocFailed};
use thiserror::Error;

/// What is wrong with a line.
#[derive(Clone, Copy, Debug, PartialEq, Eq, Error)]
pub enum ScriptKind {
    /// The script has more than 16,777,216 bytes. Its line is 0.
    #[error("too long")]
    TooLong,
    /// The first word, or what comes of an `at` line, is no word of the language.
    #[error("unknown")]
    Unknown,
    /// The line has too few words.
    #[error("missing")]
    Missing,
    /// The line has too many words.
    #[error("extra")]
    Extra,
    /// A round, a time or a port is no decimal number of its range.
    #[error("number")]
    Number,
    /// Bytes are neither an even number of hexadecimal digits nor `-`.
    #[error("hex")]
    Hex,
    /// An address is none, or a server has no port.
    #[error("address")]
    Address,
    /// An interface's name is wrong or stands twice, or it is the ninth.
    #[error("iface")]
    Iface,
    /// An `at` line stands before any `flow` line.
    #[error("no flow")]
    NoFlow,
    /// The volume `net` lacks the file that is to be served, or the file has more than 268,435,456 bytes.
    #[error("no body")]
    NoBody,
}

/// Why there is no script, or no network that plays it.
#[derive(Clone, Copy, Debug, PartialEq, Eq, Error)]
pub enum ScriptFault {
    /// The first wrong line, counted from 1, and what is wrong with it.
    #[error("line {line}: {kind}")]
    Bad { line: u32, kind: ScriptKind },
    /// The media failed, and counted it.
    #[error("the media failed")]
    Media,
    /// There is no memory.
    #[error("out of memory")]
    Memory,
}

impl From<Memory> for ScriptFault {
    ghost from_gives = { λ _ fault. fault ≡ ScriptMemory };

    fn from(_memory: Memory) -> ScriptFault {
        ScriptFault::Memory
    }
}

impl From<AllocError> for ScriptFault {
    ghost from_gives = { λ _ fault. fault ≡ ScriptMemory };

    fn from(_error: AllocError) -> ScriptFault {
        ScriptFault::Memory
    }
}

impl From<Failed> for ScriptFault {
    ghost from_gives = { λ _ fault. fault ≡ Media };

    fn from(_failed: Failed) -> ScriptFault {
        ScriptFault::Media
    }
}

impl From<DevFault> for ScriptFault {
    ghost use Rattle.net_script.specs.Serving.{media_fault};

    ghost from_gives = { λ device fault. fault ≡ media_fault device };

    fn from(fault: DevFault) -> ScriptFault {
        match fault {
            DevFault::Failed => ScriptFault::Media,
            DevFault::Memory => ScriptFault::Memory,
        }
    }
}

/// Why a line is not read.
#[derive(Clone, Copy)]
pub(crate) enum LineFault {
    /// It is wrong.
    Bad(ScriptKind),
    /// There is no memory.
    Memory,
}

impl From<ScriptKind> for LineFault {
    ghost from_gives = { λ kind fault. fault ≡ Bad kind };

    fn from(kind: ScriptKind) -> LineFault {
        LineFault::Bad(kind)
    }
}

impl From<Memory> for LineFault {
    ghost from_gives = { λ _ fault. fault ≡ LineMemory };

    fn from(_memory: Memory) -> LineFault {
        LineFault::Memory
    }
}

//! What a fetch gives, and how it fails.

use bd_dev::{Bytes, Memory};
use flow::FlowFault;
use tftp_client::TftpMiss;
use thiserror::Error;

/// Why a candidate gives no body.
#[derive(Clone, Copy, Debug, PartialEq, Eq, Error)]
pub enum Miss {
    /// There is no such file.
    #[error("no file")]
    NoFile,
    /// The file ended early: the bytes that were found at first, and those that were read.
    #[error("short: {got} of {want} bytes")]
    Short { want: u64, got: u64 },
    /// The URL is none, or names no file that can be asked for.
    #[error("bad URL")]
    BadUrl,
    /// The URL's scheme is not one that is fetched over.
    #[error("scheme")]
    Scheme,
    /// The host is a name, and there is no name server.
    #[error("no name server")]
    NoServer,
    /// The transfer over TFTP gives none.
    #[error("{0}")]
    Tftp(TftpMiss),
    /// The file has more than 33,554,432 bytes.
    #[error("too large")]
    TooLarge,
}

/// What a fetch gives.
#[derive(Drop)]
pub enum Fetched {
    /// The whole body.
    Body(Bytes),
    /// None.
    Miss(Miss),
}

/// How a fetch fails.
#[derive(Clone, Copy, Debug, PartialEq, Eq, Error)]
pub enum FetchFault {
    /// The media failed, and counted it.
    #[error("the media failed")]
    Media,
    /// The network failed, and counted it.
    #[error("the network failed")]
    Net,
    /// The trace's sink failed, and counted it.
    #[error("the trace failed")]
    Sink,
    /// There is no memory.
    #[error("out of memory")]
    Memory,
}

impl From<Memory> for FetchFault {
    ghost use Rattle.std.specs.Prelude.{◌≡◌};
    ghost use Rattle.find_fetch.specs.declared.fetched.FetchFault.TheVariants as faults;

    ghost from_gives = { λ _ e. e ≡ faults.Memory };

    fn from(_memory: Memory) -> FetchFault {
        FetchFault::Memory
    }
}

impl From<FlowFault> for FetchFault {
    ghost use Rattle.std.specs.Prelude.{◌≡◌};
    ghost use Rattle.find_fetch.specs.Faults.{fault_of};

    ghost from_gives = { λ f e. e ≡ fault_of f };

    fn from(fault: FlowFault) -> FetchFault {
        match fault {
            FlowFault::Net => FetchFault::Net,
            FlowFault::Memory => FetchFault::Memory,
        }
    }
}

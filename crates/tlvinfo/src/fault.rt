//! Why bytes are no TlvInfo data, why fields identify no board, and why they are not written or changed.

ghost use Rattle.std.specs.Prelude.{◌≡◌};
ghost use Rattle.tlvinfo.specs.declared.fault.TlvFault.TheVariants.{Memory, Bad};
ghost use Rattle.tlvinfo.specs.declared.fault.SetFault.TheVariants as set_faults;

use std::alloc::{AllocError, AllocFailed};
use thiserror::Error;

/// The first fault in the bytes, from left to right. Places and lengths count bytes, places from the first byte.
#[derive(Clone, Copy, Debug, PartialEq, Eq, Error)]
pub enum TlvKind {
    /// Fewer bytes than a header has, or other ones than `TlvInfo` and a zero at its front.
    #[error("no TlvInfo header")]
    NotTlv,
    /// A format version other than 1.
    #[error("format version {0}")]
    Version(u8),
    /// The total length passes the limit of 2,037 or the bytes after the header. `given` counts all bytes.
    #[error("total length {total} in {given} bytes")]
    Length { total: u32, given: u64 },
    /// The field at this place passes the total length.
    #[error("the field at {at} is cut off")]
    Cut { at: u32 },
    /// The value of a known code has a length that the code doesn't allow.
    #[error("a value of {length} bytes for code {code:02x}")]
    BadLength { code: u8, length: u8 },
    /// A code that may stand once stands again.
    #[error("code {code:02x} stands twice")]
    Repeated { code: u8 },
    /// Bytes follow the checksum within the total length, the first of them at this place.
    #[error("bytes after the checksum, from {at} on")]
    AfterCrc { at: u32 },
    /// No checksum ends the fields.
    #[error("no checksum")]
    NoCrc,
    /// The checksum that is kept is not the one that the bytes have.
    #[error("checksum {kept:08x} in place of {computed:08x}")]
    Crc { kept: u32, computed: u32 },
}

/// Why there are no fields.
#[derive(Clone, Copy, Debug, PartialEq, Eq, Error)]
pub enum TlvFault {
    /// The bytes are no TlvInfo data.
    #[error("{0}")]
    Bad(TlvKind),
    /// Memory ran out.
    #[error("out of memory")]
    Memory,
}

impl From<TlvKind> for TlvFault {
    ghost from_gives = { λ kind fault. fault ≡ Bad kind };

    fn from(kind: TlvKind) -> TlvFault {
        TlvFault::Bad(kind)
    }
}

impl From<AllocError> for TlvFault {
    ghost from_gives = { λ _ fault. fault ≡ Memory };

    fn from(_error: AllocError) -> TlvFault {
        TlvFault::Memory
    }
}

/// Why fields identify no board. The first that applies, in this order.
#[derive(Clone, Copy, Debug, PartialEq, Eq, Error)]
pub enum IdentFault {
    /// There is no platform name.
    #[error("no platform name")]
    NoPlatform,
    /// The platform name isn't of the form `ARCH-MACHINE-rREVISION`.
    #[error("a platform name of another form")]
    Platform,
    /// There is no base MAC address.
    #[error("no base MAC address")]
    NoMac,
}

/// The whole passes 2,048 bytes.
#[derive(Clone, Copy, Debug, PartialEq, Eq, Error)]
#[error("more than 2,048 bytes")]
pub struct TooLong;

/// Why the value of a code is not set. The first that applies, in this order.
#[derive(Clone, Copy, Debug, PartialEq, Eq, Error)]
pub enum SetFault {
    /// The code is the checksum's.
    #[error("the checksum's code")]
    BadCode,
    /// The value has a length that the code doesn't allow, or more than 255 bytes.
    #[error("a value of a length that its code doesn't allow")]
    BadValue,
    /// The whole would pass 2,048 bytes.
    #[error("more than 2,048 bytes")]
    TooLong,
    /// Memory ran out.
    #[error("out of memory")]
    Memory,
}

impl<T: Drop> From<AllocFailed<T>> for SetFault {
    ghost from_gives = { λ _ fault. fault ≡ set_faults.Memory };

    fn from(_failed: AllocFailed<T>) -> SetFault {
        SetFault::Memory
    }
}

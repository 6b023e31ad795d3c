//! Why bytes are no DHCP message.

ghost use Rattle.std.specs.Prelude.{◌≡◌};
ghost use Rattle.dhcp_msg.specs.declared.fault.DhcpFault.TheVariants as faults;

use bd_dev::Memory;
use thiserror::Error;

/// Why bytes are no message: the first that applies, in this order, where the options field is read before the option
/// overload, and the `file` field before the `sname` field.
#[derive(Clone, Copy, Debug, PartialEq, Eq, Error)]
pub enum DhcpFault {
    /// Fewer than the 240 bytes of the fields of fixed size and the magic cookie.
    #[error("fewer than 240 bytes")]
    Short,
    /// Another magic cookie than 99, 130, 83, 99 (RFC 2131, section 3).
    #[error("no magic cookie")]
    NoCookie,
    /// An option's bytes pass the end of its field. Its code is the byte at this place of the message, from 0.
    #[error("the option at {at} passes the end of its field")]
    Cut { at: u64 },
    /// The option overload isn't one byte of 1 to 3 (RFC 2132, section 9.3). This is its first byte, 0 where it has
    /// none.
    #[error("an option overload of {0}")]
    Overload(u8),
    /// Memory ran out.
    #[error("out of memory")]
    Memory,
}

impl From<Memory> for DhcpFault {
    ghost from_gives = { λ _ fault. fault ≡ faults.Memory };

    fn from(_memory: Memory) -> DhcpFault {
        DhcpFault::Memory
    }
}

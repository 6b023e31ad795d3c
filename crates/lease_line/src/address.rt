//! Addresses in words.

ghost use Rattle.std.specs.Prelude.{◌≡◌, IfOk};
ghost use Rattle.lease_line.specs.Addresses.{address_in, list_in};

use bd_dev::{Bytes, Memory};
use bd_text::V4;
use std::alloc::Global;
use std::net::Ipv4Addr;

/// The address that a text is, if it is one.
pub(crate) fn read_address(text: &[u8]) -> Option<V4>
    ensures { result ≡ address_in text.now }
{
    match Ipv4Addr::parse_ascii(text) {
        Ok(address) => Some(V4 {
            bytes: address.octets(),
        }),
        Err(_) => None,
    }
}

/// The bytes of the addresses that a text is with a comma between each two, if it is so. Or answers `Memory`.
pub(crate) fn read_list(alloc: Global, text: &[u8]) -> Result<Option<Bytes>, Memory>
    ensures { IfOk result (λ list. list ≡ list_in text.now) }
{
    let mut bytes = Bytes::from_slice(alloc, b"")?;
    for part in text.split(|byte| *byte == b',') {
        let Some(address) = read_address(part) else {
            return Ok(None);
        };
        bytes.push_slice(&address.bytes)?;
    }
    Ok(Some(bytes))
}

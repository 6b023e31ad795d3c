//! Interfaces and servers, as labels show them.

ghost use Rattle.std.specs.Prelude.{◌≡◌, IfOk};
ghost use Rattle.std.specs.Fmt.{decimal};
ghost use Rattle.std.specs.List.{list_all};
ghost use Rattle.flow_labels.specs.Hosts.{is_iface_byte, is_iface_name, server_text};

use bd_dev::{Bytes, Memory};
use itoa::Buffer;
use std::alloc::Global;

/// Whether the byte is a small letter or a digit.
fn is_iface_byte(byte: u8) -> bool
    ensures { result ≡ is_iface_byte byte }
{
    byte.is_ascii_lowercase() || byte.is_ascii_digit()
}

/// Whether each byte is one of them.
fn are_iface_bytes(name: &[u8]) -> bool
    ensures { result ≡ list_all is_iface_byte name.now }
{
    name.iter().all(|byte| is_iface_byte(*byte))
}

/// Whether these are 1 to 15 small letters and digits.
#[tactic(auto, unfolding(crate::specs::Hosts::is_iface_name))]
pub fn is_iface_name(name: &[u8]) -> bool
    ensures { result ≡ is_iface_name name.now }
{
    1 <= name.len() && name.len() <= 15 && are_iface_bytes(name)
}

/// The server of labels: `HOST:PORT`, with the port in decimal digits. Or `Memory`.
pub fn server_text(alloc: Global, host: &[u8], port: u16) -> Result<Bytes, Memory>
    ensures { IfOk result (λ server. server ≡ server_text host.now port) }
{
    let mut digits = Buffer::new();
    let mut server = Bytes::from_slice(alloc, host)?;
    server.push_slice(b":")?;
    server.push_slice(digits.format(port).as_bytes())?;
    Ok(server)
}

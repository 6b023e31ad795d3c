//! The texts of labels.

ghost use Rattle.std.specs.Prelude.{◌≡◌, ◌++◌, ◌∷◌, IfOk};
ghost use Rattle.flow_labels.specs.Labels.{dhcp_label, dns_label, http_label, nbr_label, tftp_label};

use bd_dev::{Bytes, Memory};
use std::alloc::Global;

/// A text behind another.
fn joined(alloc: Global, first: &[u8], second: &[u8]) -> Result<Bytes, Memory>
    ensures { IfOk result (λ text. text ≡ first.now ++ second.now) }
{
    let mut text = Bytes::from_slice(alloc, first)?;
    text.push_slice(second)?;
    Ok(text)
}

/// Three texts, one behind the other, with a space before the last.
fn parted(alloc: Global, first: &[u8], second: &[u8], third: &[u8]) -> Result<Bytes, Memory>
    ensures { IfOk result (λ text. text ≡ first.now ++ (second.now ++ 0x20 ∷ third.now)) }
{
    let mut text = joined(alloc, first, second)?;
    text.push_slice(b" ")?;
    text.push_slice(third)?;
    Ok(text)
}

/// The label of the flow on which an interface asks for a lease (RFC 2131), `dhcp IF`, or `Memory`.
pub fn dhcp_label(alloc: Global, iface: &[u8]) -> Result<Bytes, Memory>
    ensures { IfOk result (λ label. label ≡ dhcp_label iface.now) }
{
    joined(alloc, b"dhcp ", iface)
}

/// The label of the flow on which an interface looks for its neighbours (RFC 4443), `nbr IF`, or `Memory`.
pub fn nbr_label(alloc: Global, iface: &[u8]) -> Result<Bytes, Memory>
    ensures { IfOk result (λ label. label ≡ nbr_label iface.now) }
{
    joined(alloc, b"nbr ", iface)
}

/// The label of the flow on which a name server, an IPv4 address, is asked for a host (RFC 1035), `dns SERVER HOST`, or
/// `Memory`.
pub fn dns_label(alloc: Global, server: &[u8], host: &[u8]) -> Result<Bytes, Memory>
    ensures { IfOk result (λ label. label ≡ dns_label server.now host.now) }
{
    parted(alloc, b"dns ", server, host)
}

/// The label of the flow on which a path is fetched over TFTP (RFC 1350), `tftp HOST:PORT PATH`, or `Memory`.
pub fn tftp_label(alloc: Global, server: &[u8], path: &[u8]) -> Result<Bytes, Memory>
    ensures { IfOk result (λ label. label ≡ tftp_label server.now path.now) }
{
    parted(alloc, b"tftp ", server, path)
}

/// The label of the flow on which a target is fetched over HTTP (RFC 9112), `http HOST:PORT TARGET`, or `Memory`.
pub fn http_label(alloc: Global, server: &[u8], target: &[u8]) -> Result<Bytes, Memory>
    ensures { IfOk result (λ label. label ≡ http_label server.now target.now) }
{
    parted(alloc, b"http ", server, target)
}

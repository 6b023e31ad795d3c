//! Servers in a line, as labels show them.

ghost use Rattle.std.specs.Prelude.{◌≡◌, ◌⊎◌, ◌≤◌, ◌++◌, ◌∷◌, [], ℕ, List, length, Ok, Err, IfOk, IfSome, IfNone, IsTrue, ◌↔◌};
ghost use Rattle.std.specs.List.{position_or_len};
ghost use Rattle.std.specs.Option.{IsSomeAnd};
ghost use Rattle.flow_labels.specs.Hosts.{IsZone, ShowsAddress};
ghost use Rattle.net_script.specs.Hosts.{IsParted, IsServerFault, ShowsHost, ShowsServer, SpellsZoned, is_percent};
ghost use Rattle.net_script.specs.declared.fault.LineFault.TheVariants.{Bad, Memory as LineMemory};
ghost use Rattle.net_script.specs.declared.fault.ScriptKind.{ScriptKind};

use crate::fault::{LineFault, ScriptKind};
use crate::numbers::port_in;
use bd_dev::{Bytes, Memory};
use bd_text::{V4, V6};
use flow_labels::{is_iface_name, server_text};
use memchr::memrchr;
use std::alloc::Global;

/// What stands before the last colon, and what after it.
fn parted(word: &[u8]) -> Option<(&[u8], &[u8])>
    ensures parted { IfSome result (λ r. IsParted word.now r.0.now r.1.now) }
    ensures none { IfNone result ((host port : List ℕ) → ¬ IsParted word.now host port) }
{
    let at = memrchr(b':', word)?;
    Some((&word[..at], &word[at + 1..]))
}

/// What stands between brackets.
fn bracketed(host: &[u8]) -> Option<&[u8]>
    ensures found { IfSome result (λ inner. host.now ≡ 0x5B ∷ (inner.now ++ 0x5D ∷ [])) }
    ensures only { (inner : List ℕ) → host.now ≡ 0x5B ∷ (inner ++ 0x5D ∷ [])
        → IsSomeAnd result (λ r. r.now ≡ inner) }
{
    let inner = host.strip_prefix(b"[")?;
    let inner = inner.strip_suffix(b"]")?;
    Some(inner)
}

/// Whether this is nothing, or `%` and the name of an interface (RFC 6874).
fn is_zone(zone: &[u8]) -> bool
    ensures { IsTrue result ↔ IsZone zone.now }
{
    if zone.is_empty() {
        return true;
    }
    zone[0] == b'%' && is_iface_name(&zone[1..])
}

/// Where the zone begins: at the first `%`, or at the end.
fn zone_at(inner: &[u8]) -> usize
    ensures place { result ≡ position_or_len is_percent inner.now }
    ensures within { result ≤ length inner.now }
{
    let mut at = 0;
    while at < inner.len() && inner[at] != b'%' {
        at += 1;
    }
    at
}

/// The address and the zone between the brackets.
fn zoned(inner: &[u8]) -> Option<(V6, &[u8])>
    ensures found { IfSome result (λ r. SpellsZoned r.0.bytes r.1.now inner.now) }
    ensures only { (address zone : List ℕ) → SpellsZoned address zone inner.now
        → IsSomeAnd result (λ r. (r.0.bytes ≡ address) × (r.1.now ≡ zone)) }
{
    let (address, zone) = inner.split_at(zone_at(inner));
    let address = V6::parse(address)?;
    if !is_zone(zone) {
        return None;
    }
    Some((address, zone))
}

/// An address in brackets as labels show it: the address as it is printed, the zone as it stands.
fn shown_v6(alloc: Global, address: V6, zone: &[u8]) -> Result<Bytes, Memory>
    ensures shown { IfOk result (ShowsAddress address.bytes zone.now) }
    ensures one { (shown : List ℕ) → ShowsAddress address.bytes zone.now shown
        → IfOk result (λ r. r ≡ shown) }
{
    let mut shown = Bytes::from_slice(alloc, b"[")?;
    shown.push_slice(address.text().as_str().as_bytes())?;
    shown.push_slice(zone)?;
    shown.push_slice(b"]")?;
    Ok(shown)
}

/// A host as labels show it. `Address` where it is none, or `Memory`.
fn shown_host(alloc: Global, host: &[u8]) -> Result<Bytes, LineFault>
    ensures found { IfOk result (ShowsHost host.now) }
    ensures only { (shown : List ℕ) → ShowsHost host.now shown
        → (result ≡ Ok shown) ⊎ (result ≡ Err LineMemory) }
    ensures bad { (kind : ScriptKind) → result ≡ Err (Bad kind) → kind ≡ ScriptKind.Address }
{
    if V4::parse(host).is_some() {
        return Ok(Bytes::from_slice(alloc, host)?);
    }
    let Some(inner) = bracketed(host) else {
        return Err(LineFault::Bad(ScriptKind::Address));
    };
    let Some((address, zone)) = zoned(inner) else {
        return Err(LineFault::Bad(ScriptKind::Address));
    };
    let shown = shown_v6(alloc, address, zone)?;
    Ok(shown)
}

/// A server, `HOST:PORT`, as labels show it. `Address` without a colon or a host, `Number` without a port, or `Memory`.
pub(crate) fn shown_server(alloc: Global, word: &[u8]) -> Result<Bytes, LineFault>
    ensures found { IfOk result (ShowsServer word.now) }
    ensures only { (shown : List ℕ) → ShowsServer word.now shown → IfOk result (λ r. r ≡ shown) }
    ensures bad { (kind : ScriptKind) → result ≡ Err (Bad kind) → IsServerFault word.now kind }
{
    let Some((host, port)) = parted(word) else {
        return Err(LineFault::Bad(ScriptKind::Address));
    };
    let shown = shown_host(alloc, host)?;
    let number = port_in(port)?;
    Ok(server_text(alloc, shown.as_slice(), number)?)
}

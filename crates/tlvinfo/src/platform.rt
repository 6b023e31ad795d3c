//! The parts of a platform name.

ghost use Rattle.std.specs.Prelude.{◌≡◌, ◌<◌, ◌≤◌, ◌+◌, IfSome, IfNone, IsSomeAnd, length};
ghost use Rattle.std.specs.List.{list_all};
ghost use Rattle.tlvinfo.specs.Platform.{is_platform_byte, HasNoDash, HasNoMark, Parts, IsSplit, IsPlatform};
ghost use Rattle.tlvinfo.specs.PlatformView.{parts_of, IsAroundDash, IsAroundMark};

use memchr::{memchr, memmem};

/// A platform name's longest form, in bytes.
pub(crate) const LONGEST: usize = 200;

/// The parts of a platform name, as they lie in it.
#[derive(Clone, Copy)]
pub(crate) struct PlatformParts<'a> {
    pub(crate) arch: &'a [u8],
    pub(crate) machine: &'a [u8],
    pub(crate) revision: &'a [u8],
}

fn is_platform(byte: u8) -> bool
    ensures { result ≡ is_platform_byte byte }
{
    matches!(byte, b'a'..=b'z' | b'A'..=b'Z' | b'0'..=b'9' | b'_' | b'-' | b'.')
}

fn has_alphabet(text: &[u8]) -> bool
    ensures { result ≡ list_all is_platform_byte text.now }
{
    text.iter().all(|byte| is_platform(*byte))
}

/// What stands before the first dash, and behind it.
fn around_first_dash(text: &[u8]) -> Option<(&[u8], &[u8])>
    ensures found { IfSome result (λ p. IsAroundDash text.now p.0.now p.1.now) }
    ensures none { IfNone result (HasNoDash text.now) }
{
    let dash = memchr(b'-', text)?;
    let (before, rest) = text.split_at(dash);
    let (_, behind) = rest.split_at(1);
    Some((before, behind))
}

/// What stands before the last `-r`, and behind it.
fn around_last_mark(text: &[u8]) -> Option<(&[u8], &[u8])>
    ensures found { IfSome result (λ p. IsAroundMark text.now p.0.now p.1.now) }
    ensures none { IfNone result (HasNoMark text.now) }
{
    let mark = memmem::rfind(text, b"-r")?;
    let (before, rest) = text.split_at(mark);
    let (_, behind) = rest.split_at(2);
    Some((before, behind))
}

/// The parts of a text, where it has a dash and a `-r` behind it.
fn split(text: &[u8]) -> Option<PlatformParts<'_>>
    ensures found { IfSome result (λ p. IsSplit text.now (parts_of p)) }
    ensures only { (p : Parts) → IsSplit text.now p → IsSomeAnd result (λ q. parts_of q ≡ p) }
{
    let (arch, behind) = around_first_dash(text)?;
    let (machine, revision) = around_last_mark(behind)?;
    Some(PlatformParts {
        arch,
        machine,
        revision,
    })
}

/// The parts of a platform name, or none where the text is no platform name.
pub(crate) fn platform(text: &[u8]) -> Option<PlatformParts<'_>>
    ensures found { IfSome result (λ p. IsPlatform text.now (parts_of p)) }
    ensures only { (p : Parts) → IsPlatform text.now p → IsSomeAnd result (λ q. parts_of q ≡ p) }
{
    if text.len() > LONGEST || !has_alphabet(text) {
        return None;
    }
    let parts = split(text)?;
    if parts.arch.is_empty() || parts.machine.is_empty() || parts.revision.is_empty() {
        return None;
    }
    Some(parts)
}

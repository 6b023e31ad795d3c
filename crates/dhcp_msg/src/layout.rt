//! Where the parts of a message lie, in bytes (RFC 2131, section 2).

ghost use Rattle.std.specs.Prelude.{◌≡◌, ◌≤◌, ◌+◌, ◌==◌, length, position};
ghost use Rattle.dhcp_msg.specs.Layout.{bytes_at, before_zero, options_field};

use bd_text::{Mac, V4};

/// What the options begin with (RFC 2131, section 3).
pub(crate) const COOKIE: [u8; 4] = [99, 130, 83, 99];

/// Where the `sname` field begins.
pub(crate) const SNAME: usize = 44;

/// The length of the `sname` field.
pub(crate) const SNAME_SIZE: usize = 64;

/// Where the `file` field begins.
pub(crate) const FILE: usize = 108;

/// The length of the `file` field.
pub(crate) const FILE_SIZE: usize = 128;

/// Where the options begin, behind the cookie.
pub(crate) const OPTIONS: usize = 240;

/// The options, behind the cookie.
pub(crate) fn options_field(bytes: &[u8]) -> &[u8]
    requires { 240 ≤ length bytes.now }
    ensures { result.now ≡ options_field bytes.now }
{
    let (_, field) = bytes.split_at(OPTIONS);
    field
}

/// The IPv4 address at a place.
pub(crate) fn v4_at(bytes: &[u8], at: usize) -> V4
    requires { at + 4 ≤ length bytes.now }
    ensures { result ≡ record { bytes = bytes_at at 4 bytes.now } }
{
    let mut address = [0; 4];
    address.copy_from_slice(&bytes[at..at + 4]);
    V4 { bytes: address }
}

/// The Ethernet address at a place.
pub(crate) fn mac_at(bytes: &[u8], at: usize) -> Mac
    requires { at + 6 ≤ length bytes.now }
    ensures { result ≡ record { bytes = bytes_at at 6 bytes.now } }
{
    let mut address = [0; 6];
    address.copy_from_slice(&bytes[at..at + 6]);
    Mac { bytes: address }
}

/// The place of the first zero.
fn zero_at(field: &[u8]) -> Option<usize>
    ensures { result ≡ position (λ b. b == 0) field.now }
{
    field.iter().position(|byte| *byte == 0)
}

/// The bytes before the first zero.
pub(crate) fn before_zero(field: &[u8]) -> &[u8]
    ensures { result.now ≡ before_zero field.now }
{
    match zero_at(field) {
        Some(end) => &field[..end],
        None => field,
    }
}

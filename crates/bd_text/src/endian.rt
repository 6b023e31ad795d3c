//! Numbers in bytes.

ghost use Rattle.std.specs.Prelude.{◌≡◌, ◌^◌, ◌<◌, ◌≤◌, length};
ghost use Rattle.byteorder.specs.Endian.{big_number};

use byteorder::{BigEndian, ByteOrder};

/// The big-endian number of the first six bytes, which is below 2^48.
pub(crate) fn read_u48(bytes: &[u8]) -> u64
    requires { 6 ≤ length bytes.now }
    ensures value { result ≡ big_number 6 bytes.now }
    ensures bound { result < 2 ^ 48 }
{
    BigEndian::read_u48(bytes)
}

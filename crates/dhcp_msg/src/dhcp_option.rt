//! An option.

use bd_dev::Bytes;

/// An option of a message: its code, and its value, which may be longer than the 255 bytes of one option as it stands
/// where it was split.
#[derive(Drop)]
pub struct DhcpOption {
    pub code: u8,
    pub value: Bytes,
}

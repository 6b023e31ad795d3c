//! What is known of the codes.

ghost use Rattle.std.specs.Prelude.{◌≡◌};
ghost use Rattle.bd_codes.specs.TlvTable.{allows, is_single};
ghost use Rattle.tlvinfo.specs.Editing.{can_hold};

use bd_codes::tlv_codes;

/// The code of the platform name.
pub(crate) const PLATFORM: u8 = 0x28;

/// The code of the base MAC address.
pub(crate) const BASE_MAC: u8 = 0x24;

/// The code of a vendor extension, which may stand any number of times.
pub(crate) const VENDOR_EXTENSION: u8 = 0xfd;

/// The code of the checksum's field, which ends the fields.
pub(crate) const CHECKSUM: u8 = 0xfe;

/// Whether a value of this length, in bytes, may stand under the code.
pub(crate) fn is_allowed(code: u8, length: usize) -> bool
    ensures { result ≡ allows code length }
{
    match tlv_codes().find(code) {
        Some(row) => row.allows(length),
        None => true,
    }
}

/// Whether a value of this length, in bytes, can be set under the code.
pub(crate) fn can_hold(code: u8, length: usize) -> bool
    ensures { result ≡ can_hold code length }
{
    is_allowed(code, length) && length <= 255
}

/// Whether the code may stand once at most.
pub(crate) fn stands_once(code: u8) -> bool
    ensures { result ≡ is_single code }
{
    tlv_codes().find(code).is_some() && code != VENDOR_EXTENSION
}

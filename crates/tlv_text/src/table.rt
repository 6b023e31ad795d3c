//! What the table of codes says of a code.

ghost use Rattle.std.specs.Prelude.{◌≡◌};
ghost use Rattle.bd_codes.specs.TlvTable.{allows};
ghost use Rattle.tlv_text.specs.Values.{kind_of};

use bd_codes::{Kind, tlv_codes};

/// What a value of the code is: bytes with no meaning where no row has the code.
pub(crate) fn kind_of(code: u8) -> Kind
    ensures { result ≡ kind_of code }
{
    tlv_codes().find(code).map_or(Kind::Raw, |row| row.kind)
}

/// Whether a value of the code may have this length, in bytes: any where no row has the code.
pub(crate) fn allows(code: u8, length: usize) -> bool
    ensures { result ≡ allows code length }
{
    tlv_codes().find(code).is_none_or(|row| row.allows(length))
}

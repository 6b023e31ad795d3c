//! The codes of the TlvInfo format.

ghost use Rattle.std.specs.Prelude.{◌≡◌};
ghost use Rattle.bd_codes.specs.TlvTable.{tlv_rows};

use super::Codes;
use crate::row::{Kind, Row};

/// The codes of the TlvInfo format (ONIE design specification, "Board EEPROM information format").
pub fn tlv_codes() -> Codes<17>
    ensures { result ≡ tlv_rows }
{
    macro_rules! codes {
        ($($code:literal $kind:ident $least:literal to $greatest:literal;)*) => {
            Codes {
                rows: [$(Row {
                    code: $code,
                    kind: Kind::$kind,
                    least: $least,
                    greatest: $greatest,
                }),*],
            }
        };
    }
    codes! {
        0x21 Text 0 to 255;
        0x22 Text 0 to 255;
        0x23 Text 0 to 255;
        0x24 Mac 6 to 6;
        0x25 Date 19 to 19;
        0x26 Byte 1 to 1;
        0x27 Text 0 to 255;
        0x28 Text 0 to 255;
        0x29 Text 0 to 255;
        0x2a Word 2 to 2;
        0x2b Text 0 to 255;
        0x2c Letters 2 to 2;
        0x2d Text 0 to 255;
        0x2e Text 0 to 255;
        0x2f Text 0 to 255;
        0xfd Raw 0 to 255;
        0xfe Sum 4 to 4;
    }
}

#[cfg(test)]
mod tests {
    use super::*;

    #[test]
    fn rows_and_gaps(rt: HostRuntime) {
        let codes = tlv_codes();
        for (code, kind, least, greatest) in [
            (0x21, Kind::Text, 0, 255),
            (0x22, Kind::Text, 0, 255),
            (0x23, Kind::Text, 0, 255),
            (0x24, Kind::Mac, 6, 6),
            (0x25, Kind::Date, 19, 19),
            (0x26, Kind::Byte, 1, 1),
            (0x27, Kind::Text, 0, 255),
            (0x28, Kind::Text, 0, 255),
            (0x29, Kind::Text, 0, 255),
            (0x2a, Kind::Word, 2, 2),
            (0x2b, Kind::Text, 0, 255),
            (0x2c, Kind::Letters, 2, 2),
            (0x2d, Kind::Text, 0, 255),
            (0x2e, Kind::Text, 0, 255),
            (0x2f, Kind::Text, 0, 255),
            (0xfd, Kind::Raw, 0, 255),
            (0xfe, Kind::Sum, 4, 4),
        ] {
            let row = Row {
                code,
                kind,
                least,
                greatest,
            };
            assert_eq!(rt; codes.find(code), Some(row), "code {code}");
        }
        for code in [0x00, 0x20, 0x30, 0xfc, 0xff] {
            assert_eq!(rt; codes.find(code), None, "code {code}");
        }
    }
}

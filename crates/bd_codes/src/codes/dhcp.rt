//! The codes of DHCP options.

ghost use Rattle.std.specs.Prelude.{◌≡◌};
ghost use Rattle.bd_codes.specs.DhcpTable.{dhcp_rows};

use super::Codes;
use crate::row::{Kind, Row};

/// The codes of the DHCP options that are read or written (RFC 2132, RFC 3925 and RFC 5859; option 114 as a URL is this
/// project's). The lengths are those of one option as it stands: the values of options of one code are joined (RFC
/// 3396), and then may be longer.
pub fn dhcp_codes() -> Codes<16>
    ensures { result ≡ dhcp_rows }
{
    macro_rules! codes {
        ($($code:literal $kind:ident $least:literal to $greatest:literal;)*) => {
            Codes {
                rows: [$(Row {
                    code: $code,
                    kind: Kind::$kind,
                    least: $least,
                    greatest: $greatest,
                }),*],
            }
        };
    }
    codes! {
        1 Address 4 to 4;
        3 Addresses 0 to 252;
        6 Addresses 0 to 252;
        50 Address 4 to 4;
        51 Seconds 4 to 4;
        52 Byte 1 to 1;
        53 Byte 1 to 1;
        54 Address 4 to 4;
        55 Raw 0 to 255;
        60 Text 0 to 255;
        66 Text 0 to 255;
        67 Text 0 to 255;
        72 Addresses 0 to 252;
        114 Text 0 to 255;
        125 Vendor 0 to 255;
        150 Addresses 0 to 252;
    }
}

#[cfg(test)]
mod tests {
    use super::*;

    #[test]
    fn no_row_for_what_is_not_read(rt: HostRuntime) {
        let codes = dhcp_codes();
        for code in [0, 2, 12, 15, 43, 57, 61, 82, 124, 151, 255] {
            assert_eq!(rt; codes.find(code), None, "code {code}");
        }
    }
}

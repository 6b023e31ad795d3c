//! Values worked by hand, and by Python's `bytes.hex`, `int.from_bytes` and `%02X`.
ghost use Rattle.std.specs.Prelude.{◌≡◌, length};
ghost use Rattle.std.specs.Option.{IsSomeAnd};

use crate::table::allows;
use crate::{parse_value, value_text};
use arrayvec::{ArrayString, ArrayVec};

#[tactic(auto, unfolding(bd_codes::specs::TlvTable::tlv_rows))]
fn count_through_text(count: &[u8]) -> Option<ArrayVec<u8, 255>>
    requires { length count.now ≡ 2 }
    ensures { IsSomeAnd result (λ read. read.items ≡ count.now) }
{
    parse_value(0x2a, value_text(0x2a, count).as_str().as_bytes())
}

#[tactic(auto, unfolding(bd_codes::specs::TlvTable::tlv_rows))]
fn longest() -> ArrayString<510> {
    value_text(0x30, &[0xab; 255])
}

#[test]
fn values_printed(rt: HostRuntime) {
    let values: [(u8, &[u8], &str); 18] = [
        (0x21, b"S6100-ON", "S6100-ON"),
        (0x21, b"", ""),
        (0x2b, b"caf\xc3\xa9\x7f~ \x1f", "caf???~ ?"),
        (0x24, b"\x00\x11\x22\x33\x44\x55", "00:11:22:33:44:55"),
        (0x24, b"\x80\xa2\x35\x81\xca\xae", "80:A2:35:81:CA:AE"),
        (0x25, b"01/31/2014 12:01:30", "01/31/2014 12:01:30"),
        (0x25, b"01/31/2014\x0012:01:30", "01/31/2014?12:01:30"),
        (0x26, b"\x00", "0"),
        (0x26, b"\xff", "255"),
        (0x2a, b"\x00\x00", "0"),
        (0x2a, b"\x01\x00", "256"),
        (0x2a, b"\xff\xff", "65535"),
        (0x2c, b"CN", "CN"),
        (0x2c, b"C\xff", "C?"),
        (0xfd, b"\xde\xad\xbe\xef\x00\x0f", "deadbeef000f"),
        (0xfd, b"", ""),
        (0xfe, b"\x01\x23\x45\x67", "01234567"),
        (0x30, b"\x9a", "9a"),
    ];
    for (code, value, text) in values {
        assert!(rt; value.len() <= 255, "{code}");
        assert!(rt; allows(code, value.len()), "{code}");
        assert_eq!(rt; value_text(code, value).as_str(), text, "{code}");
    }
    assert_eq!(rt; longest().len(), 510);
}

#[test]
fn values_read(rt: HostRuntime) {
    let texts: [(u8, &[u8], Option<&[u8]>); 66] = [
        (0x21, b"S6100-ON", Some(b"S6100-ON")),
        (0x21, b" ~", Some(b" ~")),
        (0x21, b"", Some(b"")),
        (0x21, &[b'x'; 255], Some(&[b'x'; 255])),
        (0x21, &[b'x'; 256], None),
        (0x21, b"a\x1f", None),
        (0x21, b"a\x7f", None),
        (0x21, b"caf\xc3\xa9", None),
        (
            0x24,
            b"00:11:22:33:44:55",
            Some(b"\x00\x11\x22\x33\x44\x55"),
        ),
        (
            0x24,
            b"80:a2:35:81:Ca:aE",
            Some(b"\x80\xa2\x35\x81\xca\xae"),
        ),
        (0x24, b"00:11:22:33:44", None),
        (0x24, b"00:11:22:33:44:55:66", None),
        (0x24, b"00-11-22-33-44-55", None),
        (0x24, b"001122334455", None),
        (0x24, b"", None),
        (0x25, b"01/31/2014 12:01:30", Some(b"01/31/2014 12:01:30")),
        (0x25, b"99/99/0000 99:99:99", Some(b"99/99/0000 99:99:99")),
        (0x25, b"01/31/2014 12:01:3x", None),
        (0x25, b"MM/DD/YYYY HH:MM:SS", None),
        (0x25, b"01/31/2014 12:01:3", None),
        (0x25, b"01/31/2014 12:01:300", None),
        (0x25, b"01-31-2014 12:01:30", None),
        (0x25, b"01/31/2014T12:01:30", None),
        (0x25, b"01/31/2014 12.01.30", None),
        (0x25, b"", None),
        (0x26, b"0", Some(b"\x00")),
        (0x26, b"7", Some(b"\x07")),
        (0x26, b"255", Some(b"\xff")),
        (0x26, b"256", None),
        (0x26, b"65536", None),
        (0x26, b"00", None),
        (0x26, b"07", None),
        (0x26, b"+7", None),
        (0x26, b"", None),
        (0x2a, b"0", Some(b"\x00\x00")),
        (0x2a, b"256", Some(b"\x01\x00")),
        (0x2a, b"65535", Some(b"\xff\xff")),
        (0x2a, b"65536", None),
        (0x2a, b"99999999999999999999", None),
        (0x2a, b"0256", None),
        (0x2a, b"-1", None),
        (0x2a, b"+1", None),
        (0x2a, b"", None),
        (0x2a, b"0x10", None),
        (0x2a, b"1 ", None),
        (0x2a, b"12\xff", None),
        (0x2c, b"CN", Some(b"CN")),
        (0x2c, b"uS", Some(b"uS")),
        (0x2c, b"USA", None),
        (0x2c, b"U", None),
        (0x2c, b"U1", None),
        (0x2c, b"", None),
        (0xfd, b"deadBEEF000f", Some(b"\xde\xad\xbe\xef\x00\x0f")),
        (0xfd, b"", Some(b"")),
        (0xfd, &[b'a'; 510], Some(&[0xaa; 255])),
        (0xfd, &[b'a'; 511], None),
        (0xfd, &[b'a'; 512], None),
        (0xfd, b"abc", None),
        (0xfd, b"a", None),
        (0xfd, b"ag", None),
        (0xfd, b"0xab", None),
        (0xfd, b"ab cd", None),
        (0xfe, b"01234567", Some(b"\x01\x23\x45\x67")),
        (0xfe, b"0123456", None),
        (0xfe, b"0123456789", None),
        (0x30, b"9A", Some(b"\x9a")),
    ];
    for (code, text, value) in texts {
        let read = parse_value(code, text);
        assert_eq!(rt;
            read.as_ref().map(|read| read.as_slice()),
            value,
            "{code} {text:?}"
        );
    }
    assert!(rt; count_through_text(b"\x12\x34").is_some(), "through a text");
}

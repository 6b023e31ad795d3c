//! Expressions with their values, and texts that have none.

use super::*;
use bd_dev::Bytes;
use std::test::Fail;

fn variables(alloc: std::alloc::Global) -> Result<Vec<(Bytes, Bytes)>, Fail> {
    let pairs: [(&[u8], &[u8]); 8] = [
        (b"x", b"5"),
        (b"y", b"x"),
        (b"empty", b""),
        (b"least", b"-9223372036854775808"),
        (b"blank", b" 1"),
        (b"hex", b"-0x10"),
        (b"_1", b"+010"),
        (b"x", b"6"),
    ];
    let mut all = Vec::new(alloc);
    for (name, value) in pairs {
        let name = Bytes::from_slice(alloc, name)?;
        all.push((name, Bytes::from_slice(alloc, value)?))?;
    }
    Ok(all)
}

#[test]
fn expressions_have_their_values(rt: HostRuntime) -> Result<(), Fail> {
    let all = variables(rt.alloc())?;
    let rows: [(&[u8], i64); 40] = [
        (b"1 + 2 * 3", 7),
        (b"0x10 + 010", 24),
        (b"-7 / 2", -3),
        (b"-7 % 2", -1),
        (b"7 % -2", 1),
        (b"1 || 1 / 0", 1),
        (b"0 && 1 / 0", 0),
        (b"1 << 62", 4611686018427387904),
        (b"-1 << 63", i64::MIN),
        (b"0 << 63", 0),
        (b"least", i64::MIN),
        (b"1 || 9223372036854775808", 1),
        (b"0 ? 1 / 0 : 7", 7),
        (b"0x1f + 010", 39),
        (b"- - 3", 3),
        (b"!0 + ~0", 0),
        (b"2+3<<1", 10),
        (b"1<2==1", 1),
        (b"5&3|8^1", 9),
        (b"1?2:0?3:4", 2),
        (b"0||1&&0", 0),
        (b"-1 >> 63", -1),
        (b"x + x", 10),
        (b" x*2 ", 10),
        (b"hex + -hex", 0),
        (b"++x", 5),
        (b"empty + nope", 0),
        (b"_1", 8),
        (b"\t(1\n+ 2)", 3),
        (b"1 - 2 - 3", -4),
        (b"64 / 4 / 2", 8),
        (b"1 < 2 < 2", 1),
        (b"7 != 7 || 3 >= 3", 1),
        (b"6 & 3 == 3", 0),
        (b"(1 ? 0 : 2) ? 3 : 4 ? 5 : 6", 5),
        (b"1 ? 2 ? 3 : 4 : 5", 3),
        (b"~5 ^ 3", -7),
        (b"-5 & 6", 2),
        (b"-8 >> 1 | 0", -4),
        (b"00 + 0", 0),
    ];
    for (text, value) in rows {
        assert_eq!(rt; evaluate(all.as_slice(), text), Ok(value));
    }
    Ok(())
}

#[test]
fn other_texts_are_bad(rt: HostRuntime) -> Result<(), Fail> {
    let all = variables(rt.alloc())?;
    let rows: [&[u8]; 32] = [
        b"",
        b" ",
        b"1 / 0",
        b"1 % 0",
        b"1 << 64",
        b"1 << -1",
        b"1 << 63",
        b"1 >> 64",
        b"9223372036854775807 + 1",
        b"9223372036854775808",
        b"-9223372036854775808",
        b"least / -1",
        b"least % -1",
        b"-least",
        b"least - 1",
        b"3037000500 * 3037000500",
        b"0 && 08 - 8 + 1 / 0",
        b"08",
        b"0x",
        b"0X1",
        b"y",
        b"blank",
        b"x = 2",
        b"1, 2",
        b"1 2",
        b"1 +",
        b"(1",
        b"1)",
        b"1 ? 2",
        b"1 : 2",
        b"1 & & 1",
        b"\"1\"",
    ];
    for text in rows {
        assert_eq!(rt; evaluate(all.as_slice(), text), Err(Bad));
    }
    Ok(())
}

// a text with so many of one byte on either side of a 1
fn nested(text: &mut [u8; 131], opening: u8, depth: usize, closing: u8) {
    for (i, byte) in text.iter_mut().enumerate() {
        if i < depth {
            *byte = opening;
        } else if i == depth {
            *byte = b'1';
        } else if i <= depth + depth {
            *byte = closing;
        } else {
            *byte = b' ';
        }
    }
}

#[test]
fn operands_stand_within_64(rt: HostRuntime) -> Result<(), Fail> {
    let all = variables(rt.alloc())?;
    for (opening, closing) in [(b'(', b')'), (b'+', b' ')] {
        let mut text = [0; 131];
        nested(&mut text, opening, 64, closing);
        assert_eq!(rt; evaluate(all.as_slice(), text.as_slice()), Ok(1));
        nested(&mut text, opening, 65, closing);
        assert_eq!(rt; evaluate(all.as_slice(), text.as_slice()), Err(Bad));
    }
    Ok(())
}

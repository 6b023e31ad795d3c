//! Names and texts that are none.

use super::*;
use std::test::Fail;

#[test]
fn names_are_told_from_other_texts(rt: HostRuntime) -> Result<(), Fail> {
    let long_label = [b'a'; 63];
    assert!(rt; is_host_name(&long_label));
    assert!(rt; !is_host_name(&[b'a'; 64]));
    let names: [&[u8]; 7] = [
        b"a",
        b"img.example",
        b"A-1_b",
        b"-",
        b"1.2.3.4",
        b"300.1.1.1",
        b"x.y.z",
    ];
    for name in names {
        assert!(rt; is_host_name(name));
    }
    let others: [&[u8]; 9] = [
        b"",
        b".",
        b"a.",
        b".a",
        b"a..b",
        b"a b",
        b"a/b",
        b"a%",
        b"\xc3\xa9",
    ];
    for other in others {
        assert!(rt; !is_host_name(other));
    }
    Ok(())
}

#[test]
fn a_name_has_at_most_253_bytes(rt: HostRuntime) -> Result<(), Fail> {
    let mut name = [b'a'; 254];
    name[50] = b'.';
    name[100] = b'.';
    name[150] = b'.';
    name[200] = b'.';
    assert!(rt; is_host_name(&name[..253]));
    assert!(rt; !is_host_name(&name));
    Ok(())
}

#[test]
fn one_last_dot_is_dropped(rt: HostRuntime) -> Result<(), Fail> {
    let rows: [(&[u8], &[u8]); 5] = [
        (b"", b""),
        (b".", b""),
        (b"a.", b"a"),
        (b"a..", b"a."),
        (b"a.b", b"a.b"),
    ];
    for (text, name) in rows {
        assert_eq!(rt; without_last_dot(text), name);
    }
    Ok(())
}

//! Names of modes, and texts that are near one.

use super::*;

#[test]
fn names_are_read_back(rt: HostRuntime) {
    for mode in [
        Mode::Install,
        Mode::Rescue,
        Mode::Uninstall,
        Mode::Update,
        Mode::Embed,
    ] {
        assert_eq!(rt; Mode::parse(mode.text()), Some(mode));
    }
    assert_eq!(rt; Mode::Uninstall.text(), b"uninstall".as_slice());
}

#[test]
fn other_texts_name_none(rt: HostRuntime) {
    let texts: [&[u8]; 7] = [
        b"",
        b"Install",
        b"instal",
        b"install ",
        b" rescue",
        b"updated",
        b"diag",
    ];
    for text in texts {
        assert_eq!(rt; Mode::parse(text), None);
    }
}

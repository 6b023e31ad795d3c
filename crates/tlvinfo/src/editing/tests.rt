//! Against the format: what fields are after a change.

use super::*;
use crate::{decode, encode};
use std::test::Fail;

const IDENTITY: &[u8] =
    b"TlvInfo\0\x01\0$(\x14x86_64-kvm_x86_64-r0$\x06\0\x11\"3DU\xfe\x04\x99!\xba\x7f";

/// An unknown code stands twice, and others with it.
const REPEATED: &[u8] = b"TlvInfo\0\x01\0\x11\0\x01a0\0\0\x01b\xff\x01c\xfe\x04\xf35\xb5 ";

#[test]
fn sets_values(rt: HostRuntime) -> Result<(), Fail> {
    for (bytes, code, value, want, name) in [
        (
            IDENTITY,
            0x2a,
            b"\x01\0".as_slice(),
            b"TlvInfo\0\x01\0((\x14x86_64-kvm_x86_64-r0$\x06\0\x11\"3DU*\x02\x01\0\xfe\x04^i\x15\x04".as_slice(),
            "a field more",
        ),
        (
            IDENTITY,
            0x24,
            b"\x02\0\0\0\0\x01".as_slice(),
            b"TlvInfo\0\x01\0$(\x14x86_64-kvm_x86_64-r0$\x06\x02\0\0\0\0\x01\xfe\x04\xc9\x8b\x05\x15".as_slice(),
            "another address",
        ),
        (
            REPEATED,
            0x00,
            b"new".as_slice(),
            b"TlvInfo\0\x01\0\x13\0\x03new0\0\0\x01b\xff\x01c\xfe\x04\0w\xc8^".as_slice(),
            "the first of an unknown code",
        ),
    ] {
        let mut info = decode(rt.alloc(), bytes)?;
        info.set(code, value)?;
        let mut out = [0; 2048];
        let size = encode(&info, &mut out)?;
        assert_eq!(rt; &out[..size], want, "{name}");
    }
    Ok(())
}

#[test]
fn refuses_values(rt: HostRuntime) -> Result<(), Fail> {
    let mut info = decode(rt.alloc(), IDENTITY)?;
    let long = [b'x'; 256];
    for (code, value, want, name) in [
        (
            0xfe,
            b"\0\0\0\0".as_slice(),
            SetFault::BadCode,
            "a checksum",
        ),
        (
            0xfe,
            b"".as_slice(),
            SetFault::BadCode,
            "a checksum of no bytes",
        ),
        (
            0x24,
            b"\0\x11\"3D".as_slice(),
            SetFault::BadValue,
            "five bytes",
        ),
        (0x2a, b"".as_slice(), SetFault::BadValue, "no bytes"),
        (0x30, long.as_slice(), SetFault::BadValue, "256 bytes"),
        (
            0xfd,
            long.as_slice(),
            SetFault::BadValue,
            "256 bytes of a vendor's",
        ),
    ] {
        assert_eq!(rt; info.set(code, value), Err(want), "{name}");
        let mut out = [0; 2048];
        let size = encode(&info, &mut out)?;
        assert_eq!(rt; &out[..size], IDENTITY, "after {name}");
    }
    Ok(())
}

#[test]
fn vendor_extensions_come_and_go(rt: HostRuntime) -> Result<(), Fail> {
    let mut info = decode(rt.alloc(), IDENTITY)?;
    info.set(0xfd, b"one")?;
    info.set(0xfd, b"two")?;
    assert_eq!(rt;
        info.field(0),
        Some((0x28, b"x86_64-kvm_x86_64-r0".as_slice()))
    );
    assert_eq!(rt; info.field(2), Some((0xfd, b"one".as_slice())));
    assert_eq!(rt; info.field(3), Some((0xfd, b"two".as_slice())));
    assert_eq!(rt; info.field(4), None);
    info.remove(0xfd);
    assert_eq!(rt; info.field(1), Some((0x24, b"\0\x11\"3DU".as_slice())));
    assert_eq!(rt; info.field(2), None);
    Ok(())
}

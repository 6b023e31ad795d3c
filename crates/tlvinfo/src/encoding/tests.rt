//! Against the format: bytes that other software wrote, and a whole of the greatest length.

use super::*;
use crate::{SetFault, decode};
use std::test::Fail;

#[test]
fn writes_what_it_read(rt: HostRuntime) -> Result<(), Fail> {
    for (bytes, name) in [
        (
            b"TlvInfo\0\x01\0$(\x14x86_64-kvm_x86_64-r0$\x06\0\x11\"3DU\xfe\x04\x99!\xba\x7f".as_slice(),
            "the smallest identity",
        ),
        (
            b"TlvInfo\0\x01\0\x06\xfe\x04\xd4C\x1c\x18".as_slice(),
            "no field",
        ),
        (
            b"TlvInfo\0\x01\0\x11\0\x01a0\0\0\x01b\xff\x01c\xfe\x04\xf35\xb5 ".as_slice(),
            "unknown codes again and again",
        ),
        (
            b"TlvInfo\0\x01\0\x12\xfd\x03one\xfd\0\xfd\x03two\xfe\x04\x99\x0a\xa8L".as_slice(),
            "vendor extensions again",
        ),
    ] {
        let info = decode(rt.alloc(), bytes)?;
        let mut out = [0xa5; 2048];
        let size = encode(&info, &mut out)?;
        assert_eq!(rt; &out[..size], bytes, "{name}");
        assert!(rt;
            out[size..].iter().all(|byte| *byte == 0xa5),
            "behind {name}"
        );
    }
    Ok(())
}

/// Fields whose whole has 2,048 bytes: a platform name of 20 bytes, an address, seven vendor extensions of 255 bytes and
/// one of 200.
fn greatest(rt: &HostRuntime) -> Result<Info, Fail> {
    let mut info = decode(
        rt.alloc(),
        b"TlvInfo\0\x01\0$(\x14x86_64-kvm_x86_64-r0$\x06\0\x11\"3DU\xfe\x04\x99!\xba\x7f",
    )?;
    for _ in 0..7 {
        info.set(0xfd, &[b'v'; 255])?;
    }
    info.set(0xfd, &[b'w'; 200])?;
    Ok(info)
}

/// The checksum is that of Python's `zlib.crc32` over the 2,044 bytes before it.
#[test]
fn writes_a_whole_of_2048_bytes(rt: HostRuntime) -> Result<(), Fail> {
    let mut out = [0; 2048];
    assert_eq!(rt; encode(&greatest(&rt)?, &mut out), Ok(2048));
    assert!(rt;
        out.starts_with(b"TlvInfo\0\x01\x07\xf5(\x14x86_64-kvm_x86_64-r0$\x06\0\x11\"3DU\xfd\xffv"),
        "the front"
    );
    assert!(rt; out.ends_with(b"www\xfe\x04\x92\x03Q\xc1"), "the end");
    let again = decode(rt.alloc(), &out)?;
    let mut same = [0; 2048];
    assert_eq!(rt; encode(&again, &mut same), Ok(2048));
    assert!(rt; same == out, "the same bytes");
    Ok(())
}

#[test]
fn one_field_more_is_too_long(rt: HostRuntime) -> Result<(), Fail> {
    let mut info = greatest(&rt)?;
    let mut out = [0; 2048];
    assert_eq!(rt; encode(&info, &mut out), Ok(2048));
    assert_eq!(rt; info.set(0x21, b"X"), Err(SetFault::TooLong));
    let mut same = [0; 2048];
    assert_eq!(rt; encode(&info, &mut same), Ok(2048));
    assert!(rt; same == out, "nothing changed");
    Ok(())
}

//! Against the format: bytes that other software wrote, and the answers that the format gives for them.

use super::*;
use std::test::Fail;

const PLATFORM: u8 = 0x28;

#[test]
fn refuses_the_first_fault(rt: HostRuntime) {
    for (bytes, want, name) in [
        (b"".as_slice(), TlvKind::NotTlv, "no bytes"),
        (b"TlvInfo\0\x01\0".as_slice(), TlvKind::NotTlv, "ten bytes"),
        (
            b"TlvInfo\x01\x01\0$(\x14x86_64-kvm_x86_64-r0$\x06\0\x11\"3DU\xfe\x04\x99!\xba\x7f".as_slice(),
            TlvKind::NotTlv,
            "another signature",
        ),
        (
            b"TlvInfo\0\0\0$(\x14x86_64-kvm_x86_64-r0$\x06\0\x11\"3DU\xfe\x04V\xbf\xad\xb7".as_slice(),
            TlvKind::Version(0),
            "version 0",
        ),
        (
            b"TlvInfo\0\x02\0$(\x14x86_64-kvm_x86_64-r0$\x06\0\x11\"3DU\xfe\x04\x12\xf2\x84f".as_slice(),
            TlvKind::Version(2),
            "version 2",
        ),
        (
            b"TlvInfo\0\x01\0$(\x14x86_64-kvm_x86_64-r0$\x06\0\x11\"3DU\xfe\x04\x99!\xba".as_slice(),
            TlvKind::Length {
                total: 36,
                given: 46,
            },
            "a byte too few",
        ),
        (
            b"TlvInfo\0\x01\x07\xf6".as_slice(),
            TlvKind::Length {
                total: 2038,
                given: 11,
            },
            "total 2038 alone",
        ),
        (
            b"TlvInfo\0\x01\0$(\x14x86_64-kvm_x86_64-r0$\x06\0\x11\"3DU\xfe\x05\x99!\xba\x7f".as_slice(),
            TlvKind::Cut { at: 41 },
            "a checksum of five bytes, cut",
        ),
        (
            b"TlvInfo\0\x01\0\x01(".as_slice(),
            TlvKind::Cut { at: 11 },
            "a code alone",
        ),
        (
            b"TlvInfo\0\x01\0$(\x14x86_64-kvm_x86_64-r0$\x05\0\x11\"3DU\xfe\x04\x99!\xba\x7f".as_slice(),
            TlvKind::BadLength {
                code: 0x24,
                length: 5,
            },
            "an address of five bytes",
        ),
        (
            b"TlvInfo\0\x01\0\x05\xfe\x03\x01\x02\x03".as_slice(),
            TlvKind::BadLength {
                code: 0xfe,
                length: 3,
            },
            "a checksum of three bytes",
        ),
        (
            b"TlvInfo\0\x01\0 (\x14x86_64-kvm_x86_64-r0&\x02\x01\x02\xfe\x04\x8c\x12\x01\x01".as_slice(),
            TlvKind::BadLength {
                code: 0x26,
                length: 2,
            },
            "a device version of two bytes",
        ),
        (
            b"TlvInfo\0\x01\0,(\x14x86_64-kvm_x86_64-r0$\x06\0\x11\"3DU$\x06\0\x11\"3DU\xfe\x04Q\x13\xaeI".as_slice(),
            TlvKind::Repeated { code: 0x24 },
            "two addresses",
        ),
        (
            b"TlvInfo\0\x01\0\"/\x01a(\x14x86_64-kvm_x86_64-r0/\x01b\xfe\x04B\xb9\x08\xa8".as_slice(),
            TlvKind::Repeated { code: 0x2f },
            "two service tags",
        ),
        (
            b"TlvInfo\0\x01\0$(\x14x86_64-kvm_x86_64-r0\xfe\x04u\xc1>R$\x06\0\x11\"3DU".as_slice(),
            TlvKind::AfterCrc { at: 39 },
            "a field after the checksum",
        ),
        (
            b"TlvInfo\0\x01\0%(\x14x86_64-kvm_x86_64-r0$\x06\0\x11\"3DU\xfe\x04\xaf\xd3*\x8c\0".as_slice(),
            TlvKind::AfterCrc { at: 47 },
            "a byte after the checksum",
        ),
        (
            b"TlvInfo\0\x01\0\0".as_slice(),
            TlvKind::NoCrc,
            "nothing after the header",
        ),
        (
            b"TlvInfo\0\x01\0\x1e(\x14x86_64-kvm_x86_64-r0$\x06\0\x11\"3DU".as_slice(),
            TlvKind::NoCrc,
            "no checksum",
        ),
        (
            b"TlvInfo\0\x01\0$(\x14x86_64-kvm_x86_64-r0$\x06\0\x11\"3DU\xfe\x04\x99!\xba~".as_slice(),
            TlvKind::Crc {
                kept: 0x9921ba7e,
                computed: 0x9921ba7f,
            },
            "the last bit of the checksum",
        ),
        (
            b"TlvInfo\0\x01\0$(\x14X86_64-kvm_x86_64-r0$\x06\0\x11\"3DU\xfe\x04\x99!\xba\x7f".as_slice(),
            TlvKind::Crc {
                kept: 0x9921ba7f,
                computed: 0x78f9c27b,
            },
            "a letter of the platform",
        ),
    ] {
        let fault = decode(rt.alloc(), bytes).err();
        assert_eq!(rt; fault, Some(TlvFault::Bad(want)), "{name}");
    }
}

/// One total length that passes the limit, in as many bytes as the greatest EEPROM has.
#[test]
fn refuses_a_total_above_the_limit(rt: HostRuntime) {
    let mut bytes = [0; 2048];
    bytes[..11].copy_from_slice(b"TlvInfo\0\x01\x07\xf6");
    let want = TlvKind::Length {
        total: 2038,
        given: 2048,
    };
    assert_eq!(rt; decode(rt.alloc(), &bytes).err(), Some(TlvFault::Bad(want)));
}

#[test]
fn reads_the_fields(rt: HostRuntime) -> Result<(), Fail> {
    for (bytes, code, want, name) in [
        (
            b"TlvInfo\0\x01\0$(\x14x86_64-kvm_x86_64-r0$\x06\0\x11\"3DU\xfe\x04\x99!\xba\x7f".as_slice(),
            0x28,
            Some(b"x86_64-kvm_x86_64-r0".as_slice()),
            "the smallest identity",
        ),
        (
            b"TlvInfo\0\x01\0$(\x14x86_64-kvm_x86_64-r0$\x06\0\x11\"3DU\xfe\x04\x99!\xba\x7f".as_slice(),
            0x24,
            Some(b"\0\x11\"3DU".as_slice()),
            "the smallest identity",
        ),
        (
            b"TlvInfo\0\x01\0$(\x14x86_64-kvm_x86_64-r0$\x06\0\x11\"3DU\xfe\x04\x99!\xba\x7f".as_slice(),
            0x21,
            None,
            "the smallest identity",
        ),
        (
            b"TlvInfo\0\x01\0$(\x14x86_64-kvm_x86_64-r0$\x06\0\x11\"3DU\xfe\x04\x99!\xba\x7fmore".as_slice(),
            0x24,
            Some(b"\0\x11\"3DU".as_slice()),
            "bytes after the total length",
        ),
        (
            b"TlvInfo\0\x01\0\x06\xfe\x04\xd4C\x1c\x18".as_slice(),
            0x28,
            None,
            "no field",
        ),
        (
            b"TlvInfo\0\x01\0\x11\0\x01a0\0\0\x01b\xff\x01c\xfe\x04\xf35\xb5 ".as_slice(),
            0x00,
            Some(b"a".as_slice()),
            "unknown codes again and again",
        ),
        (
            b"TlvInfo\0\x01\0\x11\0\x01a0\0\0\x01b\xff\x01c\xfe\x04\xf35\xb5 ".as_slice(),
            0x30,
            Some(b"".as_slice()),
            "unknown codes again and again",
        ),
        (
            b"TlvInfo\0\x01\0\x11\0\x01a0\0\0\x01b\xff\x01c\xfe\x04\xf35\xb5 ".as_slice(),
            0xff,
            Some(b"c".as_slice()),
            "unknown codes again and again",
        ),
        (
            b"TlvInfo\0\x01\0\x12\xfd\x03one\xfd\0\xfd\x03two\xfe\x04\x99\x0a\xa8L".as_slice(),
            0xfd,
            Some(b"one".as_slice()),
            "vendor extensions again",
        ),
        (
            b"TlvInfo\0\x01\0_!\x01n\"\x01p#\x01s$\x06\0\x11\"3DU%\x1311/30/2026 12:00:00&\x01\x07'\x01l(\x14x86_64-kvm_x86_64-r0)\x01v*\x02\x01\0+\x01m,\x02CH-\x01w.\x01d/\x01t\xfe\x04.\xc5e\xd8".as_slice(),
            0x25,
            Some(b"11/30/2026 12:00:00".as_slice()),
            "each known code",
        ),
        (
            b"TlvInfo\0\x01\0_!\x01n\"\x01p#\x01s$\x06\0\x11\"3DU%\x1311/30/2026 12:00:00&\x01\x07'\x01l(\x14x86_64-kvm_x86_64-r0)\x01v*\x02\x01\0+\x01m,\x02CH-\x01w.\x01d/\x01t\xfe\x04.\xc5e\xd8".as_slice(),
            0x2a,
            Some(b"\x01\0".as_slice()),
            "each known code",
        ),
        (
            b"TlvInfo\0\x01\0_!\x01n\"\x01p#\x01s$\x06\0\x11\"3DU%\x1311/30/2026 12:00:00&\x01\x07'\x01l(\x14x86_64-kvm_x86_64-r0)\x01v*\x02\x01\0+\x01m,\x02CH-\x01w.\x01d/\x01t\xfe\x04.\xc5e\xd8".as_slice(),
            0x2c,
            Some(b"CH".as_slice()),
            "each known code",
        ),
        (
            b"TlvInfo\0\x01\0_!\x01n\"\x01p#\x01s$\x06\0\x11\"3DU%\x1311/30/2026 12:00:00&\x01\x07'\x01l(\x14x86_64-kvm_x86_64-r0)\x01v*\x02\x01\0+\x01m,\x02CH-\x01w.\x01d/\x01t\xfe\x04.\xc5e\xd8".as_slice(),
            0x2f,
            Some(b"t".as_slice()),
            "each known code",
        ),
    ] {
        let info = decode(rt.alloc(), bytes)?;
        assert_eq!(rt; info.get(code), want, "{name}");
    }
    Ok(())
}

#[test]
fn identifies_the_board(rt: HostRuntime) -> Result<(), Fail> {
    for (bytes, arch, machine, revision) in [
        (
            b"TlvInfo\0\x01\0$(\x14x86_64-kvm_x86_64-r0$\x06\0\x11\"3DU\xfe\x04\x99!\xba\x7f".as_slice(),
            "x86_64",
            "kvm_x86_64",
            "0",
        ),
        (
            b"TlvInfo\0\x01\0\x19(\x09a-b-r1-r2$\x06\0\x11\"3DU\xfe\x04\xd0\xf5\x95\xfb".as_slice(),
            "a",
            "b-r1",
            "2",
        ),
        (
            b"TlvInfo\0\x01\0\x1a(\x0aa-b-c-rd.e$\x06\0\x11\"3DU\xfe\x04\x81\xd1\xf5a".as_slice(),
            "a",
            "b-c",
            "d.e",
        ),
        (
            b"TlvInfo\0\x01\0'(\x17arm64-dell-s5212-rra-rb$\x06\0\x11\"3DU\xfe\x04u\xcfAE".as_slice(),
            "arm64",
            "dell-s5212-rra",
            "b",
        ),
        (
            b"TlvInfo\0\x01\0\xd8(\xc8a-mmmmmmmmmmmmmmmmmmmmmmmmmmmmmmmmmmmmmmmmmmmmmmmmmmmmmmmmmmmmmmmmmmmmmmmmmmmmmmmmmmmmmmmmmmmmmmmmmmmmmmmmmmmmmmmmmmmmmmmmmmmmmmmmmmmmmmmmmmmmmmmmmmmmmmmmmmmmmmmmmmmmmmmmmmmmmmmmmmmmmmmmmmmmmmmmmmm-r1$\x06\0\x11\"3DU\xfe\x040\xab\x03\x1d".as_slice(),
            "a",
            "mmmmmmmmmmmmmmmmmmmmmmmmmmmmmmmmmmmmmmmmmmmmmmmmmmmmmmmmmmmmmmmmmmmmmmmmmmmmmmmmmmmmmmmmmmmmmmmmmmmmmmmmmmmmmmmmmmmmmmmmmmmmmmmmmmmmmmmmmmmmmmmmmmmmmmmmmmmmmmmmmmmmmmmmmmmmmmmmmmmmmmmmmmmmmmmmmmm",
            "1",
        ),
    ] {
        let info = decode(rt.alloc(), bytes)?;
        let board = identity(&info)?;
        assert_eq!(rt; board.arch.as_str(), arch);
        assert_eq!(rt; board.machine.as_str(), machine);
        assert_eq!(rt; board.revision.as_str(), revision);
        assert_eq!(rt;
            Some(board.platform.as_str().as_bytes()),
            info.get(PLATFORM)
        );
        assert_eq!(rt; board.mac.bytes, [0x00, 0x11, 0x22, 0x33, 0x44, 0x55]);
    }
    Ok(())
}

#[test]
fn names_what_the_identity_lacks(rt: HostRuntime) -> Result<(), Fail> {
    for (bytes, want) in [
        (
            b"TlvInfo\0\x01\0\x0e$\x06\0\x11\"3DU\xfe\x04\xdd\xa2\xae_".as_slice(),
            IdentFault::NoPlatform,
        ),
        (
            b"TlvInfo\0\x01\0\x1c(\x14x86_64-kvm_x86_64-r0\xfe\x04\xb1\xf3\xc4W".as_slice(),
            IdentFault::NoMac,
        ),
        (
            b"TlvInfo\0\x01\0\x09(\x01x\xfe\x04\xf3[\x9f\xa5".as_slice(),
            IdentFault::Platform,
        ),
        (
            b"TlvInfo\0\x01\0\x10(\0$\x06\0\x11\"3DU\xfe\x04\xd9\x90`\xf4".as_slice(),
            IdentFault::Platform,
        ),
        (
            b"TlvInfo\0\x01\0\x16(\x06x86_64$\x06\0\x11\"3DU\xfe\x04\xc5\x7f\xacR".as_slice(),
            IdentFault::Platform,
        ),
        (
            b"TlvInfo\0\x01\0\x13(\x03a-b$\x06\0\x11\"3DU\xfe\x04\x1c\x95\xbc\xb8".as_slice(),
            IdentFault::Platform,
        ),
        (
            b"TlvInfo\0\x01\0\x14(\x04a-r1$\x06\0\x11\"3DU\xfe\x049h1\x02".as_slice(),
            IdentFault::Platform,
        ),
        (
            b"TlvInfo\0\x01\0\x15(\x05-b-r1$\x06\0\x11\"3DU\xfe\x04\x15l9\x1a".as_slice(),
            IdentFault::Platform,
        ),
        (
            b"TlvInfo\0\x01\0\x15(\x05a--r1$\x06\0\x11\"3DU\xfe\x04\x8dO\xa8\x84".as_slice(),
            IdentFault::Platform,
        ),
        (
            b"TlvInfo\0\x01\0\x15(\x05a-b-r$\x06\0\x11\"3DU\xfe\x04\x16\xf7V\x89".as_slice(),
            IdentFault::Platform,
        ),
        (
            b"TlvInfo\0\x01\0\x18(\x08a-b-r1-r$\x06\0\x11\"3DU\xfe\x04wY^\x05".as_slice(),
            IdentFault::Platform,
        ),
        (
            b"TlvInfo\0\x01\0\x17(\x07a-b+-r1$\x06\0\x11\"3DU\xfe\x04\xd5\xff\x8b0".as_slice(),
            IdentFault::Platform,
        ),
        (
            b"TlvInfo\0\x01\0\xd9(\xc9a-mmmmmmmmmmmmmmmmmmmmmmmmmmmmmmmmmmmmmmmmmmmmmmmmmmmmmmmmmmmmmmmmmmmmmmmmmmmmmmmmmmmmmmmmmmmmmmmmmmmmmmmmmmmmmmmmmmmmmmmmmmmmmmmmmmmmmmmmmmmmmmmmmmmmmmmmmmmmmmmmmmmmmmmmmmmmmmmmmmmmmmmmmmmmmmmmmmmm-r1$\x06\0\x11\"3DU\xfe\x04\xcdn\xfd?".as_slice(),
            IdentFault::Platform,
        ),
    ] {
        let info = decode(rt.alloc(), bytes)?;
        assert_eq!(rt; identity(&info).err(), Some(want));
    }
    Ok(())
}

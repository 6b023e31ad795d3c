//! Against the format: what servers sent, what was sent to them, and the answers that the format gives.

use super::*;
use bd_dev::{Bytes, Memory};
use bd_text::{Mac, V4};
use std::alloc::Global;
use std::test::Fail;

/// Zeros for the longest field.
const ZEROS: [u8; 128] = [0; 128];

/// A reply with these bytes in its three fields, and zeros behind those of `sname` and `file`.
fn reply(alloc: Global, sname: &[u8], file: &[u8], options: &[u8]) -> Result<Bytes, Memory> {
    let mut bytes = Bytes::from_slice(alloc, &[0; 44])?;
    for (text, size) in [(sname, 64usize), (file, 128)] {
        bytes.push_slice(text)?;
        bytes.push_slice(&ZEROS[..size.saturating_sub(text.len()).min(128)])?;
    }
    bytes.push_slice(b"\x63\x82Sc")?;
    bytes.push_slice(options)?;
    Ok(bytes)
}

#[test]
fn refuses_what_lacks_the_front(rt: HostRuntime) {
    let mut bytes = [0; 240];
    assert_eq!(rt;
        decode(rt.alloc(), &bytes[..239]).err(),
        Some(DhcpFault::Short)
    );
    assert_eq!(rt; decode(rt.alloc(), &[]).err(), Some(DhcpFault::Short));
    assert_eq!(rt; decode(rt.alloc(), &bytes).err(), Some(DhcpFault::NoCookie));
    bytes[236..].copy_from_slice(&[99, 130, 83, 98]);
    assert_eq!(rt; decode(rt.alloc(), &bytes).err(), Some(DhcpFault::NoCookie));
    bytes[239] = 99;
    assert_eq!(rt; decode(rt.alloc(), &bytes).err(), None, "no options at all");
}

/// The first fault, in the order options field, overload, `file`, `sname`.
#[test]
fn refuses_the_first_fault(rt: HostRuntime) -> Result<(), Fail> {
    for (sname, file, options, want, name) in [
        (
            b"".as_slice(),
            b"".as_slice(),
            b"\x35".as_slice(),
            Some(DhcpFault::Cut { at: 240 }),
            "a code alone",
        ),
        (
            b"",
            b"",
            b"\0\0\x35\x01\x02\x36\x04\x0a\0\0",
            Some(DhcpFault::Cut { at: 245 }),
            "a byte too few",
        ),
        (b"", b"", b"\x35\x01\x02", None, "no end"),
        (
            b"",
            b"",
            b"\xff\x35\x09",
            None,
            "a cut option behind the end",
        ),
        (
            b"",
            b"",
            b"\x34\x01\x04",
            Some(DhcpFault::Overload(4)),
            "overload of 4",
        ),
        (
            b"",
            b"",
            b"\x34\x01\0",
            Some(DhcpFault::Overload(0)),
            "overload of 0",
        ),
        (
            b"",
            b"",
            b"\x34\0",
            Some(DhcpFault::Overload(0)),
            "an empty overload",
        ),
        (
            b"",
            b"",
            b"\x34\x02\x03\x01",
            Some(DhcpFault::Overload(3)),
            "an overload of two bytes",
        ),
        (
            b"",
            b"",
            b"\x34\x01\x02\xff\x34\x01\x02",
            None,
            "one overload, and one behind the end",
        ),
        (
            b"",
            b"",
            b"\x34\x01\x02\x34\x01\x02",
            Some(DhcpFault::Overload(2)),
            "two overloads",
        ),
        (
            b"",
            b"\x43\xff",
            b"\x34\x01\x02",
            None,
            "a cut option in a field that isn't overloaded",
        ),
        (
            b"",
            b"\0\x43\xff",
            b"\x34\x01\x01",
            Some(DhcpFault::Cut { at: 109 }),
            "cut in the file field",
        ),
        (
            b"\x42\x3f",
            b"",
            b"\x34\x01\x02",
            Some(DhcpFault::Cut { at: 44 }),
            "cut in the sname field",
        ),
        (
            b"\x42\x3e",
            b"",
            b"\x34\x01\x02",
            None,
            "an option that fills the sname field",
        ),
        (
            b"\x42\x3f",
            b"\x43\x7f",
            b"\x34\x01\x03",
            Some(DhcpFault::Cut { at: 108 }),
            "cut in both",
        ),
        (
            b"",
            b"\x43\xff",
            b"\x34\x01\x09",
            Some(DhcpFault::Overload(9)),
            "overload before the file field",
        ),
        (
            b"",
            b"",
            b"\x34\x01\x09\x43",
            Some(DhcpFault::Cut { at: 243 }),
            "the options field before the overload",
        ),
        (
            b"",
            b"\x34\x01\x09",
            b"\x34\x01\x01",
            None,
            "an overload in the file field",
        ),
    ] {
        let bytes = reply(rt.alloc(), sname, file, options)?;
        assert_eq!(rt; decode(rt.alloc(), bytes.as_slice()).err(), want, "{name}");
    }
    Ok(())
}

#[test]
fn reads_the_options(rt: HostRuntime) -> Result<(), Fail> {
    let longest = [b'a'; 255];
    let mut full = Bytes::from_slice(rt.alloc(), b"\x72\xff")?;
    full.push_slice(&longest)?;
    for (sname, file, options, code, want, name) in [
        (
            b"".as_slice(),
            b"".as_slice(),
            b"\xff".as_slice(),
            114,
            None,
            "no option",
        ),
        (
            b"",
            b"",
            b"\x72\0",
            114,
            Some(b"".as_slice()),
            "an empty value",
        ),
        (
            b"",
            b"",
            full.as_slice(),
            114,
            Some(longest.as_slice()),
            "255 bytes",
        ),
        (
            b"",
            b"",
            b"\0\x72\x01a\0\0\x43\x01b\0\xff",
            67,
            Some(b"b"),
            "pads",
        ),
        (
            b"",
            b"",
            b"\x72\x01a\xff\x43\x01b",
            67,
            None,
            "behind the end",
        ),
        (
            b"",
            b"",
            b"\x72\x02ab\x43\x01x\x72\0\x72\x01c\xff",
            114,
            Some(b"abc"),
            "split over three options",
        ),
        (
            b"\x72\x01c",
            b"\x72\x01b",
            b"\x34\x01\x03\x72\x01a\xff",
            114,
            Some(b"abc"),
            "split over three fields",
        ),
        (
            b"\x72\x01c",
            b"\x72\x01b",
            b"\x34\x01\x01\x72\x01a\xff",
            114,
            Some(b"ab"),
            "the file field alone",
        ),
        (
            b"\x72\x01c",
            b"\x72\x01b",
            b"\x34\x01\x02\x72\x01a\xff",
            114,
            Some(b"ac"),
            "the sname field alone",
        ),
        (
            b"\x72\x01c",
            b"\x72\x01b",
            b"\x72\x01a\xff",
            114,
            Some(b"a"),
            "neither",
        ),
        (
            b"",
            b"\xff\x72\x01b",
            b"\x34\x01\x01\xff",
            114,
            None,
            "behind the end of the file field",
        ),
        (
            b"",
            b"\x34\x01\x02",
            b"\x34\x01\x01\xff",
            52,
            Some(b"\x01"),
            "the overload in the file field counts for nothing",
        ),
    ] {
        let bytes = reply(rt.alloc(), sname, file, options)?;
        let message = decode(rt.alloc(), bytes.as_slice())?;
        assert_eq!(rt; message.options.get(code), want, "{name}");
    }
    Ok(())
}

#[test]
fn reads_the_texts_of_fields(rt: HostRuntime) -> Result<(), Fail> {
    for (sname, file, options, name_want, file_want, name) in [
        (
            b"".as_slice(),
            b"".as_slice(),
            b"".as_slice(),
            b"".as_slice(),
            b"".as_slice(),
            "empty",
        ),
        (b"srv\0x", b"\0f", b"", b"srv", b"", "up to the first zero"),
        (
            &[b's'; 64],
            &[b'f'; 128],
            b"",
            &[b's'; 64],
            &[b'f'; 128],
            "without a zero",
        ),
        (
            b"srv",
            b"\x72\x01b",
            b"\x34\x01\x01",
            b"srv",
            b"",
            "options in the file field",
        ),
        (
            b"\x72\x01b",
            b"f",
            b"\x34\x01\x02",
            b"",
            b"f",
            "options in the sname field",
        ),
    ] {
        let bytes = reply(rt.alloc(), sname, file, options)?;
        let message = decode(rt.alloc(), bytes.as_slice())?;
        assert_eq!(rt; message.sname.as_slice(), name_want, "{name}");
        assert_eq!(rt; message.file.as_slice(), file_want, "{name}");
    }
    Ok(())
}

/// An acknowledgment of busybox's udhcpd 1.35.0.
#[test]
fn reads_a_reply_of_a_server(rt: HostRuntime) -> Result<(), Fail> {
    let bytes =
        b"\x02\x01\x06\05ON\x11\0\0\x80\0\0\0\0\0\n\t\0\x17\n\t\0\x05\0\0\0\0\x80\xa25ON\x10\0\0\0\0\0\0\0\0\0\010.9.0.6\0\0\0\0\0\0\0\0\0\0\0\0\0\0\0\0\0\0\0\0\0\0\0\0\0\0\0\0\0\0\0\0\0\0\0\0\0\0\0\0\0\0\0\0\0\0\0\0\0\0\0\0\0\0\0\0pub/onie.bin\0\0\0\0\0\0\0\0\0\0\0\0\0\0\0\0\0\0\0\0\0\0\0\0\0\0\0\0\0\0\0\0\0\0\0\0\0\0\0\0\0\0\0\0\0\0\0\0\0\0\0\0\0\0\0\0\0\0\0\0\0\0\0\0\0\0\0\0\0\0\0\0\0\0\0\0\0\0\0\0\0\0\0\0\0\0\0\0\0\0\0\0\0\0\0\0\0\0\0\0\0\0\0\0\0\0\0\0\0\0\0\0\0\0\0\0c\x82Sc5\x01\x056\x04\n\t\0\x013\x04\0\0\x0e\x10\x01\x04\xff\xff\xff\0\x03\x04\n\t\0\x01\x06\x08\n\t\0\x01\n\t\0\x02\x0f\x08lab.test\xff\0\0\0\0\0\0\0\0\0\0\0\0".as_slice();
    let message = decode(rt.alloc(), bytes)?;
    assert_eq!(rt;
        (message.op, message.xid, message.flags),
        (2, 0x354f4e11, 0x8000)
    );
    assert_eq!(rt; message.yiaddr.bytes, [10, 9, 0, 23]);
    assert_eq!(rt; message.siaddr.bytes, [10, 9, 0, 5]);
    assert_eq!(rt; message.chaddr.bytes, [0x80, 0xa2, 0x35, 0x4f, 0x4e, 0x10]);
    assert_eq!(rt; message.sname.as_slice(), b"10.9.0.6".as_slice());
    assert_eq!(rt; message.file.as_slice(), b"pub/onie.bin".as_slice());
    for (code, want) in [
        (53, Some(b"\x05".as_slice())),
        (54, Some(b"\x0a\x09\0\x01")),
        (6, Some(b"\x0a\x09\0\x01\x0a\x09\0\x02")),
        (15, Some(b"lab.test")),
        (67, None),
    ] {
        assert_eq!(rt; message.options.get(code), want, "option {code}");
    }
    Ok(())
}

/// The first message of a client to which dnsmasq, ISC's dhcpd, Kea and udhcpd answer.
#[test]
fn writes_what_servers_answer(rt: HostRuntime) -> Result<(), Fail> {
    let mut options = Options::new(rt.alloc());
    options.push(53, Bytes::from_slice(rt.alloc(), b"\x01")?)?;
    options.push(
        60,
        Bytes::from_slice(rt.alloc(), b"onie_vendor:x86_64-accton_as7712_32x-r0")?,
    )?;
    options.push(55, Bytes::from_slice(rt.alloc(), b"\x01\x03\x06BCHr}\x96")?)?;
    let zero = V4 { bytes: [0; 4] };
    let message = Message {
        op: 1,
        xid: 0x354f4e11,
        flags: 0x8000,
        yiaddr: zero,
        siaddr: zero,
        chaddr: Mac {
            bytes: [0x80, 0xa2, 0x35, 0x4f, 0x4e, 0x10],
        },
        sname: Bytes::from_slice(rt.alloc(), b"")?,
        file: Bytes::from_slice(rt.alloc(), b"")?,
        options,
    };
    let bytes = encode(rt.alloc(), &message)?;
    assert_eq!(rt;
        bytes.as_slice(),
        b"\x01\x01\x06\05ON\x11\0\0\x80\0\0\0\0\0\0\0\0\0\0\0\0\0\0\0\0\0\x80\xa25ON\x10\0\0\0\0\0\0\0\0\0\0\0\0\0\0\0\0\0\0\0\0\0\0\0\0\0\0\0\0\0\0\0\0\0\0\0\0\0\0\0\0\0\0\0\0\0\0\0\0\0\0\0\0\0\0\0\0\0\0\0\0\0\0\0\0\0\0\0\0\0\0\0\0\0\0\0\0\0\0\0\0\0\0\0\0\0\0\0\0\0\0\0\0\0\0\0\0\0\0\0\0\0\0\0\0\0\0\0\0\0\0\0\0\0\0\0\0\0\0\0\0\0\0\0\0\0\0\0\0\0\0\0\0\0\0\0\0\0\0\0\0\0\0\0\0\0\0\0\0\0\0\0\0\0\0\0\0\0\0\0\0\0\0\0\0\0\0\0\0\0\0\0\0\0\0\0\0\0\0\0\0\0\0\0\0\0\0\0\0\0\0\0\0\0\0\0\0\0\0\0\0\0\0c\x82Sc5\x01\x01<'onie_vendor:x86_64-accton_as7712_32x-r07\t\x01\x03\x06BCHr}\x96\xff".as_slice()
    );
    Ok(())
}

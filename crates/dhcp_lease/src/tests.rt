//! Leases that servers gave, and values of options of every kind.

use super::*;
use arrayvec::ArrayVec;
use bd_dev::{Bytes, Memory};
use bd_text::V4;
use dhcp_msg::{Message, decode};
use std::alloc::Global;
use std::test::Fail;

/// The server of all replies here.
const SERVER: V4 = V4 {
    bytes: [10, 9, 0, 1],
};

/// Zeros for the longest field.
const ZEROS: [u8; 128] = [0; 128];

/// A text, or nothing where there is none: no text is empty.
fn shown(text: &Option<Bytes>) -> &[u8] {
    match text {
        Some(text) => text.as_slice(),
        None => b"",
    }
}

/// The bytes of some addresses.
fn listed(alloc: Global, addresses: &ArrayVec<V4, 8>) -> Result<Bytes, Memory> {
    let mut bytes = Bytes::from_slice(alloc, b"")?;
    for address in addresses.as_slice() {
        bytes.push_slice(&address.bytes)?;
    }
    Ok(bytes)
}

/// A reply with these texts in its fields and these options.
fn reply(alloc: Global, sname: &[u8], file: &[u8], options: &[u8]) -> Result<Message, Fail> {
    let mut bytes = Bytes::from_slice(alloc, &[0; 44])?;
    for (text, size) in [(sname, 64usize), (file, 128)] {
        bytes.push_slice(text)?;
        bytes.push_slice(&ZEROS[..size.saturating_sub(text.len()).min(128)])?;
    }
    bytes.push_slice(b"\x63\x82Sc")?;
    bytes.push_slice(options)?;
    Ok(decode(alloc, bytes.as_slice())?)
}

/// What the servers were set up to give.
#[test]
fn reads_the_leases_of_servers(rt: HostRuntime) -> Result<(), Fail> {
    for (bytes, address, siaddr, lists, texts, name) in [
        (
            b"\x02\x01\x06\05ON\x11\0\0\x80\0\0\0\0\0\n\t\0\x14\n\t\0\x01\0\0\0\0\x80\xa25ON\x10\0\0\0\0\0\0\0\0\0\0}'\0\0\xa6\x7f\"\x01 http://10.9.0.1/of-125/installer\xff\0\0\0\0\0\0\0\0\0\0\0\0\0\0\0\0\0\0\0\0\0\0rhhttp://10.9.0.1/directory00/directory01/directory02/directory03/directory04/directory05/directory06/onie\xff\0\0\0\0\0\0\0\0\0\0\0\0\0\0\0\0\0\0\0\0\0c\x82Sc5\x01\x056\x04\n\t\0\x013\x04\0\0\x0e\x10:\x04\0\0\x07\x08;\x04\0\0\x0cN\x01\x04\xff\xff\xff\0\x1c\x04\n\t\0\xff\x03\x04\n\t\0\x01\x06 \n\t\0\x01\n\t\0\x02\n\t\0\x03\n\t\0\x04\n\t\0\x05\n\t\0\x06\n\t\0\x07\n\t\0\x08H@\n\t\x03\x01\n\t\x03\x02\n\t\x03\x03\n\t\x03\x04\n\t\x03\x05\n\t\x03\x06\n\t\x03\x07\n\t\x03\x08\n\t\x03\t\n\t\x03\n\n\t\x03\x0b\n\t\x03\x0c\n\t\x03\r\n\t\x03\x0e\n\t\x03\x0f\n\t\x03\x10B tftp-server-of-the-lab.lab.test\0Capub/folder/folder/folder/folder/folder/folder/folder/folder/folder/folder/folder/folder/onie.bin\04\x01\x03\xff".as_slice(),
            [10, 9, 0, 20],
            [10, 9, 0, 1],
            [
                b"\n\t\0\x01\n\t\0\x02\n\t\0\x03\n\t\0\x04\n\t\0\x05\n\t\0\x06\n\t\0\x07\n\t\0\x08".as_slice(),
                b"\n\t\x03\x01\n\t\x03\x02\n\t\x03\x03\n\t\x03\x04\n\t\x03\x05\n\t\x03\x06\n\t\x03\x07\n\t\x03\x08",
                b"",
            ],
            [
                b"tftp-server-of-the-lab.lab.test".as_slice(),
                b"pub/folder/folder/folder/folder/folder/folder/folder/folder/folder/folder/folder/folder/onie.bin",
                b"http://10.9.0.1/directory00/directory01/directory02/directory03/directory04/directory05/directory06/onie",
                b"http://10.9.0.1/of-125/installer",
                b"",
            ],
            "dnsmasq 2.90, options in all three fields",
        ),
        (
            b"\x02\x01\x06\05ON\x11\0\0\x80\0\0\0\0\0\n\t\0\x15\0\0\0\0\0\0\0\0\x80\xa25ON\x10\0\0\0\0\0\0\0\0\0\0\0\0\0\0\0\0\0\0\0\0\0\0\0\0\0\0\0\0\0\0\0\0\0\0\0\0\0\0\0\0\0\0\0\0\0\0\0\0\0\0\0\0\0\0\0\0\0\0\0\0\0\0\0\0\0\0\0\0\0\0\0\0\0\0\0\0\0\0\0\0\0\0\0\0\0\0\0\0\0\0\0\0\0\0\0\0\0\0\0\0\0\0\0\0\0\0\0\0\0\0\0\0\0\0\0\0\0\0\0\0\0\0\0\0\0\0\0\0\0\0\0\0\0\0\0\0\0\0\0\0\0\0\0\0\0\0\0\0\0\0\0\0\0\0\0\0\0\0\0\0\0\0\0\0\0\0\0\0\0\0\0\0\0\0\0\0\0\0\0\0\0\0\0\0\0\0\0\0\0\0\0\0\0\0\0\0\0\0\0\0\0\0c\x82Sc5\x01\x056\x04\n\t\0\x013\x04\0\0\x0e\x10\x01\x04\xff\xff\xff\0}Y\0\0\0\0\x03\x01\x01\x01\0\0\xa6\x7fL\x01%http://10.9.0.1/onie-installer-of-125\x02#http://10.9.0.1/onie-updater-of-125\xff",
            [10, 9, 0, 21],
            [0, 0, 0, 0],
            [b"", b"", b""],
            [
                b"",
                b"",
                b"",
                b"http://10.9.0.1/onie-installer-of-125",
                b"http://10.9.0.1/onie-updater-of-125",
            ],
            "ISC's dhcpd 4.4.3, a configuration for ONIE",
        ),
        (
            b"\x02\x01\x06\05ON\x11\0\0\x80\0\0\0\0\0\n\t\0\x15\0\0\0\0\0\0\0\0\x80\xa25ON\x10\0\0\0\0\0\0\0\0\0\0\0\0\0\0\0\0\0\0\0\0\0\0\0\0\0\0\0\0\0\0\0\0\0\0\0\0\0\0\0\0\0\0\0\0\0\0\0\0\0\0\0\0\0\0\0\0\0\0\0\0\0\0\0\0\0\0\0\0\0\0\0\0\0\0rhhttp://10.9.0.1/directory00/directory01/directory02/directory03/directory04/directory05/directory06/onie\xff\0\0\0\0\0\0\0\0\0\0\0\0\0\0\0\0\0\0\0\0\0c\x82Sc5\x01\x056\x04\n\t\0\x013\x04\0\0\x0e\x10\x01\x04\xff\xff\xff\0\x06\x08\n\t\0\x01\n\t\0\x02B)tftp-server-server-server-server-server-xC`pub/folder/folder/folder/folder/folder/folder/folder/folder/folder/folder/folder/folder/onie.binH \n\t\x03\x01\n\t\x03\x02\n\t\x03\x03\n\t\x03\x04\n\t\x03\x05\n\t\x03\x06\n\t\x03\x07\n\t\x03\x08}Y\0\0\0\0\x03\x01\x01\x01\0\0\xa6\x7fL\x01%http://10.9.0.1/onie-installer-of-125\x02#http://10.9.0.1/onie-updater-of-1254\x01\x01\xff",
            [10, 9, 0, 21],
            [0, 0, 0, 0],
            [
                b"\n\t\0\x01\n\t\0\x02",
                b"\n\t\x03\x01\n\t\x03\x02\n\t\x03\x03\n\t\x03\x04\n\t\x03\x05\n\t\x03\x06\n\t\x03\x07\n\t\x03\x08",
                b"",
            ],
            [
                b"tftp-server-server-server-server-server-x",
                b"pub/folder/folder/folder/folder/folder/folder/folder/folder/folder/folder/folder/folder/onie.bin",
                b"http://10.9.0.1/directory00/directory01/directory02/directory03/directory04/directory05/directory06/onie",
                b"http://10.9.0.1/onie-installer-of-125",
                b"http://10.9.0.1/onie-updater-of-125",
            ],
            "ISC's dhcpd 4.4.3, options in all three fields",
        ),
        (
            b"\x02\x01\x06\05ON\x11\0\0\x80\0\0\0\0\0\n\t\0\x16\n\t\0\x05\0\0\0\0\x80\xa25ON\x10\0\0\0\0\0\0\0\0\0\0\0\0\0\0\0\0\0\0\0\0\0\0\0\0\0\0\0\0\0\0\0\0\0\0\0\0\0\0\0\0\0\0\0\0\0\0\0\0\0\0\0\0\0\0\0\0\0\0\0\0\0\0\0\0\0\0\0\0\0\0\0\0\0\0\0\0\0\0\0\0\0\0\0\0\0\0\0\0\0\0\0\0\0\0\0\0\0\0\0\0\0\0\0\0\0\0\0\0\0\0\0\0\0\0\0\0\0\0\0\0\0\0\0\0\0\0\0\0\0\0\0\0\0\0\0\0\0\0\0\0\0\0\0\0\0\0\0\0\0\0\0\0\0\0\0\0\0\0\0\0\0\0\0\0\0\0\0\0\0\0\0\0\0\0\0\0\0\0\0\0\0\0\0\0\0\0\0\0\0\0\0\0\0\0\0\0\0\0\0\0\0\0c\x82Sc5\x01\x05\x01\x04\xff\xff\xff\0\x03\x04\n\t\0\x01\x06\x08\n\t\0\x01\n\t\0\x023\x04\0\0\x0e\x106\x04\n\t\0\x01B\x0810.9.0.7C\x0cpub/onie.binH\x08\n\t\0\x08\n\t\0\t\x96\x04\n\t\0\x05\xff",
            [10, 9, 0, 22],
            [10, 9, 0, 5],
            [
                b"\n\t\0\x01\n\t\0\x02",
                b"\n\t\0\x08\n\t\0\t",
                b"\n\t\0\x05",
            ],
            [b"10.9.0.7", b"pub/onie.bin", b"", b"", b""],
            "Kea 2.2.0",
        ),
        (
            b"\x02\x01\x06\05ON\x11\0\0\x80\0\0\0\0\0\n\t\0\x17\n\t\0\x05\0\0\0\0\x80\xa25ON\x10\0\0\0\0\0\0\0\0\0\010.9.0.6\0\0\0\0\0\0\0\0\0\0\0\0\0\0\0\0\0\0\0\0\0\0\0\0\0\0\0\0\0\0\0\0\0\0\0\0\0\0\0\0\0\0\0\0\0\0\0\0\0\0\0\0\0\0\0\0pub/onie.bin\0\0\0\0\0\0\0\0\0\0\0\0\0\0\0\0\0\0\0\0\0\0\0\0\0\0\0\0\0\0\0\0\0\0\0\0\0\0\0\0\0\0\0\0\0\0\0\0\0\0\0\0\0\0\0\0\0\0\0\0\0\0\0\0\0\0\0\0\0\0\0\0\0\0\0\0\0\0\0\0\0\0\0\0\0\0\0\0\0\0\0\0\0\0\0\0\0\0\0\0\0\0\0\0\0\0\0\0\0\0\0\0\0\0\0\0c\x82Sc5\x01\x056\x04\n\t\0\x013\x04\0\0\x0e\x10\x01\x04\xff\xff\xff\0\x03\x04\n\t\0\x01\x06\x08\n\t\0\x01\n\t\0\x02\x0f\x08lab.test\xff\0\0\0\0\0\0\0\0\0\0\0\0",
            [10, 9, 0, 23],
            [10, 9, 0, 5],
            [b"\n\t\0\x01\n\t\0\x02", b"", b""],
            [b"10.9.0.6", b"pub/onie.bin", b"", b"", b""],
            "busybox's udhcpd 1.35.0",
        ),
    ] {
        let message = decode(rt.alloc(), bytes)?;
        assert_eq!(rt; message_type(&message), Some(5), "{name}");
        assert_eq!(rt; server(&message), Some(SERVER), "{name}");
        let lease = read_lease(rt.alloc(), &message, SERVER)?;
        assert_eq!(rt; lease.address.bytes, address, "{name}");
        assert_eq!(rt; lease.siaddr.bytes, siaddr, "{name}");
        let [dns, www, tftps] = lists;
        assert_eq!(rt; listed(rt.alloc(), &lease.dns)?.as_slice(), dns, "{name}");
        assert_eq!(rt; listed(rt.alloc(), &lease.www)?.as_slice(), www, "{name}");
        assert_eq!(rt;
            listed(rt.alloc(), &lease.tftps)?.as_slice(),
            tftps,
            "{name}"
        );
        let [tftp_name, file, url, install, update] = texts;
        assert_eq!(rt; shown(&lease.tftp_name), tftp_name, "{name}");
        assert_eq!(rt; shown(&lease.file), file, "{name}");
        assert_eq!(rt; shown(&lease.url), url, "{name}");
        assert_eq!(rt; shown(&lease.onie_install), install, "{name}");
        assert_eq!(rt; shown(&lease.onie_update), update, "{name}");
    }
    Ok(())
}

#[test]
fn reads_texts(rt: HostRuntime) -> Result<(), Fail> {
    for (file, options, want, name) in [
        (b"".as_slice(), b"".as_slice(), b"".as_slice(), "neither"),
        (b"f", b"", b"f", "the field alone"),
        (b"f", b"\x43\x02op", b"op", "the option before the field"),
        (b"f", b"\x43\x05op\0\0\0", b"op", "zeros at the end"),
        (b"f", b"\x43\0", b"f", "an empty option"),
        (b"f", b"\x43\x02\0\0", b"f", "zeros alone"),
        (b"f", b"\x43\x03o p", b"f", "a space"),
        (b"f", b"\x43\x03o\0p", b"f", "a zero within"),
        (b"f", b"\x43\x02o\x7f", b"f", "a byte of 7F"),
        (
            b"f",
            b"\x43\x02!~",
            b"!~",
            "the least and the greatest byte",
        ),
        (b"f g", b"", b"", "a field that is no text"),
        (b"\0f", b"", b"", "an empty field"),
    ] {
        let message = reply(rt.alloc(), b"", file, options)?;
        let lease = read_lease(rt.alloc(), &message, SERVER)?;
        assert_eq!(rt; shown(&lease.file), want, "{name}");
        assert_eq!(rt; shown(&lease.tftp_name), b"".as_slice(), "{name}");
    }
    Ok(())
}

#[test]
fn reads_values_of_a_right_length(rt: HostRuntime) -> Result<(), Fail> {
    for (options, kind, has_server, dns, name) in [
        (b"".as_slice(), None, false, b"".as_slice(), "no option"),
        (b"\x35\x01\x02", Some(2), false, b"", "a type"),
        (b"\x35\0", None, false, b"", "a type of no bytes"),
        (b"\x35\x02\x02\x02", None, false, b"", "a type of two bytes"),
        (b"\x36\x04\x0a\x09\0\x01", None, true, b"", "a server"),
        (
            b"\x36\x03\x0a\x09\0",
            None,
            false,
            b"",
            "a server of three bytes",
        ),
        (
            b"\x36\x05\x0a\x09\0\x01\0",
            None,
            false,
            b"",
            "a server of five bytes",
        ),
        (b"\x06\0", None, false, b"", "an empty list"),
        (
            b"\x06\x04\x01\x02\x03\x04",
            None,
            false,
            b"\x01\x02\x03\x04",
            "a list of one",
        ),
        (
            b"\x06\x05\x01\x02\x03\x04\x05",
            None,
            false,
            b"",
            "a list of five bytes",
        ),
        (
            b"\x06\x02\x01\x02\x06\x02\x03\x04",
            None,
            false,
            b"\x01\x02\x03\x04",
            "an address in two options",
        ),
        (
            b"\x06\x24ABCDEFGHIJKLMNOPQRSTUVWXYZabcdefghij",
            None,
            false,
            b"ABCDEFGHIJKLMNOPQRSTUVWXYZabcdef",
            "nine addresses",
        ),
    ] {
        let message = reply(rt.alloc(), b"", b"", options)?;
        assert_eq!(rt; message_type(&message), kind, "{name}");
        assert_eq!(rt; server(&message).is_some(), has_server, "{name}");
        let lease = read_lease(rt.alloc(), &message, SERVER)?;
        assert_eq!(rt; listed(rt.alloc(), &lease.dns)?.as_slice(), dns, "{name}");
    }
    Ok(())
}

#[test]
fn reads_the_blocks_of_vendors(rt: HostRuntime) -> Result<(), Fail> {
    for (options, install, update, name) in [
        (
            b"\x7d\0".as_slice(),
            b"".as_slice(),
            b"".as_slice(),
            "no block",
        ),
        (
            b"\x7d\x0b\0\0\xa6\x7f\x06\x01\x01i\x02\x01u",
            b"i",
            b"u",
            "both",
        ),
        (
            b"\x7d\x0d\0\0\0\x09\0\0\0\xa6\x7f\x03\x02\x01u",
            b"",
            b"u",
            "another enterprise first, an empty block",
        ),
        (
            b"\x7d\x10\0\0\0\x09\x03\x01\x01x\0\0\xa6\x7f\x03\x01\x01i",
            b"i",
            b"",
            "another enterprise's sub-option 1",
        ),
        (
            b"\x7d\x10\0\0\0\x09\x03\x01\x09x\0\0\xa6\x7f\x03\x01\x01i",
            b"i",
            b"",
            "another enterprise's data are not read",
        ),
        (
            b"\x7d\x10\0\0\xa6\x7f\x03\x01\x01i\0\0\xa6\x7f\x03\x02\x01u",
            b"i",
            b"u",
            "over two blocks",
        ),
        (
            b"\x7d\x10\0\0\xa6\x7f\x03\x01\x01i\0\0\xa6\x7f\x03\x01\x01j",
            b"i",
            b"",
            "the first of two",
        ),
        (
            b"\x7d\x10\0\0\xa6\x7f\x03\x01\x01 \0\0\xa6\x7f\x03\x01\x01j",
            b"",
            b"",
            "the first of two is no text",
        ),
        (
            b"\x7d\x08\0\0\xa6\x7f\x03\x01\x01i\x7d\x08\0\0\xa6\x7f\x03\x02\x01u",
            b"i",
            b"u",
            "over two options",
        ),
        (
            b"\x7d\x0a\0\0\xa6\x7f\x03\x01\x01i\0\0",
            b"",
            b"",
            "half an enterprise at the end",
        ),
        (
            b"\x7d\x07\0\0\xa6\x7f\x03\x01\x01",
            b"",
            b"",
            "a block that ends early",
        ),
        (
            b"\x7d\x08\0\0\xa6\x7f\x03\x01\x02i",
            b"",
            b"",
            "a sub-option that ends early",
        ),
        (
            b"\x7d\x0d\0\0\xa6\x7f\x03\x01\x01i\0\0\0\x09\x01",
            b"",
            b"",
            "a block of another that ends early",
        ),
        (b"\x7d\x04\0\0\xa6\x7f", b"", b"", "no length"),
    ] {
        let message = reply(rt.alloc(), b"", b"", options)?;
        let lease = read_lease(rt.alloc(), &message, SERVER)?;
        assert_eq!(rt; shown(&lease.onie_install), install, "{name}");
        assert_eq!(rt; shown(&lease.onie_update), update, "{name}");
    }
    Ok(())
}

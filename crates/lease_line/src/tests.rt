//! Worked lines.

use super::*;
use bd_dev::Bytes;
use bd_text::Mac;
use std::alloc::Global;
use std::test::Fail;

/// What stands before the options that keys give: a reply to 22334454 of 00:11:22:33:44:55, which gives 10.0.0.20.
fn front(alloc: Global, kind: u8, siaddr: &[u8]) -> Result<Bytes, Fail> {
    let mut bytes = Bytes::from_slice(alloc, b"\x02\x01\x06\0\x22\x33\x44\x54\0\0\0\0\0\0\0\0")?;
    bytes.push_slice(&[10, 0, 0, 20])?;
    bytes.push_slice(siaddr)?;
    bytes.push_slice(b"\0\0\0\0\0\x11\x22\x33\x44\x55")?;
    bytes.push_slice(&[0; 202])?;
    bytes.push_slice(b"\x63\x82Sc\x35\x01")?;
    bytes.push_slice(&[kind])?;
    bytes.push_slice(b"\x36\x04\x0a\0\0\x01\x33\x04\0\0\x0e\x10")?;
    Ok(bytes)
}

/// The packet of a line with these words, or what is wrong with the first wrong one.
fn packet(alloc: Global, kind: ReplyKind, words: &[&[u8]]) -> Result<Bytes, KeyFault> {
    let mut reply = LeaseReply::read(alloc, kind, b"10.0.0.20", b"10.0.0.1")?;
    for word in words {
        reply.take(alloc, word)?;
    }
    let mac = Mac {
        bytes: [0x00, 0x11, 0x22, 0x33, 0x44, 0x55],
    };
    Ok(reply.packet(alloc, mac, 0x22334454)?)
}

#[test]
fn keys_give_options_in_their_order(rt: HostRuntime) -> Result<(), Fail> {
    for (words, siaddr, options, name) in [
        (
            [].as_slice(),
            b"\0\0\0\0".as_slice(),
            b"".as_slice(),
            "no keys",
        ),
        (
            [
                b"dns=10.0.0.1".as_slice(),
                b"url=http://10.0.0.5/nos.bin".as_slice(),
            ]
            .as_slice(),
            b"\0\0\0\0",
            b"\x06\x04\x0a\0\0\x01\x72\x17http://10.0.0.5/nos.bin",
            "an address and a URL",
        ),
        (
            [
                b"mask=255.255.255.0".as_slice(),
                b"router=10.0.0.1,10.0.0.2".as_slice(),
                b"www=10.0.0.3".as_slice(),
                b"tftps=10.0.0.4".as_slice(),
                b"tftp=".as_slice(),
                b"file=a=b".as_slice(),
                b"siaddr=10.0.0.9".as_slice(),
                b"siaddr=10.0.0.8".as_slice(),
            ]
            .as_slice(),
            b"\x0a\0\0\x08",
            b"\x01\x04\xff\xff\xff\0\x03\x08\x0a\0\0\x01\x0a\0\0\x02\x48\x04\x0a\0\0\x03\x96\x04\x0a\0\0\x04\x42\0\x43\x03a=b",
            "all other kinds",
        ),
        (
            [
                b"dns=10.0.0.1".as_slice(),
                b"tftp=x".as_slice(),
                b"dns=10.0.0.2".as_slice(),
                b"tftp=y".as_slice(),
            ]
            .as_slice(),
            b"\0\0\0\0",
            b"\x06\x08\x0a\0\0\x01\x0a\0\0\x02\x42\x02xy",
            "values of one option are joined",
        ),
        (
            [
                b"update=u".as_slice(),
                b"tftp=x".as_slice(),
                b"onie=i".as_slice(),
            ]
            .as_slice(),
            b"\0\0\0\0",
            b"\x7d\x10\0\0\xa6\x7f\x03\x02\x01u\0\0\xa6\x7f\x03\x01\x01i\x42\x01x",
            "two blocks of ONIE's",
        ),
    ] {
        for (kind, code) in [(ReplyKind::Offer, 2), (ReplyKind::Ack, 5)] {
            let mut want = front(rt.alloc(), code, siaddr)?;
            want.push_slice(options)?;
            want.push_slice(b"\xff")?;
            let got = packet(rt.alloc(), kind, words)?;
            assert_eq!(rt; got.as_slice(), want.as_slice(), "{name}");
        }
    }
    Ok(())
}

#[test]
fn the_first_wrong_word_is_told(rt: HostRuntime) -> Result<(), Fail> {
    for (words, want, name) in [
        (
            [b"dns".as_slice()].as_slice(),
            KeyFault::Unknown,
            "no value",
        ),
        (&[b"=x"], KeyFault::Unknown, "no key"),
        (&[b"Dns=10.0.0.1"], KeyFault::Unknown, "a capital letter"),
        (&[b"tftpss=10.0.0.1"], KeyFault::Unknown, "a letter more"),
        (&[b"dns="], KeyFault::Address, "an empty list"),
        (&[b"dns=10.0.0.1,"], KeyFault::Address, "an empty address"),
        (&[b"dns=10.0.0.01"], KeyFault::Address, "a leading zero"),
        (&[b"siaddr=10.0.0.1,10.0.0.2"], KeyFault::Address, "no list"),
        (
            &[b"tftp=x", b"dns=10.0.0", b"x=y"],
            KeyFault::Address,
            "the first of two",
        ),
    ] {
        let got = packet(rt.alloc(), ReplyKind::Offer, words);
        assert_eq!(rt; got.err(), Some(want), "{name}");
    }
    for (address, server) in [
        (b"10.0.0.256".as_slice(), b"10.0.0.1".as_slice()),
        (b"10.0.0.1", b"10.0.0.1:67"),
    ] {
        let got = LeaseReply::read(rt.alloc(), ReplyKind::Ack, address, server);
        assert_eq!(rt; got.err(), Some(KeyFault::Address));
    }
    Ok(())
}

/// The key, and so many letters or addresses.
fn long_word(
    alloc: Global,
    key: &[u8],
    part: &[u8],
    count: usize,
    end: &[u8],
) -> Result<Bytes, Fail> {
    let mut word = Bytes::from_slice(alloc, key)?;
    for _ in 0..count {
        word.push_slice(part)?;
    }
    word.push_slice(end)?;
    Ok(word)
}

/// What is wrong with the first wrong one of two words.
fn fault_of_two(alloc: Global, first: &Bytes, second: &[u8]) -> Option<KeyFault> {
    match packet(alloc, ReplyKind::Ack, [first.as_slice(), second].as_slice()) {
        Ok(_) => None,
        Err(fault) => Some(fault),
    }
}

#[test]
fn an_option_has_at_most_255_bytes(rt: HostRuntime) -> Result<(), Fail> {
    for (key, part, count, end, more, want, name) in [
        (
            b"file=".as_slice(),
            b"f".as_slice(),
            255,
            b"".as_slice(),
            b"tftp=x".as_slice(),
            None,
            "255 letters",
        ),
        (
            b"file=",
            b"f",
            256,
            b"",
            b"tftp=x",
            Some(KeyFault::TextLong),
            "256 letters",
        ),
        (
            b"file=",
            b"f",
            255,
            b"",
            b"file=x",
            Some(KeyFault::TextLong),
            "one more behind",
        ),
        (
            b"dns=",
            b"10.0.0.1,",
            62,
            b"10.0.0.1",
            b"tftp=x",
            None,
            "63 addresses",
        ),
        (
            b"dns=",
            b"10.0.0.1,",
            63,
            b"10.0.0.1",
            b"tftp=x",
            Some(KeyFault::TextLong),
            "64 addresses",
        ),
        (
            b"dns=",
            b"10.0.0.1,",
            63,
            b"10.0.0",
            b"tftp=x",
            Some(KeyFault::Address),
            "64, of which the last is none",
        ),
        (
            b"onie=",
            b"i",
            248,
            b"",
            b"tftp=x",
            None,
            "a block of 255 bytes",
        ),
        (
            b"onie=",
            b"i",
            249,
            b"",
            b"tftp=x",
            Some(KeyFault::TextLong),
            "a block of 256 bytes",
        ),
        (
            b"onie=",
            b"i",
            240,
            b"",
            b"update=u",
            None,
            "two blocks of 255 bytes",
        ),
        (
            b"onie=",
            b"i",
            240,
            b"",
            b"update=uu",
            Some(KeyFault::TextLong),
            "two blocks of 256 bytes",
        ),
    ] {
        let word = long_word(rt.alloc(), key, part, count, end)?;
        let fault = fault_of_two(rt.alloc(), &word, more);
        assert_eq!(rt; fault, want, "{name}");
    }
    Ok(())
}

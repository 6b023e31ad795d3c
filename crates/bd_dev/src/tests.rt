use super::*;
use std::alloc::Global;
use std::test::Fail;

#[test]
fn bytes_and_names_grow(rt: HostRuntime) -> Result<(), Fail> {
    let mut name = Bytes::from_slice(rt.alloc(), b"usb")?;
    name.push_slice(b"0")?;
    assert_eq!(rt; name.as_slice(), b"usb0".as_slice());
    let mut names = Names::new(rt.alloc());
    names.push(name)?;
    assert_eq!(rt; names.as_slice().len(), 1);
    assert_eq!(rt; names.as_slice()[0].as_slice(), b"usb0".as_slice());
    Ok(())
}

#[test]
fn calls_fail_by_their_numbers(rt: HostRuntime) -> Result<(), Fail> {
    let table: [(&[u64], [bool; 4]); 6] = [
        (&[], [false, false, false, false]),
        (&[1], [true, false, false, false]),
        (&[4, 2, 2], [false, true, false, true]),
        (&[0, 5], [false, false, false, false]),
        (&[3], [false, false, true, false]),
        (&[1, 2, 3, 4], [true, true, true, true]),
    ];
    for (fails, want) in table {
        let mut eeprom = MemEeprom::new(rt.alloc(), b"abc", fails)?;
        let mut media = MemMedia::new(rt.alloc(), fails)?;
        let mut sink = MemSink::new(rt.alloc(), fails)?;
        for failed in want {
            let mut out = [0; 2048];
            assert_eq!(rt; eeprom.load(&mut out) == Err(Failed), failed);
            assert_eq!(rt; sink.write(b"x") == Err(Failed), failed);
        }
        assert_eq!(rt;
            media.volumes(rt.alloc()).err() == Some(DevFault::Failed),
            want[0]
        );
        assert_eq!(rt; media.find(b"usb0", b"a") == Err(Failed), want[1]);
        assert_eq!(rt;
            media.read(b"usb0", b"a", 0, &mut [0; 4]) == Err(Failed),
            want[2]
        );
        assert_eq!(rt;
            media.volumes(rt.alloc()).err() == Some(DevFault::Failed),
            want[3]
        );
    }
    Ok(())
}

#[test]
fn eeprom_gives_its_bytes(rt: HostRuntime) -> Result<(), Fail> {
    let mut eeprom = MemEeprom::new(rt.alloc(), b"TlvInfo", &[])?;
    let mut out = [7; 2048];
    assert_eq!(rt; eeprom.load(&mut out)?, 7);
    assert_eq!(rt; &out[..8], b"TlvInfo\x07".as_slice());
    Ok(())
}

#[test]
fn eeprom_is_stored_from_its_front(rt: HostRuntime) -> Result<(), Fail> {
    let mut eeprom = MemEeprom::new(rt.alloc(), b"TlvInfo", &[7])?;
    let table: [(&[u8], Result<(), Failed>, &[u8]); 4] = [
        (b"abc", Ok(()), b"abcInfo"),
        (b"1234567", Ok(()), b"1234567"),
        (b"longer than it", Ok(()), b"longer than it"),
        (b"lost", Err(Failed), b"longer than it"),
    ];
    for (bytes, answer, want) in table {
        assert!(rt; bytes.len() <= 2048);
        assert_eq!(rt; eeprom.store(bytes), answer);
        let mut out = [0; 2048];
        let count = eeprom.load(&mut out)?;
        assert_eq!(rt; &out[..count], want);
    }
    Ok(())
}

fn two_volumes(alloc: Global) -> Result<MemMedia, Memory> {
    let mut media = MemMedia::new(alloc, &[])?;
    media.add(b"usb1", b"a", b"old")?;
    media.add(b"usb0", b"a", b"other")?;
    media.add(b"usb1", b"b", b"")?;
    media.add(b"usb1", b"a", b"0123456789")?;
    Ok(media)
}

#[test]
fn volumes_come_in_order(rt: HostRuntime) -> Result<(), Fail> {
    let names = two_volumes(rt.alloc())?.volumes(rt.alloc())?;
    assert_eq!(rt; names.as_slice().len(), 2);
    assert_eq!(rt; names.as_slice()[0].as_slice(), b"usb1".as_slice());
    assert_eq!(rt; names.as_slice()[1].as_slice(), b"usb0".as_slice());
    Ok(())
}

#[test]
fn files_are_found_by_name(rt: HostRuntime) -> Result<(), Fail> {
    let mut media = two_volumes(rt.alloc())?;
    let table: [(&[u8], &[u8], Option<u64>); 6] = [
        (b"usb1", b"a", Some(10)),
        (b"usb0", b"a", Some(5)),
        (b"usb1", b"b", Some(0)),
        (b"usb0", b"b", None),
        (b"usb2", b"a", None),
        (b"usb1", b"", None),
    ];
    for (volume, name, want) in table {
        assert_eq!(rt; media.find(volume, name)?, want);
    }
    Ok(())
}

#[test]
fn files_are_read_in_pieces(rt: HostRuntime) -> Result<(), Fail> {
    let mut media = two_volumes(rt.alloc())?;
    let table: [(&[u8], u64, &[u8]); 7] = [
        (b"a", 0, b"0123"),
        (b"a", 4, b"4567"),
        (b"a", 8, b"89"),
        (b"a", 10, b""),
        (b"a", 18446744073709551615, b""),
        (b"b", 0, b""),
        (b"absent", 0, b""),
    ];
    for (name, at, want) in table {
        let mut out = [b'-'; 4];
        let count = media.read(b"usb1", name, at, &mut out)?;
        assert_eq!(rt; &out[..count], want);
    }
    Ok(())
}

#[test]
fn sink_takes_bytes_in_order(rt: HostRuntime) -> Result<(), Fail> {
    let mut sink = MemSink::new(rt.alloc(), &[2])?;
    write_all(&mut sink, b"found ")?;
    assert_eq!(rt; write_all(&mut sink, b"lost"), Err(Failed));
    write_all(&mut sink, b"")?;
    write_all(&mut sink, b"file")?;
    assert_eq!(rt; sink.as_slice(), b"found file".as_slice());
    Ok(())
}

#[test]
fn source_is_read_in_pieces(rt: HostRuntime) -> Result<(), Fail> {
    let mut source = MemSource::new(rt.alloc(), b"0123456789", &[3])?;
    let table: [(usize, Result<&[u8], Failed>); 7] = [
        (4, Ok(b"0123")),
        (0, Ok(b"")),
        (4, Err(Failed)),
        (4, Ok(b"4567")),
        (4, Ok(b"89")),
        (4, Ok(b"")),
        (4, Ok(b"")),
    ];
    for (room, want) in table {
        let mut out = [b'-'; 4];
        match source.read(&mut out[..room]) {
            Ok(count) => assert_eq!(rt; want, Ok(&out[..count])),
            Err(failed) => assert_eq!(rt; want, Err(failed)),
        }
    }
    Ok(())
}

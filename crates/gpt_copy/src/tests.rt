//! Copies whose bytes and checksums Python made, and what changes of single rows do to them.

ghost use Rattle.std.specs.Prelude.{◌≡◌, ◌+◌, ◌≤◌, length};

use super::*;
use bd_bytes::crc32;
use bd_text::Guid;
use byteorder::{ByteOrder, LittleEndian};

/// The last sector of the disk.
const LAST: u64 = 1000;

const PRIMARY: &[u8; 92] = b"EFI PART\0\0\x01\0\x5c\0\0\0d\xa0\xa5\xd4\0\0\0\0\x01\0\0\0\0\0\0\0\
\xe8\x03\0\0\0\0\0\0\x22\0\0\0\0\0\0\0\xc7\x03\0\0\0\0\0\x003\x22\x11\0UDwf\x88\x99\xaa\xbb\xcc\xdd\xee\xff\
\x02\0\0\0\0\0\0\0\x80\0\0\0\x80\0\0\0\xf8\x12A\xd5";

const BACKUP: &[u8; 92] = b"EFI PART\0\0\x01\0\x5c\0\0\0\x82$\xcf\xae\0\0\0\0\xe8\x03\0\0\0\0\0\0\
\x01\0\0\0\0\0\0\0\x22\0\0\0\0\0\0\0\xc7\x03\0\0\0\0\0\x003\x22\x11\0UDwf\x88\x99\xaa\xbb\xcc\xdd\xee\xff\
\xc8\x03\0\0\0\0\0\0\x80\0\0\0\x80\0\0\0\xf8\x12A\xd5";

/// The first entry, ONIE's, of sectors 34 to 99 and two attributes, to the end of its name.
const FIRST: &[u8; 74] = b"\xd5\xf7\x12tV\xa1\x13K\x81\xdc\x86qt\x92\x93%\
\x04\x03\x02\x01\x06\x05\x08\x07\x09\x0a\x0b\x0c\x0d\x0e\x0f\x10\
\x22\0\0\0\0\0\0\0c\0\0\0\0\0\0\0\x01\0\0\0\0\0\0\x80O\0N\0I\0E\0-\0B\0O\0O\0T\0";

/// The last entry, of sectors 100 to 966, to its name, which is 36 times `Z`.
const OTHER: &[u8; 56] = b"\xaf=\xc6\x0f\x83\x84rG\x8ey=i\xd8G}\xe4\
\x14\x13\x12\x11\x16\x15\x18\x17\x19\x1a\x1b\x1c\x1d\x1e\x1f \
d\0\0\0\0\0\0\0\xc6\x03\0\0\0\0\0\0\0\0\0\0\0\0\0\0";

/// Where the header and the entries begin.
fn places(which: Which) -> (usize, usize)
    ensures header { result.0 + 512 ≤ 16896 }
    ensures entries { result.1 + 16384 ≤ 16896 }
{
    match which {
        Which::Primary => (0, 512),
        Which::Backup => (16384, 0),
    }
}

fn put(copy: &mut [u8; 16896], at: usize, bytes: &[u8])
    requires { at + length bytes.now ≤ 16896 }
{
    copy[at..at + bytes.len()].copy_from_slice(bytes);
}

fn copy(which: Which) -> [u8; 16896] {
    let (header, entries) = places(which);
    let mut copy = [0; 16896];
    match which {
        Which::Primary => put(&mut copy, header, PRIMARY),
        Which::Backup => put(&mut copy, header, BACKUP),
    }
    put(&mut copy, entries, FIRST);
    put(&mut copy, entries + 127 * 128, OTHER);
    for unit in 0..36 {
        put(&mut copy, entries + 127 * 128 + 56 + 2 * unit, b"Z");
    }
    copy
}

/// Puts the checksums that the bytes have into the header.
fn mend(copy: &mut [u8; 16896], which: Which) {
    let (header, entries) = places(which);
    let mut checksum = [0; 4];
    LittleEndian::write_u32(&mut checksum, crc32(&copy[entries..entries + 16384]));
    put(copy, header + 88, &checksum);
    put(copy, header + 16, &[0; 4]);
    LittleEndian::write_u32(&mut checksum, crc32(&copy[header..header + 92]));
    put(copy, header + 16, &checksum);
}

#[test]
fn both_copies_are_read(rt: HostRuntime) {
    for which in [Which::Primary, Which::Backup] {
        let table = read_copy(&copy(which), which, LAST).expect(&rt, "a copy");
        assert_eq!(rt;
            table.disk.text().as_str(),
            "00112233-4455-6677-8899-aabbccddeeff"
        );
        assert_eq!(rt; (table.first_usable, table.last_usable), (34, 967));
        let [first, second, .., last] = &table.entries;
        assert_eq!(rt;
            first.kind.text().as_str(),
            "7412f7d5-a156-4b13-81dc-867174929325"
        );
        assert_eq!(rt;
            first.guid.text().as_str(),
            "01020304-0506-0708-090a-0b0c0d0e0f10"
        );
        assert_eq!(rt; (first.first, first.last), (34, 99));
        assert_eq!(rt; first.attributes, 0x8000_0000_0000_0001);
        assert!(rt;
            first
                .name
                .starts_with(&[79, 78, 73, 69, 45, 66, 79, 79, 84, 0])
        );
        assert_eq!(rt; second.kind.bytes, [0; 16]);
        assert_eq!(rt;
            last.kind.text().as_str(),
            "0fc63daf-8483-4772-8e79-3d69d8477de4"
        );
        assert_eq!(rt; (last.first, last.last), (100, 966));
        assert_eq!(rt; last.name, [90; 36]);
    }
}

/// A row with another value, under right checksums.
#[test]
fn each_row_counts(rt: HostRuntime) {
    let rows: [(usize, &[u8]); 12] = [
        (0, b"EFI PARS"),
        (8, b"\0\0\x02\0"),
        (12, b"\x5d\0\0\0"),
        (20, b"\0\0\0\x01"),
        (24, b"\x02\0\0\0\0\0\0\0"),
        (32, b"\x02\0\0\0\0\0\0\0"),
        (40, b"\x21\0\0\0\0\0\0\0"),
        (40, b"\xc8\x03\0\0\0\0\0\0"),
        (48, b"\xc8\x03\0\0\0\0\0\0"),
        (72, b"\x03\0\0\0\0\0\0\0"),
        (80, b"\x81\0\0\0"),
        (84, b"\0\x01\0\0"),
    ];
    for which in [Which::Primary, Which::Backup] {
        for (offset, value) in rows {
            let mut copy = copy(which);
            let (header, _) = places(which);
            assert!(rt; offset < 92 && value.len() < 9);
            put(&mut copy, header + offset, value);
            mend(&mut copy, which);
            assert_eq!(rt; read_copy(&copy, which, LAST), None, "{offset}");
        }
    }
}

/// What is changed without its checksum, and where another disk or the other copy is asked for.
#[test]
fn checksums_and_places_count(rt: HostRuntime) {
    for which in [Which::Primary, Which::Backup] {
        let (header, entries) = places(which);
        for at in [header + 16, header + 56, header + 88, entries + 16383] {
            let mut changed = copy(which);
            put(&mut changed, at, b"\xa7");
            assert_eq!(rt; read_copy(&changed, which, LAST), None, "{at}");
        }
        for last_lba in [0, 67, 999, 1001, u64::MAX] {
            assert_eq!(rt; read_copy(&copy(which), which, last_lba), None);
        }
    }
    assert_eq!(rt; read_copy(&copy(Which::Primary), Which::Backup, LAST), None);
}

/// The rest of the header's sector is not looked at, and an entry that is not used keeps its bytes.
#[test]
fn other_bytes_are_free(rt: HostRuntime) {
    for which in [Which::Primary, Which::Backup] {
        let (header, entries) = places(which);
        let mut changed = copy(which);
        put(&mut changed, header + 92, b"\x01");
        put(&mut changed, header + 511, b"\x01");
        assert!(rt; read_copy(&changed, which, LAST).is_some());
        assert_eq!(rt;
            read_copy(&changed, which, LAST),
            read_copy(&copy(which), which, LAST)
        );
        put(&mut changed, entries + 128 + 56, b"\x34\x12");
        mend(&mut changed, which);
        let table = read_copy(&changed, which, LAST).expect(&rt, "a copy");
        assert_eq!(rt; table.entries[1].name[0], 0x1234);
    }
}

/// What Python made is read, and written again, over other bytes.
#[test]
fn what_was_read_is_written(rt: HostRuntime) {
    for which in [Which::Primary, Which::Backup] {
        let table = read_copy(&copy(which), which, LAST).expect(&rt, "a copy");
        let mut out = [0xa5; 16896];
        write_copy(&table, which, LAST, &mut out);
        assert!(rt; out == copy(which));
    }
}

/// An entry of seven sectors whose fields differ from those of every other place.
fn used(place: u8) -> Entry {
    let first = 34 + 7 * u64::from(place);
    Entry {
        kind: Guid {
            bytes: [255 - place; 16],
        },
        guid: Guid { bytes: [place; 16] },
        first,
        last: first + 6,
        attributes: u64::from(place) << 56,
        name: [0x4e00 + u16::from(place); 36],
    }
}

/// A table of 128 used entries.
fn full() -> Table
    ensures first { result.first_usable ≡ 34 }
    ensures last { result.last_usable ≡ 967 }
{
    let mut entries = [used(0); 128];
    for place in 0..128u8 {
        entries[usize::from(place)] = used(place);
    }
    Table {
        disk: Guid { bytes: [0xd1; 16] },
        first_usable: 34,
        last_usable: 967,
        entries,
    }
}

/// The checksum of each copy is that of Python's `zlib.crc32` over its 16,896 bytes.
#[test]
fn a_full_table_is_written_and_read(rt: HostRuntime) {
    for (which, checksum) in [(Which::Primary, 0x92ff_4d67), (Which::Backup, 0x52e1_a404)] {
        let table = full();
        let mut out = [0xa5; 16896];
        write_copy(&table, which, LAST, &mut out);
        assert_eq!(rt; crc32(&out), checksum);
        assert_eq!(rt; read_copy(&out, which, LAST), Some(table));
    }
}

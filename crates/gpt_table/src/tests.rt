//! Changes of a board's table of 131,072 sectors, and runs against a plain scan.

ghost use Rattle.std.specs.Prelude.{◌≢◌};
ghost use Rattle.storage_model.specs.Entries.{IsSane, unused_type};

use super::*;
use bd_text::Guid;
use gpt_copy::{Entry, Table};
use std::process::Abort;

/// 0FC63DAF-8483-4772-8E79-3D69D8477DE4.
pub(crate) const DATA: Guid = Guid {
    bytes: *b"\xaf=\xc6\x0f\x83\x84rG\x8ey=i\xd8G}\xe4",
};

/// 7412F7D5-A156-4B13-81DC-867174929325.
const ONIE: Guid = Guid {
    bytes: *b"\xd5\xf7\x12tV\xa1\x13K\x81\xdc\x86qt\x92\x93%",
};

/// ONIE's type, which is not that of an unused entry.
fn onie(rt: &impl Abort) -> Guid
    ensures { result ≢ unused_type }
{
    let onie = ONIE;
    assert!(rt; onie != ZERO.kind);
    onie
}

/// 01234567-89AB-CDEF-0123-4567000000 and the byte.
pub(crate) fn guid(last: u8) -> Guid {
    let mut guid = Guid {
        bytes: *b"gE#\x01\xab\x89\xef\xcd\x01#Eg\0\0\0\0",
    };
    guid.bytes[15] = last;
    guid
}

fn entry(rt: &impl Abort, first: u64, last: u64, number: u8) -> Entry
    ensures { result.kind ≢ unused_type }
{
    let entry = Entry {
        kind: DATA,
        guid: guid(number),
        first,
        last,
        attributes: 5,
        name: [0x4e; 36],
    };
    assert!(rt; is_used(&entry));
    entry
}

pub(crate) const ZERO: Entry = Entry {
    kind: Guid { bytes: [0; 16] },
    guid: Guid { bytes: [0; 16] },
    first: 0,
    last: 0,
    attributes: 0,
    name: [0; 36],
};

/// Entry 1 is ONIE's, of sectors 2,048 to 18,431.
fn board(rt: &impl Abort) -> Table
    ensures { IsSane result }
{
    let mut entries = [ZERO; 128];
    entries[0] = entry(rt, 2048, 18431, 0xff);
    entries[0].kind = ONIE;
    let table = Table {
        disk: Guid {
            bytes: *b"gE#\x01\xab\x89\xef\xcd\x01#Eg\x89\xab\xcd\xef",
        },
        first_usable: 34,
        last_usable: 131_038,
        entries,
    };
    assert!(rt; sane(&table));
    table
}

#[test]
fn runs_of_the_board(rt: HostRuntime) {
    let mut table = board(&rt);
    assert_eq!(rt; largest_run(&table), Some((18432, 131_038)));
    for (at, run) in [
        (33, None),
        (34, Some((34, 2047))),
        (40, Some((34, 2047))),
        (2047, Some((34, 2047))),
        (2048, None),
        (18431, None),
        (18432, Some((18432, 131_038))),
        (131_038, Some((18432, 131_038))),
        (131_039, None),
    ] {
        assert_eq!(rt; free_run(&table, at), run, "{at}");
    }
    table.entries[5] = entry(&rt, 34, 131_038, 1);
    assert_eq!(rt; largest_run(&table), None);
}

/// The numbers 1 and 2 are taken, 2 by the one that is named; an unused entry takes none.
#[test]
fn guids_of_the_board(rt: HostRuntime) {
    let mut table = board(&rt);
    assert_eq!(rt; new_guid(&table, None), guid(1));
    assert_eq!(rt; new_guid(&table, Some(guid(1))), guid(2));
    table.entries[127] = entry(&rt, 20000, 20007, 1);
    assert_eq!(rt; new_guid(&table, Some(guid(2))), guid(3));
    assert_eq!(rt; new_guid(&table, Some(guid(3))), guid(2));
    table.entries[127].kind = ZERO.kind;
    assert_eq!(rt; new_guid(&table, None), guid(1));
}

#[test]
fn additions(rt: HostRuntime) {
    for (number, first, last, own, answer) in [
        (1, 20000, 20007, 1, Err(EditFault::NumberUsed)),
        (129, 20000, 20007, 1, Err(EditFault::NumberUsed)),
        (128, 20000, 20007, 1, Ok(128)),
        (0, 20000, 19999, 1, Err(EditFault::Range)),
        (0, 20000, 20000, 1, Ok(2)),
        (0, 33, 100, 1, Err(EditFault::Range)),
        (0, 34, 100, 1, Ok(2)),
        (0, 20000, 131_039, 1, Err(EditFault::Range)),
        (0, 20000, 131_038, 1, Ok(2)),
        (0, 2000, 2048, 0xff, Err(EditFault::Overlap)),
        (0, 2000, 2047, 1, Ok(2)),
        (0, 18431, 20000, 1, Err(EditFault::Overlap)),
        (0, 18432, 51199, 1, Ok(2)),
        (0, 20000, 20007, 0xff, Err(EditFault::GuidUsed)),
    ] {
        let mut table = board(&rt);
        let new = entry(&rt, first, last, own);
        assert_eq!(rt; add(&mut table, number, new), answer, "{first} {last}");
        let mut wanted = board(&rt);
        if let Ok(number) = answer {
            assert!(rt; 0 < number && number < 129);
            wanted.entries[number - 1] = new;
        }
        assert_eq!(rt; table, wanted, "{first} {last}");
    }
}

#[test]
fn changes_of_one_entry(rt: HostRuntime) {
    let mut table = board(&rt);
    assert_eq!(rt; add(&mut table, 128, entry(&rt, 20000, 20007, 1)), Ok(128));
    assert_eq!(rt; retype(&mut table, 128, onie(&rt)), Ok(()));
    assert_eq!(rt; rename(&mut table, 128, [0xffff; 36]), Ok(()));
    assert_eq!(rt;
        renumber(&mut table, 128, guid(0xff)),
        Err(EditFault::GuidUsed)
    );
    assert_eq!(rt; renumber(&mut table, 128, guid(1)), Ok(()));
    assert_eq!(rt; renumber(&mut table, 128, guid(7)), Ok(()));
    let mut wanted = board(&rt);
    wanted.entries[127] = entry(&rt, 20000, 20007, 7);
    wanted.entries[127].kind = ONIE;
    wanted.entries[127].name = [0xffff; 36];
    assert_eq!(rt; table, wanted);
    assert_eq!(rt; delete(&mut table, 128), Ok(()));
    assert_eq!(rt; table, board(&rt));
}

#[test]
fn changes_of_no_entry(rt: HostRuntime) {
    for number in [0, 3, 128, 129, usize::MAX] {
        let mut table = board(&rt);
        assert_eq!(rt; delete(&mut table, number), Err(EditFault::NoEntry));
        assert_eq!(rt;
            retype(&mut table, number, onie(&rt)),
            Err(EditFault::NoEntry)
        );
        assert_eq!(rt;
            renumber(&mut table, number, guid(0xff)),
            Err(EditFault::NoEntry)
        );
        assert_eq!(rt;
            rename(&mut table, number, [1; 36]),
            Err(EditFault::NoEntry)
        );
        assert_eq!(rt; table, board(&rt));
    }
}

/// All 128 entries are added, one is taken out and added anew, and then all are taken out.
#[test]
fn a_full_table(rt: HostRuntime) {
    let mut table = board(&rt);
    let empty = Table {
        entries: [ZERO; 128],
        ..table
    };
    table = empty;
    for place in 0..128u8 {
        assert!(rt; sane(&table));
        let number = usize::from(place) + 1;
        let sector = 34 + u64::from(place);
        let new = entry(&rt, sector, sector, place);
        assert_eq!(rt; add(&mut table, 0, new), Ok(number));
    }
    assert!(rt; sane(&table));
    assert_eq!(rt;
        add(&mut table, 0, entry(&rt, 200, 200, 200)),
        Err(EditFault::TableFull)
    );
    assert_eq!(rt;
        add(&mut table, 129, entry(&rt, 200, 200, 200)),
        Err(EditFault::NumberUsed)
    );
    assert_eq!(rt; delete(&mut table, 77), Ok(()));
    assert_eq!(rt; add(&mut table, 0, entry(&rt, 110, 110, 200)), Ok(77));
    for number in 1..129 {
        assert!(rt; sane(&table));
        assert_eq!(rt; delete(&mut table, number), Ok(()));
    }
    assert_eq!(rt; table, empty);
}

/// Whether a sector of a table of sectors 34 to 50 is usable and in no used entry.
fn is_open(table: &Table, sector: u64) -> bool {
    34 <= sector
        && sector <= 50
        && !table.entries.iter().any(|entry| entry.kind != ZERO.kind
            && entry.first <= sector
            && sector <= entry.last)
}

/// By a scan over the sectors: the run that holds the sector, and the longest, the lowest of those of one length.
fn scanned(table: &Table, at: u64) -> (Option<(u64, u64)>, Option<(u64, u64)>) {
    let (mut held, mut longest) = (None, None);
    let (mut length, mut most) = (0u64, 0);
    for sector in 34..52u64 {
        if is_open(table, sector) {
            length = length.saturating_add(1);
        } else if 0 < length {
            let first = sector.saturating_sub(length);
            let run = Some((first, sector - 1));
            if first <= at && at < sector {
                held = run;
            }
            if most < length {
                longest = run;
                most = length;
            }
            length = 0;
        }
    }
    (held, longest)
}

/// Tables with three entries at any places, which may overlap, be empty or lie outside.
#[test]
fn runs_are_those_of_a_scan(rt: HostRuntime) {
    let mut seed = 1u64;
    for _ in 0..500u64 {
        let mut table = board(&rt);
        table.last_usable = 50;
        for place in 0..3usize {
            seed = (seed % 65537) * 75 % 65537;
            let first = 30 + seed % 24;
            table.entries[place] = entry(&rt, first, (first + seed / 24 % 7).saturating_sub(1), 1);
        }
        let at = 32 + seed % 20;
        let (held, longest) = scanned(&table, at);
        assert_eq!(rt; free_run(&table, at), held);
        assert_eq!(rt; largest_run(&table), longest);
    }
}

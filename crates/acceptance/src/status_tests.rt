//! `status` over boards in memory. The bytes and checksums of the tables were made by Python.

ghost use Rattle.std.specs.Prelude.{◌≤◌};

use crate::calls::run;
use bd_dev::MemSink;
use bd_sim::SimPlant;
use onie_cli::{Outcome, SoundKind, Status};
use std::alloc::Global;
use std::process::Abort;
use std::test::Fail;

/// The size of the disk, 128 sectors, and of the flash, 34.
const DISK: usize = 65_536;

const FLASH: usize = 17_408;

/// The headers, with zero in place of both checksums. Sectors 34 to 94 are usable.
const PRIMARY: &[u8; 92] =
    b"EFI PART\0\0\x01\0\\\0\0\0\0\0\0\0\0\0\0\0\x01\0\0\0\0\0\0\0\x7f\0\0\0\0\0\0\0\"\0\0\0\0\
\0\0\0^\0\0\0\0\0\0\0gE#\x01\xab\x89\xef\xcd\x01#Eg\x89\xab\xcd\xef\x02\0\0\0\0\0\0\0\
\x80\0\0\0\x80\0\0\0\0\0\0\0";

const BACKUP: &[u8; 92] =
    b"EFI PART\0\0\x01\0\\\0\0\0\0\0\0\0\0\0\0\0\x7f\0\0\0\0\0\0\0\x01\0\0\0\0\0\0\0\"\0\0\0\0\
\0\0\0^\0\0\0\0\0\0\0gE#\x01\xab\x89\xef\xcd\x01#Eg\x89\xab\xcd\xef_\0\0\0\0\0\0\0\x80\0\
\0\0\x80\0\0\0\0\0\0\0";

/// ONIE's entry, sectors 40 to 50, and what it is with the type of Linux data.
const ONIE: &[u8] =
    b"\xd5\xf7\x12tV\xa1\x13K\x81\xdc\x86qt\x92\x93%gE#\x01\xab\x89\xef\xcd\x01#Eg\0\0\0\xff(\
\0\0\0\0\0\0\02\0\0\0\0\0\0\0\0\0\0\0\0\0\0\0O\0N\0I\0E\0-\0B\0O\0O\0T";

const LINUX: &[u8] =
    b"\xaf=\xc6\x0f\x83\x84rG\x8ey=i\xd8G}\xe4gE#\x01\xab\x89\xef\xcd\x01#Eg\0\0\0\xff(\0\0\0\
\0\0\0\02\0\0\0\0\0\0\0\0\0\0\0\0\0\0\0O\0N\0I\0E\0-\0B\0O\0O\0T";

/// A table: its two entries, and the checksums of the primary's header, of the backup's and of the entries.
#[derive(Clone, Copy)]
struct TableBytes {
    first: &'static [u8],
    second: &'static [u8],
    primary: &'static [u8; 4],
    backup: &'static [u8; 4],
    entries: &'static [u8; 4],
}

const SOUND: TableBytes = TableBytes {
    first: ONIE,
    second: b"",
    primary: b"\x6c\x73\x22\xcd",
    backup: b"\x68\x4b\x93\x11",
    entries: b"\xaa\xba\x7c\xe1",
};

/// With Linux data in sectors 51 to 94, whose name ends in a letter outside ASCII.
const WITH_NOS: TableBytes = TableBytes {
    first: ONIE,
    second: b"\xaf=\xc6\x0f\x83\x84rG\x8ey=i\xd8G}\xe4gE#\x01\xab\x89\xef\xcd\x01#Eg\0\0\0\x013\0\0\0\
\0\0\0\0^\0\0\0\0\0\0\0\0\0\0\0\0\0\0\0N\0O\0S\0 \0\xe9",
    primary: b"\xff\xfc\x65\x2d",
    backup: b"\xfb\xc4\xd4\xf1",
    entries: b"\xe7\x6b\xba\xa3",
};

/// Sectors 90 to 95, of which the last is not usable.
const OUTSIDE: TableBytes = TableBytes {
    first: ONIE,
    second: b"\xaf=\xc6\x0f\x83\x84rG\x8ey=i\xd8G}\xe4gE#\x01\xab\x89\xef\xcd\x01#Eg\0\0\0\x01Z\0\0\0\
\0\0\0\0_",
    primary: b"\xc0\x65\x34\x4c",
    backup: b"\xc4\x5d\x85\x90",
    entries: b"\xb7\xf8\x71\x2c",
};

/// Sectors 50 to 60, of which the first is ONIE's last.
const SHARED: TableBytes = TableBytes {
    first: ONIE,
    second: b"\xaf=\xc6\x0f\x83\x84rG\x8ey=i\xd8G}\xe4gE#\x01\xab\x89\xef\xcd\x01#Eg\0\0\0\x012\0\0\0\
\0\0\0\0<",
    primary: b"\xaa\xc0\xb4\x7b",
    backup: b"\xae\xf8\x05\xa7",
    entries: b"\x61\xcc\x60\x40",
};

/// With ONIE's own GUID.
const ONE_GUID: TableBytes = TableBytes {
    first: ONIE,
    second: b"\xaf=\xc6\x0f\x83\x84rG\x8ey=i\xd8G}\xe4gE#\x01\xab\x89\xef\xcd\x01#Eg\0\0\0\xff3\0\0\0\
\0\0\0\0<",
    primary: b"\xff\x91\x5e\xea",
    backup: b"\xfb\xa9\xef\x36",
    entries: b"\xf9\xad\x21\xa6",
};

const NO_ONIE: TableBytes = TableBytes {
    first: LINUX,
    second: b"",
    primary: b"\x61\x5a\xd6\x53",
    backup: b"\x65\x62\x67\x8f",
    entries: b"\x6d\x2b\x28\x95",
};

const TWO_ONIE: TableBytes = TableBytes {
    first: ONIE,
    second: b"\xd5\xf7\x12tV\xa1\x13K\x81\xdc\x86qt\x92\x93%gE#\x01\xab\x89\xef\xcd\x01#Eg\0\0\0\x013\
\0\0\0\0\0\0\0<",
    primary: b"\x12\xdb\x86\x7f",
    backup: b"\x16\xe3\x37\xa3",
    entries: b"\xc1\x5c\xcb\xdc",
};

/// Puts bytes at an offset, where there is room.
fn put(area: &mut [u8], at: usize, bytes: &[u8])
    requires { at ≤ 65536 }
{
    if at <= area.len() && bytes.len() <= area.len() - at {
        area[at..at + bytes.len()].copy_from_slice(bytes);
    }
}

/// Puts a copy, whose header and entries begin at these offsets.
fn put_copy(
    disk: &mut [u8],
    header: usize,
    entries: usize,
    bytes: &[u8],
    sum: &[u8],
    table: TableBytes,
)
    requires header { header ≤ 65024 }
    requires entries { entries ≤ 65024 }
{
    let (first, second, entries_sum) = (table.first, table.second, table.entries);
    put(disk, header, bytes);
    put(disk, header + 16, sum);
    put(disk, header + 88, entries_sum.as_slice());
    put(disk, entries, first);
    put(disk, entries + 128, second);
}

/// A disk with both copies of the table, and an image of one byte in ONIE's partition.
fn disk(alloc: Global, table: TableBytes) -> Result<Vec<u8>, Fail> {
    let mut disk = [0; 512].as_slice().repeat(alloc, DISK / 512)?;
    let (primary, backup) = (table.primary, table.backup);
    put_copy(&mut disk, 512, 1024, PRIMARY, primary.as_slice(), table);
    put_copy(
        &mut disk,
        127 * 512,
        95 * 512,
        BACKUP,
        backup.as_slice(),
        table,
    );
    put(&mut disk, 40 * 512, b"ONIEIMG1\x01\0\0\0");
    put(&mut disk, 41 * 512, b"\x01");
    Ok(disk)
}

/// A flash whose slot 0 has this text as number 1.
fn flash(alloc: Global, text: &[u8]) -> Result<Vec<u8>, Fail> {
    let mut flash = [0; 512].as_slice().repeat(alloc, FLASH / 512)?;
    put(&mut flash, 0, b"ONIEOPEN");
    put(
        &mut flash,
        512,
        &[1, 0, 0, 0, 0, 0, 0, 0, text.len().min(255) as u8, 0, 0, 0],
    );
    put(&mut flash, 524, text);
    Ok(flash)
}

/// A plant whose areas hold these bytes, whose call of the number fails.
fn plant(alloc: Global, disk: &[u8], flash: &[u8], fails: u64) -> Result<SimPlant, Fail> {
    if disk.len() > DISK || disk.len() % 512 != 0 || flash.len() > FLASH || flash.len() % 512 != 0 {
        return Err(Fail::new("a size"));
    }
    Ok(SimPlant::new(alloc, disk, flash, &[fails])?)
}

const INSTALL: &[u8] = b"onie_boot_reason=install\0";

const ENTRY_1: &str =
    "entry 1 01234567-89ab-cdef-0123-4567000000ff 7412f7d5-a156-4b13-81dc-867174929325 40 50 ONIE-BOOT\n";

const ENTRY_2: &str =
    "entry 2 01234567-89ab-cdef-0123-456700000001 0fc63daf-8483-4772-8e79-3d69d8477de4 51 94 NOS ?\n";

/// What `status` answers over the plant, and what the console took. The console's call of the number fails.
fn status(
    alloc: Global,
    plant: &mut SimPlant,
    console_fails: u64,
) -> Result<(Status, MemSink), Fail> {
    run(alloc, plant, &["status"], console_fails)
}

/// Whether `status` answers this and prints these parts.
fn says(
    rt: &(impl Abort + AllocGlobal),
    disk: &[u8],
    flash: &[u8],
    want: Status,
    parts: [&str; 4],
) -> Result<(), Fail> {
    let mut plant = plant(rt.alloc(), disk, flash, 0)?;
    let (status, console) = status(rt.alloc(), &mut plant, 0)?;
    assert_eq!(rt; status, want);
    let mut text = String::new(rt.alloc());
    for part in parts {
        text.push_str(part)?;
    }
    assert_eq!(rt; console.as_slice(), text.as_bytes());
    Ok(())
}

const PRINTED: Status = Status::Done(Outcome::Printed);

#[test]
fn shows_the_table_and_the_mode(rt: HostRuntime) -> Result<(), Fail> {
    let text = ["table primary\n", ENTRY_1, "boots onie install\n", ""];
    let mut disk = disk(rt.alloc(), SOUND)?;
    let flash = flash(rt.alloc(), INSTALL)?;
    says(&rt, &disk, &flash, PRINTED, text)?;
    put(&mut disk, 512, b"\0");
    let text = ["table backup\n", ENTRY_1, "boots onie install\n", ""];
    says(&rt, &disk, &flash, PRINTED, text)
}

/// Variables, and the line of what boots.
#[test]
fn shows_what_boots(rt: HostRuntime) -> Result<(), Fail> {
    let table: [(&[u8], &str); 8] = [
        (b"", "boots onie install\n"),
        (b"onie_boot_reason=diag\0", "boots onie install\n"),
        (b"onie_boot_reason=rescue\0", "boots onie rescue\n"),
        (
            b"nos_bootcmd=boot 01234567-89AB-cdef-0123-456700000001\0",
            "boots nos 01234567-89ab-cdef-0123-456700000001\n",
        ),
        (
            b"nos_bootcmd=boot 01234567-89ab-cdef-0123-4567000000ff\0",
            "boots onie install\n",
        ),
        (
            b"nos_bootcmd=boot 01234567-89ab-cdef-0123-456700000002\0",
            "boots onie install\n",
        ),
        (
            b"nos_bootcmd=boot  01234567-89ab-cdef-0123-456700000001\0",
            "boots onie install\n",
        ),
        (
            b"onie_boot_reason=embed\0nos_bootcmd=boot 01234567-89ab-cdef-0123-456700000001\0",
            "boots onie embed\n",
        ),
    ];
    let disk = disk(rt.alloc(), WITH_NOS)?;
    for (text, boots) in table {
        let flash = flash(rt.alloc(), text)?;
        says(
            &rt,
            &disk,
            &flash,
            PRINTED,
            ["table primary\n", ENTRY_1, ENTRY_2, boots],
        )?;
    }
    Ok(())
}

/// Tables whose entries are wrong, and the kind.
#[test]
fn refuses_wrong_entries(rt: HostRuntime) -> Result<(), Fail> {
    let table = [
        (OUTSIDE, SoundKind::Entries, "entries\n"),
        (SHARED, SoundKind::Entries, "entries\n"),
        (ONE_GUID, SoundKind::Entries, "entries\n"),
        (NO_ONIE, SoundKind::NoOnie, "no onie\n"),
        (TWO_ONIE, SoundKind::TwoOnie, "two onie\n"),
    ];
    let flash = flash(rt.alloc(), INSTALL)?;
    for (bytes, kind, line) in table {
        let disk = disk(rt.alloc(), bytes)?;
        says(
            &rt,
            &disk,
            &flash,
            Status::NotSound(kind),
            ["onie: not sound: ", line, "", ""],
        )?;
    }
    Ok(())
}

/// Bytes over a sound disk or flash, and the kind. Where two tests fail, the earlier one counts.
#[test]
fn refuses_what_is_missing(rt: HostRuntime) -> Result<(), Fail> {
    let table: [(usize, usize, usize, SoundKind, &str); 6] = [
        (512, 127 * 512, 0, SoundKind::NoTable, "no table\n"),
        (40 * 512, 40 * 512, DISK, SoundKind::NoImage, "no image\n"),
        (
            40 * 512 + 8,
            40 * 512 + 8,
            DISK,
            SoundKind::NoImage,
            "no image\n",
        ),
        (40 * 512, 40 * 512, 0, SoundKind::NoImage, "no image\n"),
        (DISK, DISK, 0, SoundKind::NoVars, "no variables\n"),
        (DISK, DISK, 540, SoundKind::NoVars, "no variables\n"),
    ];
    for (first, second, third, kind, line) in table {
        let mut disk = disk(rt.alloc(), SOUND)?;
        let mut flash = flash(rt.alloc(), INSTALL)?;
        put(&mut disk, first, b"\0");
        put(&mut disk, second, b"\0");
        put(&mut flash, third, b"\0");
        says(
            &rt,
            &disk,
            &flash,
            Status::NotSound(kind),
            ["onie: not sound: ", line, "", ""],
        )?;
    }
    Ok(())
}

#[test]
fn a_disk_of_67_sectors_has_no_table(rt: HostRuntime) -> Result<(), Fail> {
    let disk = disk(rt.alloc(), SOUND)?;
    let flash = flash(rt.alloc(), INSTALL)?;
    let Some(small) = disk.get(..67 * 512) else {
        return Err(Fail::new("no disk"));
    };
    let mut plant = plant(rt.alloc(), small, &flash, 0)?;
    let (status, console) = status(rt.alloc(), &mut plant, 0)?;
    assert_eq!(rt; status, Status::NotSound(SoundKind::NoTable));
    assert_eq!(rt;
        console.as_slice(),
        b"onie: not sound: no table\n".as_slice()
    );
    Ok(())
}

/// Each call of the plant fails in turn, up to the number of calls that are made.
#[test]
fn each_fault_of_the_plant_is_told(rt: HostRuntime) -> Result<(), Fail> {
    let mut broken = disk(rt.alloc(), SOUND)?;
    put(&mut broken, 512, b"\0");
    let flash = flash(rt.alloc(), INSTALL)?;
    let mut whole = plant(rt.alloc(), &broken, &flash, 0)?;
    let (answer, _) = status(rt.alloc(), &mut whole, 0)?;
    assert_eq!(rt; answer, PRINTED);
    assert!(rt; whole.calls() > 3);
    for number in 1..=whole.calls() {
        let mut plant = plant(rt.alloc(), &broken, &flash, number)?;
        let (status, console) = status(rt.alloc(), &mut plant, 0)?;
        assert_eq!(rt; status, Status::PlantFault);
        assert_eq!(rt; console.as_slice(), b"onie: plant fault\n".as_slice());
        assert_eq!(rt; plant.calls(), number);
    }
    Ok(())
}

/// The console fails at each of its calls in turn: it took what comes before.
#[test]
fn a_fault_of_the_console_ends_the_text(rt: HostRuntime) -> Result<(), Fail> {
    let disk = disk(rt.alloc(), SOUND)?;
    let flash = flash(rt.alloc(), INSTALL)?;
    for (number, want) in [
        (1, ""),
        (2, "table primary\n"),
        (3, "table primary\nentry "),
    ] {
        let mut plant = plant(rt.alloc(), &disk, &flash, 0)?;
        let (status, console) = status(rt.alloc(), &mut plant, number)?;
        assert_eq!(rt; status, Status::SinkFault);
        assert_eq!(rt; console.as_slice(), want.as_bytes());
    }
    Ok(())
}

//! Disks that are opened and whose table is replaced, cut at each moment or failing at each call.

ghost use Rattle.std.specs.Prelude.{◌≤◌, ◌-◌};
ghost use Rattle.gpt_copy.specs.Copy.{FitsDisk};

use super::*;
use crate::copies::read_table;
use crate::tests::{DATA, ZERO, guid};
use bd_dev::{Area, Failed, Plant};
use bd_sim::{Pick, SimPlant};
use gpt_copy::{Entry, Table, Which, write_copy};
use std::alloc::Global;
use std::test::Fail;

/// A table whose second entry is that of the number. All other bytes of its entries are zero.
fn table(sectors: u64, number: u8) -> Table
    requires { 68 ≤ sectors }
    ensures { FitsDisk (sectors - 1) result }
{
    let mut entries = [ZERO; 128];
    entries[1] = Entry {
        kind: DATA,
        guid: guid(number),
        first: 34,
        last: 34,
        attributes: 5,
        name: [0x4e; 36],
    };
    Table {
        disk: guid(0),
        first_usable: 34,
        last_usable: sectors - 34,
        entries,
    }
}

/// Puts bytes at an offset, where there is room.
fn put(disk: &mut [u8], at: usize, bytes: &[u8]) {
    if at <= disk.len() && bytes.len() <= disk.len() - at {
        disk[at..at + bytes.len()].copy_from_slice(bytes);
    }
}

/// A disk of zeros but for two copies, of the tables of these numbers.
fn disk(alloc: Global, sectors: usize, primary: u8, backup: u8) -> Result<Vec<u8>, Fail>
    requires least { 68 ≤ sectors }
    requires most { sectors ≤ 131072 }
{
    let last = sectors as u64 - 1;
    let mut disk = [0; 512].as_slice().repeat(alloc, sectors)?;
    let mut copy = [0; 16896];
    let first = table(sectors as u64, primary);
    write_copy(&first, Which::Primary, last, &mut copy);
    put(&mut disk, 512, &copy);
    let second = table(sectors as u64, backup);
    write_copy(&second, Which::Backup, last, &mut copy);
    put(&mut disk, 512 * (sectors - 33), &copy);
    Ok(disk)
}

/// A plant with this disk and no flash, whose calls of these numbers fail.
fn plant(alloc: Global, disk: &[u8], fails: &[u64]) -> Result<SimPlant, Fail> {
    if disk.len() > 1 << 30 || disk.len() % 512 != 0 {
        return Err(Fail::new("a size"));
    }
    Ok(SimPlant::new(alloc, disk, &[], fails)?)
}

/// Syncs the disk, and replaces its table by that of the number.
fn replace_by(plant: &mut SimPlant, number: u8) -> Result<(), GptFault> {
    plant.sync(Area::Disk)?;
    let sectors = plant.sectors(Area::Disk);
    if sectors < 68 {
        return Err(GptFault::NoTable);
    }
    replace(plant, &table(sectors, number))?;
    Ok(())
}

/// Syncs the disk, and opens its table.
fn open_synced(plant: &mut SimPlant) -> Result<Table, GptFault> {
    plant.sync(Area::Disk)?;
    open(plant)
}

/// What a copy reads as.
fn copy_of(plant: &mut SimPlant, which: Which) -> Result<Option<Table>, Failed> {
    let sectors = plant.sectors(Area::Disk);
    if sectors < 68 {
        return Ok(None);
    }
    read_table(plant, which, sectors)
}

/// Whether the disk's table is this one.
fn has_table(plant: &mut SimPlant, table: &Table) -> bool {
    match look(plant) {
        Ok((found, _)) => found == *table,
        Err(_) => false,
    }
}

/// Whether both copies read as this table.
fn reads_both(plant: &mut SimPlant, table: &Table) -> Result<bool, Fail> {
    let primary = copy_of(plant, Which::Primary)?;
    let backup = copy_of(plant, Which::Backup)?;
    Ok(primary == Some(*table) && backup == Some(*table))
}

/// The sectors of the disk that may be torn within a call.
fn torn_sectors(alloc: Global, plant: &SimPlant, moment: u64) -> Result<Vec<u64>, Fail> {
    let mut sectors = Vec::new(alloc);
    for lba in 0..plant.sectors(Area::Disk) {
        if plant.allows(moment, &[(Area::Disk, lba, Pick::Old)]) {
            sectors.push(lba)?;
        }
    }
    Ok(sectors)
}

/// Whether these sectors, which rise, are 33 from the first one on.
fn is_copy(sectors: &[u64], first: u64) -> bool {
    sectors.len() == 33 && sectors[0] == first && sectors[32] == first.saturating_add(32)
}

/// How a sector is left: in the first four ways as each other one, in the next four as the fourth one from it.
fn pick_of(way: u64, lba: u64) -> Pick {
    let number = if way < 4 { way } else { lba % 4 + way % 4 };
    match number % 4 {
        0 => Pick::Old,
        1 => Pick::New,
        2 => Pick::Torn(0),
        _ => Pick::Torn(255),
    }
}

/// Whether a power cut within a call may tear a sector.
fn may_tear(alloc: Global, plant: &SimPlant, moment: u64) -> Result<bool, Fail> {
    let torn = torn_sectors(alloc, plant, moment)?;
    Ok(torn.len() != 0)
}

/// What a power cut within a call leaves, where all sectors that may be torn are left in a way.
fn image(alloc: Global, plant: &SimPlant, moment: u64, way: u64) -> Result<SimPlant, Fail> {
    let mut picks = Vec::new(alloc);
    for lba in torn_sectors(alloc, plant, moment)? {
        picks.push((Area::Disk, lba, pick_of(way % 8, lba)))?;
    }
    if !plant.allows(moment, picks.as_slice()) {
        return Err(Fail::new("no such moment"));
    }
    Ok(plant.image(moment, picks.as_slice())?)
}

/// Whether a power cut within any call leaves this table.
fn keeps(alloc: Global, plant: &SimPlant, table: &Table) -> Result<bool, Fail> {
    for moment in 0..=plant.calls() {
        let ways = if may_tear(alloc, plant, moment)? {
            4
        } else {
            1
        };
        for way in 0..ways {
            if !has_table(&mut image(alloc, plant, moment, way)?, table) {
                return Ok(false);
            }
        }
    }
    Ok(true)
}

/// Whether a disk that a power cut left has one of two tables, is repaired by the next opening, and keeps its table
/// over each power cut within that.
fn survives(alloc: Global, left: &mut SimPlant, old: &Table, new: &Table) -> Result<bool, Fail> {
    let table = if has_table(left, old) { old } else { new };
    if !has_table(left, table) || open_synced(left) != Ok(*table) {
        return Ok(false);
    }
    Ok(reads_both(left, table)? && keeps(alloc, left, table)?)
}

/// Whether a replacement on a disk of so many sectors, and then the repair of what it left, survive each power cut. The
/// first leaves the sectors in four ways, from this one on.
fn all_survive(alloc: Global, sectors: usize, way: u64) -> Result<bool, Fail>
    requires least { 68 ≤ sectors }
    requires most { sectors ≤ 131072 }
    requires way { way ≤ 4 }
{
    let mut plant = plant(alloc, &disk(alloc, sectors, 1, 1)?, &[])?;
    let (old, new) = (table(sectors as u64, 1), table(sectors as u64, 2));
    if replace_by(&mut plant, 2) != Ok(()) || !reads_both(&mut plant, &new)? {
        return Ok(false);
    }
    for moment in 0..=plant.calls() {
        let ways = if may_tear(alloc, &plant, moment)? {
            4
        } else {
            1
        };
        for other in 0..ways {
            let mut left = image(alloc, &plant, moment, way + other)?;
            if !survives(alloc, &mut left, &old, &new)? {
                return Ok(false);
            }
        }
    }
    Ok(true)
}

#[test]
fn a_cut_replacement_is_repaired(rt: HostRuntime) -> Result<(), Fail> {
    assert!(rt; all_survive(rt.alloc(), 68, 0)?);
    Ok(())
}

#[test]
fn a_cut_replacement_that_tears_each_sector_otherwise_is_repaired(
    rt: HostRuntime,
) -> Result<(), Fail> {
    assert!(rt; all_survive(rt.alloc(), 68, 4)?);
    Ok(())
}

#[test]
fn a_cut_replacement_of_a_larger_disk_is_repaired(rt: HostRuntime) -> Result<(), Fail> {
    assert!(rt; all_survive(rt.alloc(), 128, 0)?);
    Ok(())
}

/// The primary is written, then synced, then the backup is written, then synced, which are the calls 2 to 5. The first
/// half of a torn sector is new: with zeros behind it the copy is whole, since there are zeros, and with other bytes
/// it is not readable.
#[test]
fn a_torn_copy_counts_where_it_is_whole(rt: HostRuntime) -> Result<(), Fail> {
    let alloc = rt.alloc();
    let mut plant = plant(alloc, &disk(alloc, 68, 1, 1)?, &[])?;
    assert_eq!(rt; replace_by(&mut plant, 2), Ok(()));
    let (old, new) = (table(68, 1), table(68, 2));
    let primary = [
        (old, Which::Primary),
        (new, Which::Primary),
        (new, Which::Primary),
        (old, Which::Backup),
    ];
    for way in 0..4u64 {
        for moment in [2, 3] {
            let mut left = image(alloc, &plant, moment, way)?;
            assert_eq!(rt; look(&mut left), Ok(primary[way as usize]));
        }
        for moment in [4, 5] {
            let mut left = image(alloc, &plant, moment, way)?;
            assert_eq!(rt; look(&mut left), Ok((new, Which::Primary)));
        }
    }
    Ok(())
}

/// Two writes of 33 sectors each, and a sync behind each.
#[test]
fn a_replacement_writes_66_sectors(rt: HostRuntime) -> Result<(), Fail> {
    let alloc = rt.alloc();
    let mut plant = plant(alloc, &disk(alloc, 100, 1, 1)?, &[])?;
    assert_eq!(rt; replace_by(&mut plant, 2), Ok(()));
    assert_eq!(rt; plant.calls(), 5);
    for (moment, first) in [(2, 1), (3, 1), (4, 67), (5, 67)] {
        let torn = torn_sectors(alloc, &plant, moment)?;
        assert!(rt; is_copy(&torn, first), "call {moment}");
    }
    Ok(())
}

#[test]
fn a_replacement_follows_one_that_failed(rt: HostRuntime) -> Result<(), Fail> {
    let alloc = rt.alloc();
    let disk = disk(alloc, 68, 1, 1)?;
    for (call, number) in [(1, 1), (2, 1), (3, 2), (4, 2), (5, 2)] {
        let mut plant = plant(alloc, &disk, &[call])?;
        assert_eq!(rt;
            replace_by(&mut plant, 2),
            Err(GptFault::Fault),
            "call {call}"
        );
        let table = table(68, number);
        assert_eq!(rt; open_synced(&mut plant), Ok(table), "call {call}");
        assert!(rt; reads_both(&mut plant, &table)?, "call {call}");
        assert_eq!(rt; replace_by(&mut plant, 3), Ok(()), "call {call}");
    }
    Ok(())
}

/// A sync, two reads or three, a write and a sync: of a disk whose copies differ, and of one whose primary is torn.
#[test]
fn an_opening_follows_one_that_failed(rt: HostRuntime) -> Result<(), Fail> {
    let alloc = rt.alloc();
    let differing = disk(alloc, 68, 1, 2)?;
    let mut torn = disk(alloc, 68, 2, 1)?;
    put(&mut torn, 1024, &[0xee]);
    let table = table(68, 1);
    for (disk, calls) in [(differing, 5), (torn, 6)] {
        for call in 1..=calls {
            let mut plant = plant(alloc, &disk, &[call])?;
            assert_eq!(rt;
                open_synced(&mut plant),
                Err(GptFault::Fault),
                "call {call}"
            );
            assert_eq!(rt; open_synced(&mut plant), Ok(table), "call {call}");
            assert!(rt; reads_both(&mut plant, &table)?, "call {call}");
        }
    }
    Ok(())
}

/// How a disk of the tables 1 and 2 is opened: the number of the table, the calls after the first sync, the last of them
/// a sync where there are four or more, and the first of the 33 sectors that are written.
#[derive(Clone, Copy)]
struct Opening {
    number: u8,
    calls: u64,
    written: Option<u64>,
}

/// Whether a disk is opened so, and both copies are the table then.
fn opens_so(alloc: Global, disk: &[u8], opening: &Opening) -> Result<bool, Fail> {
    let mut plant = plant(alloc, disk, &[])?;
    let sectors = plant.sectors(Area::Disk);
    if sectors < 68 {
        return Ok(false);
    }
    let table = table(sectors, opening.number);
    if open_synced(&mut plant) != Ok(table) || plant.calls() != opening.calls.saturating_add(1) {
        return Ok(false);
    }
    let torn = torn_sectors(alloc, &plant, opening.calls)?;
    let written = match opening.written {
        Some(first) => is_copy(&torn, first),
        None => torn.len() == 0,
    };
    Ok(written && reads_both(&mut plant, &table)?)
}

/// Whether disks of so many sectors are opened as they should be.
fn all_open(alloc: Global, sectors: usize) -> Result<bool, Fail>
    requires least { 68 ≤ sectors }
    requires most { sectors ≤ 131072 }
{
    let backup = sectors as u64 - 33;
    let agree = Opening {
        number: 1,
        calls: 2,
        written: None,
    };
    let later = Opening {
        number: 1,
        calls: 4,
        written: Some(backup),
    };
    let first = Opening {
        number: 2,
        calls: 5,
        written: Some(1),
    };
    let mut both = disk(alloc, sectors, 1, 1)?;
    let mut differing = disk(alloc, sectors, 1, 2)?;
    let mut ok = opens_so(alloc, &both, &agree)? && opens_so(alloc, &differing, &later)?;
    // The rest of the backup's header is part of no table.
    put(&mut both, 512 * (sectors - 1) + 92, &[0xee; 420]);
    ok = ok && opens_so(alloc, &both, &agree)?;
    // An entry of the backup without its checksum, and then one of the primary.
    put(&mut both, 512 * (sectors - 33), &[0xee]);
    ok = ok && opens_so(alloc, &both, &later)?;
    put(&mut differing, 1024, &[0xee]);
    Ok(ok && opens_so(alloc, &differing, &first)?)
}

#[test]
fn an_opening_writes_the_lesser_copy(rt: HostRuntime) -> Result<(), Fail> {
    for sectors in [68, 69, 4096] {
        assert!(rt; all_open(rt.alloc(), sectors)?, "{sectors}");
    }
    Ok(())
}

/// 64 MiB, the disk of a board.
#[test]
fn an_opening_of_a_large_disk(rt: HostRuntime) -> Result<(), Fail> {
    let differing = disk(rt.alloc(), 131_072, 1, 2)?;
    let later = Opening {
        number: 1,
        calls: 4,
        written: Some(131_039),
    };
    assert!(rt; opens_so(rt.alloc(), &differing, &later)?);
    Ok(())
}

/// Without a table nothing is written: a disk with neither copy, and one too small.
#[test]
fn no_table_is_opened(rt: HostRuntime) -> Result<(), Fail> {
    for (sectors, calls) in [(0, 1), (67, 1), (68, 3), (1000, 3)] {
        let disk = [0; 512].as_slice().repeat(rt.alloc(), sectors)?;
        let mut plant = plant(rt.alloc(), &disk, &[])?;
        assert_eq!(rt;
            open_synced(&mut plant),
            Err(GptFault::NoTable),
            "{sectors}"
        );
        assert_eq!(rt; plant.calls(), calls, "{sectors}");
    }
    Ok(())
}

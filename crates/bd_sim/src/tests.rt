use super::*;
use bd_dev::{Area, Failed, Plant};
use std::alloc::Global;
use std::test::Fail;

// Four bytes of a sector: the first and the last of each half. None where there is no such sector.
fn corners(plant: &mut SimPlant, area: Area, lba: u64) -> Result<Option<[u8; 4]>, Failed> {
    if lba >= plant.sectors(area) {
        return Ok(None);
    }
    let mut out = [0; 512];
    plant.read(area, lba, &mut out)?;
    Ok(Some([out[0], out[255], out[256], out[511]]))
}

// Fills a sector with a byte.
fn put(plant: &mut SimPlant, area: Area, lba: u64, byte: u8) -> Result<(), Failed> {
    if lba >= plant.sectors(area) {
        return Err(Failed);
    }
    plant.write(area, lba, &[byte; 512])
}

// The disk's first two sectors and the flash's first.
fn three_sectors(image: &mut SimPlant) -> Result<[Option<[u8; 4]>; 3], Failed> {
    let first = corners(image, Area::Disk, 0)?;
    let second = corners(image, Area::Disk, 1)?;
    let flash = corners(image, Area::Flash, 0)?;
    Ok([first, second, flash])
}

// These as a power cut leaves them. None where these picks may not be asked.
fn left_by(
    plant: &SimPlant,
    moment: u64,
    picks: &[(Area, u64, Pick)],
) -> Result<Option<[Option<[u8; 4]>; 3]>, Fail> {
    if !plant.allows(moment, picks) {
        return Ok(None);
    }
    let mut image = plant.image(moment, picks)?;
    Ok(Some(three_sectors(&mut image)?))
}

// The same by a snapshot.
fn left_by_snapshot(
    plant: &SimPlant,
    moment: u64,
    picks: &[(Area, u64, Pick)],
) -> Result<Option<[Option<[u8; 4]>; 3]>, Fail> {
    if moment > plant.calls() {
        return Ok(None);
    }
    let snapshot = plant.snapshot(moment)?;
    if !snapshot.allows(picks) {
        return Ok(None);
    }
    let mut image = snapshot.image(picks)?;
    Ok(Some(three_sectors(&mut image)?))
}

// What `left_by` gives where each of the three sectors is whole.
fn whole(first: u8, second: u8, flash: u8) -> Option<[Option<[u8; 4]>; 3]> {
    Some([Some([first; 4]), Some([second; 4]), Some([flash; 4])])
}

#[test]
fn reads_what_was_written(rt: HostRuntime) -> Result<(), Fail> {
    let mut plant = SimPlant::new(rt.alloc(), &[1; 2048], &[2; 1024], &[])?;
    plant.write(Area::Disk, 1, &[7; 1024])?;
    let mut out = [0; 2048];
    plant.read(Area::Disk, 0, &mut out)?;
    for (at, want) in [
        (0, 1),
        (511, 1),
        (512, 7),
        (1535, 7),
        (1536, 1),
        (2047, 1_u8),
    ] {
        assert_eq!(rt; out.get(at), Some(&want), "at {at}");
    }
    assert_eq!(rt; corners(&mut plant, Area::Flash, 1)?, Some([2; 4]));
    assert_eq!(rt; corners(&mut plant, Area::Flash, 2)?, None);
    assert_eq!(rt; plant.calls(), 3);
    Ok(())
}

#[test]
fn calls_fail_by_their_numbers(rt: HostRuntime) -> Result<(), Fail> {
    let mut plant = SimPlant::new(rt.alloc(), &[9; 1024], &[9; 512], &[2, 4, 5])?;
    assert_eq!(rt; put(&mut plant, Area::Disk, 0, 1), Ok(()));
    assert_eq!(rt; put(&mut plant, Area::Disk, 0, 2), Err(Failed));
    assert_eq!(rt; corners(&mut plant, Area::Disk, 0), Ok(Some([1; 4])));
    assert_eq!(rt; corners(&mut plant, Area::Disk, 0), Err(Failed));
    assert_eq!(rt; plant.sync(Area::Disk), Err(Failed));
    assert_eq!(rt; plant.sync(Area::Disk), Ok(()));
    assert_eq!(rt; plant.calls(), 6);
    Ok(())
}

// Two syncs of the disk and one of the flash among five writes.
fn written(alloc: Global) -> Result<SimPlant, Fail> {
    let mut plant = SimPlant::new(alloc, &[9; 1024], &[9; 512], &[])?;
    put(&mut plant, Area::Disk, 0, 1)?;
    put(&mut plant, Area::Disk, 1, 2)?;
    plant.sync(Area::Disk)?;
    put(&mut plant, Area::Disk, 0, 3)?;
    put(&mut plant, Area::Flash, 0, 4)?;
    plant.sync(Area::Flash)?;
    put(&mut plant, Area::Disk, 1, 5)?;
    plant.sync(Area::Disk)?;
    Ok(plant)
}

#[test]
fn crash_leaves_each_sector_by_its_pick(rt: HostRuntime) -> Result<(), Fail> {
    let plant = written(rt.alloc())?;
    let torn = Some([Some([3, 3, 7, 7]), Some([2; 4]), Some([9; 4])]);
    let table: [(u64, &[(Area, u64, Pick)], Option<[Option<[u8; 4]>; 3]>); 16] = [
        (0, &[], whole(9, 9, 9)),
        (1, &[], whole(9, 9, 9)),
        (1, &[(Area::Disk, 0, Pick::New)], whole(1, 9, 9)),
        (2, &[(Area::Disk, 0, Pick::New)], whole(1, 9, 9)),
        (3, &[(Area::Disk, 1, Pick::New)], whole(9, 2, 9)),
        (4, &[], whole(1, 2, 9)),
        (4, &[(Area::Disk, 0, Pick::Old)], whole(1, 2, 9)),
        (4, &[(Area::Disk, 0, Pick::New)], whole(3, 2, 9)),
        (4, &[(Area::Disk, 0, Pick::Torn(7))], torn),
        (5, &[(Area::Flash, 0, Pick::New)], whole(1, 2, 4)),
        (6, &[(Area::Disk, 0, Pick::New)], whole(3, 2, 9)),
        (7, &[(Area::Disk, 0, Pick::New)], whole(3, 2, 4)),
        (8, &[(Area::Disk, 0, Pick::New)], whole(3, 2, 4)),
        (
            8,
            &[(Area::Disk, 1, Pick::New), (Area::Disk, 0, Pick::New)],
            whole(3, 5, 4),
        ),
        (8, &[], whole(1, 2, 4)),
        (
            8,
            &[(Area::Disk, 0, Pick::New), (Area::Disk, 0, Pick::Old)],
            whole(1, 2, 4),
        ),
    ];
    for (moment, picks, want) in table {
        assert_eq!(rt; left_by(&plant, moment, picks)?, want, "at {moment}");
        assert_eq!(rt;
            left_by_snapshot(&plant, moment, picks)?,
            want,
            "at {moment}"
        );
    }
    Ok(())
}

#[test]
fn only_unsynced_sectors_are_picked(rt: HostRuntime) -> Result<(), Fail> {
    let plant = written(rt.alloc())?;
    let table: [(u64, Area, u64, bool); 9] = [
        (0, Area::Disk, 0, false),
        (1, Area::Disk, 0, true),
        (1, Area::Disk, 1, false),
        (3, Area::Disk, 1, true),
        (4, Area::Disk, 1, false),
        (6, Area::Flash, 0, true),
        (7, Area::Flash, 0, false),
        (8, Area::Disk, 0, true),
        (9, Area::Disk, 0, false),
    ];
    for (moment, area, lba, want) in table {
        assert_eq!(rt;
            plant.allows(moment, &[(area, lba, Pick::New)]),
            want,
            "at {moment}"
        );
        let left = left_by_snapshot(&plant, moment, &[(area, lba, Pick::New)])?;
        assert_eq!(rt; left.is_some(), want, "at {moment}");
    }
    Ok(())
}

#[test]
fn failed_calls_make_nothing_durable(rt: HostRuntime) -> Result<(), Fail> {
    let mut plant = SimPlant::new(rt.alloc(), &[9; 1024], &[9; 512], &[2, 3])?;
    put(&mut plant, Area::Disk, 0, 1)?;
    assert_eq!(rt; plant.sync(Area::Disk), Err(Failed));
    assert_eq!(rt; put(&mut plant, Area::Disk, 1, 2), Err(Failed));
    put(&mut plant, Area::Flash, 0, 3)?;
    let torn = Some([Some([1; 4]), Some([9, 9, 7, 7]), Some([9; 4])]);
    let table: [(&[(Area, u64, Pick)], Option<[Option<[u8; 4]>; 3]>); 3] = [
        (&[(Area::Disk, 0, Pick::Old)], whole(9, 9, 9)),
        (&[(Area::Disk, 0, Pick::New)], whole(1, 9, 9)),
        (
            &[(Area::Disk, 0, Pick::New), (Area::Disk, 1, Pick::Torn(7))],
            torn,
        ),
    ];
    for (picks, want) in table {
        assert_eq!(rt; left_by(&plant, 4, picks)?, want);
    }
    Ok(())
}

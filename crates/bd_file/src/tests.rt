use super::*;
use bd_dev::{Area, Failed, Plant, Sink, Source};
use std::fs::{self, OpenFile};
use std::io::Write;
use std::test::Fail;

// The first and the last byte of a sector. None where there is no such sector.
fn ends<P: Plant>(plant: &mut P, area: Area, lba: u64) -> Result<Option<[u8; 2]>, Failed> {
    if lba >= plant.sectors(area) {
        return Ok(None);
    }
    let mut out = [1; 512];
    plant.read(area, lba, &mut out)?;
    Ok(Some([out[0], out[511]]))
}

// Fills a sector with a byte.
fn put<P: Plant>(plant: &mut P, area: Area, lba: u64, byte: u8) -> Result<(), Failed> {
    if lba >= plant.sectors(area) {
        return Err(Failed);
    }
    plant.write(area, lba, &[byte; 512])
}

#[test]
fn plant_reads_and_writes_in_place(rt: HostRuntime) -> Result<(), Fail> {
    let path = "bd_file_in_place.img";
    fs::create(&rt, path)?.set_len(1600)?;
    let mut plant = FilePlant::new(&rt, path, "bd_file_none.img");
    put(&mut plant, Area::Disk, 1, 7)?;
    plant.sync(Area::Disk)?;
    for (lba, want) in [
        (0, Some([0, 0])),
        (1, Some([7, 7])),
        (2, Some([0, 0])),
        (3, None),
    ] {
        assert_eq!(rt; ends(&mut plant, Area::Disk, lba)?, want, "at {lba}");
    }
    assert_eq!(rt; fs::metadata(&rt, path)?.len(), 1600);
    fs::remove_file(&rt, path)?;
    Ok(())
}

#[test]
fn plant_without_file_fails(rt: HostRuntime) -> Result<(), Fail> {
    let mut plant = FilePlant::new(&rt, "bd_file_none.img", "bd_file_none.img");
    assert_eq!(rt; plant.sectors(Area::Flash), 68);
    assert_eq!(rt; ends(&mut plant, Area::Flash, 67), Err(Failed));
    assert_eq!(rt; put(&mut plant, Area::Flash, 67, 7), Err(Failed));
    assert_eq!(rt; plant.sync(Area::Flash), Err(Failed));
    assert!(rt; fs::metadata(&rt, "bd_file_none.img").is_err());
    Ok(())
}

#[test]
fn plant_keeps_a_file_short(rt: HostRuntime) -> Result<(), Fail> {
    let path = "bd_file_short.img";
    let made = fs::create(&rt, path)?;
    made.set_len(1024)?;
    let mut plant = FilePlant::new(&rt, "bd_file_none.img", path);
    made.set_len(1000)?;
    assert_eq!(rt; ends(&mut plant, Area::Flash, 0), Ok(Some([0, 0])));
    assert_eq!(rt; ends(&mut plant, Area::Flash, 1), Err(Failed));
    assert_eq!(rt; put(&mut plant, Area::Flash, 1, 7), Err(Failed));
    assert_eq!(rt; fs::metadata(&rt, path)?.len(), 1000);
    fs::remove_file(&rt, path)?;
    Ok(())
}

#[test]
fn a_file_is_read_from_its_start(rt: HostRuntime) -> Result<(), Fail> {
    let path = "bd_file_source.txt";
    fs::create(&rt, path)?.write_all(b"iface eth0\n")?;
    let mut source = FileSource::new(&rt, path);
    let mut piece = [0; 8];
    let wants: [&[u8]; 3] = [b"iface et", b"h0\n", b""];
    for want in wants {
        let count = source.read(&mut piece)?;
        assert!(rt; count <= 8);
        assert_eq!(rt; &piece[..count.min(8)], want);
    }
    fs::remove_file(&rt, path)?;
    assert_eq!(rt; source.read(&mut piece), Err(Failed));
    Ok(())
}

#[test]
fn a_file_takes_bytes_at_its_end(rt: HostRuntime) -> Result<(), Fail> {
    let path = "bd_file_sink.txt";
    let mut sink = FileSink::new(&rt, path);
    assert_eq!(rt; sink.write(b"x"), Err(Failed));
    sink.make_anew();
    assert_eq!(rt; sink.write(b"1 0 a"), Ok(5));
    assert_eq!(rt; sink.write(b"\n"), Ok(1));
    assert_eq!(rt; fs::metadata(&rt, path)?.len(), 6);
    sink.make_anew();
    assert_eq!(rt; fs::metadata(&rt, path)?.len(), 0);
    fs::remove_file(&rt, path)?;
    Ok(())
}

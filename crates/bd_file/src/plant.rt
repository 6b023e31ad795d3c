//! A plant in two files.

ghost use Rattle.std.specs.Prelude.{◌≡◌};
ghost use Rattle.bd_file.specs.FilePlant.{sectors_of};

use crate::calls::sync;
use crate::faults::FaultCount;
use crate::paths::regular_length;
use bd_dev::{Area, Failed, Plant};
use std::fs::{self, OpenOptions};
use std::io::{self, ErrorKind, Read, Seek, SeekFrom, Write};
use std::marker::Model;
use std::rt::Files;

/// How many sectors an area has whose length isn't told as the plant is made. Each call on it fails.
const UNTOLD: u64 = 68;

/// The file of an area.
#[derive(Clone, Copy, Drop)]
struct AreaFile<'a> {
    path: &'a str,
    // The number of sectors as the plant was made.
    sectors: u64,
    // The system told the length as the plant was made.
    is_told: bool,
}

/// The plant whose disk and flash two files hold. A clause sees it as its sizes and its count of faults.
#[derive(Drop)]
pub struct FilePlant<'a, R> {
    rt: &'a R,
    disk: AreaFile<'a>,
    flash: AreaFile<'a>,
    faults: FaultCount,
}

impl<'a, R> Model for FilePlant<'a, R> {
    ghost use Rattle.bd_file.specs.FilePlant.{Sizes};

    ghost Value = { Sizes };

    ghost view = { λ p. record { disk = p.disk.sectors; flash = p.flash.sectors; faults = p.faults } };
}

impl<'a, R: Files> FilePlant<'a, R> {
    /// The plant in the files of these paths. An area has as many sectors of 512 bytes as its file has whole ones
    /// now, at most 2^40. It has 68 where there is no such file or the system doesn't tell its length, and then each
    /// call on it fails. No fault is counted yet.
    pub fn new(rt: &'a R, disk: &'a str, flash: &'a str) -> FilePlant<'a, R>
        ensures { result.faults ≡ 0 }
    {
        FilePlant {
            rt,
            disk: area_file(rt, disk),
            flash: area_file(rt, flash),
            faults: FaultCount::new(),
        }
    }
}

impl<'a, R: Files> Plant for FilePlant<'a, R> {
    ghost use Rattle.bd_file.specs.FilePlant.{view_of, view_honest};

    ghost view = { view_of };

    ghost honest = { view_honest };

    fn sectors(&self, area: Area) -> u64 {
        file_of(self.disk, self.flash, area).sectors.min(1 << 40)
    }

    /// Opens the file anew. A missing file, one that is too short by now and each error of the system is a fault.
    fn read(&mut self, area: Area, lba: u64, out: &mut [u8]) -> Result<(), Failed> {
        let file = file_of(self.disk, self.flash, area);
        let given = read_area(self.rt, file, 512 * lba, out);
        self.faults.counted(given)
    }

    /// Opens the file anew and writes in place. Never makes the file, makes it longer or cuts it off. A missing
    /// file, one that is too short by now and each error of the system is a fault.
    fn write(&mut self, area: Area, lba: u64, bytes: &[u8]) -> Result<(), Failed> {
        let file = file_of(self.disk, self.flash, area);
        let written = write_area(self.rt, file, 512 * lba, bytes);
        self.faults.counted(written)
    }

    /// Waits until the disk has all that was written to the file. A missing file and each error of the system is a
    /// fault.
    fn sync(&mut self, area: Area) -> Result<(), Failed> {
        let file = file_of(self.disk, self.flash, area);
        let synced = sync_area(self.rt, file);
        self.faults.counted(synced)
    }
}

fn file_of<'a>(disk: AreaFile<'a>, flash: AreaFile<'a>, area: Area) -> AreaFile<'a>
    ensures { result.sectors ≡ sectors_of (record { disk = disk.entry.sectors; flash = flash.entry.sectors; faults = 0 }) area }
{
    match area {
        Area::Disk => disk,
        Area::Flash => flash,
    }
}

fn area_file<'a, R: Files>(rt: &R, path: &'a str) -> AreaFile<'a> {
    match regular_length(rt, path) {
        Ok(length) => AreaFile {
            path,
            sectors: length / 512,
            is_told: true,
        },
        Err(_) => AreaFile {
            path,
            sectors: UNTOLD,
            is_told: false,
        },
    }
}

// The length of the file now. An error where it wasn't told as the plant was made, since the plant has other sectors.
fn length_now<R: Files>(rt: &R, file: AreaFile<'_>) -> io::Result<u64> {
    if !file.is_told {
        return Err(io::Error::from(ErrorKind::NotFound));
    }
    regular_length(rt, file.path)
}

fn read_area<R: Files>(rt: &R, area: AreaFile<'_>, at: u64, out: &mut [u8]) -> io::Result<()> {
    length_now(rt, area)?;
    let mut file = fs::open(rt, area.path)?;
    file.seek(SeekFrom::Start(at))?;
    file.read_exact(out)
}

// A write behind the end would make the file longer, so there is none.
fn write_area<R: Files>(rt: &R, area: AreaFile<'_>, at: u64, bytes: &[u8]) -> io::Result<()> {
    let length = length_now(rt, area)?;
    if length < at || length - at < bytes.len() as u64 {
        return Err(io::Error::from(ErrorKind::UnexpectedEof));
    }
    let mut file = OpenOptions::new().write(true).open(rt, area.path)?;
    file.seek(SeekFrom::Start(at))?;
    file.write_all(bytes)
}

fn sync_area<R: Files>(rt: &R, area: AreaFile<'_>) -> io::Result<()> {
    length_now(rt, area)?;
    let file = OpenOptions::new().write(true).open(rt, area.path)?;
    sync(&file)
}

//! An EEPROM in a file.

ghost use Rattle.std.specs.Prelude.{◌≡◌, ◌≤◌, None, IfOk, length};

use crate::calls::{read_some, sync};
use crate::faults::FaultCount;
use crate::paths::regular_length;
use bd_dev::{Eeprom, Failed};
use std::fs::{self, OpenOptions};
use std::io::{self, Read, Write};
use std::marker::Model;
use std::rt::Files;

/// The EEPROM that a file holds: its first 2,048 bytes, or all of a shorter file. A clause sees it
/// as its count of faults.
#[derive(Drop)]
pub struct FileEeprom<'a, R> {
    rt: &'a R,
    path: &'a str,
    faults: FaultCount,
}

impl<'a, R> Model for FileEeprom<'a, R> {
    ghost use Rattle.std.specs.Prelude.{ℕ};

    ghost Value = { ℕ };

    ghost view = { λ e. e.faults };
}

impl<'a, R> FileEeprom<'a, R> {
    /// The EEPROM in the file of this path. Nothing is opened and no fault counted yet.
    pub fn new(rt: &'a R, path: &'a str) -> FileEeprom<'a, R>
        ensures { result ≡ 0 }
    {
        FileEeprom {
            rt,
            path,
            faults: FaultCount::new(),
        }
    }
}

impl<'a, R: Files> Eeprom for FileEeprom<'a, R> {
    ghost content = { λ _. None };

    ghost faults = { λ faults. faults };

    /// Opens the file anew. A missing file and each error of the system is a fault.
    fn load(&mut self, out: &mut [u8; 2048]) -> Result<usize, Failed> {
        let loaded = load_file(self.rt, self.path, out);
        self.faults.counted(loaded)
    }

    /// Opens the file anew, writes all of the bytes from its front and waits until the disk has
    /// them. Never makes the file or cuts it off. A missing file and each error of the system is a
    /// fault.
    fn store(&mut self, bytes: &[u8]) -> Result<(), Failed> {
        let stored = store_file(self.rt, self.path, bytes);
        self.faults.counted(stored)
    }
}

fn load_file<R: Files>(rt: &R, path: &str, out: &mut [u8; 2048]) -> io::Result<usize>
    ensures { IfOk result (λ n. n ≤ 2048) }
{
    regular_length(rt, path)?;
    let mut file = fs::open(rt, path)?;
    fill(&mut file, out)
}

// Reads until the end, or until `out` is full.
fn fill<F: Read>(file: &mut F, out: &mut [u8]) -> io::Result<usize>
    ensures { IfOk result (λ n. n ≤ length out.new) }
{
    let mut done = 0;
    while done < out.len() {
        let count = read_some(file, &mut out[done..])?;
        if count == 0 {
            return Ok(done);
        }
        done += count;
    }
    Ok(done)
}

// An error may come only as the system writes the bytes to the disk, so that is waited for.
fn store_file<R: Files>(rt: &R, path: &str, bytes: &[u8]) -> io::Result<()> {
    regular_length(rt, path)?;
    let mut file = OpenOptions::new().write(true).open(rt, path)?;
    file.write_all(bytes)?;
    sync(&file)
}

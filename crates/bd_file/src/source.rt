//! A source over a file.

ghost use Rattle.std.specs.Prelude.{◌≡◌, ◌≤◌, None, IfOk, length};

use crate::calls::read_some;
use crate::faults::FaultCount;
use crate::paths::regular_length;
use bd_dev::{Failed, Source};
use std::fs;
use std::io::{self, Seek, SeekFrom};
use std::marker::Model;
use std::rt::Files;

/// The bytes of a file, from its start. A clause sees it as its count of faults.
#[derive(Drop)]
pub struct FileSource<'a, R> {
    rt: &'a R,
    path: &'a str,
    // How many bytes were given.
    given: u64,
    faults: FaultCount,
}

impl<'a, R> Model for FileSource<'a, R> {
    ghost use Rattle.std.specs.Prelude.{ℕ};

    ghost Value = { ℕ };

    ghost view = { λ s. s.faults };
}

impl<'a, R> FileSource<'a, R> {
    /// The bytes of the file of this path. Nothing is opened and no fault counted yet.
    pub fn new(rt: &'a R, path: &'a str) -> FileSource<'a, R>
        ensures { result ≡ 0 }
    {
        FileSource {
            rt,
            path,
            given: 0,
            faults: FaultCount::new(),
        }
    }
}

impl<'a, R: Files> Source for FileSource<'a, R> {
    ghost left = { λ _. None };

    ghost faults = { λ faults. faults };

    /// Opens the file anew and reads behind the bytes that were given. A missing file and each error of the system is
    /// a fault.
    fn read(&mut self, out: &mut [u8]) -> Result<usize, Failed> {
        let read = read_from(self.rt, self.path, self.given, out);
        let count = self.faults.counted(read)?;
        self.given = self.given.saturating_add(count as u64);
        Ok(count)
    }
}

fn read_from<R: Files>(rt: &R, path: &str, at: u64, out: &mut [u8]) -> io::Result<usize>
    ensures { IfOk result (λ n. n ≤ length out.new) }
{
    regular_length(rt, path)?;
    let mut file = fs::open(rt, path)?;
    file.seek(SeekFrom::Start(at))?;
    read_some(&mut file, out)
}

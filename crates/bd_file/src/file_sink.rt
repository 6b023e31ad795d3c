//! A sink over a file.

ghost use Rattle.std.specs.Prelude.{◌≡◌, ◌≤◌, ◌<◌, None, IfOk, length};

use crate::calls::write_some;
use crate::faults::FaultCount;
use crate::paths::{present, regular_length};
use bd_dev::{Failed, Sink};
use std::fs::{self, OpenOptions};
use std::io;
use std::marker::Model;
use std::rt::Files;

/// A file that takes bytes at its end. A clause sees it as its count of faults.
#[derive(Drop)]
pub struct FileSink<'a, R> {
    rt: &'a R,
    path: &'a str,
    // What stands at the path could not be replaced, so nothing may be written to it.
    is_stale: bool,
    faults: FaultCount,
}

impl<'a, R> Model for FileSink<'a, R> {
    ghost use Rattle.std.specs.Prelude.{ℕ};

    ghost Value = { ℕ };

    ghost view = { λ s. s.faults };
}

impl<'a, R: Files> FileSink<'a, R> {
    /// A sink at the end of the file of this path. Nothing is opened and no fault counted yet.
    pub fn new(rt: &'a R, path: &'a str) -> FileSink<'a, R>
        ensures { result ≡ 0 }
    {
        FileSink {
            rt,
            path,
            is_stale: false,
            faults: FaultCount::new(),
        }
    }

    /// Takes away what stands at the path, a link itself and not what it leads to, and makes an empty file there.
    /// Where that can't be done, each write fails.
    pub fn make_anew(&mut self) {
        self.is_stale = replace_file(self.rt, self.path).is_err();
    }
}

impl<'a, R: Files> Sink for FileSink<'a, R> {
    ghost taken = { λ _. None };

    ghost faults = { λ faults. faults };

    /// Opens the file anew and writes once, at its end. Never makes the file. A missing file and each error of the
    /// system is a fault, and so is a file that takes nothing of a nonempty piece, and one that could not be made anew.
    fn write(&mut self, bytes: &[u8]) -> Result<usize, Failed> {
        if self.is_stale {
            return Err(self.faults.count());
        }
        let written = append(self.rt, self.path, bytes);
        self.faults.counted(written)
    }
}

// Only what was not there before is opened: a link would lead elsewhere, and a FIFO would wait for its other end.
fn replace_file<R: Files>(rt: &R, path: &str) -> io::Result<()> {
    present(fs::remove_file(rt, path))?;
    OpenOptions::new()
        .write(true)
        .create_new(true)
        .open(rt, path)?;
    Ok(())
}

fn append<R: Files>(rt: &R, path: &str, bytes: &[u8]) -> io::Result<usize>
    ensures bound { IfOk result (λ n. n ≤ length bytes.now) }
    ensures moves { IfOk result (λ n. 0 < length bytes.now → 0 < n) }
{
    regular_length(rt, path)?;
    let mut file = OpenOptions::new().append(true).open(rt, path)?;
    write_some(&mut file, bytes)
}
